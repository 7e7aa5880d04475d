//! Analysts: the users of an interactive simulation.
ghost use Rattle.std.specs.Prelude.{◌≤◌, length};
ghost use Rattle.decision_script.specs.declared.script.TheConstants.{MAX_ITEMS};

use decision_desk::Pass;
use decision_script::Act;
use journal_text::Looked;
use sim_base::Reserved;

/// An analyst, with what it will do and what it has seen.
#[derive(Drop)]
pub struct Analyst {
    /// From 1, as the desk numbers its callers.
    pub number: u32,
    /// Its handle on the desk.
    pub pass: Pass,
    /// What it will do, in order.
    pub todo: Vec<Act>,
    /// What it saw at its looks, in order.
    pub looks: Reserved<Looked>,
    pub ghost at_most: { length todo.items ≤ MAX_ITEMS },
}
