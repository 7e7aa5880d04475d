//! Memory that is reserved for the end of a run.
use decision_desk::Pass;
use journal_text::Looked;
use sim_base::Reserved;

/// Memory for the passes that come back, and for the looks that analysts have made.
#[derive(Drop)]
pub(crate) struct Reserve {
    pub(crate) passes: Vec<Pass>,
    pub(crate) looks: Vec<Reserved<Looked>>,
}
