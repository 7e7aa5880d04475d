//! Laws of decisions: each function's contract is a law, and there is nothing to run.
//!
//! `specs/Laws.antt` states the laws.
ghost use Rattle.net_model.specs.Net.{Net};
ghost use Rattle.decision_book.specs.Laws.{SituationOfJournal, PlansAreForStations};
ghost use Rattle.decision_book.specs.Laws.{AskingIsAfterDecision, SituationOfScript};
ghost use Rattle.decision_book.specs.Laws.{ScriptIsRight, AcceptedAdds, RefusedFirst};
ghost use Rattle.decision_book.specs.Laws.{AcceptedLeavesNoRefusal, RefusedIsFirst};
ghost use Rattle.decision_book.specs.Laws.{AloneSuffices, OwnScriptSuffices, JournalIsScript, ClosedChangesNothing};

/// The situation after a journal, and the effect of a decision on it.
#[tactic(auto, using(crate::proofs::Scripts::situation_of_journal, crate::proofs::Scripts::asking_is_after_decision))]
pub fn situations_of_journals()
    ensures situation { (net : Net) → SituationOfJournal net }
    ensures journal_with { (net : Net) → AskingIsAfterDecision net }
{}

/// The decisions of a book's lists are for stations of the network.
#[tactic(auto, using(crate::proofs::Planned::plans_are_for_stations))]
pub fn plans_are_for_stations()
    ensures { (net : Net) → PlansAreForStations net }
{}

/// The situation after the decisions of a script, made in order at front 0.
pub fn scripts_are_decided()
    ensures situation { (net : Net) → SituationOfScript net }
    ensures right { (net : Net) → ScriptIsRight net }
    ensures accepted { (net : Net) → AcceptedAdds net }
    ensures refused { (net : Net) → RefusedFirst net }
    ensures none { (net : Net) → AcceptedLeavesNoRefusal net }
    ensures first { (net : Net) → RefusedIsFirst net }
{}

/// A clone's own decisions lead to the same list and the same end as all decisions of a script.
pub fn alone_suffices()
    ensures { (net : Net) → AloneSuffices net }
{}

/// A clone's own script leads to the same list and the same end as the whole script, if all decisions of that are
/// accepted.
pub fn own_script_suffices()
    ensures { (net : Net) → OwnScriptSuffices net }
{}

/// The accepted decisions of a right journal are a script that leads to the same clones. Calls at the horizon do not
/// change the clones.
pub fn journals_are_scripts()
    ensures script { (net : Net) → JournalIsScript net }
    ensures closed { (net : Net) → ClosedChangesNothing net }
{}
