//! The laws of saved runs: each function's contract is a law, and there is nothing to run.
ghost use Rattle.net_model.specs.Net.{Net};
ghost use Rattle.net_model.specs.Rules.{IsNet};
ghost use Rattle.study_run.specs.SavedRunLaws.{SavedRunsAreResumed};
ghost use Rattle.study_run.specs.SayableRuns.{ScriptsAreSayable};
ghost use Rattle.study_run.specs.ScriptLaws.{SavedScriptsAreResumed, ScriptsArePlanned};

/// Words can say all clones of a script.
#[tactic(auto, using(crate::proofs::Sayable::scripts_are_sayable))]
pub fn scripts_are_sayable()
    ensures { ScriptsAreSayable }
{}

/// The text of a clone that was stopped is read back, and the run from it is the unbroken run.
pub fn saved_runs_are_resumed()
    ensures { (net : Net) → IsNet net → SavedRunsAreResumed net }
{}

/// A book may have all clones of a script: few enough, each with few enough decisions, for stations that accept them,
/// before the horizon.
pub fn scripts_are_planned()
    ensures { ScriptsArePlanned }
{}

/// Whatever text was saved of a clone of a script, it is read back, and the run from it is the unbroken run.
pub fn saved_scripts_are_resumed()
    ensures { SavedScriptsAreResumed }
{}
