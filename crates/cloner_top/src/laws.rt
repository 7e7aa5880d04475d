//! Laws on the program's results: a clone's own script and a live study's journal reproduce the output, and a resumed
//! run writes what the unbroken one writes. The part of a file that a fetch returns is read as the whole file is.
ghost use Rattle.cloner_top.specs.GoingOn.{SavedRunsGoOn};
ghost use Rattle.cloner_top.specs.Journals.{JournalRunsTheSame};
ghost use Rattle.cloner_top.specs.OwnScripts.{OwnScriptWritesTheSame};
ghost use Rattle.cloner_top.specs.Prefixes.{PrefixesStateTheSame};

/// If all decisions of a script are accepted, `solo` has the same possible endings with the clone's own script as with
/// the whole script.
#[tactic(auto, using(crate::proofs::OwnScriptLaws::own_script))]
pub fn own_script_writes_the_same()
    ensures { OwnScriptWritesTheSame }
{}

/// The lines of a live study's journal, without comments, are a script. `run` with that script may end by writing the
/// same traces and report as the study.
#[tactic(auto, using(crate::proofs::JournalLaws::journal_runs))]
pub fn journal_runs_the_same()
    ensures { JournalRunsTheSame }
{}

/// The bytes that a fetch returns are read as the same model and script as the whole file. This includes files that are
/// longer than a fetch: both texts are then refused as too long.
pub fn prefixes_state_the_same()
    ensures { PrefixesStateTheSame }
{}

/// What `save` writes of a clone, `resume` turns into what `solo` writes of it. It never refuses that text: it writes
/// the same bytes, or it meets the limit at the same station. The two parts handle as many messages as the whole.
pub fn saved_runs_go_on()
    ensures { SavedRunsGoOn }
{}
