//! The laws of snapshots: each function's contract is a law, and there is nothing to run.
ghost use Rattle.net_model.specs.Net.{Net};
ghost use Rattle.net_model.specs.Rules.{IsNet};
ghost use Rattle.checkpoint.specs.Firsts.{FirstBadIsFirst, FirstBeyondIsFirst, FirstUnfitIsFirst};
ghost use Rattle.checkpoint.specs.Laws.{AcceptedMayGoOn, ResumedRunIsUnbroken, ResumedTextIsWhole};
ghost use Rattle.checkpoint.specs.Laws.{RunIsAccepted};

/// A run may go on from an accepted snapshot. The snapshot of a run is accepted, and the run from it handles the same
/// messages as the run that was not stopped. So the two runs have the same text.
pub fn resumed_runs_are_unbroken()
    ensures goes_on { (net : Net) → IsNet net → AcceptedMayGoOn net }
    ensures accepted { (net : Net) → IsNet net → RunIsAccepted net }
    ensures unbroken { (net : Net) → IsNet net → ResumedRunIsUnbroken net }
    ensures text { (net : Net) → IsNet net → ResumedTextIsWhole net }
{}

/// A refused snapshot names the first station whose data does not fit, or the first message that may not be pending:
/// it breaks the rule, and none before it does.
pub fn refusals_name_the_first()
    ensures unfit { (net : Net) → FirstUnfitIsFirst net }
    ensures bad { (net : Net) → FirstBadIsFirst net }
{}

/// A resumed run that meets the limit names the station of the first entry, in the order of keys, that finds the log of
/// its station full. The entries of the past count.
pub fn the_limit_is_met_in_key_order()
    ensures { (net : Net) → IsNet net → FirstBeyondIsFirst net }
{}
