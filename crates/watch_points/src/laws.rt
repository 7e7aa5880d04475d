//! The laws of watches over networks: each function's contract is a law, and there is nothing to run.
//!
//! `specs/Laws.antt` and `specs/FittingWatches.antt` have them in words, and `branch_laws` those over any simulation.
ghost use Rattle.net_model.specs.Net.{Net};
ghost use Rattle.net_model.specs.Rules.{IsNet};
ghost use Rattle.stations.specs.Runs.{simulation};
ghost use Rattle.watch_points.specs.BranchLaws.{BeyondStays, BranchesStay, BranchIsNotLate, DueAtFront, DueIsNotLate};
ghost use Rattle.watch_points.specs.PassLaws.{PassGoesOn};
ghost use Rattle.watch_points.specs.CloneNumbers.{NumbersNameClones};
ghost use Rattle.watch_points.specs.Firsts.{FirstFaultIsFound, FirstRefusedIsFound};
ghost use Rattle.watch_points.specs.FittingWatches.{AcceptedWatchesFit};
ghost use Rattle.watch_points.specs.Laws.{FiguresAreTheSame, FollowedClonesAreInOrder, FollowedClonesStay};
ghost use Rattle.watch_points.specs.Laws.{OrderHasAllClones, TotalIsTheSame};

/// A due time is known at each front after it, and a change that is decided at its window's end is not late.
pub fn waits_are_known_in_time()
    ensures known { (net : Net) → IsNet net → DueAtFront (simulation net) }
    ensures not_late { (net : Net) → IsNet net → DueIsNotLate (simulation net) }
{}

/// A branch that was made stays, and it was made no later than its change. A pass through the watches, however many
/// are due, makes the branches of a window.
pub fn branches_are_made_in_time()
    ensures stay { (net : Net) → IsNet net → BranchesStay (simulation net) }
    ensures not_late { (net : Net) → IsNet net → BranchIsNotLate (simulation net) }
    ensures pass { (net : Net) → IsNet net → PassGoesOn (simulation net) }
{}

/// A fault names the first line that breaks a rule: that line breaks it, and no line before it breaks any. A text
/// without such a line states the watches that its lines say.
#[tactic(auto, using(crate::proofs::FirstFaults::first_fault_is_found))]
pub fn faults_name_the_first_line()
    ensures { FirstFaultIsFound }
{}

/// Of watches that do not fit the first is named: it is refused by that reply after those before it, and none of
/// these is refused.
#[tactic(auto, using(crate::proofs::FirstFaults::first_refused_is_found))]
pub fn the_first_refused_watch_is_named()
    ensures { FirstRefusedIsFound }
{}

/// Watches that the table of refusals accepts have new names for their branches, room for these, and each its clone
/// without an end and its stations.
pub fn accepted_watches_fit()
    ensures { AcceptedWatchesFit }
{}

/// A world that a watcher follows has the script's clones and the branches that its front brings. Put in the order of
/// the watches, its clones are at the horizon those of the whole run. The number of a clone represents its name.
pub fn followed_clones_are_in_order()
    ensures order { OrderHasAllClones }
    ensures clones { FollowedClonesAreInOrder }
    ensures stay { FollowedClonesStay }
    ensures beyond { (net : Net) → IsNet net → BeyondStays (simulation net) }
    ensures names { NumbersNameClones }
{}

/// The figures of a report do not depend on the order in which the clones were made.
pub fn figures_ignore_order()
    ensures figures { FiguresAreTheSame }
    ensures total { TotalIsTheSame }
{}
