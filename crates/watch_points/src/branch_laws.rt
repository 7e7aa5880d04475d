//! The laws of watches: the time when a running simulation first meets a condition, and the branch that is then made.
//!
//! A watch is a *trigger* here. A trigger looks at one station of one clone. Its *due time* is the time of the first
//! log entry, at a start or later, whose counts meet a condition. At the due time a branch of the clone is decided. It
//! is a fork with a new name and one change at a station, later by the lookahead. Triggers may watch that branch too,
//! from the time of its change.
//!
//!     log of a server (wait)   0  0  1  1  2              a clone with a branch of its own
//!     time                     1  2  4  5  8
//!     condition: wait >= 2                 ^ due at 8     base ------+--------------- horizon
//!                                            change at       slow-2  +---------------
//!                                            8 + lookahead
//!
//! An engine needs to look only at the ends of windows. The laws show that this is enough:
//!
//! - *Known in time.* The log at a front is the part of each later log before the front. So a due time before the front
//!   is known at the front.
//! - *Never late.* A window ends at most the lookahead after its least due message. No log changes up to the time of
//!   that message, so the window adds no earlier due time. The change then comes at the window's end or later.
//! - *One pass.* The log entries of a branch made at a window's end are all before its start. So no trigger that
//!   watches it is due yet, and one pass through the triggers at each window's end finds every branch.
//! - *Two orders.* The world holds the branches in the order in which they were made. The texts need them in the order
//!   of the triggers. One order is a permutation of the other, so a report's figures are the same in both.
//!
//! Read `specs/` in this order: Due, Branches, Keeping, and `Orders` of `run_laws` have the definitions, BranchLaws and
//! PassLaws the laws. There is nothing to run. The contract of each function is a law, and `due_examples` pins the due
//! time by worked values. The requirements on a simulation are in `run_laws::laws`.
//!
//! The promises: at every front, a world that follows these passes holds exactly the branches that follow from the logs
//! before the front. At the horizon these are the branches of the whole run, each forked and changed in time.
ghost use Rattle.watch_points.specs.Keeping.{ClonesInTriggerOrder};
ghost use Rattle.watch_points.specs.BranchLaws.{BeyondStays, BranchesAreAppended, BranchesStay, BranchIsNotLate};
ghost use Rattle.watch_points.specs.BranchLaws.{DueAtFront, DueBeforeFront, DueIsNotLate, ForkThenSetAppends};
ghost use Rattle.watch_points.specs.BranchLaws.{HeldClonesStay, MadeBranchHasNoEnd, NewNameIsOutcome};
ghost use Rattle.watch_points.specs.BranchLaws.{NothingDueLeavesLogs, OutcomeIsOfEarlier, ScriptNameIsFound};
ghost use Rattle.watch_points.specs.PassLaws.{HoldsAtStart, PassBegins, PassEnds, PassGoesOn};

use run_laws::laws::{NumberingStations, Stations};

/// A due time is known at the end of its window, and a change that is decided there is not late.
pub fn due_times_are_known<S, M, N, T: NumberingStations<S, M, N>>()
    ensures nothing_due { NothingDueLeavesLogs T.sim }
    ensures before_front { DueBeforeFront T.sim }
    ensures known { DueAtFront T.sim }
    ensures not_late { DueIsNotLate T.sim }
{}

/// A branch that was made stays, and it was made no later than its change.
pub fn branches_are_made_in_time<S, M, N, T: NumberingStations<S, M, N>>()
    ensures stay { BranchesStay T.sim }
    ensures not_late { BranchIsNotLate T.sim }
{}

/// Branches are appended in the order of their triggers, and each trigger finds the branches of the triggers before it.
/// A branch that a trigger makes has no end.
pub fn branches_are_appended<S, M, N, T: Stations<S, M, N>>()
    ensures appended { BranchesAreAppended T.sim }
    ensures outcome { OutcomeIsOfEarlier T.sim }
    ensures branch_name { NewNameIsOutcome T.sim }
    ensures no_end { MadeBranchHasNoEnd T.sim }
{}

/// A script's clone is found by its name, and a fork and then a set append a branch.
pub fn script_clones_are_forked()
    ensures script_name { ScriptNameIsFound }
    ensures fork_and_set { ForkThenSetAppends }
{}

/// Clones that hold the branches are, in the order of the triggers, the script's clones and then the branches.
pub fn clones_are_in_trigger_order<S, M, N, T: Stations<S, M, N>>()
    ensures in_order { ClonesInTriggerOrder T.sim }
{}

/// At front 0 the script's clones hold the branches. A pass through the triggers at a window's end turns clones that
/// hold the front's branches into clones that hold the bound's.
pub fn passes_hold_branches<S, M, N, T: NumberingStations<S, M, N>>()
    ensures start { HoldsAtStart T.sim }
    ensures begins { PassBegins T.sim }
    ensures goes_on { PassGoesOn T.sim }
    ensures ends { PassEnds T.sim }
{}

/// Clones on the way to the horizon are among the clones of the whole run, and a log beyond the limit stays beyond it.
pub fn clones_on_the_way_stay<S, M, N, T: NumberingStations<S, M, N>>()
    ensures clones { HeldClonesStay T.sim }
    ensures beyond { BeyondStays T.sim }
{}
