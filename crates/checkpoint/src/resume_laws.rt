//! The theory of saving and resuming one clone: the part of its past that a run needs, and the invariant of every run.
//!
//! A snapshot of a run at a front has the states of the stations and the pending messages. It needs no trace, since a
//! run never reads the trace of its world. By these laws, the resumed run handles the same messages as the
//! unbroken run from that front on:
//!
//! ```text
//! unbroken    1  4  4  9 | 11  12  17 ..
//! saved       1  4  4  9 |                  states, draws and pending messages at the front
//! resumed                | 11  12  17 ..    the entries of `onward`
//! ```
//!
//! The definitions are in `specs/`:
//!
//! - Resume: a world with a past, a world without its trace, and the entries that a run adds from there;
//! - Numbers: pending messages have numbers below the next ones of their senders;
//! - Tally: the sum of a measure over a list;
//! - RunKeeps: the invariant of a network's runs, for example at most one pending tick per source;
//! - SavedLaws: the saved data of a state that meets `IsRunState` fits its station, and restores that state. The states
//!   of runs within the limit meet it, if all decisions come before the horizon.
//!
//! There is nothing to run: the contract of each function is a law. The crates above cite a definition in their
//! contracts and a lemma in their proofs:
//!
//!     use Rattle.checkpoint.proofs.RunKeeps.{run_invariant_holds}
//!
//! Two promises follow from these laws. A resumed run writes the same text as the unbroken run. No snapshot of a run
//! is refused.
ghost use Rattle.net_model.specs.Net.{Net};
ghost use Rattle.net_model.specs.Rules.{IsNet};
ghost use Rattle.checkpoint.specs.Numbers.{PendingNumbersAreUsedInRuns};
ghost use Rattle.checkpoint.specs.Resume.{RunForgetsItsTrace, ResumedIsUnbroken};
ghost use Rattle.checkpoint.specs.SavedLaws.{StateIsRestored, RunStatesAreKept, RunInvariantHolds};
ghost use Rattle.stations.specs.Fitting.{FittingIsRestored};

use run_laws::laws::{NumberingStations, Stations};

/// A run never reads the trace of its world. So the trace of a clone has two parts. The first is the trace of its run
/// to a front. The second has the entries of a run from the states and the pending messages at that front.
pub fn resumed_runs_are_unbroken<S, M, N, T: Stations<S, M, N>>()
    ensures forgets { RunForgetsItsTrace T.sim }
    ensures unbroken { ResumedIsUnbroken T.sim }
{}

/// The numbers of pending messages are used up. A decision's number is a place in the list of decisions. The number of
/// a station's message is below the next number of its sender.
pub fn pending_numbers_are_used<S, M, N, T: NumberingStations<S, M, N>>()
    ensures { PendingNumbersAreUsedInRuns T.sim T.sender T.number T.next }
{}

/// Data that fits a station restores a state of it. If a state meets `IsRunState`, its saved data fits its station and
/// restores that state with its draws. The state of a run's station meets `IsRunState`, if all decisions come before
/// the horizon and the station's log is within the limit. A run whose decisions come before the horizon keeps the
/// invariant of runs.
pub fn runs_are_saved()
    ensures restored { (net : Net) → IsNet net → FittingIsRestored net }
    ensures same { (net : Net) → IsNet net → StateIsRestored net }
    ensures states { (net : Net) → IsNet net → RunStatesAreKept net }
    ensures kept { (net : Net) → IsNet net → RunInvariantHolds net }
{}
