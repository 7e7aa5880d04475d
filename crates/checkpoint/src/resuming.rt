//! The run from a snapshot.
ghost use Rattle.std.specs.Prelude.{◌≡◌, ◌+◌, ◌≤◌, length, min, unwrap_or, IfOk, IfErr};
ghost use Rattle.net_model.specs.Rules.{IsNet};
ghost use Rattle.checkpoint.specs.Accepted.{IsAccepted};
ghost use Rattle.checkpoint.specs.Laws.{StaysOnward, StopsOnward};
ghost use Rattle.checkpoint.specs.Snapshots.{onward as onward', restored_from};

use crate::snapshot::Snapshot;
use net_model::Model;
use sim_base::{NoMemory, Steps};
use solo_run::{Solo, SoloFault};
use stations::{RestoreFault, State};
use std::alloc::Global;
use std::sync::ledger::Ledger;

// The states that the saved data restores, in order.
fn restore_all(alloc: Global, model: &Model, snapshot: &Snapshot) -> Result<Vec<State>, NoMemory>
    requires accepted { IsAccepted model.now snapshot.now }
    ensures valid { IsNet model.now }
    ensures value { IfOk result (λ states. states.items ≡ restored_from model.now 1 snapshot.now.saved) }
{
    let mut states = Vec::new(alloc);
    for s in 0..model.len() {
        match State::restore(alloc, model, s + 1, snapshot.saved(s + 1)) {
            Ok(state) => states.push(state)?,
            Err(RestoreFault::NoMemory) => return Err(NoMemory),
            Err(RestoreFault::Unfit) => unreachable!(),
        }
    }
    Ok(states)
}

/// The time at which a clone with this end stops: its end, or the horizon if that is earlier.
pub fn last_front(model: &Model, end: Option<u64>) -> u64
    ensures value { result ≡ min model.now.horizon (unwrap_or end model.now.horizon) }
    ensures within { result ≤ model.now.horizon }
{
    match end {
        Some(end) => end.min(model.horizon()),
        None => model.horizon(),
    }
}

/// The run from a snapshot to the clone's end, or else to the horizon. Its trace has what is handled from the
/// snapshot's front on.
///
/// Counts a step for each message handled. It stops where a station would handle more messages than the limit. The
/// messages that the stations handled before the snapshot count too.
pub fn onward<L: Ledger>(
    alloc: Global,
    model: &Model,
    snapshot: &Snapshot,
    steps: &mut Steps<L>,
) -> Result<Solo, SoloFault>
    requires accepted { IsAccepted model.now snapshot.now }
    ensures trace { IfOk result (λ solo. solo.trace ≡ onward' model.now snapshot.now) }
    ensures stays { IfOk result (λ solo. StaysOnward model.now snapshot.now) }
    ensures steps { IfOk result (λ solo. steps.new ≡ steps.old + length solo.trace) }
    ensures stops { IfErr result (λ e. StopsOnward model.now snapshot.now steps.old steps.new e) }
{
    let Ok(states) = restore_all(alloc, model, snapshot) else {
        return Err(SoloFault::NoMemory);
    };
    let Ok(solo) = Solo::resumed(alloc, model, states, snapshot.due()) else {
        return Err(SoloFault::NoMemory);
    };
    let last = last_front(model, snapshot.end());
    match solo.run_on(model, last, steps) {
        Ok(solo) => Ok(solo),
        Err(fault) => Err(fault),
    }
}
