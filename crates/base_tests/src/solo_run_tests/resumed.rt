//! Runs that are saved at a front and resumed from their states and pending messages.
ghost use Rattle.std.specs.Prelude.{◌≡◌, length, IfOk};
ghost use Rattle.solo_run.specs.SoloView.{Entries, IsSolo, IsSoloAfter};

use super::traces::one_desk_trace;
use log_chain::Log;
use net_model::{Model, read_model};
use sample_models::ONE_DESK;
use sim_base::{Entry, Msg, NoMemory, Steps};
use solo_run::{Solo, SoloFault};
use stations::State;
use std::alloc::Global;
use std::sync::ledger::Ledger;

/// A front of the worked example. `due` has the places of its pending messages in the trace, in order. `handled` has
/// the number of messages that each station has handled.
struct Front {
    time: u64,
    due: &'static [usize],
    handled: [u64; 3],
}

const FRONTS: [Front; 4] = [
    Front {
        time: 0,
        due: &[0],
        handled: [0, 0, 0],
    },
    Front {
        time: 6,
        due: &[2, 4],
        handled: [1, 1, 0],
    },
    Front {
        time: 8,
        due: &[3, 4],
        handled: [2, 1, 0],
    },
    Front {
        time: 20,
        due: &[],
        handled: [2, 4, 2],
    },
];

/// Whether the pending messages are those of the entries at these places.
fn are_due(due: &[Msg], trace: &[Entry], places: &[usize]) -> bool {
    if due.len() != places.len() {
        return false;
    }
    for i in 0..places.len() {
        match trace.get(places[i]) {
            Some(entry) if entry.msg == due[i] => {}
            _ => return false,
        }
    }
    true
}

/// Whether each station has handled this number of messages.
fn have_handled(model: &Model, solo: &Solo, handled: &[u64]) -> bool
    requires count { length solo.now.states ≡ length model.now.sites }
{
    if handled.len() != model.len() as usize {
        return false;
    }
    for i in 0..model.len() {
        if solo.state(i + 1).handled() != handled[i as usize] {
            return false;
        }
    }
    true
}

/// Copies of the states of the stations, in order.
fn copy_states(alloc: Global, model: &Model, solo: &Solo) -> Result<Vec<State>, NoMemory>
    requires count { length solo.now.states ≡ length model.now.sites }
    ensures value { IfOk result (λ states. states.items ≡ solo.now.states) }
{
    let mut states = Vec::new(alloc);
    for i in 0..model.len() {
        states.push(solo.state(i + 1).copy(alloc)?)?;
    }
    Ok(states)
}

/// A run that is resumed from the states and the pending messages of another.
fn resume(alloc: Global, model: &Model, solo: &Solo) -> Result<Solo, NoMemory>
    requires solo { IsSolo model.now solo.now }
    ensures after { IfOk result (λ again. IsSoloAfter model.now solo.now.trace again) }
{
    let states = copy_states(alloc, model, solo)?;
    let due = solo.due(alloc)?;
    Solo::resumed(alloc, model, states, due.as_slice())
}

/// The resumed run at the horizon. Its caller has the past in the trace of `_before`.
fn run_after<L: Ledger>(
    model: &Model,
    _before: &Solo,
    again: Solo,
    steps: &mut Steps<L>,
) -> Result<Solo, SoloFault>
    ghost past: { Entries }
    requires after { IsSoloAfter model.now past again }
{
    again.run_on(model, model.horizon(), steps)
}

/// Whether the entries of two logs, one after the other, are exactly these.
fn hold(before: &Log, after: &Log, entries: &[Entry]) -> bool {
    let mut first = before.walk_from(0);
    let mut second = after.walk_from(0);
    for entry in entries {
        let next = match first.next() {
            None => second.next(),
            some => some,
        };
        if next != Some(*entry) {
            return false;
        }
    }
    first.next().is_none() && second.next().is_none()
}

/// Whether the example has the pending messages and counts of a front's row, and handles the rest of its trace once it
/// is resumed.
fn goes_on<L: Ledger>(alloc: Global, model: &Model, front: &Front, steps: &mut Steps<L>) -> bool {
    if front.time > model.horizon() {
        return false;
    }
    let Ok(solo) = Solo::new(alloc, model, &[]) else {
        return false;
    };
    let Ok(solo) = solo.run_to(model, front.time, steps) else {
        return false;
    };
    let Ok(again) = resume(alloc, model, &solo) else {
        return false;
    };
    let Ok(due) = again.due(alloc) else {
        return false;
    };
    if !are_due(due.as_slice(), &one_desk_trace(), front.due)
        || !have_handled(model, &again, &front.handled)
    {
        return false;
    }
    let Ok(again) = run_after(model, &solo, again, steps) else {
        return false;
    };
    hold(solo.trace(), again.trace(), &one_desk_trace())
}

/// Whether the example can be resumed at each front.
pub fn resumed_runs<L: Ledger>(alloc: Global, steps: &mut Steps<L>) -> bool {
    let Ok(model) = read_model(alloc, ONE_DESK.as_bytes()) else {
        return false;
    };
    for front in &FRONTS {
        if !goes_on(alloc, &model, front, steps) {
            return false;
        }
    }
    true
}
