//! Event execution in a one-thread run, called a turn: the least pending message is handled at its station, and the
//! sends become pending. A message that fits 16 bytes is handled packed if possible.
ghost use Rattle.std.specs.Prelude.{◌≡◌, ◌+◌, ◌-◌, ◌≤◌, ◌<◌, ℕ};
ghost use Rattle.std.specs.Prelude.{length, IfErr, IfOk, OnOk, slice_get, Some, true, false};
ghost use Rattle.arrayvec.specs.ArrayVec.{array_vec_len};
ghost use Rattle.sim_base.specs.Order.{msg_cmp};
ghost use Rattle.run_laws.specs.Queue.{insert_all};
ghost use Rattle.net_model.specs.Rules.{IsNet};
ghost use Rattle.stations.specs.Fits.{SuitsNet};
ghost use Rattle.stations.specs.Handling.{StateView};
ghost use Rattle.stations.specs.declared.sender.TheConstants.{MAX_EVENT_TIMES};
ghost use Rattle.solo_run.specs.EventLists.{IsForStation, all_messages};
ghost use Rattle.solo_run.specs.SoloView.{Entries, IsSoloAfter, with_due};
ghost use Rattle.solo_run.specs.Turns.{HandlesAt, HasEnded, HasTurned, HasTurnedBefore, StopsAt, StopsBefore};
ghost use Rattle.solo_run.specs.declared.turn.SoloFault.TheVariants.{Limit};

use crate::event_list::EventList;
use crate::solo::Solo;
use arrayvec::ArrayVec;
use net_model::Model;
use sim_base::{Entry, Line, Msg, NoMemory, Steps};
use stations::state::handle;
use stations::{MAX_SENDS, State};
use std::sync::ledger::Ledger;

/// Why a run stops.
#[derive(Clone, Copy, Debug, PartialEq, Eq)]
pub enum SoloFault {
    /// Out of memory; the run is lost.
    NoMemory,
    /// A station would handle more messages than it may: the station of the first such message, and the limit.
    Limit { station: u32, kept: u64 },
}

// Makes messages for stations pending.
pub(crate) fn put_all(pending: &mut EventList, sends: &[Msg]) -> Result<(), NoMemory>
    ensures ok { OnOk result (all_messages pending.new ≡ insert_all msg_cmp sends.now (all_messages pending.old)) }
{
    for msg in sends {
        pending.insert(*msg)?;
    }
    Ok(())
}

// The fault that stops the run, if a station has already handled as many messages as it may.
#[inline(always)]
pub(crate) fn may_handle(state: &State, model: &Model, station: u32) -> Result<(), SoloFault>
    ensures ok { OnOk result (state.now.handled < model.now.limit) }
    ensures full { IfErr result (λ e. (e ≡ Limit station model.now.limit) × (model.now.limit ≤ state.now.handled)) }
    ensures valid { IsNet model.now }
{
    let limit = model.limit();
    if state.handled() >= limit {
        return Err(SoloFault::Limit {
            station,
            kept: limit,
        });
    }
    Ok(())
}

// The message's station handles it, unless it has already handled as many as it may.
fn handle_at<L: Ledger>(
    states: &mut Vec<State>,
    model: &Model,
    msg: &Msg,
    out: &mut ArrayVec<Msg, MAX_SENDS>,
    steps: &mut Steps<L>,
) -> Result<Line, SoloFault>
    // required: a message to a station of the model, and the states of its stations in order
    requires receiver { IsForStation (length model.now.sites) msg.now }
    requires count { length states.old.items ≡ length model.now.sites }
    requires suits { (i : ℕ) (st : StateView) → slice_get states.old.items i ≡ Some st → SuitsNet model.now st }
    requires numbers { (i : ℕ) (st : StateView) → slice_get states.old.items i ≡ Some st → (st.sender.station ≡ i + 1) }
    // a time at which a station may handle a message, and an empty `out`
    requires time_max { msg.now.key.time < MAX_EVENT_TIMES }
    requires empty { array_vec_len out.old ≡ 0 }
    // result: the receiver's state after the message, the other states unchanged, the sends and the line; it counts a
    // step
    ensures ok { IfOk result (λ line. HandlesAt model.now (msg.now.to - 1) msg.now states.old.items states.new.items
        out.new.items line) }
    ensures counted { OnOk result (steps.new ≡ steps.old + 1) }
    // invariant, also on errors: the number of states
    ensures same_count { length states.new.items ≡ length states.old.items }
    // errors: out of memory, or the station has reached the limit; then no step is counted
    ensures full { IfErr result (λ e. StopsAt model.now (msg.now.to - 1) states.old.items steps.old steps.new e) }
{
    let state = &mut states[msg.to as usize - 1];
    may_handle(state, model, msg.to)?;
    match handle(state, model, msg, out, steps) {
        Ok(line) => Ok(line),
        Err(_) => Err(SoloFault::NoMemory),
    }
}

impl Solo {
    /// Executes the first event before a front, which is at most the horizon. Returns whether there was one.
    ///
    /// `out` is a buffer for the sends.
    #[inline(always)]
    pub(crate) fn next_turn<L: Ledger>(
        &mut self,
        model: &Model,
        front: u64,
        out: &mut ArrayVec<Msg, MAX_SENDS>,
        steps: &mut Steps<L>,
    ) -> Result<bool, SoloFault>
        ghost past: { Entries }
        requires solo { IsSoloAfter model.now past self.old }
        requires time_max { front ≤ model.now.horizon }
        ensures turned { IfOk result (λ more. more ≡ true →
            HasTurnedBefore model.now past front self.old self.new steps.old steps.new) }
        ensures ended { IfOk result (λ more. more ≡ false → HasEnded front self.old self.new steps.old steps.new) }
        ensures stops { IfErr result (λ e. StopsBefore model.now front self.old steps.old steps.new e) }
    {
        if self.turn_packed(model, front, steps)? {
            return Ok(true);
        }
        self.turn_whole(model, front, out, steps)
    }

    // The same for messages of any size.
    fn turn_whole<L: Ledger>(
        &mut self,
        model: &Model,
        front: u64,
        out: &mut ArrayVec<Msg, MAX_SENDS>,
        steps: &mut Steps<L>,
    ) -> Result<bool, SoloFault>
        ghost past: { Entries }
        requires solo { IsSoloAfter model.now past self.old }
        requires time_max { front ≤ model.now.horizon }
        ensures turned { IfOk result (λ more. more ≡ true →
            HasTurnedBefore model.now past front self.old self.new steps.old steps.new) }
        ensures ended { IfOk result (λ more. more ≡ false → HasEnded front self.old self.new steps.old steps.new) }
        ensures stops { IfErr result (λ e. StopsBefore model.now front self.old steps.old steps.new e) }
    {
        let Some(due) = self.pending.take_before(front) else {
            return Ok(false);
        };
        self.turn(model, &due, out, steps)?;
        Ok(true)
    }

    // Executes one event: the due message is handled at its station.
    //
    // `out` is a buffer for the sends; it is emptied first. Counts a step.
    fn turn<L: Ledger>(
        &mut self,
        model: &Model,
        msg: &Msg,
        out: &mut ArrayVec<Msg, MAX_SENDS>,
        steps: &mut Steps<L>,
    ) -> Result<(), SoloFault>
        ghost past: { Entries }
        requires solo { IsSoloAfter model.now past (with_due msg.now self.old) }
        requires time_max { msg.now.key.time < MAX_EVENT_TIMES }

        // the run reaches the state after the turn
        ensures turned { OnOk result (HasTurned model.now self.old msg.now self.new) }
        ensures solo { OnOk result (IsSoloAfter model.now past self.new) }

        // one message was handled
        ensures counted { OnOk result (steps.new ≡ steps.old + 1) }
        ensures longer { OnOk result (length self.new.trace ≡ length self.old.trace + 1) }

        // the reason if it was not
        ensures full { IfErr result (λ e. StopsAt model.now (msg.now.to - 1) self.old.states steps.old steps.new e) }
    {
        out.clear();
        let line = handle_at(&mut self.states, model, msg, out, steps)?;
        let Ok(()) = put_all(&mut self.pending, out.as_slice()) else {
            return Err(SoloFault::NoMemory);
        };
        let Ok(()) = self.trace.push(Entry { msg: *msg, line }) else {
            return Err(SoloFault::NoMemory);
        };
        Ok(())
    }
}
