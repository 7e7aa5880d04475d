//! Event execution of a packed message that is no change. It sends at most two messages, both packed.
ghost use Rattle.std.specs.Prelude.{◌≡◌, ◌+◌, ◌-◌, ◌≤◌, ◌<◌, ℕ, true, false};
ghost use Rattle.std.specs.Prelude.{length, IfErr, IfOk, OnOk, slice_get, Some};
ghost use Rattle.std.specs.List.{AllByRecursion};
ghost use Rattle.msg_heap.specs.Contents.{as_payload};
ghost use Rattle.net_model.specs.declared.limits.TheConstants.{MAX_HORIZON};
ghost use Rattle.stations.specs.Fits.{SuitsNet};
ghost use Rattle.stations.specs.Handling.{StateView};
ghost use Rattle.stations.specs.Quick.{IsQuick, sends_of};
ghost use Rattle.solo_run.specs.EventLists.{IsForStation};
ghost use Rattle.solo_run.specs.SoloView.{Entries, IsSoloAfter};
ghost use Rattle.solo_run.specs.Turns.{HandlesAt, HasTurnedBefore, StopsAt, StopsBefore};

use crate::solo::Solo;
use crate::turn::{SoloFault, may_handle};
use msg_heap::{Content, PackedLine, PackedMsg};
use net_model::Model;
use sim_base::Steps;
use stations::state::{handle_quick, is_quick};
use stations::{QuickSends, State};
use std::sync::ledger::Ledger;

// The message's station handles it, unless it has already handled as many as it may.
#[inline(always)]
fn handle_packed<L: Ledger>(
    states: &mut Vec<State>,
    model: &Model,
    msg: PackedMsg,
    content: Content,
    steps: &mut Steps<L>,
) -> Result<(QuickSends, PackedLine), SoloFault>
    // required: a message to a station of the model, its content, and the states of its stations in order
    requires receiver { IsForStation (length model.now.sites) msg }
    requires content { as_payload content ≡ msg.payload }
    requires count { length states.old.items ≡ length model.now.sites }
    requires suits { (i : ℕ) (st : StateView) → slice_get states.old.items i ≡ Some st → SuitsNet model.now st }
    requires numbers { (i : ℕ) (st : StateView) → slice_get states.old.items i ≡ Some st → (st.sender.station ≡ i + 1) }
    // a time before the horizon, and small numbers of the receiver
    requires time_max { msg.key.time ≤ MAX_HORIZON }
    requires quick { (st : StateView) → slice_get states.old.items (msg.to - 1) ≡ Some st → IsQuick 1 st }
    // result: the receiver's state after the message, the other states unchanged, the sends and the line; it counts a
    // step. Each send is later than the message
    ensures ok { IfOk result (λ r. HandlesAt model.now (msg.to - 1) msg states.old.items states.new.items
        (sends_of r.0) r.1) }
    ensures later { IfOk result (λ r. AllByRecursion (λ m. msg.key.time < m.key.time) (sends_of r.0)) }
    ensures counted { OnOk result (steps.new ≡ steps.old + 1) }
    // errors: out of memory, or the station has reached the limit; then no step is counted
    ensures full { IfErr result (λ e. StopsAt model.now (msg.to - 1) states.old.items steps.old steps.new e) }
{
    let station = msg.to();
    let state = &mut states[station as usize - 1];
    may_handle(state, model, station)?;
    match handle_quick(state, model, model.station(station), msg, content, steps) {
        Ok(handled) => Ok(handled),
        Err(_) => Err(SoloFault::NoMemory),
    }
}

impl Solo {
    /// Executes the first event before a front, which is at most the horizon, if it can be handled packed. Returns
    /// whether it was. If not, nothing changes.
    #[inline(always)]
    pub(crate) fn turn_packed<L: Ledger>(
        &mut self,
        model: &Model,
        front: u64,
        steps: &mut Steps<L>,
    ) -> Result<bool, SoloFault>
        ghost past: { Entries }
        requires solo { IsSoloAfter model.now past self.old }
        requires time_max { front ≤ model.now.horizon }
        ensures turned { IfOk result (λ done. done ≡ true →
            HasTurnedBefore model.now past front self.old self.new steps.old steps.new) }
        ensures same { IfOk result (λ done. done ≡ false → (self.new ≡ self.old) × (steps.new ≡ steps.old)) }
        ensures stops { IfErr result (λ e. StopsBefore model.now front self.old steps.old steps.new e) }
    {
        let Some(first) = self.pending.first_packed(front) else {
            return Ok(false);
        };
        let Some(content) = first.content() else {
            return Ok(false);
        };
        if !is_quick(&self.states[first.to() as usize - 1], 1) {
            return Ok(false);
        }
        let (sends, line) = handle_packed(&mut self.states, model, first, content, steps)?;
        let Ok(()) = self.trace.push_packed(first, line) else {
            return Err(SoloFault::NoMemory);
        };
        let Ok(()) = self.pending.replace_first(first, sends) else {
            return Err(SoloFault::NoMemory);
        };
        Ok(true)
    }
}
