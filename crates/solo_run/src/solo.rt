//! The one-thread run of one clone: one event execution after another from its future event list, up to the horizon
//! (stop time).
ghost use Rattle.std.specs.Prelude.{◌≡◌, ◌+◌, ◌-◌, ◌≤◌, ◌<◌, [], length, slice_get, Some, IfOk, IfErr};
ghost use Rattle.std.specs.List.{AllByRecursion};
ghost use Rattle.sim_base.specs.Order.{msg_cmp};
ghost use Rattle.run_laws.specs.Handlers.{AreForStations};
ghost use Rattle.run_laws.specs.Queue.{insert_all};
ghost use Rattle.run_laws.specs.World.{first_world, log_of};
ghost use Rattle.stations.specs.Runs.{simulation};
ghost use Rattle.solo_run.specs.EventLists.{IsForStation};
ghost use Rattle.solo_run.specs.Limit.{receiver};
ghost use Rattle.solo_run.specs.SoloView.{Entries, IsSolo, IsSoloAfter, config_of};
ghost use Rattle.solo_run.specs.Turns.{Stops, StopsAfter, run_from};

use crate::event_list::EventList;
use crate::opening::{open_all, put_decisions};
use crate::turn::{SoloFault, put_all};
use arrayvec::ArrayVec;
use log_chain::Log;
use net_model::Model;
use sim_base::{Entry, Msg, NoMemory, Planned, Steps};
use stations::State;
use std::alloc::Global;
use std::sync::ledger::Ledger;

/// The run of one clone so far: the state of each station, the pending messages and the trace.
#[derive(Drop)]
pub struct Solo {
    pub(crate) states: Vec<State>,
    pub(crate) pending: EventList,
    pub(crate) trace: Log,
}

impl std::marker::Model for Solo {
    ghost use Rattle.solo_run.specs.EventLists.{all_messages};
    ghost use Rattle.solo_run.specs.SoloView.{SoloView};

    ghost Value = { SoloView };

    ghost view = { λ s. record { states = s.states.items; pending = all_messages s.pending; trace = s.trace } };
}

impl Solo {
    /// The run of a clone with these decisions, before anything is handled.
    ///
    /// The decisions are for stations of the model; a change that a station does not accept changes nothing.
    pub fn new(alloc: Global, model: &Model, list: &[Planned]) -> Result<Solo, NoMemory>
        requires stations { AreForStations (simulation model.now) list.now }
        ensures begins { IfOk result (λ solo. config_of model.now solo ≡ first_world (simulation model.now) list.now) }
        ensures solo { IfOk result (λ solo. IsSolo model.now solo) }
    {
        let mut pending = EventList::new(alloc);
        let states = open_all(alloc, model, &mut pending)?;
        put_decisions(&mut pending, list)?;
        Ok(Solo {
            states,
            pending,
            trace: Log::new(alloc),
        })
    }

    /// A run resumed from the states of the stations, in order, and the pending messages. Its trace begins empty.
    pub fn resumed(
        alloc: Global,
        model: &Model,
        states: Vec<State>,
        due: &[Msg],
    ) -> Result<Solo, NoMemory>
        requires count { length states.items ≡ length model.now.sites }
        requires stations { AllByRecursion (IsForStation (length model.now.sites)) due.now }
        ensures value { IfOk result (λ solo. solo ≡ record {
          states = states.items;
          pending = insert_all msg_cmp due.now [];
          trace = [];
        }) }
    {
        let mut pending = EventList::new(alloc);
        put_all(&mut pending, due)?;
        Ok(Solo {
            states,
            pending,
            trace: Log::new(alloc),
        })
    }

    /// The state of a station.
    pub fn state(&self, station: u32) -> &State
        requires low { 1 ≤ station }
        requires high { station ≤ length self.now.states }
        ensures value { slice_get self.now.states (station - 1) ≡ Some result.now }
    {
        &self.states[station as usize - 1]
    }

    /// Handles every message before a front, which is at most the horizon.
    ///
    /// Counts a step for each message handled. It stops if a station would handle more messages than the limit, and
    /// names the station of the first such message. All messages before it were handled.
    pub fn run_to<L: Ledger>(
        self,
        model: &Model,
        front: u64,
        steps: &mut Steps<L>,
    ) -> Result<Solo, SoloFault>
        requires solo { IsSolo model.now self }
        requires time_max { front ≤ model.now.horizon }
        ensures ok { IfOk result (λ solo. config_of model.now solo ≡ run_from model.now self front) }
        ensures solo { IfOk result (λ solo. IsSolo model.now solo) }
        ensures steps { IfOk result (λ solo. steps.new + length self.trace ≡ steps.old + length solo.trace) }
        ensures stops { IfErr result (λ e. Stops model.now self front steps.old steps.new e) }
    {
        self.run_on(model, front, steps)
    }

    /// Handles every message before a front, as `run_to` does. The run may be a resumed one.
    ///
    /// `past` is a ghost value: the entries that were handled before the run's trace begins. They count towards the
    /// limit.
    pub fn run_on<L: Ledger>(
        mut self,
        model: &Model,
        front: u64,
        steps: &mut Steps<L>,
    ) -> Result<Solo, SoloFault>
        ghost past: { Entries }
        requires solo { IsSoloAfter model.now past self }
        requires time_max { front ≤ model.now.horizon }
        ensures ok { IfOk result (λ solo. config_of model.now solo ≡ run_from model.now self front) }
        ensures solo { IfOk result (λ solo. IsSoloAfter model.now past solo) }
        ensures steps { IfOk result (λ solo. steps.new + length self.trace ≡ steps.old + length solo.trace) }
        ensures stops { IfErr result (λ e. StopsAfter model.now past self front steps.old steps.new e) }
    {
        let mut out = ArrayVec::new();
        while self.next_turn(model, front, &mut out, steps)? {}
        Ok(self)
    }

    /// A copy of the log of one station, in order.
    pub fn log(&self, alloc: Global, station: u32) -> Result<Vec<Entry>, NoMemory>
        ensures { IfOk result (λ log. log.items ≡ log_of receiver station self.now.trace) }
    {
        let mut log = Vec::new(alloc);
        let mut walk = self.trace.walk_from(0);
        while let Some(entry) = walk.next() {
            if entry.msg.to == station {
                log.push(entry)?;
            }
        }
        Ok(log)
    }

    /// A copy of the pending messages, in the order of their keys.
    pub fn due(&self, alloc: Global) -> Result<Vec<Msg>, NoMemory>
        ensures value { IfOk result (λ due. due.items ≡ self.now.pending) }
    {
        self.pending.messages(alloc)
    }

    /// The log of all handled messages, in order.
    pub fn trace(&self) -> &Log
        ensures { result.now ≡ self.now.trace }
    {
        &self.trace
    }
}
