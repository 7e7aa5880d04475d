//! The tasks of a window, as work for a crew. A task steps the copies (physical processes) of one station (a logical
//! process).
ghost use Rattle.std.specs.Prelude.{◌≡◌, ◌+◌, ◌≤◌, IfOk};
ghost use Rattle.phys_proc.specs.Ends.{ends_in};
ghost use Rattle.station_steps.specs.Windows.{IsFlow, IsNumbered};

use crate::sent_list::SentList;
use crate::shared_ends::SharedEnds;
use crate::shared_model::share_of;
use crate::station_slot::StationSlot;
use crate::station_step::StationStep;
use crate::tasks::StationTask;
use crew_pool::Work;
use net_model::Model;
use phys_proc::CloneEnds;
use sim_base::{NoMemory, Steps};
use std::alloc::Global;
use std::sync::Arc;
use std::sync::ledger::Ledger;

/// A window of all stations: task i owns the copies of station i + 1, and steps them to its bound. The window shares
/// the model and the clones' ends, since a worker may hold it for longer than the call.
#[derive(Drop)]
pub struct Window {
    model: Arc<Model>,
    ends: Arc<CloneEnds>,
}

impl std::marker::Model for Window {
    ghost use Rattle.station_steps.specs.Windows.{WindowView};

    ghost Value = { WindowView };

    ghost view = { λ w. record { net = w.model.value; ends = w.ends.value } };
}

impl Window {
    /// Makes the window, which workers share, from the model and the ends.
    ///
    /// # Errors
    ///
    /// Out of memory.
    pub fn shared(
        alloc: Global,
        model: &Arc<Model>,
        ends: &SharedEnds,
    ) -> Result<Arc<Window>, NoMemory>
        ensures value { IfOk result (λ w. w.value ≡ record { net = model.now.value; ends = ends.now }) }
    {
        let window = Window {
            model: share_of(model)?,
            ends: ends.share()?,
        };
        Ok(Arc::new(alloc, window)?)
    }

    // Steps the copies of station i + 1 to the bound.
    fn step<L: Ledger>(
        &self,
        alloc: Global,
        _i: u32,
        proc: StationSlot,
        bound: u64,
        steps: &mut Steps<L>,
    ) -> Result<StationStep, NoMemory>
        requires numbered { IsNumbered self.now.net _i proc }
        requires time_max { bound ≤ self.now.net.horizon }
        ensures flow { IfOk result (λ flow. IsFlow self.now.net (ends_in self.now.net.horizon self.now.ends) bound _i
            proc flow) }
        ensures steps { IfOk result (λ flow. steps.new ≡ steps.old + flow.handled) }
    {
        let mut done = proc;
        let (mut messages, firsts) = done.lend(alloc);
        let gain = done.advance(alloc, &self.model, &self.ends, bound, &mut messages, steps)?;
        Ok(StationStep {
            done,
            sent: SentList::of(messages, firsts)?,
            over: gain.over,
            handled: gain.handled,
        })
    }
}

impl Work for Window {
    type In = StationTask;

    type Out = StationStep;

    ghost use Rattle.phys_proc.specs.Ends.{ends_in};
    ghost use Rattle.station_steps.specs.Tasks.{IsStationTask};
    ghost use Rattle.station_steps.specs.Windows.{IsFlow};

    ghost ready = { λ w i task. IsStationTask w.net i task };

    ghost answers = { λ w i task flow. IsFlow w.net (ends_in w.net.horizon w.ends) task.bound i task.proc flow };

    ghost cost = { λ flow. flow.handled };

    fn run<L: Ledger>(
        &self,
        alloc: Global,
        i: u32,
        item: StationTask,
        steps: &mut Steps<L>,
    ) -> Result<StationStep, NoMemory> {
        self.step(alloc, i, item.proc, item.bound, steps)
    }

    fn spent(&self, out: &StationStep) -> u64 {
        out.handled
    }

    fn is_small(&self) -> bool {
        false
    }
}
