//! A call that has been started and not yet finished.
ghost use Rattle.std.specs.Prelude.{IfOk};
ghost use Rattle.crew_pool.specs.Tasks.{HaveRunAll};

use crate::bell::Bell;
use crate::crew::Crew;
use crate::gate::Gate;
use crate::gathering::{JobCaller, gather};
use crate::idle::IdleCrew;
use crate::lists::add_all;
use crate::own_counter::tick_costs;
use crate::places::in_order;
use crate::taking::pop_all;
use crate::task_deque::Owner;
use crate::work::Work;
use sim_base::{NoMemory, Steps};
use std::alloc::Global;
use std::sync::ledger::Ledger;
use std::sync::{Arc, Wait};

/// A call that has been started: all tasks are dealt, and members steal them. Contracts see the work and the items.
#[derive(Drop)]
pub struct Started<'g, W: Work, G: Gate> {
    /// The gate that each task passes.
    pub(crate) gate: &'g G,
    /// What wakes the members.
    pub(crate) bell: Arc<Bell>,
    /// The work, which all tasks read.
    pub(crate) work: Arc<W>,
    /// The number of tasks.
    pub(crate) tasks: usize,
    /// The callers of the members that were woken.
    pub(crate) busy: Vec<JobCaller<W>>,
    /// The callers of the other members.
    pub(crate) idle: Vec<JobCaller<W>>,
    /// The deque that members steal from.
    pub(crate) deque: Owner<W::In>,
}

impl<'g, W: Work, G: Gate> std::marker::Model for Started<'g, W, G> {
    ghost use Rattle.std.specs.Prelude.{◌≡◌, ◌+◌, ◌<◌, length};
    ghost use Rattle.crossbeam_deque.specs.Handles.{worker_deque, worker_view};
    ghost use Rattle.crew_pool.specs.declared.workers.TheConstants.{MAX_WORKERS};
    ghost use Rattle.crew_pool.specs.Calls.{CallView, IsDealt, AreOut, AreIdle};

    ghost Value = { CallView W W.In };

    ghost view = { λ s. record { work = s.work.value; items = (worker_view s.deque).dealt } };

    ghost invariant = { λ s.
        IsDealt (W.ready s.work.value) (length s.busy.items) (worker_view s.deque).dealt s.deque
        × AreOut (record { work = s.work.value; deque = worker_deque s.deque; items = (worker_view s.deque).dealt })
        s.busy.items
        × AreIdle s.idle.items
        × (s.tasks ≡ length (worker_view s.deque).dealt)
        × (length s.busy.items + length s.idle.items < MAX_WORKERS) };
}

impl<'g, W: Work + Send + Drop, G: Gate> Started<'g, W, G> {
    /// Ends the call: runs each task that no member has taken, and waits for the tasks that members have begun. Returns
    /// the answers at their items' places, together with the crew.
    ///
    /// # Errors
    ///
    /// [`NoMemory`]: the crew is lost, and nothing is said about the steps. Members may still run tasks of this call:
    /// those that they have begun, and others that they steal. They end with the bell.
    pub fn finish<L: Ledger, R: Wait>(
        self,
        rt: &R,
        alloc: Global,
        steps: &mut Steps<L>,
    ) -> Result<(Crew<'g, W, G>, Vec<W::Out>), NoMemory>
        // an answer for each item, at the item's place, and the steps that the answers took are counted
        ensures have_run { IfOk result (λ r. HaveRunAll (W.answers self.entry.work) W.cost self.entry.items steps.old
            steps.new r.1.items) }
    {
        let Started {
            gate,
            bell,
            work,
            tasks,
            busy,
            idle,
            mut deque,
        } = self;
        let mut pairs = Vec::with_capacity(alloc, tasks)?;
        pop_all(rt, alloc, &*work, gate, &mut deque, &mut pairs)?;
        let mut callers = gather(rt, alloc, &*work, &mut deque, &mut pairs, busy)?;
        // that this pop finds nothing proves that each task was taken
        pop_all(rt, alloc, &*work, gate, &mut deque, &mut pairs)?;
        add_all(&mut callers, idle)?;
        let outs = in_order(alloc, &*work, pairs, tasks)?;
        tick_costs(&*work, outs.as_slice(), steps);
        let idle = IdleCrew {
            bell,
            callers,
            deque,
        };
        let crew = Crew {
            gate,
            idle: Some(idle),
        };
        Ok((crew, outs))
    }
}
