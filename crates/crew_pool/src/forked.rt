//! A crew for one call: each worker runs neighbouring tasks (fork-join).
ghost use Rattle.std.specs.Prelude.{◌≡◌, ◌<◌, ◌≤◌, Some, map, length, IfOk, IfSome};
ghost use Rattle.crew_pool.specs.Tasks.{MayRunAll, HaveRunAll};
ghost use Rattle.crew_pool.specs.Slots.{slot_with, answer_in, EachSlotReady, SlotAnswers, EachSlotAnswers};
ghost use Rattle.crew_pool.specs.declared.crew.TheConstants.{MAX_TASKS};

use crate::crew::MAX_TASKS;
use crate::gate::Gate;
use crate::lists::add;
use crate::own_counter::{run_with_own_counter, tick_costs};
use crate::work::Work;
use crate::workers::Workers;
use sim_base::{NoMemory, Steps};
use std::alloc::Global;
use std::marker::Brand;
use std::sync::ledger::{Blank, Ledger};
use std::thread;
use std::thread::Threads;

/// Several workers, each with a run of neighbouring tasks of about the same length. A library call: `cloner` does not
/// use it.
#[derive(Clone, Copy, Debug)]
pub struct Forked {
    /// The number of workers.
    pub workers: Workers,
}

/// Holds a task's item until a worker takes it, and then the answer. A worker that is out of memory leaves it empty.
#[derive(Drop)]
pub struct Slot<X, Y> {
    /// The item, until it is taken.
    pub item: Option<X>,
    /// The answer, once it is there.
    pub answer: Option<Y>,
}

/// Runs the task of one slot.
fn run_slot<W: Work, G: Gate>(
    alloc: Global,
    work: &W,
    gate: &G,
    worker: u32,
    i: u32,
    slot: &mut Slot<W::In, W::Out>,
)
    requires ready { IfSome slot.old.item (λ x. W.ready work.now i x) }
    ensures answer { SlotAnswers (W.answers work.now) i slot.old slot.new }
{
    slot.answer = None;
    let Some(item) = slot.item.take() else {
        return;
    };
    gate.before(worker, i);
    if let Ok(out) = run_with_own_counter::<W, Brand>(alloc, work, i, item, Blank::new(1)) {
        slot.answer = Some(out);
    }
}

/// A slot for each item.
fn fill_slots<X: Drop, Y: Drop>(alloc: Global, items: Vec<X>) -> Result<Vec<Slot<X, Y>>, NoMemory>
    ensures value { IfOk result (λ slots. slots.items ≡ map slot_with items.items) }
{
    let mut slots = Vec::with_capacity(alloc, items.len())?;
    for item in items {
        let slot = Slot {
            item: Some(item),
            answer: None,
        };
        add(&mut slots, slot)?;
    }
    Ok(slots)
}

/// The answers, if each slot has one.
fn take_answers<X: Drop, Y: Drop>(alloc: Global, slots: Vec<Slot<X, Y>>) -> Result<Vec<Y>, NoMemory>
    ensures value { IfOk result (λ outs. map answer_in slots.items ≡ map Some outs.items) }
{
    let mut outs = Vec::with_capacity(alloc, slots.len())?;
    for slot in slots {
        let Slot { item, answer } = slot;
        drop(item);
        let Some(out) = answer else {
            return Err(NoMemory);
        };
        add(&mut outs, out)?;
    }
    Ok(outs)
}

/// Runs the tasks of all slots.
fn run_slots<W: Work, G: Gate + Sync, R: Threads + Sync>(
    rt: &R,
    alloc: Global,
    work: &W,
    gate: &G,
    workers: Workers,
    slots: &mut [Slot<W::In, W::Out>],
)
    requires at_most { length slots.old ≤ MAX_TASKS }
    requires ready { EachSlotReady (W.ready work.now) slots.old }
    ensures answers { EachSlotAnswers (W.answers work.now) slots.old slots.new }
{
    let threads = workers.count as usize;
    // as `for_each_mut` cuts the slice
    let size = slots.len().div_ceil(threads).max(1);
    thread::for_each_mut(
        rt,
        slots,
        threads,
        &|i: usize, slot: &mut Slot<W::In, W::Out>|
            requires { (i < MAX_TASKS) × (1 ≤ size) × IfSome slot.now.item (λ x. W.ready work.now i x) }
            ensures { SlotAnswers (W.answers work.entry.now) i slot.entry.now slot.exit.now }
        { run_slot(alloc, work, gate, (i / size) as u32, i as u32, slot) },
    );
}

impl Forked {
    /// Runs one task for each item, each worker a run of neighbouring tasks, each task once and after the gate's
    /// `before`. Each answer is returned at its item's place, and the steps grow by what the answers cost. Small work
    /// runs in the caller's thread.
    ///
    /// # Errors
    ///
    /// [`NoMemory`], after every worker has ended: the items are lost, and nothing is said about the steps.
    pub fn all<W: Work, G: Gate + Sync, L: Ledger, R: Threads + Sync>(
        &self,
        rt: &R,
        alloc: Global,
        work: &W,
        items: Vec<W::In>,
        gate: &G,
        steps: &mut Steps<L>,
    ) -> Result<Vec<W::Out>, NoMemory>
        requires may_run { MayRunAll (W.ready work.now) items.items }
        // an answer for each item, at the item's place, and the steps that the answers took are counted
        ensures have_run { IfOk result (λ outs. HaveRunAll (W.answers work.now) W.cost items.items steps.old steps.new
            outs.items) }
    {
        let workers = if work.is_small() {
            Workers { count: 1 }
        } else {
            self.workers
        };
        let mut slots: Vec<Slot<W::In, W::Out>> = fill_slots(alloc, items)?;
        run_slots(rt, alloc, work, gate, workers, slots.as_mut_slice());
        let outs = take_answers(alloc, slots)?;
        tick_costs(work, outs.as_slice(), steps);
        Ok(outs)
    }
}
