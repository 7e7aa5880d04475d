//! How tasks are taken from the deque and run: the owner pops them, and thieves steal them.
ghost use Rattle.std.specs.Prelude.{◌≡◌, ◌<◌, ◌++◌, ◌∷◌, [], List, OnOk};
ghost use Rattle.crossbeam_deque.specs.Handles.{view, IsPassOf, stealer_deque, worker_view, worker_flavor};
ghost use Rattle.crew_pool.specs.Tasks.{AnswersTo, EachAt};
ghost use Rattle.crew_pool.specs.Deque.{SameDeque, seat_view, numbers, EachPair, IsItemAt, IsComplete};
ghost use Rattle.crew_pool.specs.Calls.{dealt_of, IsStart, IsEnd, HasTaken};

use crate::gate::Gate;
use crate::job::End;
use crate::lists::add;
use crate::own_counter::run_with_own_counter;
use crate::task_deque::{Owner, PopTask, Seat, StealTask, Thief};
use crate::work::Work;
use crossbeam_deque::Steal;
use sim_base::NoMemory;
use std::alloc::Global;
use std::marker::Brand;
use std::sync::Wait;
use std::sync::ledger::Blank;

/// How often a thief tries to steal in one call, at most. The owner runs what no thief took.
const MAX_TRIES: u32 = 4_096;

/// Runs one task, and adds its answer together with its number.
fn run_task<W: Work>(
    alloc: Global,
    work: &W,
    i: u32,
    item: W::In,
    outs: &mut Vec<(u32, W::Out)>,
) -> Result<(), NoMemory>
    requires ready { W.ready work.now i item }
    ensures number { OnOk result (numbers outs.new.items ≡ numbers outs.old.items ++ i ∷ []) }
    ensures answer { OnOk result ((items : List W.In) → IsItemAt items i item
        → EachPair (AnswersTo (W.answers work.now) items) outs.old.items
        → EachPair (AnswersTo (W.answers work.now) items) outs.new.items) }
{
    let out = run_with_own_counter::<W, Brand>(alloc, work, i, item, Blank::new(1))?;
    add(outs, (i, out))
}

/// Pops tasks and runs them until the deque is empty.
pub(crate) fn pop_all<W: Work, G: Gate, R: Wait>(
    rt: &R,
    alloc: Global,
    work: &W,
    gate: &G,
    owner: &mut Owner<W::In>,
    outs: &mut Vec<(u32, W::Out)>,
) -> Result<(), NoMemory>
    requires fifo { worker_flavor owner.old ≡ 0 }
    requires part { 0 < (worker_view owner.old).parts }
    requires ready { EachAt (W.ready work.now) (worker_view owner.old).dealt }
    requires taken { HasTaken (AnswersTo (W.answers work.now) (worker_view owner.old).dealt)
        (worker_view owner.old).parts (worker_view owner.old).dealt owner.old outs.old.items }
    ensures same { SameDeque owner.old owner.new }
    ensures taken { OnOk result (HasTaken (AnswersTo (W.answers work.now) (worker_view owner.old).dealt)
        (worker_view owner.old).parts (worker_view owner.old).dealt owner.new outs.new.items) }
    ensures complete { OnOk result (IsComplete (worker_view owner.new)) }
{
    for _ in rt.forever() {
        let Some((i, item)) = owner.pop_as::<PopTask>() else {
            break;
        };
        gate.before(0, i);
        run_task(alloc, work, i, item, outs)?;
    }
    Ok(())
}

/// Steals tasks and runs them until the deque is empty, or [`MAX_TRIES`] tries were made.
fn steal_tasks<W: Work, G: Gate>(
    alloc: Global,
    work: &W,
    gate: &G,
    worker: u32,
    thief: &Thief<W::In>,
    seat: &mut Seat<W::In>,
    outs: &mut Vec<(u32, W::Out)>,
) -> Result<(), NoMemory>
    requires start { IsStart (dealt_of seat.old) (stealer_deque thief.now) seat.old }
    requires ready { EachAt (W.ready work.now) (dealt_of seat.old) }
    requires none { outs.old.items ≡ [] }
    ensures pass { IsPassOf (stealer_deque thief.now) seat.new }
    ensures view { OnOk result (view seat.new ≡ seat_view 1 (dealt_of seat.old) (numbers outs.new.items)) }
    ensures answers { OnOk result (EachPair (AnswersTo (W.answers work.now) (dealt_of seat.old)) outs.new.items) }
{
    for _try in 0..MAX_TRIES {
        let (i, item) = match thief.steal_as::<StealTask>(seat) {
            Steal::Success(task) => task,
            Steal::Empty => break,
            Steal::Retry => continue,
        };
        gate.before(worker, i);
        run_task(alloc, work, i, item, outs)?;
    }
    Ok(())
}

/// Steals tasks and runs them, and returns the seat together with the answers.
pub(crate) fn steal_all<W: Work, G: Gate>(
    alloc: Global,
    work: &W,
    gate: &G,
    worker: u32,
    thief: &Thief<W::In>,
    seat: Seat<W::In>,
) -> End<W>
    requires start { IsStart (dealt_of seat) (stealer_deque thief.now) seat }
    requires ready { EachAt (W.ready work.now) (dealt_of seat) }
    ensures end { IsEnd (AnswersTo (W.answers work.now) (dealt_of seat)) (dealt_of seat) (stealer_deque thief.now)
        result }
{
    let mut seat = seat;
    let mut outs = Vec::new(alloc);
    match steal_tasks(alloc, work, gate, worker, thief, &mut seat, &mut outs) {
        Ok(()) => (seat, Ok(outs)),
        Err(_) => (seat, Err(NoMemory)),
    }
}
