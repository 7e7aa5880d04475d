//! The end of a call: the owner takes the seats and the answers of the members back.
ghost use Rattle.std.specs.Prelude.{◌≡◌, ◌+◌, ◌<◌, Some, None, IfOk, OnOk, length};
ghost use Rattle.std.specs.Global.{Global as Heap};
ghost use Rattle.atomic_blocks.specs.Lent.{RowsId};
ghost use Rattle.crossbeam_deque.specs.Handles.{view, IsPassOf, worker_deque, worker_view};
ghost use Rattle.crew_pool.specs.Tasks.{AnswersTo};
ghost use Rattle.crew_pool.specs.Deque.{SameDeque, seat_view, numbers, EachPair};
ghost use Rattle.crew_pool.specs.Calls.{JobView, IsEnd, HasTaken, AreIdle, AreOut};

use crate::Caller;
use crate::job::{ByStealing, End, Job};
use crate::lists::{add, add_all};
use crate::task_deque::{OnePart, Owner, Seat};
use crate::work::Work;
use sim_base::NoMemory;
use std::alloc::Global;
use std::sync::Wait;

/// The caller's end of one member's mailbox.
pub type JobCaller<W> = Caller<Job<W>, End<W>, ByStealing>;

/// Takes back the seat and the answers of one member.
fn absorb_one<W: Work>(
    _work: &W,
    owner: &mut Owner<W::In>,
    all: &mut Vec<(u32, W::Out)>,
    seat: Seat<W::In>,
    outs: Vec<(u32, W::Out)>,
) -> Result<(), NoMemory>
    requires pass { IsPassOf (worker_deque owner.old) seat }
    requires part { 0 < (worker_view owner.old).parts }
    requires taken { HasTaken (AnswersTo (W.answers _work.now) (worker_view owner.old).dealt)
        (worker_view owner.old).parts (worker_view owner.old).dealt owner.old all.old.items }
    requires view { view seat ≡ seat_view 1 (worker_view owner.old).dealt (numbers outs.items) }
    requires new { EachPair (AnswersTo (W.answers _work.now) (worker_view owner.old).dealt) outs.items }
    ensures same { SameDeque owner.old owner.new }
    ensures taken { OnOk result (HasTaken (AnswersTo (W.answers _work.now) (worker_view owner.old).dealt)
        ((worker_view owner.old).parts + 1) (worker_view owner.old).dealt owner.new all.new.items) }
{
    owner.absorb::<OnePart>(seat);
    add_all(all, outs)?;
    Ok(())
}

/// Takes the job back if its member has not begun it, else waits for the end of the job.
fn finish_job<W: Work + Send + Drop, R: Wait>(
    rt: &R,
    alloc: Global,
    caller: &mut JobCaller<W>,
) -> End<W>
    requires given { (job : JobView W W.In (RowsId × Heap)) × (caller.old ≡ Some job) }
    ensures idle { caller.new ≡ None }
    ensures end { (job : JobView W W.In (RowsId × Heap)) → caller.old ≡ Some job
        → IsEnd (AnswersTo (W.answers job.work) job.items) job.items job.deque result }
{
    match caller.take_back() {
        Some(job) => job.give_up(alloc),
        None => caller.collect(rt),
    }
}

/// Takes back the seats and the answers of all busy members, and returns their callers, which are idle again.
pub(crate) fn gather<W: Work + Send + Drop, R: Wait>(
    rt: &R,
    alloc: Global,
    _work: &W,
    owner: &mut Owner<W::In>,
    all: &mut Vec<(u32, W::Out)>,
    busy: Vec<JobCaller<W>>,
) -> Result<Vec<JobCaller<W>>, NoMemory>
    requires part { 0 < (worker_view owner.old).parts }
    requires taken { HasTaken (AnswersTo (W.answers _work.now) (worker_view owner.old).dealt)
        (worker_view owner.old).parts (worker_view owner.old).dealt owner.old all.old.items }
    requires out { AreOut (record {
      work = _work.now;
      deque = worker_deque owner.old;
      items = (worker_view owner.old).dealt;
    }) busy.items }
    ensures same { SameDeque owner.old owner.new }
    ensures idle { IfOk result (λ callers. AreIdle callers.items) }
    ensures count { IfOk result (λ callers. length callers.items ≡ length busy.items) }
    ensures taken { OnOk result (HasTaken (AnswersTo (W.answers _work.now) (worker_view owner.old).dealt)
        ((worker_view owner.old).parts + length busy.items) (worker_view owner.old).dealt owner.new all.new.items) }
{
    let mut callers = Vec::with_capacity(alloc, busy.len())?;
    for mut caller in busy {
        let (seat, answered) = finish_job(rt, alloc, &mut caller);
        let outs = answered?;
        absorb_one(_work, owner, all, seat, outs)?;
        add(&mut callers, caller)?;
    }
    Ok(callers)
}
