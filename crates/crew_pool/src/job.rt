//! Jobs: what a member of a crew is given in a call, and what it returns.
ghost use Rattle.std.specs.Prelude.{◌≡◌};
ghost use Rattle.crossbeam_deque.specs.Handles.{stealer_deque};
ghost use Rattle.crew_pool.specs.Tasks.{AnswersTo, EachAt};
ghost use Rattle.crew_pool.specs.Calls.{dealt_of, IsStart, IsEnd};

use crate::Errand;
use crate::gate::Gate;
use crate::taking::steal_all;
use crate::task_deque::{Seat, Thief};
use crate::work::Work;
use sim_base::NoMemory;
use std::alloc::Global;
use std::sync::Arc;

/// The answers of the tasks that one worker took, each next to its task's number, or out of memory.
pub type NumberedAnswers<W> = Result<Vec<(u32, <W as Work>::Out)>, NoMemory>;

/// What a member returns for a job: its seat, and the answers of the tasks that it took.
pub type End<W> = (Seat<<W as Work>::In>, NumberedAnswers<W>);

/// Permission to steal tasks of a call: the work, a handle on the deque, and a seat at it.
#[derive(Drop)]
pub struct Job<W: Work> {
    work: Arc<W>,
    thief: Thief<W::In>,
    seat: Seat<W::In>,
}

impl<W: Work> std::marker::Model for Job<W> {
    ghost use Rattle.atomic_blocks.specs.Lent.{RowsId};
    ghost use Rattle.std.specs.Global.{Global as Heap};
    ghost use Rattle.crossbeam_deque.specs.Handles.{stealer_deque};
    ghost use Rattle.crew_pool.specs.Tasks.{EachAt};
    ghost use Rattle.crew_pool.specs.Calls.{JobView, dealt_of, IsStart};

    ghost Value = { JobView W W.In (RowsId × Heap) };

    ghost view = { λ j. record { work = j.work.value; deque = stealer_deque j.thief; items = dealt_of j.seat } };

    ghost invariant = { λ j. IsStart (dealt_of j.seat) (stealer_deque j.thief) j.seat
        × EachAt (W.ready j.work.value) (dealt_of j.seat) };
}

/// The obligation of a member for a job: its seat, with an answer for each task that the seat has taken.
#[derive(Clone, Copy, Debug)]
pub struct ByStealing;

impl<W: Work> Errand<Job<W>, End<W>> for ByStealing {
    ghost use Rattle.crew_pool.specs.Tasks.{AnswersTo};
    ghost use Rattle.crew_pool.specs.Calls.{IsEnd};

    ghost answers = { λ job end. IsEnd (AnswersTo (W.answers job.work) job.items) job.items job.deque end };
}

impl<W: Work + Drop> Job<W> {
    /// A job with this seat, which has taken nothing.
    pub(crate) fn new(work: Arc<W>, thief: Thief<W::In>, seat: Seat<W::In>) -> Job<W>
        requires start { IsStart (dealt_of seat) (stealer_deque thief) seat }
        requires ready { EachAt (W.ready work.value) (dealt_of seat) }
        ensures value { result ≡ record { work = work.value; deque = stealer_deque thief; items = dealt_of seat } }
    {
        Job { work, thief, seat }
    }

    /// Steals tasks and runs them. The work and the handle on the deque are dropped before the return.
    pub(crate) fn run<G: Gate>(self, alloc: Global, gate: &G, worker: u32) -> End<W>
        ensures end { IsEnd (AnswersTo (W.answers self.work) self.items) self.items self.deque result }
    {
        let Job { work, thief, seat } = self;
        steal_all(alloc, &*work, gate, worker, &thief, seat)
    }

    /// Ends the job before anything is stolen.
    pub(crate) fn give_up(self, alloc: Global) -> End<W>
        ensures end { IsEnd (AnswersTo (W.answers self.work) self.items) self.items self.deque result }
    {
        let Job { work, thief, seat } = self;
        drop(work);
        drop(thief);
        (seat, Ok(Vec::new(alloc)))
    }
}
