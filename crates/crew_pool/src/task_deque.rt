//! The deque of a crew, and the rule that every push, pop and steal keeps. Each task of the call is in the deque, or
//! exactly one seat has taken it.
//!
//! A task is a number and an item. Each user of the deque has a seat, whose view says what it knows. The owner begins
//! with all parts of the deque. It cuts off one part for each thief and joins it again afterwards. So an owner with all
//! parts knows that no thief is left. Between two calls, when all tasks were taken, the owner forgets them, and numbers
//! begin at 0 again.
ghost use Rattle.std.specs.Prelude.{◌≡◌, ◌≤◌, [], OnOk, IfOk, length};
ghost use Rattle.crossbeam_deque.specs.Handles.{worker_view, worker_flavor};
ghost use Rattle.crew_pool.specs.Deque.{SameDeque, seat_view, IsComplete};
ghost use Rattle.crew_pool.specs.declared.crew.TheConstants.{MAX_TASKS};
ghost use Rattle.crew_pool.specs.declared.task_deque.TheConstants.{MAX_PARTS};

use crate::crew::MAX_TASKS;
use crossbeam_deque::protocol::{Join, Outcome, Protocol, Split};
use crossbeam_deque::{Pass, Stealer, Worker};
use sim_base::NoMemory;
use std::alloc::Global;
use std::collections::LinkedList;

/// The number of parts of a deque. The owner begins with all of them.
pub const MAX_PARTS: u64 = 1_024;

/// What a seat knows: its parts of the deque, the items of this call's tasks in order, and the numbers of its taken
/// tasks. Only clauses use it; the program never makes a value.
pub struct SeatView<X> {
    /// The number of its parts.
    pub parts: u64,
    /// The items of the tasks that were dealt.
    pub dealt: LinkedList<X>,
    /// The numbers of the tasks that it has taken, and of those that seats joined to it have taken.
    pub taken: LinkedList<u32>,
}

/// The rule: each task that was dealt is in the deque together with its item, or exactly one seat has taken it.
pub struct EachOnce;

impl<X> Protocol<(u32, X), SeatView<X>> for EachOnce {
    ghost use Rattle.std.specs.Prelude.{[]};
    ghost use Rattle.crew_pool.specs.Deque.{seat_view, TasksOnce};
    ghost use Rattle.crew_pool.specs.declared.task_deque.TheConstants.{MAX_PARTS};

    ghost holds = { TasksOnce };

    ghost first = { seat_view MAX_PARTS [] [] };

    ghost guest = { seat_view 0 [] [] };
}

/// Cuts one part off for a thief, and joins it again with what the thief has taken.
pub struct OnePart;

impl<X> Split<SeatView<X>> for OnePart {
    ghost use Rattle.std.specs.Prelude.{[], ◌-◌};
    ghost use Rattle.crew_pool.specs.Deque.{seat_view};

    ghost left = { λ v. seat_view (v.parts - 1) v.dealt v.taken };

    ghost right = { λ v. seat_view 1 v.dealt [] };
}

impl<X> Join<SeatView<X>> for OnePart {
    ghost use Rattle.std.specs.Prelude.{[], ◌+◌, ◌++◌};
    ghost use Rattle.crew_pool.specs.Deque.{seat_view};

    ghost both = { λ v w. seat_view (v.parts + w.parts) v.dealt (v.taken ++ w.taken) };

    ghost spent = { seat_view 0 [] [] };
}

/// Forgets the tasks of a call, all of which were taken. The seat that is cut off has no part.
pub struct ForgetTasks;

impl<X> Split<SeatView<X>> for ForgetTasks {
    ghost use Rattle.std.specs.Prelude.{[]};
    ghost use Rattle.crew_pool.specs.Deque.{seat_view};

    ghost left = { λ v. seat_view v.parts [] [] };

    ghost right = { λ _. seat_view 0 [] [] };
}

/// A push deals the next task.
pub struct DealTask;

impl<X> Outcome<(u32, X), SeatView<X>> for DealTask {
    ghost use Rattle.crew_pool.specs.Deque.{DealsTask};

    ghost then = { DealsTask };
}

/// A pop takes a task. If it finds none and the owner has every part, all tasks were taken.
pub struct PopTask;

impl<X> Outcome<(u32, X), SeatView<X>> for PopTask {
    ghost use Rattle.crew_pool.specs.Deque.{TakesTasks, IsComplete};

    ghost then = { TakesTasks };

    ghost empty = { IsComplete };
}

/// A steal takes a task.
pub struct StealTask;

impl<X> Outcome<(u32, X), SeatView<X>> for StealTask {
    ghost use Rattle.crew_pool.specs.Deque.{TakesTasks};

    ghost then = { TakesTasks };
}

/// The owner's handle on the deque. It deals at the tail and pops at the head, since it is made by `fifo_as`.
pub type Owner<X> = Worker<(u32, X), Global, SeatView<X>, EachOnce>;

/// A thief's handle on the deque. It steals at the head.
pub type Thief<X> = Stealer<(u32, X), Global, SeatView<X>, EachOnce>;

/// A seat at the deque, which a thief has.
pub type Seat<X> = Pass<(u32, X), SeatView<X>>;

/// An empty deque.
pub(crate) fn open_deque<X: Send + Drop>(alloc: Global) -> Result<Owner<X>, NoMemory>
    ensures fifo { IfOk result (λ owner. worker_flavor owner ≡ 0) }
    ensures fresh { IfOk result (λ owner. worker_view owner ≡ seat_view MAX_PARTS [] []) }
{
    match Owner::<X>::fifo_as(alloc, MAX_TASKS) {
        Ok(owner) => Ok(owner),
        Err(_) => Err(NoMemory),
    }
}

/// Forgets the tasks of the call before.
pub(crate) fn forget<X: Send + Drop>(owner: &mut Owner<X>)
    requires every { (worker_view owner.old).parts ≡ MAX_PARTS }
    requires complete { IsComplete (worker_view owner.old) }
    ensures same { SameDeque owner.old owner.new }
    ensures fresh { worker_view owner.new ≡ seat_view MAX_PARTS [] [] }
{
    let none = owner.another::<ForgetTasks>();
    drop(none);
}

/// Deals a task for each item. Tasks are numbered from 0.
pub(crate) fn deal<X: Send + Drop>(owner: &mut Owner<X>, items: Vec<X>) -> Result<(), NoMemory>
    requires at_most { length items.items ≤ MAX_TASKS }
    requires fresh { worker_view owner.old ≡ seat_view MAX_PARTS [] [] }
    ensures same { SameDeque owner.old owner.new }
    ensures dealt { OnOk result (worker_view owner.new ≡ seat_view MAX_PARTS items.items []) }
{
    let mut i: u32 = 0;
    for item in items {
        if owner.push_as::<DealTask>((i, item)).is_err() {
            return Err(NoMemory);
        }
        i += 1;
    }
    Ok(())
}
