//! The end that gives tasks, one at a time. The caller must take back a task, or collect its answer, before it gives
//! the next one.
ghost use Rattle.std.specs.Prelude.{◌≡◌, Some, None, MatchOption};

use crate::errand::Errand;
use crate::mail::{MailTable, TableSeat};
use crate::steps::{give_task, undo, wait_for_answer};
use std::marker::Model;
use std::sync::{Arc, Wait};

/// Sending end of a mailbox: it gives tasks. Contracts see it as the task that is out, if any.
#[derive(Drop)]
pub struct Caller<T, A, E: Errand<T, A>> {
    /// The mailbox, which the worker shares.
    pub(crate) table: Arc<MailTable<T, A, E>>,
    /// The caller's seat at it.
    pub(crate) seat: TableSeat<T, A>,
}

impl<T, A, E: Errand<T, A>> Model for Caller<T, A, E> {
    ghost use Rattle.std.specs.Arc.{arc_value};
    ghost use Rattle.std.specs.declared.option.Option.{Option};
    ghost use Rattle.crew_pool.specs.Mail.{task_of, IsCaller, IsSeatOf};

    ghost Value = { Option T };

    ghost view = { λ c. task_of c.seat.me.0 };

    ghost invariant = { λ c. IsSeatOf (arc_value c.table).shared.table_id c.seat.table_id × IsCaller c.seat.me };
}

impl<T: Drop, A: Drop, E: Errand<T, A>> Caller<T, A, E> {
    /// Gives a task to the worker.
    pub fn give(&mut self, task: T)
        requires idle { self.old ≡ None }
        ensures given { self.new ≡ Some task }
    {
        give_task(&self.table.shared, &mut self.seat, task);
    }

    /// Takes the task back, unless the worker has taken it.
    pub fn take_back(&mut self) -> Option<T>
        requires given { (task : T) × (self.old ≡ Some task) }
        ensures value { MatchOption result (self.new ≡ self.old)
            (λ task. (self.old ≡ Some task) × (self.new ≡ None)) }
    {
        undo(&self.table.shared, &mut self.seat)
    }

    /// Waits for the answer.
    pub fn collect<R: Wait>(&mut self, rt: &R) -> A
        requires given { (task : T) × (self.old ≡ Some task) }
        ensures answer { (task : T) → self.old ≡ Some task → E.answers task result }
        ensures idle { self.new ≡ None }
    {
        wait_for_answer(rt, &self.table.shared, &mut self.seat)
    }
}
