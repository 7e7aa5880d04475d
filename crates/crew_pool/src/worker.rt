//! The end that takes tasks, one at a time. The worker answers a task before it takes the next one.
ghost use Rattle.std.specs.Prelude.{◌≡◌, Some, None};

use crate::errand::Errand;
use crate::mail::{MailTable, TableSeat, WAITS};
use crate::steps::{give_answer, take_task};
use std::marker::Model;
use std::sync::Arc;

/// Receiving end of a mailbox: it takes tasks. Contracts see it as the task that was taken and not yet answered.
#[derive(Drop)]
pub struct Worker<T, A, E: Errand<T, A>> {
    /// The mailbox, which the caller shares.
    pub(crate) table: Arc<MailTable<T, A, E>>,
    /// The worker's seat at it.
    pub(crate) seat: TableSeat<T, A>,
}

impl<T, A, E: Errand<T, A>> Model for Worker<T, A, E> {
    ghost use Rattle.std.specs.Arc.{arc_value};
    ghost use Rattle.std.specs.declared.option.Option.{Option};
    ghost use Rattle.crew_pool.specs.Mail.{task_of, IsWorker, IsSeatOf};

    ghost Value = { Option T };

    ghost view = { λ w. task_of w.seat.me.0 };

    ghost invariant = { λ w. IsSeatOf (arc_value w.table).shared.table_id w.seat.table_id × IsWorker w.seat.me };
}

impl<T: Drop, A: Drop, E: Errand<T, A>> Worker<T, A, E> {
    /// Takes the waiting task, if there is one.
    pub fn take(&mut self) -> Option<T>
        requires idle { self.old ≡ None }
        ensures value { self.new ≡ result }
    {
        take_task(&self.table.shared, &mut self.seat)
    }

    /// Answers the task that was taken.
    pub fn answer(&mut self, answer: A)
        requires answers { (task : T) × (self.old ≡ Some task) × E.answers task answer }
        ensures idle { self.new ≡ None }
    {
        give_answer(&self.table.shared, &mut self.seat, answer);
    }

    /// Whether a task waits: a hint.
    pub fn has_task(&self) -> bool {
        self.table.shared.peek(0) == WAITS
    }
}
