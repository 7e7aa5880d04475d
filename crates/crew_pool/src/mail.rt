//! The contents of a mailbox, the knowledge of its seats, and the rule of its table.
use crate::errand::Errand;
use atomic_table::{Play, Seat, Shared, Split, Table, TableRule};
use std::alloc::Global;
use std::marker::PhantomData;

/// The word of an empty mailbox.
pub const EMPTY: u64 = 0;
/// The word while a task waits.
pub const WAITS: u64 = 1;
/// The word once the worker has taken the task.
pub const TAKEN: u64 = 2;
/// The word once the worker has answered.
pub const ANSWERED: u64 = 3;

/// The contents of the slot.
#[derive(Drop)]
pub enum Letter<T, A> {
    /// The caller's task.
    Task(T),
    /// The worker's answer.
    Answer(A),
}

/// What a seat knows. Only contracts use it; the program never makes a value.
pub enum MailView<T> {
    /// The only seat, before there is a worker.
    Alone,
    /// The caller, before it has the slot.
    Opening,
    /// The caller with the slot.
    Holding,
    /// The caller with a task out.
    Sent(T),
    /// The worker with no task.
    Idle,
    /// The worker with this task, and the slot.
    Working(T),
}

/// The rule that each step of a seat keeps, `IsMailbox` in `specs/Mail.antt`.
pub struct MailRule<E> {
    marker: PhantomData<E>,
}

impl<T, A, E: Errand<T, A>> TableRule<Option<Letter<T, A>>, MailView<T>, ()> for MailRule<E> {
    ghost use Rattle.crew_pool.specs.Mail.{IsMailbox};
    ghost use Rattle.crew_pool.specs.declared.mail.MailView.TheVariants.{Alone};

    ghost holds = { λ _ s. IsMailbox E.answers s };

    ghost first = { λ _. Alone };
}

/// The caller takes the slot.
pub struct Open;

impl<T, A> Play<Option<Letter<T, A>>, MailView<T>> for Open {
    ghost use Rattle.crew_pool.specs.Mail.{HasOpened};

    ghost then = { λ _ m _ w. HasOpened m w };
}

/// The caller gives its letter.
pub struct Give;

impl<T, A> Play<Option<Letter<T, A>>, MailView<T>> for Give {
    ghost use Rattle.crew_pool.specs.Mail.{HasGiven};

    ghost then = { λ _ m _ w. HasGiven m w };
}

/// The caller takes its letter back.
pub struct Undo;

impl<T, A> Play<Option<Letter<T, A>>, MailView<T>> for Undo {
    ghost use Rattle.crew_pool.specs.Mail.{HasUndone};

    ghost then = { λ _ m n w. HasUndone m n w };
}

/// The caller takes the answer.
pub struct Collect<E> {
    marker: PhantomData<E>,
}

impl<T, A, E: Errand<T, A>> Play<Option<Letter<T, A>>, MailView<T>> for Collect<E> {
    ghost use Rattle.crew_pool.specs.Mail.{HasCollected};

    ghost then = { λ _ m n w. HasCollected E.answers m n w };
}

/// The worker takes the letter.
pub struct Take;

impl<T, A> Play<Option<Letter<T, A>>, MailView<T>> for Take {
    ghost use Rattle.crew_pool.specs.Mail.{HasTaken};

    ghost then = { λ _ m n w. HasTaken m n w };
}

/// The worker gives its answer.
pub struct Leave;

impl<T, A> Play<Option<Letter<T, A>>, MailView<T>> for Leave {
    ghost use Rattle.crew_pool.specs.Mail.{HasGivenAnswer};

    ghost then = { λ _ m _ w. HasGivenAnswer m w };
}

/// The worker's seat is split off the caller's.
pub struct Hire;

impl<T> Split<MailView<T>> for Hire {
    ghost use Rattle.crew_pool.specs.declared.mail.MailView.TheVariants.{Opening, Idle};

    ghost left = { λ _. Opening };

    ghost right = { λ _. Idle };
}

/// A seat at the table.
pub type TableSeat<T, A> = Seat<Option<Letter<T, A>>, MailView<T>>;

/// The table as the seats share it.
pub type TableShare<T, A, E> = Shared<Option<Letter<T, A>>, MailView<T>, (), MailRule<E>>;

/// The table with its memory.
pub type MailTable<T, A, E> = Table<Option<Letter<T, A>>, MailView<T>, (), MailRule<E>, Global>;
