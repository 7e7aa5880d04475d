//! The steps of the two seats. Each is one atomic step on the word, and most move a letter while the seat has the slot.
//! A letter is stored before the word announces it, and removed after the word was won.
ghost use Rattle.std.specs.Prelude.{◌≡◌, [], Some, None, MatchOption};
ghost use Rattle.crew_pool.specs.Mail.{IsSeatOf, IsHolding, IsSent, HasTaskOut, IsIdle, IsWorking};
ghost use Rattle.crew_pool.specs.declared.mail.MailView.TheVariants.{Opening};

use crate::errand::Errand;
use crate::mail::{
    ANSWERED, Collect, EMPTY, Give, Leave, Letter, Open, TAKEN, TableSeat, TableShare, Take, Undo,
    WAITS,
};
use std::sync::Wait;
use std::thread;

// The task in a letter.
fn task_of<T: Drop, A: Drop>(letter: Option<Letter<T, A>>) -> T
    requires task { (t : T) × (letter ≡ Some (Letter.Task t)) }
    ensures task { letter ≡ Some (Letter.Task result) }
{
    let Some(Letter::Task(task)) = letter else {
        unreachable!()
    };
    task
}

// The answer in a letter.
fn answer_of<T: Drop, A: Drop>(letter: Option<Letter<T, A>>) -> A
    requires answer { (a : A) × (letter ≡ Some (Letter.Answer a)) }
    ensures answer { letter ≡ Some (Letter.Answer result) }
{
    let Some(Letter::Answer(answer)) = letter else {
        unreachable!()
    };
    answer
}

pub(crate) fn take_slot<T: Drop, A: Drop, E: Errand<T, A>>(
    board: &TableShare<T, A, E>,
    seat: &mut TableSeat<T, A>,
)
    requires table { IsSeatOf board.now.table_id seat.old.table_id }
    requires fresh { seat.old.me ≡ (Opening, []) }
    ensures table { seat.new.table_id ≡ seat.old.table_id }
    ensures holding { IsHolding seat.new.me }
{
    board.load::<Open>(seat, 0);
}

/// The caller gives a task.
pub(crate) fn give_task<T: Drop, A: Drop, E: Errand<T, A>>(
    board: &TableShare<T, A, E>,
    seat: &mut TableSeat<T, A>,
    task: T,
)
    requires table { IsSeatOf board.now.table_id seat.old.table_id }
    requires holding { IsHolding seat.old.me }
    ensures table { seat.new.table_id ≡ seat.old.table_id }
    ensures sent { IsSent task seat.new.me }
{
    drop(board.exchange(seat, 0, Some(Letter::Task(task))));
    board.store::<Give>(seat, 0, WAITS);
}

/// The caller takes its task back, if it still waits.
pub(crate) fn undo<T: Drop, A: Drop, E: Errand<T, A>>(
    board: &TableShare<T, A, E>,
    seat: &mut TableSeat<T, A>,
) -> Option<T>
    requires table { IsSeatOf board.now.table_id seat.old.table_id }
    requires sent { HasTaskOut seat.old.me }
    ensures table { seat.new.table_id ≡ seat.old.table_id }
    ensures value { MatchOption result (seat.new.me ≡ seat.old.me)
        (λ task. IsSent task seat.old.me × IsHolding seat.new.me) }
{
    if board.compare_exchange::<Undo>(seat, 0, WAITS, EMPTY) == WAITS {
        Some(task_of(board.exchange(seat, 0, None)))
    } else {
        None
    }
}

/// The caller takes the answer, if it is there.
pub(crate) fn collect_now<T: Drop, A: Drop, E: Errand<T, A>>(
    board: &TableShare<T, A, E>,
    seat: &mut TableSeat<T, A>,
) -> Option<A>
    requires table { IsSeatOf board.now.table_id seat.old.table_id }
    requires sent { HasTaskOut seat.old.me }
    ensures table { seat.new.table_id ≡ seat.old.table_id }
    ensures value { MatchOption result (seat.new.me ≡ seat.old.me)
        (λ answer. ((task : T) → IsSent task seat.old.me → E.answers task answer) × IsHolding seat.new.me) }
{
    if board.compare_exchange::<Collect<E>>(seat, 0, ANSWERED, EMPTY) == ANSWERED {
        Some(answer_of(board.exchange(seat, 0, None)))
    } else {
        None
    }
}

/// The caller waits for the answer.
pub(crate) fn wait_for_answer<T: Drop, A: Drop, E: Errand<T, A>, R: Wait>(
    rt: &R,
    board: &TableShare<T, A, E>,
    seat: &mut TableSeat<T, A>,
) -> A
    requires table { IsSeatOf board.now.table_id seat.old.table_id }
    requires sent { HasTaskOut seat.old.me }
    ensures table { seat.new.table_id ≡ seat.old.table_id }
    ensures answer { (task : T) → IsSent task seat.old.me → E.answers task result }
    ensures holding { IsHolding seat.new.me }
{
    for _ in rt.forever() {
        if board.peek(0) == ANSWERED {
            if let Some(answer) = collect_now(board, seat) {
                return answer;
            }
        }
        thread::yield_now();
    }
    unreachable!()
}

/// The worker takes a task, if one waits.
pub(crate) fn take_task<T: Drop, A: Drop, E: Errand<T, A>>(
    board: &TableShare<T, A, E>,
    seat: &mut TableSeat<T, A>,
) -> Option<T>
    requires table { IsSeatOf board.now.table_id seat.old.table_id }
    requires idle { IsIdle seat.old.me }
    ensures table { seat.new.table_id ≡ seat.old.table_id }
    ensures value { MatchOption result (IsIdle seat.new.me) (λ task. IsWorking task seat.new.me) }
{
    if board.compare_exchange::<Take>(seat, 0, WAITS, TAKEN) == WAITS {
        Some(task_of(board.exchange(seat, 0, None)))
    } else {
        None
    }
}

/// The worker answers.
pub(crate) fn give_answer<T: Drop, A: Drop, E: Errand<T, A>>(
    board: &TableShare<T, A, E>,
    seat: &mut TableSeat<T, A>,
    answer: A,
)
    requires table { IsSeatOf board.now.table_id seat.old.table_id }
    requires answers { (task : T) × IsWorking task seat.old.me × E.answers task answer }
    ensures table { seat.new.table_id ≡ seat.old.table_id }
    ensures idle { IsIdle seat.new.me }
{
    drop(board.exchange(seat, 0, Some(Letter::Answer(answer))));
    board.store::<Leave>(seat, 0, ANSWERED);
}
