//! Passes: an analyst's handle for submitting decisions.
ghost use Rattle.std.specs.Prelude.{◌≡◌, ◌++◌, ◌∷◌, [], List, ◌<◌, length, map, None};
ghost use Rattle.decision_book.specs.declared.call.TheConstants.{MAX_CALLS};
ghost use Rattle.decision_book.specs.Journal.{Event, NewCall, calls_of};
ghost use Rattle.decision_desk.specs.Turns.{IsSeatOf, book_of, seen_book, pass_view, with_call, full_account};
ghost use Rattle.decision_desk.specs.Passes.{IsPassAtRest, IsPassInTurn, PassHasTurn, IsPassTurn};
ghost use Rattle.decision_desk.specs.Passes.{first_account, receipt_of};

use crate::legal::LegalBook;
use crate::turns::{
    TableSeat, TableShare, draw_ticket, end_full_turn, end_turn, raise_count, wait_turn,
};
use decision_book::{Call, Reply};
use sim_base::{Decision, Reserved};
use std::marker::{Brand, Model};
use std::sync::Wait;

/// The receipt of a call: its place in the journal, None exactly if the reply is Full, and the reply.
#[derive(Clone, Copy, Debug, PartialEq, Eq)]
pub struct Receipt {
    /// The call's place in the journal, from 0; none if the journal is full.
    pub entry: Option<u32>,
    /// The reply to the decision.
    pub reply: Reply,
}

/// The pass of an analyst: a handle for submitting decisions to the desk.
#[derive(Drop)]
pub struct Pass {
    /// Its seat at the desk.
    pub(crate) seat: TableSeat,
    /// The caller's number, from 1.
    pub(crate) caller: u32,
    /// The receipts of its calls that are in the journal, in order.
    pub(crate) receipts: Reserved<Receipt>,
}

impl Model for Pass {
    ghost use Rattle.decision_desk.specs.Passes.{PassView, view_of_pass, IsPass};

    ghost Value = { PassView };

    ghost view = { λ p. view_of_pass p.seat.table_id p.seat.me.0 };

    ghost invariant = { λ p. IsPass p.caller p.receipts p.seat.table_id p.seat.me };
}

impl Pass {
    /// The receipts of its calls that are in the journal, in order.
    pub fn receipts(&self) -> &[Receipt]
        ensures value { result.now ≡ map receipt_of self.now.account.calls }
    {
        self.receipts.as_slice()
    }
}

/// Takes the book from the slot.
pub(crate) fn take_book(board: &TableShare, seat: &mut TableSeat) -> LegalBook
    requires table { IsSeatOf board.now.table_id seat.old.table_id }
    requires held { seat.old.me.1 ≡ (0, book_of seat.old.me.0.net seat.old.me.0.seen) ∷ [] }
    ensures table { seat.new.table_id ≡ seat.old.table_id }
    ensures book { result ≡ seen_book seat.old.me.0 }
    ensures seat { seat.new.me ≡ (seat.old.me.0, (0, None) ∷ []) }
{
    board.exchange(seat, 0, None).unwrap()
}

/// Puts the book back.
pub(crate) fn give_book(board: &TableShare, seat: &mut TableSeat, book: LegalBook)
    requires table { IsSeatOf board.now.table_id seat.old.table_id }
    requires held { seat.old.me.1 ≡ (0, None) ∷ [] }
    requires book { book ≡ seen_book seat.old.me.0 }
    ensures table { seat.new.table_id ≡ seat.old.table_id }
    ensures seat { seat.new.me ≡ (seat.old.me.0, (0, book_of seat.old.me.0.net seat.old.me.0.seen) ∷ []) }
{
    drop(board.exchange(seat, 0, Some(book)));
}

/// Waits for the turn of a pass.
pub(crate) fn come_to_turn<R: Wait>(rt: &R, board: &TableShare, seat: &mut TableSeat)
    requires table { IsSeatOf board.now.table_id seat.old.table_id }
    requires rest { IsPassAtRest seat.old.me }
    ensures table { seat.new.table_id ≡ seat.old.table_id }
    ensures turn { (j : List Event) × PassHasTurn seat.old.me.0.net seat.old.me.0.seen
        (first_account seat.old.me.0.accounts) seat.new.me j }
{
    let ticket = draw_ticket(board, seat);
    wait_turn(rt, board, seat, ticket);
}

/// Counts a call, puts the book back and ends the turn. Returns the call's place in the journal.
pub(crate) fn tell_and_leave(
    board: &TableShare,
    seat: &mut TableSeat,
    book: LegalBook,
    call: &Call,
) -> u64
    // the pass has the turn, and its book is the journal that it saw with the call appended
    requires table { IsSeatOf board.now.table_id seat.old.table_id }
    requires turn { IsPassInTurn seat.old.me }
    requires free { length (calls_of seat.old.me.0.seen) < MAX_CALLS }
    requires caller { call.now.caller ≡ (first_account seat.old.me.0.accounts).caller }
    requires book { book ≡ record { net = seat.old.me.0.net; events = seat.old.me.0.seen ++ NewCall call.now ∷ [] } }
    // the table of the seat is unchanged
    ensures table { seat.new.table_id ≡ seat.old.table_id }
    // the result: the call's place, and the pass at rest, with the call in its journal and account
    ensures entry { result ≡ length (calls_of seat.old.me.0.seen) }
    ensures rest { seat.new.me ≡ (
      pass_view seat.old.me.0.net (seat.old.me.0.seen ++ NewCall call.now ∷ [])
          (with_call (first_account seat.old.me.0.accounts) seat.old.me.0.seen call.now),
      [],
    ) }
{
    let entry = raise_count::<Brand>(board, seat, call);
    give_book(board, seat, book);
    end_turn(board, seat);
    entry
}

/// Ends the turn of a caller whose reply was Full.
pub(crate) fn leave_full(board: &TableShare, seat: &mut TableSeat, book: LegalBook)
    requires table { IsSeatOf board.now.table_id seat.old.table_id }
    requires turn { IsPassInTurn seat.old.me }
    requires full { length (calls_of seat.old.me.0.seen) ≡ MAX_CALLS }
    requires book { book ≡ seen_book seat.old.me.0 }
    ensures table { seat.new.table_id ≡ seat.old.table_id }
    ensures rest { seat.new.me ≡ (
      pass_view seat.old.me.0.net seat.old.me.0.seen
          (full_account (first_account seat.old.me.0.accounts)),
      [],
    ) }
{
    give_book(board, seat, book);
    end_full_turn(board, seat);
}

/// A turn of a pass.
pub(crate) fn decide_in_turn<R: Wait>(
    rt: &R,
    board: &TableShare,
    seat: &mut TableSeat,
    caller: u32,
    d: &Decision,
) -> Receipt
    requires table { IsSeatOf board.now.table_id seat.old.table_id }
    requires rest { IsPassAtRest seat.old.me }
    requires caller { (first_account seat.old.me.0.accounts).caller ≡ caller }
    ensures table { seat.new.table_id ≡ seat.old.table_id }
    ensures turn { (j : List Event) × IsPassTurn seat.old.me.0.net seat.old.me.0.seen
        (first_account seat.old.me.0.accounts) d.now result seat.new.me j }
{
    come_to_turn(rt, board, seat);
    let mut book = take_book(board, seat);
    let (reply, told) = book.ask(caller, d);
    match told {
        Some(call) => {
            let entry = tell_and_leave(board, seat, book, &call);
            Receipt {
                entry: Some(entry as u32),
                reply,
            }
        }
        None => {
            leave_full(board, seat, book);
            Receipt { entry: None, reply }
        }
    }
}
