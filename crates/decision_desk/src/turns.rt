//! The steps of a turn: a ticket lock over the words and the slot of a table.
ghost use Rattle.std.specs.Prelude.{◌≡◌, ℕ, ◌%◌, ◌^◌, ◌<◌, ◌≤◌, [], ◌∷◌, List, length, true, false};
ghost use mathlib.Core.List.{IsPrefix};
ghost use Rattle.decision_book.specs.Journal.{Event, calls_of, front_of};
ghost use Rattle.decision_book.specs.declared.call.TheConstants.{MAX_CALLS};
ghost use Rattle.decision_desk.specs.Accounts.{Account};
ghost use Rattle.decision_desk.specs.Turns.{HasOneAccount, IsAtRest, IsSeatOf, IsWaiting, HasComeToTurn, HasTurnIf};
ghost use Rattle.decision_desk.specs.Turns.{MayEndTurn, view_with_turn};
ghost use Rattle.decision_desk.specs.Turns.{view_after_call, view_after_front, view_after_look, full_account};

use crate::legal::LegalBook;
use crate::view::View;
use atomic_table::{Join, Play, Seat, Shared, Split, TableRule};
use decision_book::Call;
use net_model::Model;
use std::marker::{Brand, PhantomData};
use std::sync::Wait;
use std::thread;

/// The rule that each step of a seat keeps: `IsDesk` in `specs/Turns.antt`.
pub struct DeskRule;

impl TableRule<Option<LegalBook>, View, Model> for DeskRule {
    ghost use Rattle.std.specs.Prelude.{[]};
    ghost use Rattle.decision_desk.specs.declared.desk.TheConstants.{MAX_PARTS};
    ghost use Rattle.decision_desk.specs.Turns.{helm_view, IsDesk};

    ghost holds = { λ _ s. IsDesk s };

    ghost first = { λ net. helm_view net MAX_PARTS [] [] 0 [] };
}

/// The step that draws a ticket.
pub struct Draw;

impl Play<Option<LegalBook>, View> for Draw {
    ghost use Rattle.decision_desk.specs.Turns.{HasDrawnTicket};

    ghost then = { λ _ m n w. HasDrawnTicket m n w };
}

/// The step that checks which ticket is served. If it is the seat's, the seat has the turn and the book.
pub struct Serve;

impl Play<Option<LegalBook>, View> for Serve {
    ghost use Rattle.decision_desk.specs.Turns.{HasTurnIfServed};

    ghost then = { λ _ m n w. HasTurnIfServed m n w };
}

/// The step that ends a turn and serves the next ticket. The book must be back in the slot.
pub struct Leave;

impl Play<Option<LegalBook>, View> for Leave {
    ghost use Rattle.decision_desk.specs.Turns.{HasEndedTurn};

    ghost then = { λ _ m n w. HasEndedTurn m n w };
}

/// The same for a caller whose reply was Full.
pub struct LeaveFull;

impl Play<Option<LegalBook>, View> for LeaveFull {
    ghost use Rattle.decision_desk.specs.Turns.{HasEndedFullTurn};

    ghost then = { λ _ m n w. HasEndedFullTurn m n w };
}

/// The step that loads the front.
pub struct Look;

impl Play<Option<LegalBook>, View> for Look {
    ghost use Rattle.decision_desk.specs.Turns.{HasSeenFront};

    ghost then = { λ _ m n w. HasSeenFront m n w };
}

/// The step that stores a later front.
pub struct RaiseFront;

impl Play<Option<LegalBook>, View> for RaiseFront {
    ghost use Rattle.decision_desk.specs.Turns.{HasRaisedFront};

    ghost then = { λ _ m n w. HasRaisedFront m n w };
}

/// The call that a step adds, in a list of one. Each use chooses it.
pub trait AddedCall {
    ghost use Rattle.std.specs.Prelude.{List};
    ghost use Rattle.decision_book.specs.declared.call.Call.{Call};

    ghost calls: { List Call };
}

impl AddedCall for Brand {
    ghost use Rattle.std.specs.Prelude.{[]};

    ghost calls = { [] };
}

/// The step that counts a call, and adds it to the journal.
pub struct RaiseCount<E: AddedCall> {
    of: PhantomData<E>,
}

impl<E: AddedCall> Play<Option<LegalBook>, View> for RaiseCount<E> {
    ghost use Rattle.decision_desk.specs.Turns.{HasAddedCall};

    ghost then = { λ _ m n w. HasAddedCall E.calls m n w };
}

/// The steps that split a pass from the helm's seat, and merge one back.
pub struct Share;

impl Split<View> for Share {
    ghost use Rattle.std.specs.Prelude.{◌-◌, ◌+◌};
    ghost use Rattle.decision_desk.specs.Turns.{pass_view, new_account};

    ghost left = { λ v. record v { parts = v.parts - 1; made = v.made + 1 } };

    ghost right = { λ v. pass_view v.net v.seen (new_account (v.made + 1)) };
}

impl Join<View> for Share {
    ghost use Rattle.std.specs.Prelude.{◌+◌, ◌++◌};
    ghost use Rattle.decision_desk.specs.Turns.{spent_view};

    ghost both = { λ v u. record v { parts = v.parts + u.parts; accounts = v.accounts ++ u.accounts } };

    ghost spent = { spent_view };
}

/// A seat at the desk: a pass's or the helm's.
pub type TableSeat = Seat<Option<LegalBook>, View>;

/// The shared part of the desk: the slot of the book, and four words by their place: 0 the front, 1 the next ticket, 2
/// the ticket that is served, 3 the count of calls.
pub type TableShare = Shared<Option<LegalBook>, View, Model, DeskRule>;

/// Draws a ticket. Returns its number modulo 2^64.
pub fn draw_ticket(board: &TableShare, seat: &mut TableSeat) -> u64
    requires table { IsSeatOf board.now.table_id seat.old.table_id }
    requires rest { IsAtRest seat.old.me.0 }
    ensures table { seat.new.table_id ≡ seat.old.table_id }
    ensures waits { (t : ℕ) × (result ≡ t % 2 ^ 64)
        × (seat.new.me ≡ (view_with_turn seat.old.me.0 true t false seat.old.me.0.seen, seat.old.me.1)) }
{
    board.fetch_add::<Draw>(seat, 1, 1)
}

/// Checks whether it is the seat's turn.
pub fn is_served(board: &TableShare, seat: &mut TableSeat, ticket: u64) -> bool
    requires table { IsSeatOf board.now.table_id seat.old.table_id }
    requires waits { IsWaiting seat.old.me.0 }
    requires ticket { ticket ≡ seat.old.me.0.ticket % 2 ^ 64 }
    ensures table { seat.new.table_id ≡ seat.old.table_id }
    ensures turn { HasTurnIf result seat.old.me seat.new.me }
{
    board.load::<Serve>(seat, 2) == ticket
}

/// Waits for the seat's turn.
pub fn wait_turn<R: Wait>(rt: &R, board: &TableShare, seat: &mut TableSeat, ticket: u64)
    requires table { IsSeatOf board.now.table_id seat.old.table_id }
    requires waits { IsWaiting seat.old.me.0 }
    requires ticket { ticket ≡ seat.old.me.0.ticket % 2 ^ 64 }
    ensures table { seat.new.table_id ≡ seat.old.table_id }
    ensures turn { HasComeToTurn seat.old.me seat.new.me }
{
    for _ in rt.forever() {
        if is_served(board, seat, ticket) {
            break;
        }
        thread::yield_now();
    }
}

/// Counts a call. Returns its place in the journal.
pub fn raise_count<E: AddedCall>(board: &TableShare, seat: &mut TableSeat, call: &Call) -> u64
    // the seat has the turn, the journal has room for a call, and the seat's only account is the caller's
    requires table { IsSeatOf board.now.table_id seat.old.table_id }
    requires calls { E.calls ≡ call.now ∷ [] }
    requires turn { (seat.old.me.0.turn ≡ true) × (length (calls_of seat.old.me.0.seen) < MAX_CALLS) }
    requires account { (a : Account) × (seat.old.me.0.accounts ≡ a ∷ []) × (call.now.caller ≡ a.caller) }
    // the table of the seat is unchanged
    ensures table { seat.new.table_id ≡ seat.old.table_id }
    // the result: the call's place in the journal, and the seat's view with the call
    ensures count { result ≡ length (calls_of seat.old.me.0.seen) }
    ensures call { (a : Account) → seat.old.me.0.accounts ≡ a ∷ []
        → seat.new.me ≡ (view_after_call seat.old.me.0 a call.now, seat.old.me.1) }
{
    board.fetch_add::<RaiseCount<E>>(seat, 3, 1)
}

/// Raises the front.
pub fn raise_front(board: &TableShare, seat: &mut TableSeat, front: u64)
    requires table { IsSeatOf board.now.table_id seat.old.table_id }
    requires turn { (seat.old.me.0.turn ≡ true) × (seat.old.me.0.steers ≡ true) }
    requires above { front_of seat.old.me.0.seen < front }
    ensures table { seat.new.table_id ≡ seat.old.table_id }
    ensures front { seat.new.me ≡ (view_after_front seat.old.me.0 front, seat.old.me.1) }
{
    board.store::<RaiseFront>(seat, 0, front)
}

/// Ends the turn.
pub fn end_turn(board: &TableShare, seat: &mut TableSeat)
    requires table { IsSeatOf board.now.table_id seat.old.table_id }
    requires may_end { MayEndTurn seat.old.me }
    ensures table { seat.new.table_id ≡ seat.old.table_id }
    ensures rest { seat.new.me ≡ (view_with_turn seat.old.me.0 false 0 false seat.old.me.0.seen, []) }
{
    board.fetch_add::<Leave>(seat, 2, 1);
}

/// Ends the turn of a caller whose reply was Full.
pub fn end_full_turn(board: &TableShare, seat: &mut TableSeat)
    // the seat has the turn, the book is back in the slot, and the journal is full
    requires table { IsSeatOf board.now.table_id seat.old.table_id }
    requires may_end { MayEndTurn seat.old.me }
    requires full { length (calls_of seat.old.me.0.seen) ≡ MAX_CALLS }
    requires account { HasOneAccount seat.old.me.0 }
    // the table of the seat is unchanged
    ensures table { seat.new.table_id ≡ seat.old.table_id }
    // the result: a seat at rest, whose account is marked Full
    ensures rest { (a : Account) → seat.old.me.0.accounts ≡ a ∷ []
        → seat.new.me ≡ (
          record (view_with_turn seat.old.me.0 false 0 false seat.old.me.0.seen)
              { accounts = full_account a ∷ [] },
          [],
        ) }
{
    board.fetch_add::<LeaveFull>(seat, 2, 1);
}

/// Loads the front. It never waits.
pub fn look_at_front(board: &TableShare, seat: &mut TableSeat) -> u64
    requires table { IsSeatOf board.now.table_id seat.old.table_id }
    requires rest { IsAtRest seat.old.me.0 }
    requires pass { seat.old.me.0.steers ≡ false }
    requires account { HasOneAccount seat.old.me.0 }
    ensures table { seat.new.table_id ≡ seat.old.table_id }
    ensures seen { (a : Account) → seat.old.me.0.accounts ≡ a ∷ [] → (j : List Event) × IsPrefix seat.old.me.0.seen j
        × (result ≡ front_of j) × (seat.new.me ≡ (view_after_look seat.old.me.0 a j, seat.old.me.1))
        × (front_of seat.old.me.0.seen ≤ result) }
{
    board.load::<Look>(seat, 0)
}
