//! The helm, the engine's seat: its turns raise the front, which is the boundary of the next window.
ghost use Rattle.std.specs.Prelude.{◌≡◌, ◌<◌, ◌++◌, ◌∷◌, [], List, MatchResult};
ghost use Rattle.decision_book.specs.Journal.{Event, NewFront, after, front_of};
ghost use Rattle.decision_book.specs.declared.call.Call.{Call};
ghost use Rattle.decision_desk.specs.Turns.{IsSeatOf, seen_book, helm_view};
ghost use Rattle.decision_desk.specs.Passes.{IsHelmAtRest, IsHelmInTurn, HelmHasTurn, IsNextTurn, IsMissedTurn};
ghost use Rattle.decision_desk.specs.Leasts.{leasts_of};
ghost use Rattle.decision_desk.specs.Desks.{desk_id};

use crate::desk::Desk;
use crate::legal::LegalBook;
use crate::pass::{give_book, take_book};
use crate::turns::{TableSeat, TableShare, draw_ticket, end_turn, raise_front, wait_turn};
use decision_book::Call;
use sim_base::NoMemory;
use std::alloc::Global;
use std::sync::Wait;

/// The result of a turn of the helm: the front that it raised, and the calls that were accepted since its last turn.
#[derive(Drop)]
pub struct Turn {
    /// The front that it raised.
    pub front: u64,
    /// The calls that were accepted since the last turn, in order.
    pub fresh: Vec<Call>,
}

/// The helm: the engine's seat, which raises the front and makes the passes.
#[derive(Drop)]
pub struct Helm {
    /// Its seat at the desk.
    pub(crate) seat: TableSeat,
    /// The number of passes that it made.
    pub(crate) made: u32,
    /// The number of calls in the journal at its last turn.
    pub(crate) known: usize,
    /// The front that it raised last, or 0.
    pub(crate) front: u64,
}

impl std::marker::Model for Helm {
    ghost use Rattle.decision_desk.specs.Passes.{HelmView, view_of_helm, IsHelm};

    ghost Value = { HelmView };

    ghost view = { λ h. view_of_helm h.seat.table_id h.seat.me.0 };

    ghost invariant = { λ h. IsHelm h.made h.known h.front h.seat.table_id h.seat.me };
}

/// Waits for the turn of the helm.
fn come_to_helm_turn<R: Wait>(rt: &R, board: &TableShare, seat: &mut TableSeat)
    requires table { IsSeatOf board.now.table_id seat.old.table_id }
    requires rest { IsHelmAtRest seat.old.me }
    ensures table { seat.new.table_id ≡ seat.old.table_id }
    ensures turn { (j : List Event) × HelmHasTurn seat.old.me.0 seat.new.me j }
{
    let ticket = draw_ticket(board, seat);
    wait_turn(rt, board, seat, ticket);
}

/// Publishes a front, puts the book back and ends the turn.
fn raise_and_leave(board: &TableShare, seat: &mut TableSeat, book: LegalBook, front: u64)
    // the helm has the turn, and its book is the journal that it saw with the front appended
    requires table { IsSeatOf board.now.table_id seat.old.table_id }
    requires turn { IsHelmInTurn seat.old.me }
    requires above { front_of seat.old.me.0.seen < front }
    requires book { book ≡ record { net = seat.old.me.0.net; events = seat.old.me.0.seen ++ NewFront front ∷ [] } }
    // the table of the seat is unchanged
    ensures table { seat.new.table_id ≡ seat.old.table_id }
    // the result: the helm at rest, with the front in its journal
    ensures rest { seat.new.me ≡ (
      helm_view seat.old.me.0.net seat.old.me.0.parts
          (seat.old.me.0.seen ++ NewFront front ∷ []) (seat.old.me.0.seen ++ NewFront front ∷ []) seat.old.me.0.made
          seat.old.me.0.accounts,
      [],
    ) }
{
    raise_front(board, seat, front);
    give_book(board, seat, book);
    end_turn(board, seat);
}

/// Ends the turn with the book unchanged.
fn leave_as_it_was(board: &TableShare, seat: &mut TableSeat, book: LegalBook)
    requires table { IsSeatOf board.now.table_id seat.old.table_id }
    requires turn { IsHelmInTurn seat.old.me }
    requires book { book ≡ seen_book seat.old.me.0 }
    ensures table { seat.new.table_id ≡ seat.old.table_id }
    ensures rest { seat.new.me ≡ (
      helm_view seat.old.me.0.net seat.old.me.0.parts seat.old.me.0.seen
          seat.old.me.0.helm seat.old.me.0.made seat.old.me.0.accounts,
      [],
    ) }
{
    give_book(board, seat, book);
    end_turn(board, seat);
}

impl Helm {
    /// The front that this helm raised last, or 0 before its first turn. It allocates nothing.
    pub fn front(&self) -> u64
        ensures value { result ≡ front_of self.now.helm }
    {
        self.front
    }

    /// Returns the calls that were accepted since the last turn, and raises the front to the next one, both in one
    /// turn.
    #[tactic(auto, using(crate::proofs::Journals::front_raised))]
    pub fn next<R: Wait>(
        &mut self,
        rt: &R,
        alloc: Global,
        desk: &Desk,
        least: &[Option<u64>],
    ) -> Result<Turn, NoMemory>
        requires desk { self.old.desk ≡ desk_id desk.now }
        requires below { front_of self.old.helm < self.old.net.horizon }
        requires least { least.now ≡ leasts_of self.old.net (after self.old.net self.old.helm).clones
            (front_of self.old.helm) }
        ensures turn { MatchResult result
            (λ turn. (cs : List Call) × IsNextTurn self.old turn self.new cs)
            (λ _. IsMissedTurn self.old self.new) }
    {
        let board = &desk.table.shared;
        let seat = &mut self.seat;
        come_to_helm_turn(rt, board, seat);
        let mut book = take_book(board, seat);
        match book.take_helm_turn(alloc, self.known, least) {
            Ok(turn) => {
                let known = book.book().calls().len();
                raise_and_leave(board, seat, book, turn.front);
                self.known = known;
                self.front = turn.front;
                Ok(turn)
            }
            Err(fault) => {
                leave_as_it_was(board, seat, book);
                Err(fault)
            }
        }
    }
}
