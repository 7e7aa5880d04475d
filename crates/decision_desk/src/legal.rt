//! A book whose journal is legal: each front is the next front of the clones before it.
ghost use Rattle.std.specs.Prelude.{◌≡◌, ◌<◌, ◌≤◌, ◌++◌, ◌∷◌, [], OnOk, OnErr, IfOk};
ghost use Rattle.stations.specs.Runs.{next_front};
ghost use Rattle.decision_book.specs.Journal.{after, NewFront};
ghost use Rattle.decision_desk.specs.Legal.{FrontsAreNext};
ghost use Rattle.decision_desk.specs.Passes.{HasAnswered};

use decision_book::{Book, Call, Reply};
use net_model::Model;
use sim_base::{Decision, NoMemory};
use std::alloc::Global;
use std::sync::Arc;

/// A book that changes only by calls and next fronts.
#[derive(Drop)]
pub struct LegalBook {
    book: Book,
}

impl std::marker::Model for LegalBook {
    ghost use Rattle.decision_book.specs.Books.{BookView};
    ghost use Rattle.decision_desk.specs.Legal.{FrontsAreNext};

    ghost Value = { BookView };

    ghost view = { λ b. b.book };

    ghost invariant = { λ b. FrontsAreNext b.book.net b.book.events };
}

impl LegalBook {
    /// Returns a book without calls and fronts.
    pub fn begin(alloc: Global, model: Arc<Model>) -> Result<LegalBook, NoMemory>
        ensures value { IfOk result (λ b. b ≡ record { net = model.value; events = [] }) }
    {
        let book = Book::begin(alloc, model)?;
        Ok(LegalBook { book })
    }

    /// Raises the front to the next one.
    pub fn raise(&mut self, front: u64) -> Result<(), NoMemory>
        requires above { (after self.old.net self.old.events).front < front }
        requires within { front ≤ self.old.net.horizon }
        requires next { front ≡ next_front self.old.net (after self.old.net self.old.events).clones
            (after self.old.net self.old.events).front }
        ensures ok { OnOk result (
            self.new ≡ record self.old { events = self.old.events ++ NewFront front ∷ [] }) }
        ensures err { OnErr result (self.new ≡ self.old) }
    {
        self.book.advance(front)
    }

    /// The book, whose journal is legal.
    pub fn book(&self) -> &Book
        ensures value { result.now ≡ self.now }
        ensures fronts { FrontsAreNext self.now.net self.now.events }
    {
        &self.book
    }

    /// Submits a decision. Returns the reply and the call that it adds, none if the journal is full.
    pub fn ask(&mut self, caller: u32, d: &Decision) -> (Reply, Option<Call>)
        ensures asked { HasAnswered self.old caller d.now result.0 result.1 self.new }
    {
        self.book.ask(caller, d)
    }
}
