//! The book of decisions: the decisions of analysts, the replies to them, and the resulting decision lists.
//!
//! A decision is made at a *front*. Everything before the front is fixed, so a change may still come at the front
//! itself or later. The book keeps the journal of a simulation, which is its calls and its fronts in order, and the
//! clones' lists after it:
//!
//! ```text
//! front 5 · front 7 · front 10 · fork fast from base: accepted · set fast at 9 ..: late, the front is 10
//!                                `--> lists: base, fast
//! ```
//!
//! An example:
//!
//! ```text
//! let mut book = Book::begin(alloc, model)?;
//! book.advance(10)?;                             // the window up to 10 begins
//! let reply = book.decide(1, decision);          // Accepted, or the refusal
//! let clones = book.lists();                     // the clones to simulate from here on
//! ```
//!
//! `decide` allocates nothing: the memory for 4,096 calls and 256 clones of 256 decisions, less than 8 MB, is reserved
//! at the start. It costs a walk over the names of the clones; a fork copies the old clone's list.
//!
//! A [`ScriptBook`] is a book for decisions that are all made before the simulation begins, at front 0. It reserves
//! nothing, so `decide` allocates and may run out of memory.
//!
//! The table of refusals in `specs/Replies.antt` is the definition: the reply is its first row whose condition holds.
//! The book's invariant is that its journal is right, and that its lists result from the accepted decisions. A journal
//! is right if each reply is that of the table after the events before it, and the fronts rise. The laws carry the
//! promise that a clone may be run alone. The decisions that reach it lead to the same list and the same end as all
//! decisions.
//!
//! The tests are in `base_tests`.
#![tactic(auto)]

pub mod book;
pub mod call;
pub mod examples;
pub mod laws;
mod reply;
pub mod script_book;

pub use book::Book;
pub use call::{Call, MAX_CALLS, Reply};
pub use script_book::ScriptBook;
