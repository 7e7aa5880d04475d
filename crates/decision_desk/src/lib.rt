//! The desk: a book of decisions that threads share, one turn after the other.
//!
//! A caller draws a ticket, waits until it is served, and then has the book to itself until it ends its turn. So the
//! decisions of all threads form one journal, which has the engine's fronts at the places where they were raised:
//!
//! ```text
//! ticket  1           2         3                  4
//! who     analyst 1   engine    analyst 2          analyst 1
//! what    set at 9    front 5   set at 4: late, 5  fork
//! ```
//!
//! An example:
//!
//! ```text
//! let (desk, passes, helm) = Desk::begin(alloc, model, 2)?;
//! let receipt = desk.decide(&rt, &mut pass, decision);  // an analyst's thread: the place in the journal, the reply
//! let turn = helm.next(&rt, alloc, &desk, &least)?;     // the engine's: what was accepted since, and the next front
//! let book = desk.close(passes, helm);                  // a legal journal, when all is handed back
//! ```
//!
//! A decision takes no memory: its pass reserved memory for all receipts at the beginning. It waits for earlier turns
//! and yields between checks, and then costs what `LegalBook::ask` costs. A turn of the helm copies the least times,
//! one for each clone, and reads the calls since its last turn. `front` and `is_late` load one word and never wait.
//!
//! The promise: **all threads' decisions form one ordered journal**. It has each analyst's decisions in order, each
//! once, with the reply of the table of refusals at its place. A seat knows only the part of the journal that its pass
//! has seen. The rule of the desk is in `specs/Turns.antt`. It defines what each step of a seat does to the words
//! front, ticket, serving and count, and to the slot of the book. The invariant of the book's type is that its journal
//! is legal: each front is the next one of the clones before it.
//!
//! The tests are in `engine_tests`.
#![tactic(auto)]

pub mod desk;
pub mod examples;
pub mod helm;
pub mod laws;
pub mod legal;
mod next_front;
pub mod pass;
mod turns;
pub mod view;

pub use desk::Desk;
pub use helm::{Helm, Turn};
pub use legal::LegalBook;
pub use pass::{Pass, Receipt};
