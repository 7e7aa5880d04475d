//! The text of a journal: what analysts decided while a simulation ran, at which fronts, and what they saw.
//!
//! If analysts decide during a run, the replies depend on when they ask. The journal records what happened. Its text is
//! both a record to read and a script that repeats the run.
//!
//! ```text
//! journal 3 2                                             how many calls and fronts
//! # front 5                                               what comes before 5 is fixed
//! analyst ada                                             ada asked, and it was accepted
//! fork fast from base
//! # front 7
//! analyst ben                                             ben's set came too late
//! # refused 11 front 7: set base at 6 desk room 5
//! analyst ada
//! set fast at 8 desk service 2 2
//! looks 1
//! look ben base desk front=7 clones=2 handled=3 shared=2  what ben saw, and how many clones shared it
//! ```
//!
//! An example:
//!
//! ```text
//! let text = journal_text(alloc, &script, book.calls(), book.fronts(), &looks)?;
//! ```
//!
//! It costs one pass over calls, fronts and looks, and one text that grows. Out of memory is the only error.
//!
//! The text is defined in `specs/JournalText.antt`. The promise: **a run is repeated by its journal**. The lines of a
//! right journal's calls, without comments, are read as a script. Its items are the accepted decisions, in order, each
//! by the analyst who made it. All are accepted before the simulation begins, and lead to the same clones as the
//! journal. So the script has the same traces and the same report.
//!
//! The tests are in `base_tests`.
#![tactic(auto)]

pub mod examples;
pub mod laws;
mod looked;
mod pieces;
mod text;

pub use looked::Looked;
pub use text::journal_text;
