//! The program as one call: it takes the command line, files and sinks, and returns an exit status.
//!
//! The input is a model and a script of decisions. `cloner` reads both, makes the decisions, and runs all branches in
//! one world that computes shared work once. It writes a trace for each branch, and a report of what was shared. Each
//! step has its own definition in `specs/`:
//!
//! ```text
//! words -command_words-> request -prepare-> what is read and decided -writing-> output
//!                            statuses 3 to 6, 9, 10               statuses 6 to 8, 11
//! ```
//!
//! An example, over files and sinks in memory:
//!
//! ```text
//! let status = cloner(&rt, alloc, &words, &mut inputs, &mut output, &mut errors, &NoGate, &mut steps);
//! ```
//!
//! A run costs one step for each message that differs. Writing costs one merge of station logs for each line that a
//! branch does not share with the branch before. Memory holds the world, and the lines that a text shares with the next
//! one. The promises of the README rest on the contract of `cloner`: right traces, the first rule that is broken, all
//! or nothing, bounded work, each text in one call, each file fetched once.
//!
//! The tests are in `program_tests`.
#![tactic(auto)]

mod alone;
mod deciding;
pub mod error_line;
pub mod excess;
pub mod halt;
pub mod laws;
mod linking;
mod live;
mod prepare;
mod prepared;
pub mod program;
mod putting;
mod reading;
pub mod refusal;
mod resources;
mod resuming;
mod running;
mod saving;
pub mod stop;
mod watching;
mod writing;

pub use command_words::{Assignment, Mode, Request, Source};
pub use error_line::ErrorLine;
pub use excess::Excess;
pub use program::cloner;
pub use refusal::{Refusal, Text};
pub use stop::Stop;
