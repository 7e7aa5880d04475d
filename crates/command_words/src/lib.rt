//! The command line, read with `clap`.
//!
//! A planner runs a study in one of nine modes. Options may be anywhere before a word `--`:
//!
//! ```text
//! cloner run MODEL SCRIPT [--workers N]              all clones of a script
//! cloner solo MODEL SCRIPT --clone NAME              one clone alone
//! cloner live MODEL SCRIPT [--workers N]             all clones of a script, while analysts decide
//! cloner gen NUMBER [--workers N]                    a generated study, all its clones
//! cloner watch MODEL SCRIPT WATCHES [--workers N]    all clones of a script, and the branches that watches create
//! cloner stats MODEL SCRIPT [--workers N]            all clones of a script: the statistics of their servers
//! cloner save MODEL SCRIPT --clone NAME --until T    one clone alone until a time: its snapshot
//! cloner resume MODEL SNAPSHOT                       the rest of a clone's run, from its snapshot
//! cloner links MODEL SCRIPT [--workers N]            all clones of a script, in rounds with a clock for each station
//! ```
//!
//! `read_words` returns a `Request`: what to do (`Assignment`), and the number of workers. An assignment has no
//! workers, so no promise about the output can depend on them. An example:
//!
//! ```text
//! let request = read_words(alloc, words)?;      // run m.toml s.txt --workers=4
//! request.assignment                            // Study { source: FileNames { .. }, mode: Run }
//! request.workers                               // 4
//! ```
//!
//! Parsing allocates a command of seven arguments and a list of the words. The promise: **a command line of no known
//! form is refused before any file is read, and none is taken for another**.
//!
//! The tests are in `program_tests`.
#![tactic(auto)]

mod command;
pub mod examples;
mod given;
pub mod laws;
mod number;
pub mod reading;
pub mod request;
pub mod usage;

pub use reading::read_words;
pub use request::{Assignment, MAX_WORKERS, Mode, Request, Source, WordsFault};
pub use usage::usage_line;
