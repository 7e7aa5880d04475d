//! The lines of a snapshot: one grammar, and the functions that read, write and measure each line.
//!
//! A snapshot is a text of lines. Each line is words with single spaces between them:
//!
//! ```text
//! snapshot base front 10 end -
//! station 2 next 3 drawn 2 handled 3 server 1 5 4 4 1 1 0 line 1 1.1.6
//!         ^ the number of its next message        ^ its parameters and counts, and the waiting jobs
//! pending 1
//! 11 2 1 3 job 1.0.3
//! trace 5
//! ```
//!
//! `specs/Grammar.antt` states each line as a form (`exact_laws`): what is written for a value, and what is read. All
//! numbers are decimal and have no leading zero. Two spaces, a job too few or a word too many make another line, which
//! is refused.
//!
//! ```text
//! let saved = read_station(alloc, line, 2, links)?;   // None unless the line is that of station 2
//! let message = read_message(line);
//! let len = message_len(&message);                            // with the line feed
//! push_message(&mut text, &message)?;
//! ```
//!
//! Cost: a line is read once, from its first byte to its last, and nothing is reserved by a number that it states. Only
//! the jobs of a waiting line take memory.
//!
//! The promises:
//!
//! - *Reading.* Each function returns exactly what the grammar reads from the line.
//! - *Writing.* Each function appends exactly what the grammar writes, and a line feed. `lengths` has the same number
//!   of bytes.
//! - *Exactness.* A line is read as the value that it was written for, and nothing else is read (`laws`).
#![tactic(auto)]

pub mod exact_laws;
pub mod examples;
pub mod laws;
pub mod lengths;
pub mod numbers;
pub mod read_lines;
pub mod read_words;
pub mod words;
pub mod write_lines;
pub mod write_words;
