//! The tests of the program as one call, `cloner_top`. The library is empty.
//!
//! A crate's tests are proved together with the crate, so a crate with tests is proved twice. The tests of `cloner_top`
//! are here, so both the tests and the crate are proved once. They also try command lines of `command_words`.
//!
//! They show what is not proved: that calls find memory, and that contracts mean what they should, against values
//! computed by hand. A row has a name, the words and the texts of a run, and its result: the status, and each byte that
//! is written:
//!
//! ```text
//! Row { shows: "a branch that ends early", script: "fork brief from base\nend brief at 9\n",
//!       traces: texts::BRIEF, report: texts::BRIEF_REPORT, ..PLAIN }
//! ```
//!
//! If threads run concurrently, a test must pass under every schedule.
#![tactic(auto)]

#[cfg(test)]
mod cloner_top_tests;
