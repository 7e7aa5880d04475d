//! Seeded draws (the literature's *random variates*): the words of one stream of a seed, ranges, and picks by weight.
//!
//! Every station has a stream of its own, so the draws of one station do not depend on those of another. Two branches
//! of a simulation have the same times until their decisions differ. A stream is known by its seed, its number and its
//! count of drawn words. So a copy of a station continues where its original was:
//!
//! ```text
//! seed 7, stream 3:   w0 w1 w2 | w3 w4 ..      drawn 3: original and copy both continue with w3
//! ```
//!
//! An example:
//!
//! ```text
//! let mut draws = Draws::new(7, 3);
//! let service = draws.range(4, 9);        // from one word: 4 + w0 mod 6
//! let link = draws.pick(&[3, 1]);         // from one word: 0 three times of four
//! ```
//!
//! A word costs a multiplication and an addition; `at` and `copy` skip the drawn words in some seventeen steps. The
//! words are those of `rand_pcg`'s PCG32. Each call is a formula over word number `drawn`; the promise of one trace for
//! each branch rests on this.
#![tactic(auto)]

pub mod draws;
pub mod examples;
#[cfg(test)]
mod tests;

pub use draws::{Draws, MAX_DRAWS, MAX_WEIGHTS};
