//! Sets of clones: the clones of a copy, and the clones that a message is for.
//!
//! The clones of a run are numbered from 0, in the order in which they were made; there are at most `CloneSet::LIMIT`.
//! While several clones have the same past at a station, one physical copy represents them all. The set of a copy has
//! these clones. The set of a pending message has the clones that it is for: its marks.
//!
//! A copy splits if a message is for only some of its clones:
//!
//! ```text
//! copy {0, 1, 2, 3}   message {1, 3, 7}
//!   |- meet:  {1, 3}  handles the message
//!   `- minus: {0, 2}  continues without it
//! ```
//!
//! A set is four 64-bit words, with clone c at bit c % 64 of word c / 64, and is copied like a number. Union,
//! intersection and comparison take a few instructions and no memory. `iter` returns its clones in rising order.
//!
//! ```text
//! let copy = CloneSet::one(0).with(1).with(3);
//! copy.meet(CloneSet::one(3))     // {3}
//! copy.iter()                     // 0, 1, 3
//! ```
//!
//! Contracts see a set as the number whose bit c is 1 if clone c is in it. They say of each operation which clones are
//! in its result. `laws` has the laws of all sets: they may mark messages (`sim_base::Marks`), and a size is the number
//! of clones. The promise of README.md that branches share exactly rests on both. No clone is lost in a split, and the
//! number of messages handled alone counts each clone once.
//!
//! The tests are in `base_tests`.
#![tactic(auto)]

pub mod laws;
pub mod marks;
pub mod members;
pub mod set;

pub use members::Members;
pub use set::CloneSet;
