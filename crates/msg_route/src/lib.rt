//! From the senders' copies of a message to the receivers' copies.
//!
//! In a window each copy of a station sends messages for the clones that it represents. Copies of one station that sent
//! the same message need not send it twice. The receiving station may be split differently from the sender:
//!
//! ```text
//! senders        message       receivers
//! {0, 1} --- m --.
//!                 >-- m {0, 1, 2} --- cut ---> copy 0 {0}        gets m for {0}
//! {2}    --- m --'                       `---> copy 1 {1, 2, 3}  gets m for {1, 2}
//! ```
//!
//! `group` merges equal messages and returns them in the order of messages. `cut` returns the parts of one message, one
//! for each copy of the receiver that shares clones with the senders.
//!
//! ```text
//! let parts = cut(alloc, senders, &[CloneSet::one(0), CloneSet::one(1).with(2)])?;
//! ```
//!
//! `group` costs as much as inserting its messages into a `Pending` and removing them, `cut` one intersection of sets
//! for each copy. The engine does not call them. It delivers each message as it is sent, since pending messages merge
//! with their equals anyway. Of this crate its contracts use only the messages that a clone takes (`taken_at`).
//!
//! The two calls promise that no message is lost and none is given twice. `laws` shows that a clone takes the same
//! messages from the grouped ones as from those that were sent.
//!
//! The tests are in `base_tests`.
#![tactic(auto)]

pub mod groups;
pub mod laws;
pub mod parts;

pub use groups::group;
pub use parts::{Part, cut};
