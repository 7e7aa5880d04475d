//! The pending messages of a copy.
//!
//! Nearly always all clones of a copy take each of its pending messages. These are in a heap, packed, without marks.
//! The others are in a list, each with the clones that take it: messages that only some clones take, or that do not fit
//! 16 bytes:
//!
//! ```text
//! copy {0 1 2}      common  [8 Job] [9 Tick] ..        partial  8 Set {1}
//! ```
//!
//! Contracts see both as one list in the order of messages, each once with the clones that take it. A message may be in
//! the heap and in the list: then its clones are those of both. If the copy gets one clone more, the marks in the list
//! change, and the heap does not. If the copy splits, the heap is copied, and the list is cut.
//!
//! The tests are in `base_tests`.
#![tactic(auto)]

pub mod pending;

pub use pending::CopyPending;
