//! The data types that all crates share: names, messages and their order, log entries, decisions, the decision lists of
//! the clones, and pending messages.
//!
//! A simulation is a set of stations (the literature's *logical processes*) that change state only when they handle a
//! message with a time stamp. A `Msg` is ordered by time, then by its sender, then by the sender's running count (a
//! *sequence number*). So ties are always broken in the same way. `Pending` holds the messages still to be handled (the
//! *future event list*). A log holds the handled ones: each `Entry` has a message and the station's counts after it.
//!
//! A clone is a branch of the simulation. It differs from the others only by its decisions. For each clone, `Lists`
//! keeps its name, its list of `Planned` changes in order of arrival, and its end, if it has one:
//!
//! ```text
//! base   service of desk at 40          <- decided first, so `fast` has it too
//! fast   service of desk at 40, servers of desk at 60
//! ```
//!
//! An example:
//!
//! ```text
//! let mut lists = Lists::with_room(alloc, MAX_CLONES, MAX_DECISIONS)?;
//! lists.fork_in_reserved(name, 0);          // a second clone, with base's decisions so far
//! lists.add(1, plan)?;                      // a decision of the second clone alone
//! ```
//!
//! Memory is reserved once, so a decision in the middle of a run allocates nothing. A fork copies the old clone's list
//! into a spare one, and a decision is a push. Finding a clone by its name is a walk over the clones, at most
//! `MAX_CLONES`.
//!
//! The promises of exact sharing rest on the laws in `laws`. The order of messages is total, and messages that tie in
//! it are equal. Two entries are the same exactly when they are equal, every count included.
#![tactic(auto)]

pub mod decision;
pub mod entry;
pub mod figures;
pub mod laws;
pub mod limits;
pub mod lists;
pub mod marks;
pub mod memory;
pub mod message;
pub mod name;
pub mod number;
pub mod pending;
pub mod reserved;
pub mod steps;

pub use decision::{Decision, Planned, same_plan};
pub use entry::{Entry, Line};
pub use figures::Figures;
pub use limits::MAX_FILE_BYTES;
pub use lists::{Lists, MAX_CLONES, MAX_DECISIONS};
pub use marks::Marks;
pub use memory::NoMemory;
pub use message::{Change, Job, Key, Msg, Param, Payload};
pub use name::Name;
pub use pending::Pending;
pub use reserved::Reserved;
pub use steps::Steps;
