//! The physical processes of a station: copies that represent the virtual processes of all clones and split lazily.
//!
//! A clone's station is a virtual process: it has a state, a log, and pending messages. While the logs of several
//! clones are equal at a station, so are their states, and one physical copy represents them all. It handles a message
//! once for its whole set of clones. A pending message is marked with the clones that it is for.
//!
//! ```text
//! copy {0 1 2}  state, log of 1 entry      pending: 8 Set {1}   8 Job {0 1 2}
//!    advance: the least message is for clone 1 alone, so the copy splits first
//! copy {1}      log of 2 entries --.
//! copy {0 2}    log of 1 entry  ---'--> they share their past entries
//! ```
//!
//! A `Proc` is a station's list of copies. Each living clone is in one of them. `advance` handles all messages before a
//! bound, for each clone those before its end, and the result is that of each clone's station alone. Messages to other
//! stations are returned with their marks, and `deliver` adds them to the copies there. `fork` adds a new clone to the
//! copy of an old one.
//!
//! ```text
//! let gain = proc.advance(alloc, &model, &ends, bound, &mut sent, &mut steps)?;
//! for i in 0..sent.len() { let (one, set) = sent.at(i); /* the receiver's */ proc.deliver(one.msg(), set)?; }
//! ```
//!
//! Cost: a station with nothing due costs one comparison. A copy is stepped in place, and a message costs the same as
//! in a run of one clone. State, log and pending messages are copied only at a split, and of the log only its tail.
//! `over` has the clones whose logs would get longer than the limit.
//!
//! It carries the promise that sharing changes no result, and the exact count of messages handled once.
//!
//! The tests are in `engine_tests`, those of lists of sent messages in `base_tests`.
#![tactic(auto)]

mod advancing;
pub mod clone_ends;
mod copies;
pub mod copy;
mod event;
mod leasts;
pub mod proc;
mod quick;
pub mod rack;
pub mod sent;
mod step_goal;
mod stepping;

pub use clone_ends::CloneEnds;
pub use copy::PhysCopy;
pub use proc::{Gain, Proc};
pub use rack::{Found, Glance, Rack};
pub use sent::{SentMessages, SentMsg};
