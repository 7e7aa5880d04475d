//! The shelf: what readers see of the stations while the engine runs, in versions.
//!
//! An engine publishes racks, each of which shows a station at a front: its copies, and the lists of the clones that
//! they represent. Readers look at the newest rack of a station and never wait for the engine. The published
//! racks form a history that only grows. A version is the last rack of each station, and records which prefix of the
//! history it covers. `left_right` swaps versions, so a look reads one that does not change.
//!
//! ```text
//! history    gate@0  desk@0  out@0 | desk@7  gate@7  desk@10 ..       front after station
//! version                            gate@7, desk@10, out@0
//! seat       knows a prefix of the history: what it last saw or learnt
//! ```
//!
//! ```text
//! let (mut stocker, seats) = begin::<J, _>(rt, alloc, NewHistory::new(), racks, readers)?;  // the stocker keeps `rt`
//! stocker.publish(alloc, rack)?;                      // the engine, after each window
//! if let Some(told) = stocker.stock.told() {          // once for each reader since the last publish
//!     seat.learn(told);                               // no later look of this seat is older
//! }
//! let glance = seat.look(station, &name);             // waits for nobody, takes no memory, always answers
//! ```
//!
//! What it costs: a look is an entry into `left_right`, a comparison and a counted handle; a publish copies a handle
//! for each station and waits for readers that are in the middle of a look.
//!
//! What it promises: **a look reports a published rack**, and the front of this rack is at least the one that the seat
//! has seen or learnt at that station. What a rack reports of a clone is true of the clone's own run: that is the
//! invariant of the rack itself.
//!
//! The tests are in `engine_tests`.
#![tactic(auto)]

mod entry;
mod history;
mod seat;
mod stocker;
mod version;

pub use history::{History, Naming, NewHistory, PublishedRacks};
pub use seat::{Seat, Told};
pub use stocker::{MAX_READERS, Stock, Stocker, begin};
pub use version::Version;
