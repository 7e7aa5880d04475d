//! Queue statistics: the figures of a server's queue in the run of a clone.
//!
//! A server's log is the whole history of its queue. Each entry is an arrival, a loss, a departure or a change of a
//! parameter. It has the numbers of jobs in service and waiting after it. The statistics are exact whole numbers:
//! counts, the most waiting jobs, the area under the number in the system, and the waits at a single server.
//!
//! ```text
//! number in the system
//!   2          .-.                   arrived=2 lost=0 done=2 most=1
//!   1    .-----' '-------.           present=9             the area: 3 * 1 + 1 * 2 + 4 * 1
//!   0 ---'               '-----      waited=1 longest=1    the second job waits from 8 to 9
//!  time  5     8 9       13
//! ```
//!
//! ```text
//! let stats = stats_of(&model, station, &log, until);
//! let row = StatRow { who, station, stats };
//! let text = stats_text(alloc, &model, &[row])?;   // base desk arrived=2 lost=0 done=2 most=1 present=9 ..
//! let other = stats.with_end(until, earlier);      // of a clone that has the same log and ends earlier
//! ```
//!
//! `rows` has the statistics of a whole study: of each clone and server of a world at the horizon.
//!
//! One walk along the log adds up all figures except the waits. The waits take two more walks at once, the second of
//! which goes from arrival to arrival, so waiting jobs need no list. An entry costs a few additions, and nothing is
//! allocated. Clones with the same log share the walks: `with_end` moves the statistics to another end without one. A
//! text is one list of bytes that grows; out of memory is its only error.
//!
//! Promise: **the statistics are right**. Each is a figure that `specs/Figures.antt` defines, and every run keeps the
//! laws of queues:
//!
//! | Law | Statement | Servers |
//! |---|---|---|
//! | Little's law, finite form | the area under the number in the system is the sum of all times in the system | all |
//! | Lindley's equation | each wait follows from the wait before it | one, until a parameter changes |
//! | order of service | jobs depart in order of arrival: visit n ends at departure n | the same, by arrival |
//!
//! In Lindley's equation the n-th visit has the n-th arrival, the n-th service start and the n-th departure. At a
//! server by arrival these are the visit's own. At a server by class they may be of different jobs: the equation is
//! then about visits by count, not one job's wait. Statistics report waits only at a server by arrival.
//!
//! All three laws rest on one, `laws::logs_are_queues`: the log of every server in every run is the history of a queue.
//!
//! The tests are in `engine_tests`.
#![tactic(auto)]

pub mod examples;
pub mod laws;
mod pieces;
pub mod row_examples;
pub mod rows;
pub mod stats;
mod tally;
pub mod text;
pub mod waits;

pub use rows::make_statistics;
pub use stats::{Stats, stats_of};
pub use text::{StatRow, stats_text};
pub use waits::Waits;
