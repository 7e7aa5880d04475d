//! Snapshots: the run of one clone is stopped at a front, written down, and resumed.
//!
//! Long studies stop, machines are taken away, and a planner wants to look at Wednesday noon and go on. A snapshot has
//! what the run of one clone needs to go on, and the lines of its trace so far:
//!
//! ```text
//! run         3 gate ..  5 desk ..  9 desk .. | 11 out ..  13 desk ..
//! snapshot    front 10, the states of the stations with their draws, the pending messages, the lines before 10
//! resumed                                     | 11 out ..  13 desk ..
//! ```
//!
//! ```text
//! let front = time.min(last_front(&model, end));
//! let solo = solo.run_to(&model, front, &mut steps)?;
//! let snapshot = Snapshot::of(alloc, &model, name, front, end, &solo)?;
//! // later, or on another machine:
//! let solo = onward(alloc, &model, &snapshot, &mut steps)?;      // its trace: what comes after the snapshot's lines
//! ```
//!
//! A snapshot may also be read from a text, and then anybody may have written it. `IsAccepted` says which snapshots a
//! run may go on from. Each of its tests is a definition that computes, and names the first station or message that
//! fails.
//!
//! Cost: `Snapshot::of` copies the states and the pending messages, and writes the lines of the trace. `onward` costs
//! what the rest of the run costs. `lines_len` measures the lines first, and takes no memory.
//!
//! The promises, which follow from `resume_laws`:
//!
//! - *Unbroken.* A resumed run writes the text of the run that was not stopped.
//! - *Accepted.* The snapshot of a run is never refused.
//! - *Safe.* From every accepted snapshot the run has a defined trace, whoever wrote the snapshot. It stops where a
//!   station would handle more messages than the limit, and those before the snapshot count.
#![tactic(auto)]

pub mod examples;
pub mod laws;
pub mod resume_laws;
mod resuming;
mod saving;
pub mod snapshot;
pub mod trace_lines;

pub use resuming::{last_front, onward};
pub use saving::lines_len;
pub use snapshot::Snapshot;
pub use trace_lines::{MAX_TRACE_LINE, TraceLines};
