//! The stations of a queueing network: the state of each kind, and how it handles each message.
//!
//! A clinic can be modelled with five kinds of stations. Patients arrive at a gate (a source) and go to a desk with two
//! clerks and ten chairs (a server of two, room for ten). A corridor takes time (a delay), a triage sends one in three
//! to another desk (a router), and patients leave (a sink). Each station is a *logical process* of a simulation in
//! whole-number time. A message changes its state and makes it send further messages, each later.
//!
//! | kind | handles | counts |
//! |---|---|---|
//! | source | its own tick: a job is sent, and the next tick is due after a random time | jobs sent |
//! | server | a job: served, queued, or lost; a service completion: the job moves on | busy, queue, done, lost |
//! | delay | a job: it moves on after a random time | jobs passed |
//! | router | a job: it moves on at once, over the next link by turn or a random one | jobs passed, weights |
//! | sink | a job: it leaves | jobs, and the sum of their times in the network |
//!
//! A decision of the analyst is a message too, and changes a parameter. When a job moves on, its link is drawn before
//! its time; each station has draws of its own.
//!
//!     let (mut state, first) = state::setup(alloc, &model, 1)?;      // a source's first tick
//!     let line = state::handle(&mut state, &model, &msg, &mut out, &mut steps)?;
//!
//! A state can be saved as plain data and restored from it. The restored state continues to draw where the first one
//! stopped, and data that is not a state of the station is refused:
//!
//!     let saved = state.saved(alloc)?;
//!     let again = State::restore(alloc, &model, 1, &saved)?;
//!
//! A message costs constant time; a queue that is served by class is searched twice. A handling sends at most
//! `MAX_SENDS` messages, and none is allocated.
//!
//! Every simulator of this project computes with `handle`, whose contract is the definition in `specs/Handling.antt`.
//! `laws` has the laws that sharing copies rests on, for every valid network. The state of a station is the replay of
//! its log. Sends come later, and over links by at least the lookahead. No sequence number is used twice.
//!
//! The tests are in `base_tests`.
#![tactic(auto)]

pub mod change;
pub mod decision;
mod delay;
pub mod due;
pub mod examples;
pub mod job_line;
pub mod job_queue;
pub mod kind_state;
pub mod laws;
mod quick;
pub mod quick_sends;
pub mod restoring;
mod router;
pub mod saved;
mod saving;
pub mod sender;
mod server;
mod server_quick;
mod sink;
mod source;
pub mod state;

pub use change::ChangeFault;
pub use job_line::JobLine;
pub use job_queue::JobQueue;
pub use kind_state::{DelayState, KindState, RouterState, ServerState, SinkState, SourceState};
pub use quick_sends::QuickSends;
pub use saved::{RestoreFault, Saved, Shape};
pub use sender::{MAX_SENDS, Sender};
pub use state::State;
