//! The steps of all stations in a time window, and the delivery of what they sent to each other.
//!
//! A station (a logical process) keeps copies (physical processes), each for a set of clones. In a window each station
//! steps its copies to a time, its bound, separately. Then each station gets the messages that the others sent to it.
//! This crate does both for a list of stations, in the caller's thread or by a crew of workers. Each station has a
//! separate bound. A world whose stations share one front passes the same bound to all.
//!
//! ```text
//! stations   gate { base fast }   desk { base } { fast }   out { base fast }
//! bounds     7                    7                        7
//!   step       handles what is due before 7, each copy once for all its clones; new messages go to a list of sends
//!   deliver    desk gets from that list what gate sent to it
//! ```
//!
//! ```text
//! buffers.bound_all(procs.len(), 7)?;
//! let mut stepper = Alone::new(&gate);                     // or WithCrew::new(&rt, crew): the same by workers
//! let stepped = stepper.step(alloc, &model, &ends, &mut procs, &mut buffers, &mut steps)?;
//! // if stepped.over is None, each station is at 7 and has what the others sent to it
//! ```
//!
//! Cost: in place, a step checks one time of each station, and steps the copies of those with something due. By a crew,
//! each station is one task of one call, which needs four lists with an element for each station. The messages that
//! stations send are not sorted. All stations share them as their [`Mail`], and each takes its messages at its next
//! step, in the thread of the worker that steps it. The bounds and the lists of sends are kept from window to window,
//! so they are allocated once.
//!
//! The promise: **each station is stepped to its bound as its clones alone would be, in place or by a crew**. The
//! contract of [`Stepper::step`] is the same for [`Alone`] and [`WithCrew`]. For each clone of a copy it fixes what
//! the clone's own run handles and sends up to the bound. It also fixes the number of messages handled, and the first
//! station and clone whose log would get longer than the limit. Delivery gives each station exactly the messages for
//! it, in the order of the senders. Contracts describe a station together with its mail, whether or not its copies have
//! taken it.
//!
//! The tests are in `engine_tests`.
#![tactic(auto)]

pub mod delivery;
pub mod mail;
pub mod sent_list;
pub mod shared_ends;
pub mod shared_lists;
pub mod shared_model;
pub mod station_slot;
pub mod station_step;
pub mod stepper;
pub mod stepping;
pub mod tasks;
pub mod windows;

pub use delivery::{deliver_all, deliver_to};
pub use mail::Mail;
pub use sent_list::SentList;
pub use shared_ends::SharedEnds;
pub use shared_lists::SharedLists;
pub use shared_model::share_of;
pub use station_slot::StationSlot;
pub use station_step::StationStep;
pub use stepper::{Alone, LARGE_STEP, Stepper, WithCrew};
pub use stepping::{Buffers, WindowResult};
pub use tasks::StationTask;
pub use windows::Window;
