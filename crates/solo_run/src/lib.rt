//! The plain simulator: one clone alone, on one thread.
//!
//! A planner who asks for one clone gets the textbook loop of discrete-event simulation. The future event list returns
//! its least message, the message's station handles it, and the sends of the station go into the list.
//!
//!     pending  [3 gate tick] [8 desk job ..] ..        states  gate desk out
//!        |  the first before the front                    |
//!        `--------------------> turn: handle -------------'
//!     trace    .. [3 gate tick: sent=1]
//!
//!     let solo = Solo::new(alloc, &model, lists.list(c))?;            // the decisions are messages too
//!     let solo = solo.run_to(&model, model.horizon(), &mut steps)?;   // Err(SoloFault::Limit { .. }) at the limit
//!     let trace = solo.trace();                                       // the log of all handled messages, in order
//!
//! A run can be resumed. `state` and `due` return the parts of a snapshot. `resumed` makes a run from these, and its
//! trace begins empty. `run_on` is `run_to` for such a run: the ghost value `past` has the entries handled before,
//! which count towards the limit too.
//!
//!     let solo = Solo::resumed(alloc, &model, states, &due)?;         // states of the stations, pending messages
//!     let solo = solo.run_on(&model, model.horizon(), &mut steps)?;   // its trace: the messages handled since then
//!
//! The future event list is one heap of packed messages for all stations, 16 bytes each. A turn costs the handling, and
//! in the heap one way down for the message that is handled and one way up for each further send. What a station sends
//! to itself takes the place of the message. Decisions, and messages that do not fit 16 bytes, are handled whole. A run
//! of n messages keeps n entries of trace in a `Log`, 24 bytes each if packed, as they are within the model's limits.
//!
//! It is the reference for all sharing: `run_to` reaches exactly the run of the clone by the definitions (`ok`). If a
//! station would handle more messages than the limit, it names the station of the first such message (`stops`). The
//! cost of a clone here is its share of *alone* in a report.
//!
//! The tests are in `base_tests`.
#![tactic(auto)]

mod event_list;
mod opening;
mod packed_turn;
pub mod solo;
pub mod turn;

pub use solo::Solo;
pub use turn::SoloFault;
