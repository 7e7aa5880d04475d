//! The world of all clones: a parallel simulation in time windows, in which the clones of one copy share its steps.
//!
//! A simulation cloning engine runs many variants of one simulation, its clones, at the same time. Most of what two
//! clones do is the same. So a station (a logical process) keeps copies (physical processes). A copy represents a set
//! of clones that have handled the same messages there. It splits only when some of its clones take a message that the
//! others do not.
//!
//! [`Stations`] are the copies of all stations, at any cut: each station at its own time. [`Stations::advance`] steps
//! every station separately, up to its bound. Then each station gets what the others sent to it (`station_steps`). A
//! [`World`] is stations at one front. Its window is the step to one bound for all, which no message sent in the window
//! can come before.
//!
//! ```text
//! front 5             gate { base fast }      desk { base fast }           out { base fast }
//!   window to 7         each station handles what is due before 7, once for both clones
//!   then                desk gets what gate sent to it
//! front 7             gate { base fast }      desk { base } { fast }       out { base fast }
//! ```
//!
//! ```text
//! let mut world = World::new(alloc, model)?;
//! world = world.take(alloc, calls)?;                                       // forks, sets and ends
//! while world.front() < horizon {
//!     let bound = world.bound();
//!     world = world.window(&rt, alloc, &mut crew, bound, &mut steps)?;     // or window_in_place, without a crew
//! }
//! let trace = world.trace(alloc, 0)?;                                      // as `base` alone would handle it
//! ```
//!
//! Cost: a window checks one time of each station, and steps the copies of those with something due. After a window of
//! [`station_steps::LARGE_STEP`] messages the next one goes to the crew, which needs four lists with an element for
//! each station. Other windows run in the caller's thread. A message costs one step of its copy, whatever the number of
//! its clones.
//!
//! The promise: **at every front the copies of each station represent the clones**. Each clone is in one copy, whose
//! log, state and pending messages are those of the clone's own run. Two clones share a copy exactly if their logs are
//! equal. This is the invariant of the type [`World`], in place and by a crew. The steps of a window count exactly the
//! messages that all clones together handle in it, shared ones once. [`World::window_in_place`] waits only if its gate
//! does.
//!
//! The tests are in `engine_tests`.
#![tactic(auto)]

pub mod advancing;
mod looking;
mod racks;
mod taking;
mod tracing;
pub mod world;

pub use advancing::Stations;
pub use station_steps::Window;
pub use world::{World, WorldFault};
