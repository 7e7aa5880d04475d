//! The world of all clones, in rounds: each station goes as far as the links that lead to it allow.
//!
//! A [`World`](world_core::World) takes all stations to one front, and no window is longer than the lookahead, the
//! least delay of any link. Here each station (logical process) has its own *clock*. In a round each station goes to
//! its next clock, separately: the least of the horizon and, for each link from another station, the sender's clock
//! plus the delay. This is the conservative synchronization of Chandy, Misra and Bryant, with rounds instead of null
//! messages.
//!
//! ```text
//! round    gate --2--> desk --2--> out
//!   0         0          0          0
//!   1        20          2          2      each station handles what comes before its clock, once for all its clones
//!   2        20         20          4      and then gets what the others sent to it
//!   3        20         20         20
//! ```
//!
//! ```text
//! let mut world = LinkWorld::new(alloc, model, calls)?;
//! while !world.is_done() {
//!     world = world.round(&rt, alloc, &mut crew, &mut steps)?;    // or round_in_place, without a crew
//! }
//! let rounds = world.rounds();
//! let world = world.into_world();                                 // a World at the horizon: its traces and figures
//! ```
//!
//! Cost: a round checks each station and each link once, and steps the copies of stations with something due. If two or
//! more stations have something due, a round goes to the crew. Other rounds run in the caller's thread. A network
//! without a cycle takes as many rounds as its longest path has stations. All messages that wait at a station are in
//! memory at the same time.
//!
//! The promise: **after each round the copies of every station represent the clones at the station's own clock**. Each
//! clone is in one copy, whose log and state are those of the clone's own run there. Two clones share a copy exactly if
//! their logs are equal. This is the invariant of [`LinkWorld`], in place and by a crew. The steps of a round count
//! exactly the messages that all clones together handle in it, shared ones once. [`LinkWorld::round_in_place`] waits
//! only if its gate does.
//!
//! The tests are in `engine_tests`.
#![tactic(auto)]

mod clocks;
pub mod examples;
pub mod link_world;

pub use link_world::LinkWorld;
