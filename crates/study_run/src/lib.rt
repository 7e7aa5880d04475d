//! Runs of studies: all branches of a model in one world, or one of them alone.
//!
//! A study is a model and the decisions that were accepted before its simulation begins. Its run opens the world of the
//! base clone, and takes the decisions at front 0. Then one driver advances it step by step up to the horizon, the stop
//! time. The *mode* of the run says what a step is:
//!
//! ```text
//! PlainRun     { base fast } --window--> 5 --window--> 7 --window--> 10 .. --window--> horizon
//! WatchedRun   { base } --window--> 5 --window--> 10, a watch is due: { base help } --window--> 12 .. --> horizon
//! LinkedRun    { base fast } --round--> each station at its own clock .. --round--> all at the horizon
//! ```
//!
//! ```text
//! let world = run_study(&rt, alloc, workers, &NoGate, &model, book.calls(), &mut steps)?;
//! let report = make_report(alloc, &model, &world)?;               // what the branches shared
//! let solo = run_alone(alloc, &model, book.lists(), 1, &mut steps)?;     // the same trace, without sharing
//! let linked = run_linked(&rt, alloc, workers, &NoGate, &model, book.calls(), &mut steps)?;
//! let watched = run_watched(&rt, alloc, workers, &NoGate, &model, book.calls(), &watches, &mut steps)?;
//! ```
//!
//! `saving` runs one clone of a study alone until a time, and writes the text of its snapshot.
//!
//! Cost: one step for each message that is handled, once for all clones that share it, and the memory of the world. A
//! clone alone costs one step for each message of its trace. Watches cost what `watch_points` says. A round checks each
//! station and link once. The driver starts threads (a crew) when a window was large, or when two stations have
//! something due in one round. A run has no result if out of memory, or if a log would get longer than the limit.
//!
//! A run of another kind passes its own [`Onwards`] to [`go_to_end`] or [`go_alone`]. `run_alone` is proved to return.
//! `go_alone` and the functions named `.._sequentially` take no handle that may wait, so they are proved to return if
//! their gate does. No contract depends on the number of workers or on the gate.
//!
//! The promises: **bounded work, each shared message handled once**.
//!
//! - *Plain windows*: at the horizon the steps rose by exactly the report's total. If a log would get longer than the
//!   limit, the run stops at the first window end at which one is. The fault names the least station and the least
//!   clone there. No more messages are handled than stations, clones and limit allow.
//! - *Watches*: the run is that of the clones that the watches define. In the order of the watches, the world's clones
//!   are the script's clones and each branch that is due in time. The steps rose by what these clones handle. If the
//!   limit is met, some log of these clones is longer. The fault names that clone by its number: its place in the
//!   script, or the place of its watch after all of those.
//! - *Rounds*: the world is that of `run_study`, and the number of rounds is the network's own. It depends only on the
//!   links and the horizon, and is at most the horizon over the lookahead, rounded down, plus one. If the limit is met,
//!   the fault names a log that is beyond it at the horizon.
//!
//! The tests are in `engine_tests`.
#![tactic(auto)]

pub mod alone;
pub mod crew;
pub mod driver;
pub mod examples;
pub mod fault;
pub mod laws;
pub mod linked;
pub mod linked_study;
pub mod onwards;
pub mod plain;
pub mod report;
pub mod saved_examples;
pub mod saved_laws;
pub mod saving;
pub mod study;
pub mod watched;
pub mod watched_study;

pub use alone::{run_alone, run_alone_until};
pub use crew::{NewCrew, begin_crew};
pub use driver::{go_alone, go_to_end};
pub use fault::{StudyFault, fault_of_window};
pub use linked::LinkedRun;
pub use linked_study::{LinkedWorld, run_linked, run_linked_sequentially};
pub use onwards::Onwards;
pub use plain::PlainRun;
pub use report::make_report;
pub use saving::{SaveFault, save_alone};
pub use study::{run_study, run_study_sequentially};
pub use watched::WatchedRun;
pub use watched_study::{WatchedWorld, run_watched, run_watched_sequentially};
