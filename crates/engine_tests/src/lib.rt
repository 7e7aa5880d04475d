//! The tests of the engine and of the crates that run with it. The library is empty.
//!
//! A crate's tests are proved together with the crate, so a crate with tests is proved twice. The tests of these crates
//! are here, so both the tests and the crates are proved once. Each module tests one crate by its public items:
//!
//! ```text
//! crew_pool_tests        phys_proc_tests        world_core_tests
//! decision_desk_tests    shelf_tests
//! live_study_tests       queue_stats_tests
//! linked_tests: the rounds of study_run
//! ```
//!
//! They show what is not proved: that calls find memory, and that contracts mean what they should, against values
//! computed by hand. If threads run concurrently, a test must pass under every schedule.
#![tactic(auto)]

#[cfg(test)]
mod crew_pool_tests;
#[cfg(test)]
mod decision_desk_tests;
#[cfg(test)]
mod linked_tests;
#[cfg(test)]
mod live_study_tests;
#[cfg(test)]
mod phys_proc_tests;
#[cfg(test)]
mod queue_stats_tests;
#[cfg(test)]
mod shelf_looks;
#[cfg(test)]
mod shelf_tests;
#[cfg(test)]
mod world_core_tests;
