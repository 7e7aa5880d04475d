//! What a run takes from its caller.
use crew_pool::{Gate, Workers};
use std::alloc::Global;
use std::sync::Wait;
use std::thread::Threads;

/// The threads, the memory and the gate that a run may use, and the number of its workers.
#[derive(Drop)]
pub(crate) struct Resources<'a, G: Gate, R: Threads + Wait + Sync> {
    /// Starts threads and waits for them. With one worker nothing does.
    pub(crate) rt: &'a R,
    /// Where memory comes from.
    pub(crate) alloc: Global,
    /// Called before each station of each window, and before each call of an analyst.
    pub(crate) gate: &'a G,
    /// The number of workers, the calling thread among them.
    pub(crate) workers: Workers,
}
