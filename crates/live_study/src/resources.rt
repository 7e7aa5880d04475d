//! What a live study takes from its caller.
use crew_pool::{Gate, Workers};
use std::alloc::Global;
use std::sync::Wait;

/// The threads, the memory and the gate that a live study may use, and the number of the engine's workers.
#[derive(Drop)]
pub(crate) struct Resources<'a, G: Gate, R: Wait> {
    /// Starts threads and waits for them.
    pub(crate) rt: &'a R,
    /// Where memory comes from.
    pub(crate) alloc: Global,
    /// The number of the engine's workers, its own thread among them.
    pub(crate) workers: Workers,
    /// Called before each station of each window, and before each call of an analyst.
    pub(crate) gate: &'a G,
}
