//! What a live study begins with, at time 0.
use crate::reserve::Reserve;
use decision_desk::{Desk, Helm, Pass};
use phys_proc::Rack;
use shelf::NewHistory;
use world_core::World;

/// What a live study begins with: the world and a rack of each of its stations, which of these are looked at, the empty
/// history of racks, the desk with its helm and its passes, and the memory reserved for its end.
#[derive(Drop)]
pub(crate) struct Prepared {
    pub(crate) world: World,
    pub(crate) racks: Vec<Rack>,
    pub(crate) watched: Vec<bool>,
    pub(crate) opened: NewHistory,
    pub(crate) desk: Desk,
    pub(crate) helm: Helm,
    pub(crate) passes: Vec<Pass>,
    pub(crate) reserve: Reserve,
}
