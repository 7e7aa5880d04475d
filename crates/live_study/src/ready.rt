//! What the threads of a live study begin with.
use crate::analyst::Analyst;
use crate::engine::Engine;
use crate::reserve::Reserve;
use decision_desk::Desk;
use shelf::{Naming, Seat};
use world_core::World;

/// What the threads of a live study begin with: the desk, the engine and its world, the analysts, each at a seat, and
/// the memory reserved for what they leave. `S` is the type of the engine's stocker.
#[derive(Drop)]
pub(crate) struct Ready<J: Naming, S: Drop> {
    pub(crate) desk: Desk,
    pub(crate) engine: Engine<S>,
    pub(crate) world: World,
    pub(crate) seated: Vec<(Analyst, Seat<J>)>,
    pub(crate) reserve: Reserve,
}
