//! The goal of a step: which station is stepped, and to which time.
use crate::clone_ends::CloneEnds;
use net_model::Model;

/// A station of a model, and the time to which its copies are stepped.
#[derive(Clone, Copy)]
pub(crate) struct StepGoal<'a> {
    /// The model.
    pub model: &'a Model,
    /// The number of the station.
    pub station: u32,
    /// When clones end.
    pub ends: &'a CloneEnds,
    /// The time: the step handles what is due before it.
    pub bound: u64,
}
