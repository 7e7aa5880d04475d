//! What an analyst saw at a look.
use phys_proc::Glance;
use sim_base::Name;

/// A look: the analyst, the clone, the station, and what was seen.
#[derive(Clone, Copy, Debug, PartialEq, Eq)]
pub struct Looked {
    /// The number of the analyst, from 1.
    pub analyst: u32,
    /// The clone's name.
    pub who: Name,
    /// The station's name.
    pub station: Name,
    /// What was seen; `None` if the model has no such station.
    pub glance: Option<Glance>,
}
