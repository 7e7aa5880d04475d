//! The crew of a run: several workers (threads) that share the stations of its larger windows.
use crew_pool::{Bell, Crew, Gate, Member, Workers};
use std::alloc::Global;
use std::sync::Arc;
use world_core::Window;

/// A crew with its other members, and the bell that dismisses them.
pub struct NewCrew<'g, G: Gate> {
    /// The caller's handle on the crew.
    pub crew: Crew<'g, Window, G>,
    /// The other workers, one for each further thread.
    pub members: Vec<Member<'g, Window, G>>,
    /// The bell, to be rung when there are no more windows.
    pub bell: Arc<Bell>,
}

/// Makes a crew of this number of workers for windows.
pub fn begin_crew<'g, G: Gate>(
    alloc: Global,
    gate: &'g G,
    workers: Workers,
) -> Option<NewCrew<'g, G>> {
    let (crew, members) = Crew::begin(alloc, gate, workers).ok()?;
    let bell = crew.bell().ok()?;
    Some(NewCrew {
        crew,
        members,
        bell,
    })
}
