//! The tasks of a crew in a window: one for each station (a logical process).
ghost use Rattle.std.specs.Prelude.{◌≡◌, length, IfOk};
ghost use Rattle.station_steps.specs.Tasks.{AreSteps};

use crate::station_slot::StationSlot;
use crew_pool::add;
use sim_base::NoMemory;
use std::alloc::Global;

/// A task: the copies of a station, and the bound to which a worker steps them.
#[derive(Drop)]
pub struct StationTask {
    pub(crate) proc: StationSlot,
    pub(crate) bound: u64,
}

/// Makes a task for each station, to the bound at its place.
pub(crate) fn steps_for(
    alloc: Global,
    procs: Vec<StationSlot>,
    bounds: &[u64],
) -> Result<Vec<StationTask>, NoMemory>
    requires count { length bounds.now ≡ length procs.items }
    ensures tasks { IfOk result (λ tasks. AreSteps procs.items bounds.now tasks.items) }
{
    let mut tasks = Vec::with_capacity(alloc, procs.len())?;
    for proc in procs {
        let bound = bounds[tasks.len()];
        add(&mut tasks, StationTask { proc, bound })?;
    }
    Ok(tasks)
}
