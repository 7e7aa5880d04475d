//! The mode of a run with watches: after each window the branches of the watches that are due are created.
ghost use Rattle.std.specs.Prelude.{◌≡◌, IfOk, IfErr};
ghost use Rattle.run_laws.specs.Fronts.{IsWindow};
ghost use Rattle.stations.specs.Runs.{simulation};
ghost use Rattle.watch_points.specs.Watchers.{Follows};
ghost use Rattle.study_run.specs.Stops.{HasPlace, numbered_fault};
ghost use Rattle.study_run.specs.Watching.{HasBranches};

use crate::fault::StudyFault;
use crate::onwards::Onwards;
use crate::plain::{is_at_horizon, next_window};
use sim_base::{NoMemory, Steps};
use station_steps::Stepper;
use std::alloc::Global;
use std::sync::ledger::Ledger;
use watch_points::Watcher;
use world_core::{World, WorldFault};

// Returns the world with the branches of the watches that became due in its last window.
fn make_branches(alloc: Global, watcher: &mut Watcher, world: World) -> Result<World, StudyFault>
    requires follows { Follows watcher.old world.net world.clones watcher.old.front }
    requires window { IsWindow (simulation world.net) world.clones watcher.old.front world.front }
    ensures made { IfOk result (λ n. HasBranches watcher.old watcher.new world n) }
    ensures memory { IfErr result (λ e. e ≡ StudyFault.NoMemory) }
{
    match watcher.after(alloc, world) {
        Ok(world) => {
            // recalls clauses: the clones' decisions are for stations
            let _lists = world.lists();
            Ok(world)
        }
        Err(NoMemory) => Err(StudyFault::NoMemory),
    }
}

// Maps a window's fault to the run's fault, with the clone's number.
fn fault_of(watcher: &Watcher, fault: WorldFault) -> StudyFault
    requires place { HasPlace watcher.now fault }
    ensures value { result ≡ numbered_fault watcher.now fault }
{
    match fault {
        WorldFault::NoMemory => StudyFault::NoMemory,
        WorldFault::EventLimit { station, who, .. } => StudyFault::LimitMet {
            station,
            who: watcher.clone_number(who),
        },
    }
}

/// The mode of a run with watches: after each window it creates the branches of the watches that are due. A fault names
/// a clone by its number (`Watcher::clone_number`), not by its place.
#[derive(Drop)]
pub struct WatchedRun {
    /// The watches.
    pub watcher: Watcher,
}

impl Onwards<World> for WatchedRun {
    ghost use Rattle.std.specs.Prelude.{◌-◌};
    ghost use Rattle.study_run.specs.Watching.{HasStopped, HasWatched};
    ghost use Rattle.study_run.specs.Windows.{IsAtHorizon};

    ghost has_gone_on = { λ old new.
        HasWatched old.mode.watcher old.world old.steps new.mode.watcher new.world new.steps };

    ghost has_stopped = { λ old steps e. HasStopped old.mode.watcher old.world old.steps steps e };

    ghost done = { λ _ w. IsAtHorizon w };

    ghost left = { λ _ w. w.net.horizon - w.front };

    fn is_done(&self, world: &World) -> bool {
        is_at_horizon(world)
    }

    fn wants_crew(&self, _world: &World, was_large: bool) -> bool {
        was_large
    }

    fn advance<E: Stepper, L: Ledger>(
        &mut self,
        alloc: Global,
        stepper: &mut E,
        world: World,
        steps: &mut Steps<L>,
    ) -> Result<World, StudyFault> {
        match next_window(alloc, stepper, world, steps) {
            Ok(world) => make_branches(alloc, &mut self.watcher, world),
            Err(fault) => Err(fault_of(&self.watcher, fault)),
        }
    }
}
