//! The mode of a plain run: windows up to the horizon (stop time), and the clones do not change.
ghost use Rattle.std.specs.Prelude.{◌↔◌, IsTrue};
ghost use Rattle.study_run.specs.Windows.{IsAtHorizon, IsWindow};

use crate::fault::{StudyFault, fault_of_window};
use crate::onwards::Onwards;
use sim_base::Steps;
use station_steps::Stepper;
use std::alloc::Global;
use std::sync::ledger::Ledger;
use world_core::{World, WorldFault};

/// Whether a world is at the horizon.
pub fn is_at_horizon(world: &World) -> bool
    ensures value { IsTrue result ↔ IsAtHorizon world.now }
{
    world.front() >= world.model().horizon()
}

/// Advances a world to its next front.
///
/// # Errors
///
/// The world is dropped if out of memory, or if a log would get longer than the limit.
pub fn next_window<E: Stepper, L: Ledger>(
    alloc: Global,
    stepper: &mut E,
    world: World,
    steps: &mut Steps<L>,
) -> Result<World, WorldFault>
    requires going { ¬ (IsAtHorizon world) }
    ensures window { IsWindow world steps.old result steps.new }
{
    // recalls clauses: the model is valid, and the front is at most the horizon
    let _valid = world.model().horizon();
    let _within = world.front();
    let bound = world.bound();
    world.advance(alloc, stepper, bound, steps)
}

/// The mode of a plain run.
#[derive(Clone, Copy, Debug)]
pub struct PlainRun;

impl Onwards<World> for PlainRun {
    ghost use Rattle.std.specs.Prelude.{◌-◌};
    ghost use Rattle.study_run.specs.Going.{HasGoneOn, HasStopped};
    ghost use Rattle.study_run.specs.Windows.{IsAtHorizon};

    ghost has_gone_on = { λ old new. HasGoneOn old.world.net old.world new.world old.steps new.steps };

    ghost has_stopped = { λ old steps e. HasStopped old.world.net old.world old.steps steps e };

    ghost done = { λ _ w. IsAtHorizon w };

    ghost left = { λ _ w. w.net.horizon - w.front };

    fn is_done(&self, world: &World) -> bool {
        is_at_horizon(world)
    }

    fn wants_crew(&self, _world: &World, was_large: bool) -> bool {
        was_large
    }

    fn advance<E: Stepper, L: Ledger>(
        &mut self,
        alloc: Global,
        stepper: &mut E,
        world: World,
        steps: &mut Steps<L>,
    ) -> Result<World, StudyFault> {
        match next_window(alloc, stepper, world, steps) {
            Ok(world) => Ok(world),
            Err(fault) => Err(fault_of_window(fault)),
        }
    }
}
