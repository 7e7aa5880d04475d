//! The mode of a run in rounds: each station goes as far as its inbound links allow, until all are at the horizon.
use crate::fault::{StudyFault, fault_of_window};
use crate::onwards::Onwards;
use link_clocks::LinkWorld;
use sim_base::Steps;
use station_steps::Stepper;
use std::alloc::Global;
use std::sync::ledger::Ledger;

/// The mode of a run in rounds.
#[derive(Clone, Copy, Debug)]
pub struct LinkedRun;

impl Onwards<LinkWorld> for LinkedRun {
    ghost use Rattle.std.specs.Prelude.{◌-◌};
    ghost use Rattle.link_clocks.specs.NetClocks.{AreAllDone};
    ghost use Rattle.study_run.specs.Linking.{HasGoneOn, HasStopped};

    ghost has_gone_on = { λ old new. HasGoneOn old.world new.world old.steps new.steps };

    ghost has_stopped = { λ old steps e. HasStopped old.world old.steps steps e };

    ghost done = { λ _ w. AreAllDone w.net w.rounds };

    ghost left = { λ _ w. w.net.horizon - w.rounds };

    fn is_done(&self, world: &LinkWorld) -> bool {
        world.is_done()
    }

    // a round may be long, so two stations that have something due are enough
    fn wants_crew(&self, world: &LinkWorld, _was_large: bool) -> bool {
        world.wants_crew()
    }

    fn advance<E: Stepper, L: Ledger>(
        &mut self,
        alloc: Global,
        stepper: &mut E,
        world: LinkWorld,
        steps: &mut Steps<L>,
    ) -> Result<LinkWorld, StudyFault> {
        // recalls a clause: the model is valid
        let _valid = world.is_done();
        match world.advance(alloc, stepper, steps) {
            Ok(world) => Ok(world),
            Err(fault) => Err(fault_of_window(fault)),
        }
    }
}
