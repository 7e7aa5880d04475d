//! The steps of the engine: what its own counter counted, and how the caller's counter takes that over.
ghost use Rattle.std.specs.Prelude.{◌≡◌, ◌+◌, IfErr, IfOk};
ghost use Rattle.live_study.specs.Driving.{HasCounted};
ghost use Rattle.world_core.specs.Worlds.{total_handled};

use sim_base::Steps;
use std::sync::ledger::Ledger;
use study_run::StudyFault;
use world_core::World;

/// A counter of steps, and the number that it counted. The counter takes no bytes, so only a clause links the two.
#[derive(Drop)]
pub(crate) struct Count<L: Ledger> {
    /// The counter.
    pub(crate) steps: Steps<L>,
    /// What it counted, or 0 if the run was stopped.
    pub(crate) many: u64,
}

/// `many` steps.
pub(crate) fn tick_often<L: Ledger>(steps: &mut Steps<L>, many: u64)
    ensures value { steps.new ≡ steps.old + many }
{
    for _i in 0..many {
        steps.tick();
    }
}

// The messages that the stations of a world at the horizon have handled, each once for all clones that share it.
fn handled_in(world: &World) -> u64
    requires finished { world.now.front ≡ world.now.net.horizon }
    ensures value { result ≡ total_handled world.now.net world.now.clones world.now.front }
{
    let _few = world.lists();
    let _valid = world.model().lookahead();
    let many = world.model().len();
    let mut total = 0u64;
    for s in 0..many {
        total += world.figures(s + 1).handled;
    }
    total
}

/// The count of an engine that began at 0, when nothing was handled.
pub(crate) fn count_of<L: Ledger>(run: &Result<World, StudyFault>, steps: Steps<L>) -> Count<L>
    requires finished { IfOk run.now (λ w. w.front ≡ w.net.horizon) }
    requires handled { IfOk run.now (λ w. steps ≡ total_handled w.net w.clones w.front) }
    ensures counted { HasCounted run.now result.steps result.many }
{
    match run {
        Ok(world) => Count {
            many: handled_in(world),
            steps,
        },
        Err(_) => Count { steps, many: 0 },
    }
}
