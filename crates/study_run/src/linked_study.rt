//! The run of a study in rounds: all clones in one world, each station at its own clock, up to the horizon (stop time).
ghost use Rattle.std.specs.Prelude.{◌≡◌, ◌∷◌, [], IfOk};
ghost use Rattle.sim_base.specs.Clones.{base};
ghost use Rattle.net_model.specs.Rules.{IsNet};
ghost use Rattle.world_core.specs.Overs.{NoneBeyond};
ghost use Rattle.world_core.specs.Taking.{AreAccepted, clones_after_calls};
ghost use Rattle.link_clocks.specs.NetClocks.{AreAllDone};
ghost use Rattle.study_run.specs.Linking.{IsLinkedRun};

use crate::driver::{go_alone, go_to_end};
use crate::fault::StudyFault;
use crate::linked::LinkedRun;
use crew_pool::{Gate, Workers};
use decision_book::Call;
use link_clocks::LinkWorld;
use net_model::Model;
use sim_base::{NoMemory, Steps};
use std::alloc::Global;
use std::sync::ledger::Ledger;
use std::sync::{Arc, Wait};
use std::thread::Threads;
use world_core::World;

/// The world of a run in rounds at the horizon, and the number of rounds.
#[derive(Drop)]
pub struct LinkedWorld {
    /// All clones at the horizon.
    pub world: World,
    /// The number of rounds.
    pub rounds: u64,
}

// Opens the world of all clones that the calls create, before the first round.
fn open_link_world(alloc: Global, model: &Arc<Model>, calls: &[Call]) -> Result<LinkWorld, NoMemory>
    requires accepted { AreAccepted model.now.value (base ∷ []) 0 calls.now }
    ensures opens { IfOk result (λ w. w ≡ record {
      net = model.now.value;
      clones = clones_after_calls model.now.value (base ∷ []) calls.now;
      rounds = 0;
    }) }
{
    let shared = model.clone()?;
    let world = LinkWorld::new(alloc, shared, calls)?;
    Ok(world)
}

// The world at the horizon, after all rounds.
fn finish(world: LinkWorld) -> LinkedWorld
    requires done { AreAllDone world.net world.rounds }
    ensures world { result.world ≡ record { net = world.net; clones = world.clones; front = world.net.horizon } }
    ensures rounds { result.rounds ≡ world.rounds }
    ensures within { NoneBeyond result.world.net result.world.clones result.world.front }
    ensures valid { IsNet world.net }
{
    let _valid = world.is_done();
    let rounds = world.rounds();
    let world = world.into_world();
    // recalls clauses: no log is beyond the limit
    let _short = world.lists();
    LinkedWorld { world, rounds }
}

// Runs the clones of a world before its first round to the horizon, in the caller's thread.
fn run_alone_to_horizon<G: Gate, L: Ledger>(
    alloc: Global,
    gate: &G,
    world: LinkWorld,
    steps: &mut Steps<L>,
) -> Result<LinkedWorld, StudyFault>
    requires first { world.rounds ≡ 0 }
    ensures runs { IsLinkedRun world.net world.clones steps.old steps.new result }
{
    match go_alone(alloc, gate, &mut LinkedRun, world, steps) {
        Ok(world) => Ok(finish(world)),
        Err(fault) => Err(fault),
    }
}

// Runs the clones of a world before its first round to the horizon, with this number of workers.
fn run_to_horizon<G: Gate + Sync, L: Ledger, R: Threads + Wait + Sync>(
    rt: &R,
    alloc: Global,
    workers: Workers,
    gate: &G,
    world: LinkWorld,
    steps: &mut Steps<L>,
) -> Result<LinkedWorld, StudyFault>
    requires first { world.rounds ≡ 0 }
    ensures runs { IsLinkedRun world.net world.clones steps.old steps.new result }
{
    match go_to_end(rt, alloc, workers, gate, &mut LinkedRun, world, steps) {
        Ok(world) => Ok(finish(world)),
        Err(fault) => Err(fault),
    }
}

/// Runs a study in rounds, in the caller's thread. The world of a model takes the calls, which were accepted, at front
/// 0, and advances to the horizon. It calls the gate before each station of each round. It waits only if the gate does,
/// so its contract promises that it returns if the gate does.
///
/// # Errors
///
/// Out of memory, or the limit is met: the station, and the place of the clone among all clones.
pub fn run_linked_sequentially<G: Gate, L: Ledger>(
    alloc: Global,
    gate: &G,
    model: &Arc<Model>,
    calls: &[Call],
    steps: &mut Steps<L>,
) -> Result<LinkedWorld, StudyFault>
    requires accepted { AreAccepted model.now.value (base ∷ []) 0 calls.now }
    ensures runs { IsLinkedRun model.now.value (clones_after_calls model.now.value (base ∷ []) calls.now)
        steps.old steps.new result }
{
    match open_link_world(alloc, model, calls) {
        Ok(world) => run_alone_to_horizon(alloc, gate, world, steps),
        Err(NoMemory) => Err(StudyFault::NoMemory),
    }
}

/// Runs a study in rounds with this number of workers. The world of a model takes the calls, which were accepted, at
/// front 0, and advances to the horizon. With one worker it is `run_linked_sequentially`.
///
/// The contract does not depend on the number of workers or on the gate.
///
/// # Errors
///
/// Out of memory, or the limit is met: the station, and the place of the clone among all clones.
pub fn run_linked<G: Gate + Sync, L: Ledger, R: Threads + Wait + Sync>(
    rt: &R,
    alloc: Global,
    workers: Workers,
    gate: &G,
    model: &Arc<Model>,
    calls: &[Call],
    steps: &mut Steps<L>,
) -> Result<LinkedWorld, StudyFault>
    requires accepted { AreAccepted model.now.value (base ∷ []) 0 calls.now }
    ensures runs { IsLinkedRun model.now.value (clones_after_calls model.now.value (base ∷ []) calls.now)
        steps.old steps.new result }
{
    if workers.count == 1 {
        return run_linked_sequentially(alloc, gate, model, calls, steps);
    }
    match open_link_world(alloc, model, calls) {
        Ok(world) => run_to_horizon(rt, alloc, workers, gate, world, steps),
        Err(NoMemory) => Err(StudyFault::NoMemory),
    }
}
