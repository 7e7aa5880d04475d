//! The run of a study: all clones in one world, window by window up to the horizon (stop time).
ghost use Rattle.std.specs.Prelude.{◌≡◌, ◌+◌, ◌∷◌, [], IfOk, IfErr};
ghost use Rattle.sim_base.specs.Clones.{base};
ghost use Rattle.world_core.specs.Taking.{AreAccepted, clones_after_calls};
ghost use Rattle.world_core.specs.Worlds.{total_handled};
ghost use Rattle.study_run.specs.Going.{IsStudyRun};
ghost use Rattle.study_run.specs.Faults.{IsFaultOfAll};
ghost use Rattle.study_run.specs.Limits.{AreWithin};

use crate::driver::{go_alone, go_to_end};
use crate::fault::StudyFault;
use crate::plain::PlainRun;
use crew_pool::{Gate, Workers};
use decision_book::Call;
use net_model::Model;
use sim_base::{NoMemory, Steps};
use std::alloc::Global;
use std::sync::ledger::Ledger;
use std::sync::{Arc, Wait};
use std::thread::Threads;
use world_core::World;

// Opens the world of all clones that the calls create, before anything is handled.
fn open_world(alloc: Global, model: &Arc<Model>, calls: &[Call]) -> Result<World, NoMemory>
    requires accepted { AreAccepted model.now.value (base ∷ []) 0 calls.now }
    ensures net { IfOk result (λ w. w.net ≡ model.now.value) }
    ensures front { IfOk result (λ w. w.front ≡ 0) }
    ensures clones { IfOk result (λ w. w.clones ≡ clones_after_calls model.now.value (base ∷ []) calls.now) }
{
    let shared = model.clone()?;
    let world = World::new(alloc, shared)?;
    let world = world.take(alloc, calls)?;
    Ok(world)
}

// Runs the clones of a world at front 0 to the horizon, in the caller's thread.
fn run_alone_to_horizon<G: Gate, L: Ledger>(
    alloc: Global,
    gate: &G,
    world: World,
    steps: &mut Steps<L>,
) -> Result<World, StudyFault>
    requires front { world.front ≡ 0 }
    ensures runs { IsStudyRun world.net world.clones steps.old steps.new result }
{
    let _valid = world.model().horizon();
    go_alone(alloc, gate, &mut PlainRun, world, steps)
}

// Runs the clones of a world at front 0 to the horizon, with this number of workers.
fn run_to_horizon<G: Gate + Sync, L: Ledger, R: Threads + Wait + Sync>(
    rt: &R,
    alloc: Global,
    workers: Workers,
    gate: &G,
    world: World,
    steps: &mut Steps<L>,
) -> Result<World, StudyFault>
    requires front { world.front ≡ 0 }
    ensures runs { IsStudyRun world.net world.clones steps.old steps.new result }
{
    let _valid = world.model().horizon();
    go_to_end(rt, alloc, workers, gate, &mut PlainRun, world, steps)
}

/// Runs a study in the caller's thread. The world of a model takes the calls, which were accepted, at front 0, and
/// advances to the horizon. It calls the gate before each station of each window. It waits only if the gate does, so
/// its contract promises that it returns if the gate does.
pub fn run_study_sequentially<G: Gate, L: Ledger>(
    alloc: Global,
    gate: &G,
    model: &Arc<Model>,
    calls: &[Call],
    steps: &mut Steps<L>,
) -> Result<World, StudyFault>
    requires accepted { AreAccepted model.now.value (base ∷ []) 0 calls.now }

    // the world at the horizon, with the clones that the calls create
    ensures net { IfOk result (λ w. w.net ≡ model.now.value) }
    ensures clones { IfOk result (λ w. w.clones ≡ clones_after_calls model.now.value (base ∷ []) calls.now) }
    ensures front { IfOk result (λ w. w.front ≡ model.now.value.horizon) }

    // no log is beyond the limit, and what clones share was handled once
    ensures within { IfOk result (λ w. AreWithin model.now.value w.clones) }
    ensures steps { IfOk result (λ w.
        steps.new ≡ steps.old + total_handled model.now.value w.clones model.now.value.horizon) }

    // or out of memory, or the limit is met
    ensures fault { IfErr result (λ e.
        IsFaultOfAll model.now.value (clones_after_calls model.now.value (base ∷ []) calls.now) steps.old steps.new e) }
{
    match open_world(alloc, model, calls) {
        Ok(world) => run_alone_to_horizon(alloc, gate, world, steps),
        Err(NoMemory) => Err(StudyFault::NoMemory),
    }
}

/// Runs a study with this number of workers. The world of a model takes the calls, which were accepted, at front 0, and
/// advances to the horizon. With one worker it is `run_study_sequentially`.
///
/// The contract does not depend on the number of workers or on the gate.
pub fn run_study<G: Gate + Sync, L: Ledger, R: Threads + Wait + Sync>(
    rt: &R,
    alloc: Global,
    workers: Workers,
    gate: &G,
    model: &Arc<Model>,
    calls: &[Call],
    steps: &mut Steps<L>,
) -> Result<World, StudyFault>
    requires accepted { AreAccepted model.now.value (base ∷ []) 0 calls.now }

    // the world at the horizon, with the clones that the calls create
    ensures net { IfOk result (λ w. w.net ≡ model.now.value) }
    ensures clones { IfOk result (λ w. w.clones ≡ clones_after_calls model.now.value (base ∷ []) calls.now) }
    ensures front { IfOk result (λ w. w.front ≡ model.now.value.horizon) }

    // no log is beyond the limit, and what clones share was handled once
    ensures within { IfOk result (λ w. AreWithin model.now.value w.clones) }
    ensures steps { IfOk result (λ w.
        steps.new ≡ steps.old + total_handled model.now.value w.clones model.now.value.horizon) }

    // or out of memory, or the limit is met
    ensures fault { IfErr result (λ e.
        IsFaultOfAll model.now.value (clones_after_calls model.now.value (base ∷ []) calls.now) steps.old steps.new e) }
{
    if workers.count == 1 {
        return run_study_sequentially(alloc, gate, model, calls, steps);
    }
    match open_world(alloc, model, calls) {
        Ok(world) => run_to_horizon(rt, alloc, workers, gate, world, steps),
        Err(NoMemory) => Err(StudyFault::NoMemory),
    }
}
