//! The run of a study with watches: all clones in one world, window by window up to the horizon (stop time).
ghost use Rattle.std.specs.Prelude.{◌≡◌, ◌∷◌, [], Ok, IfOk, IfErr};
ghost use Rattle.sim_base.specs.Clones.{base};
ghost use Rattle.world_core.specs.Taking.{AreAccepted, clones_after_calls};
ghost use Rattle.world_core.specs.Overs.{NoneBeyond};
ghost use Rattle.watch_points.specs.Checking.{fit};
ghost use Rattle.watch_points.specs.Laws.{watch_order};
ghost use Rattle.watch_points.specs.Watchers.{watches_of};
ghost use Rattle.study_run.specs.Watching.{BeginsWithWatches, IsWatchedRun};

use crate::driver::{go_alone, go_to_end};
use crate::fault::StudyFault;
use crate::watched::WatchedRun;
use crew_pool::{Gate, Workers};
use decision_book::Call;
use net_model::Model;
use sim_base::{NoMemory, Steps};
use std::alloc::Global;
use std::sync::ledger::Ledger;
use std::sync::{Arc, Wait};
use std::thread::Threads;
use watch_points::{Watcher, Watches};
use world_core::World;

/// The world of a run with watches at the horizon, and its clones' places in the order of the watches.
#[derive(Drop)]
pub struct WatchedWorld {
    /// All clones, in creation order.
    pub world: World,
    /// The places of the script's clones, and then of the branches, in the order of the watches.
    pub order: Vec<u32>,
}

// The start of a run with watches: its first world and its watcher.
#[derive(Drop)]
struct Beginning {
    world: World,
    mode: WatchedRun,
}

// Another shared handle on the model.
fn share_model(model: &Arc<Model>) -> Result<Arc<Model>, NoMemory>
    ensures value { IfOk result (λ m. m.value ≡ model.now.value) }
{
    let shared = model.clone()?;
    Ok(shared)
}

// Opens the world of all clones that the calls create, before anything is handled.
fn open_watched_world(alloc: Global, model: &Arc<Model>, calls: &[Call]) -> Result<World, NoMemory>
    requires accepted { AreAccepted model.now.value (base ∷ []) 0 calls.now }
    ensures net { IfOk result (λ w. w.net ≡ model.now.value) }
    ensures front { IfOk result (λ w. w.front ≡ 0) }
    ensures clones { IfOk result (λ w. w.clones ≡ clones_after_calls model.now.value (base ∷ []) calls.now) }
{
    let shared = model.clone()?;
    let world = World::new(alloc, shared)?;
    let world = world.take(alloc, calls)?;
    Ok(world)
}

// Opens the world of all clones that the calls create, with the watches, before anything is handled.
fn begin(
    alloc: Global,
    model: &Arc<Model>,
    calls: &[Call],
    w: &Watches,
) -> Result<Beginning, NoMemory>
    requires accepted { AreAccepted model.now.value (base ∷ []) 0 calls.now }
    requires fits { fit model.now.value (clones_after_calls model.now.value (base ∷ []) calls.now) w.now ≡ Ok tt }
    ensures net { IfOk result (λ b. b.world.net ≡ model.now.value) }
    ensures front { IfOk result (λ b. b.world.front ≡ 0) }
    ensures clones { IfOk result (λ b. b.world.clones ≡ clones_after_calls model.now.value (base ∷ []) calls.now) }
    ensures watches { IfOk result (λ b. watches_of b.mode.watcher.active ≡ w.now) }
    ensures has_watches { IfOk result (λ b. BeginsWithWatches b.mode.watcher b.world) }
{
    let world = open_watched_world(alloc, model, calls)?;
    let shared = share_model(model)?;
    let watcher = Watcher::new(alloc, shared, world.lists(), w)?;
    Ok(Beginning {
        world,
        mode: WatchedRun { watcher },
    })
}

// Returns the world at the horizon with its order.
fn put_in_order(alloc: Global, mode: &WatchedRun, world: World) -> Result<WatchedWorld, StudyFault>
    ensures world { IfOk result (λ r. r.world ≡ world) }
    ensures order { IfOk result (λ r. r.order.items ≡ watch_order mode.now.watcher) }
    ensures within { IfOk result (λ r. NoneBeyond world.net world.clones world.front) }
    ensures memory { IfErr result (λ e. e ≡ StudyFault.NoMemory) }
{
    // recalls clauses: no log is beyond the limit
    let _short = world.lists();
    match mode.watcher.order(alloc) {
        Ok(order) => Ok(WatchedWorld { world, order }),
        Err(NoMemory) => Err(StudyFault::NoMemory),
    }
}

// Runs the windows up to the horizon in the caller's thread.
fn go_on_alone<G: Gate, L: Ledger>(
    alloc: Global,
    gate: &G,
    beginning: Beginning,
    steps: &mut Steps<L>,
) -> Result<WatchedWorld, StudyFault>
    requires front { beginning.world.front ≡ 0 }
    requires has_watches { BeginsWithWatches beginning.mode.watcher beginning.world }
    ensures runs { IsWatchedRun beginning.world.net beginning.world.clones
        (watches_of beginning.mode.watcher.active) steps.old steps.new result }
{
    let Beginning { world, mut mode } = beginning;
    match go_alone(alloc, gate, &mut mode, world, steps) {
        Ok(world) => put_in_order(alloc, &mode, world),
        Err(fault) => Err(fault),
    }
}

// Runs the windows up to the horizon with this number of workers.
fn go_on<G: Gate + Sync, L: Ledger, R: Threads + Wait + Sync>(
    rt: &R,
    alloc: Global,
    workers: Workers,
    gate: &G,
    beginning: Beginning,
    steps: &mut Steps<L>,
) -> Result<WatchedWorld, StudyFault>
    requires front { beginning.world.front ≡ 0 }
    requires has_watches { BeginsWithWatches beginning.mode.watcher beginning.world }
    ensures runs { IsWatchedRun beginning.world.net beginning.world.clones
        (watches_of beginning.mode.watcher.active) steps.old steps.new result }
{
    let Beginning { world, mut mode } = beginning;
    match go_to_end(rt, alloc, workers, gate, &mut mode, world, steps) {
        Ok(world) => put_in_order(alloc, &mode, world),
        Err(fault) => Err(fault),
    }
}

/// Runs a study with watches in the caller's thread. The world of a model takes the calls, which were accepted, at
/// front 0, and advances to the horizon. After each window the branches of the watches that are due are created. It
/// calls the gate before each station of each window. It waits only if the gate does, so its contract promises that it
/// returns if the gate does.
pub fn run_watched_sequentially<G: Gate, L: Ledger>(
    alloc: Global,
    gate: &G,
    model: &Arc<Model>,
    calls: &[Call],
    w: &Watches,
    steps: &mut Steps<L>,
) -> Result<WatchedWorld, StudyFault>
    requires accepted { AreAccepted model.now.value (base ∷ []) 0 calls.now }
    requires fits { fit model.now.value (clones_after_calls model.now.value (base ∷ []) calls.now) w.now ≡ Ok tt }
    ensures runs { IsWatchedRun model.now.value (clones_after_calls model.now.value (base ∷ []) calls.now) w.now
        steps.old steps.new result }
{
    match begin(alloc, model, calls, w) {
        Ok(beginning) => go_on_alone(alloc, gate, beginning, steps),
        Err(NoMemory) => Err(StudyFault::NoMemory),
    }
}

/// Runs a study with watches with this number of workers. The world of a model takes the calls, which were accepted, at
/// front 0, and advances to the horizon. After each window the branches of the watches that are due are created. With
/// one worker it is `run_watched_sequentially`.
///
/// The contract does not depend on the number of workers or on the gate.
pub fn run_watched<G: Gate + Sync, L: Ledger, R: Threads + Wait + Sync>(
    rt: &R,
    alloc: Global,
    workers: Workers,
    gate: &G,
    model: &Arc<Model>,
    calls: &[Call],
    w: &Watches,
    steps: &mut Steps<L>,
) -> Result<WatchedWorld, StudyFault>
    requires accepted { AreAccepted model.now.value (base ∷ []) 0 calls.now }
    requires fits { fit model.now.value (clones_after_calls model.now.value (base ∷ []) calls.now) w.now ≡ Ok tt }
    ensures runs { IsWatchedRun model.now.value (clones_after_calls model.now.value (base ∷ []) calls.now) w.now
        steps.old steps.new result }
{
    if workers.count == 1 {
        return run_watched_sequentially(alloc, gate, model, calls, w, steps);
    }
    match begin(alloc, model, calls, w) {
        Ok(beginning) => go_on(rt, alloc, workers, gate, beginning, steps),
        Err(NoMemory) => Err(StudyFault::NoMemory),
    }
}
