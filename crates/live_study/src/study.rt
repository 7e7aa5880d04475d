//! The live study of a model and a script: an interactive simulation, with one journal of what its users decided.
ghost use Rattle.std.specs.Prelude.{◌≡◌, ◌+◌, ◌<◌, ◌≤◌, length, map, IfOk, IfErr, OnErr};
ghost use Rattle.std.specs.List.{AllByRecursion};
ghost use Rattle.net_model.specs.declared.limits.TheConstants.{MAX_STATIONS};
ghost use Rattle.decision_desk.specs.Desks.{desk_id};
ghost use Rattle.decision_desk.specs.Passes.{new_helm, new_passes};
ghost use Rattle.shelf.specs.Racks.{MayOpen};
ghost use Rattle.world_core.specs.Worlds.{opening_world, total_handled};
ghost use Rattle.live_study.specs.Lives.{IsLiveRun};
ghost use Rattle.live_study.specs.Opening.{AreOpeningRacks, HasReservedFor, IsFresh, IsPrepared, numbers_to};
ghost use Rattle.live_study.specs.Scripts.{each_acts};

use crate::analyst::Analyst;
use crate::begin::{analysts_of, opening_racks, watched_in};
use crate::engine::Engine;
use crate::live::run_live;
use crate::prepared::Prepared;
use crate::ready::Ready;
use crate::reserve::Reserve;
use crate::resources::Resources;
use crate::run::LiveRun;
use crate::work::tick_often;
use crew_pool::{Gate, Workers};
use decision_desk::{Desk, Helm, Pass};
use decision_script::Script;
use net_model::Model;
use phys_proc::Rack;
use shelf::{Naming, NewHistory, Seat, Stocker, begin};
use sim_base::{NoMemory, Steps};
use std::alloc::Global;
use std::marker::Brand;
use std::sync::ledger::{Blank, Ledger};
use std::sync::{Arc, Wait};
use std::thread::Threads;
use world_core::World;

// The world at time 0, and a rack of each of its stations.
fn open_world_and_racks(alloc: Global, model: &Arc<Model>) -> Result<(World, Vec<Rack>), NoMemory>
    ensures world { IfOk result (λ r. r.0 ≡ opening_world model.now.value) }
    ensures racks { IfOk result (λ r. AreOpeningRacks r.0 (length model.now.value.sites) r.1.items) }
{
    let mut world = World::new(alloc, Arc::try_clone(model)?)?;
    let racks = opening_racks(alloc, &mut world)?;
    Ok((world, racks))
}

// A desk with a pass for each analyst of the script, and its helm.
fn open_desk(
    alloc: Global,
    model: &Arc<Model>,
    script: &Script,
) -> Result<(Desk, Vec<Pass>, Helm), NoMemory>
    ensures passes { IfOk result (λ r. r.1.items
        ≡ new_passes (desk_id r.0) model.now.value (length script.now.analysts)) }
    ensures helm { IfOk result (λ r. r.2 ≡ new_helm (desk_id r.0) model.now.value (length script.now.analysts)) }
{
    Desk::begin(alloc, Arc::try_clone(model)?, script.analysts())
}

// Memory for what the analysts of the script leave.
fn reserve_for(alloc: Global, script: &Script) -> Result<Reserve, NoMemory>
    ensures value { IfOk result (λ r. HasReservedFor (length script.now.analysts) r) }
{
    let many = script.analysts() as usize;
    Ok(Reserve {
        passes: Vec::with_capacity(alloc, many)?,
        looks: Vec::with_capacity(alloc, many)?,
    })
}

// What the study of a model and a script begins with.
fn prepare(alloc: Global, model: &Arc<Model>, script: &Script) -> Result<Prepared, NoMemory>
    ensures value { IfOk result (λ p. IsPrepared model.now.value (length script.now.analysts) p) }
{
    let reserve = reserve_for(alloc, script)?;
    let watched = watched_in(alloc, model, script)?;
    let (world, racks) = open_world_and_racks(alloc, model)?;
    let (desk, passes, helm) = open_desk(alloc, model, script)?;
    Ok(Prepared {
        world,
        racks,
        watched,
        opened: NewHistory::new(),
        desk,
        helm,
        passes,
        reserve,
    })
}

// The stocker of a history that is named here, and the analysts of the script, each with a seat.
fn take_seats<J: Naming, W: Wait + Drop>(
    waits: W,
    alloc: Global,
    script: &Script,
    opened: NewHistory,
    racks: Vec<Rack>,
    passes: Vec<Pass>,
) -> Result<(Stocker<J, W>, Vec<(Analyst, Seat<J>)>), NoMemory>
    requires name { (opened.seen.book ≡ J.book) × (opened.pen.nib.key ≡ J.start) }
    requires opening { MayOpen racks.items }
    requires at_most { length racks.items ≤ MAX_STATIONS }
    requires many { length passes.items ≡ length script.now.analysts }
    // what it returns: a stocker that has published these racks
    ensures published { IfOk result (λ r. r.0.stock.published ≡ racks.items) }
    ensures readers { IfOk result (λ r. r.0.stock.readers ≡ length script.now.analysts) }
    // and an analyst for each pass, with its number and its acts, who has looked at nothing yet
    ensures passes { IfOk result (λ r. map (λ a. a.0.pass) r.1.items ≡ passes.items) }
    ensures numbers { IfOk result (λ r. map (λ a. a.0.number) r.1.items ≡ numbers_to (length passes.items)) }
    ensures todo { IfOk result (λ r.
        map (λ a. a.0.todo.items) r.1.items ≡ each_acts script.now.items (length passes.items)) }
    ensures fresh { IfOk result (λ r. AllByRecursion (IsFresh racks.items) r.1.items) }
{
    let (stocker, seats) = begin::<J, W>(waits, alloc, opened, racks, script.analysts())?;
    let seated = analysts_of(alloc, script, passes, seats)?;
    Ok((stocker, seated))
}

// The study, over a history of racks and a counter of the engine that are named here. When all threads are joined, the
// caller's counter is ticked as often as the engine's was.
fn run_prepared<
    G: Gate + Sync,
    J: Naming + Send + Sync,
    E: Ledger + Send,
    L: Ledger,
    W: Wait + Drop + Send,
    R: Threads + Wait + Sync,
>(
    resources: &Resources<'_, G, R>,
    waits: W,
    model: &Model,
    script: &Script,
    prepared: Prepared,
    blank: Blank,
    steps: &mut Steps<L>,
) -> Result<LiveRun, NoMemory>
    requires name { (prepared.opened.seen.book ≡ J.book) × (prepared.opened.pen.nib.key ≡ J.start) }
    requires counter { (blank.name ≡ E.name) × (blank.parts ≡ E.parts) × (0 < E.parts) }
    requires prepared { IsPrepared model.now (length script.now.analysts) prepared }
    ensures live_run { IfOk result (λ r. IsLiveRun model.now script.now r) }
    ensures steps { IfOk result (λ r. IfOk r.run (λ w.
        steps.new ≡ steps.old + total_handled w.net w.clones w.front)) }
    ensures idle { IfOk result (λ r. IfErr r.run (λ e. steps.new ≡ steps.old)) }
    ensures unchanged { OnErr result (steps.new ≡ steps.old) }
{
    let Prepared {
        world,
        racks,
        watched,
        opened,
        desk,
        helm,
        passes,
        reserve,
    } = prepared;
    let _stations = model.len();
    let _valid = script.analysts();
    let (stocker, seated) = take_seats::<J, W>(
        waits,
        resources.alloc,
        script,
        opened,
        racks,
        passes,
    )?;
    let engine = Engine {
        helm,
        stocker,
        watched,
    };
    let ready = Ready {
        desk,
        engine,
        world,
        seated,
        reserve,
    };
    let (live, count) = run_live::<G, J, E, W, R>(resources, model, ready, blank);
    tick_often(steps, count.many);
    Ok(live)
}

/// Runs a live study: each analyst of the script decides and looks in its own thread while the engine runs. If memory
/// runs out before the threads start, there is no journal; from then on there is one.
pub fn live_study<G: Gate + Sync, L: Ledger, R: Threads + Wait + Sync>(
    rt: &R,
    alloc: Global,
    workers: Workers,
    gate: &G,
    model: &Arc<Model>,
    script: &Script,
    steps: &mut Steps<L>,
) -> Result<LiveRun, NoMemory>
    // One legal journal and all looks of the script, whose fronts never fall. At the horizon the looks are true of the
    // journal, whose clones the world has; or the engine met the limit at the last front.
    ensures live_run { IfOk result (λ r. IsLiveRun model.now.value script.now r) }
    // At the horizon, what clones share was counted once; else nothing was.
    ensures steps { IfOk result (λ r. IfOk r.run (λ w.
        steps.new ≡ steps.old + total_handled model.now.value w.clones model.now.value.horizon)) }
    ensures idle { IfOk result (λ r. IfErr r.run (λ e. steps.new ≡ steps.old)) }
    ensures unchanged { OnErr result (steps.new ≡ steps.old) }
{
    let prepared = prepare(alloc, model, script)?;
    let resources = Resources {
        rt,
        alloc,
        workers,
        gate,
    };
    run_prepared::<G, Brand, Brand, L, &R, R>(
        &resources,
        rt,
        model,
        script,
        prepared,
        Blank::new(1),
        steps,
    )
}
