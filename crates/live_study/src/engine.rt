//! The engine: conservative time windows up to the fronts that the desk returns, until the horizon.
ghost use Rattle.std.specs.Prelude.{◌≡◌, ◌-◌, ◌<◌, length, IfOk, IfErr, OnOk};
ghost use Rattle.net_model.specs.Net.{HasStation};
ghost use Rattle.world_core.specs.Worlds.{total_handled};
ghost use Rattle.decision_desk.specs.Desks.{desk_id};
ghost use Rattle.decision_desk.specs.Leasts.{leasts_of};
ghost use Rattle.live_study.specs.Driving.{CountsFew, CountsOnce, HasDriven, MayDrive, MayShow, MayTurn};
ghost use Rattle.live_study.specs.Engines.{InStep, IsAhead, Steers, StopsEngine};
ghost use Rattle.live_study.specs.Showing.{AreShownOf, AreShownTo, Raises, TellsEach};

use crate::resources::Resources;
use crew_pool::{Crew, Gate};
use decision_desk::{Desk, Helm};
use shelf::{Naming, Stocker};
use sim_base::{NoMemory, Steps};
use std::alloc::Global;
use std::sync::Wait;
use std::sync::ledger::Ledger;
use study_run::{StudyFault, fault_of_window};
use world_core::{Window, World};

/// The engine's side of a live study, without its world: each window takes that and returns the next. `S` is the type
/// of its stocker.
#[derive(Drop)]
pub(crate) struct Engine<S: Drop> {
    /// Its handle on the desk's journal.
    pub(crate) helm: Helm,
    /// Publishes the racks.
    pub(crate) stocker: S,
    /// Which stations are looked at.
    pub(crate) watched: Vec<bool>,
}

// The time of the next pending message of each clone.
fn least_due_times(alloc: Global, world: &World) -> Result<Vec<Option<u64>>, NoMemory>
    ensures value { IfOk result (λ v. v.items ≡ leasts_of world.now.net world.now.clones world.now.front) }
{
    let many = world.lists().len();
    let mut all = Vec::with_capacity(alloc, many as usize)?;
    for c in 0..many {
        all.push(world.least_of(c))?;
    }
    Ok(all)
}

// A turn of the helm: the world takes what was accepted, and the front is raised to the bound of the next window.
fn take_turn<R: Wait>(
    rt: &R,
    alloc: Global,
    desk: &Desk,
    helm: &mut Helm,
    world: World,
) -> Result<(World, u64), NoMemory>
    requires may_turn { MayTurn (desk_id desk.now) helm.old world }
    ensures steers { Steers helm.old helm.new }
    ensures raised { IfOk result (λ r. IsAhead helm.new r.0 r.1) }
    ensures raises { IfOk result (λ r. Raises helm.old helm.new r.1) }
    ensures same { IfOk result (λ r. r.0.front ≡ world.front) }
    ensures handled { IfOk result (λ r. total_handled r.0.net r.0.clones r.0.front
        ≡ total_handled world.net world.clones world.front) }
{
    let leasts = least_due_times(alloc, &world)?;
    let turn = helm.next(rt, alloc, desk, leasts.as_slice())?;
    let world = world.take(alloc, turn.fresh.as_slice())?;
    let _short = world.lists();
    let _valid = world.model().lookahead();
    Ok((world, turn.front))
}

// Whether a station is looked at.
fn is_watched(watched: &[bool], place: u32) -> bool {
    match watched.get(place as usize) {
        Some(is) => *is,
        None => false,
    }
}

// Publishes what readers are shown of a station, now.
fn show_one<J: Naming, W: Wait + Drop>(
    alloc: Global,
    helm: &Helm,
    world: &mut World,
    stocker: &mut Stocker<J, W>,
    station: u32,
) -> Result<(), NoMemory>
    requires is_station { HasStation world.old.net station }
    requires may_show { MayShow helm.now world.old (station - 1) stocker.old.stock.published }
    ensures same { world.new ≡ world.old }
    ensures shown { OnOk result (AreShownTo helm.now world.old station stocker.new.stock.published) }
    ensures readers { stocker.new.stock.readers ≡ stocker.old.stock.readers }
    ensures tells { OnOk result (TellsEach stocker.new.stock.readers stocker.new.stock.has_published
        (length stocker.new.stock.spares.items)) }
{
    // for the rack's front, which is not beyond the horizon
    let _within = world.front();
    let rack = world.rack(alloc, station)?;
    stocker.publish(alloc, rack)
}

// Publishes the racks of the stations that are looked at, and at the horizon those of all.
fn show<J: Naming, W: Wait + Drop>(
    alloc: Global,
    helm: &Helm,
    world: &mut World,
    stocker: &mut Stocker<J, W>,
    watched: &[bool],
) -> Result<(), NoMemory>
    requires may_show { MayShow helm.now world.old 0 stocker.old.stock.published }
    ensures same { world.new ≡ world.old }
    ensures shown { OnOk result (AreShownOf helm.now world.old stocker.new.stock.published) }
    ensures readers { stocker.new.stock.readers ≡ stocker.old.stock.readers }
    // at the horizon each reader can be told of the last rack
    ensures tells { OnOk result (world.old.front ≡ world.old.net.horizon →
        TellsEach stocker.new.stock.readers stocker.new.stock.has_published
        (length stocker.new.stock.spares.items)) }
{
    let last = world.front() == world.model().horizon();
    let many = world.model().len();
    for s in 0..many {
        if last || is_watched(watched, s) {
            show_one(alloc, helm, world, stocker, s + 1)?;
        }
    }
    Ok(())
}

// A turn of the helm, and its window.
fn take_window<G: Gate, L: Ledger, R: Wait>(
    resources: &Resources<'_, G, R>,
    crew: &mut Crew<'_, Window, G>,
    desk: &Desk,
    helm: &mut Helm,
    world: World,
    steps: &mut Steps<L>,
) -> Result<World, StudyFault>
    requires may_turn { MayTurn (desk_id desk.now) helm.old world }
    ensures steers { Steers helm.old helm.new }
    ensures in_step { IfOk result (λ w. InStep helm.new w) }
    ensures raises { IfOk result (λ w. Raises helm.old helm.new w.front) }
    ensures rises { IfOk result (λ w. world.front < w.front) }
    ensures stops { IfErr result (λ e. StopsEngine helm.new.net helm.new.helm e) }
    // what is counted: each message that is handled, once for all clones that share it
    ensures steps { IfOk result (λ w. CountsOnce world w steps.old steps.new) }
    ensures at_most { IfErr result (λ e. CountsFew helm.new world steps.old steps.new e) }
{
    let Ok((world, bound)) = take_turn(resources.rt, resources.alloc, desk, helm, world) else {
        return Err(StudyFault::NoMemory);
    };
    match world.window(resources.rt, resources.alloc, crew, bound, steps) {
        Ok(world) => Ok(world),
        Err(fault) => Err(fault_of_window(fault)),
    }
}

// A turn of the helm and its window, and then readers are shown its result.
fn take_window_and_show<G: Gate, J: Naming, L: Ledger, W: Wait + Drop, R: Wait>(
    resources: &Resources<'_, G, R>,
    crew: &mut Crew<'_, Window, G>,
    desk: &Desk,
    engine: &mut Engine<Stocker<J, W>>,
    world: World,
    steps: &mut Steps<L>,
) -> Result<World, StudyFault>
    requires may_turn { MayTurn (desk_id desk.now) engine.old.helm world }
    requires shown { AreShownOf engine.old.helm world engine.old.stocker.stock.published }
    // what is kept of the helm in any case
    ensures steers { Steers engine.old.helm engine.new.helm }
    // what it returns: a world at a later front, in step with the helm, whose racks readers are shown
    ensures in_step { IfOk result (λ w. InStep engine.new.helm w) }
    ensures rises { IfOk result (λ w. world.front < w.front) }
    ensures shown { IfOk result (λ w. AreShownOf engine.new.helm w engine.new.stocker.stock.published) }
    ensures readers { engine.new.stocker.stock.readers ≡ engine.old.stocker.stock.readers }
    ensures tells { IfOk result (λ w. w.front ≡ w.net.horizon →
        TellsEach engine.new.stocker.stock.readers engine.new.stocker.stock.has_published
        (length engine.new.stocker.stock.spares.items)) }
    // or why the engine stops, over the journal of the helm
    ensures stops { IfErr result (λ e. StopsEngine engine.new.helm.net engine.new.helm.helm e) }
    // what is counted
    ensures steps { IfOk result (λ w. CountsOnce world w steps.old steps.new) }
    ensures at_most { IfErr result (λ e. CountsFew engine.new.helm world steps.old steps.new e) }
{
    let mut world = take_window(resources, crew, desk, &mut engine.helm, world, steps)?;
    match show(
        resources.alloc,
        &engine.helm,
        &mut world,
        &mut engine.stocker,
        engine.watched.as_slice(),
    ) {
        Ok(()) => Ok(world),
        Err(NoMemory) => Err(StudyFault::NoMemory),
    }
}

/// The engine runs to the horizon, and publishes on its way.
pub(crate) fn drive<G: Gate, J: Naming, L: Ledger, W: Wait + Drop, R: Wait>(
    resources: &Resources<'_, G, R>,
    crew: &mut Crew<'_, Window, G>,
    desk: &Desk,
    engine: &mut Engine<Stocker<J, W>>,
    mut world: World,
    steps: &mut Steps<L>,
) -> Result<World, StudyFault>
    requires may_drive { MayDrive (desk_id desk.now) engine.old.helm world engine.old.stocker.stock.published }
    ensures driven { HasDriven engine.old.helm engine.new.helm result engine.new.stocker.stock.published
        engine.old.stocker.stock.readers engine.new.stocker.stock.has_published
        (length engine.new.stocker.stock.spares.items) }
    ensures steps { IfOk result (λ w. CountsOnce world w steps.old steps.new) }
    ensures at_most { IfErr result (λ e. CountsFew engine.new.helm world steps.old steps.new e) }
{
    'turns: while world.front() < world.model().horizon() {
        world = take_window_and_show(resources, crew, desk, engine, world, steps)?;
    }
    Ok(world)
}
