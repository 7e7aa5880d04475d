//! The analysts of a script, and the racks of time 0 that are shown to them before the engine begins.
ghost use Rattle.std.specs.Prelude.{◌≡◌, ◌++◌, ◌≤◌, length, map, All, IfOk, OnOk};
ghost use Rattle.std.specs.List.{AllByRecursion};
ghost use Rattle.decision_script.specs.declared.script.TheConstants.{MAX_ANALYSTS, MAX_ITEMS};
ghost use Rattle.live_study.specs.Opening.{AreOpeningRacks, IsFresh, numbers_to};
ghost use Rattle.live_study.specs.Scripts.{acts_by, each_acts, own_act};

use crate::analyst::Analyst;
use decision_desk::Pass;
use decision_script::{Act, Item, Script};
use net_model::Model;
use phys_proc::Rack;
use shelf::{Naming, Seat};
use sim_base::{NoMemory, Reserved};
use std::alloc::Global;
use world_core::World;

// Appends the act of an item if it is this analyst's.
fn push_own(own: &mut Vec<Act>, item: &Item, a: u32) -> Result<(), NoMemory>
    ensures value { OnOk result (own.new.items ≡ own.old.items ++ own_act a item.now) }
{
    if item.analyst == a {
        own.extend_from_slice(&[item.act])?;
    }
    Ok(())
}

// The acts of an analyst, in order.
fn acts_of(alloc: Global, script: &Script, a: u32) -> Result<Vec<Act>, NoMemory>
    ensures value { IfOk result (λ v. v.items ≡ acts_by a script.now.items) }
    ensures at_most { IfOk result (λ v. length v.items ≤ MAX_ITEMS) }
{
    let mut own = Vec::new(alloc);
    for i in 0..script.len() {
        push_own(&mut own, &script.item(i), a)?;
    }
    Ok(own)
}

/// The analysts of a script, one for each pass and each seat, with memory reserved for their looks.
pub(crate) fn analysts_of<J: Naming>(
    alloc: Global,
    script: &Script,
    passes: Vec<Pass>,
    seats: Vec<Seat<J>>,
) -> Result<Vec<(Analyst, Seat<J>)>, NoMemory>
    requires at_most { length passes.items ≤ MAX_ANALYSTS }
    requires seats { length seats.items ≡ length passes.items }
    ensures passes { IfOk result (λ v. map (λ a. a.0.pass) v.items ≡ passes.items) }
    ensures numbers { IfOk result (λ v. map (λ a. a.0.number) v.items ≡ numbers_to (length passes.items)) }
    ensures todo { IfOk result (λ v.
        map (λ a. a.0.todo.items) v.items ≡ each_acts script.now.items (length passes.items)) }
    ensures fresh { (opening : _) → All (λ s. s ≡ opening) seats.items →
        IfOk result (λ v. AllByRecursion (IsFresh opening) v.items) }
{
    let mut seats = seats;
    let mut seated = Vec::with_capacity(alloc, passes.len())?;
    let mut number = 0;
    for pass in passes {
        let Some(seat) = seats.pop() else {
            unreachable!()
        };
        number += 1;
        let todo = acts_of(alloc, script, number)?;
        let looks = Reserved::with_capacity(alloc, todo.len())?;
        let analyst = Analyst {
            number,
            pass,
            todo,
            looks,
        };
        seated.push((analyst, seat))?;
    }
    Ok(seated)
}

/// A rack of each station at time 0.
pub(crate) fn opening_racks(alloc: Global, world: &mut World) -> Result<Vec<Rack>, NoMemory>
    ensures same { world.new ≡ world.old }
    ensures opening { IfOk result (λ v. AreOpeningRacks world.old (length world.old.net.sites) v.items) }
{
    let many = world.model().len();
    let mut racks = Vec::with_capacity(alloc, many as usize)?;
    for s in 0..many {
        racks.push(world.rack(alloc, s + 1)?)?;
    }
    Ok(racks)
}

// Marks the station of an act if the act is a look.
fn mark_looked_at(watched: &mut Vec<bool>, model: &Model, act: &Act) {
    let Act::Look { who: _, station } = act else {
        return;
    };
    let Some(s) = model.find(station) else {
        return;
    };
    if let Some(is) = watched.get_mut((s as usize).saturating_sub(1)) {
        *is = true;
    }
}

// `many` marks, none of them set.
fn no_marks(alloc: Global, many: u32) -> Result<Vec<bool>, NoMemory> {
    let mut marks = Vec::with_capacity(alloc, many as usize)?;
    for _s in 0..many {
        marks.push(false)?;
    }
    Ok(marks)
}

/// Which stations some analyst looks at. Only these are published before the horizon.
pub(crate) fn watched_in(
    alloc: Global,
    model: &Model,
    script: &Script,
) -> Result<Vec<bool>, NoMemory> {
    let mut watched = no_marks(alloc, model.len())?;
    for i in 0..script.len() {
        mark_looked_at(&mut watched, model, &script.item(i).act);
    }
    Ok(watched)
}
