//! A seat that learns of the racks of two stations at front 10.
ghost use Rattle.std.specs.Prelude.{◌≡◌, ◌≤◌, length, IfOk};
ghost use Rattle.net_model.specs.declared.limits.TheConstants.{MAX_STATIONS};
ghost use Rattle.shelf.specs.Racks.{HasRack, MayOpen};
ghost use Rattle.engine_tests.specs.Seen.{AreTwoAt, IsRackAt};

use crate::world_core_tests::{LOOKED_AT_TEN, two_clones, window};
use phys_proc::{Found, Glance, Rack};
use sample_models::ONE_DESK;
use shelf::{Naming, NewHistory, Seat, Stocker, Told, begin};
use sim_base::{Name, NoMemory};
use std::alloc::Global;
use std::marker::Brand;
use std::sync::Wait;
use world_core::{World, WorldFault};

const GATE: u32 = 1;

const DESK: u32 = 2;

/// The station's rack.
fn rack_of(alloc: Global, world: &mut World, station: u32) -> Result<Rack, NoMemory>
    ensures rack { IfOk result (λ r. IsRackAt world.old.net world.old.front station r) }
    ensures same { world.new ≡ world.old }
{
    if station < 1 || station > world.model().len() {
        return Err(NoMemory);
    }
    let rack = world.rack(alloc, station)?;
    Ok(rack)
}

/// The racks of the gate and the desk.
fn two_racks(alloc: Global, world: &mut World) -> Result<(Rack, Rack), NoMemory>
    ensures gate { IfOk result (λ p. IsRackAt world.old.net world.old.front 1 p.0) }
    ensures desk { IfOk result (λ p. IsRackAt world.old.net world.old.front 2 p.1) }
    ensures same { world.new ≡ world.old }
{
    let gate = rack_of(alloc, world, GATE)?;
    let desk = rack_of(alloc, world, DESK)?;
    Ok((gate, desk))
}

/// A world of the two clones before anything is handled, and its two racks.
fn opening_two(alloc: Global) -> Result<(World, Vec<Rack>), NoMemory>
    ensures two { IfOk result (λ p. AreTwoAt p.0.net p.0.front p.1.items) }
    ensures opening { IfOk result (λ p. MayOpen p.1.items) }
    ensures at_most { IfOk result (λ p. length p.1.items ≤ MAX_STATIONS) }
    ensures gate { IfOk result (λ p. HasRack 1 p.1.items) }
    ensures desk { IfOk result (λ p. HasRack 2 p.1.items) }
{
    let mut world = two_clones(alloc, ONE_DESK).ok_or(NoMemory)?;
    let (gate, desk) = two_racks(alloc, &mut world)?;
    let racks = Vec::from_array(alloc, [gate, desk])?;
    Ok((world, racks))
}

/// The world, a shelf that opens with its two racks, and a seat.
fn begin_with_two<J: Naming, W: Wait + Drop>(
    waits: W,
    alloc: Global,
    opened: NewHistory,
) -> Result<(World, Stocker<J, W>, Seat<J>), NoMemory>
    requires name { (opened.seen.book ≡ J.book) × (opened.pen.nib.key ≡ J.start) }
    ensures two { IfOk result (λ r. AreTwoAt r.0.net r.0.front r.1.stock.published) }
    ensures gate { IfOk result (λ r. HasRack 1 r.2) }
    ensures desk { IfOk result (λ r. HasRack 2 r.2) }
{
    let (world, racks) = opening_two(alloc)?;
    let (stocker, mut seats) = begin::<J, W>(waits, alloc, opened, racks, 1)?;
    let Some(seat) = seats.pop() else {
        return Err(NoMemory);
    };
    Ok((world, stocker, seat))
}

/// Three windows.
fn three_windows(alloc: Global, world: World) -> Result<World, WorldFault>
    ensures net { IfOk result (λ w. w.net ≡ world.net) }
{
    let first = window(alloc, world, 20)?;
    let second = window(alloc, first, 20)?;
    let third = window(alloc, second, 20)?;
    Ok(third)
}

/// Publishes the racks of both stations, if the front is later than that of the opening racks.
fn publish_two<J: Naming, W: Wait + Drop>(
    alloc: Global,
    world: &mut World,
    stocker: &mut Stocker<J, W>,
    opened_at: u64,
) -> Result<(), NoMemory>
    requires two { AreTwoAt world.old.net opened_at stocker.old.stock.published }
{
    if world.front() <= opened_at {
        return Err(NoMemory);
    }
    let (gate, desk) = two_racks(alloc, world)?;
    stocker.publish(alloc, gate)?;
    stocker.publish(alloc, desk)
}

/// Publishes the racks of both stations after three windows. Returns the front.
fn publish_third<J: Naming, W: Wait + Drop>(
    alloc: Global,
    world: World,
    stocker: &mut Stocker<J, W>,
) -> Result<u64, NoMemory>
    requires two { AreTwoAt world.net world.front stocker.old.stock.published }
{
    let opened_at = world.front();
    let Ok(mut world) = three_windows(alloc, world) else {
        return Err(NoMemory);
    };
    publish_two(alloc, &mut world, stocker, opened_at)?;
    Ok(world.front())
}

/// Whether a look at the station finds this of the clone, one of two at front 10.
fn finds_at<J: Naming>(seat: &mut Seat<J>, station: u32, who: &Name, found: Option<Found>) -> bool
    requires has_rack { HasRack station seat.old }
    requires gate { HasRack 1 seat.old }
    requires desk { HasRack 2 seat.old }
    ensures gate { HasRack 1 seat.new }
    ensures desk { HasRack 2 seat.new }
{
    seat.look(station, who)
        == Glance {
            front: 10,
            clones: 2,
            found,
        }
}

/// Whether a look at the gate or the desk finds this of the clone.
fn finds<J: Naming>(seat: &mut Seat<J>, station: u32, who: &str, found: Option<Found>) -> bool
    requires gate { HasRack 1 seat.old }
    requires desk { HasRack 2 seat.old }
    ensures gate { HasRack 1 seat.new }
    ensures desk { HasRack 2 seat.new }
{
    let Some(who) = Name::read(who.as_bytes()) else {
        return false;
    };
    if station == GATE {
        finds_at(seat, GATE, &who, found)
    } else {
        finds_at(seat, DESK, &who, found)
    }
}

/// Whether all looks find what the table has.
fn finds_all<J: Naming>(seat: &mut Seat<J>, table: &[(u32, &str, Option<Found>)]) -> bool
    requires gate { HasRack 1 seat.old }
    requires desk { HasRack 2 seat.old }
{
    for i in 0..table.len() {
        let (station, who, found) = table[i];
        if !finds(seat, station, who, found) {
            return false;
        }
    }
    true
}

/// Learns of a publish. Returns whether the seat then finds the two clones at front 10.
fn finds_told<J: Naming>(seat: &mut Seat<J>, told: Told<J>) -> bool
    requires gate { HasRack 1 seat.old }
    requires desk { HasRack 2 seat.old }
{
    seat.learn(told);
    finds_all(seat, &LOOKED_AT_TEN)
}

/// Whether the seat can learn of the last publish, and then finds the two clones at front 10.
fn finds_last<J: Naming, W: Wait + Drop>(stocker: &mut Stocker<J, W>, seat: &mut Seat<J>) -> bool
    requires gate { HasRack 1 seat.old }
    requires desk { HasRack 2 seat.old }
{
    if stocker.stock.spares.len() == 0 {
        return false;
    }
    match stocker.stock.told() {
        Some(told) => finds_told(seat, told),
        None => false,
    }
}

/// Whether a seat that learns of the racks of front 10 finds the two clones there.
fn learns_of_ten<J: Naming, W: Wait + Drop>(
    waits: W,
    alloc: Global,
    opened: NewHistory,
) -> Result<bool, NoMemory>
    requires name { (opened.seen.book ≡ J.book) × (opened.pen.nib.key ≡ J.start) }
{
    let (world, mut stocker, mut seat) = begin_with_two::<J, W>(waits, alloc, opened)?;
    let front = publish_third(alloc, world, &mut stocker)?;
    let right = finds_last(&mut stocker, &mut seat);
    Ok(front == 10 && right)
}

#[test]
fn seat_learns_of_front_10(rt: HostRuntime) {
    let right = learns_of_ten::<Brand, &HostRuntime>(&rt, rt.alloc(), NewHistory::new());
    assert!(rt; right == Ok(true));
}
