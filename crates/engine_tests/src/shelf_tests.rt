//! Tests of a run that publishes the gate's rack after each window, with concurrent readers.
ghost use Rattle.std.specs.Prelude.{◌≡◌, ◌<◌, ◌≤◌, length, false, All, IfOk, IfSome};
ghost use Rattle.net_model.specs.declared.limits.TheConstants.{MAX_STATIONS};
ghost use Rattle.shelf.specs.Racks.{HasRack, MayOpen};
ghost use Rattle.engine_tests.specs.Seen.{AreSeenUpTo};

use crate::world_core_tests::window;
use net_model::read_model;
use phys_proc::Rack;
use shelf::{Naming, NewHistory, Seat, Stocker, Told, begin};
use sim_base::{Name, NoMemory};
use std::alloc::Global;
use std::marker::Brand;
use std::process::Abort;
use std::sync::{Arc, Wait};
use std::thread;
use std::thread::Threads;
use world_core::World;

/// A source and a sink, in ten thousand windows.
const MANY_WINDOWS: &str = r#"lookahead = 1
horizon = 10010
limit = 65536
[[station]]
name = "gate"
kind = "source"
every = [1, 1]
jobs = 10000
link = [{ to = "out", delay = 1 }]
[[station]]
name = "out"
kind = "sink"
"#;

const HORIZON: u64 = 10010;

const GATE: u32 = 1;

/// The maximum number of looks of a reader that waits for the end of the run.
const MAX_LOOKS: u32 = 2_000_000;

/// A world before anything is handled.
fn first(alloc: Global) -> Result<World, NoMemory>
    ensures gate { IfOk result (λ w. 1 ≤ length w.net.sites) }
{
    let Ok(model) = read_model(alloc, MANY_WINDOWS.as_bytes()) else {
        return Err(NoMemory);
    };
    let world = World::new(alloc, Arc::new(alloc, model)?)?;
    if world.model().len() < GATE {
        return Err(NoMemory);
    }
    Ok(world)
}

/// The same world, and the gate's rack.
fn opening(alloc: Global) -> Result<(World, Vec<Rack>), NoMemory>
    ensures opening { IfOk result (λ p. MayOpen p.1.items) }
    ensures at_most { IfOk result (λ p. length p.1.items ≤ MAX_STATIONS) }
    ensures seen { IfOk result (λ p. AreSeenUpTo p.0.net p.0.front p.1.items) }
    ensures has_rack { IfOk result (λ p. HasRack 1 p.1.items) }
{
    let mut world = first(alloc)?;
    let gate = world.rack(alloc, GATE)?;
    let racks = Vec::from_array(alloc, [gate])?;
    Ok((world, racks))
}

/// The shelf of a new run, with two seats.
fn begin_shelf<J: Naming, W: Wait + Drop>(
    waits: W,
    alloc: Global,
    opened: NewHistory,
) -> Result<(World, Stocker<J, W>, Vec<Seat<J>>), NoMemory>
    requires name { (opened.seen.book ≡ J.book) × (opened.pen.nib.key ≡ J.start) }
    ensures seen { IfOk result (λ r. AreSeenUpTo r.0.net r.0.front r.1.stock.published) }
    ensures has_rack { IfOk result (λ r. HasRack 1 r.1.stock.published) }
    ensures quiet { IfOk result (λ r. r.1.stock.has_published ≡ false) }
    ensures seats { IfOk result (λ r. All (λ s. HasRack 1 s) r.2.items) }
{
    let (world, racks) = opening(alloc)?;
    let (stocker, seats) = begin::<J, W>(waits, alloc, opened, racks, 2)?;
    Ok((world, stocker, seats))
}

/// Takes a seat.
fn take_seat<J: Naming>(seats: &mut Vec<Seat<J>>) -> Result<Seat<J>, NoMemory>
    requires has_rack { All (λ s. HasRack 1 s) seats.old.items }
    ensures has_rack { All (λ s. HasRack 1 s) seats.new.items }
    ensures seat { IfOk result (λ s. HasRack 1 s) }
{
    let Some(seat) = seats.pop() else {
        return Err(NoMemory);
    };
    Ok(seat)
}

/// Two seats, removed from the list.
fn two_of<J: Naming>(seats: Vec<Seat<J>>) -> Result<(Seat<J>, Seat<J>), NoMemory>
    requires has_rack { All (λ s. HasRack 1 s) seats.items }
    ensures one { IfOk result (λ p. HasRack 1 p.0) }
    ensures two { IfOk result (λ p. HasRack 1 p.1) }
{
    let mut seats = seats;
    let one = take_seat(&mut seats)?;
    let two = take_seat(&mut seats)?;
    Ok((one, two))
}

/// A window, and a rack of the gate after it.
fn step_window(alloc: Global, world: World) -> Option<(World, Rack)>
    ensures net { IfSome result (λ p. (p.0.net ≡ world.net) × (p.1.net ≡ world.net)) }
    ensures later { IfSome result (λ p. (world.front < p.1.front) × (p.0.front ≡ p.1.front)) }
    ensures within { IfSome result (λ p. p.1.front ≤ p.1.net.horizon) }
    ensures gate { IfSome result (λ p. p.1.station ≡ 1) }
{
    let before = world.front();
    let Ok(mut world) = window(alloc, world, HORIZON) else {
        return None;
    };
    if world.front() <= before || world.model().len() < GATE {
        return None;
    }
    match world.rack(alloc, GATE) {
        Ok(rack) => Some((world, rack)),
        Err(_) => None,
    }
}

/// A window; the gate's rack is published after it.
#[tactic(auto, using(crate::proofs::Seen::seen_follows, crate::proofs::Seen::seen_with))]
fn publish_window<J: Naming, W: Wait + Drop>(
    alloc: Global,
    world: World,
    stocker: &mut Stocker<J, W>,
) -> Result<World, NoMemory>
    requires seen { AreSeenUpTo world.net world.front stocker.old.stock.published }
    requires has_rack { HasRack 1 stocker.old.stock.published }
    ensures seen { IfOk result (λ w. AreSeenUpTo w.net w.front stocker.new.stock.published) }
    ensures has_rack { IfOk result (λ w. HasRack 1 stocker.new.stock.published) }
{
    let Some((world, rack)) = step_window(alloc, world) else {
        return Err(NoMemory);
    };
    stocker.publish(alloc, rack)?;
    Ok(world)
}

/// All windows up to the horizon, each published.
fn publish_all<J: Naming, W: Wait + Drop>(
    alloc: Global,
    world: World,
    stocker: &mut Stocker<J, W>,
) -> Result<(), NoMemory>
    requires seen { AreSeenUpTo world.net world.front stocker.old.stock.published }
    requires has_rack { HasRack 1 stocker.old.stock.published }
{
    let mut world = world;
    for _ in 0..HORIZON {
        if world.front() == HORIZON {
            break;
        }
        world = publish_window(alloc, world, stocker)?;
    }
    Ok(())
}

/// Looks at the gate. Returns the front.
fn look_once<J: Naming>(seat: &mut Seat<J>, who: &Name) -> u64
    requires has_rack { HasRack 1 seat.old }
    ensures has_rack { HasRack 1 seat.new }
{
    seat.look(GATE, who).front
}

/// Learns of a publish, and looks.
fn look_told<J: Naming>(seat: &mut Seat<J>, told: Told<J>, who: &Name) -> u64
    requires has_rack { HasRack 1 seat.old }
    ensures has_rack { HasRack 1 seat.new }
{
    seat.learn(told);
    look_once(seat, who)
}

/// A reader, and whether no front that it saw was less than the one before.
#[derive(Drop)]
struct Reader<J: Naming> {
    seat: Seat<J>,
    rises: bool,
}

/// Looks at the gate until the run is at its end.
fn look_often<J: Naming>(seat: Seat<J>, who: &Name) -> Reader<J>
    requires has_rack { HasRack 1 seat }
    ensures has_rack { HasRack 1 result.seat }
{
    let mut seat = seat;
    let mut rises = true;
    let mut last = 0;
    for _ in 0..MAX_LOOKS {
        let front = look_once(&mut seat, who);
        rises = rises && last <= front;
        last = front;
        if front == HORIZON {
            break;
        }
        thread::yield_now();
    }
    Reader { seat, rises }
}

/// Two concurrent readers.
fn look_both<J: Naming + Send + Sync, R: Threads + Wait + Sync>(
    rt: &R,
    one: Seat<J>,
    two: Seat<J>,
    who: &Name,
) -> (Reader<J>, Reader<J>)
    requires one { HasRack 1 one }
    requires two { HasRack 1 two }
    ensures one { HasRack 1 result.0.seat }
    ensures two { HasRack 1 result.1.seat }
{
    thread::join(
        rt,
        move || -> Reader<J>
            requires { HasRack 1 one }
            ensures { HasRack 1 result.seat }
        { look_often(one, who) },
        move || -> Reader<J>
            requires { HasRack 1 two }
            ensures { HasRack 1 result.seat }
        { look_often(two, who) },
    )
}

/// The run, concurrent with two readers.
fn run_beside<J: Naming + Send + Sync, W: Wait + Drop + Send, R: Threads + Wait + Sync>(
    rt: &R,
    alloc: Global,
    world: World,
    stocker: Stocker<J, W>,
    one: Seat<J>,
    two: Seat<J>,
    who: &Name,
) -> (Stocker<J, W>, (Reader<J>, Reader<J>))
    requires seen { AreSeenUpTo world.net world.front stocker.stock.published }
    requires has_rack { HasRack 1 stocker.stock.published }
    requires one { HasRack 1 one }
    requires two { HasRack 1 two }
    ensures one { HasRack 1 result.1.0.seat }
    ensures two { HasRack 1 result.1.1.seat }
{
    let mut stocker = stocker;
    thread::join(
        rt,
        move || -> Stocker<J, W>
            requires { AreSeenUpTo world.net world.front stocker.stock.published × HasRack 1 stocker.stock.published }
        {
            // a run that ends early has published too few
            let _ = publish_all(alloc, world, &mut stocker);
            stocker
        },
        move || -> (Reader<J>, Reader<J>)
            requires { HasRack 1 one × HasRack 1 two }
            ensures { HasRack 1 result.0.seat × HasRack 1 result.1.seat }
        { look_both(rt, one, two, who) },
    )
}

/// Whether the reader can learn of the last publish, and then sees its front.
fn sees_told<J: Naming, W: Wait + Drop>(
    stocker: &mut Stocker<J, W>,
    seat: &mut Seat<J>,
    who: &Name,
    front: u64,
) -> bool
    requires has_rack { HasRack 1 seat.old }
    ensures published { stocker.new.stock.published ≡ stocker.old.stock.published }
{
    if stocker.stock.spares.len() == 0 {
        return false;
    }
    match stocker.stock.told() {
        Some(told) => look_told(seat, told, who) == front,
        None => false,
    }
}

/// Whether each of the two readers can learn of one publish only. Both are dropped afterwards.
fn tells_each<J: Naming, W: Wait + Drop>(
    stocker: &mut Stocker<J, W>,
    one: Seat<J>,
    two: Seat<J>,
    who: &Name,
    front: u64,
) -> bool
    requires one { HasRack 1 one }
    requires two { HasRack 1 two }
    ensures published { stocker.new.stock.published ≡ stocker.old.stock.published }
{
    let mut one = one;
    let mut two = two;
    let first = sees_told(stocker, &mut one, who, front);
    let second = sees_told(stocker, &mut two, who, front);
    first && second && stocker.stock.spares.is_empty()
}

/// Whether all windows were published, and the two concurrent readers saw what they should.
fn saw_all<J: Naming, W: Wait + Drop>(
    stocker: Stocker<J, W>,
    one: Reader<J>,
    two: Reader<J>,
    who: &Name,
) -> bool
    requires one { HasRack 1 one.seat }
    requires two { HasRack 1 two.seat }
{
    let mut stocker = stocker;
    let rise = one.rises && two.rises;
    let told = tells_each(&mut stocker, one.seat, two.seat, who, HORIZON);
    rise && told && stocker.stock.published.len() >= 10_000
}

/// Whether two readers concurrent with a run saw what they should.
fn beside<J: Naming + Send + Sync, W: Wait + Drop + Send, R: Threads + Wait + Sync>(
    rt: &R,
    waits: W,
    alloc: Global,
    opened: NewHistory,
    who: &Name,
) -> Result<bool, NoMemory>
    requires name { (opened.seen.book ≡ J.book) × (opened.pen.nib.key ≡ J.start) }
{
    let (world, stocker, seats) = begin_shelf::<J, W>(waits, alloc, opened)?;
    let (one, two) = two_of(seats)?;
    let (stocker, (one, two)) = run_beside(rt, alloc, world, stocker, one, two, who);
    Ok(saw_all(stocker, one, two, who))
}

/// Whether nothing is announced before any publish, and a look then returns the opening rack. Then whether a look after
/// a publish returns the published rack, and each seat can learn of it once. Last, whether the stocker continues when
/// its readers are dropped.
fn looks_are_right<J: Naming, W: Wait + Drop>(
    alloc: Global,
    world: World,
    stocker: Stocker<J, W>,
    one: Seat<J>,
    two: Seat<J>,
    who: &Name,
) -> Result<bool, NoMemory>
    requires seen { AreSeenUpTo world.net world.front stocker.stock.published }
    requires has_rack { HasRack 1 stocker.stock.published }
    requires quiet { stocker.stock.has_published ≡ false }
    requires one { HasRack 1 one }
    requires two { HasRack 1 two }
{
    let mut stocker = stocker;
    let mut one = one;
    let mut two = two;
    let quiet = stocker.stock.told().is_none();
    let opens = look_once(&mut one, who) == 0;
    let world = publish_window(alloc, world, &mut stocker)?;
    let front = world.front();
    let shown = look_once(&mut two, who) == front;
    let told = tells_each(&mut stocker, one, two, who, front);
    let goes_on = publish_window(alloc, world, &mut stocker).is_ok();
    Ok(quiet && opens && 0 < front && shown && told && goes_on)
}

/// The same for a new run.
fn one_by_one<J: Naming, W: Wait + Drop>(
    waits: W,
    alloc: Global,
    opened: NewHistory,
    who: &Name,
) -> Result<bool, NoMemory>
    requires name { (opened.seen.book ≡ J.book) × (opened.pen.nib.key ≡ J.start) }
{
    let (world, stocker, seats) = begin_shelf::<J, W>(waits, alloc, opened)?;
    let (one, two) = two_of(seats)?;
    looks_are_right(alloc, world, stocker, one, two, who)
}

/// The base clone's name, which every model has.
fn base<R: Abort>(rt: &R) -> Name {
    Name::read(b"base").expect(rt, "a name")
}

#[test]
fn readers_beside_a_run(rt: HostRuntime) {
    let who = base(&rt);
    let saw = beside::<Brand, &HostRuntime, HostRuntime>(
        &rt,
        &rt,
        rt.alloc(),
        NewHistory::new(),
        &who,
    );
    assert!(rt; saw == Ok(true));
}

#[test]
fn looks_one_by_one(rt: HostRuntime) {
    let who = base(&rt);
    let saw = one_by_one::<Brand, &HostRuntime>(&rt, rt.alloc(), NewHistory::new(), &who);
    assert!(rt; saw == Ok(true));
}
