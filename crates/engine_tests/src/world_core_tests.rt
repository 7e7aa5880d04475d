//! Tests of the world: the two clones of the worked example, window by window, and other windows, crews, forks, looks
//! and ends.
ghost use Rattle.std.specs.Prelude.{◌≡◌, ◌<◌, ◌≤◌, ◌∷◌, [], IfOk, IfSome};
ghost use Rattle.sim_base.specs.Clones.{base};
ghost use Rattle.stations.specs.Runs.{next_front};
ghost use Rattle.decision_book.specs.Journal.{after};
ghost use Rattle.engine_tests.specs.Abreast.{AreAbreast};

use crate::crew_pool_tests::{Held, Notes};
use crew_pool::{Bell, Crew, Member, NoGate, Workers, serve_all};
use decision_book::{Book, Call, Reply};
use net_model::{Model, read_model};
use phys_proc::{Found, Glance};
use sample_models::{BUSY, ONE_DESK};
use sim_base::{Change, Decision, Entry, Figures, Name, Param, Planned, Steps};
use station_steps::WithCrew;
use std::alloc::Global;
use std::marker::Brand;
use std::sync::ledger::{Blank, Ledger};
use std::sync::{Arc, Wait};
use std::thread::Threads;
use std::{mem, thread};
use world_core::{Window, World, WorldFault};

/// A front, and the copies, the messages handled once and those handled alone, at the gate, the desk and the exit.
type Row = (u64, [u64; 3], [u64; 3], [u64; 3]);

/// The figures after each window.
const WINDOWS: [Row; 7] = [
    (5, [1, 1, 2], [1, 0, 0], [1, 0, 0]),
    (7, [1, 2, 4], [1, 1, 2], [1, 0, 0]),
    (10, [1, 2, 4], [2, 6, 7], [1, 0, 0]),
    (13, [1, 2, 4], [2, 7, 8], [1, 1, 2]),
    (15, [1, 2, 4], [2, 8, 9], [2, 2, 3]),
    (17, [1, 2, 4], [2, 8, 9], [2, 3, 4]),
    (20, [1, 2, 4], [2, 8, 9], [2, 3, 4]),
];

/// Time, receiver, sender and number of each message of the two traces.
const BASE: [(u64, u32, u32, u64); 8] = [
    (3, 1, 1, 0),
    (5, 2, 1, 1),
    (6, 1, 1, 2),
    (8, 2, 1, 3),
    (9, 2, 2, 0),
    (11, 3, 2, 1),
    (13, 2, 2, 2),
    (15, 3, 2, 3),
];

const FAST: [(u64, u32, u32, u64); 9] = [
    (3, 1, 1, 0),
    (5, 2, 1, 1),
    (6, 1, 1, 2),
    (8, 2, 0, 0),
    (8, 2, 1, 3),
    (9, 2, 2, 0),
    (11, 3, 2, 1),
    (11, 2, 2, 2),
    (13, 3, 2, 3),
];

/// Reads a model.
fn model_of(alloc: Global, text: &str) -> Option<Arc<Model>> {
    let model = read_model(alloc, text.as_bytes()).ok()?;
    Arc::new(alloc, model).ok()
}

/// The world of a model, before anything is handled.
fn begin_world(alloc: Global, model: &Arc<Model>) -> Option<World>
    ensures net { IfSome result (λ w. w.net ≡ model.now.value) }
    ensures alone { IfSome result (λ w. w.clones ≡ base ∷ []) }
    ensures front { IfSome result (λ w. w.front ≡ 0) }
{
    let model = Arc::try_clone(model).ok()?;
    World::new(alloc, model).ok()
}

/// A new book of a model.
fn begin_book(alloc: Global, model: &Arc<Model>) -> Option<Book>
    ensures net { IfSome result (λ b. b.net ≡ model.now.value) }
    ensures alone { IfSome result (λ b. (after b.net b.events).clones ≡ base ∷ []) }
    ensures front { IfSome result (λ b. (after b.net b.events).front ≡ 0) }
{
    let model = Arc::try_clone(model).ok()?;
    Book::begin(alloc, model).ok()
}

/// The world with one more decision, if the book accepts it.
fn take_decision(alloc: Global, book: &mut Book, world: World, decision: &Decision) -> Option<World>
    requires abreast { AreAbreast book.old world }
    ensures abreast { IfSome result (λ w. AreAbreast book.new w) }
{
    let Reply::Accepted = book.decide(1, *decision) else {
        return None;
    };
    let call = Call {
        caller: 1,
        fronts: 0,
        decision: *decision,
        reply: Reply::Accepted,
    };
    let Ok(world) = world.take(alloc, &[call]) else {
        return None;
    };
    Some(world)
}

/// A fork of the base clone.
pub(crate) fn fork(new: &str) -> Option<Decision> {
    let new = Name::read(new.as_bytes())?;
    let old = Name::read(b"base")?;
    Some(Decision::Fork { new, old })
}

/// From a time on the desk of `fast` serves for 2.
pub(crate) fn faster(at: u64) -> Option<Decision> {
    let who = Name::read(b"fast")?;
    let station = Name::read(b"desk")?;
    let change = Change {
        param: Param::Service,
        a: 2,
        b: 2,
    };
    Some(Decision::Set {
        who,
        at,
        station,
        change,
    })
}

/// The clone `fast` ends.
fn end(at: u64) -> Option<Decision> {
    let who = Name::read(b"fast")?;
    Some(Decision::End { who, at })
}

/// The world of a model's text with these decisions, if a book accepts each of them, before anything is handled.
fn begin_with(alloc: Global, text: &str, decisions: &[Decision]) -> Option<World> {
    let model = model_of(alloc, text)?;
    let mut world = begin_world(alloc, &model)?;
    let mut book = begin_book(alloc, &model)?;
    for i in 0..decisions.len() {
        world = take_decision(alloc, &mut book, world, &decisions[i])?;
    }
    Some(world)
}

/// The two clones of the worked example.
pub(crate) fn two_clones(alloc: Global, text: &str) -> Option<World> {
    begin_with(alloc, text, &[fork("fast")?, faster(8)?])
}

/// A window to the bound, or to the next front if that is less, with the step counter of a blank.
fn window_counted<L: Ledger>(
    alloc: Global,
    world: World,
    bound: u64,
    blank: Blank,
) -> Result<World, WorldFault>
    requires name { blank.name ≡ L.name }
    requires parts { blank.parts ≡ L.parts }
    requires nonempty { 0 < L.parts }
    ensures net { IfOk result (λ w. w.net ≡ world.net) }
{
    let bound = bound.min(world.bound());
    if world.front() >= bound {
        return Ok(world);
    }
    let mut steps = Steps::<L>::new(blank);
    world.window_in_place(alloc, &NoGate, bound, &mut steps)
}

/// The same with a new step counter.
pub(crate) fn window(alloc: Global, world: World, bound: u64) -> Result<World, WorldFault>
    ensures net { IfOk result (λ w. w.net ≡ world.net) }
{
    window_counted::<Brand>(alloc, world, bound, Blank::new(1))
}

/// A window that the crew steps, although it may be small.
fn step_by_crew<L: Ledger, R: Wait>(
    rt: &R,
    alloc: Global,
    crew: &mut Crew<'_, Window, Notes>,
    world: World,
    bound: u64,
    steps: &mut Steps<L>,
) -> Result<World, WorldFault>
    requires above { world.front < bound }
    requires within { bound ≤ next_front world.net world.clones world.front }
{
    let gate = crew.gate();
    let mut stepper = WithCrew::new(rt, mem::replace(crew, Crew::single(gate)));
    let window = world.advance(alloc, &mut stepper, bound, steps);
    *crew = stepper.into_crew();
    window
}

/// A window to the next front, with the step counter of a blank. The crew steps it if it is to be shared, and otherwise
/// if the last window was large.
fn crew_window_counted<L: Ledger, R: Wait>(
    rt: &R,
    alloc: Global,
    crew: &mut Crew<'_, Window, Notes>,
    world: World,
    shared: bool,
    blank: Blank,
) -> Result<World, WorldFault>
    requires name { blank.name ≡ L.name }
    requires parts { blank.parts ≡ L.parts }
    requires nonempty { 0 < L.parts }
{
    let bound = world.bound();
    if world.front() >= bound {
        return Ok(world);
    }
    let mut steps = Steps::<L>::new(blank);
    if shared {
        return step_by_crew(rt, alloc, crew, world, bound, &mut steps);
    }
    world.window(rt, alloc, crew, bound, &mut steps)
}

/// The same with a new step counter.
fn crew_window<R: Wait>(
    rt: &R,
    alloc: Global,
    crew: &mut Crew<'_, Window, Notes>,
    world: World,
    shared: bool,
) -> Result<World, WorldFault> {
    crew_window_counted::<Brand, R>(rt, alloc, crew, world, shared, Blank::new(1))
}

/// Whether the station's figures are these.
fn has_figures(world: &World, station: u32, figures: [u64; 3]) -> bool {
    if station < 1 || station > world.model().len() {
        return false;
    }
    let [copies, handled, alone] = figures;
    world.figures(station)
        == Figures {
            copies,
            handled,
            alone,
        }
}

/// Whether a trace has these messages.
fn are_keys(trace: &[Entry], keys: &[(u64, u32, u32, u64)]) -> bool {
    if trace.len() != keys.len() {
        return false;
    }
    for i in 0..keys.len() {
        if i < trace.len() {
            let msg = trace[i].msg;
            if (msg.key.time, msg.to, msg.key.sender, msg.key.number) != keys[i] {
                return false;
            }
        }
    }
    true
}

/// Whether the clone's trace has these messages.
fn has_trace(alloc: Global, world: &World, who: u32, keys: &[(u64, u32, u32, u64)]) -> bool {
    if who >= world.lists().len() {
        return false;
    }
    match world.trace(alloc, who) {
        Ok(trace) => are_keys(trace.as_slice(), keys),
        Err(_) => false,
    }
}

/// Whether the two clones have these traces.
fn has_traces(
    alloc: Global,
    world: &World,
    base: &[(u64, u32, u32, u64)],
    fast: &[(u64, u32, u32, u64)],
) -> bool {
    has_trace(alloc, world, 0, base) && has_trace(alloc, world, 1, fast)
}

/// Whether a look at the station's rack finds this of the clone.
fn has_glance(
    alloc: Global,
    world: &mut World,
    station: u32,
    who: &str,
    found: Option<Found>,
) -> bool {
    if station < 1 || station > world.model().len() {
        return false;
    }
    let Some(who) = Name::read(who.as_bytes()) else {
        return false;
    };
    let Ok(rack) = world.rack(alloc, station) else {
        return false;
    };
    rack.station() == station
        && rack.glance(&who)
            == Glance {
                front: world.front(),
                clones: world.lists().len(),
                found,
            }
}

/// Whether the world is at the row's front, with its figures.
fn has_row(world: &World, row: Row) -> bool {
    let (front, at_gate, at_desk, at_exit) = row;
    world.front() == front
        && has_figures(world, 1, at_gate)
        && has_figures(world, 2, at_desk)
        && has_figures(world, 3, at_exit)
}

/// The world after a window of a crew, if it has the row's figures.
fn come_to_row<R: Wait>(
    rt: &R,
    alloc: Global,
    crew: &mut Crew<'_, Window, Notes>,
    world: World,
    row: Row,
) -> Option<World> {
    let world = crew_window(rt, alloc, crew, world, true).ok()?;
    if has_row(&world, row) {
        Some(world)
    } else {
        None
    }
}

/// Whether the crew's windows of the two clones have the figures of the table, and the run has the two traces.
fn has_rows<R: Wait>(rt: &R, alloc: Global, crew: &mut Crew<'_, Window, Notes>) -> Option<bool> {
    let mut world = two_clones(alloc, ONE_DESK)?;
    for i in 0..WINDOWS.len() {
        world = come_to_row(rt, alloc, crew, world, WINDOWS[i])?;
    }
    Some(has_traces(alloc, &world, &BASE, &FAST))
}

/// The world of a busy model of 36,000 jobs, before anything is handled.
fn busy(alloc: Global) -> Option<World> {
    let text = BUSY.replacen(alloc, "27000", "36000", 2).ok()?;
    let model = model_of(alloc, &text)?;
    begin_world(alloc, &model)
}

/// Whether three windows of a crew have these figures. The first is small, since no window came before it.
fn has_busy_windows<R: Wait>(
    rt: &R,
    alloc: Global,
    crew: &mut Crew<'_, Window, Notes>,
) -> Option<bool> {
    let mut world = busy(alloc)?;
    for _ in 0..3 {
        world = crew_window(rt, alloc, crew, world, false).ok()?;
    }
    Some(
        world.front() == 27001
            && has_figures(&world, 1, [1, 27000, 27000])
            && has_figures(&world, 2, [1, 18000, 18000])
            && world.wants_crew(),
    )
}

/// A study for a crew.
#[derive(Clone, Copy)]
enum Study {
    /// The two clones of the worked example.
    Worked,
    /// A busy model.
    Busy,
}

/// Whether the study's windows are right. Then the bell dismisses the members, whatever the result.
fn lead<R: Wait>(
    rt: &R,
    alloc: Global,
    crew: Crew<'_, Window, Notes>,
    study: Study,
    bell: &Bell,
) -> Option<bool> {
    let mut crew = crew;
    let right = match study {
        Study::Worked => has_rows(rt, alloc, &mut crew),
        Study::Busy => has_busy_windows(rt, alloc, &mut crew),
    };
    bell.end();
    right
}

/// The same, while these members serve concurrently.
fn lead_beside<R: Threads + Wait + Sync>(
    rt: &R,
    alloc: Global,
    crew: Crew<'_, Window, Notes>,
    members: Vec<Member<'_, Window, Notes>>,
    study: Study,
    bell: &Bell,
) -> Option<bool> {
    let (_, right) = thread::join(
        rt,
        move || serve_all(rt, alloc, bell, members),
        move || lead(rt, alloc, crew, study, bell),
    );
    right
}

/// The same by a crew of this number of workers.
fn lead_crew<R: Threads + Wait + Sync>(
    rt: &R,
    alloc: Global,
    gate: &Notes,
    workers: Workers,
    study: Study,
) -> Option<bool> {
    let (crew, members) = Crew::begin(alloc, gate, workers).ok()?;
    let bell = crew.bell().ok()?;
    lead_beside(rt, alloc, crew, members, study, &bell)
}

/// Twenty windows, each at most this long.
fn run_all(alloc: Global, world: World, length: u64) -> Option<World> {
    let mut world = world;
    for _ in 0..20 {
        let bound = world.front().saturating_add(length);
        world = window(alloc, world, bound).ok()?;
    }
    Some(world)
}

/// The world of a model's text with these decisions, at the horizon.
pub(crate) fn run_of(alloc: Global, text: &str, decisions: &[Decision]) -> Option<World> {
    let world = begin_with(alloc, text, decisions)?;
    run_all(alloc, world, 20)
}

/// Whether `fast` has its own copy at the desk, with five entries, the last at 11. At the gate both clones share the
/// copy.
fn has_own_desk(world: &World) -> bool {
    if world.lists().len() != 2 || world.model().len() != 3 || world.log_len(1, 2) != 5 {
        return false;
    }
    world.entry(1, 2, 4).msg.key.time == 11
        && world.first_with(1, 2) == 1
        && world.first_with(1, 1) == 0
}

/// Whether short windows lead to the same traces and figures.
fn short_windows_are(alloc: Global) -> Option<bool> {
    let world = two_clones(alloc, ONE_DESK)?;
    let world = run_all(alloc, world, 1)?;
    Some(
        has_row(&world, WINDOWS[6])
            && has_traces(alloc, &world, &BASE, &FAST)
            && has_own_desk(&world),
    )
}

/// Forks from the base clone, up to this number of clones.
fn forks(alloc: Global, clones: u32) -> Option<Vec<Decision>> {
    let old = Name::read(b"base")?;
    let mut forks = Vec::new(alloc);
    for c in 1..clones {
        let digits = [
            b'c',
            b'0' + (c / 100 % 10) as u8,
            b'0' + (c / 10 % 10) as u8,
            b'0' + (c % 10) as u8,
        ];
        let new = Name::read(&digits)?;
        forks.push(Decision::Fork { new, old }).ok()?;
    }
    Some(forks)
}

/// Whether 256 clones share everything, and the last one has its trace.
fn share_all(alloc: Global, world: &World) -> bool {
    has_figures(world, 1, [1, 2, 512])
        && has_figures(world, 2, [1, 4, 1024])
        && has_figures(world, 3, [1, 2, 512])
        && has_trace(alloc, world, 255, &BASE)
}

/// Whether 256 identical clones share every message.
fn all_is_shared(alloc: Global) -> Option<bool> {
    let forks = forks(alloc, 256)?;
    let world = run_of(alloc, ONE_DESK, forks.as_slice())?;
    Some(share_all(alloc, &world))
}

/// Whether a clone that ends at 13 handles nothing from then on.
fn ended_clone_rests(alloc: Global) -> Option<bool> {
    let decisions = [fork("fast")?, faster(8)?, end(13)?];
    let world = run_of(alloc, ONE_DESK, &decisions)?;
    Some(has_traces(alloc, &world, &BASE, &FAST[..8]) && has_figures(&world, 3, [2, 2, 3]))
}

/// Station, clone, and what a look at the station's rack finds of it, when two of three clones have the same decisions.
const LOOKED: [(u32, &str, Option<Found>); 5] = [
    (
        1,
        "fast",
        Some(Found {
            handled: 2,
            shared: 3,
        }),
    ),
    (
        2,
        "base",
        Some(Found {
            handled: 4,
            shared: 2,
        }),
    ),
    (
        2,
        "fast",
        Some(Found {
            handled: 5,
            shared: 1,
        }),
    ),
    (
        2,
        "like_base",
        Some(Found {
            handled: 4,
            shared: 2,
        }),
    ),
    (2, "slow", None),
];

/// What looks at the two clones find at 10.
pub(crate) const LOOKED_AT_TEN: [(u32, &str, Option<Found>); 4] = [
    (
        2,
        "fast",
        Some(Found {
            handled: 4,
            shared: 1,
        }),
    ),
    (
        2,
        "base",
        Some(Found {
            handled: 3,
            shared: 1,
        }),
    ),
    (2, "ghost", None),
    (
        1,
        "base",
        Some(Found {
            handled: 2,
            shared: 2,
        }),
    ),
];

/// Whether all looks find what the table has.
fn has_glances(alloc: Global, world: &mut World, table: &[(u32, &str, Option<Found>)]) -> bool {
    for i in 0..table.len() {
        let (station, who, found) = table[i];
        if !has_glance(alloc, world, station, who, found) {
            return false;
        }
    }
    true
}

/// Whether looks find the three clones and no fourth, with the number of messages handled and of clones that share the
/// log.
fn looks_find_three(alloc: Global) -> Option<bool> {
    let decisions = [fork("fast")?, fork("like_base")?, faster(8)?];
    let mut world = run_of(alloc, ONE_DESK, &decisions)?;
    Some(has_glances(alloc, &mut world, &LOOKED))
}

/// Whether looks at 10 find the two clones and no third.
fn looks_find_two_at_ten(alloc: Global) -> Option<bool> {
    let mut world = two_clones(alloc, ONE_DESK)?;
    for _ in 0..3 {
        world = window(alloc, world, 20).ok()?;
    }
    Some(world.front() == 10 && has_glances(alloc, &mut world, &LOOKED_AT_TEN))
}

/// The world with `fast`, forked from `base` and served faster from its front on.
fn fork_now(alloc: Global, world: World) -> Option<World> {
    let new = Name::read(b"fast")?;
    let lists = world.lists();
    if lists.len() != 1 || lists.find(&new).is_some() || lists.end_of(0).is_some() {
        return None;
    }
    let world = world.with_fork(alloc, new, 0).ok()?;
    let plan = Planned {
        at: world.front(),
        station: 2,
        change: Change {
            param: Param::Service,
            a: 2,
            b: 2,
        },
    };
    if world.lists().len() != 2 || world.model().len() < plan.station {
        return None;
    }
    world.with_set(1, plan).ok()
}

/// Whether after such a fork at 10 the next front is 12, and what the desks have handled there.
fn forks_late(alloc: Global) -> Option<bool> {
    let model = model_of(alloc, ONE_DESK)?;
    let mut world = begin_world(alloc, &model)?;
    for _ in 0..3 {
        world = window(alloc, world, 20).ok()?;
    }
    let at = world.front();
    let world = fork_now(alloc, world)?;
    let world = window(alloc, world, 20).ok()?;
    Some(at == 10 && world.front() == 12 && has_figures(&world, 2, [2, 4, 7]))
}

/// The two clones at 7, when a station may handle three messages.
fn limited_clones(alloc: Global) -> Option<World> {
    let text = ONE_DESK
        .replacen(alloc, "horizon = 20", "horizon = 20\nlimit = 3", 1)
        .ok()?;
    let mut world = two_clones(alloc, &text)?;
    for _ in 0..2 {
        world = window(alloc, world, 20).ok()?;
    }
    Some(world)
}

/// Whether `fast` then exceeds the limit at the desk, in the window to 10.
fn limit_is_met(alloc: Global) -> Option<bool> {
    let world = limited_clones(alloc)?;
    match window(alloc, world, 20) {
        Err(WorldFault::EventLimit { station, who, kept }) => Some(
            station == 2 && who == 1 && kept == 3,
        ),
        _ => Some(false),
    }
}

/// The crew steps each window. The gate is called for each of three stations in each of seven windows.
#[test]
fn worked_example_by_any_number_of_workers(rt: HostRuntime) {
    for count in 1..=16 {
        let gate = Notes::new(Held::Nothing);
        let right = lead_crew(&rt, rt.alloc(), &gate, Workers { count }, Study::Worked);
        assert!(rt; right == Some(true) && gate.begun() == 21, "{}", count);
    }
}

/// The caller is held at its first task of the second window until the member has begun one.
#[test]
fn busy_windows_run_by_a_crew(rt: HostRuntime) {
    let gate = Notes::new(Held::Caller { except: 2 });
    let right = lead_crew(&rt, rt.alloc(), &gate, Workers { count: 2 }, Study::Busy);
    assert!(rt; right == Some(true) && gate.have_begun(0b11));
}

#[test]
fn clones_that_are_alike(rt: HostRuntime) {
    assert!(rt; all_is_shared(rt.alloc()) == Some(true));
}

#[test]
fn looks_at_clones(rt: HostRuntime) {
    assert!(rt; looks_find_two_at_ten(rt.alloc()) == Some(true));
    assert!(rt; looks_find_three(rt.alloc()) == Some(true));
}

#[test]
fn other_cuttings_and_ends(rt: HostRuntime) {
    assert!(rt; short_windows_are(rt.alloc()) == Some(true));
    assert!(rt; ended_clone_rests(rt.alloc()) == Some(true));
}

#[test]
fn fork_in_the_middle(rt: HostRuntime) {
    assert!(rt; forks_late(rt.alloc()) == Some(true));
}

#[test]
fn limit_names_least_station_and_clone(rt: HostRuntime) {
    assert!(rt; limit_is_met(rt.alloc()) == Some(true));
}
