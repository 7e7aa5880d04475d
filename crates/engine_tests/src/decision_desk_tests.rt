//! Tests of the desk: concurrent callers, and the order of turns.
ghost use Rattle.std.specs.Prelude.{◌≡◌, ◌<◌, ◌≤◌, ◌+◌, [], All, IfOk, length};
ghost use Rattle.sim_base.specs.Clones.{base};
ghost use Rattle.run_laws.specs.Fronts.{least_of};
ghost use Rattle.stations.specs.Runs.{simulation};
ghost use Rattle.decision_desk.specs.Desks.{desk_id};
ghost use Rattle.decision_desk.specs.Leasts.{leasts_of};
ghost use Rattle.decision_desk.specs.Passes.{new_passes, new_helm};
ghost use Rattle.decision_desk.specs.declared.desk.TheConstants.{MAX_PASSES};
ghost use Rattle.live_study.specs.Driving.{MayTurn};
ghost use Rattle.live_study.specs.Engines.{InStep, IsAhead};

use crew_pool::NoGate;
use decision_book::{Call, Reply};
use decision_desk::{Desk, Helm, Pass, Receipt};
use net_model::{Model, read_model};
use sample_models::ONE_DESK;
use sim_base::{Change, Decision, Name, NoMemory, Param, Steps};
use std::alloc::Global;
use std::marker::Brand;
use std::process::Abort;
use std::sync::atomic::{AtomicU64, Ordering};
use std::sync::ledger::{Blank, Ledger};
use std::sync::{Arc, Wait};
use std::thread;
use std::thread::Threads;
use world_core::World;

fn name<R: Abort>(rt: &R, text: &[u8]) -> Name {
    Name::read(text).expect(rt, "a name")
}

fn fork<R: Abort>(rt: &R, new: &[u8], old: &[u8]) -> Decision {
    Decision::Fork {
        new: name(rt, new),
        old: name(rt, old),
    }
}

fn set_of<R: Abort>(rt: &R, who: &[u8], at: u64) -> Decision {
    Decision::Set {
        who: name(rt, who),
        at,
        station: name(rt, b"desk"),
        change: Change {
            param: Param::Service,
            a: 2,
            b: 2,
        },
    }
}

fn set<R: Abort>(rt: &R, at: u64) -> Decision {
    set_of(rt, b"base", at)
}

/// The first time that is due in a network, unless its horizon is 0.
fn first_due(alloc: Global, model: Arc<Model>) -> Result<Option<u64>, NoMemory>
    ensures least { IfOk result (λ l. l ≡ least_of (simulation model.value) base 0) }
    ensures horizon { IfOk result (λ l. 0 < model.value.horizon) }
{
    let world = World::new(alloc, model)?;
    if world.model().horizon() == 0 {
        return Err(NoMemory);
    }
    Ok(world.least_of(0))
}

/// A desk of this number of analysts over the model of this text, with the first time that is due in its network.
fn begin_desk(
    alloc: Global,
    text: &str,
    analysts: u32,
) -> Result<(Desk, Vec<Pass>, Helm, Option<u64>), NoMemory>
    requires at_least { 1 ≤ analysts }
    requires at_most { analysts ≤ MAX_PASSES }
    ensures passes { IfOk result (λ r. r.1.items ≡ new_passes (desk_id r.0) r.2.net analysts) }
    ensures helm { IfOk result (λ r. r.2 ≡ new_helm (desk_id r.0) r.2.net analysts) }
    ensures least { IfOk result (λ r. r.3 ≡ least_of (simulation r.2.net) base 0) }
    ensures horizon { IfOk result (λ r. 0 < r.2.net.horizon) }
{
    let Ok(model) = read_model(alloc, text.as_bytes()) else {
        return Err(NoMemory);
    };
    let model = Arc::new(alloc, model)?;
    let least = first_due(alloc, Arc::try_clone(&model)?)?;
    let (desk, passes, helm) = Desk::begin(alloc, model, analysts)?;
    Ok((desk, passes, helm, least))
}

/// A desk of one analyst.
fn begin_desk_alone(alloc: Global) -> Result<(Desk, Pass, Helm, Option<u64>), NoMemory>
    ensures pass { IfOk result (λ r. r.1.desk ≡ desk_id r.0) }
    ensures helm { IfOk result (λ r. r.2 ≡ new_helm (desk_id r.0) r.2.net 1) }
    ensures least { IfOk result (λ r. r.3 ≡ least_of (simulation r.2.net) base 0) }
    ensures horizon { IfOk result (λ r. 0 < r.2.net.horizon) }
{
    let (desk, mut passes, helm, least) = begin_desk(alloc, ONE_DESK, 1)?;
    let Some(pass) = passes.pop() else {
        return Err(NoMemory);
    };
    Ok((desk, pass, helm, least))
}

/// The results of calls: the number accepted, whether their entries rise, and the sum of the entries.
#[derive(Clone, Copy)]
struct Outcome {
    accepted: u32,
    rising: bool,
    sum: u64,
}

/// Submits this decision this number of times.
fn ask<R: Wait>(rt: &R, desk: &Desk, pass: &mut Pass, d: &Decision, many: u32) -> Outcome
    requires desk { pass.old.desk ≡ desk_id desk.now }
    ensures desk { pass.new.desk ≡ pass.old.desk }
{
    let mut accepted = 0u32;
    let mut rising = true;
    let mut sum = 0u64;
    let mut next = 0u32;
    for _i in 0..many {
        let receipt = desk.decide(rt, pass, *d);
        if receipt.reply == Reply::Accepted {
            accepted = accepted.saturating_add(1);
        }
        let entry = receipt.entry.unwrap_or(0);
        rising = rising && next <= entry;
        next = entry.saturating_add(1);
        sum = sum.saturating_add(u64::from(entry));
    }
    Outcome {
        accepted,
        rising,
        sum,
    }
}

/// The helm's first turn. Returns the front that it raised.
fn first_turn<R: Wait>(
    rt: &R,
    alloc: Global,
    desk: &Desk,
    helm: &mut Helm,
    least: Option<u64>,
) -> Option<u64>
    requires desk { helm.old.desk ≡ desk_id desk.now }
    requires first { helm.old.helm ≡ [] }
    requires horizon { 0 < helm.old.net.horizon }
    requires least { least ≡ least_of (simulation helm.old.net) base 0 }
{
    let turn = helm.next(rt, alloc, desk, &[least]).ok()?;
    Some(turn.front)
}

/// Whether the desk takes 4,096 calls of this pass, accepts one of them, and replies Full to the next.
fn fills<R: Wait + Abort>(rt: &R, desk: &Desk, pass: &mut Pass) -> bool
    requires desk { pass.old.desk ≡ desk_id desk.now }
{
    let all = ask(rt, desk, pass, &fork(rt, b"x", b"base"), 4096);
    let full = Receipt {
        entry: None,
        reply: Reply::Full,
    };
    all.accepted == 1
        && all.rising
        && all.sum == 2048 * 4095
        && desk.decide(rt, pass, set(rt, 0)) == full
}

/// The same with a new desk.
fn fills_at_last<R: Wait + Abort>(rt: &R, alloc: Global) -> Result<bool, NoMemory> {
    let (desk, mut pass, _helm, _least) = begin_desk_alone(alloc)?;
    Ok(fills(rt, &desk, &mut pass))
}

/// The helm's first turn, concurrent with calls of this pass.
fn turn_beside<R: Threads + Wait + Sync>(
    rt: &R,
    alloc: Global,
    desk: &Desk,
    pass: Pass,
    helm: Helm,
    least: Option<u64>,
    d: &Decision,
) -> (Option<u64>, Pass)
    requires pass { pass.desk ≡ desk_id desk.now }
    requires helm { helm.desk ≡ desk_id desk.now }
    requires first { helm.helm ≡ [] }
    requires horizon { 0 < helm.net.horizon }
    requires least { least ≡ least_of (simulation helm.net) base 0 }
    ensures pass { result.1.desk ≡ desk_id desk.now }
{
    let mut helm = helm;
    let mut pass = pass;
    thread::join(
        rt,
        move || -> Option<u64>
            requires { (helm.desk ≡ desk_id desk.now) × (helm.helm ≡ []) × (0 < helm.net.horizon)
                × (least ≡ least_of (simulation helm.net) base 0) }
        { first_turn(rt, alloc, desk, &mut helm, least) },
        move || -> Pass
            requires { pass.desk ≡ desk_id desk.now }
            ensures { result.desk ≡ desk_id desk.entry.now }
        {
            ask(rt, desk, &mut pass, d, 100);
            pass
        },
    )
}

/// Whether the pass sees front 5: a set at the front is on time, and one just before it is late.
fn is_late_by_a_hair<R: Wait + Abort>(rt: &R, desk: &Desk, pass: &mut Pass) -> bool
    requires desk { pass.old.desk ≡ desk_id desk.now }
{
    let before = desk.is_late(pass, 4);
    let there = desk.is_late(pass, 5);
    let front = desk.front(pass);
    let late = desk.decide(rt, pass, set(rt, 4));
    let timely = desk.decide(rt, pass, set(rt, 5));
    before == Some(5)
        && there.is_none()
        && front == 5
        && late.reply == Reply::Late { front: 5 }
        && timely.reply == Reply::Accepted
}

/// Whether a pass sees a front that another thread raised.
fn is_late_by_another<R: Threads + Wait + Abort + Sync>(
    rt: &R,
    alloc: Global,
) -> Result<bool, NoMemory> {
    let (desk, pass, helm, least) = begin_desk_alone(alloc)?;
    let x = fork(rt, b"x", b"base");
    let (front, mut pass) = turn_beside(rt, alloc, &desk, pass, helm, least, &x);
    Ok(front == Some(5) && is_late_by_a_hair(rt, &desk, &mut pass))
}

/// The receipt of a call that is in the journal.
fn entered(entry: u32, reply: Reply) -> Receipt {
    Receipt {
        entry: Some(entry),
        reply,
    }
}

/// Whether a pass has the receipts of the worked book at front 10, and sees this front.
fn asks_at_ten<R: Wait + Abort>(rt: &R, desk: &Desk, pass: &mut Pass) -> bool
    requires desk { pass.old.desk ≡ desk_id desk.now }
{
    let forked = desk.decide(rt, pass, fork(rt, b"fast", b"base"));
    let timely = desk.decide(rt, pass, set_of(rt, b"fast", 10));
    let late = desk.decide(rt, pass, set_of(rt, b"fast", 9));
    forked == entered(0, Reply::Accepted)
        && timely == entered(1, Reply::Accepted)
        && late == entered(2, Reply::Late { front: 10 })
        && desk.is_late(pass, 9) == Some(10)
        && desk.is_late(pass, 10).is_none()
}

/// Whether the first pass has those receipts, or another pass sees front 10.
fn sees_ten<R: Wait + Abort>(rt: &R, desk: &Desk, pass: &mut Pass, place: usize) -> bool
    requires desk { pass.old.desk ≡ desk_id desk.now }
{
    match place {
        0 => asks_at_ten(rt, desk, pass),
        1 => desk.front(pass) == 10,
        _ => desk.is_late(pass, 9) == Some(10),
    }
}

/// The number of passes for which this holds.
fn count_who_see_ten<R: Threads + Wait + Abort + Sync>(
    rt: &R,
    desk: &Desk,
    passes: &mut Vec<Pass>,
) -> u64
    requires desk { All (λ p. p.desk ≡ desk_id desk.now) passes.old.items }
{
    let count = AtomicU64::new(0);
    thread::for_each_mut(
        rt,
        passes.as_mut_slice(),
        16,
        &|i: usize, pass: &mut Pass|
            requires { pass.old.desk ≡ desk_id desk.now }
        {
            if sees_ten(rt, desk, pass, i) {
                count.fetch_add(1, Ordering::SeqCst);
            }
        },
    );
    count.load(Ordering::SeqCst)
}

/// A desk of this number of analysts over the worked example, with its world.
fn begin_world_with_desk(
    alloc: Global,
    analysts: u32,
) -> Result<(Desk, Vec<Pass>, Helm, World), NoMemory>
    requires at_least { 1 ≤ analysts }
    requires at_most { analysts ≤ MAX_PASSES }
    ensures passes { IfOk result (λ r. r.1.items ≡ new_passes (desk_id r.0) r.2.net analysts) }
    ensures desk { IfOk result (λ r. r.2.desk ≡ desk_id r.0) }
    ensures in_step { IfOk result (λ r. InStep r.2 r.3) }
{
    let Ok(model) = read_model(alloc, ONE_DESK.as_bytes()) else {
        return Err(NoMemory);
    };
    let model = Arc::new(alloc, model)?;
    let world = World::new(alloc, Arc::try_clone(&model)?)?;
    let (desk, passes, helm) = Desk::begin(alloc, model, analysts)?;
    Ok((desk, passes, helm, world))
}

/// The least time that is due in a world of one clone.
fn least_alone(alloc: Global, world: &World) -> Result<Vec<Option<u64>>, NoMemory>
    ensures value { IfOk result (λ v. v.items ≡ leasts_of world.now.net world.now.clones world.now.front) }
{
    if world.lists().len() != 1 {
        return Err(NoMemory);
    }
    let least = world.least_of(0);
    Ok(Vec::from_array(alloc, [least])?)
}

/// A turn of the helm over only the base clone. The world takes what was accepted. Returns the next window's bound.
fn raise_front<R: Wait>(
    rt: &R,
    alloc: Global,
    desk: &Desk,
    helm: &mut Helm,
    world: World,
) -> Result<(World, u64), NoMemory>
    requires may_turn { MayTurn (desk_id desk.now) helm.old world }
    ensures desk { helm.new.desk ≡ helm.old.desk }
    ensures raised { IfOk result (λ r. IsAhead helm.new r.0 r.1) }
{
    let leasts = least_alone(alloc, &world)?;
    let turn = helm.next(rt, alloc, desk, leasts.as_slice())?;
    let world = world.take(alloc, turn.fresh.as_slice())?;
    let _short = world.lists();
    let _valid = world.model().lookahead();
    Ok((world, turn.front))
}

/// A turn of the helm and its window, with the step counter of a blank.
fn take_turn_counted<L: Ledger, R: Wait>(
    rt: &R,
    alloc: Global,
    desk: &Desk,
    helm: &mut Helm,
    world: World,
    blank: Blank,
) -> Result<World, NoMemory>
    requires may_turn { MayTurn (desk_id desk.now) helm.old world }
    requires name { blank.name ≡ L.name }
    requires parts { blank.parts ≡ L.parts }
    requires nonempty { 0 < L.parts }
    ensures desk { helm.new.desk ≡ helm.old.desk }
    ensures in_step { IfOk result (λ w. InStep helm.new w) }
{
    let (world, bound) = raise_front(rt, alloc, desk, helm, world)?;
    let mut steps = Steps::<L>::new(blank);
    match world.window_in_place(alloc, &NoGate, bound, &mut steps) {
        Ok(world) => Ok(world),
        Err(_) => Err(NoMemory),
    }
}

/// This number of turns of the helm, each with its window.
fn take_turns<R: Wait>(
    rt: &R,
    alloc: Global,
    desk: &Desk,
    helm: &mut Helm,
    world: World,
    many: u32,
) -> Result<World, NoMemory>
    requires desk { helm.old.desk ≡ desk_id desk.now }
    requires in_step { InStep helm.old world }
{
    let mut world = world;
    for _ in 0..many {
        if world.front() >= world.model().horizon() {
            return Err(NoMemory);
        }
        world = take_turn_counted::<Brand, R>(rt, alloc, desk, helm, world, Blank::new(1))?;
    }
    Ok(world)
}

/// Whether three passes see front 10, the third of the worked example.
#[tactic(auto, using(decision_desk::proofs::NewPasses::new_passes_desks))]
fn three_see_ten<R: Threads + Wait + Abort + Sync>(
    rt: &R,
    alloc: Global,
) -> Result<bool, NoMemory> {
    let (desk, mut passes, mut helm, world) = begin_world_with_desk(alloc, 3)?;
    let world = take_turns(rt, alloc, &desk, &mut helm, world, 3)?;
    Ok(world.front() == 10 && count_who_see_ten(rt, &desk, &mut passes) == 3)
}

/// All passes submit this decision concurrently, fifty times each.
fn ask_all<R: Threads + Wait + Sync>(rt: &R, desk: &Desk, passes: &mut Vec<Pass>, d: &Decision)
    requires desk { All (λ p. p.desk ≡ desk_id desk.now) passes.old.items }
    ensures count { length passes.new.items ≡ length passes.old.items }
    ensures desk { All (λ p. p.desk ≡ desk_id desk.now) passes.new.items }
{
    thread::for_each_mut(
        rt,
        passes.as_mut_slice(),
        16,
        &|_i: usize, pass: &mut Pass|
            requires { pass.old.desk ≡ desk_id desk.now }
            ensures { pass.exit.now.desk ≡ desk_id desk.entry.now }
        {
            ask(rt, desk, pass, d, 50);
        },
    );
}

/// The number of calls that were accepted.
fn accepted_of(calls: &[Call]) -> u32 {
    let mut accepted = 0u32;
    for call in calls {
        if call.reply == Reply::Accepted {
            accepted = accepted.saturating_add(1);
        }
    }
    accepted
}

/// Whether sixteen callers who fork to one name produce a journal with all their calls, one of them accepted.
#[tactic(auto, using(decision_desk::proofs::NewPasses::new_passes_count, decision_desk::proofs::NewPasses::new_passes_desks))]
fn one_of_sixteen_forks<R: Threads + Wait + Abort + Sync>(
    rt: &R,
    alloc: Global,
) -> Result<bool, NoMemory> {
    let (desk, mut passes, helm, _least) = begin_desk(alloc, ONE_DESK, 16)?;
    ask_all(rt, &desk, &mut passes, &fork(rt, b"x", b"base"));
    let closed = desk.close(passes, helm);
    let calls = closed.book().calls();
    Ok(calls.len() == 800 && accepted_of(calls) == 1)
}

#[test]
fn a_full_desk(rt: HostRuntime) {
    assert!(rt; fills_at_last(&rt, rt.alloc()) == Ok(true));
}

#[test]
fn late_by_another_thread(rt: HostRuntime) {
    assert!(rt; is_late_by_another(&rt, rt.alloc()) == Ok(true));
}

#[test]
fn three_passes_at_ten(rt: HostRuntime) {
    assert!(rt; three_see_ten(&rt, rt.alloc()) == Ok(true));
}

#[test]
fn sixteen_passes(rt: HostRuntime) {
    assert!(rt; one_of_sixteen_forks(&rt, rt.alloc()) == Ok(true));
}
