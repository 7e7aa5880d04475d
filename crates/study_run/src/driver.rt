//! The driver of all modes: advances a run step by step to its end, in the caller's thread or by a crew.
ghost use Rattle.std.specs.Prelude.{◌≡◌, Some, false, IfOk, IfSome};
ghost use Rattle.study_run.specs.Onwards.{GoesOn, HasComeTo, run_state};

use crate::crew::{NewCrew, begin_crew};
use crate::fault::StudyFault;
use crate::onwards::Onwards;
use crew_pool::{Bell, Crew, Gate, Member, Workers, serve_all};
use sim_base::Steps;
use station_steps::{Alone, Stepper, Window, WithCrew};
use std::alloc::Global;
use std::sync::Wait;
use std::sync::ledger::Ledger;
use std::thread::{Threads, join_mut};

// Steps until the run is at its end or, on request, only until a crew pays off.
fn go<W: Drop, A: Onwards<W>, E: Stepper, L: Ledger>(
    alloc: Global,
    mode: &mut A,
    stepper: &mut E,
    world: W,
    until_large: bool,
    steps: &mut Steps<L>,
) -> Result<W, StudyFault>
    requires come { HasComeTo A.has_gone_on (run_state mode.old world steps.old) }
    ensures goes { GoesOn A.has_gone_on A.has_stopped (run_state mode.old world steps.old) mode.new steps.new result }
    ensures done { IfOk result (λ w. until_large ≡ false → A.done mode.new w) }
{
    let mut world = world;
    'step: while !mode.is_done(&world) {
        if until_large && mode.wants_crew(&world, stepper.was_large()) {
            return Ok(world);
        }
        world = match mode.advance(alloc, stepper, world, steps) {
            Ok(world) => world,
            Err(fault) => return Err(fault),
        };
    }
    Ok(world)
}

/// Runs to the end in the caller's thread, which calls the gate before each station in each step. It waits for nobody,
/// unless the mode or the gate does.
///
/// # Errors
///
/// The world is dropped if out of memory, or if the limit is met.
pub fn go_alone<W: Drop, A: Onwards<W>, G: Gate, L: Ledger>(
    alloc: Global,
    gate: &G,
    mode: &mut A,
    world: W,
    steps: &mut Steps<L>,
) -> Result<W, StudyFault>
    requires come { HasComeTo A.has_gone_on (run_state mode.old world steps.old) }
    ensures goes { GoesOn A.has_gone_on A.has_stopped (run_state mode.old world steps.old) mode.new steps.new result }
    ensures done { IfOk result (λ w. A.done mode.new w) }
{
    let mut stepper = Alone::new(gate);
    go(alloc, mode, &mut stepper, world, false, steps)
}

// Steps by the given crew until the run is at its end, and then tells the members that there are no more steps.
fn finish_beside<W: Drop, A: Onwards<W>, G: Gate, L: Ledger, R: Wait>(
    rt: &R,
    alloc: Global,
    crew: &mut Option<Crew<'_, Window, G>>,
    given: &mut Option<W>,
    bell: &Bell,
    mode: &mut A,
    steps: &mut Steps<L>,
) -> Result<W, StudyFault>
    requires has_crew { crew.old ≡ Some tt }
    requires is_given { (w : W) × ((given.old ≡ Some w) × HasComeTo A.has_gone_on (run_state mode.old w steps.old)) }
    ensures goes { IfSome given.old (λ w. GoesOn A.has_gone_on A.has_stopped (run_state mode.old w steps.old)
        mode.new steps.new result) }
    ensures done { IfOk result (λ w. A.done mode.new w) }
{
    let Some(crew) = crew.take() else {
        unreachable!()
    };
    let Some(world) = given.take() else {
        unreachable!()
    };
    let mut stepper = WithCrew::new(rt, crew);
    let done = go(alloc, mode, &mut stepper, world, false, steps);
    bell.end();
    done
}

// Runs the members' part, unless it has run already.
fn serve_members<G: Gate + Sync, R: Threads + Wait + Sync>(
    rt: &R,
    alloc: Global,
    bell: &Bell,
    members: &mut Option<Vec<Member<'_, Window, G>>>,
) {
    if let Some(members) = members.take() {
        serve_all(rt, alloc, bell, members);
    }
}

// Runs to the end, concurrently with the members of a crew. All threads are joined.
fn go_beside<W: Drop, A: Onwards<W>, G: Gate + Sync, L: Ledger, R: Threads + Wait + Sync>(
    rt: &R,
    alloc: Global,
    crew: Crew<'_, Window, G>,
    members: Vec<Member<'_, Window, G>>,
    bell: &Bell,
    mode: &mut A,
    world: W,
    steps: &mut Steps<L>,
) -> Result<W, StudyFault>
    requires come { HasComeTo A.has_gone_on (run_state mode.old world steps.old) }
    ensures goes { GoesOn A.has_gone_on A.has_stopped (run_state mode.old world steps.old) mode.new steps.new result }
    ensures done { IfOk result (λ w. A.done mode.new w) }
{
    let mut members = Some(members);
    let mut crew = Some(crew);
    let mut given = Some(world);
    let mut help = || serve_members(rt, alloc, bell, &mut members);
    let mut lead = || -> Result<W, StudyFault>
        requires has_crew { crew ≡ Some tt }
        requires is_given { (w : W) × ((given ≡ Some w) × HasComeTo A.has_gone_on (run_state mode.now w steps.now)) }
        ensures goes { IfSome given.entry (λ w. GoesOn A.has_gone_on A.has_stopped
            (run_state mode.entry.now w steps.entry.now) mode.exit.now steps.exit.now result) }
        ensures done { IfOk result (λ w. A.done mode.exit.now w) }
    { finish_beside(rt, alloc, &mut crew, &mut given, bell, mode, steps) };
    let (_, done) = join_mut(rt, &mut help, &mut lead);
    done
}

// Runs to the end with a crew, or in the caller's thread if there is no memory for one.
fn go_with_crew<W: Drop, A: Onwards<W>, G: Gate + Sync, L: Ledger, R: Threads + Wait + Sync>(
    rt: &R,
    alloc: Global,
    workers: Workers,
    gate: &G,
    mode: &mut A,
    world: W,
    steps: &mut Steps<L>,
) -> Result<W, StudyFault>
    requires come { HasComeTo A.has_gone_on (run_state mode.old world steps.old) }
    ensures goes { GoesOn A.has_gone_on A.has_stopped (run_state mode.old world steps.old) mode.new steps.new result }
    ensures done { IfOk result (λ w. A.done mode.new w) }
{
    match begin_crew(alloc, gate, workers) {
        Some(
            NewCrew {
                crew,
                members,
                bell,
            },
        ) => go_beside(rt, alloc, crew, members, &bell, mode, world, steps),
        None => go_alone(alloc, gate, mode, world, steps),
    }
}

// Runs in the caller's thread until the run is at its end, or a crew pays off.
fn go_until_large<W: Drop, A: Onwards<W>, G: Gate, L: Ledger>(
    alloc: Global,
    gate: &G,
    mode: &mut A,
    world: W,
    steps: &mut Steps<L>,
) -> Result<W, StudyFault>
    requires come { HasComeTo A.has_gone_on (run_state mode.old world steps.old) }
    ensures goes { GoesOn A.has_gone_on A.has_stopped (run_state mode.old world steps.old) mode.new steps.new result }
{
    let mut stepper = Alone::new(gate);
    go(alloc, mode, &mut stepper, world, true, steps)
}

/// Runs to the end: in the caller's thread until the mode wants a crew, and from then on by a crew of this number of
/// workers. The contract does not depend on the number of workers or on the gate.
///
/// # Errors
///
/// The world is dropped if out of memory, or if the limit is met.
pub fn go_to_end<W: Drop, A: Onwards<W>, G: Gate + Sync, L: Ledger, R: Threads + Wait + Sync>(
    rt: &R,
    alloc: Global,
    workers: Workers,
    gate: &G,
    mode: &mut A,
    world: W,
    steps: &mut Steps<L>,
) -> Result<W, StudyFault>
    requires come { HasComeTo A.has_gone_on (run_state mode.old world steps.old) }
    ensures goes { GoesOn A.has_gone_on A.has_stopped (run_state mode.old world steps.old) mode.new steps.new result }
    ensures done { IfOk result (λ w. A.done mode.new w) }
{
    let world = go_until_large(alloc, gate, mode, world, steps)?;
    // no step is left for a crew, so no thread is started
    if mode.is_done(&world) {
        return Ok(world);
    }
    go_with_crew(rt, alloc, workers, gate, mode, world, steps)
}
