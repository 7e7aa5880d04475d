//! Tests of a server's waiting line: a job that is not packed among packed ones.
ghost use Rattle.std.specs.Prelude.{◌≡◌, ◌<◌};
ghost use Rattle.base_tests.specs.States.{IsStateOf};

use super::open_station;
use arrayvec::ArrayVec;
use net_model::limits::MAX_LIMIT;
use net_model::{Model, read_model};
use sample_models::CLASSES;
use sim_base::{Job, Key, Line, Msg, NoMemory, Payload, Steps};
use stations::state::handle;
use stations::{JobQueue, State};
use std::alloc::Global;
use std::marker::Brand;
use std::sync::ledger::{Blank, Ledger};
use std::test::Fail;

/// The least count of a job that is not packed.
const GREAT: u64 = 1 << 26;

/// A job of a source.
fn job(source: u32, count: u64) -> Job {
    Job {
        source,
        count,
        born: 3,
    }
}

/// Whether a line has just these jobs.
fn is_line(queue: &JobQueue, jobs: &[Job]) -> bool {
    for (place, job) in jobs.iter().enumerate() {
        if place >= queue.len() || queue.get(place) != *job {
            return false;
        }
    }
    queue.len() == jobs.len()
}

/// A line with a whole job between packed ones.
fn mixed_line(alloc: Global) -> Result<JobQueue, NoMemory> {
    let mut queue = JobQueue::new(alloc);
    for count in [0, 1, GREAT, 3, 4] {
        queue.push(job(1, count))?;
    }
    Ok(queue)
}

/// Whether jobs are taken from the front, from within, and not from after the end.
fn takes(queue: &mut JobQueue) -> bool {
    queue.take(0) == Some(job(1, 0))
        && is_line(queue, &[job(1, 1), job(1, GREAT), job(1, 3), job(1, 4)])
        && queue.take(4).is_none()
        && queue.take(2) == Some(job(1, 3))
        && is_line(queue, &[job(1, 1), job(1, GREAT), job(1, 4)])
        && queue.take(1) == Some(job(1, GREAT))
        && is_line(queue, &[job(1, 1), job(1, 4)])
}

/// Whether a line with no whole job left takes in packed and whole jobs, down to its end.
fn goes_on(queue: &mut JobQueue) -> bool {
    queue.push(job(1, GREAT + 1)).is_ok()
        && queue.push(job(1, 5)).is_ok()
        && is_line(queue, &[job(1, 1), job(1, 4), job(1, GREAT + 1), job(1, 5)])
        && queue.take(1) == Some(job(1, 4))
        && queue.take(0) == Some(job(1, 1))
        && queue.take(0) == Some(job(1, GREAT + 1))
        && queue.take(0) == Some(job(1, 5))
        && queue.take(0).is_none()
        && is_line(queue, &[])
}

/// Whether a line and its copies change independently. The copy of a line with no whole job left has the same jobs.
fn line_holds(alloc: Global) -> Result<bool, NoMemory> {
    let mut queue = mixed_line(alloc)?;
    let first = queue.copy(alloc)?;
    let taken = takes(&mut queue);
    let mut second = queue.copy(alloc)?;
    Ok(
        taken
            && is_line(
                &first,
                &[job(1, 0), job(1, 1), job(1, GREAT), job(1, 3), job(1, 4)],
            )
            && goes_on(&mut second)
            && goes_on(&mut queue),
    )
}

#[test]
fn a_line_keeps_packed_and_whole_jobs(rt: HostRuntime) -> Result<(), Fail> {
    assert!(rt; line_holds(rt.alloc())?);
    Ok(())
}

/// An event at the desk that serves by class, and what follows: the number of waiting jobs, and the job whose service
/// begins.
#[derive(Clone, Copy)]
struct Event {
    payload: Payload,
    wait: u64,
    begins: Option<Job>,
}

/// A job arrives and waits.
fn waits(job: Job, wait: u64) -> Event {
    Event {
        payload: Payload::Job(job),
        wait,
        begins: None,
    }
}

/// A service ends, and another begins.
fn serves(done: Job, wait: u64, next: Job) -> Event {
    Event {
        payload: Payload::Done(done),
        wait,
        begins: Some(next),
    }
}

/// The first job is served at once. Source 2 has the lower class, which is served first.
fn arrivals() -> [Event; 5] {
    let first = Event {
        payload: Payload::Job(job(1, 0)),
        wait: 0,
        begins: Some(job(1, 0)),
    };
    [
        first,
        waits(job(1, 1), 1),
        waits(job(1, GREAT), 2),
        waits(job(2, GREAT + 1), 3),
        waits(job(2, 1), 4),
    ]
}

/// The waiting jobs are served, and another comes.
fn services() -> [Event; 6] {
    [
        serves(job(1, 0), 3, job(2, GREAT + 1)),
        serves(job(2, GREAT + 1), 2, job(2, 1)),
        serves(job(2, 1), 1, job(1, 1)),
        serves(job(1, 1), 0, job(1, GREAT)),
        waits(job(1, 9), 1),
        serves(job(1, GREAT), 0, job(1, 9)),
    ]
}

/// The last chair is taken, a job is lost, and the waiting jobs are served.
fn services_of_the_copy() -> [Event; 7] {
    [
        waits(job(2, 7), 5),
        waits(job(2, GREAT + 2), 5),
        serves(job(1, 0), 4, job(2, GREAT + 1)),
        serves(job(2, GREAT + 1), 3, job(2, 1)),
        serves(job(2, 1), 2, job(2, 7)),
        serves(job(2, 7), 1, job(1, 1)),
        serves(job(1, 1), 0, job(1, GREAT)),
    ]
}

/// Whether the desk does for an event what follows it.
fn follows<L: Ledger>(state: &mut State, model: &Model, event: &Event, steps: &mut Steps<L>) -> bool
    requires own { IsStateOf model.now 3 state.old }
    ensures own { IsStateOf model.now 3 state.new }
{
    if state.handled() >= MAX_LIMIT {
        return false;
    }
    let key = Key {
        time: state.handled(),
        sender: 0,
        number: 0,
    };
    let msg = Msg {
        key,
        to: 3,
        payload: event.payload,
    };
    let mut out = ArrayVec::new();
    let Ok(Line::Server { wait, .. }) = handle(state, model, &msg, &mut out, steps) else {
        return false;
    };
    let begins = match out.last() {
        Some(
            Msg {
                payload: Payload::Done(job),
                ..
            },
        ) => Some(*job),
        _ => None,
    };
    wait == event.wait && begins == event.begins
}

/// Whether the desk does for each event what follows it.
fn follow<L: Ledger>(
    state: &mut State,
    model: &Model,
    events: &[Event],
    steps: &mut Steps<L>,
) -> bool
    requires own { IsStateOf model.now 3 state.old }
    ensures own { IsStateOf model.now 3 state.new }
{
    for event in events {
        if !follows(state, model, event, steps) {
            return false;
        }
    }
    true
}

/// Whether a desk and its copy serve mixed jobs by class, independently.
fn desk_and_copy<L: Ledger>(alloc: Global, blank: Blank) -> bool
    requires name { blank.name ≡ L.name }
    requires parts { blank.parts ≡ L.parts }
    requires nonempty { 0 < L.parts }
{
    let mut steps = Steps::<L>::new(blank);
    let Ok(model) = read_model(alloc, CLASSES.as_bytes()) else {
        return false;
    };
    let Some(mut state) = open_station(alloc, &model, 3) else {
        return false;
    };
    if !follow(&mut state, &model, &arrivals(), &mut steps) {
        return false;
    }
    let Ok(mut copy) = state.copy(alloc) else {
        return false;
    };
    follow(&mut copy, &model, &services_of_the_copy(), &mut steps)
        && follow(&mut state, &model, &services(), &mut steps)
}

#[test]
fn mixed_jobs_are_served_by_class(rt: HostRuntime) -> Result<(), Fail> {
    let all = desk_and_copy::<Brand>(rt.alloc(), Blank::new(1));
    assert!(rt; all);
    Ok(())
}
