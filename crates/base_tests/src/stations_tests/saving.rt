//! Tests that the state of each kind of station is saved as plain data, and that the restored state behaves like it.
ghost use Rattle.std.specs.Prelude.{◌≡◌, ◌<◌, IfSome};
ghost use Rattle.base_tests.specs.States.{IsStateOf};

use super::models::FIVE_KINDS;
use super::rows::{
    Row, at_the_copy, at_the_original, before_the_copy, delay_rows, router_rows, server_rows,
    sink_rows, source_rows,
};
use super::{answers, open_station};
use net_model::{Model, read_model};
use sim_base::{Job, NoMemory, Steps};
use stations::{JobLine, RestoreFault, Saved, Shape, State};
use std::alloc::Global;
use std::marker::Brand;
use std::sync::ledger::{Blank, Ledger};
use std::test::Fail;

/// The state that is restored from the plain data of a state.
fn restored(alloc: Global, model: &Model, station: u32, state: &State) -> Option<State>
    ensures { IfSome result (λ again. IsStateOf model.now station again) }
{
    if station < 1 || station > model.len() {
        return None;
    }
    match state.saved(alloc) {
        Ok(saved) => State::restore(alloc, model, station, &saved).ok(),
        Err(_) => None,
    }
}

/// Whether a station handles the rows' messages as they say if its state is restored before the row at this place.
fn goes_on<L: Ledger>(
    alloc: Global,
    model: &Model,
    station: u32,
    rows: &[Row],
    place: usize,
    steps: &mut Steps<L>,
) -> bool {
    let Some(mut state) = open_station(alloc, model, station) else {
        return false;
    };
    if place > rows.len() || !answers(&mut state, model, station, &rows[..place], steps) {
        return false;
    }
    match restored(alloc, model, station, &state) {
        Some(mut again) => answers(&mut again, model, station, &rows[place..], steps),
        None => false,
    }
}

/// Whether a restored desk draws the same times, and serves the waiting job.
fn desk_goes_on<L: Ledger>(
    alloc: Global,
    model: &Model,
    rows: &[Row],
    steps: &mut Steps<L>,
) -> bool {
    let Some(mut state) = open_station(alloc, model, 2) else {
        return false;
    };
    if rows.len() == 0 || !answers(&mut state, model, 2, &before_the_copy(), steps) {
        return false;
    }
    let Some(mut second) = restored(alloc, model, 2, &state) else {
        return false;
    };
    let last = rows.len() - 1;
    if !answers(&mut second, model, 2, &rows[..last], steps) {
        return false;
    }
    match restored(alloc, model, 2, &second) {
        Some(mut third) => answers(&mut third, model, 2, &rows[last..], steps),
        None => false,
    }
}

fn every_kind<L: Ledger>(alloc: Global, blank: Blank) -> bool
    requires name { blank.name ≡ L.name }
    requires parts { blank.parts ≡ L.parts }
    requires nonempty { 0 < L.parts }
{
    let mut steps = Steps::<L>::new(blank);
    let Ok(model) = read_model(alloc, FIVE_KINDS.as_bytes()) else {
        return false;
    };
    goes_on(alloc, &model, 1, &source_rows(), 1, &mut steps)
        && goes_on(alloc, &model, 2, &server_rows(), 3, &mut steps)
        && goes_on(alloc, &model, 3, &delay_rows(), 1, &mut steps)
        && goes_on(alloc, &model, 4, &router_rows(), 1, &mut steps)
        && goes_on(alloc, &model, 5, &sink_rows(), 1, &mut steps)
        && desk_goes_on(alloc, &model, &at_the_original(), &mut steps)
        && desk_goes_on(alloc, &model, &at_the_copy(), &mut steps)
}

fn line_of(alloc: Global, length: u64) -> Result<JobLine, NoMemory> {
    let mut jobs = Vec::new(alloc);
    for count in 0..length {
        jobs.push(Job {
            source: 1,
            count,
            born: 3,
        })?;
    }
    Ok(JobLine::of(jobs))
}

/// Whether a desk can be restored with a line of this length; None if out of memory.
fn takes_line(alloc: Global, model: &Model, length: u64) -> Option<bool> {
    if model.len() < 2 {
        return None;
    }
    let Ok(line) = line_of(alloc, length) else {
        return None;
    };
    let shape = Shape::Server {
        servers: 1,
        room: 5,
        lo: 1,
        hi: 10,
        busy: 1,
        done: 0,
        lost: 0,
        line,
    };
    let saved = Saved {
        next: 0,
        drawn: 0,
        handled: 0,
        shape,
    };
    match State::restore(alloc, model, 2, &saved) {
        Ok(_) => Some(true),
        Err(RestoreFault::Unfit) => Some(false),
        Err(RestoreFault::NoMemory) => None,
    }
}

#[test]
fn restored_stations_go_on(rt: HostRuntime) -> Result<(), Fail> {
    let all = every_kind::<Brand>(rt.alloc(), Blank::new(1));
    assert!(rt; all);
    Ok(())
}

#[test]
fn the_longest_line_is_restored(rt: HostRuntime) -> Result<(), Fail> {
    let alloc = rt.alloc();
    match read_model(alloc, FIVE_KINDS.as_bytes()) {
        Ok(model) => {
            assert!(rt; takes_line(alloc, &model, 4_096) == Some(true));
            assert!(rt; takes_line(alloc, &model, 4_097) == Some(false));
        }
        Err(_) => assert!(rt; false),
    }
    Ok(())
}
