//! Tests that each kind of station handles each kind of message, and that copies of a station are independent.
ghost use Rattle.std.specs.Prelude.{◌≡◌, ◌<◌, IfSome};
ghost use Rattle.base_tests.specs.States.{IsStateOf};

mod models;
mod rows;
mod saving;
mod waiting;

use arrayvec::ArrayVec;
use models::FIVE_KINDS;
use net_model::limits::MAX_LIMIT;
use net_model::{Model, read_model};
use rows::{
    Row, at_the_copy, at_the_original, at_the_original_afterwards, before_the_copy, delay_rows,
    router_rows, server_rows, sink_rows, source_rows,
};
use sim_base::{Key, Msg, Steps};
use stations::State;
use stations::state::{handle, setup};
use std::alloc::Global;
use std::marker::Brand;
use std::sync::ledger::{Blank, Ledger};
use std::test::Fail;

/// The station of this number, before it has handled anything.
fn open_station(alloc: Global, model: &Model, station: u32) -> Option<State>
    ensures { IfSome result (λ state. IsStateOf model.now station state) }
{
    if station < 1 || station > model.len() {
        return None;
    }
    match setup(alloc, model, station) {
        Ok((state, _)) => Some(state),
        Err(_) => None,
    }
}

/// Whether the station handles the row's message as the row says.
fn answers_row<L: Ledger>(
    state: &mut State,
    model: &Model,
    station: u32,
    row: &Row,
    steps: &mut Steps<L>,
) -> bool
    requires own { IsStateOf model.now station state.old }
    ensures own { IsStateOf model.now station state.new }
{
    if state.handled() >= MAX_LIMIT || row.time >= 1 << 31 {
        return false;
    }
    let key = Key {
        time: row.time,
        sender: 0,
        number: 0,
    };
    let msg = Msg {
        key,
        to: station,
        payload: row.payload,
    };
    let mut out = ArrayVec::new();
    let Ok(line) = handle(state, model, &msg, &mut out, steps) else {
        return false;
    };
    let arrives = match out.last() {
        Some(sent) => Some(sent.key.time),
        None => None,
    };
    line == row.line && out.len() == row.sends && arrives == row.arrives
}

/// Whether the station handles one message after the other as the rows say.
fn answers<L: Ledger>(
    state: &mut State,
    model: &Model,
    station: u32,
    rows: &[Row],
    steps: &mut Steps<L>,
) -> bool
    requires own { IsStateOf model.now station state.old }
    ensures own { IsStateOf model.now station state.new }
{
    for row in rows {
        if !answers_row(state, model, station, row, steps) {
            return false;
        }
    }
    true
}

/// Whether a new station handles the rows' messages as they say.
fn begins<L: Ledger>(
    alloc: Global,
    model: &Model,
    station: u32,
    rows: &[Row],
    steps: &mut Steps<L>,
) -> bool {
    match open_station(alloc, model, station) {
        Some(mut state) => answers(&mut state, model, station, rows, steps),
        None => false,
    }
}

fn every_kind<L: Ledger>(alloc: Global, blank: Blank) -> bool
    requires name { blank.name ≡ L.name }
    requires parts { blank.parts ≡ L.parts }
    requires nonempty { 0 < L.parts }
{
    let mut steps = Steps::<L>::new(blank);
    let Ok(model) = read_model(alloc, FIVE_KINDS.as_bytes()) else {
        return false;
    };
    begins(alloc, &model, 1, &source_rows(), &mut steps)
        && begins(alloc, &model, 2, &server_rows(), &mut steps)
        && begins(alloc, &model, 3, &delay_rows(), &mut steps)
        && begins(alloc, &model, 4, &router_rows(), &mut steps)
        && begins(alloc, &model, 5, &sink_rows(), &mut steps)
}

/// Whether a desk and its copy continue as the rows say, independently.
fn copy_goes_its_way<L: Ledger>(
    alloc: Global,
    model: &Model,
    state: &mut State,
    steps: &mut Steps<L>,
) -> bool
    requires own { IsStateOf model.now 2 state.old }
{
    if !answers(state, model, 2, &before_the_copy(), steps) {
        return false;
    }
    let Ok(mut copy) = state.copy(alloc) else {
        return false;
    };
    answers(state, model, 2, &at_the_original(), steps)
        && answers(&mut copy, model, 2, &at_the_copy(), steps)
        && answers(state, model, 2, &at_the_original_afterwards(), steps)
}

fn original_and_copy<L: Ledger>(alloc: Global, blank: Blank) -> bool
    requires name { blank.name ≡ L.name }
    requires parts { blank.parts ≡ L.parts }
    requires nonempty { 0 < L.parts }
{
    let mut steps = Steps::<L>::new(blank);
    let Ok(model) = read_model(alloc, FIVE_KINDS.as_bytes()) else {
        return false;
    };
    match open_station(alloc, &model, 2) {
        Some(mut state) => copy_goes_its_way(alloc, &model, &mut state, &mut steps),
        None => false,
    }
}

#[test]
fn every_message_at_every_kind(rt: HostRuntime) -> Result<(), Fail> {
    let all = every_kind::<Brand>(rt.alloc(), Blank::new(1));
    assert!(rt; all);
    Ok(())
}

#[test]
fn copies_stay_apart(rt: HostRuntime) -> Result<(), Fail> {
    let apart = original_and_copy::<Brand>(rt.alloc(), Blank::new(1));
    assert!(rt; apart);
    Ok(())
}
