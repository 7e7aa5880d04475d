//! Tests of a run with two analysts who only look: its journal and its looks, under every schedule.
ghost use Rattle.std.specs.Prelude.{◌≡◌, ◌<◌};

use crew_pool::{NoGate, Workers};
use decision_script::read_script;
use live_study::{LiveRun, live_study};
use net_model::read_model;
use sample_models::ONE_DESK;
use sim_base::Steps;
use std::alloc::Global;
use std::marker::Brand;
use std::sync::ledger::{Blank, Ledger};
use std::sync::{Arc, Wait};
use std::thread::Threads;

/// Looks at an existing clone, at a missing one, and at a missing station.
const LOOKS: &str = "look base gate
look base till
analyst ben
look fast desk
look base gate
";

/// A run with these looks.
fn run_counted<L: Ledger, R: Threads + Wait + Sync>(
    rt: &R,
    alloc: Global,
    blank: Blank,
) -> Option<LiveRun>
    requires name { blank.name ≡ L.name }
    requires parts { blank.parts ≡ L.parts }
    requires nonempty { 0 < L.parts }
{
    let mut steps = Steps::<L>::new(blank);
    let model = read_model(alloc, ONE_DESK.as_bytes()).ok()?;
    let model = Arc::new(alloc, model).ok()?;
    let script = read_script(alloc, LOOKS.as_bytes()).ok()?;
    let workers = Workers { count: 1 };
    live_study(rt, alloc, workers, &NoGate, &model, &script, &mut steps).ok()
}

/// The index after an analyst's looks, which begin at this index, if each saw a station or none as expected.
fn behind_looks(live: &LiveRun, analyst: usize, stations: &[bool], first: usize) -> Option<usize> {
    let own = live.looks.as_slice().get(analyst)?;
    let mut next = first;
    for look in own.as_slice() {
        if next >= stations.len() || stations[next] != look.glance.is_some() {
            return None;
        }
        next = next.saturating_add(1);
    }
    Some(next)
}

/// Whether the run has this number of looks, and each saw a station or none as expected.
fn have_seen(live: &LiveRun, stations: &[bool]) -> bool {
    let mut next = 0usize;
    for analyst in 0..live.looks.len() {
        let Some(place) = behind_looks(live, analyst, stations, next) else {
            return false;
        };
        next = place;
    }
    next == stations.len()
}

/// Whether the run came to its end, with the right number of fronts, and each look saw what it should.
fn looks_are_right<R: Threads + Wait + Sync>(rt: &R, alloc: Global) -> Option<bool> {
    let live = run_counted::<Brand, R>(rt, alloc, Blank::new(1))?;
    Some(
        live.run.is_ok()
            && live.book.book().fronts().len() == 7
            && have_seen(&live, &[true, false, true, true]),
    )
}

#[test]
fn looks_are_told_in_order(rt: HostRuntime) {
    assert!(rt; looks_are_right(&rt, rt.alloc()) == Some(true));
}
