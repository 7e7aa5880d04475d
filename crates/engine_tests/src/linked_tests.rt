//! Tests of runs in rounds of small networks, against values computed by hand.
ghost use Rattle.std.specs.Prelude.{◌≡◌, ◌<◌, ◌≤◌, IfSome, length};

use crew_pool::{Gate, NoGate, Workers};
use link_clocks::LinkWorld;
use net_model::{Model, read_model};
use sample_models::ONE_DESK;
use sim_base::{Figures, Steps};
use std::alloc::Global;
use std::marker::Brand;
use std::sync::atomic::{AtomicU64, Ordering};
use std::sync::ledger::{Blank, Ledger};
use std::sync::{Arc, Wait};
use std::thread::Threads;
use study_run::{LinkedWorld, StudyFault, run_linked, run_linked_sequentially};

/// A sink alone: no link leads to it.
const SINK: &str = "lookahead = 2
horizon = 20
[[station]]
name = \"out\"
kind = \"sink\"
";

/// Two delays in a ring: a link of 3 one way, of 5 the other.
const RING: &str = "lookahead = 3
horizon = 10
[[station]]
name = \"there\"
kind = \"delay\"
hold = [1, 1]
link = [{ to = \"back\", delay = 3 }]
[[station]]
name = \"back\"
kind = \"delay\"
hold = [1, 1]
link = [{ to = \"there\", delay = 5 }]
";

/// A delay that leads back to itself and on to a sink.
const LOOP: &str = "lookahead = 3
horizon = 10
[[station]]
name = \"again\"
kind = \"delay\"
hold = [1, 1]
link = [{ to = \"again\", delay = 3 }, { to = \"out\", delay = 4 }]
[[station]]
name = \"out\"
kind = \"sink\"
";

/// Reads a model.
fn model_of(alloc: Global, text: &str) -> Option<Arc<Model>> {
    let model = read_model(alloc, text.as_bytes()).ok()?;
    Arc::new(alloc, model).ok()
}

/// Makes the next round, if the world has these first two clocks and is not done.
fn next_round<L: Ledger>(
    alloc: Global,
    world: LinkWorld,
    clocks: [u64; 2],
    steps: &mut Steps<L>,
) -> Option<LinkWorld>
    requires two { 2 ≤ length world.net.sites }
    ensures two { IfSome result (λ w. 2 ≤ length w.net.sites) }
{
    if world.clock(1) != clocks[0] || world.clock(2) != clocks[1] || world.is_done() {
        return None;
    }
    world.round_in_place(alloc, &NoGate, steps).ok()
}

/// Whether the first two clocks of a network are 0 at first, these after one and two rounds, and the third round is the
/// last.
fn clocks_are<L: Ledger>(
    alloc: Global,
    model: Arc<Model>,
    one: [u64; 2],
    two: [u64; 2],
    blank: Blank,
) -> Option<bool>
    requires name { blank.name ≡ L.name }
    requires parts { blank.parts ≡ L.parts }
    requires nonempty { 0 < L.parts }
{
    let mut steps = Steps::<L>::new(blank);
    if model.len() < 2 {
        return None;
    }
    let world = LinkWorld::new(alloc, model, &[]).ok()?;
    let world = next_round(alloc, world, [0, 0], &mut steps)?;
    let world = next_round(alloc, world, one, &mut steps)?;
    let world = next_round(alloc, world, two, &mut steps)?;
    Some(world.is_done() && world.rounds() == 3)
}

/// The same for a model's text.
fn clocks_come(alloc: Global, text: &str, one: [u64; 2], two: [u64; 2]) -> Option<bool> {
    let model = model_of(alloc, text)?;
    clocks_are::<Brand>(alloc, model, one, two, Blank::new(1))
}

/// The run of a model's base clone in the caller's thread.
fn run_base<L: Ledger>(
    alloc: Global,
    model: &Arc<Model>,
    blank: Blank,
) -> Result<LinkedWorld, StudyFault>
    requires name { blank.name ≡ L.name }
    requires parts { blank.parts ≡ L.parts }
    requires nonempty { 0 < L.parts }
{
    let mut steps = Steps::<L>::new(blank);
    run_linked_sequentially(alloc, &NoGate, model, &[], &mut steps)
}

/// The number of rounds of a model.
fn rounds_of(alloc: Global, text: &str) -> Option<u64> {
    let model = model_of(alloc, text)?;
    let linked = run_base::<Brand>(alloc, &model, Blank::new(1)).ok()?;
    Some(linked.rounds)
}

/// Counts the calls before stations.
#[derive(Drop)]
struct Tasks {
    begun: AtomicU64,
}

impl Gate for Tasks {
    fn before(&self, _worker: u32, _task: u32) {
        self.begun.fetch_add(1, Ordering::SeqCst);
    }

    fn before_call(&self, _analyst: u32, _k: u32) {}
}

/// Whether four workers make three rounds of three tasks, and the desk handles what it would handle alone.
fn four_workers_make_the_rounds<L: Ledger, R: Threads + Wait + Sync>(
    rt: &R,
    alloc: Global,
    gate: &Tasks,
    blank: Blank,
) -> Option<bool>
    requires name { blank.name ≡ L.name }
    requires parts { blank.parts ≡ L.parts }
    requires nonempty { 0 < L.parts }
{
    let mut steps = Steps::<L>::new(blank);
    let model = model_of(alloc, ONE_DESK)?;
    let workers = Workers::new(4)?;
    let linked = run_linked(rt, alloc, workers, gate, &model, &[], &mut steps).ok()?;
    if linked.world.model().len() < 2 {
        return None;
    }
    let Figures {
        copies,
        handled,
        alone,
    } = linked.world.figures(2);
    Some(linked.rounds == 3 && copies == 1 && handled == 4 && alone == 4)
}

#[test]
fn clocks_of_one_desk(rt: HostRuntime) {
    assert!(rt; clocks_come(rt.alloc(), ONE_DESK, [20, 2], [20, 20]) == Some(true));
    assert!(rt; rounds_of(rt.alloc(), ONE_DESK) == Some(3));
}

#[test]
fn clocks_of_a_ring(rt: HostRuntime) {
    assert!(rt; clocks_come(rt.alloc(), RING, [5, 3], [8, 8]) == Some(true));
}

#[test]
fn sink_alone_takes_one_round(rt: HostRuntime) {
    assert!(rt; rounds_of(rt.alloc(), SINK) == Some(1));
}

#[test]
fn link_to_itself_does_not_count(rt: HostRuntime) {
    assert!(rt; rounds_of(rt.alloc(), LOOP) == Some(2));
}

#[test]
fn each_station_is_a_task_of_each_round(rt: HostRuntime) {
    let gate = Tasks {
        begun: AtomicU64::new(0),
    };
    assert!(rt;
        four_workers_make_the_rounds::<Brand, _>(&rt, rt.alloc(), &gate, Blank::new(1))
            == Some(true)
    );
    assert!(rt; gate.begun.load(Ordering::SeqCst) == 9);
}
