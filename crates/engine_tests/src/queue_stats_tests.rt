//! A test of the statistics of a small study at the horizon, against values computed by hand.
use crate::world_core_tests::{faster, fork, run_of};
use queue_stats::make_statistics;
use sample_models::ONE_DESK;
use sim_base::{Decision, Name};
use std::alloc::Global;
use world_core::World;

/// Clones of one desk that end, and their ends. At the desk two of them share the log of `eight`, and two that of
/// `ten`.
const ENDS: [(&str, u64); 6] = [
    ("gone", 0),
    ("brief", 9),
    ("eight", 8),
    ("six", 6),
    ("ten", 10),
    ("twelve", 12),
];

/// Their statistics, after those of the base clone and of one with faster service from 8 on.
const ONE_DESK_STATISTICS: &str = "stats
base desk arrived=2 lost=0 done=2 most=1 present=9 waited=1 longest=1
fast desk arrived=2 lost=0 done=2 most=1 present=7 waited=- longest=-
gone desk arrived=0 lost=0 done=0 most=0 present=0 waited=0 longest=0
brief desk arrived=2 lost=0 done=0 most=1 present=5 waited=0 longest=0
eight desk arrived=1 lost=0 done=0 most=0 present=3 waited=0 longest=0
six desk arrived=1 lost=0 done=0 most=0 present=1 waited=0 longest=0
ten desk arrived=2 lost=0 done=1 most=1 present=6 waited=1 longest=1
twelve desk arrived=2 lost=0 done=1 most=1 present=8 waited=1 longest=1
";

/// The text of a world's statistics, if it is at the horizon.
fn statistics_of(alloc: Global, world: &World) -> Option<Vec<u8>> {
    if world.front() != world.model().horizon() {
        return None;
    }
    make_statistics(alloc, world.model(), world).ok()
}

/// Whether a study has these statistics.
fn has_statistics(
    alloc: Global,
    model: &str,
    decisions: &[Decision],
    expected: &str,
) -> Option<bool> {
    let world = run_of(alloc, model, decisions)?;
    let text = statistics_of(alloc, &world)?;
    Some(text.as_slice() == expected.as_bytes())
}

/// The decisions that make the clones of one desk.
fn decisions_of_one_desk(alloc: Global) -> Option<Vec<Decision>> {
    let mut decisions = Vec::new(alloc);
    decisions.push(fork("fast")?).ok()?;
    decisions.push(faster(8)?).ok()?;
    for i in 0..ENDS.len() {
        let (name, at) = ENDS[i];
        let who = Name::read(name.as_bytes())?;
        decisions.push(fork(name)?).ok()?;
        decisions.push(Decision::End { who, at }).ok()?;
    }
    Some(decisions)
}

/// Whether the clones of one desk have their statistics.
fn one_desk_is_right(alloc: Global) -> Option<bool> {
    let decisions = decisions_of_one_desk(alloc)?;
    has_statistics(alloc, ONE_DESK, decisions.as_slice(), ONE_DESK_STATISTICS)
}

#[test]
fn clones_of_one_desk(rt: HostRuntime) {
    assert!(rt; one_desk_is_right(rt.alloc()) == Some(true));
}
