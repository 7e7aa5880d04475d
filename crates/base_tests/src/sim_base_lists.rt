//! Tests of decision lists that diverge after a fork.

use sim_base::{Change, Lists, MAX_CLONES, Name, Param, Planned};
use std::alloc::Global;
use std::process::Abort;
use std::test::Fail;

fn plan(at: u64, station: u32) -> Planned {
    let change = Change {
        param: Param::Service,
        a: 1,
        b: 2,
    };
    Planned {
        at,
        station,
        change,
    }
}

fn name<R: Abort>(rt: &R, text: &[u8]) -> Name {
    Name::read(text).expect(rt, "a name")
}

/// Adds a decision to a clone's list, if the clone exists.
fn add(lists: &mut Lists, c: u32, plan: Planned) -> bool {
    c < lists.len() && lists.add(c, plan).is_ok()
}

/// Ends a clone, if it exists and has no end.
fn end(lists: &mut Lists, c: u32, at: u64) -> bool {
    if c >= lists.len() || lists.end_of(c).is_some() {
        return false;
    }
    lists.end(c, at);
    true
}

/// Forks the base, if no clone has this name.
fn fork(lists: &mut Lists, alloc: Global, new: Name) -> bool {
    match lists.find(&new) {
        Some(_) => false,
        None => lists.len() < MAX_CLONES && lists.fork(alloc, new, 0).is_ok(),
    }
}

/// Whether a clone has these decisions and this end.
fn has(lists: &Lists, c: u32, plans: &[Planned], end: Option<u64>) -> bool {
    c < lists.len() && lists.list(c) == plans && lists.end_of(c) == end
}

/// Memory is reserved for two clones with one decision, and a second decision needs more.
#[test]
fn forks_go_separate_ways(rt: HostRuntime) -> Result<(), Fail> {
    let left = name(&rt, b"left");
    let mut lists = Lists::with_room(rt.alloc(), 2, 1)?;
    assert!(rt; add(&mut lists, 0, plan(5, 1)) && end(&mut lists, 0, 90));
    let before = lists.copy(rt.alloc())?;
    assert!(rt; fork(&mut lists, rt.alloc(), left) && lists.find(&left) == Some(1));
    assert!(rt; add(&mut lists, 0, plan(6, 2)) && add(&mut lists, 1, plan(7, 3)));
    assert!(rt; has(&before, 0, &[plan(5, 1)], Some(90)));
    assert!(rt; has(&lists, 0, &[plan(5, 1), plan(6, 2)], Some(90)));
    assert!(rt; has(&lists, 1, &[plan(5, 1), plan(7, 3)], None));
    Ok(())
}
