//! Tests of the pending messages of a copy: messages for all clones and for some, parts, new clones, and long lists.
ghost use Rattle.std.specs.Prelude.{IsTrue};
ghost use Rattle.copy_pending.specs.Merged.{IsPart};

use crate::sim_base_messages::message;
use clone_sets::CloneSet;
use copy_pending::CopyPending;
use std::alloc::Global;

fn zero() -> CloneSet {
    CloneSet::one(0)
}

fn one() -> CloneSet {
    CloneSet::one(1)
}

fn two() -> CloneSet {
    CloneSet::one(2)
}

/// The clones of the copies here.
fn all() -> CloneSet {
    zero().union(one()).union(two())
}

/// Adds a message with this time for these clones.
fn puts(pending: &mut CopyPending, time: u64, marks: CloneSet) -> bool {
    pending.insert(message(time, 1, 0), marks).is_ok()
}

/// Whether the first message has this time, and these clones take it; it is removed.
fn takes(pending: &mut CopyPending, time: u64, marks: CloneSet) -> bool {
    let alike = pending.least_marks() == Some(marks);
    match pending.least_time() {
        Some(first) => pending.take_message() == message(time, 1, 0) && first == time && alike,
        None => false,
    }
}

/// Whether no message is left.
fn is_empty(pending: &CopyPending) -> bool {
    pending.least_time() == None && pending.lower_bound() == u64::MAX
}

/// Whether exactly these messages are pending, each for these clones; they are removed.
fn gives(pending: &mut CopyPending, messages: &[(u64, CloneSet)]) -> bool {
    for i in 0..messages.len() {
        let (time, marks) = messages[i];
        if !takes(pending, time, marks) {
            return false;
        }
    }
    is_empty(pending)
}

/// A copy with messages for all clones at 3 and 8, for clone 1 at 5, and for clones 0 and 1 at 6.
fn mixed(alloc: Global) -> Option<CopyPending> {
    let mut pending = CopyPending::new(alloc, all());
    let put = puts(&mut pending, 8, all())
        && puts(&mut pending, 6, zero().union(one()))
        && puts(&mut pending, 5, one())
        && puts(&mut pending, 3, all());
    if put { Some(pending) } else { None }
}

/// One message that comes for clones 0 and 1, for clone 2, and for all, is one message for all.
fn parts_are_joined(alloc: Global) -> bool {
    let mut pending = CopyPending::new(alloc, all());
    let put = puts(&mut pending, 5, zero().union(one()))
        && puts(&mut pending, 5, two())
        && puts(&mut pending, 5, all())
        && puts(&mut pending, 5, one());
    put && gives(&mut pending, &[(5, all())])
}

/// A message too large for 16 bytes is pending like the others.
fn large_message_is_in_order(alloc: Global) -> bool {
    let mut pending = CopyPending::new(alloc, all());
    let late = 1 << 30;
    let put = puts(&mut pending, late, all())
        && puts(&mut pending, 4, all())
        && puts(&mut pending, 2 * late, zero());
    put && gives(
        &mut pending,
        &[(4, all()), (late, all()), (2 * late, zero())],
    )
}

#[test]
fn equal_messages_are_one(rt: HostRuntime) {
    assert!(rt; parts_are_joined(rt.alloc()) && large_message_is_in_order(rt.alloc()));
}

/// Whether the first set is some of the clones of the other.
fn is_part(part: CloneSet, set: CloneSet) -> bool
    ensures { IsTrue result → IsPart part set }
{
    !part.is_empty() && part.minus(set).is_empty()
}

/// Clone 1 alone takes all four messages.
fn half_of_one(alloc: Global) -> Option<bool> {
    let pending = mixed(alloc)?;
    let part = one();
    if !is_part(part, pending.set()) {
        return None;
    }
    let mut half = pending.cut(alloc, part).ok()?;
    Some(gives(&mut half, &[(3, one()), (5, one()), (6, one()), (8, one())]))
}

/// The others do not take what clone 1 takes alone.
fn half_of_others(alloc: Global) -> Option<bool> {
    let pending = mixed(alloc)?;
    let others = zero().union(two());
    if !is_part(others, pending.set()) {
        return None;
    }
    let mut half = pending.keep(alloc, others).ok()?;
    Some(gives(&mut half, &[(3, others), (6, zero()), (8, others)]))
}

#[test]
fn a_copy_parts(rt: HostRuntime) {
    assert!(rt; half_of_one(rt.alloc()) == Some(true), "one");
    assert!(rt; half_of_others(rt.alloc()) == Some(true), "the others");
}

/// A new clone takes what the old one takes.
fn third_is_added(alloc: Global) -> Option<bool> {
    let mut pending = mixed(alloc)?;
    if !pending.set().has(0) {
        return None;
    }
    pending.fork(0, 3);
    let three = CloneSet::one(3);
    let most = all().union(three);
    let some = zero().union(one()).union(three);
    Some(gives(&mut pending, &[(3, most), (5, one()), (6, some), (8, most)]))
}

#[test]
fn a_clone_is_added(rt: HostRuntime) {
    assert!(rt; third_is_added(rt.alloc()) == Some(true));
}

/// Puts in 60,000 messages for all, with times from 0 on, in scrambled order.
fn puts_scrambled(pending: &mut CopyPending) -> bool {
    for i in 0..60_000_u64 {
        if !puts(pending, i * 7_919 % 60_000, all()) {
            return false;
        }
    }
    true
}

/// Puts in each third of them again, for one clone.
fn puts_each_third(pending: &mut CopyPending) -> bool {
    for i in 0..20_000_u64 {
        if !puts(pending, i * 3, one()) {
            return false;
        }
    }
    true
}

/// 60,000 messages, each third of them twice, are removed in order of time, each once.
#[test]
fn sixty_thousand_messages_wait_in_one_copy(rt: HostRuntime) {
    let mut pending = CopyPending::new(rt.alloc(), all());
    assert!(rt; puts_scrambled(&mut pending) && puts_each_third(&mut pending));
    for time in 0..60_000_u64 {
        assert!(rt; takes(&mut pending, time, all()));
    }
    assert!(rt; is_empty(&pending));
}
