//! Tests of lists of sent messages: those that fit 16 bytes, one that does not, and one list behind another.
use crate::sim_base_messages::message;
use clone_sets::CloneSet;
use phys_proc::SentMessages;
use std::alloc::Global;

/// A time that does not fit a message of 16 bytes.
const LATE: u64 = 1 << 30;

fn zero() -> CloneSet {
    CloneSet::one(0)
}

fn one() -> CloneSet {
    CloneSet::one(1)
}

/// Appends a message with this time, from these clones.
fn sends(sent: &mut SentMessages, time: u64, set: CloneSet) -> bool {
    sent.push(message(time, 1, 0), set).is_ok()
}

/// Whether the message with this time, from these clones, is at the place.
fn has(sent: &SentMessages, i: usize, time: u64, set: CloneSet) -> bool {
    if i >= sent.len() {
        return false;
    }
    let (msg, from) = sent.at(i);
    let want = message(time, 1, 0);
    msg.msg() == want && msg.time() == time && msg.to() == want.to && from == set
}

/// Messages behind one that is whole are in order.
fn order_is_kept(alloc: Global) -> bool {
    let mut sent = SentMessages::new(alloc);
    let put = sends(&mut sent, 3, zero())
        && sends(&mut sent, LATE, one())
        && sends(&mut sent, 5, one());
    put && sent.len() == 3
        && has(&sent, 0, 3, zero())
        && has(&sent, 1, LATE, one())
        && has(&sent, 2, 5, one())
}

/// A list with a whole message is appended, and then one without.
fn lists_are_joined(alloc: Global) -> bool {
    let mut all = SentMessages::new(alloc);
    let mut more = SentMessages::new(alloc);
    let put = sends(&mut all, 3, zero()) && sends(&mut more, LATE, one());
    let joined = put && all.append(&more).is_ok();
    more.clear();
    let again = joined && sends(&mut more, 4, one()) && all.append(&more).is_ok();
    again
        && all.len() == 3
        && has(&all, 0, 3, zero())
        && has(&all, 1, LATE, one())
        && has(&all, 2, 4, one())
}

#[test]
fn sent_messages_are_in_order(rt: HostRuntime) {
    assert!(rt; order_is_kept(rt.alloc()));
    assert!(rt; lists_are_joined(rt.alloc()));
}
