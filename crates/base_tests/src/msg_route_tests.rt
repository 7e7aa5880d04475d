//! Tests of messages that are joined, and of what each receiver gets.
ghost use Rattle.std.specs.Prelude.{◌<◌};
ghost use Rattle.sim_base.specs.declared.lists.TheConstants.{MAX_CLONES};

use clone_sets::CloneSet;
use msg_route::{Part, cut, group};
use sim_base::{Key, Msg, Payload};
use std::alloc::Global;

fn message(time: u64, to: u32) -> Msg {
    Msg {
        key: Key {
            time,
            sender: 1,
            number: 0,
        },
        to,
        payload: Payload::Tick,
    }
}

fn pair(c: u32, d: u32) -> CloneSet
    requires { (c < MAX_CLONES) × (d < MAX_CLONES) }
{
    CloneSet::one(c).with(d)
}

fn part(receiver: u32, set: CloneSet) -> Part {
    Part { receiver, set }
}

/// Whether exactly these of three receivers get a part of a message for these clones.
fn are_cut(alloc: Global, set: CloneSet, want: &[Part]) -> bool {
    let receivers = [CloneSet::one(0), pair(1, 3), CloneSet::one(4)];
    match cut(alloc, set, &receivers) {
        Ok(parts) => parts.as_slice() == want,
        Err(_) => false,
    }
}

#[test]
fn receivers_get_what_they_share(rt: HostRuntime) {
    let two = [part(0, CloneSet::one(0)), part(1, CloneSet::one(1))];
    assert!(rt; are_cut(rt.alloc(), pair(0, 1).with(2), &two));
}

/// Whether these messages are joined to the wanted ones.
fn are_joined(alloc: Global, sent: &[(Msg, CloneSet)], want: &[(Msg, CloneSet)]) -> bool {
    let Ok(sent) = Vec::from_slice(alloc, sent) else {
        return false;
    };
    match group(alloc, sent) {
        Ok(grouped) => grouped.as_slice() == want,
        Err(_) => false,
    }
}

#[test]
fn equal_messages_are_joined(rt: HostRuntime) {
    let m = message(3, 2);
    let n = message(3, 5); // the same key, another receiver
    let sent = [
        (m, CloneSet::one(0)),
        (n, pair(0, 1)),
        (m, CloneSet::one(2)),
    ];
    assert!(rt; are_joined(rt.alloc(), &sent, &[(m, pair(0, 2)), (n, pair(0, 1))]));
}
