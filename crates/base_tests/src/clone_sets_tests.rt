//! Tests of clone sets at word boundaries.

use clone_sets::CloneSet;

const EDGES: [u32; 6] = [0, 63, 64, 127, 128, 255];

fn set_of(clones: &[u32]) -> CloneSet {
    let mut set = CloneSet::empty();
    for c in clones {
        if *c < CloneSet::LIMIT {
            set = set.with(*c);
        }
    }
    set
}

/// Whether a set has exactly these clones, in this order.
fn has_just(set: CloneSet, clones: &[u32]) -> bool {
    let mut members = set.iter();
    for c in clones {
        if members.next() != Some(*c) {
            return false;
        }
    }
    members.next().is_none() && set.len() as usize == clones.len()
}

#[test]
fn clones_come_in_rising_order(rt: HostRuntime) {
    assert!(rt; has_just(set_of(&[255, 128, 0, 127, 64, 63]), &EDGES));
}
