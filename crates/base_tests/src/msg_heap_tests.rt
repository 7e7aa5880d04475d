//! Tests of packed messages: the limits of their numbers, their order, and heaps of them.

use crate::counts::change;
use msg_heap::packed::message_of_words;
use msg_heap::{Content, MsgHeap, OptionalMsg, PackedMsg};
use sim_base::{Job, Key, Msg, Param, Payload};
use std::alloc::Global;
use std::cmp::Ordering;

/// The greatest time of a packed message, and the greatest second value of a change.
const TIME: u64 = (1 << 30) - 1;

/// The greatest count of a job, and the greatest first value of a change.
const COUNT: u64 = (1 << 26) - 1;

/// The greatest sequence number.
const NUMBER: u64 = (1 << 21) - 1;

fn job(source: u32, count: u64, born: u64) -> Job {
    Job {
        source,
        count,
        born,
    }
}

fn key(time: u64, sender: u32, number: u64) -> Key {
    Key {
        time,
        sender,
        number,
    }
}

/// The message with the greatest key and this receiver and payload.
fn last(to: u32, payload: Payload) -> Msg {
    Msg {
        key: key(TIME, 126, NUMBER),
        to,
        payload,
    }
}

/// A message of the analyst with this time, receiver and payload.
fn at(time: u64, to: u32, payload: Payload) -> Msg {
    Msg {
        key: key(time, 0, 0),
        to,
        payload,
    }
}

/// A tick with this key.
fn tick(time: u64, sender: u32, number: u64) -> Msg {
    Msg {
        key: key(time, sender, number),
        to: 1,
        payload: Payload::Tick,
    }
}

/// The payloads other than changes, with the least and the greatest numbers of a packed job.
fn payloads() -> [Payload; 5] {
    [
        Payload::Tick,
        Payload::Job(job(1, 0, 0)),
        Payload::Job(job(64, COUNT, TIME)),
        Payload::Done(job(1, 0, 0)),
        Payload::Done(job(64, COUNT, TIME)),
    ]
}

/// The payload of a content.
fn payload_of(content: Content) -> Payload {
    match content {
        Content::Tick => Payload::Tick,
        Content::Job(job) => Payload::Job(job.job()),
        Content::Done(job) => Payload::Done(job.job()),
    }
}

/// Whether a packed message has this payload.
fn has_content(packed: PackedMsg, payload: Payload) -> bool {
    match packed.content() {
        Some(content) => payload_of(content) == payload,
        None => matches!(payload, Payload::Set(_)),
    }
}

/// Whether a packed message is this one, as a whole and part by part.
fn is_same(packed: PackedMsg, msg: &Msg) -> bool {
    let (high, low) = packed.words();
    packed.msg() == *msg
        && packed.time() == msg.key.time
        && packed.key() == msg.key
        && packed.to() == msg.to
        && message_of_words(high, low) == *msg
        && has_content(packed, msg.payload)
        && OptionalMsg::some(packed).get() == Some(packed)
}

/// Whether a message is packed and comes back.
fn comes_back(msg: &Msg) -> bool {
    match PackedMsg::of(msg) {
        Some(packed) => is_same(packed, msg),
        None => false,
    }
}

/// Whether this payload comes back with the least and the greatest key and receiver.
fn comes_back_at_each_limit(payload: Payload) -> bool {
    comes_back(&at(0, 1, payload))
        && comes_back(&at(0, 64, payload))
        && comes_back(&last(1, payload))
        && comes_back(&last(64, payload))
}

#[test]
fn messages_within_the_limits_come_back(rt: HostRuntime) {
    for payload in &payloads() {
        assert!(rt; comes_back_at_each_limit(*payload));
    }
    for param in Param::ALL {
        assert!(rt; comes_back_at_each_limit(change(param, 0, 0)));
        assert!(rt; comes_back_at_each_limit(change(param, COUNT, 0)));
        assert!(rt; comes_back_at_each_limit(change(param, 0, TIME)));
        assert!(rt; comes_back_at_each_limit(change(param, COUNT, TIME)));
    }
    assert!(rt; OptionalMsg::none().get().is_none());
}

/// In each of these, one number of the key or the receiver is outside those of a packed message.
fn heads_outside() -> [Msg; 9] {
    [
        tick(TIME + 1, 126, NUMBER),
        tick(u64::MAX, 126, NUMBER),
        tick(TIME, 127, NUMBER),
        tick(TIME, u32::MAX, NUMBER),
        tick(TIME, 126, NUMBER + 1),
        tick(TIME, 126, u64::MAX),
        last(0, Payload::Tick),
        last(65, Payload::Tick),
        last(u32::MAX, Payload::Tick),
    ]
}

/// In each of these, one number is outside those of a packed job.
fn jobs_outside() -> [Job; 7] {
    [
        job(0, COUNT, TIME),
        job(65, COUNT, TIME),
        job(u32::MAX, COUNT, TIME),
        job(64, COUNT + 1, TIME),
        job(64, u64::MAX, TIME),
        job(64, COUNT, TIME + 1),
        job(64, COUNT, u64::MAX),
    ]
}

/// Whether a payload is not packed, whatever the key.
fn is_outside(payload: Payload) -> bool {
    PackedMsg::of(&at(0, 1, payload)).is_none() && PackedMsg::of(&last(64, payload)).is_none()
}

#[test]
fn messages_outside_the_limits_are_not_packed(rt: HostRuntime) {
    for (i, msg) in heads_outside().iter().enumerate() {
        assert!(rt; PackedMsg::of(msg).is_none(), "head {i}");
    }
    for (i, job) in jobs_outside().iter().enumerate() {
        assert!(rt; is_outside(Payload::Job(*job)), "job {i}");
        assert!(rt; is_outside(Payload::Done(*job)), "done {i}");
    }
    for param in Param::ALL {
        assert!(rt; is_outside(change(param, COUNT + 1, 0)));
        assert!(rt; is_outside(change(param, u64::MAX, 0)));
        assert!(rt; is_outside(change(param, 0, TIME + 1)));
        assert!(rt; is_outside(change(param, 0, u64::MAX)));
    }
}

/// Messages in order. Each differs from the next in one part first: the time, the sender, the number, the receiver,
/// the kind of payload, and each number of a payload.
fn in_order() -> [Msg; 16] {
    [
        tick(0, 126, NUMBER),
        tick(1, 0, NUMBER),
        tick(1, 1, 0),
        tick(1, 1, 1),
        at(2, 1, Payload::Tick),
        at(2, 2, Payload::Tick),
        at(2, 64, Payload::Tick),
        at(2, 64, Payload::Job(job(1, 2, TIME))),
        at(2, 64, Payload::Job(job(1, 3, 4))),
        at(2, 64, Payload::Job(job(1, 3, 5))),
        at(2, 64, Payload::Job(job(2, 0, 0))),
        at(2, 64, Payload::Done(job(1, 0, 0))),
        at(2, 64, change(Param::Every, COUNT, TIME)),
        at(2, 64, change(Param::Weight, 1, TIME)),
        at(2, 64, change(Param::Weight, 2, 0)),
        tick(TIME, 0, 0),
    ]
}

/// Whether two messages have this order, and their packed forms have it too. The greatest packed form is the first
/// message.
fn are_ordered(one: &Msg, other: &Msg, order: Ordering) -> bool {
    match (PackedMsg::of(one), PackedMsg::of(other)) {
        (Some(a), Some(b)) => {
            one.cmp(other) == order && b.cmp(&a) == order && (a == b) == (order == Ordering::Equal)
        }
        _ => false,
    }
}

/// Whether the message at a place has the order of its place with each message.
fn is_in_place(place: usize, msg: &Msg) -> bool {
    for (i, other) in in_order().iter().enumerate() {
        if !are_ordered(msg, other, place.cmp(&i)) {
            return false;
        }
    }
    true
}

#[test]
fn packed_messages_have_the_order_of_messages(rt: HostRuntime) {
    for (i, msg) in in_order().iter().enumerate() {
        assert!(rt; is_in_place(i, msg), "place {i}");
    }
}

/// The message at a place of the order, packed.
fn packed(place: usize) -> Option<PackedMsg> {
    PackedMsg::of(in_order().get(place)?)
}

/// Adds the message at a place of the order.
fn puts(heap: &mut MsgHeap, place: usize) -> bool {
    match packed(place) {
        Some(msg) => heap.insert(msg).is_ok(),
        None => false,
    }
}

/// A heap with the messages at these places.
fn heap_of(alloc: Global, places: &[usize]) -> Option<MsgHeap> {
    let mut heap = MsgHeap::new(alloc);
    for place in places {
        if !puts(&mut heap, *place) {
            return None;
        }
    }
    Some(heap)
}

/// Whether the first message of a heap is the one at this place. It is removed.
fn gives_one(heap: &mut MsgHeap, place: usize) -> bool {
    let Some(msg) = packed(place) else {
        return false;
    };
    !heap.is_empty()
        && heap.first() == Some(msg)
        && heap.first_time() == Some(msg.time())
        && heap.take_first() == Some(msg)
}

/// Whether a heap has just the messages at these places, in this order.
fn gives(heap: &mut MsgHeap, places: &[usize]) -> bool {
    for place in places {
        if !gives_one(heap, *place) {
            return false;
        }
    }
    heap.is_empty()
        && heap.first().is_none()
        && heap.first_time().is_none()
        && heap.take_first().is_none()
}

/// Places of messages in a mixed order. Some come twice or three times.
const MIXED: &[usize] = &[
    9, 3, 15, 0, 9, 12, 6, 1, 0, 14, 8, 0, 4, 11, 15, 2, 13, 7, 5, 10, 3,
];

const ALL: &[usize] = &[0, 1, 2, 3, 4, 5, 6, 7, 8, 9, 10, 11, 12, 13, 14, 15];

/// Whether a heap returns mixed messages in order, each once, and can be filled again.
fn sorts(alloc: Global) -> bool {
    let Some(mut heap) = heap_of(alloc, MIXED) else {
        return false;
    };
    gives(&mut heap, ALL)
        && puts(&mut heap, 5)
        && puts(&mut heap, 2)
        && puts(&mut heap, 5)
        && gives(&mut heap, &[2, 5])
}

/// Whether a heap and its copy change independently.
fn copy_is_apart(alloc: Global) -> bool {
    let Some(mut heap) = heap_of(alloc, &[7, 3, 9, 3]) else {
        return false;
    };
    let Ok(mut copy) = heap.copy() else {
        return false;
    };
    gives_one(&mut heap, 3)
        && puts(&mut heap, 0)
        && puts(&mut copy, 8)
        && gives(&mut copy, &[3, 7, 8, 9])
        && gives(&mut heap, &[0, 7, 9])
}

#[test]
fn a_heap_has_each_message_once(rt: HostRuntime) {
    assert!(rt; sorts(rt.alloc()));
    assert!(rt; copy_is_apart(rt.alloc()));
}

struct Row {
    shows: &'static str,
    /// Places of the messages that are added
    adds: &'static [usize],
    /// Place of the message that replaces the first
    by: usize,
    /// Places of the messages afterwards
    gives: &'static [usize],
}

const REPLACED: &[Row] = &[
    Row {
        shows: "the only message",
        adds: &[4],
        by: 5,
        gives: &[5],
    },
    Row {
        shows: "another that comes first as well",
        adds: &[2, 9, 0],
        by: 1,
        gives: &[1, 2, 9],
    },
    Row {
        shows: "another that comes last",
        adds: &[3, 1, 7, 6],
        by: 15,
        gives: &[3, 6, 7, 15],
    },
    Row {
        shows: "a first message that was added three times",
        adds: &[0, 8, 0, 2, 0],
        by: 5,
        gives: &[2, 5, 8],
    },
    Row {
        shows: "another that is there already",
        adds: &[0, 8, 2],
        by: 8,
        gives: &[2, 8],
    },
];

/// Replaces the first message by the one at a place, which comes after it.
fn replaces(heap: &mut MsgHeap, place: usize) -> bool {
    let (Some(first), Some(other)) = (heap.first(), packed(place)) else {
        return false;
    };
    match other.cmp(&first) {
        Ordering::Less => {
            heap.replace_first(first, other);
            true
        }
        _ => false,
    }
}

/// Whether a heap has the row's messages after its first one is replaced.
fn gives_replaced(alloc: Global, row: &Row) -> bool {
    match heap_of(alloc, row.adds) {
        Some(mut heap) => replaces(&mut heap, row.by) && gives(&mut heap, row.gives),
        None => false,
    }
}

#[test]
fn a_first_message_is_replaced(rt: HostRuntime) {
    for row in REPLACED {
        assert!(rt; gives_replaced(rt.alloc(), row), "{}", row.shows);
    }
}

/// Adds the tick of a time, and each third one again.
fn puts_tick(heap: &mut MsgHeap, time: u64) -> bool {
    let Some(msg) = PackedMsg::of(&tick(time, 1, 7)) else {
        return false;
    };
    heap.insert(msg).is_ok() && (time % 3 != 0 || heap.insert(msg).is_ok())
}

/// A heap with the ticks of the first thousand times, added in a mixed order.
fn thousand(alloc: Global) -> Option<MsgHeap> {
    let mut heap = MsgHeap::new(alloc);
    for i in 0..1_000u64 {
        if !puts_tick(&mut heap, i * 389 % 1_000) {
            return None;
        }
    }
    Some(heap)
}

/// Whether a heap has one message for each of the first thousand times.
fn has_thousand(heap: &mut MsgHeap) -> bool {
    for time in 0..1_000 {
        if heap.take_first() != PackedMsg::of(&tick(time, 1, 7)) {
            return false;
        }
    }
    heap.is_empty()
}

#[test]
fn a_large_heap_has_its_messages_in_order(rt: HostRuntime) {
    match thousand(rt.alloc()) {
        Some(mut heap) => assert!(rt; has_thousand(&mut heap)),
        None => assert!(rt; false),
    }
}
