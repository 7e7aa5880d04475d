//! Tests of packed counts at their limits, and of logs in which packed and whole entries are mixed.

use crate::counts::{passed, server, sink, source};
use log_chain::Log;
use msg_heap::{PackedLine, PackedMsg};
use sim_base::{Entry, Job, Key, Line, Msg, Payload};
use std::alloc::Global;

/// The greatest number of a source, a delay or a router.
const ONE: u64 = (1 << 61) - 1;

/// The greatest number of finished jobs, and of lost ones.
const JOBS: u64 = (1 << 20) - 1;

/// The greatest number of jobs at a sink.
const GOT: u64 = (1 << 17) - 1;

/// The greatest sum of stays.
const STAY: u64 = (1 << 46) - 1;

/// Counts of each kind with the least and the greatest numbers that are packed.
fn lines_within() -> [Line; 14] {
    [
        source(0),
        source(ONE),
        server(0, 0, 0, 0),
        server(31, 0, 0, 0),
        server(0, 8_191, 0, 0),
        server(0, 0, JOBS, 0),
        server(0, 0, 0, JOBS),
        server(31, 8_191, JOBS, JOBS),
        passed(0),
        passed(ONE),
        sink(0, 0),
        sink(GOT, 0),
        sink(0, STAY),
        sink(GOT, STAY),
    ]
}

/// In each of these, one number is outside those of packed counts.
fn lines_outside() -> [Line; 16] {
    [
        source(ONE + 1),
        source(u64::MAX),
        server(32, 0, 0, 0),
        server(32, 8_191, JOBS, JOBS),
        server(0, 8_192, 0, 0),
        server(31, 8_192, JOBS, JOBS),
        server(0, 0, JOBS + 1, 0),
        server(31, 8_191, JOBS + 1, JOBS),
        server(0, 0, 0, JOBS + 1),
        server(31, 8_191, JOBS, u64::MAX),
        passed(ONE + 1),
        passed(u64::MAX),
        sink(GOT + 1, 0),
        sink(GOT + 1, STAY),
        sink(0, STAY + 1),
        sink(u64::MAX, u64::MAX),
    ]
}

/// Whether counts are packed and come back.
fn comes_back(line: &Line) -> bool {
    match PackedLine::of(line) {
        Some(packed) => packed.line() == *line,
        None => false,
    }
}

#[test]
fn counts_within_the_limits_come_back(rt: HostRuntime) {
    for (i, line) in lines_within().iter().enumerate() {
        assert!(rt; comes_back(line), "line {i}");
    }
    for (i, line) in lines_outside().iter().enumerate() {
        assert!(rt; PackedLine::of(line).is_none(), "line {i}");
    }
}

/// Whether a log of an entry with these counts returns it; None if out of memory.
fn is_kept(alloc: Global, line: Line) -> Option<bool> {
    let kept = Entry {
        line,
        ..mixed_entry(0)
    };
    let mut log = Log::new(alloc);
    match log.push(kept) {
        Ok(()) => Some(log.walk_from(0).next() == Some(kept)),
        Err(_) => None,
    }
}

#[test]
fn a_log_keeps_any_counts(rt: HostRuntime) {
    for (i, line) in lines_within().iter().enumerate() {
        assert!(rt; is_kept(rt.alloc(), *line) == Some(true), "line {i}");
    }
    for (i, line) in lines_outside().iter().enumerate() {
        assert!(rt; is_kept(rt.alloc(), *line) == Some(true), "line {i}");
    }
}

/// An entry for each number. Each third has counts that are not packed, and each seventh has such a job.
fn mixed_entry(number: u64) -> Entry {
    let stay = if number % 3 == 2 { STAY + 1 } else { number };
    let source = if number % 7 == 6 { 65 } else { 64 };
    Entry {
        msg: Msg {
            key: Key {
                time: number,
                sender: 5,
                number,
            },
            to: 6,
            payload: Payload::Job(Job {
                source,
                count: number,
                born: 0,
            }),
        },
        line: sink(number, stay),
    }
}

/// Pushes the entry of a number. Of those that are packed, each second one is pushed packed.
fn pushes(log: &mut Log, number: u64) -> bool {
    let entry = mixed_entry(number);
    match (PackedMsg::of(&entry.msg), PackedLine::of(&entry.line)) {
        (Some(msg), Some(line)) if number % 2 == 0 => log.push_packed(msg, line).is_ok(),
        _ => log.push(entry).is_ok(),
    }
}

/// Pushes the entries of the numbers from the length of a log to `end`.
fn grows(log: &mut Log, end: u64) -> bool {
    for number in log.len()..end {
        if !pushes(log, number) {
            return false;
        }
    }
    true
}

/// Whether a walk from a place on returns the entries of the numbers from there to the end.
fn has_all_from(log: &Log, at: u64) -> bool {
    let mut walk = log.walk_from(at);
    for number in at..log.len() {
        let key = walk.key();
        let want = mixed_entry(number);
        if key != Some(want.msg.key) || walk.next() != Some(want) {
            return false;
        }
    }
    walk.next().is_none()
}

/// Whether a log has the entries of the first `count` numbers, from each place on, and knows that some are whole.
fn has_all(log: &Log, count: u64) -> bool {
    for at in 0..count {
        if !has_all_from(log, at) {
            return false;
        }
    }
    log.len() == count && !log.is_packed()
}

/// Whether a log, its shared half and its copy keep all entries.
fn keep_all(alloc: Global, log: &mut Log) -> bool {
    if !grows(log, 150) || !has_all(log, 150) {
        return false;
    }
    let Ok(mut half) = log.share(alloc) else {
        return false;
    };
    if !grows(log, 300) || !grows(&mut half, 200) {
        return false;
    }
    match log.copy(alloc) {
        Ok(mut copy) => {
            grows(&mut copy, 310) && has_all(log, 300) && has_all(&half, 200) && has_all(&copy, 310)
        }
        Err(_) => false,
    }
}

#[test]
fn a_log_keeps_packed_and_whole_entries(rt: HostRuntime) {
    let mut log = Log::new(rt.alloc());
    assert!(rt; keep_all(rt.alloc(), &mut log));
}

/// Pushes the packed entries with an even number below 300.
fn grows_packed(log: &mut Log) -> bool {
    for half in 0..150u64 {
        if half % 3 != 1 && half % 7 != 3 && !pushes(log, 2 * half) {
            return false;
        }
    }
    true
}

#[test]
fn a_log_of_packed_entries_is_packed(rt: HostRuntime) {
    let mut log = Log::new(rt.alloc());
    assert!(rt; grows_packed(&mut log) && log.is_packed());
    assert!(rt; pushes(&mut log, 2) && !log.is_packed());
}
