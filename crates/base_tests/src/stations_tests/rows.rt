//! Tables of messages, each with a station's reaction.

use crate::counts::{change, passed, server, sink, source};
use sim_base::{Job, Line, Param, Payload};

/// A message and the reaction to it: the counts, the number of messages sent, and when the last of them arrives.
#[derive(Clone, Copy)]
pub struct Row {
    /// The time at which it is handled.
    pub time: u64,
    /// Its payload.
    pub payload: Payload,
    /// The counts after it.
    pub line: Line,
    /// The number of messages sent.
    pub sends: usize,
    /// When the last of them arrives, if there is one.
    pub arrives: Option<u64>,
}

fn silent(time: u64, payload: Payload, line: Line) -> Row {
    Row {
        time,
        payload,
        line,
        sends: 0,
        arrives: None,
    }
}

fn sending(time: u64, payload: Payload, line: Line, sends: usize, arrives: u64) -> Row {
    Row {
        time,
        payload,
        line,
        sends,
        arrives: Some(arrives),
    }
}

fn job(count: u64) -> Payload {
    Payload::Job(Job {
        source: 1,
        count,
        born: 3,
    })
}

fn done(count: u64) -> Payload {
    Payload::Done(Job {
        source: 1,
        count,
        born: 3,
    })
}

/// After the change the next tick comes 7 later. A source accepts neither a job nor a done.
pub fn source_rows() -> [Row; 4] {
    [
        silent(2, change(Param::Every, 7, 7), source(0)),
        sending(3, Payload::Tick, source(1), 2, 10),
        silent(4, job(0), source(1)),
        silent(5, done(0), source(1)),
    ]
}

/// After the change a service takes 2. A server accepts no tick, and no done before a service has begun.
pub fn server_rows() -> [Row; 5] {
    [
        silent(3, done(0), server(0, 0, 0, 0)),
        silent(4, change(Param::Service, 2, 2), server(0, 0, 0, 0)),
        sending(5, job(0), server(1, 0, 0, 0), 1, 7),
        silent(6, Payload::Tick, server(1, 0, 0, 0)),
        sending(7, done(0), server(0, 0, 1, 0), 1, 9),
    ]
}

/// After the change a job is held for 5. A delay accepts neither a tick nor a done.
pub fn delay_rows() -> [Row; 4] {
    [
        silent(4, change(Param::Hold, 5, 5), passed(0)),
        sending(8, job(0), passed(1), 1, 15),
        silent(9, Payload::Tick, passed(1)),
        silent(9, done(0), passed(1)),
    ]
}

/// After the change the job goes over the second link. Without it, or with a change of the other link, it goes over the
/// first. A router accepts neither a tick nor a done.
pub fn router_rows() -> [Row; 4] {
    [
        silent(4, change(Param::Weight, 1, 1), passed(0)),
        sending(5, job(0), passed(1), 1, 8),
        silent(6, Payload::Tick, passed(1)),
        silent(6, done(0), passed(1)),
    ]
}

/// The job was made 5 before it arrives. A sink accepts nothing else.
pub fn sink_rows() -> [Row; 4] {
    [
        silent(8, job(0), sink(1, 5)),
        silent(9, Payload::Tick, sink(1, 5)),
        silent(9, done(0), sink(1, 5)),
        silent(9, change(Param::Room, 1, 0), sink(1, 5)),
    ]
}

/// One job begins its service.
pub fn before_the_copy() -> [Row; 1] {
    [sending(5, job(0), server(1, 0, 0, 0), 1, 9)]
}

/// The service ends at 9, and three more jobs come. Two of them are served, for 8 and 5.
pub fn at_the_original() -> [Row; 4] {
    [
        sending(9, done(0), server(0, 0, 1, 0), 1, 11),
        sending(10, job(1), server(1, 0, 1, 0), 1, 18),
        sending(11, job(2), server(2, 0, 1, 0), 1, 16),
        silent(12, job(3), server(2, 1, 1, 0)),
    ]
}

/// The service continues to 13, and the same three jobs come, when only one may wait. Two of them are served, for 8 and
/// 5 as well.
pub fn at_the_copy() -> [Row; 5] {
    [
        silent(9, change(Param::Room, 1, 0), server(1, 0, 0, 0)),
        sending(10, job(1), server(2, 0, 0, 0), 1, 18),
        silent(11, job(2), server(2, 1, 0, 0)),
        silent(12, job(3), server(2, 1, 0, 1)),
        sending(13, done(0), server(2, 0, 1, 1), 2, 18),
    ]
}

/// The messages of the copy do not change the original.
pub fn at_the_original_afterwards() -> [Row; 1] {
    [silent(14, Payload::Tick, server(2, 1, 1, 0))]
}
