//! The trace of a worked example, as in `specs/Examples` of the crate `stations`.

use crate::counts::{server, sink, source};
use sim_base::{Entry, Job, Key, Line, Msg, Payload};

fn at(time: u64, to: u32, sender: u32, number: u64, payload: Payload, line: Line) -> Entry {
    let key = Key {
        time,
        sender,
        number,
    };
    Entry {
        msg: Msg { key, to, payload },
        line,
    }
}

fn job(source: u32, count: u64, born: u64) -> Payload {
    Payload::Job(Job {
        source,
        count,
        born,
    })
}

fn done(source: u32, count: u64, born: u64) -> Payload {
    Payload::Done(Job {
        source,
        count,
        born,
    })
}

/// One job at a time: the second waits until the first is done.
pub fn one_desk_trace() -> [Entry; 8] {
    [
        at(3, 1, 1, 0, Payload::Tick, source(1)),
        at(5, 2, 1, 1, job(1, 0, 3), server(1, 0, 0, 0)),
        at(6, 1, 1, 2, Payload::Tick, source(2)),
        at(8, 2, 1, 3, job(1, 1, 6), server(1, 1, 0, 0)),
        at(9, 2, 2, 0, done(1, 0, 3), server(1, 0, 1, 0)),
        at(11, 3, 2, 1, job(1, 0, 3), sink(1, 8)),
        at(13, 2, 2, 2, done(1, 1, 6), server(0, 0, 2, 0)),
        at(15, 3, 2, 3, job(1, 1, 6), sink(2, 17)),
    ]
}
