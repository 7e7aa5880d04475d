//! Helpers for tables of entries: the counts of each kind of station, and a change as a message has it.

use sim_base::{Change, Line, Param, Payload};

/// A message that changes a parameter.
pub fn change(param: Param, a: u64, b: u64) -> Payload {
    Payload::Set(Change { param, a, b })
}

/// The count of a source.
pub fn source(sent: u64) -> Line {
    Line::Source { sent }
}

/// The counts of a server.
pub fn server(busy: u64, wait: u64, done: u64, lost: u64) -> Line {
    Line::Server {
        busy,
        wait,
        done,
        lost,
    }
}

/// The count of a router or a delay.
pub fn passed(passed: u64) -> Line {
    Line::Passed { passed }
}

/// The counts of a sink.
pub fn sink(got: u64, stay: u64) -> Line {
    Line::Sink { got, stay }
}
