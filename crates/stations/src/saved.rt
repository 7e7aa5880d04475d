//! The state of a station as plain data.
use crate::job_line::JobLine;
use arrayvec::ArrayVec;
use net_model::limits::MAX_LINKS;

/// The state of a station of each kind: its present parameters, its counts, and the waiting jobs. The number of jobs
/// that a source makes is the model's, which no decision changes.
#[derive(Drop)]
pub enum Shape {
    Source {
        lo: u64,
        hi: u64,
        sent: u64,
    },
    Server {
        servers: u32,
        room: u32,
        lo: u64,
        hi: u64,
        busy: u64,
        done: u64,
        lost: u64,
        line: JobLine,
    },
    Delay {
        lo: u64,
        hi: u64,
        passed: u64,
    },
    Router {
        passed: u64,
        weights: ArrayVec<u32, MAX_LINKS>,
    },
    Sink {
        got: u64,
        stay: u64,
    },
}

/// The state of a station as plain data: the number of its next message, the counts of drawn words and handled
/// messages, and its shape.
#[derive(Drop)]
pub struct Saved {
    pub next: u64,
    pub drawn: u64,
    pub handled: u64,
    pub shape: Shape,
}

/// Why plain data restores no state.
#[derive(Clone, Copy, Debug, PartialEq, Eq)]
pub enum RestoreFault {
    /// Out of memory.
    NoMemory,
    /// The data is not a state of this station.
    Unfit,
}
