//! Entries of a log: a handled message, and the station's counts after it.

use crate::message::Msg;

/// The counts of a station after it has handled a message.
#[derive(Clone, Copy, Debug, PartialEq, Eq)]
pub enum Line {
    /// A source: jobs sent.
    Source {
        sent: u64,
    },
    /// A server: jobs in service, jobs waiting, jobs done, jobs lost because the queue was full.
    Server {
        busy: u64,
        wait: u64,
        done: u64,
        lost: u64,
    },
    /// A delay or a router: jobs passed on.
    Passed {
        passed: u64,
    },
    /// A sink: jobs that arrived, and the sum of their times in the network.
    Sink {
        got: u64,
        stay: u64,
    },
}

/// One element of a log: a handled message, and the counts after it.
#[derive(Clone, Copy, Debug, PartialEq, Eq)]
pub struct Entry<M = Msg, N = Line> {
    /// The handled message.
    pub msg: M,
    /// The station's counts after it.
    pub line: N,
}
