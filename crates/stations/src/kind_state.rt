//! The state of each kind of station (a logical process). It has parameters, such as a server's queue capacity, waiting
//! jobs, and counts, such as the jobs blocked at a full queue. A sink also sums up times in system.
use crate::job_queue::JobQueue;
use arrayvec::ArrayVec;
use net_model::limits::MAX_LINKS;

/// A source: the range of its times between jobs, the number of jobs that it makes, and of those that it has sent.
#[derive(Clone, Copy, Debug, PartialEq, Eq)]
pub struct SourceState {
    pub lo: u64,
    pub hi: u64,
    pub jobs: u64,
    pub sent: u64,
}

/// A server: its parameters, and the jobs in service, waiting, done and lost.
#[derive(Drop)]
pub struct ServerState {
    pub servers: u32,
    pub room: u32,
    pub lo: u64,
    pub hi: u64,
    pub busy: u64,
    pub waiting: JobQueue,
    pub done: u64,
    pub lost: u64,
}

/// A delay: the range of its times, and the number of jobs that it has passed on.
#[derive(Clone, Copy, Debug, PartialEq, Eq)]
pub struct DelayState {
    pub lo: u64,
    pub hi: u64,
    pub passed: u64,
}

/// A router: the weights of its links, and the number of jobs that it has passed on.
#[derive(Drop)]
pub struct RouterState {
    pub weights: ArrayVec<u32, MAX_LINKS>,
    pub passed: u64,
}

/// A sink: the number of jobs that arrived, and the sum of their times in the network.
#[derive(Clone, Copy, Debug, PartialEq, Eq)]
pub struct SinkState {
    pub got: u64,
    pub stay: u64,
}

/// The state of a station except its sender: its parameters and counts, by its kind.
#[derive(Drop)]
pub enum KindState {
    Source(SourceState),
    Server(ServerState),
    Delay(DelayState),
    Router(RouterState),
    Sink(SinkState),
}
