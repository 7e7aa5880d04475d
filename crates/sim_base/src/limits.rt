//! Limits that several crates share, each named once.

/// The largest size of a model file or a script file, in bytes: 1 MiB.
pub const MAX_FILE_BYTES: usize = 1_048_576;
/// The most messages that a station may handle in one clone; also the maximal length of a log.
pub const MAX_HANDLED: u64 = 65_536;
/// The most links of a station.
pub const MAX_LINKS: usize = 16;
/// The greatest weight of a link; the least is 1.
pub const MAX_WEIGHT: u32 = 1_000;
/// The largest time in a range, delay of a link, and lookahead, in units of simulated time.
pub const MAX_TIME: u64 = 1_000_000;
/// The most workers of a run.
pub const MAX_WORKERS: u32 = 16;
/// The most analysts of a study, `main` included.
pub const MAX_ANALYSTS: u32 = 16;
