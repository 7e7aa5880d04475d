//! The longest waiting line in the last part of a log.
ghost use Rattle.std.specs.Prelude.{◌≡◌, ◌<◌, ◌≤◌, drop, length, IfSome, IsTrue};
ghost use Rattle.net_model.specs.Net.{HasStation};
ghost use Rattle.watch_points.specs.Peaks.{IsPeak, IsPeakFrom, NoMoreWait, waiting_jobs as waiting_jobs_of};

use log_chain::Log;
use sim_base::Line;
use world_core::World;

/// The longest waiting line in the last part of a log. All watches of one clone and station share it.
#[derive(Clone, Copy, Debug, PartialEq, Eq)]
pub struct Peak {
    /// The clone of the log.
    pub clone: u32,
    /// Its station.
    pub station: u32,
    /// The place of the last part's first entry.
    pub from: u64,
    /// The number of the log's entries.
    pub len: u64,
    /// The greatest number of jobs that wait in the last part, or more.
    pub most: u64,
}

// The number of jobs that wait at a server, and 0 for another station.
fn waiting_jobs(line: Line) -> u64
    ensures value { result ≡ waiting_jobs_of line }
{
    match line {
        Line::Server { wait, .. } => wait,
        _ => 0,
    }
}

// The greatest number of jobs that wait in the entries from a place on.
fn most_waiting(log: &Log, from: u64) -> u64
    ensures at_most { NoMoreWait result (drop from log.now) }
{
    let mut walk = log.walk_from(from);
    let mut most = 0;
    'entries: while let Some(entry) = walk.next() {
        most = most.max(waiting_jobs(entry.line));
    }
    most
}

// The peak of a log from a place on. It is not inlined, so that the loop over the watches stays small.
#[inline(never)]
fn read_peak(world: &World, clone: u32, station: u32, from: u64) -> Peak
    requires in_range { clone < length world.now.clones }
    requires is_station { HasStation world.now.net station }
    ensures peak { IsPeak world.now result }
    ensures from { IsPeakFrom clone station from result }
{
    let log = world.log(clone, station);
    Peak {
        clone,
        station,
        from,
        len: log.len(),
        most: most_waiting(log, from),
    }
}

// Whether a peak is of this log, and of all entries from a place on.
fn is_peak_from(peak: &Peak, clone: u32, station: u32, from: u64) -> bool
    ensures from { IsTrue result → IsPeakFrom clone station from peak.now }
{
    peak.clone == clone && peak.station == station && peak.from <= from
}

/// The peak of a log, of all entries from a place on: the last one that was read if it has them, or a new one.
pub(crate) fn peak_from(
    last: Option<Peak>,
    world: &World,
    clone: u32,
    station: u32,
    from: u64,
) -> Peak
    requires in_range { clone < length world.now.clones }
    requires is_station { HasStation world.now.net station }
    requires last { IfSome last (IsPeak world.now) }
    ensures peak { IsPeak world.now result }
    ensures from { IsPeakFrom clone station from result }
{
    match last {
        Some(peak) if is_peak_from(&peak, clone, station, from) => peak,
        _ => read_peak(world, clone, station, from),
    }
}
