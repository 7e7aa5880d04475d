//! The statistics of a server in the run of a clone.
ghost use Rattle.std.specs.Prelude.{◌≡◌, ◌≤◌, ◌<◌, ◌+◌, ◌-◌, ◌*◌, length, IsSome, Some, None, true, if◌then◌else◌};
ghost use Rattle.std.specs.Prelude.{◌&&◌, ◌==◌};
ghost use Rattle.sim_base.specs.declared.limits.TheConstants.{MAX_HANDLED};
ghost use Rattle.net_model.specs.declared.limits.TheConstants.{MAX_HORIZON};
ghost use Rattle.net_model.specs.Net.{HasStation, site_of};
ghost use Rattle.queue_stats.specs.Moments.{moments};
ghost use Rattle.queue_stats.specs.Figures.{time_in_system};
ghost use Rattle.queue_stats.specs.Queues.{IsServerQueue};
ghost use Rattle.queue_stats.specs.Lindley.{IsLindley};
ghost use Rattle.queue_stats.specs.Orders.{VisitsEndInOrder};
ghost use Rattle.queue_stats.specs.Tallies.{IsWithinLimits};
ghost use Rattle.queue_stats.specs.Trails.{waits_along_log};
ghost use Rattle.queue_stats.specs.Stats.{stats, server_stats};
ghost use Rattle.queue_stats.specs.CommonLogs.{HaveCommonLog};
ghost use Rattle.queue_stats.specs.Laws.{IsLogOf, is_server, is_single_by_arrival as is_single_by_arrival_of};

use crate::tally::{Tally, tally_of};
use crate::waits::{Waits, waits_of};
use log_chain::Log;
use net_model::{Kind, Model};

/// The statistics of one server in one clone.
#[derive(Clone, Copy, Debug, PartialEq, Eq)]
pub struct Stats {
    /// Arrivals, including lost ones.
    pub arrived: u64,
    /// Arrivals that were lost, since the waiting room was full.
    pub lost: u64,
    /// Departures.
    pub done: u64,
    /// The greatest number of waiting jobs.
    pub most: u64,
    /// The number of jobs in the system, summed over the times before the end.
    pub present: u64,
    /// The waits. None unless one server serves by arrival, no parameter changed, and no job was lost.
    pub waits: Option<Waits>,
}

// The sum continued to another time; the number in the system is constant from the earlier of the two times on.
fn present_until(present: u64, in_system: u64, from: u64, until: u64) -> u64
    requires later_max { from ≤ until → present + (until - from) * in_system ≤ MAX_HANDLED * MAX_HORIZON }
    requires earlier_max { until < from → (from - until) * in_system ≤ present }
    ensures later { from ≤ until → result ≡ present + (until - from) * in_system }
    ensures earlier { until < from → result + (from - until) * in_system ≡ present }
{
    if from <= until {
        present + (until - from) * in_system
    } else {
        present - (from - until) * in_system
    }
}

impl Stats {
    /// The statistics of the same log until the time `until`, from these, which are until `from`. Only `present`
    /// differs, since neither time is before an entry. It needs no walk.
    pub fn with_end(self, from: u64, until: u64) -> Stats
        requires common { HaveCommonLog self from until }
        ensures value { (c : HaveCommonLog self from until) → result ≡ server_stats c.net c.station until c.log }
    {
        let in_system = self.arrived - self.lost - self.done;
        Stats {
            arrived: self.arrived,
            lost: self.lost,
            done: self.done,
            most: self.most,
            present: present_until(self.present, in_system, from, until),
            waits: self.waits,
        }
    }
}

// Whether a station is a single server that serves by arrival.
fn is_single_by_arrival(kind: &Kind) -> bool
    ensures value { result ≡ is_single_by_arrival_of kind.now }
{
    match *kind {
        Kind::Server {
            servers,
            by_class,
            ..
        } => servers == 1 && !by_class,
        _ => false,
    }
}

// Whether waits are reported: at a single server by arrival, if no parameter changed and no job was lost.
fn reports_waits(single: bool, tally: &Tally) -> bool
    ensures value { result ≡ (single && (tally.now.changes == 0 && tally.now.lost == 0)) }
{
    single && (tally.changes == 0 && tally.lost == 0)
}

// The waits of a log if they are reported.
fn waits_if(reported: bool, log: &Log) -> Option<Waits>
    requires within_limits { IsWithinLimits 0 log.now }
    requires entries_max { length log.now ≤ MAX_HANDLED }
    ensures value { result ≡ (if reported then Some (waits_along_log log.now) else None) }
{
    if reported { Some(waits_of(log)) } else { None }
}

// The statistics of a queue's log until a time.
fn stats_until(single: bool, log: &Log, until: u64) -> Stats
    requires queue { IsServerQueue single until log.now }
    requires until_max { until ≤ MAX_HORIZON }
    requires entries_max { length log.now ≤ MAX_HANDLED }
    ensures value { result ≡ stats single until log.now }
    ensures little { result.present ≡ time_in_system until (moments log.now) }
    ensures lindley { IsSome result.waits → IsLindley (moments log.now) }
{
    let tally = tally_of(log);
    let reported = reports_waits(single, &tally);
    Stats {
        arrived: tally.arrived,
        lost: tally.lost,
        done: tally.done,
        most: tally.most,
        present: tally.present(until),
        waits: waits_if(reported, log),
    }
}

/// The statistics of a server from its log in a clone, until a front or the clone's end, whichever is earlier.
///
/// Their `present` keeps Little's law. Reported waits keep Lindley's equation, in which the n-th arrival and the n-th
/// departure are then those of one visit.
pub fn stats_of(model: &Model, station: u32, log: &Log, until: u64) -> Stats
    requires is_station { HasStation model.now station }
    requires server { is_server (site_of model.now station).kind ≡ true }
    requires of_run { IsLogOf model.now station until log.now }
    requires entries_max { length log.now ≤ model.now.limit }
    ensures value { result ≡ server_stats model.now station until log.now }
    ensures little { result.present ≡ time_in_system until (moments log.now) }
    ensures lindley { IsSome result.waits → IsLindley (moments log.now) }
    ensures order { IsSome result.waits → VisitsEndInOrder (moments log.now) }
{
    stats_until(
        is_single_by_arrival(&model.station(station).kind),
        log,
        until,
    )
}
