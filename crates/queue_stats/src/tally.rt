//! One walk along a server's log, which adds up all figures except the waits.
ghost use Rattle.std.specs.Prelude.{◌≡◌, ◌+◌, ◌-◌, ◌*◌, ◌≤◌, length};
ghost use Rattle.sim_base.specs.declared.limits.TheConstants.{MAX_HANDLED};
ghost use Rattle.net_model.specs.declared.limits.TheConstants.{MAX_HORIZON};
ghost use Rattle.queue_stats.specs.Moments.{busy_in, wait_in, lost_in};
ghost use Rattle.queue_stats.specs.Tallies.{is_job as is_job_of, is_done as is_done_of, is_set as is_set_of};
ghost use Rattle.queue_stats.specs.Tallies.{with_entry, tally_along, empty_tally, MayAdd, IsWithinLimits};

use log_chain::Log;
use sim_base::Entry;
use sim_base::entry::Line;
use sim_base::message::Payload;

/// The sums over the entries so far.
#[derive(Clone, Copy, Debug, PartialEq, Eq)]
pub struct Tally {
    /// Arrivals.
    pub arrived: u64,
    /// Losses.
    pub lost: u64,
    /// Departures.
    pub done: u64,
    /// Changes of parameters.
    pub changes: u64,
    /// The greatest number of waiting jobs.
    pub most: u64,
    /// The number of jobs in the system, summed over the times before the last entry.
    pub area: u64,
    /// The time of the last entry.
    pub last_time: u64,
    /// The number of jobs in the system after it.
    pub in_system: u64,
    /// Its count of lost jobs.
    pub last_lost: u64,
}

/// Whether a message is an arriving job.
pub fn is_job(payload: &Payload) -> bool
    ensures value { result ≡ is_job_of payload.now }
{
    matches!(payload, Payload::Job(_))
}

// Whether a message is the end of a service.
fn is_done(payload: &Payload) -> bool
    ensures value { result ≡ is_done_of payload.now }
{
    matches!(payload, Payload::Done(_))
}

// Whether a message is a change of a parameter.
fn is_set(payload: &Payload) -> bool
    ensures value { result ≡ is_set_of payload.now }
{
    matches!(payload, Payload::Set(_))
}

// The number of jobs in service.
fn busy_of(line: &Line) -> u64
    ensures value { result ≡ busy_in line.now }
{
    match line {
        Line::Server { busy, .. } => *busy,
        _ => 0,
    }
}

/// The number of waiting jobs.
pub fn wait_of(line: &Line) -> u64
    ensures value { result ≡ wait_in line.now }
{
    match line {
        Line::Server { wait, .. } => *wait,
        _ => 0,
    }
}

// The number of jobs lost so far.
fn lost_of(line: &Line) -> u64
    ensures value { result ≡ lost_in line.now }
{
    match line {
        Line::Server { lost, .. } => *lost,
        _ => 0,
    }
}

impl Tally {
    /// The sums with one more entry.
    pub fn add(self, entry: &Entry) -> Tally
        requires may_add { MayAdd self entry.now }
        ensures value { result ≡ with_entry self entry.now }
    {
        let lost = lost_of(&entry.line);
        let wait = wait_of(&entry.line);
        let came = is_job(&entry.msg.payload);
        Tally {
            arrived: self.arrived + u64::from(came),
            lost: self.lost + u64::from(came && self.last_lost < lost),
            done: self.done + u64::from(is_done(&entry.msg.payload)),
            changes: self.changes + u64::from(is_set(&entry.msg.payload)),
            most: self.most.max(wait),
            area: self.area + (entry.msg.key.time - self.last_time) * self.in_system,
            last_time: entry.msg.key.time,
            in_system: busy_of(&entry.line) + wait,
            last_lost: lost,
        }
    }

    /// The number of jobs in the system, summed over the times before this one.
    pub fn present(self, until: u64) -> u64
        requires until_min { self.last_time ≤ until }
        requires until_max { until ≤ MAX_HORIZON }
        requires in_system_max { self.in_system ≤ MAX_HANDLED }
        requires area_max { self.area ≤ MAX_HANDLED * self.last_time }
        ensures value { result ≡ self.area + (until - self.last_time) * self.in_system }
    {
        self.area + (until - self.last_time) * self.in_system
    }
}

/// The sums of a whole log.
pub fn tally_of(log: &Log) -> Tally
    requires within_limits { IsWithinLimits 0 log.now }
    requires entries_max { length log.now ≤ MAX_HANDLED }
    ensures value { result ≡ tally_along empty_tally log.now }
{
    let mut tally = Tally {
        arrived: 0,
        lost: 0,
        done: 0,
        changes: 0,
        most: 0,
        area: 0,
        last_time: 0,
        in_system: 0,
        last_lost: 0,
    };
    let mut walk = log.walk_from(0);
    while let Some(entry) = walk.next() {
        tally = tally.add(&entry);
    }
    tally
}
