//! The waits at a single server that serves by arrival: two walks along its log, the second from arrival to arrival.
//!
//! Jobs are served in order of arrival, so the next service start is that of the next arrival. The first walk finds the
//! service starts, and the second their arrivals.
ghost use Rattle.std.specs.Prelude.{◌≡◌, ◌+◌, ◌*◌, ◌≤◌, length};
ghost use Rattle.sim_base.specs.declared.limits.TheConstants.{MAX_HANDLED};
ghost use Rattle.net_model.specs.declared.limits.TheConstants.{MAX_HORIZON};
ghost use Rattle.queue_stats.specs.Tallies.{IsWithinLimits};
ghost use Rattle.queue_stats.specs.Trails.{first_arrival, after_first_arrival, with_wait, waits_along_log};

use crate::tally::{is_job, wait_of};
use log_chain::{Log, Walk};

/// The waits of the visits that have started, in units of simulated time.
#[derive(Clone, Copy, Debug, PartialEq, Eq)]
pub struct Waits {
    /// Their sum.
    pub waited: u64,
    /// The longest of them, or 0.
    pub longest: u64,
}

impl Waits {
    // These waits, and one more.
    fn with(self, wait: u64) -> Waits
        requires sum_max { self.waited + wait ≤ MAX_HANDLED * MAX_HORIZON }
        ensures value { result ≡ with_wait self wait }
    {
        Waits {
            waited: self.waited + wait,
            longest: self.longest.max(wait),
        }
    }
}

// The time of the next arrival, which the walk passes; 0 if there is none.
fn next_arrival(walk: &mut Walk<'_>) -> u64
    ensures value { result ≡ first_arrival walk.old }
    ensures rest { walk.new ≡ after_first_arrival walk.old }
{
    while let Some(entry) = walk.next() {
        if is_job(&entry.msg.payload) {
            return entry.msg.key.time;
        }
    }
    0
}

// The waits of the visits of a log.
pub(crate) fn waits_of(log: &Log) -> Waits
    requires within_limits { IsWithinLimits 0 log.now }
    requires entries_max { length log.now ≤ MAX_HANDLED }
    ensures value { result ≡ waits_along_log log.now }
{
    let mut lead = log.walk_from(0);
    let mut trail = log.walk_from(0);
    let mut came: u64 = 0;
    let mut started: u64 = 0;
    let mut waits = Waits {
        waited: 0,
        longest: 0,
    };
    while let Some(entry) = lead.next() {
        came += u64::from(is_job(&entry.msg.payload));
        if started < came.saturating_sub(wait_of(&entry.line)) {
            let arrival = next_arrival(&mut trail);
            waits = waits.with(entry.msg.key.time.saturating_sub(arrival));
            started += 1;
        }
    }
    waits
}
