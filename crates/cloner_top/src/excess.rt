//! Limits that a run exceeds while it handles messages, or with what it has to write.
ghost use Rattle.std.specs.Prelude.{◌≡◌};
ghost use Rattle.cloner_top.specs.Stops.{excess_line, excess_status, limit_line, long_snapshot_line};

use crate::error_line::ErrorLine;
use sim_base::Name;

/// The limit that a run exceeded.
#[derive(Clone, Copy, Debug, PartialEq, Eq)]
pub enum Excess {
    /// The log of this station in this clone got longer than the limit.
    LimitMet {
        limit: u64,
        station: Name,
        clone: Name,
    },
    /// The text of the snapshot would be longer than a file may be.
    LongSnapshot,
}

// The error line for an exceeded limit.
fn line_of_limit(limit: u64, station: &Name, clone: &Name) -> ErrorLine
    ensures { result ≡ limit_line limit station.now clone.now }
{
    let mut line = ErrorLine::new();
    line.push("cloner: limit ");
    line.push_number(limit);
    line.push(" met at station ");
    line.push_name(station);
    line.push(" in clone ");
    line.push_name(clone);
    line.push("\n");
    line
}

// The error line for a snapshot that is too long.
fn line_of_long_snapshot() -> ErrorLine
    ensures { result ≡ long_snapshot_line }
{
    let mut line = ErrorLine::new();
    line.push("cloner: snapshot too long\n");
    line
}

impl Excess {
    /// Returns the exit status.
    pub fn status(&self) -> u8
        ensures { result ≡ excess_status self.now }
    {
        match self {
            Excess::LimitMet { .. } => 7,
            Excess::LongSnapshot => 11,
        }
    }

    /// Returns the error line.
    pub fn line(&self) -> ErrorLine
        ensures { result ≡ excess_line self.now }
    {
        match self {
            Excess::LimitMet {
                limit,
                station,
                clone,
            } => line_of_limit(*limit, station, clone),
            Excess::LongSnapshot => line_of_long_snapshot(),
        }
    }
}
