//! When enough jobs first wait at a server.
ghost use Rattle.std.specs.Prelude.{◌≡◌, drop};
ghost use Rattle.watch_points.specs.Due.{due_in};
ghost use Rattle.watch_points.specs.Triggers.{enough_wait as enough_wait_of, time_of};

use log_chain::Log;
use sim_base::Line;

fn enough_wait(line: Line, least: u64) -> bool
    ensures value { result ≡ enough_wait_of least line }
{
    match line {
        Line::Server { wait, .. } => least <= wait,
        _ => false,
    }
}

/// The time of the first entry, at the start or later, at which at least `least` jobs wait. The entries before a place
/// of the log are left out.
pub(crate) fn first_wait(log: &Log, from: u64, start: u64, least: u64) -> Option<u64>
    ensures value { result ≡ due_in time_of (enough_wait_of least) start (drop from log.now) }
{
    let mut walk = log.walk_from(from);
    'entries: while let Some(entry) = walk.next() {
        let time = entry.msg.key.time;
        if start <= time && enough_wait(entry.line, least) {
            return Some(time);
        }
    }
    None
}
