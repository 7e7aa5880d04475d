//! The greatest values that a model may have, each named once, and the test for ranges of times.
ghost use Rattle.std.specs.Prelude.{◌≡◌};
ghost use Rattle.net_model.specs.Rules.{is_range as is_range_of};

use sim_base::limits::MAX_HANDLED;

/// Stations of a model.
pub const MAX_STATIONS: usize = 64;
/// Links of a station.
pub const MAX_LINKS: usize = sim_base::limits::MAX_LINKS;
/// A time of a range, the delay of a link, and the lookahead, in units of simulated time.
pub const MAX_TIME: u64 = sim_base::limits::MAX_TIME;
/// The horizon, in units of simulated time.
pub const MAX_HORIZON: u64 = 1_000_000_000;
/// The seed of all draws, and the number of a station's stream.
pub const MAX_SEED: u64 = 9_223_372_036_854_775_807;
/// The greatest limit of a model, and so the most messages that a station handles in one clone.
pub const MAX_LIMIT: u64 = MAX_HANDLED;
/// The limit of a model without one.
pub const USUAL_LIMIT: u64 = 16_384;
/// Jobs that a source makes.
pub const MAX_JOBS: u64 = 1_000_000;
/// The class of a source's jobs, which is 1 or more.
pub const MAX_CLASS: u64 = 4;
/// Jobs that a server serves at a time.
pub const MAX_SERVERS: u64 = 16;
/// Jobs that wait at a server: its queue capacity.
pub const MAX_ROOM: u64 = 4_096;
/// The weight of a link, which is 1 or more.
pub const MAX_WEIGHT: u64 = sim_base::limits::MAX_WEIGHT as u64;

/// Whether the times from `lo` to `hi` are a range: no less than `low`, in order, and no more than [`MAX_TIME`].
pub fn is_range(low: u64, lo: u64, hi: u64) -> bool
    ensures { result ≡ is_range_of low lo hi }
{
    low <= lo && lo <= hi && hi <= MAX_TIME
}
