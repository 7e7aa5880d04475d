//! The lesser of two due times (time stamps of next events), and the end of the window of the least one.
ghost use Rattle.std.specs.Prelude.{◌≡◌};
ghost use Rattle.net_model.specs.Rules.{IsNet};
ghost use Rattle.run_laws.specs.Fronts.{earlier as earlier', window_end as window_end'};
ghost use Rattle.stations.specs.Runs.{simulation};

use net_model::Model;

/// The lesser of two times that may be missing.
pub fn earlier(a: Option<u64>, b: Option<u64>) -> Option<u64>
    ensures value { result ≡ earlier' a b }
{
    match a {
        Some(first) => match b {
            Some(second) => Some(first.min(second)),
            None => Some(first),
        },
        None => b,
    }
}

/// The end of a window whose least message has this time: the lookahead later, and at most the horizon.
pub fn window_end(model: &Model, least: Option<u64>) -> u64
    ensures value { result ≡ window_end' (simulation model.now) least }
    ensures valid { IsNet model.now }
{
    let horizon = model.horizon();
    match least {
        None => horizon,
        Some(time) => horizon.min(time.saturating_add(model.lookahead())),
    }
}
