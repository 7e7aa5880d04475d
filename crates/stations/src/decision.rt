//! The message that carries an analyst's decision to a station.
ghost use Rattle.std.specs.Prelude.{◌≡◌};
ghost use Rattle.stations.specs.Runs.{set_message as set_message'};

use sim_base::{Key, Msg, Payload, Planned};

/// The message of the decision at place k of a clone's list.
pub fn set_message(k: usize, plan: Planned) -> Msg
    ensures value { result ≡ set_message' k plan }
{
    Msg {
        key: Key {
            time: plan.at,
            sender: 0,
            number: k as u64,
        },
        to: plan.station,
        payload: Payload::Set(plan.change),
    }
}
