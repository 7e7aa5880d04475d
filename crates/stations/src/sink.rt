//! Sinks: the departures from the network, and the sum of their times in system.
ghost use Rattle.std.specs.Prelude.{◌≡◌, ◌<◌};
ghost use Rattle.net_model.specs.declared.limits.TheConstants.{MAX_LIMIT};
ghost use Rattle.stations.specs.Fits.{FitsSink};
ghost use Rattle.stations.specs.Sinks.{sink_on};
ghost use Rattle.stations.specs.declared.sender.TheConstants.{MAX_EVENT_TIMES};

use crate::kind_state::SinkState;
use sim_base::Payload;

/// A sink handles a message.
pub(crate) fn sink_handles(sink: &mut SinkState, now: u64, payload: &Payload)
    requires fits { FitsSink MAX_LIMIT sink.old }
    requires time_max { now < MAX_EVENT_TIMES }
    ensures { sink.new ≡ sink_on now payload.now sink.old }
{
    if let Payload::Job(job) = payload {
        sink.got += 1;
        sink.stay += now.saturating_sub(job.born);
    }
}
