//! Sources: the arrival processes of the network, where its jobs come from.
ghost use Rattle.std.specs.Prelude.{◌≡◌, ◌<◌};
ghost use Rattle.arrayvec.specs.ArrayVec.{array_vec_len};
ghost use Rattle.net_model.specs.Rules.{IsRange};
ghost use Rattle.net_model.specs.declared.limits.TheConstants.{MAX_LIMIT};
ghost use Rattle.net_model.specs.Sites.{as_site};
ghost use Rattle.stations.specs.Fits.{AreLinks, FitsSource};
ghost use Rattle.stations.specs.Sending.{MaySend, outgoing, reaction};
ghost use Rattle.stations.specs.Sources.{next_tick, source_ticks, source_set, source_on};
ghost use Rattle.stations.specs.declared.sender.TheConstants.{MAX_COUNTS, MAX_SENDS};

use crate::change::takes_change;
use crate::kind_state::SourceState;
use crate::sender::{MAX_SENDS, Sender, route_job, send_to_itself};
use arrayvec::ArrayVec;
use net_model::Station;
use sim_base::{Change, Job, Msg, Payload};

/// Sends the next tick if a job is left.
pub(crate) fn send_tick(
    source: &SourceState,
    sender: &mut Sender,
    out: &mut ArrayVec<Msg, MAX_SENDS>,
    now: u64,
)
    requires may_send { MaySend 1 now sender.old (array_vec_len out.old) }
    requires range { IsRange 1 source.now.lo source.now.hi }
    ensures { next_tick now source.now (outgoing sender.old out.old.items) ≡ outgoing sender.new out.new.items }
{
    if source.sent < source.jobs {
        send_to_itself(sender, out, now, source.lo, source.hi, Payload::Tick);
    }
}

fn make_job(
    source: &mut SourceState,
    sender: &mut Sender,
    out: &mut ArrayVec<Msg, MAX_SENDS>,
    station: &Station,
    now: u64,
)
    requires may_send { MaySend 2 now sender.old (array_vec_len out.old) }
    requires links { AreLinks station.now.links.items }
    requires range { IsRange 1 source.old.lo source.old.hi }
    requires sent { source.old.sent < MAX_COUNTS }
    ensures { source_ticks (as_site station.now) now source.old (outgoing sender.old out.old.items)
        ≡ reaction source.new (outgoing sender.new out.new.items) }
{
    let job = Job {
        source: sender.station,
        count: source.sent,
        born: now,
    };
    source.sent += 1;
    route_job(sender, out, station.links.as_slice(), now, job);
    send_tick(source, sender, out, now);
}

fn set_source(source: &mut SourceState, station: &Station, change: &Change)
    ensures { source.new ≡ source_set (as_site station.now) change.now source.old }
{
    if takes_change(station, change) {
        source.lo = change.a;
        source.hi = change.b;
    }
}

/// A source handles a message.
pub(crate) fn source_handles(
    source: &mut SourceState,
    sender: &mut Sender,
    out: &mut ArrayVec<Msg, MAX_SENDS>,
    station: &Station,
    now: u64,
    payload: &Payload,
)
    requires may_send { MaySend MAX_SENDS now sender.old (array_vec_len out.old) }
    requires links { AreLinks station.now.links.items }
    requires fits { FitsSource MAX_LIMIT source.old }
    ensures { source_on (as_site station.now) now payload.now source.old (outgoing sender.old out.old.items)
        ≡ reaction source.new (outgoing sender.new out.new.items) }
{
    match payload {
        Payload::Tick => make_job(source, sender, out, station, now),
        Payload::Set(change) => set_source(source, station, change),
        Payload::Job(_) | Payload::Done(_) => {}
    }
}
