//! Delays: each job is held for a time, independently of the others.
ghost use Rattle.std.specs.Prelude.{◌≡◌};
ghost use Rattle.arrayvec.specs.ArrayVec.{array_vec_len};
ghost use Rattle.net_model.specs.Rules.{IsRange};
ghost use Rattle.net_model.specs.declared.limits.TheConstants.{MAX_LIMIT};
ghost use Rattle.net_model.specs.Sites.{as_site};
ghost use Rattle.stations.specs.Delays.{delay_job, delay_set, delay_on};
ghost use Rattle.stations.specs.Fits.{AreLinks, FitsDelay};
ghost use Rattle.stations.specs.Sending.{MaySend, outgoing, reaction};
ghost use Rattle.stations.specs.declared.sender.TheConstants.{MAX_SENDS};

use crate::change::takes_change;
use crate::kind_state::DelayState;
use crate::sender::{MAX_SENDS, Sender, pick_by_model, send_over_link};
use arrayvec::ArrayVec;
use net_model::Station;
use sim_base::{Change, Job, Msg, Payload};

// The link is picked before the time is drawn.
fn hold_job(
    delay: &DelayState,
    sender: &mut Sender,
    out: &mut ArrayVec<Msg, MAX_SENDS>,
    station: &Station,
    now: u64,
    job: Job,
)
    requires may_send { MaySend 1 now sender.old (array_vec_len out.old) }
    requires links { AreLinks station.now.links.items }
    requires range { IsRange 0 delay.now.lo delay.now.hi }
    ensures { delay_job (as_site station.now) now job delay.now (outgoing sender.old out.old.items)
        ≡ outgoing sender.new out.new.items }
{
    let link = pick_by_model(sender, station.links.as_slice());
    let held = sender.draws.range(delay.lo, delay.hi);
    send_over_link(sender, out, &link, now + held, job);
}

fn set_delay(delay: &mut DelayState, station: &Station, change: &Change)
    ensures { delay.new ≡ delay_set (as_site station.now) change.now delay.old }
{
    if takes_change(station, change) {
        delay.lo = change.a;
        delay.hi = change.b;
    }
}

/// A delay handles a message.
pub(crate) fn delay_handles(
    delay: &mut DelayState,
    sender: &mut Sender,
    out: &mut ArrayVec<Msg, MAX_SENDS>,
    station: &Station,
    now: u64,
    payload: &Payload,
)
    requires may_send { MaySend MAX_SENDS now sender.old (array_vec_len out.old) }
    requires links { AreLinks station.now.links.items }
    requires fits { FitsDelay MAX_LIMIT delay.old }
    ensures { delay_on (as_site station.now) now payload.now delay.old (outgoing sender.old out.old.items)
        ≡ reaction delay.new (outgoing sender.new out.new.items) }
{
    match payload {
        Payload::Job(job) => {
            hold_job(delay, sender, out, station, now, *job);
            delay.passed += 1;
        }
        Payload::Set(change) => set_delay(delay, station, change),
        Payload::Tick | Payload::Done(_) => {}
    }
}
