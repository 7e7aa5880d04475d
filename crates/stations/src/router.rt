//! Routers: each job moves on at once, over a link that the router chooses.
ghost use Rattle.std.specs.Prelude.{◌≡◌, length, true};
ghost use Rattle.arrayvec.specs.ArrayVec.{array_vec_len};
ghost use Rattle.sim_draw.specs.Drawing.{AreWeights};
ghost use Rattle.net_model.specs.Net.{is_router};
ghost use Rattle.net_model.specs.Sites.{as_site};
ghost use Rattle.net_model.specs.declared.limits.TheConstants.{MAX_LIMIT};
ghost use Rattle.stations.specs.Fits.{AreLinks, FitsRouter};
ghost use Rattle.stations.specs.Routers.{router_job, router_set, router_on};
ghost use Rattle.stations.specs.Sending.{MaySend, outgoing, reaction};
ghost use Rattle.stations.specs.declared.sender.TheConstants.{MAX_SENDS};

use crate::change::takes_change;
use crate::kind_state::RouterState;
use crate::sender::{MAX_SENDS, Sender, link_at, pick_link, send_over_link};
use arrayvec::ArrayVec;
use net_model::Station;
use sim_base::{Change, Job, Msg, Payload};

// The next link by turn, or one by the present weights.
fn pass_job(
    router: &RouterState,
    sender: &mut Sender,
    out: &mut ArrayVec<Msg, MAX_SENDS>,
    station: &Station,
    now: u64,
    job: Job,
)
    requires may_send { MaySend 1 now sender.old (array_vec_len out.old) }
    requires links { AreLinks station.now.links.items }
    requires weights { AreWeights router.now.weights.items }
    requires same { length router.now.weights.items ≡ length station.now.links.items }
    ensures { router_job (as_site station.now) now job router.now (outgoing sender.old out.old.items)
        ≡ outgoing sender.new out.new.items }
{
    let links = station.links.as_slice();
    let link = if station.kind.by_turn() {
        link_at(links, (router.passed % links.len() as u64) as usize)
    } else {
        pick_link(sender, links, router.weights.as_slice())
    };
    send_over_link(sender, out, &link, now, job);
}

fn set_router(router: &mut RouterState, station: &Station, change: &Change)
    requires kind { is_router station.now.kind ≡ true }
    requires same { length router.old.weights.items ≡ length station.now.links.items }
    ensures { router.new ≡ router_set (as_site station.now) change.now router.old }
{
    if takes_change(station, change) {
        router.weights[change.a as usize - 1] = change.b as u32;
    }
}

/// A router handles a message.
pub(crate) fn router_handles(
    router: &mut RouterState,
    sender: &mut Sender,
    out: &mut ArrayVec<Msg, MAX_SENDS>,
    station: &Station,
    now: u64,
    payload: &Payload,
)
    requires may_send { MaySend MAX_SENDS now sender.old (array_vec_len out.old) }
    requires links { AreLinks station.now.links.items }
    requires fits { FitsRouter MAX_LIMIT router.old }
    requires same { length router.old.weights.items ≡ length station.now.links.items }
    requires kind { is_router station.now.kind ≡ true }
    ensures { router_on (as_site station.now) now payload.now router.old (outgoing sender.old out.old.items)
        ≡ reaction router.new (outgoing sender.new out.new.items) }
{
    match payload {
        Payload::Job(job) => {
            pass_job(router, sender, out, station, now, *job);
            router.passed += 1;
        }
        Payload::Set(change) => set_router(router, station, change),
        Payload::Tick | Payload::Done(_) => {}
    }
}
