//! The sender of a station, and how it sends.
ghost use Rattle.std.specs.Prelude.{◌≡◌, ◌<◌, ◌≤◌, ◌*◌, length, slice_get, Some};
ghost use Rattle.arrayvec.specs.ArrayVec.{array_vec_len};
ghost use Rattle.sim_draw.specs.Drawing.{AreWeights, pick_of, after_pick_by};
ghost use Rattle.net_model.specs.Rules.{IsRange};
ghost use Rattle.net_model.specs.declared.limits.TheConstants.{MAX_LINKS, MAX_TIME};
ghost use Rattle.stations.specs.Fits.{AreLinks};
ghost use Rattle.stations.specs.Sending.{MaySend, outgoing, send, send_later, send_over, route, weights_of};
ghost use Rattle.stations.specs.declared.sender.TheConstants.{MAX_COUNTS, MAX_EVENT_TIMES, MAX_SENDS};

use arrayvec::ArrayVec;
use net_model::Link;
use net_model::limits::{MAX_LINKS, MAX_SERVERS};
use sim_base::{Job, Key, Msg, Payload};
use sim_draw::{Draws, MAX_DRAWS};

/// The most messages that a station sends for one that it handles. It is the most servers: one change may add them all,
/// and each takes a waiting job.
pub const MAX_SENDS: usize = MAX_SERVERS as usize;

/// The number of times at which a station may handle a message: 31 bits, more than the greatest horizon.
pub const MAX_EVENT_TIMES: u64 = 2_147_483_648;

/// A sink may be restored with a sum of stays below this number: 48 bits, more than the sum of any run.
pub const MAX_STAY_SUM: u64 = 281_474_976_710_656;

/// The number of sequence numbers of a station, of its draws, and of values of each count: 32 bits.
pub const MAX_COUNTS: u64 = MAX_DRAWS;

/// A station's number, its count of sent messages, and its draws.
#[derive(Drop)]
pub struct Sender {
    pub station: u32,
    pub next: u64,
    pub draws: Draws,
}

/// Sends a message, with the sender's next number.
pub(crate) fn send_message(
    sender: &mut Sender,
    out: &mut ArrayVec<Msg, MAX_SENDS>,
    time: u64,
    to: u32,
    payload: Payload,
)
    requires free { array_vec_len out.old < MAX_SENDS }
    requires next { sender.old.next < MAX_COUNTS }
    ensures { send time to payload (outgoing sender.old out.old.items) ≡ outgoing sender.new out.new.items }
{
    out.push(Msg {
        key: Key {
            time,
            sender: sender.station,
            number: sender.next,
        },
        to,
        payload,
    });
    sender.next += 1;
}

/// Sends a message to the station itself, after a time drawn from `lo` to `hi`.
pub(crate) fn send_to_itself(
    sender: &mut Sender,
    out: &mut ArrayVec<Msg, MAX_SENDS>,
    now: u64,
    lo: u64,
    hi: u64,
    payload: Payload,
)
    requires may_send { MaySend 1 now sender.old (array_vec_len out.old) }
    requires range { IsRange 1 lo hi }
    ensures { send_later now lo hi payload (outgoing sender.old out.old.items) ≡ outgoing sender.new out.new.items }
{
    let wait = sender.draws.range(lo, hi);
    let station = sender.station;
    send_message(sender, out, now + wait, station, payload);
}

/// Sends a job over a link, from `time` on; it takes the link's delay.
pub(crate) fn send_over_link(
    sender: &mut Sender,
    out: &mut ArrayVec<Msg, MAX_SENDS>,
    link: &Link,
    time: u64,
    job: Job,
)
    requires free { array_vec_len out.old < MAX_SENDS }
    requires next { sender.old.next < MAX_COUNTS }
    requires delay_max { link.now.delay ≤ MAX_TIME }
    requires time_max { time < 2 * MAX_EVENT_TIMES }
    ensures { send_over (Some link.now) time job (outgoing sender.old out.old.items)
        ≡ outgoing sender.new out.new.items }
{
    send_message(sender, out, time + link.delay, link.to, Payload::Job(job));
}

/// Picks a link by weights, one for each link.
pub(crate) fn pick_link(sender: &mut Sender, links: &[Link], weights: &[u32]) -> Link
    requires valid { AreWeights weights.now }
    requires same { length weights.now ≡ length links.now }
    requires draws { sender.old.draws.count < MAX_COUNTS }
    ensures link { slice_get links.now (pick_of weights.now sender.old.draws) ≡ Some result }
    ensures drawn { sender.new ≡ record sender.old { draws = after_pick_by weights.now sender.old.draws } }
{
    let place = sender.draws.pick(weights);
    link_at(links, place)
}

pub(crate) fn link_at(links: &[Link], place: usize) -> Link
    requires { place < length links.now }
    ensures { slice_get links.now place ≡ Some result }
{
    links[place]
}

/// The weights of links, as in the model.
pub(crate) fn link_weights(links: &[Link]) -> ArrayVec<u32, MAX_LINKS>
    requires { length links.now ≤ MAX_LINKS }
    ensures { result.items ≡ weights_of links.now }
{
    let mut weights = ArrayVec::new();
    for link in links {
        weights.push(link.weight);
    }
    weights
}

/// Picks a link by the weights of the model; with one link it draws nothing.
pub(crate) fn pick_by_model(sender: &mut Sender, links: &[Link]) -> Link
    requires valid { AreLinks links.now }
    requires draws { sender.old.draws.count < MAX_COUNTS }
    ensures link { slice_get links.now (pick_of (weights_of links.now) sender.old.draws) ≡ Some result }
    ensures drawn { sender.new ≡ record sender.old { draws = after_pick_by (weights_of links.now) sender.old.draws } }
    ensures delay_max { result.delay ≤ MAX_TIME }
{
    if links.len() == 1 {
        return links[0];
    }
    let weights = link_weights(links);
    pick_link(sender, links, weights.as_slice())
}

/// Sends a job over one of the links, by the weights of the model.
pub(crate) fn route_job(
    sender: &mut Sender,
    out: &mut ArrayVec<Msg, MAX_SENDS>,
    links: &[Link],
    now: u64,
    job: Job,
)
    requires may_send { MaySend 1 now sender.old (array_vec_len out.old) }
    requires valid { AreLinks links.now }
    ensures { route links.now now job (outgoing sender.old out.old.items) ≡ outgoing sender.new out.new.items }
{
    let link = pick_by_model(sender, links);
    send_over_link(sender, out, &link, now, job);
}
