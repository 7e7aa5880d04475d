//! How stations handle packed messages other than changes.
ghost use Rattle.std.specs.Prelude.{◌≡◌, ◌+◌, ◌*◌, ◌<◌, ◌≤◌, [], ◌∷◌, ◌++◌, List, length, slice_get, Some, true};
ghost use Rattle.sim_base.specs.declared.message.Msg.{Msg};
ghost use Rattle.sim_base.specs.declared.message.Payload.TheVariants as payload;
ghost use Rattle.sim_base.specs.declared.message.TheConstants.{WORD_NUMBERS, WORD_TIMES};
ghost use Rattle.sim_draw.specs.Drawing.{AreWeights, pick_of, after_pick_by};
ghost use Rattle.msg_heap.specs.Contents.{as_payload};
ghost use Rattle.net_model.specs.Net.{is_router};
ghost use Rattle.net_model.specs.Rules.{IsRange};
ghost use Rattle.net_model.specs.Sites.{as_site};
ghost use Rattle.net_model.specs.declared.limits.TheConstants.{MAX_LIMIT, MAX_STATIONS, MAX_TIME, MAX_HORIZON};
ghost use Rattle.stations.specs.Delays.{delay_job, delay_on};
ghost use Rattle.stations.specs.Fits.{FitsSource, FitsDelay, FitsRouter, FitsSink};
ghost use Rattle.stations.specs.Quick.{as_list, sends_of, MayPack, AreShortLinks};
ghost use Rattle.stations.specs.Routers.{router_job, router_on};
ghost use Rattle.stations.specs.Sending.{outgoing, reaction, send_later, send_over, route, weights_of};
ghost use Rattle.stations.specs.Sinks.{sink_on};
ghost use Rattle.stations.specs.Sources.{next_tick, source_ticks, source_on};
ghost use Rattle.stations.specs.declared.sender.TheConstants.{MAX_COUNTS};

use crate::kind_state::{DelayState, RouterState, SinkState, SourceState};
use crate::quick_sends::QuickSends;
use crate::sender::{Sender, pick_by_model};
use msg_heap::{Content, OptionalMsg, PackedJob, PackedMsg};
use net_model::{Link, Station};
use sim_base::{Job, Key};

// Sends a job over a link, from `time` on.
#[inline(always)]
fn send_job(sender: &mut Sender, link: &Link, time: u64, job: PackedJob) -> PackedMsg
    requires station_min { 1 ≤ sender.old.station }
    requires station_max { sender.old.station ≤ MAX_STATIONS }
    requires next_max { sender.old.next < WORD_NUMBERS }
    requires time_max { time + link.now.delay < WORD_TIMES }
    requires to_min { 1 ≤ link.now.to }
    requires to_max { link.now.to ≤ MAX_STATIONS }
    ensures sent { (sends : List Msg) → send_over (Some link.now) time job (outgoing sender.old sends)
        ≡ outgoing sender.new (sends ++ result ∷ []) }
    ensures station { sender.new.station ≡ sender.old.station }
    ensures next { sender.new.next ≡ sender.old.next + 1 }
    ensures draws { sender.new.draws ≡ sender.old.draws }
{
    let key = Key {
        time: time + link.delay,
        sender: sender.station,
        number: sender.next,
    };
    sender.next += 1;
    PackedMsg::with_job(key, link.to, job)
}

// Sends the next tick of a source, after a time drawn from `lo` to `hi`.
#[inline(always)]
fn send_tick(sender: &mut Sender, now: u64, lo: u64, hi: u64) -> PackedMsg
    requires may_pack { MayPack 1 now sender.old }
    requires range { IsRange 1 lo hi }
    ensures sent { (sends : List Msg) → send_later now lo hi payload.Tick (outgoing sender.old sends)
        ≡ outgoing sender.new (sends ++ result ∷ []) }
{
    let wait = sender.draws.range(lo, hi);
    let key = Key {
        time: now + wait,
        sender: sender.station,
        number: sender.next,
    };
    sender.next += 1;
    PackedMsg::tick(key, sender.station)
}

// Sends the end of a job's service, after a time drawn from `lo` to `hi`.
#[inline(always)]
pub(crate) fn send_done(
    sender: &mut Sender,
    now: u64,
    lo: u64,
    hi: u64,
    job: PackedJob,
) -> PackedMsg
    requires may_pack { MayPack 1 now sender.old }
    requires range { IsRange 1 lo hi }
    ensures sent { (sends : List Msg) → send_later now lo hi (payload.Done job) (outgoing sender.old sends)
        ≡ outgoing sender.new (sends ++ result ∷ []) }
{
    let wait = sender.draws.range(lo, hi);
    let key = Key {
        time: now + wait,
        sender: sender.station,
        number: sender.next,
    };
    sender.next += 1;
    PackedMsg::with_done(key, sender.station, job)
}

// Picks a link by the weights of the model; with one link it draws nothing.
#[inline(always)]
fn pick_short(sender: &mut Sender, links: &[Link]) -> Link
    requires valid { AreShortLinks links.now }
    requires draws { sender.old.draws.count < MAX_COUNTS }
    ensures link { slice_get links.now (pick_of (weights_of links.now) sender.old.draws) ≡ Some result }
    ensures drawn { sender.new ≡ record sender.old { draws = after_pick_by (weights_of links.now) sender.old.draws } }
    ensures delay_max { result.delay ≤ MAX_TIME }
    ensures to_min { 1 ≤ result.to }
    ensures to_max { result.to ≤ MAX_STATIONS }
    ensures count { sender.new.draws.count ≤ sender.old.draws.count + 1 }
{
    pick_by_model(sender, links)
}

// Sends a job over one of the links, by the weights of the model.
#[inline(always)]
pub(crate) fn route_quick(
    sender: &mut Sender,
    links: &[Link],
    now: u64,
    job: PackedJob,
) -> PackedMsg
    requires may_pack { MayPack 1 now sender.old }
    requires valid { AreShortLinks links.now }
    ensures sent { (sends : List Msg) → route links.now now job (outgoing sender.old sends)
        ≡ outgoing sender.new (sends ++ result ∷ []) }
    ensures station { sender.new.station ≡ sender.old.station }
    ensures next { sender.new.next ≡ sender.old.next + 1 }
    ensures draws { sender.new.draws.count ≤ sender.old.draws.count + 1 }
{
    let link = pick_short(sender, links);
    send_job(sender, &link, now, job)
}

// Sends the next tick if a job is left.
#[inline(always)]
fn tick_quick(source: &SourceState, sender: &mut Sender, now: u64) -> OptionalMsg
    requires may_pack { MayPack 1 now sender.old }
    requires range { IsRange 1 source.now.lo source.now.hi }
    ensures sent { (sends : List Msg) → next_tick now source.now (outgoing sender.old sends)
        ≡ outgoing sender.new (sends ++ as_list result) }
{
    if source.sent < source.jobs {
        OptionalMsg::some(send_tick(sender, now, source.lo, source.hi))
    } else {
        OptionalMsg::none()
    }
}

// A source makes its next job and sends it on.
#[inline(always)]
fn make_quick(source: &mut SourceState, sender: &mut Sender, site: &Station, now: u64) -> QuickSends
    requires may_pack { MayPack 2 now sender.old }
    requires links { AreShortLinks site.now.links.items }
    requires fits { FitsSource MAX_LIMIT source.old }
    ensures { source_ticks (as_site site.now) now source.old (outgoing sender.old []) ≡ reaction source.new
        (outgoing sender.new (sends_of result)) }
{
    let job = PackedJob::new(Job {
        source: sender.station,
        count: source.sent,
        born: now,
    });
    source.sent += 1;
    let link = OptionalMsg::some(route_quick(sender, site.links.as_slice(), now, job));
    let own = tick_quick(source, sender, now);
    QuickSends { link, own }
}

/// A source handles a message.
#[inline(always)]
pub(crate) fn source_quick(
    source: &mut SourceState,
    sender: &mut Sender,
    site: &Station,
    now: u64,
    content: Content,
) -> QuickSends
    requires may_pack { MayPack 2 now sender.old }
    requires links { AreShortLinks site.now.links.items }
    requires fits { FitsSource MAX_LIMIT source.old }
    ensures { source_on (as_site site.now) now (as_payload content) source.old (outgoing sender.old []) ≡ reaction
        source.new (outgoing sender.new (sends_of result)) }
{
    match content {
        Content::Tick => make_quick(source, sender, site, now),
        Content::Job(_) | Content::Done(_) => QuickSends::none(),
    }
}

// A delay holds a job. The link is picked before the time is drawn.
#[inline(always)]
fn hold_quick(
    delay: &DelayState,
    sender: &mut Sender,
    site: &Station,
    now: u64,
    job: PackedJob,
) -> QuickSends
    requires may_pack { MayPack 1 now sender.old }
    requires links { AreShortLinks site.now.links.items }
    requires range { IsRange 0 delay.now.lo delay.now.hi }
    ensures { delay_job (as_site site.now) now job delay.now (outgoing sender.old []) ≡ outgoing sender.new
        (sends_of result) }
{
    let link = pick_short(sender, site.links.as_slice());
    let held = sender.draws.range(delay.lo, delay.hi);
    QuickSends {
        link: OptionalMsg::some(send_job(sender, &link, now + held, job)),
        own: OptionalMsg::none(),
    }
}

/// A delay handles a message.
#[inline(always)]
pub(crate) fn delay_quick(
    delay: &mut DelayState,
    sender: &mut Sender,
    site: &Station,
    now: u64,
    content: Content,
) -> QuickSends
    requires may_pack { MayPack 1 now sender.old }
    requires links { AreShortLinks site.now.links.items }
    requires fits { FitsDelay MAX_LIMIT delay.old }
    ensures { delay_on (as_site site.now) now (as_payload content) delay.old (outgoing sender.old []) ≡ reaction
        delay.new (outgoing sender.new (sends_of result)) }
{
    match content {
        Content::Job(job) => {
            let sends = hold_quick(delay, sender, site, now, job);
            delay.passed += 1;
            sends
        }
        Content::Tick | Content::Done(_) => QuickSends::none(),
    }
}

// The link at a place.
#[inline(always)]
fn short_at(links: &[Link], place: usize) -> Link
    requires valid { AreShortLinks links.now }
    requires below { place < length links.now }
    ensures link { slice_get links.now place ≡ Some result }
    ensures delay_max { result.delay ≤ MAX_TIME }
    ensures to_min { 1 ≤ result.to }
    ensures to_max { result.to ≤ MAX_STATIONS }
{
    links[place]
}

// A router sends a job on: over the next link by turn, or over one by the present weights.
#[inline(always)]
fn pass_quick(
    router: &RouterState,
    sender: &mut Sender,
    site: &Station,
    now: u64,
    job: PackedJob,
) -> QuickSends
    requires may_pack { MayPack 1 now sender.old }
    requires links { AreShortLinks site.now.links.items }
    requires weights { AreWeights router.now.weights.items }
    requires same { length router.now.weights.items ≡ length site.now.links.items }
    ensures { router_job (as_site site.now) now job router.now (outgoing sender.old []) ≡ outgoing sender.new
        (sends_of result) }
{
    let links = site.links.as_slice();
    let place = if site.kind.by_turn() {
        (router.passed % links.len() as u64) as usize
    } else {
        sender.draws.pick(router.weights.as_slice())
    };
    let link = short_at(links, place);
    QuickSends {
        link: OptionalMsg::some(send_job(sender, &link, now, job)),
        own: OptionalMsg::none(),
    }
}

/// A router handles a message.
#[inline(always)]
pub(crate) fn router_quick(
    router: &mut RouterState,
    sender: &mut Sender,
    site: &Station,
    now: u64,
    content: Content,
) -> QuickSends
    requires may_pack { MayPack 1 now sender.old }
    requires links { AreShortLinks site.now.links.items }
    requires fits { FitsRouter MAX_LIMIT router.old }
    requires same { length router.old.weights.items ≡ length site.now.links.items }
    ensures { router_on (as_site site.now) now (as_payload content) router.old (outgoing sender.old []) ≡ reaction
        router.new (outgoing sender.new (sends_of result)) }
{
    match content {
        Content::Job(job) => {
            let sends = pass_quick(router, sender, site, now, job);
            router.passed += 1;
            sends
        }
        Content::Tick | Content::Done(_) => QuickSends::none(),
    }
}

/// A sink handles a message.
#[inline(always)]
pub(crate) fn sink_quick(sink: &mut SinkState, now: u64, content: Content)
    requires fits { FitsSink MAX_LIMIT sink.old }
    requires time_max { now ≤ MAX_HORIZON }
    ensures { sink.new ≡ sink_on now (as_payload content) sink.old }
{
    if let Content::Job(job) = content {
        sink.got += 1;
        sink.stay += now.saturating_sub(job.born());
    }
}
