//! How servers handle packed messages other than changes.
ghost use Rattle.std.specs.Prelude.{◌≡◌, ◌+◌, ◌<◌, ◌≤◌, [], ◌∷◌, ◌++◌, List, length, IfOk, OnErr};
ghost use Rattle.std.specs.List.{AllByRecursion};
ghost use Rattle.sim_base.specs.declared.message.Msg.{Msg};
ghost use Rattle.msg_heap.specs.Contents.{as_payload};
ghost use Rattle.msg_heap.specs.Jobs.{FitsJob};
ghost use Rattle.net_model.specs.Rules.{IsRange};
ghost use Rattle.net_model.specs.Sites.{as_site};
ghost use Rattle.net_model.specs.declared.limits.TheConstants.{MAX_LIMIT};
ghost use Rattle.stations.specs.Fits.{FitsServer};
ghost use Rattle.stations.specs.Quick.{as_list, sends_of, MayPack, AreShortLinks};
ghost use Rattle.stations.specs.Sending.{outgoing, reaction};
ghost use Rattle.stations.specs.Servers.{start, next_place, start_next, server_job, server_done, server_on};
ghost use Rattle.stations.specs.declared.sender.TheConstants.{MAX_COUNTS};

use crate::job_queue::JobQueue;
use crate::kind_state::ServerState;
use crate::quick::{route_quick, send_done};
use crate::quick_sends::QuickSends;
use crate::sender::Sender;
use crate::server::place_of_next;
use msg_heap::{Content, OptionalMsg, PackedJob, PackedMsg};
use net_model::{Model, Station};
use sim_base::NoMemory;

// Starts the service of a job.
#[inline(always)]
fn start_quick(server: &mut ServerState, sender: &mut Sender, now: u64, job: PackedJob) -> PackedMsg
    requires may_pack { MayPack 1 now sender.old }
    requires range { IsRange 1 server.old.lo server.old.hi }
    requires busy { server.old.busy < MAX_COUNTS }
    ensures started { (sends : List Msg) → start now job server.old (outgoing sender.old sends) ≡ reaction server.new
        (outgoing sender.new (sends ++ result ∷ [])) }
{
    server.busy += 1;
    send_done(sender, now, server.lo, server.hi, job)
}

// The place of the job that is served next; 0 at once if jobs are served in the order of arrival.
#[inline(always)]
fn place_quick(model: &Model, site: &Station, jobs: &JobQueue) -> usize
    ensures { result ≡ next_place model.now (as_site site.now) jobs.now }
{
    if !site.kind.by_class() {
        return 0;
    }
    place_of_next(model, site, jobs)
}

// Starts the service of the next waiting job if a server is free.
#[inline(always)]
fn next_quick(
    server: &mut ServerState,
    sender: &mut Sender,
    model: &Model,
    site: &Station,
    now: u64,
) -> OptionalMsg
    requires may_pack { MayPack 1 now sender.old }
    requires range { IsRange 1 server.old.lo server.old.hi }
    requires jobs { AllByRecursion FitsJob server.old.waiting }
    ensures started { (sends : List Msg) → start_next model.now (as_site site.now) now server.old
        (outgoing sender.old sends) ≡ reaction server.new (outgoing sender.new (sends ++ as_list result)) }
{
    if server.busy < u64::from(server.servers) {
        let place = place_quick(model, site, &server.waiting);
        if let Some(job) = server.waiting.take_packed(place) {
            return OptionalMsg::some(start_quick(server, sender, now, job));
        }
    }
    OptionalMsg::none()
}

// Admits a job: into service, into the waiting line, or it is lost if the line is full.
#[inline(always)]
fn admit_quick(
    server: &mut ServerState,
    sender: &mut Sender,
    now: u64,
    job: PackedJob,
) -> Result<OptionalMsg, NoMemory>
    requires may_pack { MayPack 1 now sender.old }
    requires range { IsRange 1 server.old.lo server.old.hi }
    requires lost { server.old.lost < MAX_COUNTS }
    ensures ok { IfOk result (λ own. server_job now job server.old (outgoing sender.old []) ≡ reaction server.new
        (outgoing sender.new (as_list own))) }
    ensures server { OnErr result (server.new ≡ server.old) }
    ensures sender { OnErr result (sender.new ≡ sender.old) }
{
    if server.busy < u64::from(server.servers) {
        return Ok(OptionalMsg::some(start_quick(server, sender, now, job)));
    }
    if server.waiting.len() < server.room as usize {
        server.waiting.push_packed(job)?;
    } else {
        server.lost += 1;
    }
    Ok(OptionalMsg::none())
}

// Ends a service: the job moves on, and the next one is served.
#[inline(always)]
fn end_quick(
    server: &mut ServerState,
    sender: &mut Sender,
    model: &Model,
    site: &Station,
    now: u64,
    job: PackedJob,
) -> QuickSends
    requires may_pack { MayPack 2 now sender.old }
    requires links { AreShortLinks site.now.links.items }
    requires range { IsRange 1 server.old.lo server.old.hi }
    requires done { server.old.done < MAX_COUNTS }
    requires jobs { AllByRecursion FitsJob server.old.waiting }
    ensures { server_done model.now (as_site site.now) now job server.old (outgoing sender.old []) ≡ reaction
        server.new (outgoing sender.new (sends_of result)) }
{
    if server.busy == 0 {
        return QuickSends::none();
    }
    server.busy -= 1;
    server.done += 1;
    let link = OptionalMsg::some(route_quick(sender, site.links.as_slice(), now, job));
    let own = next_quick(server, sender, model, site, now);
    QuickSends { link, own }
}

/// A server handles a message. If out of memory, changes nothing.
#[inline(always)]
pub(crate) fn server_quick(
    server: &mut ServerState,
    sender: &mut Sender,
    model: &Model,
    site: &Station,
    now: u64,
    content: Content,
) -> Result<QuickSends, NoMemory>
    requires may_pack { MayPack 2 now sender.old }
    requires links { AreShortLinks site.now.links.items }
    requires fits { FitsServer MAX_LIMIT server.old }
    requires jobs { AllByRecursion FitsJob server.old.waiting }
    ensures ok { IfOk result (λ sends. server_on model.now (as_site site.now) now (as_payload content) server.old
        (outgoing sender.old []) ≡ reaction server.new (outgoing sender.new (sends_of sends))) }
    ensures server { OnErr result (server.new ≡ server.old) }
    ensures sender { OnErr result (sender.new ≡ sender.old) }
{
    match content {
        Content::Job(job) => {
            let own = admit_quick(server, sender, now, job)?;
            Ok(QuickSends {
                link: OptionalMsg::none(),
                own,
            })
        }
        Content::Done(job) => Ok(end_quick(server, sender, model, site, now, job)),
        Content::Tick => Ok(QuickSends::none()),
    }
}
