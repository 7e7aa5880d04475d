//! The state of a station (a logical process), and how it handles a message (event execution).
ghost use Rattle.std.specs.Prelude.{◌≡◌, ◌+◌, ◌<◌, ◌≤◌, [], length, IfOk, OnErr, OnOk};
ghost use Rattle.arrayvec.specs.ArrayVec.{array_vec_len};
ghost use Rattle.net_model.specs.Net.{HasStation};
ghost use Rattle.net_model.specs.Sites.{as_site};
ghost use Rattle.net_model.specs.declared.limits.TheConstants.{MAX_LIMIT, MAX_LINKS};
ghost use Rattle.stations.specs.Fits.{FitsState, FitsKind, SuitsNet, IsOfKind, HasLinks};
ghost use Rattle.stations.specs.Handling.{handle as handle', kind_on, line_of};
ghost use Rattle.stations.specs.Opening.{setup as setup', opening_kind, first_tick};
ghost use Rattle.stations.specs.Sending.{MaySend, outgoing, reaction};
ghost use Rattle.stations.specs.Sends.{AreSends};
ghost use Rattle.stations.specs.declared.sender.TheConstants.{MAX_EVENT_TIMES, MAX_SENDS};
ghost use Rattle.std.specs.Prelude.{ℕ, ◌*◌, Some, IsTrue};
ghost use Rattle.msg_heap.specs.Contents.{as_payload};
ghost use Rattle.msg_heap.specs.Lines.{FitsLine};
ghost use Rattle.msg_heap.specs.declared.line.TheConstants.{STAY_SUMS};
ghost use Rattle.net_model.specs.Net.{site_at};
ghost use Rattle.net_model.specs.declared.limits.TheConstants.{MAX_HORIZON};
ghost use Rattle.stations.specs.Quick.{sends_of, MayPack, HasShortLinks, HasShortJobs, IsShort, IsQuick, stay_of};

use crate::delay::delay_handles;
use crate::job_queue::JobQueue;
use crate::kind_state::{DelayState, KindState, RouterState, ServerState, SinkState, SourceState};
use crate::quick::{delay_quick, router_quick, sink_quick, source_quick};
use crate::quick_sends::QuickSends;
use crate::router::router_handles;
use crate::sender::{MAX_SENDS, Sender, link_weights};
use crate::server::server_handles;
use crate::server_quick::server_quick;
use crate::sink::sink_handles;
use crate::source::{send_tick, source_handles};
use arrayvec::ArrayVec;
use msg_heap::line::STAY_SUMS;
use msg_heap::{Content, PackedLine, PackedMsg};
use net_model::limits::{MAX_HORIZON, MAX_LIMIT, MAX_LINKS};
use net_model::{Kind, Model, Station};
use sim_base::message::WORD_NUMBERS;
use sim_base::{Line, Msg, NoMemory, Payload, Steps};
use sim_draw::Draws;
use std::alloc::Global;
use std::sync::ledger::Ledger;

/// The state of a station: its sender, the number of messages handled, and the state of its kind.
#[derive(Drop)]
pub struct State {
    sender: Sender,
    handled: u64,
    kind: KindState,
}

impl std::marker::Model for State {
    ghost use Rattle.stations.specs.Handling.{StateView};
    ghost use Rattle.stations.specs.Fits.{FitsState};

    ghost Value = { StateView };

    ghost view = { λ s. record { sender = s.sender; handled = s.handled; kind = s.kind } };

    ghost invariant = { λ s. FitsState (record { sender = s.sender; handled = s.handled; kind = s.kind }) };
}

fn kind_handles(
    kind: &mut KindState,
    sender: &mut Sender,
    out: &mut ArrayVec<Msg, MAX_SENDS>,
    model: &Model,
    station: &Station,
    now: u64,
    payload: &Payload,
) -> Result<(), NoMemory>
    requires may_send { MaySend MAX_SENDS now sender.old (array_vec_len out.old) }
    requires links { HasLinks kind.old station.now.links.items }
    requires of_kind { IsOfKind (as_site station.now) station.now.kind kind.old }
    requires fits { FitsKind MAX_LIMIT kind.old }
    ensures ok { OnOk result (kind_on model.now (as_site station.now) now payload.now kind.old
        (outgoing sender.old out.old.items) ≡ reaction kind.new (outgoing sender.new out.new.items)) }
    ensures err { OnErr result (reaction kind.new (outgoing sender.new out.new.items) ≡ reaction kind.old
        (outgoing sender.old out.old.items)) }
{
    match kind {
        KindState::Source(source) => {
            source_handles(source, sender, out, station, now, payload);
            Ok(())
        }
        KindState::Server(server) => {
            server_handles(server, sender, out, model, station, now, payload)
        }
        KindState::Delay(delay) => {
            delay_handles(delay, sender, out, station, now, payload);
            Ok(())
        }
        KindState::Router(router) => {
            router_handles(router, sender, out, station, now, payload);
            Ok(())
        }
        KindState::Sink(sink) => {
            sink_handles(sink, now, payload);
            Ok(())
        }
    }
}

fn kind_line(kind: &KindState) -> Line
    ensures { result ≡ line_of kind.now }
{
    match kind {
        KindState::Source(source) => Line::Source { sent: source.sent },
        KindState::Server(server) => Line::Server {
            busy: server.busy,
            wait: server.waiting.len() as u64,
            done: server.done,
            lost: server.lost,
        },
        KindState::Delay(delay) => Line::Passed {
            passed: delay.passed,
        },
        KindState::Router(router) => Line::Passed {
            passed: router.passed,
        },
        KindState::Sink(sink) => Line::Sink {
            got: sink.got,
            stay: sink.stay,
        },
    }
}

/// Handles a message: changes the state, puts the sends into `out`, and returns the counts for the log.
///
/// If out of memory, the state and `out` do not change. It ticks once if it returns Ok.
pub fn handle<L: Ledger>(
    state: &mut State,
    model: &Model,
    msg: &Msg,
    out: &mut ArrayVec<Msg, MAX_SENDS>,
    steps: &mut Steps<L>,
) -> Result<Line, NoMemory>
    // required: a station of the network, an empty `out`, and a message to this station. The station has handled fewer
    // messages than the greatest limit, and the time is one at which it may handle one
    requires suits { SuitsNet model.now state.old }
    requires empty { array_vec_len out.old ≡ 0 }
    requires own { msg.now.to ≡ state.old.sender.station }
    requires below { state.old.handled < MAX_LIMIT }
    requires time_max { msg.now.key.time < MAX_EVENT_TIMES }
    // result: the state, the sends and the line of the definition; each send is later than the message, and they have
    // the sender's next numbers
    ensures ok { IfOk result (λ line. handle' model.now state.old msg.now
        ≡ record { state = state.new; sends = out.new.items; line = line }) }
    ensures sends { OnOk result (AreSends model.now msg.now.key.time state.old.sender.station state.old.sender.next
        out.new.items) }
    ensures next { OnOk result (state.new.sender.next ≡ state.old.sender.next + length out.new.items) }
    // invariant, also on errors: it is a state of this station of the network, within its bounds
    ensures suits { SuitsNet model.now state.new }
    ensures fits { FitsState state.new }
    ensures own { state.new.sender.station ≡ state.old.sender.station }
    // counts: the message in the state, and a step
    ensures one_more { OnOk result (state.new.handled ≡ state.old.handled + 1) }
    ensures counted { OnOk result (steps.new ≡ steps.old + 1) }
    // if out of memory, the state does not change, nothing is sent, and no step is counted
    ensures err { OnErr result (state.new ≡ state.old) }
    ensures nothing { OnErr result (out.new.items ≡ []) }
    ensures uncounted { OnErr result (steps.new ≡ steps.old) }
{
    let station = model.station(state.sender.station);
    kind_handles(
        &mut state.kind,
        &mut state.sender,
        out,
        model,
        station,
        msg.key.time,
        &msg.payload,
    )?;
    state.handled += 1;
    steps.tick();
    Ok(kind_line(&state.kind))
}

#[inline(always)]
fn kind_quick(
    kind: &mut KindState,
    sender: &mut Sender,
    model: &Model,
    site: &Station,
    now: u64,
    content: Content,
) -> Result<QuickSends, NoMemory>
    requires may_pack { MayPack 2 now sender.old }
    requires links { HasShortLinks kind.old site.now.links.items }
    requires of_kind { IsOfKind (as_site site.now) site.now.kind kind.old }
    requires fits { FitsKind MAX_LIMIT kind.old }
    requires jobs { HasShortJobs kind.old }
    ensures ok { IfOk result (λ sends. kind_on model.now (as_site site.now) now (as_payload content) kind.old
        (outgoing sender.old []) ≡ reaction kind.new (outgoing sender.new (sends_of sends))) }
    ensures kind { OnErr result (kind.new ≡ kind.old) }
    ensures sender { OnErr result (sender.new ≡ sender.old) }
{
    match kind {
        KindState::Source(source) => Ok(source_quick(source, sender, site, now, content)),
        KindState::Server(server) => server_quick(server, sender, model, site, now, content),
        KindState::Delay(delay) => Ok(delay_quick(delay, sender, site, now, content)),
        KindState::Router(router) => Ok(router_quick(router, sender, site, now, content)),
        KindState::Sink(sink) => {
            sink_quick(sink, now, content);
            Ok(QuickSends::none())
        }
    }
}

#[inline(always)]
fn packed_line(kind: &KindState) -> PackedLine
    requires fits { FitsLine (line_of kind.now) }
    ensures { result ≡ line_of kind.now }
{
    match kind {
        KindState::Source(source) => PackedLine::source(source.sent),
        KindState::Server(server) => PackedLine::server(
            server.busy,
            server.waiting.len() as u64,
            server.done,
            server.lost,
        ),
        KindState::Delay(delay) => PackedLine::passed(delay.passed),
        KindState::Router(router) => PackedLine::passed(router.passed),
        KindState::Sink(sink) => PackedLine::sink(sink.got, sink.stay),
    }
}

// The job of a content fits one word.
#[inline(always)]
fn recall_short(content: &Content)
    ensures { IsShort content.now }
{
    match *content {
        Content::Job(job) | Content::Done(job) => {
            let _job = job.job();
        }
        Content::Tick => {}
    }
}

/// Whether the station may handle `more` packed messages: its numbers are small enough.
pub fn is_quick(state: &State, more: u64) -> bool
    requires below { state.now.handled ≤ MAX_LIMIT }
    ensures { IsTrue result → IsQuick more state.now }
{
    more <= MAX_LIMIT
        && state.sender.next <= WORD_NUMBERS - 2 * more
        && kind_is_quick(&state.kind, more)
}

// Whether the stays and the waiting jobs are small enough.
fn kind_is_quick(kind: &KindState, more: u64) -> bool
    requires at_most { more ≤ MAX_LIMIT }
    ensures stay { IsTrue result → stay_of kind.now + MAX_HORIZON * more < STAY_SUMS }
    ensures jobs { IsTrue result → HasShortJobs kind.now }
{
    match kind {
        KindState::Server(server) => server.waiting.is_short(),
        KindState::Sink(sink) => sink.stay < STAY_SUMS - MAX_HORIZON * more,
        KindState::Source(_) | KindState::Delay(_) | KindState::Router(_) => true,
    }
}

/// Handles a packed message other than a change, as `handle` does. It sends at most two messages, both packed.
///
/// If out of memory, the state does not change. It ticks once if it returns Ok.
#[inline(always)]
pub fn handle_quick<L: Ledger>(
    state: &mut State,
    model: &Model,
    site: &Station,
    msg: PackedMsg,
    content: Content,
    steps: &mut Steps<L>,
) -> Result<(QuickSends, PackedLine), NoMemory>
    // required: the station of the network, a message to it, and its content. The station has handled fewer messages
    // than the greatest limit, and its numbers are small
    requires suits { SuitsNet model.now state.old }
    requires site { site_at model.now state.old.sender.station ≡ Some (as_site site.now) }
    requires own { msg.to ≡ state.old.sender.station }
    requires content { as_payload content ≡ msg.payload }
    requires below { state.old.handled < MAX_LIMIT }
    requires time_max { msg.key.time ≤ MAX_HORIZON }
    requires quick { IsQuick 1 state.old }
    // result: the state, the sends and the line of the definition; each send is later than the message, and they have
    // the sender's next numbers
    ensures ok { IfOk result (λ r. handle' model.now state.old msg
        ≡ record { state = state.new; sends = sends_of r.0; line = r.1 }) }
    ensures sends { IfOk result (λ r. AreSends model.now msg.key.time state.old.sender.station state.old.sender.next
        (sends_of r.0)) }
    ensures next { IfOk result (λ r. state.new.sender.next ≡ state.old.sender.next + length (sends_of r.0)) }
    // its numbers stay small for one message less
    ensures quick { OnOk result ((n : ℕ) → IsQuick (n + 1) state.old → IsQuick n state.new) }
    // invariant, also on errors: it is a state of this station of the network, within its bounds
    ensures suits { SuitsNet model.now state.new }
    ensures fits { FitsState state.new }
    ensures own { state.new.sender.station ≡ state.old.sender.station }
    // counts: the message in the state, and a step
    ensures one_more { OnOk result (state.new.handled ≡ state.old.handled + 1) }
    ensures counted { OnOk result (steps.new ≡ steps.old + 1) }
    // if out of memory, the state does not change, and no step is counted
    ensures err { OnErr result (state.new ≡ state.old) }
    ensures uncounted { OnErr result (steps.new ≡ steps.old) }
{
    let _valid = model.lookahead();
    recall_short(&content);
    let sends = kind_quick(
        &mut state.kind,
        &mut state.sender,
        model,
        site,
        msg.time(),
        content,
    )?;
    state.handled += 1;
    steps.tick();
    Ok((sends, packed_line(&state.kind)))
}

fn opening_state(alloc: Global, station: &Station) -> KindState
    requires { length station.now.links.items ≤ MAX_LINKS }
    ensures { result ≡ opening_kind (as_site station.now) station.now.kind }
{
    match station.kind {
        Kind::Source { lo, hi, jobs, .. } => KindState::Source(SourceState {
            lo,
            hi,
            jobs,
            sent: 0,
        }),
        Kind::Server {
            servers,
            room,
            lo,
            hi,
            ..
        } => KindState::Server(ServerState {
            servers,
            room,
            lo,
            hi,
            busy: 0,
            waiting: JobQueue::new(alloc),
            done: 0,
            lost: 0,
        }),
        Kind::Delay { lo, hi } => KindState::Delay(DelayState { lo, hi, passed: 0 }),
        Kind::Router { .. } => KindState::Router(RouterState {
            weights: link_weights(station.links.as_slice()),
            passed: 0,
        }),
        Kind::Sink => KindState::Sink(SinkState { got: 0, stay: 0 }),
    }
}

// A source sends itself its first tick.
fn send_first(kind: &KindState, sender: &mut Sender, out: &mut ArrayVec<Msg, MAX_SENDS>)
    requires may_send { MaySend 1 0 sender.old (array_vec_len out.old) }
    requires fits { FitsKind 0 kind.now }
    ensures { first_tick kind.now (outgoing sender.old out.old.items) ≡ outgoing sender.new out.new.items }
{
    if let KindState::Source(source) = kind {
        send_tick(source, sender, out, 0);
    }
}

/// Opens a station: its state, and a source's first tick.
pub fn setup(alloc: Global, model: &Model, station: u32) -> Result<(State, Option<Msg>), NoMemory>
    // required: the number of a station of the model
    requires is_station { HasStation model.now station }
    // result: the state and the first tick of the definition
    ensures opened { IfOk result (λ p. setup' model.now station ≡ record { state = p.0; first = p.1 }) }
    // invariant: it is a state of this station of the network, within its bounds, and has handled nothing
    ensures suits { IfOk result (λ p. SuitsNet model.now p.0) }
    ensures fits { IfOk result (λ p. FitsState p.0) }
    ensures own { IfOk result (λ p. p.0.sender.station ≡ station) }
    ensures fresh { IfOk result (λ p. p.0.handled ≡ 0) }
{
    let site = model.station(station);
    let mut sender = Sender {
        station,
        next: 0,
        draws: Draws::new(model.seed(), site.stream),
    };
    let kind = opening_state(alloc, site);
    let mut out = ArrayVec::new();
    send_first(&kind, &mut sender, &mut out);
    let first = out.first().copied();
    Ok((
        State {
            sender,
            handled: 0,
            kind,
        },
        first,
    ))
}

impl State {
    // The state with these parts, which are within the bounds of every state.
    pub(crate) fn of(sender: Sender, handled: u64, kind: KindState) -> State
        requires fits { FitsState (record { sender = sender; handled = handled; kind = kind }) }
        ensures value { result ≡ record { sender = sender; handled = handled; kind = kind } }
    {
        State {
            sender,
            handled,
            kind,
        }
    }

    pub(crate) fn sender(&self) -> &Sender
        ensures value { result.now ≡ self.now.sender }
        ensures fits { FitsState self.now }
    {
        &self.sender
    }

    pub(crate) fn kind(&self) -> &KindState
        ensures value { result.now ≡ self.now.kind }
        ensures fits { FitsState self.now }
    {
        &self.kind
    }

    /// The number of messages that the station has handled.
    pub fn handled(&self) -> u64
        ensures { result ≡ self.now.handled }
    {
        self.handled
    }

    /// A copy of the state, equal to this one.
    pub fn copy(&self, alloc: Global) -> Result<State, NoMemory>
        ensures { IfOk result (λ s. s ≡ self.now) }
    {
        Ok(State {
            sender: Sender {
                station: self.sender.station,
                next: self.sender.next,
                draws: self.sender.draws.copy(),
            },
            handled: self.handled,
            kind: copy_kind(&self.kind, alloc)?,
        })
    }
}

fn copy_kind(kind: &KindState, alloc: Global) -> Result<KindState, NoMemory>
    ensures { IfOk result (λ k. k ≡ kind.now) }
{
    match kind {
        KindState::Source(source) => Ok(KindState::Source(*source)),
        KindState::Server(server) => Ok(KindState::Server(ServerState {
            servers: server.servers,
            room: server.room,
            lo: server.lo,
            hi: server.hi,
            busy: server.busy,
            waiting: server.waiting.copy(alloc)?,
            done: server.done,
            lost: server.lost,
        })),
        KindState::Delay(delay) => Ok(KindState::Delay(*delay)),
        KindState::Router(router) => Ok(KindState::Router(RouterState {
            weights: copy_weights(router.weights.as_slice()),
            passed: router.passed,
        })),
        KindState::Sink(sink) => Ok(KindState::Sink(*sink)),
    }
}

// A copy of the weights.
pub(crate) fn copy_weights(weights: &[u32]) -> ArrayVec<u32, MAX_LINKS>
    requires { length weights.now ≤ MAX_LINKS }
    ensures { result.items ≡ weights.now }
{
    let mut copied = ArrayVec::new();
    for weight in weights {
        copied.push(*weight);
    }
    copied
}
