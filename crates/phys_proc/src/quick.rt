//! How a copy handles packed messages that all its clones take, one after another.
//!
//! Such a message goes from the heap to the station and into the log without being unpacked. What the station sends to
//! itself takes its place in the heap. A change, a message that is not packed, or a time at which only some of the
//! clones may take a message, ends this.
ghost use Rattle.std.specs.Prelude.{◌≡◌, ◌<◌, ◌≤◌, ◌+◌, ◌∷◌, ℕ, length, OnOk, IfOk, IfSome, Some};
ghost use Rattle.std.specs.List.{AllByRecursion};
ghost use Rattle.msg_heap.specs.Contents.{as_payload};
ghost use Rattle.net_model.specs.Net.{site_at};
ghost use Rattle.net_model.specs.Sites.{as_site};
ghost use Rattle.stations.specs.Quick.{IsQuick, as_list, sends_of};
ghost use Rattle.copy_pending.specs.Merged.{IsFirstForAll, IsLowerBoundOf, messages_of, without_first};
ghost use Rattle.phys_proc.specs.StepGoals.{ends_for};
ghost use Rattle.phys_proc.specs.Events.{MayTake, HasTaken};
ghost use Rattle.phys_proc.specs.Own.{IsCopy, ComesFrom, pending_after, sent_after};
ghost use Rattle.phys_proc.specs.Together.{AreAlive, copy_of, is_to};

use crate::copy::PhysCopy;
use crate::sent::SentMessages;
use crate::step_goal::StepGoal;
use copy_pending::CopyPending;
use log_chain::Log;
use msg_heap::{Content, OptionalMsg, PackedMsg};
use net_model::{Model, Station};
use sim_base::{NoMemory, Steps};
use stations::state::{handle_quick, is_quick};
use stations::{QuickSends, State};
use std::sync::ledger::Ledger;

/// Handles packed messages before the bound, as long as all clones of the copy take the next message. Returns how many.
#[inline(always)]
pub(crate) fn handle_packed<L: Ledger>(
    copy: &mut PhysCopy,
    goal: &StepGoal<'_>,
    sent: &mut SentMessages,
    steps: &mut Steps<L>,
) -> Result<u64, NoMemory>
    requires fits { IsCopy goal.now.model.now goal.now.station copy.old }
    requires time_max { goal.now.bound ≤ goal.now.model.now.horizon }
    ensures onward { OnOk result (ComesFrom goal.now.model.now goal.now.station (ends_for goal.now) goal.now.bound
        copy.old copy.new sent.old sent.new steps.old steps.new) }
    ensures counted { IfOk result (λ count. steps.new ≡ steps.old + count) }
{
    let together = goal
        .bound
        .min(copy.pending.partial_time())
        .min(goal.ends.first_of(copy.pending.set()));
    let count = run_packed(
        &mut copy.state,
        &mut copy.log,
        &mut copy.pending,
        goal,
        together,
        sent,
        steps,
    )?;
    Ok(count)
}

// The same for the parts of a copy, before a time up to which all its clones take each message.
#[inline(always)]
fn run_packed<L: Ledger>(
    state: &mut State,
    log: &mut Log,
    pending: &mut CopyPending,
    goal: &StepGoal<'_>,
    together: u64,
    sent: &mut SentMessages,
    steps: &mut Steps<L>,
) -> Result<u64, NoMemory>
    requires fits { IsCopy goal.now.model.now goal.now.station (copy_of pending.old state.old log.old) }
    requires together { IsLowerBoundOf together pending.old.partial }
    requires time_max { together ≤ goal.now.model.now.horizon }
    ensures onward { (ends : ℕ → ℕ) (bound : ℕ) → AreAlive ends bound together pending.old.set → OnOk result
        (ComesFrom goal.now.model.now goal.now.station ends bound (copy_of pending.old state.old log.old)
        (copy_of pending.new state.new log.new) sent.old sent.new steps.old steps.new) }
    ensures counted { IfOk result (λ count. steps.new ≡ steps.old + count) }
{
    let model = goal.model;
    let room = model.limit() - log.len();
    let mut count = 0;
    if !is_quick(state, room) {
        return Ok(count);
    }
    let site = model.station(goal.station);
    while count < room {
        let Some(event) = first_event(pending, together) else {
            return Ok(count);
        };
        take_event(state, log, pending, model, site, event, sent, steps)?;
        count += 1;
    }
    Ok(count)
}

// A packed message that is no change, with its content.
#[derive(Clone, Copy)]
struct QuickEvent {
    msg: PackedMsg,
    content: Content,
}

// The first message, if it is before that time and no change. Only before it all clones take each message.
#[inline(always)]
fn first_event(pending: &CopyPending, together: u64) -> Option<QuickEvent>
    requires together { IsLowerBoundOf together pending.now.partial }
    ensures first { IfSome result (λ e. IsFirstForAll e.msg pending.now) }
    ensures time_max { IfSome result (λ e. e.msg.key.time < together) }
    ensures content { IfSome result (λ e. as_payload e.content ≡ e.msg.payload) }
{
    let msg = pending.first_before(together)?;
    let content = msg.content()?;
    Some(QuickEvent { msg, content })
}

// The station handles the first message, and logs it.
#[inline(always)]
fn take_event<L: Ledger>(
    state: &mut State,
    log: &mut Log,
    pending: &mut CopyPending,
    model: &Model,
    site: &Station,
    event: QuickEvent,
    sent: &mut SentMessages,
    steps: &mut Steps<L>,
) -> Result<(), NoMemory>
    // required: the station of the network, which may take the message, and its numbers are small
    requires site { site_at model.now state.old.sender.station ≡ Some (as_site site.now) }
    requires may_take { MayTake model.now event.msg.to event.msg (copy_of pending.old state.old log.old) }
    requires quick { IsQuick 1 state.old }
    // the first message, which all clones take, and its content
    requires first { IsFirstForAll event.msg pending.old }
    requires content { as_payload event.content ≡ event.msg.payload }
    // result: the copy without this message has taken it
    ensures taken { OnOk result (HasTaken model.now event.msg.to event.msg
        (copy_of (without_first pending.old) state.old log.old) (copy_of pending.new state.new log.new)
        sent.old sent.new) }
    ensures counted { OnOk result (steps.new ≡ steps.old + 1) }
    // its numbers stay small for one message less, and other messages stay as they are
    ensures quick { OnOk result ((n : ℕ) → IsQuick (n + 1) state.old → IsQuick n state.new) }
    ensures partial { OnOk result (pending.new.partial ≡ pending.old.partial) }
{
    let QuickEvent { msg, content } = event;
    let (sends, line) = handle_quick(state, model, site, msg, content, steps)?;
    log.push_packed(msg, line)?;
    send_quick(msg, sends, pending, sent)?;
    Ok(())
}

// What the station sends to itself takes the place of the first message, and the job over a link follows.
#[inline(always)]
fn send_quick(
    first: PackedMsg,
    sends: QuickSends,
    pending: &mut CopyPending,
    sent: &mut SentMessages,
) -> Result<(), NoMemory>
    requires first { IsFirstForAll first pending.old }
    requires later { AllByRecursion (λ m. first.key.time < m.key.time) (sends_of sends) }
    ensures pending { OnOk result (messages_of pending.new
        ≡ pending_after first.to pending.old.set (sends_of sends) (messages_of (without_first pending.old))) }
    ensures aside { OnOk result (sent.new
        ≡ sent_after first.to pending.old.set (sends_of sends) sent.old) }
    ensures set { OnOk result (pending.new.set ≡ pending.old.set) }
    ensures partial { OnOk result (pending.new.partial ≡ pending.old.partial) }
{
    let station = first.to();
    if is_for(sends.own, station) {
        pending.replace_first(first, sends.own);
        send_packed(station, sends.link, pending, sent)?;
    } else {
        pending.replace_first(first, OptionalMsg::none());
        send_packed(station, sends.link, pending, sent)?;
        send_packed(station, sends.own, pending, sent)?;
    }
    Ok(())
}

// Whether the message, if there is one, is for this station.
#[inline(always)]
fn is_for(msg: OptionalMsg, station: u32) -> bool
    ensures value { result ≡ is_to station msg }
{
    match msg.get() {
        Some(msg) => msg.to() == station,
        None => true,
    }
}

// A packed message, if there is one: to the station itself it becomes pending for all clones, others are laid aside.
#[inline(always)]
fn send_packed(
    station: u32,
    msg: OptionalMsg,
    pending: &mut CopyPending,
    sent: &mut SentMessages,
) -> Result<(), NoMemory>
    ensures pending { OnOk result (messages_of pending.new
        ≡ pending_after station pending.old.set (as_list msg) (messages_of pending.old)) }
    ensures aside { OnOk result (sent.new ≡ sent_after station pending.old.set (as_list msg) sent.old) }
    ensures set { OnOk result (pending.new.set ≡ pending.old.set) }
    ensures partial { OnOk result (pending.new.partial ≡ pending.old.partial) }
{
    if let Some(msg) = msg.get() {
        if msg.to() == station {
            pending.insert_packed(msg)?;
        } else {
            sent.push_packed(msg, pending.set())?;
        }
    }
    Ok(())
}
