//! Messages delivered by hand to a desk of two clones.
ghost use Rattle.std.specs.Prelude.{◌≡◌, ◌≤◌, ◌<◌, length, IfSome};
ghost use Rattle.sim_base.specs.declared.lists.TheConstants.{MAX_CLONES};
ghost use Rattle.phys_proc.specs.Procs.{IsProc};

use clone_sets::CloneSet;
use net_model::{Model, read_model};
use phys_proc::{CloneEnds, Gain, Proc, SentMessages};
use sample_models::ONE_DESK;
use sim_base::{Change, Job, Key, MAX_CLONES, Msg, Param, Payload, Steps};
use std::alloc::Global;
use std::marker::Brand;
use std::sync::ledger::{Blank, Ledger};

/// The number of the desk.
const DESK: u32 = 2;

fn message(time: u64, to: u32, sender: u32, number: u64, payload: Payload) -> Msg {
    let key = Key {
        time,
        sender,
        number,
    };
    Msg { key, to, payload }
}

/// The job of this count arrives at the desk.
fn job(time: u64, number: u64, count: u64, born: u64) -> Msg {
    let job = Job {
        source: 1,
        count,
        born,
    };
    message(time, DESK, 1, number, Payload::Job(job))
}

/// From this time on the desk serves for 2.
fn faster(time: u64) -> Msg {
    let change = Change {
        param: Param::Service,
        a: 2,
        b: 2,
    };
    message(time, DESK, 0, 0, Payload::Set(change))
}

fn both() -> CloneSet {
    CloneSet::one(0).with(1)
}

/// The desk for this number of identical clones.
fn clones_alike(alloc: Global, model: &Model, clones: u32) -> Option<Proc>
    requires desk { 2 ≤ length model.now.sites }
    requires clones { clones ≤ MAX_CLONES }
    ensures proc { IfSome result (λ p. IsProc model.now p) }
{
    let mut proc = Proc::new(alloc, model, DESK).ok()?;
    for c in 1..clones {
        let living = proc.living();
        if !living.has(0) || living.has(c) {
            return None;
        }
        proc.fork(0, c);
    }
    Some(proc)
}

/// The desk with these further messages.
fn deliver_all(proc: Proc, model: &Model, msgs: &[(Msg, CloneSet)]) -> Option<Proc>
    requires proc { IsProc model.now proc }
    ensures proc { IfSome result (λ p. IsProc model.now p) }
{
    let mut proc = proc;
    for i in 0..msgs.len() {
        let (msg, set) = msgs[i];
        if msg.to != proc.station() {
            return None;
        }
        proc.deliver(msg, set).ok()?;
    }
    Some(proc)
}

/// The desk for this number of clones, with these further messages.
fn open_desk(alloc: Global, model: &Model, clones: u32, msgs: &[(Msg, CloneSet)]) -> Option<Proc>
    requires clones { clones ≤ MAX_CLONES }
    ensures proc { IfSome result (λ p. IsProc model.now p) }
{
    if model.len() < DESK {
        return None;
    }
    let proc = clones_alike(alloc, model, clones)?;
    deliver_all(proc, model, msgs)
}

/// The result of stepping a desk, and the desk.
#[derive(Drop)]
struct Flow {
    done: Proc,
    sent: SentMessages,
    over: CloneSet,
    handled: u64,
}

/// Steps a desk to the bound, with the step counter of a blank.
fn step_counted<L: Ledger>(
    alloc: Global,
    proc: Proc,
    model: &Model,
    ends: &CloneEnds,
    bound: u64,
    blank: Blank,
) -> Option<Flow>
    requires name { blank.name ≡ L.name }
    requires parts { blank.parts ≡ L.parts }
    requires nonempty { 0 < L.parts }
    requires proc { IsProc model.now proc }
    requires time_max { bound ≤ model.now.horizon }
    ensures proc { IfSome result (λ f. IsProc model.now f.done) }
{
    let mut done = proc;
    let mut sent = SentMessages::new(alloc);
    let mut steps = Steps::<L>::new(blank);
    let Gain { over, handled } = done
        .advance(alloc, model, ends, bound, &mut sent, &mut steps)
        .ok()?;
    Some(Flow {
        done,
        sent,
        over,
        handled,
    })
}

/// The same with a new step counter.
fn step_to(alloc: Global, proc: Proc, model: &Model, ends: &CloneEnds, bound: u64) -> Option<Flow>
    requires proc { IsProc model.now proc }
    requires time_max { bound ≤ model.now.horizon }
    ensures proc { IfSome result (λ f. IsProc model.now f.done) }
{
    step_counted::<Brand>(alloc, proc, model, ends, bound, Blank::new(1))
}

/// The result of stepping a desk with these messages to the horizon, for this number of clones.
fn step_desk(
    alloc: Global,
    text: &str,
    clones: u32,
    msgs: &[(Msg, CloneSet)],
    ends: &CloneEnds,
) -> Option<Flow>
    requires clones { clones ≤ MAX_CLONES }
{
    let model = read_model(alloc, text.as_bytes()).ok()?;
    let proc = open_desk(alloc, &model, clones, msgs)?;
    step_to(alloc, proc, &model, ends, model.horizon())
}

/// A clone, the length of its log, and the number of clones that share it.
type Share = (u32, u64, u32);

/// Whether the clone's log has this length, and is shared by this number of clones.
fn has_log(proc: &Proc, share: Share) -> bool {
    let (clone, len, clones) = share;
    for copy in proc.copies() {
        if clone < MAX_CLONES && copy.set().has(clone) {
            return copy.log().len() == len && copy.set().len() == clones;
        }
    }
    false
}

/// Whether this number of copies handled this number of messages, and two clones have these logs.
fn comes_to(flow: &Flow, handled: u64, copies: usize, one: Share, other: Share) -> bool {
    flow.handled == handled
        && flow.done.copies().len() == copies
        && has_log(&flow.done, one)
        && has_log(&flow.done, other)
}

/// Two jobs for both clones; from 8 on the desk of clone 1 serves faster.
fn jobs() -> [(Msg, CloneSet); 3] {
    [
        (job(5, 1, 0, 3), both()),
        (job(8, 3, 1, 6), both()),
        (faster(8), CloneSet::one(1)),
    ]
}

/// A set for one of the clones separates them: they handle 4 messages and 5, and share the first.
fn desks_part(alloc: Global) -> Option<bool> {
    let ends = CloneEnds::none(alloc);
    let flow = step_desk(alloc, ONE_DESK, 2, &jobs(), &ends)?;
    let parts = comes_to(&flow, 8, 2, (0, 4, 1), (1, 5, 1));
    Some(parts && flow.over.is_empty() && flow.sent.len() == 4)
}

#[test]
fn clones_part_at_a_set(rt: HostRuntime) {
    assert!(rt; desks_part(rt.alloc()) == Some(true));
}

/// The job of this count, number and time from two copies of its sender, one for each clone.
fn in_parts(time: u64, number: u64, count: u64) -> [(Msg, CloneSet); 2] {
    let msg = job(time, number, count, 3);
    [(msg, CloneSet::one(0)), (msg, CloneSet::one(1))]
}

/// What comes at 5 in two parts is handled once for both clones, before a set for one of them separates them.
fn parts_before_a_split(alloc: Global) -> Option<bool> {
    let [zero, one] = in_parts(5, 1, 0);
    let later = [
        zero,
        (job(8, 3, 1, 6), both()),
        one,
        (faster(8), CloneSet::one(1)),
    ];
    let flow = step_desk(alloc, ONE_DESK, 2, &later, &CloneEnds::none(alloc))?;
    Some(comes_to(&flow, 8, 2, (0, 4, 1), (1, 5, 1)))
}

/// What comes at 10 in two parts is handled by each of the copies that the set at 8 separates.
fn parts_after_a_split(alloc: Global) -> Option<bool> {
    let [zero, one] = in_parts(10, 3, 1);
    let later = [
        (job(5, 1, 0, 3), both()),
        one,
        (faster(8), CloneSet::one(1)),
        zero,
    ];
    let flow = step_desk(alloc, ONE_DESK, 2, &later, &CloneEnds::none(alloc))?;
    Some(comes_to(&flow, 8, 2, (0, 4, 1), (1, 5, 1)))
}

/// Clone 1 ends at this time; the lengths of the logs of clone 0 and clone 1 after these messages.
fn ended(
    alloc: Global,
    msgs: &[(Msg, CloneSet)],
    end: u64,
    handled: u64,
    len: u64,
) -> Option<bool> {
    let mut ends = CloneEnds::none(alloc);
    ends.end(1, end).ok()?;
    let flow = step_desk(alloc, ONE_DESK, 2, msgs, &ends)?;
    Some(comes_to(&flow, handled, 2, (0, 4, 1), (1, len, 1)))
}

/// Of a set and a job at its end a clone takes nothing.
fn set_at_an_end(alloc: Global) -> Option<bool> {
    ended(alloc, &jobs(), 8, 4, 1)
}

/// Jobs before its end, one of them in two parts, are taken by both clones, and what comes at its end by the other.
fn parts_before_an_end(alloc: Global) -> Option<bool> {
    let [zero, one] = in_parts(8, 3, 1);
    ended(alloc, &[zero, (job(5, 1, 0, 3), both()), one], 9, 4, 2)
}

#[test]
fn equal_messages_are_handled_once(rt: HostRuntime) {
    assert!(rt;
        parts_before_a_split(rt.alloc()) == Some(true),
        "before a split"
    );
    assert!(rt;
        parts_after_a_split(rt.alloc()) == Some(true),
        "after a split"
    );
    assert!(rt; set_at_an_end(rt.alloc()) == Some(true), "a set at an end");
    assert!(rt;
        parts_before_an_end(rt.alloc()) == Some(true),
        "before an end"
    );
}

/// The desk with clone 2 next to clone 0.
fn fork_third(proc: Proc, model: &Model) -> Option<Proc>
    requires proc { IsProc model.now proc }
    ensures proc { IfSome result (λ p. IsProc model.now p) }
{
    let mut proc = proc;
    let living = proc.living();
    if !living.has(0) || living.has(2) {
        return None;
    }
    proc.fork(0, 2);
    Some(proc)
}

/// A new clone takes what its old one takes, and not the set of another clone.
fn third_is_like_the_first(alloc: Global) -> Option<bool> {
    let model = read_model(alloc, ONE_DESK.as_bytes()).ok()?;
    let proc = open_desk(alloc, &model, 2, &jobs())?;
    let proc = fork_third(proc, &model)?;
    let flow = step_to(
        alloc,
        proc,
        &model,
        &CloneEnds::none(alloc),
        model.horizon(),
    )?;
    Some(comes_to(&flow, 8, 2, (2, 4, 2), (1, 5, 1)))
}

#[test]
fn new_clone_takes_what_the_old_takes(rt: HostRuntime) {
    assert!(rt; third_is_like_the_first(rt.alloc()) == Some(true));
}
