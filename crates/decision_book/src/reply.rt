//! The reply to a decision, and the effect of the decision on the lists.
ghost use Rattle.std.specs.Prelude.{◌≡◌, ◌<◌, length, IfOk, IsOk, OnErr};
ghost use Rattle.sim_base.specs.Clones.{clone_at, clones_with_fork, clones_with_plan, clones_with_end};
ghost use Rattle.decision_book.specs.Books.{HasReply, HaveRoom};
ghost use Rattle.decision_book.specs.Journal.{clones_after, is_full as is_full', plan_of_set};
ghost use Rattle.decision_book.specs.Plans.{ArePlanned};
ghost use Rattle.decision_book.specs.Replies.{first_row, fork_rows, set_rows, time_rows, reply as reply_of};

use crate::call::{MAX_CALLS, Reply};
use net_model::Model;
use sim_base::{Change, Decision, Lists, MAX_CLONES, MAX_DECISIONS, Name, NoMemory, Planned};
use stations::change::{ChangeFault, accepts};
use std::alloc::Global;

/// Whether it is the reply of a full journal.
pub fn is_full(reply: Reply) -> bool
    ensures value { result ≡ is_full' reply }
{
    match reply {
        Reply::Full => true,
        _ => false,
    }
}

#[tactic(auto, using(crate::proofs::Planned::planned_forked))]
fn decide_fork(
    alloc: Global,
    model: &Model,
    lists: &mut Lists,
    clone: u32,
    new: Name,
) -> Result<Reply, NoMemory>
    requires in_range { clone < length lists.old.clones }
    requires planned { ArePlanned model.now lists.old.clones }
    ensures reply { IfOk result (λ r. HasReply model.now (first_row (fork_rows lists.old.clones new))
        (clones_with_fork lists.old.clones new clone) r lists.old lists.new) }
    ensures err { OnErr result (lists.new ≡ lists.old) }
    ensures reserved { HaveRoom lists.old → IsOk result }
{
    if lists.find(&new).is_some() {
        return Ok(Reply::NameTaken);
    }
    if lists.len() >= MAX_CLONES {
        return Ok(Reply::TooManyClones);
    }
    lists.fork(alloc, new, clone)?;
    Ok(Reply::Accepted)
}

fn time_reply(model: &Model, front: u64, at: u64) -> Reply
    ensures value { result ≡ first_row (time_rows model.now front at) }
{
    if at >= model.horizon() {
        return Reply::PastHorizon;
    }
    if at < front {
        return Reply::Late { front };
    }
    Reply::Accepted
}

#[tactic(auto, using(crate::proofs::Planned::planned_ended))]
fn decide_end(model: &Model, lists: &mut Lists, front: u64, clone: u32, at: u64) -> Reply
    requires in_range { clone < length lists.old.clones }
    requires once { (clone_at lists.old.clones clone).end ≡ None }
    requires planned { ArePlanned model.now lists.old.clones }
    ensures reply { HasReply model.now (first_row (time_rows model.now front at))
        (clones_with_end lists.old.clones clone at) result lists.old lists.new }
{
    let reply = time_reply(model, front, at);
    if reply == Reply::Accepted {
        lists.end(clone, at);
    }
    reply
}

#[tactic(auto, using(crate::proofs::Planned::planned_added))]
fn decide_set(
    model: &Model,
    lists: &mut Lists,
    front: u64,
    clone: u32,
    at: u64,
    station: &Name,
    change: &Change,
) -> Result<Reply, NoMemory>
    requires in_range { clone < length lists.old.clones }
    requires planned { ArePlanned model.now lists.old.clones }
    ensures reply { IfOk result (λ r. HasReply model.now
        (first_row (set_rows model.now lists.old.clones front clone at station.now change.now))
        (clones_with_plan lists.old.clones clone (plan_of_set model.now at station.now change.now))
        r lists.old lists.new) }
    ensures err { OnErr result (lists.new ≡ lists.old) }
    ensures reserved { HaveRoom lists.old → IsOk result }
{
    let Some(s) = model.find(station) else {
        return Ok(Reply::UnknownStation);
    };
    match accepts(model, s, change) {
        Err(ChangeFault::WrongParameter) => return Ok(Reply::WrongParameter),
        Err(ChangeFault::OutOfRange) => return Ok(Reply::OutOfRange),
        Ok(()) => {}
    }
    if lists.list(clone).len() >= MAX_DECISIONS as usize {
        return Ok(Reply::ListFull);
    }
    let reply = time_reply(model, front, at);
    if reply == Reply::Accepted {
        let plan = Planned {
            at,
            station: s,
            change: *change,
        };
        lists.add(clone, plan)?;
    }
    Ok(reply)
}

/// Returns the reply of the table, and carries the decision out on the lists. Allocates nothing if these have memory
/// reserved; if out of memory, changes nothing.
pub fn decide_by_table(
    alloc: Global,
    model: &Model,
    lists: &mut Lists,
    front: u64,
    calls: usize,
    d: &Decision,
) -> Result<Reply, NoMemory>
    requires planned { ArePlanned model.now lists.old.clones }
    // the first row of the whole table whose condition holds, and the lists after it
    ensures reply { IfOk result (λ r. HasReply model.now (reply_of (record {
      net = model.now;
      clones = lists.old.clones;
      front = front;
      calls = calls;
    }) d.now) (clones_after model.now lists.old.clones d.now) r lists.old lists.new) }
    ensures err { OnErr result (lists.new ≡ lists.old) }
    ensures reserved { HaveRoom lists.old → IsOk result }
{
    if calls >= MAX_CALLS {
        return Ok(Reply::Full);
    }
    if front == model.horizon() {
        return Ok(Reply::Closed);
    }
    let Some(clone) = lists.find(&d.subject()) else {
        return Ok(Reply::UnknownClone);
    };
    if let Some(at) = lists.end_of(clone) {
        return Ok(Reply::Ended { at });
    }
    match d {
        Decision::Fork { new, .. } => decide_fork(alloc, model, lists, clone, *new),
        Decision::Set {
            at,
            station,
            change,
            ..
        } => decide_set(model, lists, front, clone, *at, station, change),
        Decision::End { at, .. } => Ok(decide_end(model, lists, front, clone, *at)),
    }
}
