//! Whether a run may go on from the parts of a snapshot.
ghost use Rattle.std.specs.Prelude.{◌≡◌, ℕ, ◌+◌, ◌-◌, ◌^◌, ◌<◌, ◌≤◌, [], None, length, get_or, slice_get};
ghost use Rattle.std.specs.Prelude.{IfSome, IsTrue};
ghost use Rattle.net_model.specs.Net.{HasStation};
ghost use Rattle.net_model.specs.Rules.{IsNet};
ghost use Rattle.net_model.specs.declared.limits.TheConstants.{MAX_STATIONS};
ghost use Rattle.checkpoint.specs.RunKeeps.{completions_to};
ghost use Rattle.checkpoint.specs.Accepted.{first_unfit as first_unfit', fits_end as fits_end'};
ghost use Rattle.checkpoint.specs.Accepted.{fits_front as fits_front'};
ghost use Rattle.checkpoint.specs.Due.{busy_shape, comes_after as comes_after', first_bad as first_bad'};
ghost use Rattle.checkpoint.specs.Due.{busy_in, has_service as has_service', may_be_due as may_be_due'};
ghost use Rattle.checkpoint.specs.Due.{may_carry as may_carry', next_of as next_of'};
ghost use Rattle.snapshot_text.specs.Counts.{is_addressed as is_addressed', is_in_time as is_in_time'};

use net_model::Model;
use net_model::limits::MAX_STATIONS;
use sim_base::{MAX_DECISIONS, Msg, Payload};
use stations::restoring::is_job;
use stations::sender::MAX_EVENT_TIMES;
use stations::{Saved, Shape};
use std::cmp::Ordering;

fn fits_end(model: &Model, front: u64, end: Option<u64>) -> bool
    ensures value { result ≡ fits_end' model.now front end }
{
    match end {
        Some(end) => front <= end && end < model.horizon(),
        None => true,
    }
}

/// Whether the run of a clone with this end may have come to a front.
pub(crate) fn fits_front(model: &Model, front: u64, end: Option<u64>) -> bool
    ensures value { result ≡ fits_front' model.now front end }
    ensures valid { IsNet model.now }
{
    front <= model.horizon() && fits_end(model, front, end)
}

/// The first station, from 1, that its saved data does not fit.
#[tactic(auto, using(crate::proofs::Counting::unfit_next, crate::proofs::Counting::unfit_here))]
pub(crate) fn first_unfit(model: &Model, saved: &[Saved]) -> Option<u32>
    requires count { length saved.now ≡ length model.now.sites }
    ensures value { result ≡ first_unfit' model.now 1 saved.now }
{
    for s in 0..model.len() {
        if !saved[s as usize].is_fit(model, s + 1) {
            return Some(s + 1);
        }
    }
    None
}

fn comes_after(last: Option<Msg>, message: &Msg) -> bool
    ensures value { result ≡ comes_after' last message.now }
{
    match last {
        Some(last) => match last.key.cmp(&message.key) {
            Ordering::Less => true,
            Ordering::Equal | Ordering::Greater => false,
        },
        None => true,
    }
}

// Whether a message comes after the last one, and its time is neither before the front nor too late.
fn is_in_time(front: u64, last: Option<Msg>, message: &Msg) -> bool
    ensures value { result ≡ is_in_time' front last message.now }
{
    comes_after(last, message) && (front <= message.key.time && message.key.time < MAX_EVENT_TIMES)
}

// Whether a message is for a station, and is from one or from an analyst.
fn is_addressed(model: &Model, message: &Msg) -> bool
    ensures value { result ≡ is_addressed' model.now message.now }
    ensures stations_max { length model.now.sites ≤ MAX_STATIONS }
    ensures station { IsTrue result → HasStation model.now message.now.to }
    ensures at_most { IsTrue result → message.now.to ≤ MAX_STATIONS }
{
    let count = model.len();
    0 < message.to && message.to <= count && message.key.sender <= count
}

// The number of a sender's next message.
#[tactic(auto, using(crate::proofs::Counting::next_of_station))]
fn next_of(saved: &[Saved], sender: u32) -> u64
    ensures value { result ≡ next_of' saved.now sender }
{
    if sender == 0 {
        return u64::from(MAX_DECISIONS);
    }
    match saved.get(sender as usize - 1) {
        Some(saved) => saved.next,
        None => 0,
    }
}

fn busy_of(shape: &Shape) -> Option<u64>
    ensures value { result ≡ busy_shape shape.now }
{
    match shape {
        Shape::Server { busy, .. } => Some(*busy),
        _ => None,
    }
}

// The number of jobs in service at a station, if it is a server.
fn busy_at(saved: &[Saved], station: u32) -> Option<u64>
    requires low { 1 ≤ station }
    ensures value { result ≡ busy_in (slice_get saved.now (station - 1)) }
{
    match saved.get(station as usize - 1) {
        Some(saved) => busy_of(&saved.shape),
        None => None,
    }
}

fn has_service(completions: u64, busy: Option<u64>) -> bool
    ensures value { result ≡ has_service' completions busy }
{
    match busy {
        Some(busy) => completions < busy,
        None => true,
    }
}

// Whether a message may carry its payload, after this number of completions at its receiver.
fn may_carry(model: &Model, saved: &[Saved], completions: u64, message: &Msg) -> bool
    requires low { 1 ≤ message.now.to }
    ensures value { result ≡ may_carry' model.now saved.now completions message.now.to message.now.payload }
{
    match &message.payload {
        Payload::Tick | Payload::Set(_) => true,
        Payload::Job(job) => is_job(model, job),
        Payload::Done(job) => {
            is_job(model, job) && has_service(completions, busy_at(saved, message.to))
        }
    }
}

// Whether a message may be pending after the last one, and after these numbers of completions at the stations.
fn may_be_due(
    model: &Model,
    front: u64,
    saved: &[Saved],
    counts: &[u64],
    last: Option<Msg>,
    message: &Msg,
) -> bool
    requires counts { length counts.now ≡ MAX_STATIONS }
    ensures value { result ≡ may_be_due' model.now front saved.now (get_or counts.now (message.now.to - 1) 0)
        last message.now }
    ensures stations_max { length model.now.sites ≤ MAX_STATIONS }
    ensures station { IsTrue result → HasStation model.now message.now.to }
    ensures at_most { IsTrue result → message.now.to ≤ MAX_STATIONS }
{
    let addressed = is_addressed(model, message);
    if !is_in_time(front, last, message) || !addressed {
        return false;
    }
    let completions = counts[message.to as usize - 1];
    message.key.number < next_of(saved, message.key.sender)
        && may_carry(model, saved, completions, message)
}

// Counts a message if it is a completion.
fn count_completion(counts: &mut [u64], message: &Msg)
    requires stations { length counts.old ≡ MAX_STATIONS }
    requires low { 1 ≤ message.now.to }
    requires high { message.now.to ≤ MAX_STATIONS }
    requires room { get_or counts.old (message.now.to - 1) 0 < 2 ^ 64 - 1 }
    ensures counted { (s : ℕ) → s < MAX_STATIONS
        → get_or counts.new s 0 ≡ get_or counts.old s 0 + completions_to (s + 1) message.now }
    ensures stations { length counts.new ≡ MAX_STATIONS }
{
    if let Payload::Done(_) = message.payload {
        counts[message.to as usize - 1] += 1;
    }
}

/// The place, from 0, of the first pending message that may not be pending.
pub(crate) fn first_bad(model: &Model, front: u64, saved: &[Saved], due: &[Msg]) -> Option<usize>
    ensures value { result ≡ first_bad' model.now front saved.now [] None due.now }
    ensures index { IfSome result (λ i. i < length due.now) }
{
    let mut counts = [0u64; MAX_STATIONS];
    let mut last: Option<Msg> = None;
    for index in 0..due.len() {
        let message = due[index];
        if !may_be_due(model, front, saved, &counts, last, &message) {
            return Some(index);
        }
        count_completion(&mut counts, &message);
        last = Some(message);
    }
    None
}
