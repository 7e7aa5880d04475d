//! The helm's turn over the book: the accepted calls since its last turn, and the next front.
ghost use Rattle.std.specs.Prelude.{◌≡◌, ◌≤◌, ◌++◌, ◌∷◌, List};
ghost use Rattle.std.specs.Prelude.{map, drop, length, IfOk, OnOk, MatchResult, if◌then◌else◌};
ghost use Rattle.run_laws.specs.FrontLaws.{time_before as time_before'};
ghost use Rattle.decision_book.specs.Journal.{Event, NewCall, calls_of};
ghost use Rattle.decision_book.specs.Scripts.{accepted_onto, accepted_of};
ghost use Rattle.decision_book.specs.declared.call.Call.{Call};
ghost use Rattle.decision_desk.specs.Passes.{IsHelmTurn, IsTurnAhead, IsSince};
ghost use Rattle.decision_desk.specs.Leasts.{earliest as earliest', leasts_with, leasts_with_calls, helm_at, calls_at};

use crate::helm::Turn;
use crate::legal::LegalBook;
use decision_book::{Call, Reply};
use net_model::Model;
use sim_base::{Decision, Lists, NoMemory};
use stations::due::{earlier, window_end};
use std::alloc::Global;

// The time, if it is before the other time.
fn time_before(at: u64, time: Option<u64>) -> Option<u64>
    ensures value { result ≡ time_before' at time }
{
    match time {
        Some(t) => { if t < at { Some(t) } else { None } }
        None => None,
    }
}

fn is_accepted(reply: Reply) -> bool
    ensures value { (later : List Call) (call : Call) →
        accepted_onto reply call later ≡ (if result then call ∷ later else later) }
{
    match reply {
        Reply::Accepted => true,
        _ => false,
    }
}

// The accepted calls among these, in order.
fn accepted_calls(alloc: Global, calls: &[Call]) -> Result<Vec<Call>, NoMemory>
    ensures value { IfOk result (λ fresh. fresh.items ≡ accepted_of calls.now) }
{
    let mut fresh = Vec::new(alloc);
    for call in calls {
        if is_accepted(call.reply) {
            fresh.push(*call)?;
        }
    }
    Ok(fresh)
}

// The accepted calls among those from this index on.
fn accepted_calls_from(alloc: Global, calls: &[Call], known: usize) -> Result<Vec<Call>, NoMemory>
    requires known { known ≤ length calls.now }
    ensures value { IfOk result (λ fresh. fresh.items ≡ accepted_of (drop known calls.now)) }
{
    accepted_calls(alloc, &calls[known..])
}

// Updates the least times for an accepted decision on the clone at this place.
fn take_decision(
    times: &mut Vec<Option<u64>>,
    place: Option<u32>,
    d: &Decision,
) -> Result<(), NoMemory>
    ensures ok { OnOk result (times.new.items ≡ leasts_with place times.old.items d.now) }
{
    let Some(place) = place else {
        return Ok(());
    };
    let place = place as usize;
    if place >= times.len() {
        return Ok(());
    }
    let time = times[place];
    match d {
        Decision::Fork { .. } => times.push(time)?,
        Decision::Set { at, .. } => times[place] = earlier(Some(*at), time),
        Decision::End { at, .. } => times[place] = time_before(*at, time),
    }
    Ok(())
}

// Updates the least times for these accepted calls.
fn take_calls(times: &mut Vec<Option<u64>>, lists: &Lists, fresh: &[Call]) -> Result<(), NoMemory>
    ensures ok { OnOk result (times.new.items ≡ leasts_with_calls lists.now.clones times.old.items fresh.now) }
{
    for call in fresh {
        take_decision(times, lists.find(&call.decision.subject()), &call.decision)?;
    }
    Ok(())
}

// The earliest of these times.
#[tactic(auto, using(crate::proofs::Leasts::earlier_again, crate::proofs::Leasts::earlier_none))]
fn earliest(times: &[Option<u64>]) -> Option<u64>
    ensures value { result ≡ earliest' times.now }
{
    let mut first = None;
    for time in times {
        first = earlier(first, *time);
    }
    first
}

impl LegalBook {
    // The accepted calls since the helm's last turn, at which `known` calls were in the journal, and the next front.
    fn look_ahead(
        &self,
        alloc: Global,
        known: usize,
        least: &[Option<u64>],
    ) -> Result<Turn, NoMemory>
        requires since { IsSince self.now known least.now }
        ensures is_next { IfOk result (λ turn. IsTurnAhead self.now
            (helm_at known self.now.events) (calls_at known self.now.events) turn.fresh.items turn.front) }
    {
        let book = self.book();
        // recalls a clause: each reply so far is that of the table, and the fronts rise
        let _front = book.front();
        let fresh = accepted_calls_from(alloc, book.calls(), known)?;
        let mut times = Vec::new(alloc);
        times.extend_from_slice(least)?;
        take_calls(&mut times, book.lists(), fresh.as_slice())?;
        let front = window_end(book.model(), earliest(times.as_slice()));
        Ok(Turn { front, fresh })
    }

    /// Returns the accepted calls since the helm's last turn, at which `known` calls were in the journal, and raises
    /// the front to the next one. If out of memory, nothing changes.
    pub fn take_helm_turn(
        &mut self,
        alloc: Global,
        known: usize,
        least: &[Option<u64>],
    ) -> Result<Turn, NoMemory>
        requires since { IsSince self.old known least.now }
        ensures turn { (helm : List Event) (cs : List Call) →
            self.old.events ≡ helm ++ map NewCall cs → known ≡ length (calls_of helm) → MatchResult result
            (λ turn. IsHelmTurn self.old helm cs turn self.new)
            (λ _. self.new ≡ self.old) }
    {
        let turn = self.look_ahead(alloc, known, least)?;
        self.raise(turn.front)?;
        Ok(turn)
    }
}
