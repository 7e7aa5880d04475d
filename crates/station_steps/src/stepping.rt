//! Steps all stations (logical processes), each to its own bound: in place in the caller's thread, or by the workers of
//! a crew.
ghost use Rattle.std.specs.Prelude.{◌≡◌, ◌+◌, ◌<◌, ◌≤◌, ◌++◌, ◌∷◌, []};
ghost use Rattle.std.specs.Prelude.{Some, None, List, length, map, slice_get, IfOk, OnOk};
ghost use Rattle.std.specs.List.{All};
ghost use Rattle.net_model.specs.Net.{Net};
ghost use Rattle.net_model.specs.declared.limits.TheConstants.{MAX_STATIONS};
ghost use Rattle.phys_proc.specs.Ends.{ends_in};
ghost use Rattle.phys_proc.specs.Procs.{ProcView};
ghost use Rattle.station_steps.specs.declared.station_step.StationStep.{StationStep as StationStep'};
ghost use Rattle.station_steps.specs.Windows.{AllDelivered, AllFlow, AreBounds, AreStations, IsNumbered, bound_of};
ghost use Rattle.station_steps.specs.Windows.{all_handled, all_sent};
ghost use Rattle.station_steps.specs.Stepping.{FirstOver, IsPlaceOfOver, AllStepped, AllSteppedAndGiven, SteppedAt};

use crate::mail::Mail;
use crate::sent_list::SentList;
use crate::station_slot::StationSlot;
use crate::station_step::StationStep;
use crate::tasks::steps_for;
use crate::windows::Window;
use clone_sets::CloneSet;
use crew_pool::{Crew, Gate};
use net_model::Model;
use phys_proc::{CloneEnds, Gain, SentMessages};
use sim_base::{NoMemory, Steps};
use std::alloc::Global;
use std::mem;
use std::sync::ledger::Ledger;
use std::sync::{Arc, Wait};

/// What a step of all stations returns.
#[derive(Clone, Copy, Debug)]
pub struct WindowResult {
    /// The index of the first station with a clone over the limit, from 0, and the first such clone there.
    pub over: Option<(u32, u32)>,
    /// The number of messages handled: a hint.
    pub handled: u64,
}

/// Memory for the bounds of all stations and for what they send. It is kept from window to window, so it is allocated
/// once.
#[derive(Drop)]
pub struct Buffers {
    /// The bound of each station, in the order of the stations.
    pub bounds: Vec<u64>,
    /// The messages of all stations that were stepped so far, if they are stepped in place.
    pub sent: SentMessages,
    /// The messages of one station, before they are appended to `sent`.
    one: SentMessages,
    /// The mail of the last window that the crew stepped, kept to reuse the memory of its lists.
    last: Option<Arc<Mail>>,
}

impl Buffers {
    /// No bounds and no messages. It allocates nothing.
    pub fn new(alloc: Global) -> Buffers
        ensures none { result.bounds.items ≡ [] }
    {
        Buffers {
            bounds: Vec::new(alloc),
            sent: SentMessages::new(alloc),
            one: SentMessages::new(alloc),
            last: None,
        }
    }

    /// Sets the same bound for `count` stations.
    ///
    /// # Errors
    ///
    /// Out of memory: the bounds have no meaning.
    pub fn bound_all(&mut self, count: usize, bound: u64) -> Result<(), NoMemory>
        ensures count { OnOk result (length self.new.bounds.items ≡ count) }
        ensures bounds { OnOk result (All (λ b. b ≡ bound) self.new.bounds.items) }
    {
        self.bounds.clear();
        self.bounds.resize(count, bound)?;
        Ok(())
    }
}

// The first station over the limit so far, and its first clone there, if the station at place i is next.
fn first_so_far(before: Option<(u32, u32)>, i: u32, over: CloneSet) -> Option<(u32, u32)>
    requires at_most { i < MAX_STATIONS }
    requires before { IsPlaceOfOver before }
    ensures first { (flows : List StationStep') (f : StationStep') → length flows ≡ i → f.over ≡ over → FirstOver flows
        before →
        FirstOver (flows ++ f ∷ []) result }
    ensures at_most { IsPlaceOfOver result }
{
    if let Some(first) = before {
        return Some(first);
    }
    if let Some(who) = over.first() {
        return Some((i, who));
    }
    None
}

// Steps the station at place i to its bound, in place, and appends what it sends.
fn step_place<L: Ledger>(
    alloc: Global,
    model: &Model,
    ends: &CloneEnds,
    procs: &mut Vec<StationSlot>,
    i: usize,
    buffers: &mut Buffers,
    steps: &mut Steps<L>,
) -> Result<Gain, NoMemory>
    requires place { i < length procs.old.items }
    requires at_most { i < MAX_STATIONS }
    requires bounds { AreBounds model.now procs.old.items buffers.old.bounds.items }
    requires numbered { (p : ProcView) → slice_get procs.old.items i ≡ Some p → IsNumbered model.now i p }
    ensures stepped { IfOk result (λ gain. SteppedAt model.now (ends_in model.now.horizon ends.now)
        (bound_of buffers.old.bounds.items i) i procs.old.items procs.new.items buffers.old.sent
        buffers.new.sent gain.over gain.handled) }
    ensures bounds { buffers.new.bounds ≡ buffers.old.bounds }
    ensures steps { IfOk result (λ gain. steps.new ≡ steps.old + gain.handled) }
{
    let bound = buffers.bounds[i];
    let gain = procs[i].advance(alloc, model, ends, bound, &mut buffers.one, steps)?;
    buffers.sent.append(&buffers.one)?;
    Ok(gain)
}

/// Steps all stations in place, one after the other, each to its bound, in the caller's thread. It calls the gate
/// before each station, as worker 0, and then skips those with nothing due. What the stations send is in the buffers
/// then, and is not delivered. The stations have no meaning if some clone is over the limit.
///
/// # Errors
///
/// Out of memory: the stations have no meaning.
pub(crate) fn step_in_place<G: Gate, L: Ledger>(
    alloc: Global,
    gate: &G,
    model: &Model,
    ends: &CloneEnds,
    procs: &mut Vec<StationSlot>,
    buffers: &mut Buffers,
    steps: &mut Steps<L>,
) -> Result<WindowResult, NoMemory>
    requires stations { AreStations model.now procs.old.items }
    requires bounds { AreBounds model.now procs.old.items buffers.old.bounds.items }
    ensures stepped { IfOk result (λ s. AllStepped model.now (ends_in model.now.horizon ends.now)
        (bound_of buffers.old.bounds.items) procs.old.items procs.new.items buffers.new.sent s.over
        steps.old steps.new) }
    ensures at_most { IfOk result (λ s. IsPlaceOfOver s.over) }
{
    buffers.sent.clear();
    let mut over = None;
    let mut handled: u64 = 0;
    for i in 0..procs.len() {
        gate.before(0, i as u32);
        if procs[i].is_idle(buffers.bounds[i]) {
            continue;
        }
        let gain = step_place(alloc, model, ends, procs, i, buffers, steps)?;
        over = first_so_far(over, i as u32, gain.over);
        handled = handled.saturating_add(gain.handled);
    }
    Ok(WindowResult { over, handled })
}

// The copies of all stations, and the list that each sent. The stations keep these other lists to reuse their memory.
fn take_apart(
    alloc: Global,
    flows: Vec<StationStep>,
    rooms: Vec<SentList>,
) -> Result<(Vec<StationSlot>, Vec<SentList>), NoMemory>
    ensures procs { IfOk result (λ p. p.0.items ≡ map (λ f. f.done) flows.items) }
    ensures sent { IfOk result (λ p. p.1.items ≡ map (λ f. f.sent) flows.items) }
{
    let mut procs = Vec::with_capacity(alloc, flows.len())?;
    let mut lists = Vec::with_capacity(alloc, flows.len())?;
    let mut rooms = rooms;
    for flow in flows {
        let StationStep {
            mut done,
            sent,
            over: _,
            handled: _,
        } = flow;
        if let Some(room) = rooms.pop() {
            done.keep(room);
        }
        procs.push(done)?;
        lists.push(sent)?;
    }
    Ok((procs, lists))
}

// The number of messages that the stations have handled.
fn handled_in(flows: &[StationStep]) -> u64 {
    let mut sum: u64 = 0;
    for flow in flows {
        sum = sum.saturating_add(flow.handled);
    }
    sum
}

// The first station with a clone over the limit, and there the first clone.
fn first_over(flows: &[StationStep]) -> Option<(u32, u32)>
    requires at_most { length flows.now ≤ MAX_STATIONS }
    ensures first { FirstOver flows.now result }
    ensures at_most { IsPlaceOfOver result }
{
    for i in 0..flows.len() {
        if let Some(who) = flows[i].over.first() {
            return Some((i as u32, who));
        }
    }
    None
}

// Takes the copies of all stations from the results of their tasks. The stations share what they sent as their mail.
fn gather_flows(
    alloc: Global,
    flows: Vec<StationStep>,
    procs: &mut Vec<StationSlot>,
    buffers: &mut Buffers,
) -> Result<(WindowResult, Arc<Mail>), NoMemory>
    requires at_most { length flows.items ≤ MAX_STATIONS }
    ensures procs { OnOk result (procs.new.items ≡ map (λ f. f.done) flows.items) }
    ensures sent { IfOk result (λ s. s.1.value ≡ all_sent flows.items) }
    ensures over { IfOk result (λ s. FirstOver flows.items s.0.over) }
    ensures at_most { IfOk result (λ s. IsPlaceOfOver s.0.over) }
{
    let over = first_over(flows.as_slice());
    let handled = handled_in(flows.as_slice());
    let rooms = Mail::lists_of(alloc, buffers.last.take());
    let (stepped, lists) = take_apart(alloc, flows, rooms)?;
    *procs = stepped;
    let mail = Mail::shared(alloc, lists)?;
    Ok((WindowResult { over, handled }, mail))
}

// Runs the tasks of all stations by the crew.
fn run_tasks<G: Gate, L: Ledger, R: Wait>(
    rt: &R,
    alloc: Global,
    crew: &mut Crew<'_, Window, G>,
    work: Arc<Window>,
    procs: Vec<StationSlot>,
    bounds: &[u64],
    steps: &mut Steps<L>,
) -> Result<Vec<StationStep>, NoMemory>
    requires stations { AreStations work.value.net procs.items }
    requires bounds { AreBounds work.value.net procs.items bounds.now }
    ensures count { IfOk result (λ flows. length flows.items ≡ length procs.items) }
    ensures flows { IfOk result (λ flows. AllFlow work.value.net (ends_in work.value.net.horizon work.value.ends)
        (bound_of bounds.now) procs.items flows.items) }
    ensures cost { IfOk result (λ flows. steps.new ≡ steps.old + all_handled flows.items) }
{
    let tasks = steps_for(alloc, procs, bounds)?;
    let flows = crew.all(rt, alloc, work, tasks, steps)?;
    Ok(flows)
}

// Posts the mail to each station, which takes its messages at its next step.
fn post_all(procs: &mut Vec<StationSlot>, mail: &Arc<Mail>) -> Result<(), NoMemory>
    requires stations { (net : Net) × AreStations net procs.old.items }
    ensures given { OnOk result (AllDelivered mail.now.value procs.old.items procs.new.items) }
{
    for i in 0..procs.len() {
        procs[i].post(mail)?;
    }
    Ok(())
}

/// Steps all stations by the crew, each to its bound. Each station is a task, even if nothing is due there. If no clone
/// is over the limit, each station gets what the others sent to it, and takes it at its next step. Otherwise the
/// stations have no meaning.
///
/// # Errors
///
/// Out of memory: the stations have no meaning.
pub(crate) fn step_by_crew<G: Gate, L: Ledger, R: Wait>(
    rt: &R,
    alloc: Global,
    crew: &mut Crew<'_, Window, G>,
    work: Arc<Window>,
    procs: &mut Vec<StationSlot>,
    buffers: &mut Buffers,
    steps: &mut Steps<L>,
) -> Result<WindowResult, NoMemory>
    requires stations { AreStations work.value.net procs.old.items }
    requires bounds { AreBounds work.value.net procs.old.items buffers.old.bounds.items }
    ensures stepped { IfOk result (λ s. AllSteppedAndGiven work.value.net
        (ends_in work.value.net.horizon work.value.ends) (bound_of buffers.old.bounds.items) procs.old.items
        procs.new.items s.over steps.old steps.new) }
    ensures at_most { IfOk result (λ s. IsPlaceOfOver s.over) }
{
    let olds = mem::replace(procs, Vec::new(alloc));
    let flows = run_tasks(
        rt,
        alloc,
        crew,
        work,
        olds,
        buffers.bounds.as_slice(),
        steps,
    )?;
    let (stepped, mail) = gather_flows(alloc, flows, procs, buffers)?;
    if let Some(_) = stepped.over {
        return Ok(stepped);
    }
    post_all(procs, &mail)?;
    buffers.last = Some(mail);
    Ok(stepped)
}
