//! A station as a logical process: the physical copies that represent its virtual processes, one for each clone.
ghost use Rattle.std.specs.Prelude.{◌≡◌, ℕ, ◌<◌, ◌≤◌, ◌+◌, ◌*◌, ◌∷◌, [], true, false, OnOk, IfOk, map};
ghost use Rattle.std.specs.List.{AllByRecursion, AllZip};
ghost use Rattle.clone_sets.specs.Sets.{has, one, with, empty, size};
ghost use Rattle.sim_base.specs.declared.lists.TheConstants.{MAX_CLONES};
ghost use Rattle.net_model.specs.Net.{Net, HasStation};
ghost use Rattle.stations.specs.Runs.{simulation};
ghost use Rattle.run_laws.specs.Copies.{first_copy, first_pending as first_pending', IsForked};
ghost use Rattle.run_laws.specs.Copies.{IsStepped, AreOver, GainTogether};
ghost use Rattle.phys_proc.specs.Own.{with_message, copy_after_fork, but_pending, IsCopy, IsLowerBound};
ghost use Rattle.phys_proc.specs.Own.{IsLowerBoundOfAll};
ghost use Rattle.phys_proc.specs.Ends.{ends_in};
ghost use Rattle.phys_proc.specs.Procs.{IsProc, AreShared};
ghost use Rattle.phys_proc.specs.StepOutputs.{IsNewOutput};
ghost use Rattle.phys_proc.specs.Racks.{ShowsClones, view_of_copy};
ghost use Rattle.copy_pending.specs.Merged.{messages_of};

use crate::advancing::StepOutput;
use crate::clone_ends::CloneEnds;
use crate::copies::Copies;
use crate::copy::PhysCopy;
use crate::rack::Rack;
use crate::sent::SentMessages;
use crate::step_goal::StepGoal;
use crate::stepping::step_copies;
use arrayvec::ArrayVec;
use clone_sets::CloneSet;
use copy_pending::CopyPending;
use log_chain::Log;
use msg_heap::PackedMsg;
use net_model::Model;
use sim_base::{Lists, MAX_CLONES, Msg, NoMemory, Steps};
use stations::MAX_SENDS;
use stations::state::setup;
use std::alloc::Global;
use std::mem;
use std::sync::Arc;
use std::sync::ledger::Ledger;

// The number of hints of a station: one for each possible clone.
const GUESSES: usize = MAX_CLONES as usize;

/// The physical processes of one station: a list of copies. Each living clone is in one of them.
#[derive(Drop)]
pub struct Proc {
    station: u32,
    living: CloneSet,
    handled: u64,
    copies: Copies,
    // for each clone a hint for the index of its copy, where a search begins
    places: Vec<u8>,
    // buffer for the sends of one message, allocated by the first step and then reused: an empty one is over a kilobyte
    // to write
    out: Option<Box<ArrayVec<Msg, MAX_SENDS>>>,
    // what a step has done so far, also kept to reuse its memory
    stage: Option<Box<StepOutput>>,
}

impl std::marker::Model for Proc {
    ghost use Rattle.phys_proc.specs.Procs.{ProcView, KeepsShares};

    ghost Value = { ProcView };

    ghost view = { λ p. record { station = p.station; living = p.living; handled = p.handled; copies = p.copies } };

    ghost invariant = { λ p. KeepsShares (record {
      station = p.station;
      living = p.living;
      handled = p.handled;
      copies = p.copies;
    }) };
}

/// The result of a step in place, except the sends.
#[derive(Clone, Copy, Debug, PartialEq, Eq)]
pub struct Gain {
    /// The clones whose logs would get longer than the limit.
    pub over: CloneSet,
    /// The number of messages handled, each counted once for all clones of a copy.
    pub handled: u64,
}

// A first message, if there is one, pending for these clones.
fn first_pending(alloc: Global, first: Option<Msg>, set: CloneSet) -> Result<CopyPending, NoMemory>
    ensures set { IfOk result (λ p. p.set ≡ set) }
    ensures first { IfOk result (λ p. messages_of p ≡ first_pending' set first) }
{
    let mut pending = CopyPending::new(alloc, set);
    if let Some(msg) = first {
        pending.insert_for_all(msg)?;
    }
    Ok(pending)
}

// The opening of a station, for the first clone.
fn opening(alloc: Global, model: &Model, station: u32) -> Result<Copies, NoMemory>
    requires is_station { HasStation model.now station }
    ensures first { IfOk result (λ p. p ≡ first_copy (simulation model.now) (one 0) station ∷ []) }
    ensures fits { IfOk result (λ p. AllByRecursion (IsCopy model.now station) p) }
{
    // for its clause: the model is a network that keeps the rules
    let _horizon = model.horizon();
    let (state, first) = setup(alloc, model, station)?;
    let set = CloneSet::one(0);
    let pending = first_pending(alloc, first, set)?;
    let mut copies = Copies::none(alloc);
    copies.put(
        PhysCopy {
            state,
            log: Log::new(alloc),
            pending,
        },
        0,
    )?;
    Ok(copies)
}

// The hint for the copy of the first of these clones.
fn guess_of(places: &[u8], set: CloneSet) -> usize {
    let Some(who) = set.first() else {
        return 0;
    };
    match places.get(who as usize) {
        Some(place) => *place as usize,
        None => 0,
    }
}

// Stores the hint for the copy of the first of these clones, if it is another than before.
#[inline(always)]
fn note_place(places: &mut Vec<u8>, set: CloneSet, before: usize, place: usize) {
    if place != before {
        store_place(places, set, place);
    }
}

// Stores the hint for the copy of the first of these clones.
#[inline(never)]
fn store_place(places: &mut Vec<u8>, set: CloneSet, place: usize) {
    if let Some(who) = set.first() {
        if let Some(guess) = places.get_mut(who as usize) {
            *guess = place.min(GUESSES - 1) as u8;
        }
    }
}

// The buffer used before, or a new one.
fn buffer(
    alloc: Global,
    used: Option<Box<ArrayVec<Msg, MAX_SENDS>>>,
) -> Result<Box<ArrayVec<Msg, MAX_SENDS>>, NoMemory> {
    match used {
        Some(out) => Ok(out),
        None => Ok(Box::new(alloc, ArrayVec::new())?),
    }
}

// The progress of a step at its start: what was used before, or a new one.
#[inline(always)]
fn fresh(alloc: Global, used: Option<Box<StepOutput>>) -> Result<Box<StepOutput>, NoMemory>
    ensures new { IfOk result (λ stage. IsNewOutput stage.value) }
{
    match used {
        Some(mut stage) => {
            stage.restart(alloc);
            Ok(stage)
        }
        None => Ok(Box::new(alloc, StepOutput::new(alloc))?),
    }
}

// The result of a step at its end. Its sends are exchanged for those in `sent`.
#[inline(always)]
fn gain_of(stage: &mut StepOutput, sent: &mut SentMessages) -> Gain
    ensures sent { sent.new ≡ stage.old.sent }
    ensures over { result.over ≡ stage.old.over }
    ensures handled { result.handled ≡ stage.old.handled }
{
    mem::swap(&mut stage.sent, sent);
    Gain {
        over: stage.over,
        handled: stage.handled,
    }
}

impl Proc {
    /// Opens a station: one copy, for the first clone.
    pub fn new(alloc: Global, model: &Model, station: u32) -> Result<Proc, NoMemory>
        requires is_station { HasStation model.now station }
        // result: the one copy of the opening; only the first clone lives, and nothing is handled
        ensures value { IfOk result (λ p. p ≡ record {
          station = station;
          living = one 0;
          handled = 0;
          copies = first_copy (simulation model.now) (one 0) station ∷ [];
        }) }
        // it is a station of the network
        ensures proc { IfOk result (λ p. IsProc model.now p) }
    {
        // for its clause: the model is a network that keeps the rules
        let _horizon = model.horizon();
        let copies = opening(alloc, model, station)?;
        let places = Vec::from_array(alloc, [0; GUESSES])?;
        Ok(Proc {
            station,
            living: CloneSet::one(0),
            handled: 0,
            copies,
            places,
            out: None,
            stage: None,
        })
    }

    /// Steps the copies to the bound, in place; their sends to other stations replace those in `sent`.
    /// If out of memory, or if some clone is over the limit, the copies and `sent` are meaningless.
    pub fn advance<L: Ledger>(
        &mut self,
        alloc: Global,
        model: &Model,
        ends: &CloneEnds,
        bound: u64,
        sent: &mut SentMessages,
        steps: &mut Steps<L>,
    ) -> Result<Gain, NoMemory>
        requires proc { IsProc model.now self.old }
        requires time_max { bound ≤ model.now.horizon }
        // result: the copies at the bound and their sends, if no log is over the limit
        ensures windows { IfOk result (λ g. g.over ≡ empty →
            IsStepped (simulation model.now) has (ends_in model.now.horizon ends.now) self.old.station bound
            self.old.copies self.new.copies sent.new) }
        // or the clones whose logs would get longer than the limit
        ensures over { IfOk result (λ g. AreOver (simulation model.now) has (ends_in model.now.horizon ends.now)
            self.old.station bound self.old.copies g.over) }
        // counts: the messages handled, each once for all clones of a copy
        ensures gained { IfOk result (λ g. GainTogether (simulation model.now) has
            (ends_in model.now.horizon ends.now) self.old.station bound self.old.copies g.handled) }
        ensures counted { IfOk result (λ g. steps.new ≡ steps.old + g.handled) }
        ensures at_most { IfOk result (λ g. g.handled ≤ size self.old.living * model.now.limit) }
        // invariant: a station of the network, its number, and its clones if no log is over the limit
        ensures proc { OnOk result (IsProc model.now self.new) }
        ensures station { self.new.station ≡ self.old.station }
        ensures living { IfOk result (λ g. g.over ≡ empty → self.new.living ≡ self.old.living) }
        ensures handled { IfOk result (λ g. g.over ≡ empty → self.new.handled ≡ self.old.handled + g.handled) }
    {
        // for its clause: the model is a network that keeps the rules
        let _horizon = model.horizon();
        // for its clauses: the number of living clones is within the limit
        let _clones = self.living.len();
        let mut out = buffer(alloc, self.out.take())?;
        let mut stage = fresh(alloc, self.stage.take())?;
        let goal = StepGoal {
            model,
            station: self.station,
            ends,
            bound,
        };
        let stepped = step_copies(alloc, &mut self.copies, &goal, &mut out, &mut stage, steps);
        if let Err(error) = stepped {
            self.living = CloneSet::empty();
            self.handled = 0;
            self.copies = Copies::none(alloc);
            return Err(error);
        }
        let gain = gain_of(&mut stage, sent);
        self.out = Some(out);
        self.stage = Some(stage);
        if gain.over.is_empty() {
            self.handled += gain.handled;
        } else {
            self.living = CloneSet::empty();
            self.handled = 0;
            self.copies = Copies::none(alloc);
        }
        Ok(gain)
    }

    /// Adds a message for its clones in the set.
    ///
    /// If out of memory, some of the copies may have it; nothing else of them has changed.
    #[inline(never)]
    pub fn deliver(&mut self, msg: Msg, set: CloneSet) -> Result<(), NoMemory>
        requires target { msg.to ≡ self.old.station }
        // result: the message is pending for the station's clones in the set
        ensures given { OnOk result (self.new.copies ≡ map (with_message msg set) self.old.copies) }
        ensures proc { OnOk result ((net : Net) → IsProc net self.old → IsProc net self.new) }
        // invariant, also if out of memory: everything except the pending messages
        ensures same { map but_pending self.new.copies ≡ map but_pending self.old.copies }
        ensures station { self.new.station ≡ self.old.station }
        ensures living { self.new.living ≡ self.old.living }
        ensures handled { self.new.handled ≡ self.old.handled }
    {
        let guess = guess_of(self.places.as_slice(), set);
        let place = self.copies.deliver_by_hint(msg, set, guess)?;
        note_place(&mut self.places, set, guess, place);
        Ok(())
    }

    /// Adds a packed message for its clones in the set, as `deliver` does.
    #[inline(always)]
    pub fn deliver_packed(&mut self, msg: PackedMsg, set: CloneSet) -> Result<(), NoMemory>
        requires target { msg.to ≡ self.old.station }
        // result: the message is pending for the station's clones in the set
        ensures given { OnOk result (self.new.copies ≡ map (with_message msg set) self.old.copies) }
        ensures proc { OnOk result ((net : Net) → IsProc net self.old → IsProc net self.new) }
        // invariant, also if out of memory: everything except the pending messages
        ensures same { map but_pending self.new.copies ≡ map but_pending self.old.copies }
        ensures station { self.new.station ≡ self.old.station }
        ensures living { self.new.living ≡ self.old.living }
        ensures handled { self.new.handled ≡ self.old.handled }
    {
        let guess = guess_of(self.places.as_slice(), set);
        if self.copies.deliver_packed(msg, set, guess)? {
            return Ok(());
        }
        self.deliver(msg.msg(), set)
    }

    /// Adds the clone `new`, which has no end, next to the clone `old`: to its copy, and to the marks of its pending
    /// messages.
    pub fn fork(&mut self, old: u32, new: u32)
        requires old { has self.old.living old ≡ true }
        requires new { has self.old.living new ≡ false }
        requires below { new < MAX_CLONES }
        // result: the new clone lives too, next to the old one, in its copy and in the marks
        ensures forked { self.new ≡ record {
          station = self.old.station;
          living = with self.old.living new;
          handled = self.old.handled;
          copies = map (copy_after_fork old new) self.old.copies;
        } }
        ensures each_forked { (net : Net) (ends : ℕ → ℕ) → IsProc net self.old →
            AllZip (IsForked (simulation net) has ends old new) self.old.copies self.new.copies }
        // invariant: it is a station of the network
        ensures proc { (net : Net) → IsProc net self.old → IsProc net self.new }
    {
        // for its clause: each living clone's number is within the limit
        let _clones = self.living.len();
        self.copies.fork(old, new);
        self.living = self.living.with(new);
    }

    /// The view of the station for a reader: the copies at the front, and the lists of the clones that they represent.
    ///
    /// The station does not change, even if out of memory.
    pub fn rack(
        &mut self,
        alloc: Global,
        model: Arc<Model>,
        lists: Arc<Lists>,
        front: u64,
    ) -> Result<Rack, NoMemory>
        requires right { ShowsClones model.value lists.value.clones self.old.station front
            (map view_of_copy self.old.copies) }
        ensures rack { IfOk result (λ r. r ≡ record {
          net = model.value;
          clones = lists.value.clones;
          station = self.old.station;
          front = front;
          copies = map view_of_copy self.old.copies;
        }) }
        ensures same { self.new ≡ self.old }
    {
        let copies = self.copies.see_all(alloc)?;
        Ok(Rack {
            model,
            lists,
            station: self.station,
            front,
            copies,
        })
    }

    /// The number of its station.
    pub fn station(&self) -> u32
        ensures value { result ≡ self.now.station }
    {
        self.station
    }

    /// The clones that live.
    pub fn living(&self) -> CloneSet
        ensures value { result ≡ self.now.living }
        ensures shared { AreShared self.now.living self.now.copies }
    {
        self.living
    }

    /// A lower bound of the pending times of all copies.
    pub fn lower_bound(&self) -> u64
        ensures lower { IsLowerBoundOfAll result self.now.copies }
    {
        self.copies.lower_bound()
    }

    /// The number of messages handled, each counted once for all clones of a copy.
    pub fn handled(&self) -> u64
        ensures value { result ≡ self.now.handled }
    {
        self.handled
    }

    /// For each copy, at the same index, a lower bound of its pending times.
    pub(crate) fn bounds(&self) -> &[u64]
        ensures each { AllZip IsLowerBound result.now self.now.copies }
    {
        self.copies.bounds()
    }

    /// The copies.
    pub fn copies(&self) -> &[PhysCopy]
        ensures value { result.now ≡ self.now.copies }
        ensures shared { AreShared self.now.living self.now.copies }
    {
        self.copies.as_slice()
    }
}
