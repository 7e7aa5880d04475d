//! The messages that one station (a logical process) sent in a window, with a first time for each receiver.
ghost use Rattle.std.specs.Prelude.{◌≡◌, ◌≤◌, ◌∷◌, [], ℕ, Some, IsTrue, IfSome, OnOk, IfOk, false, map};
ghost use Rattle.sim_base.specs.declared.message.Msg.{Msg as Msg'};
ghost use Rattle.clone_sets.specs.declared.set.CloneSet.{CloneSet as CloneSet'};
ghost use Rattle.phys_proc.specs.Ends.{ends_in};
ghost use Rattle.net_model.specs.Net.{Net};
ghost use Rattle.phys_proc.specs.Own.{with_message};
ghost use Rattle.phys_proc.specs.Procs.{IsProc};
ghost use Rattle.phys_proc.specs.Sent.{msg_in};
ghost use Rattle.station_steps.specs.Mail.{IsEarliest, IsFirstFor, IsMailTaken, IsNoted};
ghost use Rattle.station_steps.specs.Windows.{IsDeliveredTo, mail_for};

use clone_sets::CloneSet;
use net_model::limits::MAX_STATIONS;
use phys_proc::{CloneEnds, Proc, SentMessages, SentMsg};
use sim_base::NoMemory;
use std::alloc::Global;

/// Used as a first time if there is no message for the station.
pub const NO_MAIL: u64 = u64::MAX;

// The latest first time.
const LATEST_FIRST: u64 = NO_MAIL - 1;

// One first time for each station number, from 0.
const PLACES: usize = MAX_STATIONS + 1;

/// The messages that a station sent in a window, in order, each with the clones that send it. For each receiver the
/// list has a lower bound of the times of its messages.
#[derive(Drop)]
pub struct SentList {
    messages: SentMessages,
    firsts: Vec<u64>,
}

impl std::marker::Model for SentList {
    ghost use Rattle.std.specs.List.{AllByRecursion};
    ghost use Rattle.station_steps.specs.Mail.{IsNoted, SentView};

    ghost Value = { SentView };

    ghost view = { λ l. record { items = l.messages } };

    ghost invariant = { λ l. AllByRecursion (IsNoted l.firsts.items) l.messages };
}

// Records the time of a message for its station.
fn note(firsts: &mut Vec<u64>, msg: &SentMsg)
    ensures noted { (set : CloneSet') → IsNoted firsts.new.items (msg_in msg.now, set) }
    ensures before { (x : Msg' × CloneSet') → IsNoted firsts.old.items x → IsNoted firsts.new.items x }
{
    let place = msg.to() as usize;
    if place < firsts.len() {
        let first = firsts[place];
        firsts[place] = first.min(msg.time()).min(LATEST_FIRST);
    }
}

// Whether there is a time, and it is at most the other.
fn is_at_most(time: Option<u64>, other: u64) -> bool
    ensures yes { IsTrue result → (t : ℕ) × (time ≡ Some t) × (t ≤ other) }
    ensures no { result ≡ false → IfSome time (λ t. other ≤ t) }
{
    match time {
        Some(time) => time <= other,
        None => false,
    }
}

// The earlier of a time and that of a message, if some of these clones are in its set and take it before their end.
fn earlier_of_message(
    before: Option<u64>,
    msg: &SentMsg,
    set: CloneSet,
    clones: CloneSet,
    ends: &CloneEnds,
    horizon: u64,
) -> Option<u64>
    ensures earliest { IsEarliest before
        (IsMailTaken (ends_in horizon ends.now) clones ((msg_in msg.now, set) ∷ [])) result }
{
    let time = msg.time();
    if is_at_most(before, time) || time >= horizon {
        return before;
    }
    let takers = set.meet(clones).minus(ends.ended_clones(time));
    if takers.is_empty() {
        return before;
    }
    Some(time)
}

// Delivers a message to the copies of its station.
fn deliver(proc: &mut Proc, msg: &SentMsg, set: CloneSet) -> Result<(), NoMemory>
    requires target { (msg_in msg.now).to ≡ proc.old.station }
    ensures given { OnOk result (proc.new.copies ≡ map (with_message (msg_in msg.now) set) proc.old.copies) }
    ensures proc { OnOk result ((net : Net) → IsProc net proc.old → IsProc net proc.new) }
    ensures station { proc.new.station ≡ proc.old.station }
    ensures living { proc.new.living ≡ proc.old.living }
    ensures handled { proc.new.handled ≡ proc.old.handled }
{
    match msg {
        SentMsg::Packed(msg) => proc.deliver_packed(*msg, set),
        SentMsg::Whole(msg) => proc.deliver(*msg, set),
    }
}

impl SentList {
    /// An empty list. It allocates nothing.
    pub fn empty(alloc: Global) -> SentList
        ensures none { result.items ≡ [] }
    {
        SentList {
            messages: SentMessages::new(alloc),
            firsts: Vec::new(alloc),
        }
    }

    /// The list's memory, emptied for the next window.
    pub(crate) fn room(self) -> (SentMessages, Vec<u64>)
        ensures none { result.0 ≡ [] }
    {
        let SentList {
            mut messages,
            mut firsts,
        } = self;
        messages.clear();
        firsts.clear();
        (messages, firsts)
    }

    /// Makes a list of these messages. `firsts` is overwritten with the first times.
    ///
    /// # Errors
    ///
    /// Out of memory: the messages are dropped.
    pub(crate) fn of(messages: SentMessages, firsts: Vec<u64>) -> Result<SentList, NoMemory>
        ensures messages { IfOk result (λ l. l.items ≡ messages) }
    {
        let mut firsts = firsts;
        firsts.clear();
        firsts.resize(PLACES, NO_MAIL)?;
        for i in 0..messages.len() {
            let (msg, _set) = messages.at(i);
            note(&mut firsts, &msg);
        }
        Ok(SentList { messages, firsts })
    }

    /// A lower bound of the times of the messages for the station; [`NO_MAIL`] only if there is none.
    pub(crate) fn first_for(&self, station: u32) -> u64
        ensures first { IsFirstFor station self.now.items result }
    {
        let place = station as usize;
        if place < self.firsts.len() {
            self.firsts[place]
        } else {
            0
        }
    }

    /// Delivers to the copies of a station their messages.
    ///
    /// # Errors
    ///
    /// Out of memory: some of the copies may have some of the messages.
    pub(crate) fn hand_over(&self, proc: &mut Proc) -> Result<(), NoMemory>
        ensures given { OnOk result (IsDeliveredTo (mail_for proc.old.station self.now.items) proc.old proc.new) }
        // also if out of memory
        ensures station { proc.new.station ≡ proc.old.station }
        ensures living { proc.new.living ≡ proc.old.living }
        ensures handled { proc.new.handled ≡ proc.old.handled }
    {
        let station = proc.station();
        if self.first_for(station) == NO_MAIL {
            return Ok(());
        }
        for i in 0..self.messages.len() {
            let (msg, set) = self.messages.at(i);
            if msg.to() == station {
                deliver(proc, &msg, set)?;
            }
        }
        Ok(())
    }

    /// The earlier of a time and the least time of the station's messages that some of these clones take, each before
    /// its end.
    pub(crate) fn earlier_for(
        &self,
        station: u32,
        clones: CloneSet,
        ends: &CloneEnds,
        horizon: u64,
        before: Option<u64>,
    ) -> Option<u64>
        ensures earliest { IsEarliest before
            (IsMailTaken (ends_in horizon ends.now) clones (mail_for station self.now.items)) result }
    {
        let first = self.first_for(station);
        if first == NO_MAIL || is_at_most(before, first) {
            return before;
        }
        let mut least = before;
        for i in 0..self.messages.len() {
            let (msg, set) = self.messages.at(i);
            if msg.to() == station {
                least = earlier_of_message(least, &msg, set, clones, ends, horizon);
            }
        }
        least
    }
}
