//! The copies (physical processes) of a station (a logical process), with a lower bound of the times in their future
//! event lists. They may have mail that they have not taken.
ghost use Rattle.std.specs.Prelude.{◌≡◌, ◌<◌, ◌≤◌, ◌+◌, [], true, false, IfOk, OnOk, IsTrue, map, length};
ghost use Rattle.sim_base.specs.declared.lists.TheConstants.{MAX_CLONES};
ghost use Rattle.clone_sets.specs.Sets.{has};
ghost use Rattle.net_model.specs.Net.{Net};
ghost use Rattle.stations.specs.Runs.{simulation};
ghost use Rattle.run_laws.specs.Copies.{Stands};
ghost use Rattle.phys_proc.specs.Own.{but_pending, with_message, IsLowerBoundOfAll};
ghost use Rattle.phys_proc.specs.Ends.{ends_in};
ghost use Rattle.phys_proc.specs.Procs.{IsProc, IsLeastOf, IsWithLeast, AreShared};
ghost use Rattle.phys_proc.specs.Racks.{view_of_copy};
ghost use Rattle.station_steps.specs.Forking.{HasForked};
ghost use Rattle.station_steps.specs.Mail.{IsEarliest, IsMailTaken, mail_in};
ghost use Rattle.station_steps.specs.Windows.{HasAdvanced, IsDeliveredTo, mail_for};

use crate::mail::Mail;
use crate::sent_list::{NO_MAIL, SentList};
use clone_sets::CloneSet;
use msg_heap::PackedMsg;
use net_model::Model;
use phys_proc::{CloneEnds, Gain, PhysCopy, Proc, Rack, SentMessages};
use sim_base::{Lists, Msg, NoMemory, Steps};
use stations::due::earlier;
use std::alloc::Global;
use std::mem;
use std::sync::Arc;
use std::sync::ledger::Ledger;

/// The copies of one station, with a lower bound of the times of their pending messages. One comparison with it shows
/// that a station has nothing due. Boxing the copies makes a station cheap to move to a worker.
///
/// The messages from the last window may wait in the mail, which all stations share. The copies take their messages
/// before they do anything else. Contracts describe the copies as if they had taken them.
#[derive(Drop)]
pub struct StationSlot {
    proc: Box<Proc>,
    // no pending message is earlier, in the copies or in the mail
    lower_bound: u64,
    // holds the messages that the copies have not taken, if any
    mail: Option<Arc<Mail>>,
    // memory for what the station sends in a window, kept so that it is allocated once; its content has no meaning
    buffer: SentList,
}

impl std::marker::Model for StationSlot {
    ghost use Rattle.phys_proc.specs.Procs.{ProcView};
    ghost use Rattle.station_steps.specs.Mail.{KeepsMail, mail_in, with_own_mail};

    ghost Value = { ProcView };

    ghost view = { λ t. with_own_mail (mail_in t.mail) t.proc.value };

    ghost invariant = { λ t. KeepsMail t.lower_bound (mail_in t.mail) t.proc.value };
}

// Delivers to the copies their messages from the mail, if any.
#[inline(always)]
fn take_mail(proc: &mut Proc, mail: Option<Arc<Mail>>) -> Result<(), NoMemory>
    ensures given { OnOk result (IsDeliveredTo (mail_for proc.old.station (mail_in mail)) proc.old proc.new) }
    // also if out of memory
    ensures station { proc.new.station ≡ proc.old.station }
    ensures living { proc.new.living ≡ proc.old.living }
    ensures handled { proc.new.handled ≡ proc.old.handled }
{
    match mail {
        Some(mail) => mail.hand_over(proc),
        None => Ok(()),
    }
}

// The earlier of a time and the least time of the station's messages in the mail that some of these clones take.
fn earlier_in_mail(
    mail: &Option<Arc<Mail>>,
    station: u32,
    clones: CloneSet,
    ends: &CloneEnds,
    horizon: u64,
    before: Option<u64>,
) -> Option<u64>
    ensures earliest { IsEarliest before
        (IsMailTaken (ends_in horizon ends.now) clones (mail_for station (mail_in mail.now))) result }
{
    match mail {
        Some(mail) => mail.earlier_for(station, clones, ends, horizon, before),
        None => before,
    }
}

impl StationSlot {
    /// Wraps the copies, with their lower bound.
    pub fn of(alloc: Global, proc: Proc) -> Result<StationSlot, NoMemory>
        ensures same { IfOk result (λ timed. timed ≡ proc) }
    {
        let lower_bound = proc.lower_bound();
        Ok(StationSlot {
            proc: Box::new(alloc, proc)?,
            lower_bound,
            mail: None,
            buffer: SentList::empty(alloc),
        })
    }

    /// Lends the memory of the list that the station keeps, for what it sends.
    pub(crate) fn lend(&mut self, alloc: Global) -> (SentMessages, Vec<u64>)
        ensures none { result.0 ≡ [] }
        ensures same { self.new ≡ self.old }
    {
        mem::replace(&mut self.buffer, SentList::empty(alloc)).room()
    }

    /// Keeps a list to reuse its memory, whatever its content.
    pub(crate) fn keep(&mut self, buffer: SentList)
        ensures same { self.new ≡ self.old }
    {
        self.buffer = buffer;
    }

    /// Whether no message is pending before the bound.
    pub fn is_idle(&self, bound: u64) -> bool
        ensures lower { IsTrue result → IsLowerBoundOfAll bound self.now.copies }
        ensures shared { AreShared self.now.living self.now.copies }
    {
        // recalls a clause: the copies partition the living clones
        let _copies = self.proc.copies();
        bound <= self.lower_bound
    }

    /// Steps the copies to the bound in place. What they send to other stations replaces what is in `sent`.
    /// The copies have no meaning afterwards if some clone is over the limit.
    ///
    /// # Errors
    ///
    /// Out of memory: the copies have no meaning.
    pub fn advance<L: Ledger>(
        &mut self,
        alloc: Global,
        model: &Model,
        ends: &CloneEnds,
        bound: u64,
        sent: &mut SentMessages,
        steps: &mut Steps<L>,
    ) -> Result<Gain, NoMemory>
        requires proc { IsProc model.now self.old }
        requires time_max { bound ≤ model.now.horizon }
        ensures advanced { IfOk result (λ g. HasAdvanced model.now self.old.station (ends_in model.now.horizon ends.now)
            bound self.old self.new sent.new g.over g.handled) }
        ensures counted { IfOk result (λ g. steps.new ≡ steps.old + g.handled) }
        ensures station { self.new.station ≡ self.old.station }
    {
        // set first, so that it also holds if an allocation fails
        self.lower_bound = 0;
        take_mail(&mut self.proc, self.mail.take())?;
        let gain = self.proc.advance(alloc, model, ends, bound, sent, steps)?;
        self.lower_bound = self.proc.lower_bound();
        Ok(gain)
    }

    /// The lesser of an earlier result and the least time at which something is due for any clone here.
    pub fn with_least(&self, model: &Model, ends: &CloneEnds, before: Option<u64>) -> Option<u64>
        requires proc { IsProc model.now self.now }
        ensures least { IsWithLeast (ends_in model.now.horizon ends.now) self.now.copies before result }
    {
        if let Some(time) = before {
            if self.is_idle(time) {
                return before;
            }
        }
        let here = earlier_in_mail(
            &self.mail,
            self.proc.station(),
            self.proc.living(),
            ends,
            model.horizon(),
            self.proc.least(model, ends),
        );
        earlier(before, here)
    }

    /// The least time at which something is due for the clone, below its end; None exactly if nothing is.
    pub fn least_of(&self, model: &Model, ends: &CloneEnds, c: u32) -> Option<u64>
        requires proc { IsProc model.now self.now }
        requires clone { c < MAX_CLONES }
        ensures least { IsLeastOf (ends_in model.now.horizon ends.now) self.now.copies c result }
    {
        earlier_in_mail(
            &self.mail,
            self.proc.station(),
            self.proc.living().meet(CloneSet::one(c)),
            ends,
            model.horizon(),
            self.proc.least_of(model, ends, c),
        )
    }

    /// Delivers a message to those of its clones that are in the set.
    ///
    /// Out of memory: some of the copies may have it; nothing else of them has changed.
    pub fn deliver_at_once(&mut self, msg: Msg, set: CloneSet) -> Result<(), NoMemory>
        requires target { msg.to ≡ self.old.station }
        ensures given { OnOk result (self.new.copies ≡ map (with_message msg set) self.old.copies) }
        ensures proc { OnOk result ((net : Net) → IsProc net self.old → IsProc net self.new) }
        ensures station { self.new.station ≡ self.old.station }
        ensures living { self.new.living ≡ self.old.living }
        ensures handled { self.new.handled ≡ self.old.handled }
    {
        let lower_bound = self.lower_bound.min(msg.key.time);
        // set first, so that it also holds if an allocation fails
        self.lower_bound = 0;
        take_mail(&mut self.proc, self.mail.take())?;
        self.proc.deliver(msg, set)?;
        self.lower_bound = lower_bound;
        Ok(())
    }

    /// Delivers a packed message, as `deliver_at_once` does.
    #[inline(always)]
    pub fn deliver_packed(&mut self, msg: PackedMsg, set: CloneSet) -> Result<(), NoMemory>
        requires target { msg.to ≡ self.old.station }
        ensures given { OnOk result (self.new.copies ≡ map (with_message msg set) self.old.copies) }
        ensures proc { OnOk result ((net : Net) → IsProc net self.old → IsProc net self.new) }
        ensures station { self.new.station ≡ self.old.station }
        ensures living { self.new.living ≡ self.old.living }
        ensures handled { self.new.handled ≡ self.old.handled }
    {
        let lower_bound = self.lower_bound.min(msg.time());
        // set first, so that it also holds if an allocation fails
        self.lower_bound = 0;
        take_mail(&mut self.proc, self.mail.take())?;
        self.proc.deliver_packed(msg, set)?;
        self.lower_bound = lower_bound;
        Ok(())
    }

    /// Posts mail: the copies take their messages from it before or at their next step. They take earlier mail now.
    ///
    /// # Errors
    ///
    /// Out of memory: some of the copies may have some of the earlier messages.
    pub(crate) fn post(&mut self, mail: &Arc<Mail>) -> Result<(), NoMemory>
        requires proc { (net : Net) × IsProc net self.old }
        ensures given { OnOk result (IsDeliveredTo (mail_for self.old.station mail.now.value) self.old self.new) }
    {
        let first = mail.first_for(self.proc.station());
        if first == NO_MAIL {
            return Ok(());
        }
        let lower_bound = self.lower_bound.min(first);
        // set first, so that it also holds if an allocation fails
        self.lower_bound = 0;
        take_mail(&mut self.proc, self.mail.take())?;
        self.mail = Some(mail.clone()?);
        self.lower_bound = lower_bound;
        Ok(())
    }

    /// Adds the clone `new`, which has no end, to the copy of the clone `old`, and to the pending messages of `old`.
    ///
    /// # Errors
    ///
    /// Out of memory: some of the copies may have some of the messages in the mail.
    pub fn fork(&mut self, old: u32, new: u32) -> Result<(), NoMemory>
        requires old { has self.old.living old ≡ true }
        requires new { has self.old.living new ≡ false }
        requires below { new < MAX_CLONES }
        ensures forked { OnOk result (HasForked old new self.old self.new) }
    {
        let lower_bound = self.lower_bound;
        // set first, so that it also holds if an allocation fails
        self.lower_bound = 0;
        take_mail(&mut self.proc, self.mail.take())?;
        self.proc.fork(old, new);
        self.lower_bound = lower_bound;
        Ok(())
    }

    /// What a reader sees of the station: the copies at the front, and the lists of the clones that they represent.
    ///
    /// The station is unchanged, even if out of memory.
    pub fn rack(
        &mut self,
        alloc: Global,
        model: Arc<Model>,
        lists: Arc<Lists>,
        front: u64,
    ) -> Result<Rack, NoMemory>
        requires copies { Stands (simulation model.value) has lists.value.clones front self.old.station
            self.old.copies }
        requires at_most { length lists.value.clones ≤ MAX_CLONES }
        requires time_max { front ≤ model.value.horizon }
        ensures rack { IfOk result (λ r. r ≡ record {
          net = model.value;
          clones = lists.value.clones;
          station = self.old.station;
          front = front;
          copies = map view_of_copy self.old.copies;
        }) }
        ensures same { self.new ≡ self.old }
    {
        let rack = self.proc.rack(alloc, model, lists, front)?;
        Ok(rack)
    }

    /// The number of messages handled, each counted once for all clones of a copy.
    pub fn handled(&self) -> u64
        ensures value { result ≡ self.now.handled }
    {
        self.proc.handled()
    }

    /// The copies; some may lack messages that are still in the mail.
    pub fn copies(&self) -> &[PhysCopy]
        ensures same { map but_pending result.now ≡ map but_pending self.now.copies }
    {
        self.proc.copies()
    }
}
