//! The pending messages of a copy: in a heap those that all its clones take, in a list the others.
ghost use Rattle.std.specs.Prelude.{◌≡◌, ◌≢◌, ℕ, ◌<◌, ◌==◌, Option, List, [], ◌∷◌, length, true, OnOk, OnErr, IfOk};
ghost use Rattle.std.specs.Prelude.{IfNone, IfSome, slice_get, Some};
ghost use Rattle.sim_base.specs.declared.lists.TheConstants.{MAX_CLONES};
ghost use Rattle.sim_base.specs.declared.message.Msg.{Msg as Msg'};
ghost use Rattle.sim_base.specs.Order.{msg_cmp};
ghost use Rattle.sim_base.specs.Pending.{insert_marked, spread_marks, cut_by, first_time, first_marks};
ghost use Rattle.clone_sets.specs.Sets.{has, one, with, union, common as common'};
ghost use Rattle.clone_sets.specs.declared.set.CloneSet.{CloneSet as CloneSet'};
ghost use Rattle.run_laws.specs.Queue.{Sorted};
ghost use Rattle.copy_pending.specs.Merged.{merged, messages_of, firsts_cmp, put_each, IsPart, IsFirstForAll};
ghost use Rattle.copy_pending.specs.Merged.{IsLowerBoundOf, with_other, without_first};

use clone_sets::CloneSet;
use msg_heap::{MsgHeap, OptionalMsg, PackedMsg};
use sim_base::message::compare;
use sim_base::{Marks, Msg, NoMemory, Pending};
use std::alloc::Global;
use std::cmp::Ordering;
use std::marker::Model;

/// The clones of a copy, and its pending messages.
#[derive(Drop)]
pub struct CopyPending {
    set: CloneSet,
    // messages that all clones of the set take
    common: MsgHeap,
    // messages that only some of them take, or that cannot be packed
    partial: Pending<CloneSet>,
}

impl Model for CopyPending {
    ghost use Rattle.copy_pending.specs.Merged.{CopyPendingView};

    ghost Value = { CopyPendingView };

    ghost view = { λ p. record { set = p.set; common = p.common; partial = p.partial } };
}

impl CopyPending {
    /// No pending messages. Allocates nothing.
    pub fn new(alloc: Global, set: CloneSet) -> CopyPending
        ensures value { result ≡ record { set = set; common = []; partial = [] } }
    {
        CopyPending {
            set,
            common: MsgHeap::new(alloc),
            partial: Pending::new(alloc),
        }
    }

    /// The clones of the copy.
    #[inline(always)]
    pub fn set(&self) -> CloneSet
        ensures value { result ≡ self.now.set }
    {
        self.set
    }

    /// Adds a message for these clones. If it is already there, joins them to its own.
    ///
    /// If out of memory, changes nothing.
    #[inline(always)]
    pub fn insert(&mut self, msg: Msg, marks: CloneSet) -> Result<(), NoMemory>
        ensures ok { OnOk result (messages_of self.new ≡ insert_marked union msg_cmp msg marks (messages_of self.old)) }
        ensures same { self.new.set ≡ self.old.set }
        ensures err { OnErr result (self.new ≡ self.old) }
    {
        if marks == self.set {
            self.insert_for_all(msg)?;
        } else {
            self.partial.insert(msg, marks)?;
        }
        Ok(())
    }

    /// Adds a message for all clones.
    ///
    /// If out of memory, changes nothing.
    #[inline(always)]
    pub fn insert_for_all(&mut self, msg: Msg) -> Result<(), NoMemory>
        ensures ok { OnOk result (messages_of self.new
            ≡ insert_marked union msg_cmp msg self.old.set (messages_of self.old)) }
        ensures same { self.new.set ≡ self.old.set }
        ensures err { OnErr result (self.new ≡ self.old) }
    {
        match PackedMsg::of(&msg) {
            Some(packed) => self.common.insert(packed)?,
            None => self.partial.insert(msg, self.set)?,
        }
        Ok(())
    }

    /// Adds a packed message for all clones.
    ///
    /// If out of memory, changes nothing.
    #[inline(always)]
    pub fn insert_packed(&mut self, msg: PackedMsg) -> Result<(), NoMemory>
        ensures ok { OnOk result (messages_of self.new
            ≡ insert_marked union msg_cmp msg self.old.set (messages_of self.old)) }
        ensures same { self.new.set ≡ self.old.set }
        ensures partial { self.new.partial ≡ self.old.partial }
        ensures err { OnErr result (self.new ≡ self.old) }
    {
        self.common.insert(msg)?;
        Ok(())
    }

    /// A lower bound of the times of the messages that are not known to be for all clones.
    #[inline(always)]
    pub fn partial_time(&self) -> u64
        ensures bound { IsLowerBoundOf result self.now.partial }
    {
        // for its clause: the messages are in order
        let _least = self.partial.least();
        match self.partial.least_time() {
            Some(time) => time,
            None => u64::MAX,
        }
    }

    /// A lower bound of the times of all messages.
    #[inline(always)]
    pub fn lower_bound(&self) -> u64
        ensures bound { IsLowerBoundOf result (messages_of self.now) }
    {
        let others = self.partial_time();
        match self.common.first_time() {
            Some(time) => time.min(others),
            None => others,
        }
    }

    /// The first message, if it is before the bound. The bound must be at most `partial_time`, so all clones take it.
    #[inline(always)]
    pub fn first_before(&self, bound: u64) -> Option<PackedMsg>
        requires bound { IsLowerBoundOf bound self.now.partial }
        ensures first { IfSome result (λ m. IsFirstForAll m self.now) }
        ensures time_max { IfSome result (λ m. m.key.time < bound) }
    {
        match self.common.first() {
            Some(first) if first.time() < bound => Some(first),
            _ => None,
        }
    }

    /// Removes the first message, and adds another for all clones if there is one. It must be later.
    #[inline(always)]
    pub fn replace_first(&mut self, first: PackedMsg, other: OptionalMsg)
        requires first { IsFirstForAll first self.old }
        requires later { IfSome other (λ m. first.key.time < m.key.time) }
        ensures value { messages_of self.new
            ≡ with_other self.old.set other (messages_of (without_first self.old)) }
        ensures same { self.new.set ≡ self.old.set }
        ensures partial { self.new.partial ≡ self.old.partial }
    {
        match other.get() {
            Some(other) => self.common.replace_first(first, other),
            None => {
                self.common.take_first();
            }
        }
    }

    /// The time of the least message, or None if there is none.
    #[inline(always)]
    pub fn least_time(&self) -> Option<u64>
        ensures value { result ≡ first_time (messages_of self.now) }
    {
        match order_of_firsts(&self.common, &self.partial) {
            Ordering::Less => self.common.first_time(),
            Ordering::Equal => self.partial.least_time(),
            Ordering::Greater => self.partial.least_time(),
        }
    }

    /// The clones that take the least message, or None if there is none.
    #[inline(always)]
    pub fn least_marks(&self) -> Option<CloneSet>
        ensures value { result ≡ first_marks (messages_of self.now) }
    {
        match order_of_firsts(&self.common, &self.partial) {
            Ordering::Less => Some(self.set),
            Ordering::Equal => match self.partial.least_marks() {
                Some(marks) => Some(marks.union(self.set)),
                None => None,
            },
            Ordering::Greater => self.partial.least_marks(),
        }
    }

    /// Removes the least message and returns it. There must be one.
    #[inline(always)]
    pub fn take_message(&mut self) -> Msg
        requires nonempty { 0 < length (messages_of self.old) }
        ensures value { (k : CloneSet') × (messages_of self.old ≡ (result, k) ∷ messages_of self.new) }
        ensures same { self.new.set ≡ self.old.set }
    {
        take_first(&mut self.common, self.set, &mut self.partial)
    }

    /// The least message that some clones of `by` take, with those, or None if there is none.
    pub fn least_with(&self, by: CloneSet) -> Option<(Msg, CloneSet)>
        ensures value { result ≡ slice_get (cut_by common' by (messages_of self.now)) 0 }
    {
        // for its clause: the messages are in order
        let _least = self.partial.least();
        let other = self.partial.least_with(by);
        match Marks::meet(self.set, by) {
            Some(shared) => first_of(&self.common, shared, other),
            None => other,
        }
    }

    /// The messages for some of the clones.
    pub fn cut(&self, alloc: Global, by: CloneSet) -> Result<CopyPending, NoMemory>
        requires part { IsPart by self.now.set }
        ensures set { IfOk result (λ p. p.set ≡ by) }
        ensures value { IfOk result (λ p. messages_of p ≡ cut_by common' by (messages_of self.now)) }
    {
        let mut part = CopyPending {
            set: by,
            common: self.common.copy()?,
            partial: Pending::new(alloc),
        };
        // for its clause: the messages are in order
        let _least = self.partial.least();
        let partial = self.partial.cut(alloc, by)?;
        part.insert_each(partial)?;
        Ok(part)
    }

    /// Keeps the messages for some of the clones.
    pub fn keep(self, alloc: Global, by: CloneSet) -> Result<CopyPending, NoMemory>
        requires part { IsPart by self.set }
        ensures set { IfOk result (λ p. p.set ≡ by) }
        ensures value { IfOk result (λ p. messages_of p ≡ cut_by common' by (messages_of self)) }
    {
        let CopyPending {
            set: _,
            common,
            mut partial,
        } = self;
        // for its clause: the messages are in order
        let _least = partial.least();
        partial.keep(by);
        let mut part = CopyPending {
            set: by,
            common,
            partial: Pending::new(alloc),
        };
        part.insert_each(partial)?;
        Ok(part)
    }

    // Adds messages, each for its clones.
    fn insert_each(&mut self, messages: Pending<CloneSet>) -> Result<(), NoMemory>
        ensures ok { OnOk result (messages_of self.new ≡ put_each messages (messages_of self.old)) }
        ensures same { self.new.set ≡ self.old.set }
    {
        let mut messages = messages;
        while let Some((msg, marks)) = messages.take_least() {
            self.insert(msg, marks)?;
        }
        Ok(())
    }

    /// Adds the clone `new` next to the clone `old`, also to the clones that take each message.
    pub fn fork(&mut self, old: u32, new: u32)
        requires old { has self.old.set old ≡ true }
        requires old_below { old < MAX_CLONES }
        requires new_below { new < MAX_CLONES }
        ensures set { self.new.set ≡ with self.old.set new }
        ensures forked { messages_of self.new ≡ spread_marks union common' (one old) (one new) (messages_of self.old) }
    {
        self.set = self.set.with(new);
        self.partial.spread(CloneSet::one(old), CloneSet::one(new));
    }
}

// The first of messages that all these clones take and of another: the lesser, or both if they are the same.
fn first_of(
    common: &MsgHeap,
    set: CloneSet,
    other: Option<(Msg, CloneSet)>,
) -> Option<(Msg, CloneSet)>
    ensures value { (partial : List (Msg' × CloneSet')) → other ≡ slice_get partial 0 →
        result ≡ slice_get (merged set common.now partial) 0 }
{
    match (common.first(), other) {
        (None, other) => other,
        (Some(first), None) => Some((first.msg(), set)),
        (Some(first), Some(other)) => {
            let first = first.msg();
            match compare(&first, &other.0) {
                Ordering::Less => Some((first, set)),
                Ordering::Equal => Some((other.0, other.1.union(set))),
                Ordering::Greater => Some(other),
            }
        }
    }
}

// How the first message that all take and the first of the others are ordered. Their times usually differ, and then
// the messages are not read.
#[inline(always)]
fn order_of_firsts(common: &MsgHeap, partial: &Pending<CloneSet>) -> Ordering
    ensures value { result ≡ firsts_cmp (slice_get common.now 0) (slice_get partial.now 0) }
    ensures sorted { Sorted msg_cmp common.now }
{
    match (common.first_time(), partial.least_time()) {
        (None, _) => Ordering::Greater,
        (Some(_), None) => Ordering::Less,
        (Some(time), Some(other)) => {
            if time < other {
                Ordering::Less
            } else if time > other {
                Ordering::Greater
            } else {
                compare_firsts(common, partial)
            }
        }
    }
}

// The same by comparing the messages.
fn compare_firsts(common: &MsgHeap, partial: &Pending<CloneSet>) -> Ordering
    ensures value { result ≡ firsts_cmp (slice_get common.now 0) (slice_get partial.now 0) }
{
    let first = common.first();
    match (first, partial.least()) {
        (None, _) => Ordering::Greater,
        (Some(_), None) => Ordering::Less,
        (Some(first), Some(other)) => compare(&first.msg(), &other.0),
    }
}

// Removes the first of messages that all these clones take and of others, and returns it.
#[inline(always)]
fn take_first(common: &mut MsgHeap, set: CloneSet, partial: &mut Pending<CloneSet>) -> Msg
    requires nonempty { 0 < length (merged set common.old partial.old) }
    ensures value { (k : CloneSet')
        × (merged set common.old partial.old ≡ (result, k) ∷ merged set common.new partial.new) }
{
    match order_of_firsts(common, partial) {
        Ordering::Less => {
            let Some(first) = common.take_first() else {
                unreachable!()
            };
            first.msg()
        }
        Ordering::Equal => {
            let Some(first) = common.take_first() else {
                unreachable!()
            };
            let _also = partial.take_message();
            first.msg()
        }
        Ordering::Greater => partial.take_message(),
    }
}
