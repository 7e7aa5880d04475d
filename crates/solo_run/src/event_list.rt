//! The pending messages of all stations: the future event list.
//!
//! Messages that fit 16 bytes are packed, in one heap for all stations. The others are in a list, which is nearly
//! always empty. It is not empty for a decision with a great number, or in a run that was resumed at great numbers:
//!
//!     heap  [3 gate tick] [8 desk job ..] ..        wide  []
//!
//! Contracts see both as one list in the order of messages, each once.
ghost use Rattle.std.specs.Prelude.{◌<◌, ◌≤◌, ◌≡◌, ◌∷◌, [], drop, slice_get};
ghost use Rattle.std.specs.Prelude.{IfOk, IfNone, IfSome, OnOk, OnErr};
ghost use Rattle.std.specs.List.{AllByRecursion};
ghost use Rattle.sim_base.specs.Marked.{SortedMarked};
ghost use Rattle.sim_base.specs.Order.{msg_cmp};
ghost use Rattle.run_laws.specs.Queue.{insert, insert_all, Sorted};
ghost use Rattle.stations.specs.Quick.{sends_of};
ghost use Rattle.solo_run.specs.EventLists.{IsFirstPacked, all_messages, firsts_cmp};

use msg_heap::{MsgHeap, PackedMsg};
use sim_base::message::compare;
use sim_base::{Msg, NoMemory, Pending};
use stations::QuickSends;
use std::alloc::Global;
use std::cmp::Ordering;

/// Future event list: pending messages in order.
#[derive(Drop)]
pub struct EventList {
    heap: MsgHeap,
    // messages that do not fit 16 bytes
    wide: Pending<()>,
}

impl EventList {
    /// An empty list. Allocates nothing.
    pub(crate) fn new(alloc: Global) -> EventList
        ensures value { all_messages result ≡ [] }
    {
        EventList {
            heap: MsgHeap::new(alloc),
            wide: Pending::new(alloc),
        }
    }

    /// Adds a message, unless it is already there.
    ///
    /// If out of memory, changes nothing.
    pub(crate) fn insert(&mut self, msg: Msg) -> Result<(), NoMemory>
        ensures ok { OnOk result (all_messages self.new ≡ insert msg_cmp msg (all_messages self.old)) }
        ensures err { OnErr result (self.new ≡ self.old) }
    {
        let _sorted = self.heap.is_empty();
        match PackedMsg::of(&msg) {
            Some(packed) => self.heap.insert(packed)?,
            None => self.wide.insert(msg, ())?,
        }
        Ok(())
    }

    /// The first message if it is before the bound. None also if there are messages that do not fit 16 bytes.
    #[inline(always)]
    pub(crate) fn first_packed(&self, bound: u64) -> Option<PackedMsg>
        ensures first { IfSome result (λ m. IsFirstPacked m self.now) }
        ensures time_max { IfSome result (λ m. m.key.time < bound) }
    {
        if !self.wide.is_empty() {
            return None;
        }
        match self.heap.first() {
            Some(first) if first.time() < bound => Some(first),
            _ => None,
        }
    }

    /// Removes the first message, and adds what its station sends for it.
    ///
    /// If out of memory, the first message is removed, and one that was sent may be added.
    #[inline(always)]
    pub(crate) fn replace_first(
        &mut self,
        first: PackedMsg,
        sends: QuickSends,
    ) -> Result<(), NoMemory>
        requires first { IsFirstPacked first self.old }
        requires later { AllByRecursion (λ m. first.key.time < m.key.time) (sends_of sends) }
        ensures ok { OnOk result (all_messages self.new ≡
            insert_all msg_cmp (sends_of sends) (drop 1 (all_messages self.old))) }
    {
        match (sends.own.get(), sends.link.get()) {
            (Some(own), Some(link)) => {
                self.heap.replace_first(first, own);
                self.heap.insert(link)?;
            }
            (Some(own), None) => self.heap.replace_first(first, own),
            (None, Some(link)) => self.heap.replace_first(first, link),
            (None, None) => {
                self.heap.take_first();
            }
        }
        Ok(())
    }

    /// Removes and returns the first message if its time is before the bound. None changes nothing.
    pub(crate) fn take_before(&mut self, bound: u64) -> Option<Msg>
        ensures some { IfSome result (λ m. all_messages self.old ≡ m ∷ all_messages self.new) }
        ensures time_max { IfSome result (λ m. m.key.time < bound) }
        ensures none { IfNone result ((self.new ≡ self.old)
            × AllByRecursion (λ m. bound ≤ m.key.time) (all_messages self.old)) }
    {
        match self.first() {
            Some(first) if first.key.time < bound => self.take_first(),
            _ => None,
        }
    }

    // The first message, or None if there is none.
    fn first(&self) -> Option<Msg>
        ensures value { result ≡ slice_get (all_messages self.now) 0 }
        ensures sorted { Sorted msg_cmp (all_messages self.now) }
    {
        match order_of_firsts(&self.heap, &self.wide) {
            Ordering::Less | Ordering::Equal => Some(self.heap.first()?.msg()),
            Ordering::Greater => Some(self.wide.least()?.0),
        }
    }

    // Removes and returns the first message, or None if there is none.
    fn take_first(&mut self) -> Option<Msg>
        ensures some { IfSome result (λ m. all_messages self.old ≡ m ∷ all_messages self.new) }
        ensures none { IfNone result (all_messages self.old ≡ []) }
    {
        match order_of_firsts(&self.heap, &self.wide) {
            Ordering::Less => Some(self.heap.take_first()?.msg()),
            Ordering::Equal => {
                self.wide.take_least();
                Some(self.heap.take_first()?.msg())
            }
            Ordering::Greater => Some(self.wide.take_least()?.0),
        }
    }

    /// A copy of all messages, in their order.
    pub(crate) fn messages(&self, alloc: Global) -> Result<Vec<Msg>, NoMemory>
        ensures value { IfOk result (λ all. all.items ≡ all_messages self.now) }
    {
        let mut list = EventList {
            heap: self.heap.copy()?,
            wide: self.wide.copy(alloc)?,
        };
        let mut all = Vec::new(alloc);
        while let Some(msg) = list.take_first() {
            all.push(msg)?;
        }
        Ok(all)
    }
}

// How the first packed message and the first of the others are ordered. One that is missing comes last.
fn order_of_firsts(heap: &MsgHeap, wide: &Pending<()>) -> Ordering
    ensures value { result ≡ firsts_cmp (slice_get heap.now 0) (slice_get wide.now 0) }
    ensures sorted { Sorted msg_cmp heap.now }
    ensures ordered { SortedMarked msg_cmp wide.now }
{
    match (heap.first(), wide.least()) {
        (None, _) => Ordering::Greater,
        (Some(_), None) => Ordering::Less,
        (Some(first), Some((other, ()))) => compare(&first.msg(), &other),
    }
}
