//! One block of pending messages.
ghost use Rattle.std.specs.Prelude.{◌≡◌, ◌+◌, ◌-◌, ◌<◌, ◌≤◌, ◌==◌, List, []};
ghost use Rattle.std.specs.Prelude.{length, take, drop, slice_get, Some, OnOk, OnErr, IfOk};
ghost use Rattle.sim_base.specs.Pending.{insert_marked, spread_marks, cut_by, first_time, first_marks};
ghost use Rattle.std.specs.Ordering.{is_eq, is_gt};
ghost use Rattle.sim_base.specs.Order.{msg_cmp};
ghost use Rattle.sim_base.specs.Marked.{SortedMarked};
ghost use Rattle.sim_base.specs.Blocks.{IsPlaceOf, is_there, StartsAfter, StartsAt};
ghost use Rattle.sim_base.specs.declared.message.Msg.{Msg};

use crate::marks::Marks;
use crate::memory::NoMemory;
use crate::message::{Msg, compare};
use std::alloc::Global;
use std::collections::VecDeque;
use std::marker::Model;

/// Ranges up to this length are searched one by one, longer ones by halving.
const MAX_ONE_BY_ONE: usize = 8;

/// Messages with their marks in a ring buffer, so that removing the first shifts nothing.
#[derive(Drop)]
pub(crate) struct Block<S: Marks> {
    items: VecDeque<(Msg, S)>,
    // time of the first message, so that searching for a block reads none of its messages; unused if the block is empty
    time: u64,
}

impl<S: Marks> Model for Block<S> {
    ghost Value = { List (Msg × S) };

    ghost view = { λ b. b.items.items };

    ghost invariant = { λ b. StartsAt b.time b.items.items };
}

impl<S: Marks> Block<S> {
    /// An empty block, which allocates nothing.
    pub(crate) fn new(alloc: Global) -> Block<S>
        ensures value { result ≡ [] }
    {
        Block {
            items: VecDeque::new(alloc),
            time: 0,
        }
    }

    /// A block of these messages.
    fn of(items: VecDeque<(Msg, S)>) -> Block<S>
        ensures value { result ≡ items.items }
    {
        let time = time_of_first(&items);
        Block { items, time }
    }

    /// The number of messages.
    pub(crate) fn len(&self) -> usize
        ensures value { result ≡ length self.now }
    {
        self.items.len()
    }

    /// Whether the block is empty.
    pub(crate) fn is_empty(&self) -> bool
        ensures value { result ≡ (length self.now == 0) }
    {
        self.items.is_empty()
    }

    /// The first message with its marks.
    pub(crate) fn first(&self) -> Option<(Msg, S)>
        ensures value { result ≡ slice_get self.now 0 }
    {
        self.items.front().copied()
    }

    /// The time of the first message.
    pub(crate) fn first_time(&self) -> Option<u64>
        ensures value { result ≡ first_time self.now }
    {
        if self.items.is_empty() {
            None
        } else {
            Some(self.time)
        }
    }

    /// The marks of the first message.
    pub(crate) fn first_marks(&self) -> Option<S>
        ensures value { result ≡ first_marks self.now }
    {
        match self.items.front() {
            Some(item) => Some(item.1),
            None => None,
        }
    }

    /// Whether the first message comes after this one.
    pub(crate) fn starts_after(&self, msg: &Msg) -> bool
        ensures value { StartsAfter msg_cmp msg.now self.now result }
    {
        // times usually differ, and then the message itself is not read
        if msg.key.time != self.time {
            return msg.key.time < self.time;
        }
        match self.items.front() {
            Some(item) => compare(msg, &item.0).is_lt(),
            None => false,
        }
    }

    /// Removes and returns the first message.
    pub(crate) fn take_first(&mut self) -> Option<(Msg, S)>
        ensures value { result ≡ slice_get self.old 0 }
        ensures rest { self.new ≡ drop 1 self.old }
    {
        let taken = self.items.pop_front();
        self.time = time_of_first(&self.items);
        taken
    }

    /// Removes the first message and returns it without its marks.
    pub(crate) fn take_message(&mut self) -> Msg
        requires nonempty { 0 < length self.old }
        ensures value { (k : S) × (slice_get self.old 0 ≡ Some (result, k)) }
        ensures rest { self.new ≡ drop 1 self.old }
    {
        let taken = self.items[0].0;
        let _first = self.items.pop_front();
        self.time = time_of_first(&self.items);
        taken
    }

    /// The number of messages that come before this one.
    fn place(&self, msg: &Msg) -> usize
        ensures value { IsPlaceOf msg_cmp msg.now self.now result }
    {
        let mut low = 0;
        let mut high = self.items.len();
        while low < high {
            let middle = next_look(low, high);
            if comes_after(msg, &self.items[middle].0) {
                low = middle + 1;
            } else {
                high = middle;
            }
        }
        low
    }

    /// Whether this message is at the place.
    fn has_at(&self, place: usize, msg: &Msg) -> bool
        ensures value { result ≡ is_there msg_cmp msg.now (slice_get self.now place) }
    {
        if place >= self.items.len() {
            return false;
        }
        is_same(msg, &self.items[place].0)
    }

    /// Adds a message. If it is already there, joins the marks to its own.
    pub(crate) fn insert(&mut self, msg: Msg, marks: S) -> Result<(), NoMemory>
        requires sorted { SortedMarked msg_cmp self.old }
        ensures ok { OnOk result (self.new ≡ insert_marked S.union msg_cmp msg marks self.old) }
        ensures err { OnErr result (self.new ≡ self.old) }
    {
        let place = self.place(&msg);
        if self.has_at(place, &msg) {
            let item = &mut self.items[place];
            item.1 = item.1.join(marks);
            return Ok(());
        }
        self.items.insert(place, (msg, marks))?;
        if place == 0 {
            self.time = msg.key.time;
        }
        Ok(())
    }

    /// Moves the messages from this place on into a block of their own. If out of memory, changes nothing.
    pub(crate) fn split_off(&mut self, place: usize) -> Result<Block<S>, NoMemory>
        requires within { place ≤ length self.old }
        ensures rest { OnOk result (self.new ≡ take place self.old) }
        ensures ok { IfOk result (λ b. b ≡ drop place self.old) }
        ensures err { OnErr result (self.new ≡ self.old) }
    {
        match self.items.split_off(place) {
            Ok(items) => Ok(Block::of(items)),
            Err(_) => Err(NoMemory),
        }
    }

    /// The first message whose marks meet `by`, with the marks in common.
    pub(crate) fn first_with(&self, by: S) -> Option<(Msg, S)>
        ensures value { result ≡ slice_get (cut_by S.common by self.now) 0 }
    {
        for item in self.items.iter() {
            if let Some(shared) = item.1.meet(by) {
                return Some((item.0, shared));
            }
        }
        None
    }

    /// A block of the messages whose marks meet `by`, each with the marks in common.
    pub(crate) fn cut(&self, alloc: Global, by: S) -> Result<Block<S>, NoMemory>
        ensures value { IfOk result (λ b. b ≡ cut_by S.common by self.now) }
    {
        let mut items = VecDeque::with_capacity(alloc, self.items.len())?;
        for item in self.items.iter() {
            if let Some(shared) = item.1.meet(by) {
                items.push_back((item.0, shared))?;
            }
        }
        Ok(Block::of(items))
    }

    /// A block with the same messages and marks.
    pub(crate) fn copy(&self, alloc: Global) -> Result<Block<S>, NoMemory>
        ensures value { IfOk result (λ b. b ≡ self.now) }
    {
        let (first, second) = self.items.as_slices();
        let mut items = Vec::with_capacity(alloc, self.items.len())?;
        items.extend_from_slice(first)?;
        items.extend_from_slice(second)?;
        Ok(Block::of(VecDeque::from_vec(items)))
    }

    /// Keeps the messages whose marks meet `by`, each with the marks in common. Allocates nothing.
    pub(crate) fn keep(&mut self, by: S)
        ensures value { self.new ≡ cut_by S.common by self.old }
    {
        // rotates once through the ring: takes the first message out, and appends it again if it stays
        for _ in 0..self.items.len() {
            let Some(item) = self.items.pop_front() else {
                unreachable!()
            };
            if let Some(shared) = item.1.meet(by) {
                let Ok(_) = self.items.push_back((item.0, shared)) else {
                    unreachable!()
                };
            }
        }
        self.time = time_of_first(&self.items);
    }

    /// Joins `more` to the marks of each message whose marks meet `by`.
    pub(crate) fn spread(&mut self, by: S, more: S)
        ensures value { self.new ≡ spread_marks S.union S.common by more self.old }
    {
        for i in 0..self.items.len() {
            let item = &mut self.items[i];
            if item.1.meet(by).is_some() {
                item.1 = item.1.join(more);
            }
        }
    }
}

/// The time of the first message, or 0 if there is none.
fn time_of_first<S: Marks>(items: &VecDeque<(Msg, S)>) -> u64
    ensures value { StartsAt result items.now.items }
{
    match items.front() {
        Some(item) => item.0.key.time,
        None => 0,
    }
}

// Whether a message comes after another. Times usually differ, and then nothing else is compared.
fn comes_after(msg: &Msg, other: &Msg) -> bool
    ensures value { result ≡ is_gt (msg_cmp msg.now other.now) }
{
    if msg.key.time != other.key.time {
        return msg.key.time > other.key.time;
    }
    compare(msg, other).is_gt()
}

// Whether two messages are the same.
fn is_same(msg: &Msg, other: &Msg) -> bool
    ensures value { result ≡ is_eq (msg_cmp msg.now other.now) }
{
    msg.key.time == other.key.time && compare(msg, other).is_eq()
}

/// The next place to compare, from `low` on and before `high`. New messages are usually late.
fn next_look(low: usize, high: usize) -> usize
    requires nonempty { low < high }
    ensures from { low ≤ result }
    ensures below { result < high }
{
    let count = high - low;
    if count <= MAX_ONE_BY_ONE {
        high - 1
    } else {
        low + count / 2
    }
}
