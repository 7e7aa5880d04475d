//! Pending messages: the future event list.
//!
//! They are kept in blocks of at most `MAX_IN_BLOCK`. Each block is in order, and before the next one. Most lists have
//! one block and need no search. In a long list an insert does a binary search over the blocks and then within one. It
//! moves at most the messages of that block:
//!
//!     first [3 5 8 ..]   later [21 22 25 ..] [40 41 ..] ..
ghost use Rattle.std.specs.Prelude.{◌≡◌, ◌<◌, ◌==◌, Option, List, [], ◌∷◌};
ghost use Rattle.std.specs.Prelude.{length, OnOk, OnErr, IfOk, IfNone, IfSome, Some, None, slice_get};
ghost use Rattle.sim_base.specs.Pending.{insert_marked, spread_marks, cut_by, first_time, first_marks, NothingBefore};
ghost use Rattle.sim_base.specs.Order.{msg_cmp};
ghost use Rattle.sim_base.specs.Marked.{SortedMarked};
ghost use Rattle.sim_base.specs.Blocks.{of_blocks, AreBlocks};
ghost use Rattle.sim_base.specs.declared.message.Msg.{Msg};

use crate::marks::Marks;
use crate::memory::NoMemory;
use crate::message::Msg;
use block::Block;
use blocks::{add_block, block_of, halve_if_full, keep_later, next_block, put, spread_later};
use std::alloc::Global;
use std::collections::VecDeque;
use std::marker::Model;

mod block;
mod blocks;

/// Pending messages with their marks, in the order of messages, each once.
#[derive(Drop)]
pub struct Pending<S: Marks> {
    first: Block<S>,
    later: VecDeque<Block<S>>,
}

impl<S: Marks> Model for Pending<S> {
    ghost Value = { List (Msg × S) };

    ghost view = { λ p. of_blocks (p.first ∷ p.later.items) };

    ghost invariant = { λ p. AreBlocks msg_cmp p.first p.later.items };
}

impl<S: Marks> Pending<S> {
    /// No pending messages. Allocates nothing.
    pub fn new(alloc: Global) -> Pending<S>
        ensures value { result ≡ [] }
    {
        Pending {
            first: Block::new(alloc),
            later: VecDeque::new(alloc),
        }
    }

    /// Whether there are no pending messages.
    pub fn is_empty(&self) -> bool
        ensures value { result ≡ (length self.now == 0) }
    {
        self.first.is_empty()
    }

    /// Adds a message. If it is already there, joins the marks to its own.
    ///
    /// If out of memory, changes nothing.
    pub fn insert(&mut self, msg: Msg, marks: S) -> Result<(), NoMemory>
        ensures ok { OnOk result (self.new ≡ insert_marked S.union msg_cmp msg marks self.old) }
        ensures err { OnErr result (self.new ≡ self.old) }
    {
        let at = block_of(&self.later, &msg);
        let at = halve_if_full(&mut self.first, &mut self.later, at, &msg)?;
        put(&mut self.first, &mut self.later, at, msg, marks)
    }

    /// The least message with its marks, or None if there is none.
    pub fn least(&self) -> Option<(Msg, S)>
        ensures value { result ≡ slice_get self.now 0 }
        ensures ordered { SortedMarked msg_cmp self.now }
    {
        self.first.first()
    }

    /// The time of the least message, or None if there is none. Copies no message.
    pub fn least_time(&self) -> Option<u64>
        ensures value { result ≡ first_time self.now }
    {
        self.first.first_time()
    }

    /// The marks of the least message, or None if there is none. Copies no message.
    pub fn least_marks(&self) -> Option<S>
        ensures value { result ≡ first_marks self.now }
    {
        self.first.first_marks()
    }

    /// Removes and returns the least message, or None if there is none.
    pub fn take_least(&mut self) -> Option<(Msg, S)>
        ensures some { IfSome result (λ p. self.old ≡ p ∷ self.new) }
        ensures none { IfNone result ((self.old ≡ []) × (self.new ≡ [])) }
    {
        let taken = self.first.take_first();
        if self.first.is_empty() {
            next_block(&mut self.first, &mut self.later);
        }
        taken
    }

    /// Removes the least message and returns it without its marks. There must be one: an option of a message would be
    /// slow to move.
    pub fn take_message(&mut self) -> Msg
        requires nonempty { 0 < length self.old }
        ensures value { (k : S) × (self.old ≡ (result, k) ∷ self.new) }
    {
        let taken = self.first.take_message();
        if self.first.is_empty() {
            next_block(&mut self.first, &mut self.later);
        }
        taken
    }

    /// Removes and returns the least message if its time is before the bound. None changes nothing.
    pub fn take_before(&mut self, bound: u64) -> Option<(Msg, S)>
        ensures some { IfSome result (λ p. (self.old ≡ p ∷ self.new) × (p.0.key.time < bound)) }
        ensures none { IfNone result ((self.new ≡ self.old) × NothingBefore bound self.old) }
    {
        match self.least_time() {
            Some(time) if time < bound => self.take_least(),
            _ => None,
        }
    }

    /// The least message whose marks meet `by`, with the marks in common, or None if there is none.
    pub fn least_with(&self, by: S) -> Option<(Msg, S)>
        ensures value { result ≡ slice_get (cut_by S.common by self.now) 0 }
    {
        if let Some(found) = self.first.first_with(by) {
            return Some(found);
        }
        for block in self.later.iter() {
            if let Some(found) = block.first_with(by) {
                return Some(found);
            }
        }
        None
    }

    /// The messages whose marks meet `by`, each with the marks in common.
    pub fn cut(&self, alloc: Global, by: S) -> Result<Pending<S>, NoMemory>
        ensures value { IfOk result (λ p. p ≡ cut_by S.common by self.now) }
    {
        let mut first = self.first.cut(alloc, by)?;
        let mut later = VecDeque::new(alloc);
        for block in self.later.iter() {
            add_block(&mut first, &mut later, block.cut(alloc, by)?)?;
        }
        Ok(Pending { first, later })
    }

    /// A copy of the messages and their marks.
    pub fn copy(&self, alloc: Global) -> Result<Pending<S>, NoMemory>
        ensures value { IfOk result (λ p. p ≡ self.now) }
    {
        let first = self.first.copy(alloc)?;
        let mut later = VecDeque::with_capacity(alloc, self.later.len())?;
        for block in self.later.iter() {
            later.push_back(block.copy(alloc)?)?;
        }
        Ok(Pending { first, later })
    }

    /// Keeps the messages whose marks meet `by`, each with the marks in common. Allocates nothing.
    pub fn keep(&mut self, by: S)
        ensures value { self.new ≡ cut_by S.common by self.old }
    {
        self.first.keep(by);
        keep_later(&mut self.later, by);
        if self.first.is_empty() {
            next_block(&mut self.first, &mut self.later);
        }
    }

    /// Joins `more` to the marks of each message whose marks meet `by`.
    pub fn spread(&mut self, by: S, more: S)
        ensures value { self.new ≡ spread_marks S.union S.common by more self.old }
    {
        self.first.spread(by, more);
        spread_later(&mut self.later, by, more);
    }
}
