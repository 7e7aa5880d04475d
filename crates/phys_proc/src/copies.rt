//! The physical processes of a station, with a lower bound for each of the time stamps of its pending messages.
ghost use Rattle.std.specs.Prelude.{◌≡◌, ◌≢◌, ◌∷◌, ◌++◌, [], ◌<◌, ◌≤◌, ◌↔◌, ℕ, length, true, false};
ghost use Rattle.std.specs.Prelude.{slice_index, slice_get, Some, OnOk, IfOk, IsTrue, map};
ghost use Rattle.std.specs.List.{AllZip};
ghost use Rattle.sim_base.specs.Marked.{SortedMarked};
ghost use Rattle.sim_base.specs.Order.{msg_cmp};
ghost use Rattle.clone_sets.specs.Sets.{has, empty};
ghost use Rattle.run_laws.specs.Copies.{Disjoint};
ghost use Rattle.phys_proc.specs.Racks.{view_of_copy};
ghost use Rattle.phys_proc.specs.Own.{with_message, copy_after_fork, but_pending, IsLowerBound, IsLowerBoundOfAll};
ghost use Rattle.phys_proc.specs.Own.{MayDeliver, AreCloneNumbers, StationCopy};

use crate::copy::PhysCopy;
use crate::rack::RackCopy;
use clone_sets::CloneSet;
use msg_heap::PackedMsg;
use sim_base::{Msg, NoMemory};
use std::alloc::Global;
use std::marker::Model;
use std::mem;

/// Copies of one station, and for each a lower bound of the times of its pending messages.
#[derive(Drop)]
pub(crate) struct Copies {
    pub(crate) copies: Vec<PhysCopy>,
    // for each copy, at the same index, a lower bound of its pending times: reading it does not touch the copy's memory
    pub(crate) bounds: Vec<u64>,
}

impl Model for Copies {
    ghost use Rattle.std.specs.Prelude.{List};
    ghost use Rattle.std.specs.List.{AllZip};
    ghost use Rattle.phys_proc.specs.Own.{StationCopy, IsLowerBound};

    ghost Value = { List StationCopy };

    ghost view = { λ p. p.copies.items };

    ghost invariant = { λ p. AllZip IsLowerBound p.bounds.items p.copies.items };
}

// A lower bound of the pending times of a copy.
pub(crate) fn lower_bound_of(copy: &PhysCopy) -> u64
    ensures lower { IsLowerBound result copy.now }
{
    copy.pending.lower_bound()
}

// A time that is not after any of these.
fn least_of(times: &[u64]) -> u64
    ensures least { (i : ℕ) → i < length times.now → result ≤ slice_index times.now i }
{
    let mut least = u64::MAX;
    for i in 0..times.len() {
        least = least.min(times[i]);
    }
    least
}

// Adds a message for the copy's clones in the set. `lower_bound` bounds the copy's pending times.
fn give(copy: &mut PhysCopy, lower_bound: &mut u64, msg: Msg, set: CloneSet) -> Result<(), NoMemory>
    requires lower { IsLowerBound lower_bound.old copy.old }
    ensures given { OnOk result (copy.new ≡ with_message msg set copy.old) }
    ensures same { but_pending copy.new ≡ but_pending copy.old }
    ensures lower { IsLowerBound lower_bound.new copy.new }
{
    let shared = copy.pending.set().meet(set);
    if !shared.is_empty() {
        copy.pending.insert(msg, shared)?;
        *lower_bound = (*lower_bound).min(msg.key.time);
    }
    Ok(())
}

// Adds a message to the copies, for their clones in the set, and returns the index of the last copy that got it. No
// clone is in two copies, so the search stops once all clones of the set are found.
fn deliver_in_order(
    copies: &mut Vec<PhysCopy>,
    bounds: &mut Vec<u64>,
    msg: Msg,
    set: CloneSet,
) -> Result<usize, NoMemory>
    requires may_deliver { MayDeliver bounds.old.items copies.old.items }
    ensures given { OnOk result (copies.new.items ≡ map (with_message msg set) copies.old.items) }
    ensures same { map but_pending copies.new.items ≡ map but_pending copies.old.items }
    ensures each { AllZip IsLowerBound bounds.new.items copies.new.items }
{
    // the clones that no copy so far represents
    let mut rest = set;
    for i in 0..copies.len() {
        if rest.is_empty() {
            return Ok(i.saturating_sub(1));
        }
        rest = rest.minus(copies[i].set());
        give(&mut copies[i], &mut bounds[i], msg, set)?;
    }
    Ok(copies.len().saturating_sub(1))
}

// The same, starting at the copy at `guess`.
fn deliver_from(
    copies: &mut Vec<PhysCopy>,
    bounds: &mut Vec<u64>,
    msg: Msg,
    set: CloneSet,
    guess: usize,
) -> Result<usize, NoMemory>
    requires may_deliver { MayDeliver bounds.old.items copies.old.items }
    ensures given { OnOk result (copies.new.items ≡ map (with_message msg set) copies.old.items) }
    ensures same { map but_pending copies.new.items ≡ map but_pending copies.old.items }
    ensures each { AllZip IsLowerBound bounds.new.items copies.new.items }
{
    if guess >= copies.len() {
        return deliver_in_order(copies, bounds, msg, set);
    }
    let rest = set.minus(copies[guess].set());
    give(&mut copies[guess], &mut bounds[guess], msg, set)?;
    if rest.is_empty() {
        return Ok(guess);
    }
    let place = deliver_in_order(copies, bounds, msg, rest)?;
    Ok(place)
}

// Adds a message for all clones of the copy.
#[inline(always)]
fn give_all(copy: &mut PhysCopy, lower_bound: &mut u64, msg: PackedMsg) -> Result<(), NoMemory>
    requires nonempty { copy.old.set ≢ empty }
    requires lower { IsLowerBound lower_bound.old copy.old }
    ensures given { OnOk result (copy.new ≡ with_message msg copy.old.set copy.old) }
    ensures same { but_pending copy.new ≡ but_pending copy.old }
    ensures lower { IsLowerBound lower_bound.new copy.new }
{
    copy.pending.insert_packed(msg)?;
    *lower_bound = (*lower_bound).min(msg.time());
    Ok(())
}

// Whether the copy at `guess` has exactly these clones, and there is one.
#[inline(always)]
fn is_at(copies: &[PhysCopy], set: CloneSet, guess: usize) -> bool
    ensures at { IsTrue result → (a : StationCopy) × (slice_get copies.now guess ≡ Some a) × (a.set ≡ set) }
    ensures some { IsTrue result → set ≢ empty }
{
    guess < copies.len() && !set.is_empty() && copies[guess].set() == set
}

// Adds the clone `new` next to the clone `old`, if the copy has that one.
fn fork_copy(copy: &mut PhysCopy, old: u32, new: u32)
    requires numbers { AreCloneNumbers old new }
    ensures forked { copy.new ≡ copy_after_fork old new copy.old }
{
    if copy.pending.set().has(old) {
        copy.pending.fork(old, new);
    }
}

// Adds the clone `new` next to the clone `old`.
fn fork(copies: &mut Vec<PhysCopy>, old: u32, new: u32)
    requires numbers { AreCloneNumbers old new }
    ensures forked { copies.new.items ≡ map (copy_after_fork old new) copies.old.items }
{
    for i in 0..copies.len() {
        fork_copy(&mut copies[i], old, new);
    }
}

// The copies as a reader sees them; the logs are shared.
fn see_all(alloc: Global, copies: &mut Vec<PhysCopy>) -> Result<Vec<RackCopy>, NoMemory>
    ensures seen { IfOk result (λ v. v.items ≡ map view_of_copy copies.old.items) }
    ensures same { copies.new.items ≡ copies.old.items }
{
    let mut all = Vec::with_capacity(alloc, copies.len())?;
    for i in 0..copies.len() {
        let one = copies[i].see(alloc)?;
        all.push(one)?;
    }
    Ok(all)
}

impl Copies {
    /// No copies.
    pub fn none(alloc: Global) -> Copies
        ensures none { result ≡ [] }
    {
        Copies {
            copies: Vec::new(alloc),
            bounds: Vec::new(alloc),
        }
    }

    /// Appends a copy whose pending times are at least `lower_bound`.
    pub fn put(&mut self, copy: PhysCopy, lower_bound: u64) -> Result<(), NoMemory>
        requires lower { IsLowerBound lower_bound copy }
        ensures more { OnOk result (self.new ≡ self.old ++ copy ∷ []) }
    {
        self.bounds.reserve(1)?;
        self.copies.reserve(1)?;
        self.bounds.push_reserved(lower_bound);
        self.copies.push_reserved(copy);
        Ok(())
    }

    /// Puts copies behind these. If out of memory, all copies are lost.
    #[inline(never)]
    pub fn append(&mut self, alloc: Global, more: Copies) -> Result<(), NoMemory>
        ensures all { OnOk result (self.new ≡ self.old ++ more) }
    {
        let Copies {
            copies: mut last,
            bounds: mut last_bounds,
        } = more;
        let mut copies = mem::replace(&mut self.copies, Vec::new(alloc));
        let mut bounds = mem::replace(&mut self.bounds, Vec::new(alloc));
        copies.append(&mut last)?;
        bounds.append(&mut last_bounds)?;
        self.copies = copies;
        self.bounds = bounds;
        Ok(())
    }

    /// Whether there are none.
    #[inline(always)]
    pub fn is_empty(&self) -> bool
        ensures value { IsTrue result ↔ (self.now ≡ []) }
    {
        self.copies.is_empty()
    }

    /// Adds a message to the copies, for their clones in the set. The search begins at the index `guess`, and the index
    /// where it ends is returned.
    pub fn deliver_by_hint(
        &mut self,
        msg: Msg,
        set: CloneSet,
        guess: usize,
    ) -> Result<usize, NoMemory>
        requires disjoint { Disjoint has self.old }
        ensures given { OnOk result (self.new ≡ map (with_message msg set) self.old) }
        ensures same { map but_pending self.new ≡ map but_pending self.old }
    {
        let place = deliver_from(&mut self.copies, &mut self.bounds, msg, set, guess)?;
        Ok(place)
    }

    /// Adds a packed message to the copy at `guess`, if that has exactly these clones. Returns whether it has.
    #[inline(always)]
    pub fn deliver_packed(
        &mut self,
        msg: PackedMsg,
        set: CloneSet,
        guess: usize,
    ) -> Result<bool, NoMemory>
        requires disjoint { Disjoint has self.old }
        ensures given { IfOk result (λ done. done ≡ true → self.new ≡ map (with_message msg set) self.old) }
        ensures left { IfOk result (λ done. done ≡ false → self.new ≡ self.old) }
        ensures same { map but_pending self.new ≡ map but_pending self.old }
    {
        if is_at(self.copies.as_slice(), set, guess) {
            give_all(&mut self.copies[guess], &mut self.bounds[guess], msg)?;
            return Ok(true);
        }
        Ok(false)
    }

    /// Adds the clone `new` next to the clone `old`.
    pub fn fork(&mut self, old: u32, new: u32)
        requires numbers { AreCloneNumbers old new }
        ensures forked { self.new ≡ map (copy_after_fork old new) self.old }
    {
        fork(&mut self.copies, old, new);
    }

    /// The copies as a reader sees them; the logs are shared.
    pub fn see_all(&mut self, alloc: Global) -> Result<Vec<RackCopy>, NoMemory>
        ensures seen { IfOk result (λ v. v.items ≡ map view_of_copy self.old) }
        ensures same { self.new ≡ self.old }
    {
        let all = see_all(alloc, &mut self.copies)?;
        Ok(all)
    }

    /// A lower bound of all pending times.
    pub fn lower_bound(&self) -> u64
        ensures lower { IsLowerBoundOfAll result self.now }
    {
        least_of(self.bounds())
    }

    /// For each copy, at the same index, a lower bound of its pending times.
    pub fn bounds(&self) -> &[u64]
        ensures each { AllZip IsLowerBound result.now self.now }
    {
        self.bounds.as_slice()
    }

    /// The copies.
    pub fn as_slice(&self) -> &[PhysCopy]
        ensures same { result.now ≡ self.now }
    {
        self.copies.as_slice()
    }
}
