//! The least time stamps among the pending messages that clones take.
ghost use Rattle.std.specs.Prelude.{◌≡◌, ℕ, ◌<◌};
ghost use Rattle.sim_base.specs.Marked.{SortedMarked};
ghost use Rattle.sim_base.specs.Order.{msg_cmp};
ghost use Rattle.sim_base.specs.declared.lists.TheConstants.{MAX_CLONES};
ghost use Rattle.clone_sets.specs.Sets.{has};
ghost use Rattle.run_laws.specs.Queue.{In};
ghost use Rattle.run_laws.specs.Copies.{Carries};
ghost use Rattle.phys_proc.specs.Own.{IsLowerBound, taken_at};
ghost use Rattle.phys_proc.specs.Procs.{IsProc, IsLeastTime, IsLeastOf, IsLeastOfCopy, IsLeast, IsWithCopy};
ghost use Rattle.phys_proc.specs.Ends.{ends_in};

use crate::clone_ends::CloneEnds;
use crate::copy::PhysCopy;
use crate::proc::Proc;
use clone_sets::CloneSet;
use net_model::Model;
use stations::due::earlier;

/// The least time of a message that clone `c`, which ends at `end`, takes of the copy; None if it is not in it.
pub(crate) fn least_of_clone(copy: &PhysCopy, c: u32, end: u64) -> Option<u64>
    requires sorted { SortedMarked msg_cmp copy.now.pending }
    requires clone { c < MAX_CLONES }
    ensures least { (ends : ℕ → ℕ) → end ≡ ends c → IsLeastTime (λ m. Carries has copy.now c ×
        In m (taken_at ends c copy.now.pending)) result }
{
    if !copy.pending.set().has(c) {
        return None;
    }
    let Some(first) = copy.pending.least_with(CloneSet::one(c)) else {
        return None;
    };
    let time = first.0.key.time;
    if time < end { Some(time) } else { None }
}

/// The least time of a message that any of its clones takes of the copy.
pub(crate) fn least_of_copy(copy: &PhysCopy, ends: &CloneEnds, horizon: u64) -> Option<u64>
    requires sorted { SortedMarked msg_cmp copy.now.pending }
    ensures least { IsLeastOfCopy (ends_in horizon ends.now) copy.now result }
{
    let mut alive = copy.pending.set();
    while let Some(first) = copy.pending.least_with(alive) {
        let time = first.0.key.time;
        if time >= horizon {
            return None;
        }
        let takers = first.1.minus(ends.ended_clones(time));
        if !takers.is_empty() {
            return Some(time);
        }
        alive = alive.minus(first.1);
    }
    None
}

// The lesser of a time found before and the least time of the copy. The copy is only read if its `lower_bound` is
// before the other time.
fn with_copy(
    copy: &PhysCopy,
    lower_bound: u64,
    ends: &CloneEnds,
    horizon: u64,
    before: Option<u64>,
) -> Option<u64>
    requires sorted { SortedMarked msg_cmp copy.now.pending }
    requires lower { IsLowerBound lower_bound copy.now }
    ensures least { IsWithCopy (ends_in horizon ends.now) copy.now before result }
{
    if let Some(time) = before {
        if time <= lower_bound {
            return before;
        }
    }
    earlier(before, least_of_copy(copy, ends, horizon))
}

impl Proc {
    /// The least due time of the clone, below its end, or None if nothing is due.
    pub fn least_of(&self, model: &Model, ends: &CloneEnds, c: u32) -> Option<u64>
        requires proc { IsProc model.now self.now }
        requires clone { c < MAX_CLONES }
        ensures least { IsLeastOf (ends_in model.now.horizon ends.now) self.now.copies c result }
    {
        let end = ends.end_of(c, model.horizon());
        let mut least = None;
        for copy in self.copies() {
            least = earlier(least, least_of_clone(copy, c, end));
        }
        least
    }

    /// The least due time of any clone, below its end, or None if nothing is due.
    pub fn least(&self, model: &Model, ends: &CloneEnds) -> Option<u64>
        requires proc { IsProc model.now self.now }
        ensures least { IsLeast (ends_in model.now.horizon ends.now) self.now.copies result }
    {
        let mut least = None;
        let copies = self.copies();
        let bounds = self.bounds();
        for i in 0..copies.len() {
            least = with_copy(&copies[i], bounds[i], ends, model.horizon(), least);
        }
        least
    }
}
