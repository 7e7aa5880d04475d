//! Ends of clones: a list of clone numbers and times. From its end on a clone takes no message.
//!
//! If a clone is listed more than once, the least time counts; a clone that is not listed ends at the horizon.
ghost use Rattle.std.specs.Prelude.{◌≡◌, ℕ, ◌<◌, ◌≤◌, ◌∷◌, ◌++◌, [], true, min, OnOk, OnErr};
ghost use Rattle.sim_base.specs.declared.lists.TheConstants.{MAX_CLONES};
ghost use Rattle.clone_sets.specs.Sets.{has};
ghost use Rattle.phys_proc.specs.Ends.{ends_in, EndsWith, has_ended};

use clone_sets::CloneSet;
use sim_base::NoMemory;
use std::alloc::Global;
use std::marker::Model;

/// The ends of the clones that have one.
#[derive(Drop)]
pub struct CloneEnds {
    ended: Vec<(u32, u64)>,
}

impl Model for CloneEnds {
    ghost use Rattle.std.specs.Prelude.{List, ℕ};
    ghost use Rattle.phys_proc.specs.Ends.{AreEndsOfClones};

    ghost Value = { List (ℕ × ℕ) };

    ghost view = { λ e. e.ended.items };

    ghost invariant = { λ e. AreEndsOfClones e.ended.items };
}

impl CloneEnds {
    /// No clone has an end.
    pub fn none(alloc: Global) -> CloneEnds
        ensures none { result ≡ [] }
    {
        CloneEnds {
            ended: Vec::new(alloc),
        }
    }

    /// Ends the clone at that time, unless it ends earlier.
    ///
    /// If out of memory, changes nothing.
    pub fn end(&mut self, clone: u32, at: u64) -> Result<(), NoMemory>
        requires clone { clone < MAX_CLONES }
        ensures ended { OnOk result (self.new ≡ self.old ++ (clone, at) ∷ []) }
        ensures ends { OnOk result (EndsWith clone at self.old self.new) }
        ensures err { OnErr result (self.new ≡ self.old) }
    {
        self.ended.push((clone, at))?;
        Ok(())
    }

    /// The end of the clone, or the horizon if it has none before.
    pub fn end_of(&self, clone: u32, horizon: u64) -> u64
        ensures end { result ≡ ends_in horizon self.now clone }
    {
        let mut end = horizon;
        for i in 0..self.ended.len() {
            let (other, at) = self.ended[i];
            if other == clone {
                end = end.min(at);
            }
        }
        end
    }

    /// A time before which none of these clones ends.
    #[inline(always)]
    pub fn first_of(&self, set: CloneSet) -> u64
        ensures first { (horizon c : ℕ) → has set c ≡ true → min horizon result ≤ ends_in horizon self.now c }
    {
        if self.ended.is_empty() {
            return u64::MAX;
        }
        self.first_end_of(set)
    }

    // The same if some clone ends.
    #[inline(never)]
    fn first_end_of(&self, set: CloneSet) -> u64
        ensures first { (horizon c : ℕ) → has set c ≡ true → min horizon result ≤ ends_in horizon self.now c }
    {
        let mut first = u64::MAX;
        for i in 0..self.ended.len() {
            let (clone, end) = self.ended[i];
            if set.has(clone) {
                first = first.min(end);
            }
        }
        first
    }

    /// The clones that have ended at this time.
    pub fn ended_clones(&self, time: u64) -> CloneSet
        ensures ended { (c : ℕ) → has result c ≡ has_ended time self.now c }
    {
        let mut clones = CloneSet::empty();
        for i in 0..self.ended.len() {
            let (clone, end) = self.ended[i];
            if end <= time {
                clones = clones.with(clone);
            }
        }
        clones
    }
}
