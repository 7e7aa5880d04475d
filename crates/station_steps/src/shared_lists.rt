//! The lists of the clones' decisions, with a copy for readers.
ghost use Rattle.std.specs.Prelude.{◌≡◌, ◌∷◌, [], ◌+◌, ◌^◌, ◌<◌, length, IfOk, OnOk, None};
ghost use Rattle.sim_base.specs.Clones.{clones_with_plan, base, clone_at, clones_with_end, clones_with_fork, place_of};

use sim_base::{Lists, Name, NoMemory, Planned};
use std::alloc::Global;
use std::sync::Arc;

/// Decision lists, and the copy that all readers since the last decision share.
#[derive(Drop)]
pub struct SharedLists {
    lists: Lists,
    shown: Option<Arc<Lists>>,
}

impl std::marker::Model for SharedLists {
    ghost use Rattle.std.specs.Prelude.{◌≡◌, IfSome};
    ghost use Rattle.sim_base.specs.Clones.{ListsView};

    ghost Value = { ListsView };

    ghost view = { λ s. s.lists };

    ghost invariant = { λ s. IfSome s.shown (λ shown. shown.value.clones ≡ s.lists.clones) };
}

impl SharedLists {
    /// The base clone alone.
    pub fn new(alloc: Global) -> Result<SharedLists, NoMemory>
        ensures value { IfOk result (λ s. s.clones ≡ base ∷ []) }
    {
        Ok(SharedLists {
            lists: Lists::new(alloc)?,
            shown: None,
        })
    }

    /// The lists.
    pub fn lists(&self) -> &Lists
        ensures value { result.now ≡ self.now }
    {
        &self.lists
    }

    /// Ends a clone at a time.
    pub fn end(&mut self, c: u32, at: u64)
        requires in_range { c < length self.old.clones }
        requires once { (clone_at self.old.clones c).end ≡ None }
        ensures clones { self.new.clones ≡ clones_with_end self.old.clones c at }
    {
        self.shown = None;
        self.lists.end(c, at);
    }

    /// Adds a decision to a clone's list.
    pub fn add(&mut self, c: u32, plan: Planned) -> Result<(), NoMemory>
        requires in_range { c < length self.old.clones }
        ensures clones { OnOk result (self.new.clones ≡ clones_with_plan self.old.clones c plan) }
    {
        self.shown = None;
        self.lists.add(c, plan)
    }

    /// Adds a clone with the decisions of an old one and no end.
    pub fn fork(&mut self, alloc: Global, new: Name, old: u32) -> Result<(), NoMemory>
        requires in_range { old < length self.old.clones }
        requires unused { place_of new self.old.clones ≡ None }
        requires at_most { length self.old.clones + 1 < 2 ^ 32 }
        ensures clones { OnOk result (self.new.clones ≡ clones_with_fork self.old.clones new old) }
    {
        self.shown = None;
        self.lists.fork(alloc, new, old)
    }

    /// Returns the lists for readers: one shared copy until the next decision.
    pub fn show(&mut self, alloc: Global) -> Result<Arc<Lists>, NoMemory>
        ensures value { IfOk result (λ shown. shown.value.clones ≡ self.old.clones) }
        ensures same { self.new ≡ self.old }
    {
        if let Some(shown) = &self.shown {
            return Ok(shown.clone()?);
        }
        let shown = Arc::new(alloc, self.lists.copy(alloc)?)?;
        self.shown = Some(shown.clone()?);
        Ok(shown)
    }
}
