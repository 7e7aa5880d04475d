//! When clones end (their stop times), shared with workers that hold it across windows.
ghost use Rattle.std.specs.Prelude.{◌≡◌, ◌<◌, ◌∷◌, ◌++◌, [], IfOk, OnOk, OnErr};
ghost use Rattle.sim_base.specs.declared.lists.TheConstants.{MAX_CLONES};
ghost use Rattle.phys_proc.specs.Ends.{AreEndsOfClones, EndsWith};

use phys_proc::CloneEnds;
use sim_base::NoMemory;
use std::alloc::Global;
use std::sync::Arc;

/// The ends of clones: a list, and a table made from it that all windows share. A window that a worker still holds
/// never sees the table change, since a new end makes a new table.
#[derive(Drop)]
pub struct SharedEnds {
    listed: Vec<(u32, u64)>,
    made: Arc<CloneEnds>,
}

impl std::marker::Model for SharedEnds {
    ghost use Rattle.std.specs.Prelude.{◌≡◌, List, ℕ};
    ghost use Rattle.phys_proc.specs.Ends.{AreEndsOfClones};

    ghost Value = { List (ℕ × ℕ) };

    ghost view = { λ e. e.listed.items };

    ghost invariant = { λ e. AreEndsOfClones e.listed.items × (e.made.value ≡ e.listed.items) };
}

// Makes the ends from a list.
fn made_of(alloc: Global, listed: &[(u32, u64)]) -> Result<CloneEnds, NoMemory>
    requires clones { AreEndsOfClones listed.now }
    ensures value { IfOk result (λ made. made ≡ listed.now) }
{
    let mut made = CloneEnds::none(alloc);
    for pair in listed {
        made.end(pair.0, pair.1)?;
    }
    Ok(made)
}

impl SharedEnds {
    /// The ends if no clone has one.
    pub fn none(alloc: Global) -> Result<SharedEnds, NoMemory>
        ensures none { IfOk result (λ ends. ends ≡ []) }
    {
        Ok(SharedEnds {
            listed: Vec::new(alloc),
            made: Arc::new(alloc, CloneEnds::none(alloc))?,
        })
    }

    /// The clone ends at that time, unless it already ends earlier.
    ///
    /// If out of memory, nothing changes.
    pub fn end(&mut self, alloc: Global, clone: u32, at: u64) -> Result<(), NoMemory>
        requires clone { clone < MAX_CLONES }
        ensures ended { OnOk result (self.new ≡ self.old ++ (clone, at) ∷ []) }
        ensures ends { OnOk result (EndsWith clone at self.old self.new) }
        ensures err { OnErr result (self.new ≡ self.old) }
    {
        let mut made = made_of(alloc, self.listed.as_slice())?;
        made.end(clone, at)?;
        let made = Arc::new(alloc, made)?;
        self.listed.push((clone, at))?;
        self.made = made;
        Ok(())
    }

    /// The ends.
    pub fn ends(&self) -> &CloneEnds
        ensures value { result.now ≡ self.now }
    {
        &self.made
    }

    /// Another shared handle on the ends, for a window.
    pub fn share(&self) -> Result<Arc<CloneEnds>, NoMemory>
        ensures value { IfOk result (λ made. made.value ≡ self.now) }
    {
        Ok(self.made.clone()?)
    }
}
