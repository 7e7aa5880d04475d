//! The clones of a set, one after another.
ghost use Rattle.std.specs.Iterator.{YieldsFirst, item_count};

use crate::set::CloneSet;
use std::marker::Model;

/// Iterator: the clones of a set that are still to come, in rising order.
#[derive(Debug, Drop)]
pub struct Members {
    pub(crate) rest: CloneSet,
}

impl Model for Members {
    ghost use Rattle.std.specs.Prelude.{List, ℕ};
    ghost use Rattle.clone_sets.specs.Sets.{members};

    ghost Value = { List ℕ };

    ghost view = { λ m. members m.rest };
}

impl Iterator for Members {
    type Item = u32;

    ghost next_gives = { YieldsFirst (λ rest. rest) };

    ghost remaining = { item_count (λ rest. rest) };

    fn next(&mut self) -> Option<u32> {
        let first = self.rest.first()?;
        self.rest = self.rest.without(first);
        Some(first)
    }
}
