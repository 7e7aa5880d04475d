//! A set of clones as the marks of a message: the clones that it is for.
ghost use Rattle.clone_sets.specs.Sets.{union as union', common as common'};

use crate::set::CloneSet;
use sim_base::Marks;

impl Marks for CloneSet {
    ghost union = { union' };

    ghost common = { common' };

    fn join(self, other: CloneSet) -> CloneSet {
        self.union(other)
    }

    fn meet(self, other: CloneSet) -> Option<CloneSet> {
        let shared = CloneSet::meet(self, other);
        if shared.is_empty() {
            None
        } else {
            Some(shared)
        }
    }
}
