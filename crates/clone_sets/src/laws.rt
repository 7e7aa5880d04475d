//! What is true of all sets of clones: each function's contract is a law, and there is nothing to run.
ghost use Rattle.clone_sets.specs.Laws.{UnionJoinsMarks, CommonMeetsMarks, SizeIsCount, HalvesAddUp, SetHasClone};

/// Sets of clones may mark messages: union and intersection are defined clone by clone.
pub fn sets_are_marks()
    ensures join { UnionJoinsMarks }
    ensures meet { CommonMeetsMarks }
{}

/// A set's size is the number of its clones, and a nonempty set has one.
pub fn sizes_are_counts()
    ensures count { SizeIsCount }
    ensures halves { HalvesAddUp }
    ensures some { SetHasClone }
{}
