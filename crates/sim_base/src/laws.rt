//! Laws of the shared types: each function's contract is a law, and there is nothing to run.
ghost use Rattle.sim_base.specs.Decisions.{PlansAreToldApart};
ghost use Rattle.sim_base.specs.KeyWords.{WordsAreOrdered};
ghost use Rattle.sim_base.specs.Same.{EntriesAreToldApart};

/// Two entries of a log are the same exactly when they are equal: the message with its receiver and payload, and every
/// count.
pub fn entries_are_told_apart()
    ensures equal { EntriesAreToldApart }
{}

/// Two planned decisions are the same exactly when they are equal: in their time, their station, the parameter and its
/// values.
pub fn plans_are_told_apart()
    ensures equal { PlansAreToldApart }
{}

/// Keys that fit 64-bit words have the same order as their words.
pub fn words_are_ordered()
    ensures ordered { WordsAreOrdered }
{}
