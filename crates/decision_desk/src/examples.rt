//! Worked examples, computed by the checker from the definitions. The contract of each function is a theorem; there is
//! nothing to run.
ghost use Rattle.stations.specs.Examples.OneDesk.{one_desk};
ghost use Rattle.decision_book.specs.Examples.{during_a_run, raised_to};
ghost use Rattle.decision_desk.specs.Legal.{IsLegal};

/// If a set waits at front 10, the next front is 12: the journal that continues at 12 is legal, and those that continue
/// at 13 or 11 are not.
pub fn front_behind_a_set()
    ensures next { IsLegal one_desk during_a_run }
    ensures later { ¬ (IsLegal one_desk (raised_to 13)) }
    ensures sooner { ¬ (IsLegal one_desk (raised_to 11)) }
{}
