//! Worked examples, computed by the checker from the definitions. Each function's contract is a theorem; there is
//! nothing to run. The looks are in `specs/Examples.antt`.
ghost use Rattle.stations.specs.Examples.OneDesk.{one_desk};
ghost use Rattle.decision_book.specs.Examples.{during_a_run};
ghost use Rattle.live_study.specs.Examples.{of_base_alone, of_base_and_fork};
ghost use Rattle.live_study.specs.Looks.{IsTrueLook};

/// A look at front 10 sees the base clone alone: a fork whose call comes after the line of front 10 is not there yet.
pub fn look_before_a_fork()
    ensures alone { IsTrueLook one_desk during_a_run of_base_alone }
    ensures forked { ¬ (IsTrueLook one_desk during_a_run of_base_and_fork) }
{}
