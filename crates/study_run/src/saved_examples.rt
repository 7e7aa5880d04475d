//! Worked examples, computed by the checker from the definitions. Each function's contract is a theorem; there is
//! nothing to run.
ghost use Rattle.std.specs.Prelude.{◌≡◌};
ghost use Rattle.sim_base.specs.Clones.{base};
ghost use Rattle.stations.specs.Examples.OneDesk.{one_desk};
ghost use Rattle.decision_script.specs.Examples.{two_clones};
ghost use Rattle.study_run.specs.Limits.{last_time};
ghost use Rattle.study_run.specs.SavedExamples.{three_clones, two_clones_and_late_set};
ghost use Rattle.study_run.specs.ScriptLaws.{clones_of};

/// The clones of a script with two forks, and a set for each. A set at the horizon is refused, and changes no clone.
pub fn clones_of_two_forks()
    ensures accepted { clones_of one_desk two_clones ≡ three_clones }
    ensures refused { clones_of one_desk two_clones_and_late_set ≡ three_clones }
{}

/// The base clone stops at the time, or at the horizon if that is earlier.
pub fn stops_at_the_time()
    ensures before { last_time one_desk 10 base ≡ 10 }
    ensures after { last_time one_desk 99 base ≡ 20 }
{}
