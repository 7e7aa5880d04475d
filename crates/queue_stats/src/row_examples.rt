//! Worked examples, computed by the checker from only the definitions of a run and of the statistics.
//!
//! The contract of each function is a theorem; there is nothing to run. The texts are in `specs/RowExamples.antt`. The
//! networks are there, in `specs/Examples.antt` and in `stations`.
ghost use Rattle.std.specs.Prelude.{◌≡◌, [], ◌∷◌, codes, true, false};
ghost use Rattle.sim_base.specs.Clones.{base};
ghost use Rattle.stations.specs.Examples.OneDesk.{one_desk, two_branches, brief};
ghost use Rattle.stations.specs.Examples.FullRoom.{three_sources};
ghost use Rattle.queue_stats.specs.Examples.{gone, low_and_high, feedback};
ghost use Rattle.queue_stats.specs.Rows.{statistics};
ghost use Rattle.queue_stats.specs.RowExamples.{two_branches_text, ended_text, full_room_text, by_class_text};
ghost use Rattle.queue_stats.specs.RowExamples.{by_arrival_text, feedback_text, no_server};

/// One server in two branches. The log of the second has a change of a parameter, so no waits are reported.
pub fn faster_service_in_one_branch()
    ensures text { statistics one_desk two_branches ≡ two_branches_text }
{}

/// Clones that end: the job that waits at 9 has not started, and the clone that ends at 0 has no visit with a wait.
pub fn clones_that_end()
    ensures text { statistics one_desk (brief ∷ gone ∷ []) ≡ ended_text }
{}

/// Losses: no waits are reported.
pub fn full_waiting_room()
    ensures text { statistics (three_sources 0) (base ∷ []) ≡ full_room_text }
{}

/// The order of service: `present` does not depend on it. Waits are reported only for service by arrival.
pub fn orders_of_service()
    ensures by_class { statistics (low_and_high true) (base ∷ []) ≡ by_class_text }
    ensures by_arrival { statistics (low_and_high false) (base ∷ []) ≡ by_arrival_text }
{}

/// A job that returns makes a second visit.
pub fn jobs_that_return()
    ensures text { statistics feedback (base ∷ []) ≡ feedback_text }
{}

/// The statistics of a model without servers are the heading only.
pub fn no_servers()
    ensures text { statistics no_server (base ∷ []) ≡ codes "stats\n" }
{}
