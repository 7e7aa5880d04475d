//! Worked examples, computed by the checker from the definitions of a run and of the figures alone.
//!
//! Each function's contract is a theorem; there is nothing to run. `stations::examples` or `specs/Examples.antt`
//! describes the log of each example.
ghost use Rattle.std.specs.Prelude.{◌≡◌, [], ◌∷◌, Some, None, codes, true, false};
ghost use Rattle.sim_base.specs.Clones.{base};
ghost use Rattle.stations.specs.Runs.{log_at};
ghost use Rattle.stations.specs.Examples.OneDesk.{one_desk, fast, brief, desk};
ghost use Rattle.stations.specs.Examples.FullRoom.{three_sources, desk as full_desk};
ghost use Rattle.queue_stats.specs.Moments.{moments};
ghost use Rattle.queue_stats.specs.Figures.{time_in_system, waits};
ghost use Rattle.queue_stats.specs.Stats.{server_stats};
ghost use Rattle.queue_stats.specs.StatsText.{stats_text};
ghost use Rattle.queue_stats.specs.Examples.{gone, low_and_high, shared_desk, feedback, first_desk, two_rows};
ghost use Rattle.queue_stats.specs.Examples.{two_rows_text};

/// One server; the second job waits from 8 to 9.
pub fn one_job_at_a_time()
    ensures stats { server_stats one_desk desk 20 (log_at one_desk base desk 20) ≡ record {
      arrived = 2;
      lost = 0;
      done = 2;
      most = 1;
      present = 9;
      waits = Some (record { waited = 1; longest = 1 });
    } }
    ensures little { time_in_system 20 (moments (log_at one_desk base desk 20)) ≡ 9 }
    ensures waits { waits (moments (log_at one_desk base desk 20)) ≡ 0 ∷ 1 ∷ [] }
{}

/// Faster service in one branch: its log has a change of a parameter, so no waits are reported.
pub fn faster_service_in_one_branch()
    ensures stats { server_stats one_desk desk 20 (log_at one_desk fast desk 20) ≡ record {
      arrived = 2;
      lost = 0;
      done = 2;
      most = 1;
      present = 7;
      waits = None;
    } }
    ensures little { time_in_system 20 (moments (log_at one_desk fast desk 20)) ≡ 7 }
{}

/// Three jobs arrive at a server without a waiting room: two are lost, so no waits are reported.
pub fn full_waiting_room()
    ensures stats { server_stats (three_sources 0) full_desk 20 (log_at (three_sources 0) base full_desk 20) ≡ record {
      arrived = 3;
      lost = 2;
      done = 1;
      most = 0;
      present = 4;
      waits = None;
    } }
    ensures little { time_in_system 20 (moments (log_at (three_sources 0) base full_desk 20)) ≡ 4 }
{}

/// A clone that ends at 9: one job is in service then, and one waits; its wait is not counted.
pub fn clone_that_ends()
    ensures stats { server_stats one_desk desk 9 (log_at one_desk brief desk 20) ≡ record {
      arrived = 2;
      lost = 0;
      done = 0;
      most = 1;
      present = 5;
      waits = Some (record { waited = 0; longest = 0 });
    } }
    ensures little { time_in_system 9 (moments (log_at one_desk brief desk 20)) ≡ 5 }
{}

/// A clone that ends at 0.
pub fn clone_that_ends_at_once()
    ensures stats { server_stats one_desk desk 0 (log_at one_desk gone desk 20) ≡ record {
      arrived = 0;
      lost = 0;
      done = 0;
      most = 0;
      present = 0;
      waits = Some (record { waited = 0; longest = 0 });
    } }
    ensures little { time_in_system 0 (moments (log_at one_desk gone desk 20)) ≡ 0 }
{}

/// A server by class: the job of class 1 is served before a job of class 2 that arrived earlier.
pub fn service_by_class()
    ensures stats { server_stats (low_and_high true) shared_desk 20
        (log_at (low_and_high true) base shared_desk 20) ≡ record {
          arrived = 3;
          lost = 0;
          done = 3;
          most = 2;
          present = 17;
          waits = None;
        } }
    ensures little { time_in_system 20 (moments (log_at (low_and_high true) base shared_desk 20)) ≡ 17 }
{}

/// The same server by arrival. The number in the system does not depend on the order of service.
pub fn service_by_arrival()
    ensures stats { server_stats (low_and_high false) shared_desk 20
        (log_at (low_and_high false) base shared_desk 20) ≡ record {
          arrived = 3;
          lost = 0;
          done = 3;
          most = 2;
          present = 17;
          waits = Some (record { waited = 5; longest = 4 });
        } }
    ensures little { time_in_system 20 (moments (log_at (low_and_high false) base shared_desk 20)) ≡ 17 }
{}

/// A job that returns to a server makes a second visit there, which ends at the job's second departure.
pub fn jobs_that_return()
    ensures stats { server_stats feedback first_desk 30 (log_at feedback base first_desk 30) ≡ record {
      arrived = 6;
      lost = 0;
      done = 5;
      most = 1;
      present = 28;
      waits = Some (record { waited = 7; longest = 4 });
    } }
    ensures little { time_in_system 30 (moments (log_at feedback base first_desk 30)) ≡ 28 }
{}

/// The text of the first two examples, and the text of no rows.
pub fn texts()
    ensures two_rows { stats_text one_desk two_rows ≡ two_rows_text }
    ensures no_rows { stats_text one_desk [] ≡ codes "stats\n" }
{}
