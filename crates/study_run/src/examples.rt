//! Worked examples, computed by the checker from the definitions. The contract of each function is a theorem; there is
//! nothing to run.
ghost use Rattle.std.specs.Prelude.{◌≡◌, [], ◌∷◌, Some, None};
ghost use Rattle.sim_base.specs.Clones.{base};
ghost use Rattle.solo_run.specs.Limit.{first_beyond};
ghost use Rattle.stations.specs.Runs.{trace_of};
ghost use Rattle.stations.specs.Examples.OneDesk.{fast, one_desk, two_branches, short_logs};
ghost use Rattle.world_core.specs.Worlds.{total_handled};
ghost use Rattle.study_run.specs.Overs.{first_overrun_of};

/// Two branches of one server handle 13 messages once.
pub fn two_branches_share()
    ensures total { total_handled one_desk two_branches 20 ≡ 13 }
{}

/// With a limit of three entries the first log beyond it is the desk's in the faster branch, in the window that ends at
/// 10. With four it is in a later window, and with five there is none.
pub fn limits_are_met()
    ensures three { first_overrun_of short_logs two_branches ≡ Some (2, 1) }
    ensures alone { first_overrun_of short_logs (base ∷ []) ≡ Some (2, 0) }
    ensures two { first_overrun_of (record one_desk { limit = 2 }) two_branches ≡ Some (2, 0) }
    ensures four { first_overrun_of (record one_desk { limit = 4 }) two_branches ≡ Some (2, 1) }
    ensures five { first_overrun_of (record one_desk { limit = 5 }) two_branches ≡ None }
{}

/// The same for each branch alone: the desk's log is full before its fourth entry, and in the faster branch before its
/// fifth.
pub fn limits_are_met_alone()
    ensures base { first_beyond 3 [] (trace_of one_desk base) ≡ Some 2 }
    ensures fast { first_beyond 4 [] (trace_of one_desk fast) ≡ Some 2 }
    ensures within { first_beyond 5 [] (trace_of one_desk fast) ≡ None }
{}
