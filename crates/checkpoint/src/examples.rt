//! Worked examples, computed by the checker from the definitions of snapshots and of a run.
//!
//! The snapshot and the messages are in `specs/Examples.antt`. Each function's contract is a theorem; there is nothing
//! to run.
ghost use Rattle.std.specs.Prelude.{◌≡◌, [], ◌∷◌, ◌++◌, Some, None, length, map, drop, true, false};
ghost use Rattle.std.specs.List.{list_all};
ghost use Rattle.sim_base.specs.Clones.{base};
ghost use Rattle.run_laws.specs.World.{log_of};
ghost use Rattle.stations.specs.Examples.OneDesk.{desk, one_desk, one_desk_trace};
ghost use Rattle.stations.specs.Examples.SavedStates.{gate_at_10};
ghost use Rattle.stations.specs.Fitting.{fits_saved};
ghost use Rattle.solo_run.specs.Limit.{first_beyond, receiver};
ghost use Rattle.checkpoint.specs.Accepted.{first_unfit, fits_front};
ghost use Rattle.checkpoint.specs.Due.{first_bad};
ghost use Rattle.checkpoint.specs.Examples.{base_at_10, saved_at_10, due_at_10, bad_messages, one_completion_too_many};
ghost use Rattle.checkpoint.specs.Examples.{key_at_13, past_at_10, rest_at_10, two_unfit};
ghost use Rattle.checkpoint.specs.Firsts.{entries_below};
ghost use Rattle.checkpoint.specs.RunSnapshots.{snapshot_of};
ghost use Rattle.checkpoint.specs.Snapshots.{onward};
ghost use Rattle.checkpoint.specs.TraceLines.{is_trace_line};

/// The snapshot of the base clone at 10, and the messages that the run from it handles.
pub fn one_desk_at_10()
    ensures snapshot { snapshot_of one_desk base 10 ≡ base_at_10 }
    ensures onward { onward one_desk base_at_10 ≡ drop 5 one_desk_trace }
{}

/// The snapshot passes each test.
pub fn tests_of_the_snapshot()
    ensures fit { first_unfit one_desk 1 saved_at_10 ≡ None }
    ensures due { first_bad one_desk 10 saved_at_10 [] None due_at_10 ≡ None }
    ensures lines { list_all is_trace_line base_at_10.lines ≡ true }
{}

/// Messages that a snapshot may not have.
pub fn bad_pending_messages()
    ensures alone { map (λ m. first_bad one_desk 10 saved_at_10 [] None (m ∷ [])) bad_messages
        ≡ Some 0 ∷ Some 0 ∷ Some 0 ∷ Some 0 ∷ Some 0 ∷ Some 0 ∷ [] }
    ensures completions { first_bad one_desk 10 saved_at_10 [] None one_completion_too_many ≡ Some 2 }
{}

/// The front may be the horizon or the clone's end, and the end is before the horizon.
pub fn fronts_and_ends()
    ensures horizon { fits_front one_desk 20 None ≡ true }
    ensures end { fits_front one_desk 10 (Some 10) ≡ true }
    ensures late { fits_front one_desk 21 None ≡ false }
    ensures past_end { fits_front one_desk 11 (Some 10) ≡ false }
    ensures end_at_horizon { fits_front one_desk 10 (Some 20) ≡ false }
{}

/// Of two stations with data that does not fit, the first is named.
pub fn first_unfit_station()
    ensures first { first_unfit one_desk 1 two_unfit ≡ Some desk }
    ensures before { fits_saved one_desk 1 gate_at_10 ≡ true }
    ensures unfit { fits_saved one_desk desk gate_at_10 ≡ false }
{}

/// The desk's entry at 13 finds three entries of the desk, all of the past. So it meets a limit of three and none of
/// four.
pub fn limit_after_the_snapshot()
    ensures found { length (log_of receiver desk (past_at_10 ++ entries_below key_at_13 rest_at_10)) ≡ 3 }
    ensures three { first_beyond 3 past_at_10 rest_at_10 ≡ Some desk }
    ensures four { first_beyond 4 past_at_10 rest_at_10 ≡ None }
{}
