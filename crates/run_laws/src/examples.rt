//! A small simulation, computed by the checker from the definitions of a run alone.
//!
//! Its definitions are in `specs/Examples.antt`. Each function's contract is a theorem; there is nothing to run.
ghost use Rattle.std.specs.Prelude.{◌≡◌, [], ◌∷◌, Some, None};
ghost use Rattle.sim_base.specs.Clones.{base};
ghost use Rattle.run_laws.specs.Runs.{trace_of, all_due, due_at};
ghost use Rattle.run_laws.specs.Fronts.{least_of, least, AreFronts};
ghost use Rattle.run_laws.specs.FrontLaws.{least_to};
ghost use Rattle.run_laws.specs.Sharing.{copies, handled_once, handled_to_limit, handled_alone, IsBeyond};
ghost use Rattle.run_laws.specs.Handlers.{HandlesLawfully, SendsToStations};
ghost use Rattle.run_laws.specs.Examples.{game, AnyState, base_trace, busy, busy_trace, until_eight, until_eight_trace};
ghost use Rattle.run_laws.specs.Examples.{last_minute, last_minute_trace, all_three, with_twin, merged_trace};
ghost use Rattle.run_laws.specs.Examples.{same_catch, window_of, catch_at, ball};

/// A run handles messages by time, and those of one time in their order; a clone's end stops it.
pub fn traces()
    ensures plain { trace_of game base ≡ base_trace }
    ensures busy { trace_of game busy ≡ busy_trace }
    ensures ended { trace_of game until_eight ≡ until_eight_trace }
{}

/// The next fronts of one clone, of all three, and of one that ends.
pub fn fronts()
    ensures plain { AreFronts game (base ∷ []) 0 (5 ∷ 8 ∷ 11 ∷ 12 ∷ []) }
    ensures all { AreFronts game all_three 0 (5 ∷ 8 ∷ 11 ∷ 12 ∷ []) }
    ensures ended { AreFronts game (until_eight ∷ []) 0 (5 ∷ 8 ∷ 12 ∷ []) }
{}

/// A message at the horizon is pending, and never due.
pub fn at_the_horizon()
    ensures trace { trace_of game last_minute ≡ last_minute_trace }
    ensures due { due_at game last_minute 1 11 ≡ ball 11 2 1 ∷ [] }
    ensures nothing_left { all_due game last_minute 12 ≡ [] }
    ensures fronts { AreFronts game (last_minute ∷ []) 0 (5 ∷ 8 ∷ 11 ∷ 12 ∷ []) }
{}

/// The least due time: of a clone, by its stations, and of several clones.
pub fn due_times()
    ensures clone { least_of game until_eight 5 ≡ Some 5 }
    ensures stations { least_to game until_eight 5 2 ≡ Some 5 }
    ensures after_its_end { least_of game until_eight 8 ≡ None }
    ensures all { least game all_three 6 ≡ Some 6 }
{}

/// A trace is the merge of the two stations' logs.
pub fn merges()
    ensures busy { merged_trace busy ≡ busy_trace }
    ensures last_minute { merged_trace last_minute ≡ last_minute_trace }
{}

/// The window of one station from 5 to 8: its log grows, and its sends to the other station are laid aside.
pub fn windows()
    ensures log { (window_of busy 1 5 8).at.log ≡ catch_at 2 0 1 1 ∷ catch_at 5 2 1 2 ∷ catch_at 6 1 1 3
        ∷ catch_at 6 12 1 4 ∷ catch_at 7 11 1 5 ∷ [] }
    ensures nothing_aside { (window_of busy 1 5 8).at.aside ≡ [] }
    ensures aside { (window_of busy 2 5 8).at.aside ≡ ball 8 0 1 ∷ [] }
    ensures ended { (window_of until_eight 1 7 12).at.log ≡ catch_at 2 0 1 1 ∷ catch_at 7 1 1 2 ∷ [] }
    ensures due { due_at game busy 1 5 ≡ ball 5 2 1 ∷ ball 6 1 1 ∷ [] }
    ensures due_before_end { due_at game until_eight 1 7 ≡ ball 7 1 1 ∷ [] }
{}

/// What the three clones have in common at each station.
pub fn counts()
    ensures copies_of_1 { copies game same_catch all_three 1 12 ≡ 3 }
    ensures handled_of_1 { handled_once game same_catch all_three 1 12 ≡ 8 }
    ensures handled_to_the_limit_of_1 { handled_to_limit game same_catch all_three 1 12 ≡ 4 }
    ensures alone_of_1 { handled_alone game all_three 1 12 ≡ 10 }
    ensures copies_of_2 { copies game same_catch all_three 2 12 ≡ 2 }
    ensures handled_of_2 { handled_once game same_catch all_three 2 12 ≡ 2 }
    ensures alone_of_2 { handled_alone game all_three 2 12 ≡ 5 }
    ensures handled_with_twin { handled_once game same_catch with_twin 1 12 ≡ 8 }
    ensures alone_with_twin { handled_alone game with_twin 1 12 ≡ 16 }
    ensures beyond { IsBeyond game 1 12 busy }
    ensures within { ¬ (IsBeyond game 1 12 base) }
{}

/// The game meets the requirements of the laws.
pub fn game_is_lawful()
    ensures handles { HandlesLawfully game AnyState }
    ensures sends { SendsToStations game AnyState }
{}
