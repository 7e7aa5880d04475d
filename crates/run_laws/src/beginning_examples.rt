//! Beginnings of two small traces, computed by the checker from the definitions alone.
//!
//! The clones are in `specs/BeginningExamples.antt`. Each function's contract is a theorem; there is nothing to run.
ghost use Rattle.std.specs.Prelude.{◌≡◌, [], ◌∷◌};
ghost use Rattle.run_laws.specs.Runs.{trace_of};
ghost use Rattle.run_laws.specs.Examples.{game, catch_at};
ghost use Rattle.run_laws.specs.Beginnings.{before, from};
ghost use Rattle.run_laws.specs.BeginningExamples.{early, early_trace, later, merged_from, word};

/// The trace of the first clone, before a word and from it on.
pub fn traces()
    ensures trace { trace_of game early ≡ early_trace }
    ensures before { before word 700 early_trace ≡ catch_at 2 0 1 1 ∷ catch_at 5 0 2 1 ∷ catch_at 6 1 2 2 ∷ [] }
    ensures from { from word 800 early_trace ≡ catch_at 8 0 1 2 ∷ catch_at 11 0 2 4 ∷ [] }
{}

/// The two clones have the same entries before time 6, and the logs of the second give the rest.
pub fn beginnings()
    ensures kept { before word 600 (trace_of game later) ≡ before word 600 early_trace }
    ensures merged { merged_from later 600
        ≡ catch_at 7 1 2 2 ∷ catch_at 8 0 1 2 ∷ catch_at 8 11 2 3 ∷ catch_at 11 0 2 4 ∷ [] }
{}
