//! Due times in a small log, computed by the checker from the definition alone.
//!
//! The log is in `specs/DueExamples.antt`. Each function's contract is a theorem; there is nothing to run.
ghost use Rattle.std.specs.Prelude.{◌≡◌, Some, None};
ghost use Rattle.watch_points.specs.DueExamples.{caught};

/// The due time is the time of the first entry, at the start or later, that meets the condition.
pub fn due_times()
    ensures first { caught 2 0 ≡ Some 5 }
    ensures late { caught 2 6 ≡ Some 6 }
    ensures at_the_start { caught 2 5 ≡ Some 5 }
    ensures between_entries { caught 2 7 ≡ Some 8 }
    ensures after_the_last { caught 2 9 ≡ None }
    ensures never { caught 5 0 ≡ None }
{}
