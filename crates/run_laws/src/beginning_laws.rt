//! Laws of beginnings: what the trace of a clone begins with is kept for the next clone.
//!
//! A *word* is a number for each entry, in the order of keys. If two clones have the same entries before a time, the
//! trace of the second begins as that of the first, up to any word of an earlier time. From there on it is merged from
//! the clone's own logs:
//!
//! ```text
//! first trace    2  5 | 6  7  8 11           times of the entries; the clones part at 6
//! second trace   2  5 |    7  8  8 11
//! station 1      2    |       8              its logs from 6 on, merged, are its trace from there on
//! station 2         5 |    7     8 11
//! ```
//!
//! `specs/Beginnings.antt` has the definitions and the laws, `specs/BeginningExamples.antt` two small traces. There is
//! nothing to run. The contract of each function is a law, and `beginning_examples` pins the definitions.
ghost use Rattle.std.specs.Prelude.{ℕ, List};
ghost use Rattle.sim_base.specs.declared.entry.Entry.{Entry};
ghost use Rattle.run_laws.specs.Simulation.{Simulation};
ghost use Rattle.run_laws.specs.Beginnings.{BeginningIsKept, LogsAreMerged, PartsJoin};

use crate::laws::NumberingStations;

/// The trace of a clone begins as that of another clone, if both have the same entries before a time.
pub fn beginnings_are_kept<S, M, N, T: NumberingStations<S, M, N>>()
    ensures kept { (word : Entry M N → ℕ) → BeginningIsKept T.sim T.sender T.number word }
    ensures join { (word : Entry M N → ℕ) → PartsJoin word }
{}

/// The logs of a clone from a word on, merged, are its trace from there on.
pub fn logs_are_merged_from_a_word<S, M, N, T: NumberingStations<S, M, N>>()
    ensures merged { (word : Entry M N → ℕ) → LogsAreMerged T.sim T.sender T.number word }
{}
