//! The laws of shared texts: what the traces of two clones have in common, and the lengths of their lines.
//!
//! `specs/SharedTexts.antt` states them. They let a text begin with the first lines of the text before it. Its length
//! is known before a line is written.
ghost use Rattle.std.specs.Prelude.{ℕ, List};
ghost use Rattle.run_laws.specs.Simulation.{Simulation};
ghost use Rattle.run_laws.specs.SharedTexts.{TracesAgree, TracesAgreeToParting, TraceIsSplit};
ghost use Rattle.run_laws.specs.SharedTexts.{LinesAgree, LengthIsOfLogs, RestIsOfLogs};

use crate::laws::{NumberingStations, Stations};

/// Two clones have the same trace until their decision lists diverge.
pub fn traces_agree<S, M, N, T: Stations<S, M, N>>()
    ensures agree { TracesAgree T.sim }
    ensures to_parting { TracesAgreeToParting T.sim }
{}

/// The lines that two clones share, the lengths of the others, and their entries in the logs.
pub fn lines_are_of_logs<S, M, N, T: NumberingStations<S, M, N>>()
    ensures split { TraceIsSplit T.sim }
    ensures agree { LinesAgree T.sim }
    ensures length { LengthIsOfLogs T.sim }
    ensures rest { RestIsOfLogs T.sim T.sender T.number }
{}
