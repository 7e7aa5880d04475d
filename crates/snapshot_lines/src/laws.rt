//! What is proved of the lines: each function's contract is a law, and there is nothing to run.
ghost use Rattle.std.specs.Prelude.{ℕ, ◌<◌, ◌^◌};
ghost use Rattle.snapshot_lines.specs.Forms.{IsReadJoined};
ghost use Rattle.snapshot_lines.specs.Grammar.{head_line, station_line, pending_line, message_line, trace_line};

/// Each line is read as the value that it was written for, and nothing else is read.
pub fn lines_are_read_exactly()
    ensures head { IsReadJoined 32 head_line }
    ensures station { (station links : ℕ) → station < 2 ^ 64 → IsReadJoined 32 (station_line station links) }
    ensures pending { IsReadJoined 32 pending_line }
    ensures message { IsReadJoined 32 message_line }
    ensures trace { IsReadJoined 32 trace_line }
{}
