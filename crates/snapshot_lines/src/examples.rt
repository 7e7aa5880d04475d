//! Worked lines of a snapshot, computed by the checker. The function's contract is a theorem; there is nothing to run.
ghost use Rattle.std.specs.Prelude.{◌≡◌, Some, None, codes};
ghost use Rattle.snapshot_lines.specs.Forms.{line_of, line_says};
ghost use Rattle.snapshot_lines.specs.Examples.{desk, desk_line, desk_with_zero, desk_with_spaces, desk_without_job};
ghost use Rattle.snapshot_lines.specs.Examples.{split, split_line, waiting, waiting_line};
ghost use Rattle.snapshot_lines.specs.Grammar.{station_line};

/// A station's line is written and read. Other lines are refused: a leading zero, two spaces, a job too few, another
/// station's number.
pub fn station_lines()
    ensures written { line_of (station_line 2 1) desk ≡ desk_line }
    ensures read { line_says (station_line 2 1) desk_line ≡ Some desk }
    ensures job { line_says (station_line 2 1) waiting_line ≡ Some waiting }
    ensures weights { line_says (station_line 4 2) split_line ≡ Some split }
    ensures zero { line_says (station_line 2 1) desk_with_zero ≡ None }
    ensures spaces { line_says (station_line 2 1) desk_with_spaces ≡ None }
    ensures fewer { line_says (station_line 2 1) desk_without_job ≡ None }
    ensures other { line_says (station_line 3 1) desk_line ≡ None }
{}
