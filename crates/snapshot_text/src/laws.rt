//! What is proved of the text of a snapshot: each function's contract is a law, and there is nothing to run.
ghost use Rattle.net_model.specs.Net.{Net};
ghost use Rattle.net_model.specs.Rules.{IsNet};
ghost use Rattle.snapshot_text.specs.Laws.{LinesAreOfText, OnlyTextsAreRead, SavedRunIsResumed, TextIsReadBack};

/// A text is read if and only if it is the text of a snapshot from which a run may go on, and is not too long.
pub fn texts_are_exact()
    ensures back { (net : Net) → IsNet net → TextIsReadBack net }
    ensures only { (net : Net) → IsNet net → OnlyTextsAreRead net }
{}

/// The text of a run's snapshot is read, and the run from it writes what the run that was not stopped writes.
pub fn saved_runs_are_resumed()
    ensures lines { (net : Net) → IsNet net → LinesAreOfText net }
    ensures resumed { (net : Net) → IsNet net → SavedRunIsResumed net }
{}
