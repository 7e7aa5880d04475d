//! What is true of all marked messages: each function's contract is a law, and there is nothing to run.
ghost use Rattle.msg_route.specs.Laws.{TakenAreForClone, GroupIsTaken, PartsAreElements};

/// The messages that a clone takes, defined here and by the laws of runs: the two agree.
pub fn clones_take_their_messages()
    ensures taken { TakenAreForClone }
    ensures grouped { GroupIsTaken }
    ensures parts { PartsAreElements }
{}
