//! Worked examples, computed by the checker from the definitions. Each function's contract is a theorem; there is
//! nothing to run.
ghost use Rattle.std.specs.Prelude.{◌≡◌, [], ◌∷◌, codes, replicate, Ok, Err, Some, None};
ghost use Rattle.sim_base.specs.Clones.{base};
ghost use Rattle.stations.specs.Runs.{copies, handled_alone, handled_once, trace_of};
ghost use Rattle.stations.specs.Examples.OneDesk.{brief, one_desk};
ghost use Rattle.decision_book.specs.declared.call.Reply.TheVariants.{UnknownClone, Ended, NameTaken, TooManyClones};
ghost use Rattle.decision_book.specs.declared.call.Reply.TheVariants.{UnknownStation, WrongParameter, OutOfRange};
ghost use Rattle.decision_book.specs.declared.call.Reply.TheVariants.{ListFull};
ghost use Rattle.decision_book.specs.declared.call.Reply.TheVariants.{Accepted};
ghost use Rattle.decision_script.specs.Lines.{lines};
ghost use Rattle.watch_points.specs.Checking.{fit, watch_reply};
ghost use Rattle.watch_points.specs.Examples.{watch_after_comment, leading_zero, missing_value, wrong_keyword};
ghost use Rattle.watch_points.specs.Examples.{decision_line, help, more, early, helped, helped_more, helped_early};
ghost use Rattle.watch_points.specs.Examples.{helped_trace, no_servers, until, busy_base};
ghost use Rattle.watch_points.specs.Examples.{again, lost, two_faults};
ghost use Rattle.watch_points.specs.Firsts.{watches_in};
ghost use Rattle.watch_points.specs.Reading.{watches};
ghost use Rattle.watch_points.specs.Triggers.{clones_with_branches, first_wait};
ghost use Rattle.watch_points.specs.declared.fault.WatchFault.TheVariants.{BadLine, BadNumber, NotAscii};

/// A watch between a comment and an empty line, and lines that are refused.
pub fn lines_that_are_read()
    ensures one { watches watch_after_comment ≡ Ok (help ∷ []) }
    ensures none { watches [] ≡ Ok [] }
    ensures number { watches leading_zero ≡ Err (BadNumber 2) }
    ensures form { watches missing_value ≡ Err (BadLine 1) }
    ensures keyword { watches wrong_keyword ≡ Err (BadLine 1) }
    ensures decision { watches decision_line ≡ Err (BadLine 1) }
    ensures ascii { watches (35 ∷ 200 ∷ leading_zero) ≡ Err (NotAscii 1) }
{}

/// Of two lines with a fault the first is named. The watches that lines say are those of the text.
pub fn the_first_line_with_a_fault()
    ensures first { watches two_faults ≡ Err (BadNumber 2) }
    ensures said { watches_in (lines watch_after_comment) ≡ help ∷ [] }
    ensures unsaid { watches_in (lines two_faults) ≡ [] }
{}

/// A job first waits at 8, so the branch has its change at 10. Two jobs never wait.
pub fn branch_when_a_job_waits()
    ensures due { first_wait one_desk base 2 0 1 ≡ Some 8 }
    ensures made { clones_with_branches one_desk (base ∷ []) (help ∷ []) ≡ base ∷ helped ∷ [] }
    ensures trace { trace_of one_desk helped ≡ helped_trace }
    ensures never { first_wait one_desk base 2 0 2 ≡ None }
    ensures none { clones_with_branches one_desk (base ∷ []) (record help { least = 2 } ∷ []) ≡ base ∷ [] }
{}

/// A branch is watched from its change on, which counts itself. Without its source a watch makes no branch.
pub fn branch_of_a_branch()
    ensures due { first_wait one_desk helped 2 10 0 ≡ Some 10 }
    ensures made { clones_with_branches one_desk (base ∷ []) (help ∷ more ∷ []) ≡ base ∷ helped ∷ helped_more ∷ [] }
    ensures none { clones_with_branches one_desk (base ∷ []) (record help { least = 2 } ∷ more ∷ []) ≡ base ∷ [] }
{}

/// Branches are in the order of the watches, also if a later watch is due first.
pub fn branches_in_the_order_of_the_watches()
    ensures due { first_wait one_desk base 2 0 0 ≡ Some 5 }
    ensures made { clones_with_branches one_desk (base ∷ []) (help ∷ early ∷ [])
        ≡ base ∷ helped ∷ helped_early ∷ [] }
{}

/// A branch is made only if its change, here at 10, comes before the horizon.
pub fn change_at_the_horizon()
    ensures before { clones_with_branches (until 11) (base ∷ []) (help ∷ []) ≡ base ∷ helped ∷ [] }
    ensures at { clones_with_branches (until 10) (base ∷ []) (help ∷ []) ≡ base ∷ [] }
    ensures after { clones_with_branches (until 9) (base ∷ []) (help ∷ []) ≡ base ∷ [] }
{}

/// The report of both branches.
pub fn report_of_a_branch_that_was_made()
    ensures gate { handled_once one_desk (base ∷ helped ∷ []) 1 20 ≡ 2 }
    ensures gate_copies { copies one_desk (base ∷ helped ∷ []) 1 20 ≡ 1 }
    ensures gate_alone { handled_alone one_desk (base ∷ helped ∷ []) 1 20 ≡ 4 }
    ensures desk { handled_once one_desk (base ∷ helped ∷ []) 2 20 ≡ 6 }
    ensures desk_copies { copies one_desk (base ∷ helped ∷ []) 2 20 ≡ 2 }
    ensures desk_alone { handled_alone one_desk (base ∷ helped ∷ []) 2 20 ≡ 9 }
    ensures out { handled_once one_desk (base ∷ helped ∷ []) 3 20 ≡ 2 }
{}

/// Watches that fit, and the line and the reply of the first that does not, of each cause.
pub fn watches_that_do_not_fit()
    ensures fits { fit one_desk (base ∷ []) (help ∷ more ∷ early ∷ []) ≡ Ok tt }
    ensures unknown_clone { fit one_desk (base ∷ []) (more ∷ help ∷ [])
        ≡ Err (record { line = 3; reply = UnknownClone }) }
    ensures ended { fit one_desk (base ∷ brief ∷ []) (help ∷ record more { who = codes "brief" } ∷ [])
        ≡ Err (record { line = 3; reply = Ended 9 }) }
    ensures taken { fit one_desk (base ∷ []) (record help { new = codes "base" } ∷ [])
        ≡ Err (record { line = 2; reply = NameTaken }) }
    ensures taken_by_branch { fit one_desk (base ∷ []) (help ∷ record more { new = codes "help" } ∷ [])
        ≡ Err (record { line = 3; reply = NameTaken }) }
    ensures station { fit one_desk (base ∷ []) (record help { station = codes "desc" } ∷ [])
        ≡ Err (record { line = 2; reply = UnknownStation }) }
    ensures target { fit one_desk (base ∷ []) (record help { station = codes "gate"; target = codes "desc" } ∷ [])
        ≡ Err (record { line = 2; reply = UnknownStation }) }
    ensures source { fit one_desk (base ∷ []) (record help { station = codes "gate" } ∷ [])
        ≡ Err (record { line = 2; reply = WrongParameter }) }
    ensures parameter { fit one_desk (base ∷ []) (record help { target = codes "gate" } ∷ [])
        ≡ Err (record { line = 2; reply = WrongParameter }) }
    ensures range { fit one_desk (base ∷ []) (no_servers ∷ [])
        ≡ Err (record { line = 2; reply = OutOfRange }) }
{}

/// Of two watches that do not fit the first is named. Each is refused after those before it.
pub fn the_first_watch_that_does_not_fit()
    ensures first { fit one_desk (base ∷ []) (help ∷ lost ∷ again ∷ [])
        ≡ Err (record { line = 3; reply = UnknownStation }) }
    ensures accepted { watch_reply one_desk (base ∷ []) [] help ≡ Accepted }
    ensures refused { watch_reply one_desk (base ∷ []) (help ∷ []) lost ≡ UnknownStation }
    ensures later { watch_reply one_desk (base ∷ []) (lost ∷ help ∷ []) again ≡ NameTaken }
{}

/// There may be 256 clones with all branches, and 256 decisions with those of the watches.
pub fn watches_up_to_the_limits()
    ensures clones_fit { fit one_desk (replicate 255 base) (help ∷ []) ≡ Ok tt }
    ensures clones_do_not { fit one_desk (replicate 255 base) (help ∷ more ∷ [])
        ≡ Err (record { line = 3; reply = TooManyClones }) }
    ensures decisions_fit { fit one_desk (busy_base 254 ∷ []) (help ∷ more ∷ []) ≡ Ok tt }
    ensures decisions_do_not { fit one_desk (busy_base 255 ∷ []) (help ∷ more ∷ [])
        ≡ Err (record { line = 3; reply = ListFull }) }
{}
