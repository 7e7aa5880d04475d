//! Worked examples, computed by the checker from the definitions alone.
//!
//! The decisions and the expected clones are in `specs/Examples.antt`. Each function's contract is a theorem; there is
//! nothing to run.
ghost use Rattle.std.specs.Prelude.{◌≡◌, ◌∷◌, [], Some, None, codes};
ghost use Rattle.sim_base.specs.declared.lists.TheConstants.{MAX_CLONES, MAX_DECISIONS};
ghost use Rattle.stations.specs.Examples.OneDesk.{one_desk};
ghost use Rattle.decision_script.specs.Alone.{alone};
ghost use Rattle.decision_book.specs.Examples.{during_a_run, clones_of_the_run, late_set_accepted, script};
ghost use Rattle.decision_book.specs.Examples.{clones_of_the_script, script_of_b, refused_script};
ghost use Rattle.decision_book.specs.Journal.{NewFront, after};
ghost use Rattle.decision_book.specs.Right.{IsRight};
ghost use Rattle.decision_book.specs.Scripts.{lists_of, first_refusal};
ghost use Rattle.decision_book.specs.declared.call.TheConstants.{MAX_CALLS};
ghost use Rattle.decision_book.specs.declared.call.Reply.TheVariants.{UnknownClone};

/// The limits of a journal and its lists, in numbers.
pub fn limits_in_numbers()
    ensures clones { MAX_CLONES ≡ 256 }
    ensures decisions { MAX_DECISIONS ≡ 256 }
    ensures calls { MAX_CALLS ≡ 4096 }
{}

/// At front 10 a set at 10 is accepted and a set at 9 is late, and at the horizon nothing is accepted.
pub fn decisions_during_a_run()
    ensures right { IsRight one_desk during_a_run }
    ensures clones { (after one_desk during_a_run).clones ≡ clones_of_the_run }
{}

/// Journals that are not right: a front that comes twice, one beyond the horizon, and a set at 9 that is accepted at
/// front 10.
pub fn wrong_journals()
    ensures twice { ¬ IsRight one_desk (NewFront 5 ∷ NewFront 5 ∷ []) }
    ensures beyond { ¬ IsRight one_desk (NewFront 21 ∷ []) }
    ensures late { ¬ IsRight one_desk late_set_accepted }
{}

/// A fork inherits a set that is not due yet, and then the clones diverge.
pub fn lists_of_a_script()
    ensures accepted { first_refusal one_desk script ≡ None }
    ensures lists { lists_of one_desk script ≡ clones_of_the_script }
{}

/// The decisions that reach a clone: its own, and its parent's before the fork.
pub fn decisions_of_one_clone()
    ensures { alone (codes "b") script ≡ script_of_b }
{}

/// The first decision that is refused, by its index from 0, and its refusal.
pub fn first_refusal()
    ensures { first_refusal one_desk refused_script ≡ Some (2, UnknownClone) }
{}
