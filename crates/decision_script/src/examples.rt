//! Worked examples, computed by the checker from the definitions of a text's script, of the canonical text, and of the
//! decisions that reach one clone.
//!
//! The texts are in `specs/Examples.antt`. Each function's contract is a theorem; there is nothing to run.
ghost use Rattle.std.specs.Prelude.{◌≡◌, ◌++◌, ◌∷◌, [], Ok, Err, codes};
ghost use Rattle.sim_base.specs.declared.number.TheConstants.{MAX_DIGITS};
ghost use Rattle.decision_script.specs.Alone.{alone_of};
ghost use Rattle.decision_script.specs.Examples.{b_alone_text, clone_of_clone, clone_of_clone_alone_text};
ghost use Rattle.decision_script.specs.Examples.{clone_of_clone_text, late_end, loose, loose_text};
ghost use Rattle.decision_script.specs.Examples.{sections, two_clones, two_clones_text};
ghost use Rattle.decision_script.specs.Examples.{two_planners, two_planners_canonical, two_planners_text};
ghost use Rattle.decision_script.specs.Printing.{canonical_text};
ghost use Rattle.decision_script.specs.Reading.{script};
ghost use Rattle.decision_script.specs.declared.number.TheConstants.{MAX_NUMBER};
ghost use Rattle.decision_script.specs.declared.script.TheConstants.{MAX_ITEMS};

use crate::fault::ScriptFault;

/// The limits of a script and of its numbers, in numbers.
pub fn limits_in_numbers()
    ensures items { MAX_ITEMS ≡ 4096 }
    ensures digits { MAX_DIGITS ≡ 10 }
    ensures number { MAX_NUMBER ≡ 4294967295 }
{}

/// Texts and their scripts.
pub fn texts_that_are_read()
    ensures clones { script two_clones_text ≡ Ok two_clones }
    ensures again { script clone_of_clone_text ≡ Ok clone_of_clone }
    ensures planners { script two_planners_text ≡ Ok two_planners }
    ensures loose { script loose_text ≡ Ok loose }
    ensures late { script (codes "end base at 4294967295") ≡ Ok late_end }
{}

/// Lines that are refused.
pub fn refused_lines()
    ensures accent { script (codes "# caf" ++ 195 ∷ 169 ∷ []) ≡ Err (ScriptFault.NotAscii 1) }
    ensures cut { script (codes "set base at 8 desk serv") ≡ Err (ScriptFault.BadLine 1) }
    ensures capital { script (codes "\nanalyst Ada\n") ≡ Err (ScriptFault.BadLine 2) }
    ensures form_first { script (codes "set base at 08 desk serv") ≡ Err (ScriptFault.BadLine 1) }
    ensures zero { script (codes "set base at 08 desk service 2 2") ≡ Err (ScriptFault.BadNumber 1) }
    ensures wide { script (codes "end base at 4294967296") ≡ Err (ScriptFault.BadNumber 1) }
    ensures crowd { script (sections 16) ≡ Err (ScriptFault.TooManyAnalysts 16) }
{}

/// Canonical texts.
pub fn canonical_texts()
    ensures clones { canonical_text two_clones ≡ two_clones_text }
    ensures planners { canonical_text two_planners ≡ two_planners_canonical }
{}

/// The decisions that reach one clone.
pub fn own_scripts()
    ensures second { canonical_text (alone_of two_clones (codes "b")) ≡ b_alone_text }
    ensures inherited { canonical_text (alone_of clone_of_clone (codes "b")) ≡ clone_of_clone_alone_text }
    ensures base { canonical_text (alone_of clone_of_clone (codes "base")) ≡ [] }
{}
