//! Worked examples, computed by the checker from only the definitions.
//!
//! The journal, the looks and their texts are in `specs/Examples.antt`. The contract of each function is a theorem;
//! there is nothing to run.
ghost use Rattle.std.specs.Prelude.{◌≡◌, ◌∷◌, [], codes};
ghost use Rattle.journal_text.specs.Examples.{four_calls, four_calls_text, four_calls_script};
ghost use Rattle.journal_text.specs.Examples.{three_looks, looks_of_two};
ghost use Rattle.journal_text.specs.JournalText.{journal_text, events_text, looks_text};
ghost use Rattle.journal_text.specs.Laws.{without_comments};

/// Fronts and refusals are comments, and a late decision names the front.
pub fn text_of_four_calls()
    ensures { journal_text (codes "main" ∷ []) four_calls [] ≡ four_calls_text }
{}

/// The text without comments is a script.
pub fn script_of_four_calls()
    ensures { without_comments (events_text (codes "main" ∷ []) four_calls) ≡ four_calls_script }
{}

/// A look reports what it found, or that the clone was not there, or that the station is unknown.
pub fn texts_of_looks()
    ensures { looks_text (codes "main" ∷ codes "ben" ∷ []) three_looks ≡ looks_of_two }
{}
