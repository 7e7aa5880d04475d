//! The made texts as they are read, computed by the checker from the definitions of reading.
//!
//! The script's text is read as the made script, and the made networks accept each of its decisions, for every number.
//! A model's text is read as the made network: this is computed for three numbers, and tested for others. Each
//! function's contract is a theorem; there is nothing to run.
ghost use Rattle.std.specs.Prelude.{◌≡◌, ℕ, Ok, None};
ghost use Rattle.decision_book.specs.Scripts.{first_refusal, lists_of};
ghost use Rattle.decision_script.specs.Alone.{decisions};
ghost use Rattle.decision_script.specs.Printing.{canonical_text};
ghost use Rattle.decision_script.specs.Reading.{script};
ghost use Rattle.study_generator.specs.Branches.{clones_of_plans};
ghost use Rattle.study_generator.specs.Nets.{made_net};
ghost use Rattle.study_generator.specs.Scripts.{made_script};
ghost use Rattle.study_generator.specs.Texts.{model_text};
ghost use Rattle.study_generator.specs.declared.model.TheConstants.{MAX_WARDS};
ghost use Rattle.study_generator.specs.declared.script.TheConstants.{PLANS};
ghost use Rattle.net_model.specs.Text.{model};

/// The number of plans of a made script, and the most wards of a made model.
pub fn limits_in_numbers()
    ensures plans { PLANS ≡ 16 }
    ensures wards { MAX_WARDS ≡ 8 }
{}

/// The text of the script is read as the made script.
pub fn made_script_is_read()
    ensures { script (canonical_text made_script) ≡ Ok made_script }
{}

/// No decision of the script is refused, for every number, and the script leaves a clone for each plan.
pub fn decisions_are_accepted()
    ensures accepted { (n : ℕ) → first_refusal (made_net n) (decisions made_script.items) ≡ None }
    ensures clones { (n : ℕ) → lists_of (made_net n) (decisions made_script.items) ≡ clones_of_plans PLANS }
{}

/// The texts of the least and the greatest number, and of one in between, are read as the made networks.
pub fn made_models_are_read()
    ensures first { model (model_text 1) ≡ Ok (made_net 1) }
    ensures seventh { model (model_text 7) ≡ Ok (made_net 7) }
    ensures last { model (model_text 999999) ≡ Ok (made_net 999999) }
{}
