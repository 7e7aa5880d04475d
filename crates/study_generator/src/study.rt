//! A made study: the texts of its model and of its script. The number determines the model; the script is the same for
//! all.
ghost use Rattle.std.specs.Prelude.{◌≡◌, IfOk};
ghost use Rattle.decision_script.specs.Printing.{canonical_text};
ghost use Rattle.study_generator.specs.Texts.{model_text as model_text_of};
ghost use Rattle.study_generator.specs.Scripts.{made_script};

use crate::model::model_text;
use crate::script::script_text;
use sim_base::NoMemory;
use std::alloc::Global;

/// The two texts of a study, in the form of its two files.
#[derive(Debug, Drop)]
pub struct Made {
    /// The text of the model.
    pub model: Vec<u8>,
    /// The text of the script.
    pub script: Vec<u8>,
}

/// The study with this number. The program asks for 1 to 999,999.
pub fn generate(alloc: Global, n: u32) -> Result<Made, NoMemory>
    ensures model { IfOk result (λ made. made.model.items ≡ model_text_of n) }
    ensures script { IfOk result (λ made. made.script.items ≡ canonical_text made_script) }
{
    let model = model_text(alloc, n)?;
    let script = script_text(alloc)?;
    Ok(Made { model, script })
}
