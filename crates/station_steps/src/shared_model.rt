//! The model, shared with workers that hold it across windows.
ghost use Rattle.std.specs.Prelude.{◌≡◌, IfOk};

use net_model::Model;
use sim_base::NoMemory;
use std::sync::Arc;

/// Another shared handle on the model.
///
/// # Errors
///
/// Out of memory.
pub fn share_of(model: &Arc<Model>) -> Result<Arc<Model>, NoMemory>
    ensures value { IfOk result (λ m. m.value ≡ model.now.value) }
{
    Ok(model.clone()?)
}
