//! The report of a run: what the clones shared, as copies (physical processes) and messages (event executions).
ghost use Rattle.std.specs.Prelude.{◌≡◌, IfOk};
ghost use Rattle.study_run.specs.Reports.{MayReport};
ghost use Rattle.trace_report.specs.Outputs.{report};

use net_model::Model;
use sim_base::NoMemory;
use std::alloc::Global;
use trace_report::report_text;
use world_core::World;

/// Makes the report text of a world at the horizon.
pub fn make_report(alloc: Global, model: &Model, world: &World) -> Result<Vec<u8>, NoMemory>
    requires may_report { MayReport model.now world.now }
    ensures text { IfOk result (λ text. text.items ≡ report model.now world.now.clones) }
{
    // recalls clauses: clones are few, and their logs within the limit
    let _short = world.lists();
    let mut figures = Vec::new(alloc);
    for s in 0..model.len() {
        figures.push(world.figures(s + 1))?;
    }
    report_text(alloc, model, figures.as_slice())
}
