//! Runs one clone of a plan alone, and writes its trace.
ghost use Rattle.cloner_top.specs.Deciding.{clones_of_book};
ghost use Rattle.cloner_top.specs.Endings.{MayRunAlone, solo_text, whole};
ghost use Rattle.cloner_top.specs.Outsides.{IsDone};

use crate::prepared::Plan;
use crate::putting::put_trace;
use crate::refusal::Refusal;
use crate::running::limit_at;
use crate::stop::Stop;
use sim_base::{Name, Steps};
use sim_outer::Sink;
use std::alloc::Global;
use std::sync::ledger::Ledger;
use study_run::{StudyFault, run_alone};

/// Runs the named clone alone, and writes its trace.
pub(crate) fn write_alone<O: Sink, L: Ledger>(
    alloc: Global,
    name: &Name,
    plan: &Plan,
    out: &mut O,
    steps: &mut Steps<L>,
) -> Result<(), Refusal>
    ensures done { IsDone
        (MayRunAlone plan.now.model.value (clones_of_book plan.now.book) name.now whole
        (solo_text plan.now.model.value)) steps.old steps.new (O.view out.old) (O.view out.new) result }
{
    let lists = plan.book.lists();
    let Some(place) = lists.find(name) else {
        return Err(Refusal::Stopped(Stop::NoClone(*name)));
    };
    match run_alone(alloc, &plan.model, lists, place, steps) {
        Ok(solo) => put_trace(&plan.model, &lists.name(place), solo.trace(), out),
        Err(StudyFault::NoMemory) => Err(Refusal::OutOfMemory),
        Err(StudyFault::LimitMet { station, .. }) => {
            Err(Refusal::Exceeded(limit_at(&plan.model, station, *name)))
        }
    }
}
