//! Runs one clone of a plan alone until a time, and writes its snapshot.
ghost use Rattle.cloner_top.specs.Deciding.{clones_of_book};
ghost use Rattle.cloner_top.specs.Endings.{MayRunAlone, saved_or_too_long};
ghost use Rattle.cloner_top.specs.Outsides.{IsDone};
ghost use Rattle.study_run.specs.SayableRuns.{AreSayable};
ghost use Rattle.study_run.specs.Limits.{until as until'};

use crate::excess::Excess;
use crate::prepared::Plan;
use crate::putting::put_text;
use crate::refusal::Refusal;
use crate::running::limit_at;
use crate::stop::Stop;
use sim_base::{Name, Steps};
use sim_outer::Sink;
use std::alloc::Global;
use std::sync::ledger::Ledger;
use study_run::{SaveFault, save_alone};

/// Runs the named clone alone until a time, and writes the text of its snapshot.
pub(crate) fn write_saved<O: Sink, L: Ledger>(
    alloc: Global,
    name: &Name,
    until: u32,
    plan: &Plan,
    out: &mut O,
    steps: &mut Steps<L>,
) -> Result<(), Refusal>
    requires sayable { AreSayable (clones_of_book plan.now.book) }
    ensures done { IsDone
        (MayRunAlone plan.now.model.value (clones_of_book plan.now.book) name.now (until' plan.now.model.value until)
        (saved_or_too_long plan.now.model.value until)) steps.old steps.new (O.view out.old) (O.view out.new) result }
{
    let lists = plan.book.lists();
    let Some(place) = lists.find(name) else {
        return Err(Refusal::Stopped(Stop::NoClone(*name)));
    };
    match save_alone(alloc, &plan.model, lists, place, until as u64, steps) {
        Ok(text) => put_text(out, text.as_slice()),
        Err(SaveFault::NoMemory) => Err(Refusal::OutOfMemory),
        Err(SaveFault::TooLong) => Err(Refusal::Exceeded(Excess::LongSnapshot)),
        Err(SaveFault::LimitMet { station }) => {
            Err(Refusal::Exceeded(limit_at(&plan.model, station, *name)))
        }
    }
}
