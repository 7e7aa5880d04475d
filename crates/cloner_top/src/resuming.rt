//! Goes on from a snapshot, and writes the trace of its clone.
ghost use Rattle.checkpoint.specs.Accepted.{IsAccepted};
ghost use Rattle.cloner_top.specs.Endings.{MayGoOn};
ghost use Rattle.cloner_top.specs.Outsides.{IsDone};

use crate::prepared::Resuming;
use crate::putting::put_resumed;
use crate::refusal::Refusal;
use crate::running::limit_at;
use checkpoint::onward;
use sim_base::Steps;
use sim_outer::Sink;
use solo_run::SoloFault;
use std::alloc::Global;
use std::sync::ledger::Ledger;

/// Runs the clone of a snapshot from its front on, and writes its trace: the snapshot's lines, and those that follow.
pub(crate) fn write_resumed<O: Sink, L: Ledger>(
    alloc: Global,
    resuming: &Resuming,
    out: &mut O,
    steps: &mut Steps<L>,
) -> Result<(), Refusal>
    requires accepted { IsAccepted resuming.now.model.value resuming.now.snapshot }
    ensures done { IsDone (MayGoOn resuming.now.model.value resuming.now.snapshot)
        steps.old steps.new (O.view out.old) (O.view out.new) result }
{
    let snapshot = &resuming.snapshot;
    match onward(alloc, &resuming.model, snapshot, steps) {
        Ok(solo) => put_resumed(
            &resuming.model,
            &snapshot.who(),
            snapshot.lines(),
            solo.trace(),
            out,
        ),
        Err(SoloFault::NoMemory) => Err(Refusal::OutOfMemory),
        Err(SoloFault::Limit { station, .. }) => Err(Refusal::Exceeded(limit_at(
            &resuming.model,
            station,
            snapshot.who(),
        ))),
    }
}
