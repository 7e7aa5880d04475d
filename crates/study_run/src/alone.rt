//! The run of one clone alone: a sequential simulation on one thread.
ghost use Rattle.std.specs.Prelude.{◌≡◌, ◌+◌, ◌<◌, ◌≤◌, length, min, unwrap_or, IfOk, IfErr, OnOk};
ghost use Rattle.sim_base.specs.Clones.{clone_at};
ghost use Rattle.run_laws.specs.Runs.{run};
ghost use Rattle.stations.specs.Runs.{simulation, trace_of};
ghost use Rattle.solo_run.specs.SoloView.{IsSolo, config_of};
ghost use Rattle.decision_book.specs.Plans.{ArePlanned};
ghost use Rattle.study_run.specs.Faults.{IsFaultAlone, IsFaultUntil};
ghost use Rattle.study_run.specs.Limits.{IsWithin, last_time, until};
ghost use Rattle.study_run.specs.Work.{IsFew};

use crate::fault::StudyFault;
use net_model::Model;
use sim_base::{Lists, Steps};
use solo_run::{Solo, SoloFault};
use std::alloc::Global;
use std::sync::ledger::Ledger;

// The time at which the run of a clone stops: its end, or otherwise the horizon.
fn last_front(model: &Model, end: Option<u64>) -> u64
    ensures value { result ≡ min model.now.horizon (unwrap_or end model.now.horizon) }
    ensures within { result ≤ model.now.horizon }
{
    match end {
        Some(end) => end.min(model.horizon()),
        None => model.horizon(),
    }
}

/// Runs the clone at a place alone until a time, or to its end or the horizon, whichever comes first.
pub fn run_alone_until<L: Ledger>(
    alloc: Global,
    model: &Model,
    lists: &Lists,
    c: u32,
    time: u64,
    steps: &mut Steps<L>,
) -> Result<Solo, StudyFault>
    requires in_range { c < length lists.now.clones }
    requires planned { ArePlanned model.now lists.now.clones }

    // its states, its pending messages and its trace at that time, as if the time were its end
    ensures run { IfOk result (λ solo. config_of model.now solo
        ≡ run (simulation model.now) (clone_at lists.now.clones c).plans
        (last_time model.now time (clone_at lists.now.clones c))) }
    ensures solo { IfOk result (λ solo. IsSolo model.now solo) }
    ensures trace { IfOk result (λ solo.
        solo.trace ≡ trace_of model.now (until model.now time (clone_at lists.now.clones c))) }

    // one step for each entry, and no log is beyond the limit
    ensures steps { OnOk result (steps.new
        ≡ steps.old + length (trace_of model.now (until model.now time (clone_at lists.now.clones c)))) }
    ensures within { OnOk result (IsWithin model.now (until model.now time (clone_at lists.now.clones c))) }
    ensures at_most { OnOk result (IsFew model.now 1 steps.old steps.new) }

    // or out of memory, or the limit is met before that time
    ensures fault { IfErr result (λ e. IsFaultUntil model.now time lists.now.clones c steps.old steps.new e) }
{
    let front = time.min(last_front(model, lists.end_of(c)));
    let Ok(solo) = Solo::new(alloc, model, lists.list(c)) else {
        return Err(StudyFault::NoMemory);
    };
    match solo.run_to(model, front, steps) {
        Ok(solo) => Ok(solo),
        Err(SoloFault::NoMemory) => Err(StudyFault::NoMemory),
        Err(SoloFault::Limit { station, .. }) => Err(StudyFault::LimitMet { station, who: c }),
    }
}

/// Runs the clone at a place alone, to its end or otherwise to the horizon.
pub fn run_alone<L: Ledger>(
    alloc: Global,
    model: &Model,
    lists: &Lists,
    c: u32,
    steps: &mut Steps<L>,
) -> Result<Solo, StudyFault>
    requires in_range { c < length lists.now.clones }
    requires planned { ArePlanned model.now lists.now.clones }

    // its trace, one step for each entry, and no log is beyond the limit
    ensures trace { IfOk result (λ solo. solo.trace ≡ trace_of model.now (clone_at lists.now.clones c)) }
    ensures steps { OnOk result (steps.new ≡ steps.old + length (trace_of model.now (clone_at lists.now.clones c))) }
    ensures within { OnOk result (IsWithin model.now (clone_at lists.now.clones c)) }
    ensures at_most { OnOk result (IsFew model.now 1 steps.old steps.new) }

    // or out of memory, or the limit is met
    ensures fault { IfErr result (λ e. IsFaultAlone model.now lists.now.clones c steps.old steps.new e) }
{
    run_alone_until(alloc, model, lists, c, model.horizon(), steps)
}
