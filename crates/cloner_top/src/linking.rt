//! Runs all clones of a plan in one world, in rounds with a clock for each station. Writes their texts and the number
//! of rounds.
ghost use Rattle.std.specs.Prelude.{◌++◌, ◌∷◌, [], IfErr, IfOk};
ghost use Rattle.study_run.specs.Accepted.{IsAcceptedJournal};
ghost use Rattle.study_run.specs.Linking.{IsLinkedRun};
ghost use Rattle.cloner_top.specs.Deciding.{clones_of_book};
ghost use Rattle.cloner_top.specs.Endings.{HasWritten, MayRunLinked, MaySimulate, rounds_line, run_texts};
ghost use Rattle.cloner_top.specs.Outsides.{IsDone, IsNoRun};
ghost use Rattle.cloner_top.specs.RunTexts.{MayPutRun};

use crate::prepared::Plan;
use crate::putting::put_linked;
use crate::refusal::Refusal;
use crate::resources::Resources;
use crate::running::limit_at;
use command_words::Mode;
use crew_pool::Gate;
use sim_base::Steps;
use sim_outer::Sink;
use std::sync::Wait;
use std::sync::ledger::Ledger;
use std::thread::Threads;
use study_run::{LinkedWorld, StudyFault, run_linked, run_linked_sequentially};

// Runs all clones in rounds up to the horizon, in this thread or with several workers.
fn run_clones<G: Gate + Sync, L: Ledger, R: Threads + Wait + Sync>(
    resources: &Resources<'_, G, R>,
    plan: &Plan,
    steps: &mut Steps<L>,
) -> Result<LinkedWorld, StudyFault>
    requires accepted { IsAcceptedJournal plan.now.book.net plan.now.book.events }
    ensures ran { IsLinkedRun plan.now.model.value (clones_of_book plan.now.book) steps.old steps.new result }
{
    let calls = plan.book.calls();
    if resources.workers.count == 1 {
        return run_linked_sequentially(resources.alloc, resources.gate, &plan.model, calls, steps);
    }
    run_linked(
        resources.rt,
        resources.alloc,
        resources.workers,
        resources.gate,
        &plan.model,
        calls,
        steps,
    )
}

// Returns the world of all clones at the horizon, and the number of rounds.
fn run_world<G: Gate + Sync, L: Ledger, R: Threads + Wait + Sync>(
    resources: &Resources<'_, G, R>,
    plan: &Plan,
    steps: &mut Steps<L>,
) -> Result<LinkedWorld, Refusal>
    requires accepted { IsAcceptedJournal plan.now.book.net plan.now.book.events }
    ensures may_put { IfOk result (λ r. MayPutRun plan.now.model.value r.world) }
    ensures wrote { IfOk result (λ r. HasWritten (MayRunLinked plan.now.model.value (clones_of_book plan.now.book))
        steps.old steps.new (run_texts plan.now.model.value r.world.clones ++ rounds_line r.rounds ∷ [])) }
    ensures err { IfErr result (λ r. IsNoRun (MayRunLinked plan.now.model.value (clones_of_book plan.now.book))
        steps.old steps.new r) }
{
    let lists = plan.book.lists();
    match run_clones(resources, plan, steps) {
        Ok(linked) => Ok(linked),
        Err(StudyFault::NoMemory) => Err(Refusal::OutOfMemory),
        Err(StudyFault::LimitMet { station, who }) => Err(Refusal::Exceeded(limit_at(
            &plan.model,
            station,
            lists.name(who),
        ))),
    }
}

/// Runs all clones in rounds, and writes their traces, the report and the number of rounds.
pub(crate) fn write_links<O: Sink, G: Gate + Sync, L: Ledger, R: Threads + Wait + Sync>(
    resources: &Resources<'_, G, R>,
    plan: &Plan,
    out: &mut O,
    steps: &mut Steps<L>,
) -> Result<(), Refusal>
    requires accepted { IsAcceptedJournal plan.now.book.net plan.now.book.events }
    ensures done { IsDone (MaySimulate Mode.Links plan.now.model.value (clones_of_book plan.now.book))
        steps.old steps.new (O.view out.old) (O.view out.new) result }
{
    match run_world(resources, plan, steps) {
        Ok(LinkedWorld { world, rounds }) => {
            put_linked(resources, &plan.model, &world, rounds, out)
        }
        Err(refusal) => Err(refusal),
    }
}
