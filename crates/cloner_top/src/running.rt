//! Runs all clones of a plan in one world, and writes their texts.
ghost use Rattle.std.specs.Prelude.{◌≡◌, ◌+◌, ℕ, List, [], ◌∷◌, IfErr, IfOk};
ghost use Rattle.net_model.specs.Net.{HasStation};
ghost use Rattle.trace_writer.specs.WorldTraces.{AreShort};
ghost use Rattle.world_core.specs.Worlds.{total_handled};
ghost use Rattle.study_run.specs.Accepted.{IsAcceptedJournal};
ghost use Rattle.study_run.specs.Going.{IsStudyRun};
ghost use Rattle.study_run.specs.Limits.{AreWithin, MeetsLimit};
ghost use Rattle.study_run.specs.Reports.{MayReport};
ghost use Rattle.cloner_top.specs.Deciding.{clones_of_book};
ghost use Rattle.cloner_top.specs.Endings.{MayRun, MaySimulate, limit_met_at};
ghost use Rattle.cloner_top.specs.Outsides.{IsDone, IsNoRun};

use crate::excess::Excess;
use crate::prepared::Plan;
use crate::putting::{put_report, put_run, put_stats};
use crate::refusal::Refusal;
use crate::resources::Resources;
use command_words::Mode;
use crew_pool::Gate;
use net_model::Model;
use sim_base::{Name, Steps};
use sim_outer::Sink;
use std::sync::Wait;
use std::sync::ledger::Ledger;
use std::thread::Threads;
use study_run::{StudyFault, run_study, run_study_sequentially};
use world_core::World;

/// The excess of a log that would get longer than the limit, at this station in the clone of this name.
pub(crate) fn limit_at(model: &Model, station: u32, clone: Name) -> Excess
    requires is_station { HasStation model.now station }
    ensures { result ≡ limit_met_at model.now station clone }
{
    Excess::LimitMet {
        limit: model.limit(),
        station: model.station(station).name,
        clone,
    }
}

// Runs all clones in one world up to the horizon, in this thread or with several workers.
fn run_clones<G: Gate + Sync, L: Ledger, R: Threads + Wait + Sync>(
    resources: &Resources<'_, G, R>,
    plan: &Plan,
    steps: &mut Steps<L>,
) -> Result<World, StudyFault>
    requires accepted { IsAcceptedJournal plan.now.book.net plan.now.book.events }
    ensures ran { IsStudyRun plan.now.model.value (clones_of_book plan.now.book) steps.old steps.new result }
{
    let calls = plan.book.calls();
    if resources.workers.count == 1 {
        return run_study_sequentially(resources.alloc, resources.gate, &plan.model, calls, steps);
    }
    run_study(
        resources.rt,
        resources.alloc,
        resources.workers,
        resources.gate,
        &plan.model,
        calls,
        steps,
    )
}

// Runs all clones in one world up to the horizon.
fn run_world<G: Gate + Sync, L: Ledger, R: Threads + Wait + Sync>(
    resources: &Resources<'_, G, R>,
    plan: &Plan,
    steps: &mut Steps<L>,
) -> Result<World, Refusal>
    requires accepted { IsAcceptedJournal plan.now.book.net plan.now.book.events }
    ensures may_report { IfOk result (λ w. MayReport plan.now.model.value w) }
    ensures within { IfOk result (λ w. AreWithin plan.now.model.value w.clones) }
    ensures clones { IfOk result (λ w. w.clones ≡ clones_of_book plan.now.book) }
    ensures length_max { IfOk result (λ w. AreShort w.clones) }
    ensures steps { IfOk result (λ w.
        steps.new ≡ steps.old + total_handled plan.now.model.value w.clones plan.now.model.value.horizon) }
    ensures err { IfErr result (λ r. (texts : List (List ℕ))
        → IsNoRun (MayRun plan.now.model.value (clones_of_book plan.now.book)
        (MeetsLimit plan.now.model.value (clones_of_book plan.now.book)) texts) steps.old steps.new r) }
{
    let lists = plan.book.lists();
    match run_clones(resources, plan, steps) {
        Ok(world) => Ok(world),
        Err(StudyFault::NoMemory) => Err(Refusal::OutOfMemory),
        Err(StudyFault::LimitMet { station, who }) => Err(Refusal::Exceeded(limit_at(
            &plan.model,
            station,
            lists.name(who),
        ))),
    }
}

/// Runs all clones, and writes their traces and the report.
pub(crate) fn write_run<O: Sink, G: Gate + Sync, L: Ledger, R: Threads + Wait + Sync>(
    resources: &Resources<'_, G, R>,
    plan: &Plan,
    out: &mut O,
    steps: &mut Steps<L>,
) -> Result<(), Refusal>
    requires accepted { IsAcceptedJournal plan.now.book.net plan.now.book.events }
    ensures done { IsDone (MaySimulate Mode.Run plan.now.model.value (clones_of_book plan.now.book))
        steps.old steps.new (O.view out.old) (O.view out.new) result }
{
    match run_world(resources, plan, steps) {
        Ok(world) => put_run(resources, &plan.model, &world, out),
        Err(refusal) => Err(refusal),
    }
}

/// Runs all clones, and writes the report only.
pub(crate) fn write_report<O: Sink, G: Gate + Sync, L: Ledger, R: Threads + Wait + Sync>(
    resources: &Resources<'_, G, R>,
    plan: &Plan,
    out: &mut O,
    steps: &mut Steps<L>,
) -> Result<(), Refusal>
    requires accepted { IsAcceptedJournal plan.now.book.net plan.now.book.events }
    ensures done { IsDone (MaySimulate Mode.Report plan.now.model.value (clones_of_book plan.now.book))
        steps.old steps.new (O.view out.old) (O.view out.new) result }
{
    match run_world(resources, plan, steps) {
        Ok(world) => put_report(resources.alloc, &plan.model, &world, out),
        Err(refusal) => Err(refusal),
    }
}

/// Runs all clones, and writes the statistics of their servers.
pub(crate) fn write_stats<O: Sink, G: Gate + Sync, L: Ledger, R: Threads + Wait + Sync>(
    resources: &Resources<'_, G, R>,
    plan: &Plan,
    out: &mut O,
    steps: &mut Steps<L>,
) -> Result<(), Refusal>
    requires accepted { IsAcceptedJournal plan.now.book.net plan.now.book.events }
    ensures done { IsDone (MaySimulate Mode.Stats plan.now.model.value (clones_of_book plan.now.book))
        steps.old steps.new (O.view out.old) (O.view out.new) result }
{
    match run_world(resources, plan, steps) {
        Ok(world) => put_stats(resources.alloc, &plan.model, &world, out),
        Err(refusal) => Err(refusal),
    }
}
