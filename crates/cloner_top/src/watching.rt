//! Runs all clones of a plan with its watches in one world, and writes their texts.
ghost use Rattle.std.specs.Prelude.{◌≡◌, length, IfErr, IfOk, Ok};
ghost use Rattle.study_run.specs.Accepted.{IsAcceptedJournal};
ghost use Rattle.run_laws.specs.Orders.{IsPlaceOrder, in_order};
ghost use Rattle.watch_points.specs.Checking.{fit};
ghost use Rattle.study_run.specs.Watching.{IsWatchedRun};
ghost use Rattle.cloner_top.specs.Deciding.{clones_of_book};
ghost use Rattle.cloner_top.specs.Endings.{HasWritten, MayRunWatched, run_texts};
ghost use Rattle.cloner_top.specs.Outsides.{IsDone, IsNoRun};
ghost use Rattle.cloner_top.specs.RunTexts.{MayPutRun};

use crate::prepared::Watching;
use crate::putting::put_watched;
use crate::refusal::Refusal;
use crate::resources::Resources;
use crate::running::limit_at;
use crew_pool::Gate;
use sim_base::Steps;
use sim_outer::Sink;
use std::sync::Wait;
use std::sync::ledger::Ledger;
use std::thread::Threads;
use study_run::{StudyFault, WatchedWorld, run_watched, run_watched_sequentially};
use watch_points::numbered_name;

// Runs all clones with their watches up to the horizon, in this thread or with several workers.
fn run_clones<G: Gate + Sync, L: Ledger, R: Threads + Wait + Sync>(
    resources: &Resources<'_, G, R>,
    watching: &Watching,
    steps: &mut Steps<L>,
) -> Result<WatchedWorld, StudyFault>
    requires accepted { IsAcceptedJournal watching.now.plan.book.net watching.now.plan.book.events }
    requires fits { fit watching.now.plan.model.value (clones_of_book watching.now.plan.book) watching.now.watches
        ≡ Ok tt }
    ensures ran { IsWatchedRun watching.now.plan.model.value (clones_of_book watching.now.plan.book)
        watching.now.watches steps.old steps.new result }
{
    let plan = &watching.plan;
    let calls = plan.book.calls();
    if resources.workers.count == 1 {
        return run_watched_sequentially(
            resources.alloc,
            resources.gate,
            &plan.model,
            calls,
            &watching.watches,
            steps,
        );
    }
    run_watched(
        resources.rt,
        resources.alloc,
        resources.workers,
        resources.gate,
        &plan.model,
        calls,
        &watching.watches,
        steps,
    )
}

// Returns the world of all clones and their branches at the horizon.
fn run_world<G: Gate + Sync, L: Ledger, R: Threads + Wait + Sync>(
    resources: &Resources<'_, G, R>,
    watching: &Watching,
    steps: &mut Steps<L>,
) -> Result<WatchedWorld, Refusal>
    requires accepted { IsAcceptedJournal watching.now.plan.book.net watching.now.plan.book.events }
    requires fits { fit watching.now.plan.model.value (clones_of_book watching.now.plan.book) watching.now.watches
        ≡ Ok tt }
    ensures may_put { IfOk result (λ r. MayPutRun watching.now.plan.model.value r.world) }
    ensures order { IfOk result (λ r. IsPlaceOrder (length r.world.clones) r.order.items) }
    ensures wrote { IfOk result (λ r. HasWritten (MayRunWatched watching.now.plan.model.value
        (clones_of_book watching.now.plan.book) watching.now.watches) steps.old steps.new
        (run_texts watching.now.plan.model.value (in_order r.world.clones r.order.items))) }
    ensures err { IfErr result (λ r. IsNoRun (MayRunWatched watching.now.plan.model.value
        (clones_of_book watching.now.plan.book) watching.now.watches) steps.old steps.new r) }
{
    let lists = watching.plan.book.lists();
    match run_clones(resources, watching, steps) {
        Ok(watched) => Ok(watched),
        Err(StudyFault::NoMemory) => Err(Refusal::OutOfMemory),
        Err(StudyFault::LimitMet { station, who }) => Err(Refusal::Exceeded(limit_at(
            &watching.plan.model,
            station,
            numbered_name(lists, &watching.watches, who),
        ))),
    }
}

/// Runs all clones with their watches. Writes their traces, in the order of the watches, and the report.
pub(crate) fn write_watched<O: Sink, G: Gate + Sync, L: Ledger, R: Threads + Wait + Sync>(
    resources: &Resources<'_, G, R>,
    watching: &Watching,
    out: &mut O,
    steps: &mut Steps<L>,
) -> Result<(), Refusal>
    requires accepted { IsAcceptedJournal watching.now.plan.book.net watching.now.plan.book.events }
    requires fits { fit watching.now.plan.model.value (clones_of_book watching.now.plan.book) watching.now.watches
        ≡ Ok tt }
    ensures done { IsDone (MayRunWatched watching.now.plan.model.value (clones_of_book watching.now.plan.book)
        watching.now.watches) steps.old steps.new (O.view out.old) (O.view out.new) result }
{
    match run_world(resources, watching, steps) {
        Ok(watched) => put_watched(resources, &watching.plan.model, watched, out),
        Err(refusal) => Err(refusal),
    }
}
