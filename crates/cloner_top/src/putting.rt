//! Puts the texts of a study. All memory is allocated first. Each text is one call, which passes on the parts as they
//! are made.
ghost use Rattle.std.specs.Prelude.{◌≡◌, ◌≤◌, ◌∷◌, ◌++◌, [], IfErr, IfOk, OnErr, OnOk, length, map};
ghost use Rattle.sim_outer.specs.Bytes.{IsAppended};
ghost use Rattle.sim_outer.specs.Counts.{AreCounted};
ghost use Rattle.trace_writer.specs.Puts.{AreCut};
ghost use Rattle.trace_writer.specs.Texts.{AreTextsReady, text_after};
ghost use Rattle.trace_report.specs.Outputs.{clone_text, clone_texts, report};
ghost use Rattle.trace_report.specs.TraceText.{trace_text};
ghost use Rattle.study_run.specs.Reports.{MayReport};
ghost use Rattle.queue_stats.specs.Rows.{statistics};
ghost use Rattle.run_laws.specs.Orders.{IsPlaceOrder, in_order};
ghost use Rattle.cloner_top.specs.Endings.{rounds_line, run_texts};
ghost use Rattle.cloner_top.specs.Outsides.{AreDone, ArePutOrCut};
ghost use Rattle.cloner_top.specs.RunTexts.{IsReadyRun, MayPutRun};

use crate::error_line::ErrorLine;
use crate::refusal::Refusal;
use crate::resources::Resources;
use crew_pool::Gate;
use log_chain::Log;
use net_model::Model;
use queue_stats::make_statistics;
use sim_base::{Name, NoMemory};
use sim_outer::{PutFailed, Sink};
use std::alloc::Global;
use std::sync::Wait;
use std::thread::Threads;
use study_run::{WatchedWorld, make_report};
use trace_writer::{Texts, WorldTraces, prepare, put_alone, put_texts, put_texts_sequentially};
use world_core::World;

/// Puts one text.
pub(crate) fn put_text<O: Sink>(out: &mut O, text: &[u8]) -> Result<(), Refusal>
    ensures done { AreDone (text.now ∷ []) (O.view out.old) (O.view out.new) result }
    ensures cause { IfErr result (λ r. r ≡ Refusal.CannotWrite) }
    ensures told { ArePutOrCut (text.now ∷ []) (O.view out.old) (O.view out.new) }
    ensures later { (O.view out.old).faults ≤ (O.view out.new).faults }
{
    match out.put(text) {
        Ok(()) => Ok(()),
        Err(_) => Err(Refusal::CannotWrite),
    }
}

/// Puts the trace text of a clone of this name that ran alone, from its log.
pub(crate) fn put_trace<O: Sink>(
    model: &Model,
    name: &Name,
    trace: &Log,
    out: &mut O,
) -> Result<(), Refusal>
    ensures done { AreDone (trace_text model.now name.now trace.now ∷ []) (O.view out.old) (O.view out.new) result }
{
    match put_alone(model, name, b"", trace, out) {
        Ok(()) => Ok(()),
        Err(_) => Err(Refusal::CannotWrite),
    }
}

/// Puts the text of a resumed run in one call: the clone's name, these lines, and the lines of the log after them.
pub(crate) fn put_resumed<O: Sink>(
    model: &Model,
    name: &Name,
    lines: &[u8],
    trace: &Log,
    out: &mut O,
) -> Result<(), Refusal>
    ensures done { AreDone (text_after model.now name.now lines.now trace.now ∷ [])
        (O.view out.old) (O.view out.new) result }
{
    match put_alone(model, name, lines, trace, out) {
        Ok(()) => Ok(()),
        Err(_) => Err(Refusal::CannotWrite),
    }
}

/// Puts the report of a world at the horizon.
pub(crate) fn put_report<O: Sink>(
    alloc: Global,
    model: &Model,
    world: &World,
    out: &mut O,
) -> Result<(), Refusal>
    requires may_report { MayReport model.now world.now }
    ensures done { AreDone (report model.now world.now.clones ∷ []) (O.view out.old) (O.view out.new) result }
{
    match make_report(alloc, model, world) {
        Ok(text) => put_text(out, text.as_slice()),
        Err(NoMemory) => Err(Refusal::OutOfMemory),
    }
}

/// Puts the statistics of a world at the horizon.
pub(crate) fn put_stats<O: Sink>(
    alloc: Global,
    model: &Model,
    world: &World,
    out: &mut O,
) -> Result<(), Refusal>
    requires may_report { MayReport model.now world.now }
    ensures done { AreDone (statistics model.now world.now.clones ∷ []) (O.view out.old) (O.view out.new) result }
{
    match make_statistics(alloc, model, world) {
        Ok(text) => put_text(out, text.as_slice()),
        Err(NoMemory) => Err(Refusal::OutOfMemory),
    }
}

// The texts of a run, with all memory that they need.
#[derive(Drop)]
struct RunTexts<'a> {
    traces: WorldTraces<'a>,
    texts: Texts<'a>,
    report: Vec<u8>,
}

// Allocates all memory that the traces of a world at the horizon and its report need.
fn prepare_run<'a>(
    alloc: Global,
    model: &Model,
    world: &World,
    traces: WorldTraces<'a>,
) -> Result<RunTexts<'a>, NoMemory>
    requires may_put { MayPutRun model.now world.now }
    requires same_net { traces.net ≡ model.now }
    requires same_report { report model.now traces.clones ≡ report model.now world.now.clones }
    ensures ready { IfOk result (λ run. IsReadyRun model.now traces.entry.clones run) }
{
    let texts = prepare(alloc, &traces)?;
    let report = make_report(alloc, model, world)?;
    Ok(RunTexts {
        traces,
        texts,
        report,
    })
}

// Puts the trace text of each clone, in this thread or with several workers.
fn put_traces<'a, O: Sink, G: Gate, R: Threads + Wait + Sync>(
    resources: &Resources<'_, G, R>,
    traces: &WorldTraces<'a>,
    texts: Texts<'a>,
    out: &mut O,
) -> Result<(), PutFailed>
    requires ready { AreTextsReady traces.now.net traces.now.clones texts }
    ensures ok { OnOk result (IsAppended (O.view out.old).bytes (clone_texts traces.now.net traces.now.clones)
        (O.view out.new).bytes) }
    ensures each { OnOk result (AreCounted (length traces.now.clones) (O.view out.old).calls (O.view out.new).calls) }
    ensures cut { OnErr result (AreCut (map (clone_text traces.now.net) traces.now.clones)
        (O.view out.old) (O.view out.new)) }
    ensures later { (O.view out.old).faults ≤ (O.view out.new).faults }
{
    if resources.workers.count == 1 {
        return put_texts_sequentially(traces, texts, out);
    }
    put_texts(
        resources.rt,
        resources.alloc,
        traces,
        resources.workers.count,
        texts,
        out,
    )
}

// Puts the trace text of each clone, and then the report.
fn put_prepared<'a, O: Sink, G: Gate, R: Threads + Wait + Sync>(
    resources: &Resources<'_, G, R>,
    run: RunTexts<'a>,
    out: &mut O,
) -> Result<(), Refusal>
    requires ready { IsReadyRun run.traces.net run.traces.clones run }
    ensures done { AreDone (run_texts run.entry.traces.net run.entry.traces.clones)
        (O.view out.old) (O.view out.new) result }
    ensures cause { IfErr result (λ r. r ≡ Refusal.CannotWrite) }
    ensures later { (O.view out.old).faults ≤ (O.view out.new).faults }
{
    let RunTexts {
        traces,
        texts,
        report,
    } = run;
    match put_traces(resources, &traces, texts, out) {
        Ok(()) => put_text(out, report.as_slice()),
        Err(_) => Err(Refusal::CannotWrite),
    }
}

/// Puts the trace text of each clone of a world at the horizon, and then its report.
pub(crate) fn put_run<O: Sink, G: Gate, R: Threads + Wait + Sync>(
    resources: &Resources<'_, G, R>,
    model: &Model,
    world: &World,
    out: &mut O,
) -> Result<(), Refusal>
    requires may_put { MayPutRun model.now world.now }
    ensures done { AreDone (run_texts model.now world.now.clones) (O.view out.old) (O.view out.new) result }
{
    match prepare_run(resources.alloc, model, world, WorldTraces::of(world)) {
        Ok(run) => put_prepared(resources, run, out),
        Err(NoMemory) => Err(Refusal::OutOfMemory),
    }
}

/// Puts the trace text of each clone of a run with watches, in the order of the watches, and then the report.
pub(crate) fn put_watched<O: Sink, G: Gate, R: Threads + Wait + Sync>(
    resources: &Resources<'_, G, R>,
    model: &Model,
    watched: WatchedWorld,
    out: &mut O,
) -> Result<(), Refusal>
    requires may_put { MayPutRun model.now watched.world }
    requires order { IsPlaceOrder (length watched.world.clones) watched.order.items }
    ensures done { AreDone (run_texts model.now (in_order watched.world.clones watched.order.items))
        (O.view out.old) (O.view out.new) result }
{
    let WatchedWorld { world, order } = watched;
    let traces = WorldTraces::in_order(&world, order);
    match prepare_run(resources.alloc, model, &world, traces) {
        Ok(run) => put_prepared(resources, run, out),
        Err(NoMemory) => Err(Refusal::OutOfMemory),
    }
}

// The line with the number of rounds.
fn line_of_rounds(rounds: u64) -> ErrorLine
    ensures { result ≡ rounds_line rounds }
{
    let mut line = ErrorLine::new();
    line.push("rounds ");
    line.push_number(rounds);
    line.push("\n");
    line
}

/// Puts what `run` writes, and then the line with the number of rounds.
pub(crate) fn put_linked<O: Sink, G: Gate, R: Threads + Wait + Sync>(
    resources: &Resources<'_, G, R>,
    model: &Model,
    world: &World,
    rounds: u64,
    out: &mut O,
) -> Result<(), Refusal>
    requires may_put { MayPutRun model.now world.now }
    ensures done { AreDone (run_texts model.now world.now.clones ++ rounds_line rounds ∷ [])
        (O.view out.old) (O.view out.new) result }
{
    let line = line_of_rounds(rounds);
    let run = match prepare_run(resources.alloc, model, world, WorldTraces::of(world)) {
        Ok(run) => run,
        Err(NoMemory) => return Err(Refusal::OutOfMemory),
    };
    match put_prepared(resources, run, out) {
        Ok(()) => put_text(out, line.text().as_bytes()),
        Err(refusal) => Err(refusal),
    }
}

/// Puts this text, and then the texts of a run.
pub(crate) fn put_live<O: Sink, G: Gate, R: Threads + Wait + Sync>(
    resources: &Resources<'_, G, R>,
    model: &Model,
    world: &World,
    journal: &[u8],
    out: &mut O,
) -> Result<(), Refusal>
    requires may_put { MayPutRun model.now world.now }
    ensures done { AreDone (journal.now ∷ run_texts model.now world.now.clones)
        (O.view out.old) (O.view out.new) result }
{
    let run = match prepare_run(resources.alloc, model, world, WorldTraces::of(world)) {
        Ok(run) => run,
        Err(NoMemory) => return Err(Refusal::OutOfMemory),
    };
    match put_text(out, journal) {
        Ok(()) => put_prepared(resources, run, out),
        Err(refusal) => Err(refusal),
    }
}
