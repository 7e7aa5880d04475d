//! Runs a study while its analysts decide and look, and writes its texts.
ghost use Rattle.std.specs.Prelude.{◌≡◌, Ok, Err, IfErr, IfOk, OnOk};
ghost use Rattle.decision_book.specs.Plans.{ArePlanned};
ghost use Rattle.world_core.specs.Overs.{NoneBeyond};
ghost use Rattle.cloner_top.specs.Deciding.{clones_of_book};
ghost use Rattle.cloner_top.specs.Endings.{MayLive};
ghost use Rattle.cloner_top.specs.LiveRuns.{HaltsFor, IsJournaledRun, IsLiveWorld, NamesStationAndClone, StopsLive};
ghost use Rattle.cloner_top.specs.Outsides.{IsStudyPut, IsHalted};

use crate::halt::Halt;
use crate::prepared::Study;
use crate::putting::put_live;
use crate::refusal::Refusal;
use crate::resources::Resources;
use crate::running::limit_at;
use crew_pool::Gate;
use live_study::{LiveRun, live_journal_text, live_study};
use net_model::Model;
use sim_base::{NoMemory, Steps};
use sim_outer::Sink;
use std::sync::Wait;
use std::sync::ledger::Ledger;
use std::thread::Threads;
use study_run::StudyFault;
use world_core::World;

// Returns the world at the horizon with the text of the journal, or why there is none.
fn world_or_halt(model: &Model, live: LiveRun, journal: Vec<u8>) -> Result<(World, Vec<u8>), Halt>
    requires net { live.book.net ≡ model.now }
    requires in_range { IfErr live.run (λ e. NamesStationAndClone model.now live.book.events e) }
    // the world at the horizon, with the text of the journal
    ensures ok { IfOk result (λ r. (live.run ≡ Ok r.0) × (r.1.items ≡ journal.items)) }
    // its clones are within the limit
    ensures within { IfOk result (λ r. NoneBeyond r.0.net r.0.clones r.0.front) }
    ensures planned { IfOk result (λ r. ArePlanned live.book.net (clones_of_book live.book)) }
    // or the cause, from the error of the run
    ensures err { IfErr result (λ h. (e : _) × ((live.run ≡ Err e)
        × HaltsFor model.now live.book.events journal.items e h)) }
{
    let LiveRun {
        book,
        looks: _,
        run,
    } = live;
    match run {
        Ok(world) => {
            let (_short, _planned) = (world.lists(), book.book().lists());
            Ok((world, journal))
        }
        Err(StudyFault::NoMemory) => Err(Halt::Refused(Refusal::OutOfMemory)),
        Err(StudyFault::LimitMet { station, who }) => {
            let excess = limit_at(model, station, book.book().lists().name(who));
            Err(Halt::Overrun { journal, excess })
        }
    }
}

// Runs the study, and writes the text of its journal into memory.
fn run_and_journal<G: Gate + Sync, L: Ledger, R: Threads + Wait + Sync>(
    resources: &Resources<'_, G, R>,
    study: &Study,
    steps: &mut Steps<L>,
) -> Result<(LiveRun, Vec<u8>), NoMemory>
    ensures ran { IfOk result (λ r. IsJournaledRun study.now.model.value study.now.script steps.old steps.new r.0
        r.1.items) }
{
    let live = live_study(
        resources.rt,
        resources.alloc,
        resources.workers,
        resources.gate,
        &study.model,
        &study.script,
        steps,
    )?;
    let journal = live_journal_text(resources.alloc, &study.script, &live)?;
    Ok((live, journal))
}

// Runs the study to its end. Returns the world at the horizon and the text of its journal.
fn run_to_end<G: Gate + Sync, L: Ledger, R: Threads + Wait + Sync>(
    resources: &Resources<'_, G, R>,
    study: &Study,
    steps: &mut Steps<L>,
) -> Result<(World, Vec<u8>), Halt>
    ensures ok { IfOk result (λ r. IsLiveWorld study.now.model.value study.now.script steps.old steps.new r.0
        r.1.items) }
    ensures err { IfErr result (λ h. StopsLive study.now.model.value study.now.script steps.old steps.new h) }
{
    match run_and_journal(resources, study, steps) {
        Ok((live, journal)) => world_or_halt(&study.model, live, journal),
        Err(NoMemory) => Err(Halt::Refused(Refusal::OutOfMemory)),
    }
}

/// Runs a study while its analysts decide and look, and writes its journal, the traces of all clones and the report.
pub(crate) fn write_live<O: Sink, G: Gate + Sync, L: Ledger, R: Threads + Wait + Sync>(
    resources: &Resources<'_, G, R>,
    study: &Study,
    out: &mut O,
    steps: &mut Steps<L>,
) -> Result<(), Halt>
    ensures ok { OnOk result (IsStudyPut (MayLive study.now.model.value study.now.script) steps.old steps.new
        (O.view out.old) (O.view out.new)) }
    ensures err { IfErr result (λ h. IsHalted (MayLive study.now.model.value study.now.script) steps.old steps.new
        (O.view out.old) (O.view out.new) h) }
{
    let (world, journal) = match run_to_end(resources, study, steps) {
        Ok(ran) => ran,
        Err(halt) => return Err(halt),
    };
    match put_live(resources, &study.model, &world, journal.as_slice(), out) {
        Ok(()) => Ok(()),
        Err(refusal) => Err(Halt::Refused(refusal)),
    }
}
