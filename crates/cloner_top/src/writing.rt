//! Runs a prepared study, and writes its texts.
ghost use Rattle.std.specs.Prelude.{IfErr, OnOk};
ghost use Rattle.cloner_top.specs.Deciding.{clones_of_book};
ghost use Rattle.cloner_top.specs.Endings.{MaySimulate};
ghost use Rattle.cloner_top.specs.Outsides.{IsDone, IsHalted, IsStudyPut};
ghost use Rattle.cloner_top.specs.Prepared.{IsReady, MayEndFrom};
ghost use Rattle.study_run.specs.SayableRuns.{AreSayable};
ghost use Rattle.study_run.specs.Accepted.{IsAcceptedJournal};

use crate::alone::write_alone;
use crate::halt::Halt;
use crate::linking::write_links;
use crate::live::write_live;
use crate::prepared::{Decided, Prepared};
use crate::refusal::Refusal;
use crate::resources::Resources;
use crate::resuming::write_resumed;
use crate::running::{write_report, write_run, write_stats};
use crate::saving::write_saved;
use crate::watching::write_watched;
use command_words::Mode;
use crew_pool::Gate;
use sim_base::Steps;
use sim_outer::Sink;
use std::sync::Wait;
use std::sync::ledger::Ledger;
use std::thread::Threads;

// Runs a plan in its mode, and writes its texts.
fn write_decided<O: Sink, G: Gate + Sync, L: Ledger, R: Threads + Wait + Sync>(
    resources: &Resources<'_, G, R>,
    decided: &Decided,
    out: &mut O,
    steps: &mut Steps<L>,
) -> Result<(), Refusal>
    requires accepted { IsAcceptedJournal decided.now.plan.book.net decided.now.plan.book.events }
    requires sayable { AreSayable (clones_of_book decided.now.plan.book) }
    ensures done { IsDone
        (MaySimulate decided.now.mode decided.now.plan.model.value (clones_of_book decided.now.plan.book))
        steps.old steps.new (O.view out.old) (O.view out.new) result }
{
    match decided.mode {
        Mode::Run => write_run(resources, &decided.plan, out, steps),
        Mode::Report => write_report(resources, &decided.plan, out, steps),
        Mode::Stats => write_stats(resources, &decided.plan, out, steps),
        Mode::Links => write_links(resources, &decided.plan, out, steps),
        Mode::Solo(name) => write_alone(resources.alloc, &name, &decided.plan, out, steps),
        Mode::Save { clone, until } => {
            write_saved(resources.alloc, &clone, until, &decided.plan, out, steps)
        }
    }
}

/// Runs a prepared study, and writes its texts.
pub(crate) fn write_prepared<O: Sink, G: Gate + Sync, L: Ledger, R: Threads + Wait + Sync>(
    resources: &Resources<'_, G, R>,
    prepared: &Prepared,
    out: &mut O,
    steps: &mut Steps<L>,
) -> Result<(), Halt>
    requires ready { IsReady prepared.now }
    ensures ok { OnOk result (IsStudyPut (MayEndFrom prepared.now) steps.old steps.new
        (O.view out.old) (O.view out.new)) }
    ensures err { IfErr result (λ h. IsHalted (MayEndFrom prepared.now) steps.old steps.new
        (O.view out.old) (O.view out.new) h) }
{
    match prepared {
        Prepared::Decided(decided) => {
            match write_decided(resources, decided, out, steps) {
                Ok(()) => Ok(()),
                Err(refusal) => Err(Halt::Refused(refusal)),
            }
        }
        Prepared::Undecided(study) => write_live(resources, study, out, steps),
        Prepared::Watching(watching) => {
            match write_watched(resources, watching, out, steps) {
                Ok(()) => Ok(()),
                Err(refusal) => Err(Halt::Refused(refusal)),
            }
        }
        Prepared::Resuming(resuming) => {
            match write_resumed(resources.alloc, resuming, out, steps) {
                Ok(()) => Ok(()),
                Err(refusal) => Err(Halt::Refused(refusal)),
            }
        }
    }
}
