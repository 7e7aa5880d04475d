//! Makes the decisions of a script.
ghost use Rattle.std.specs.Prelude.{◌≡◌, IfErr, IfOk, OnOk};
ghost use Rattle.decision_book.specs.Journal.{after};
ghost use Rattle.decision_script.specs.Stating.{IsScript};
ghost use Rattle.cloner_top.specs.Deciding.{AcceptsAct, IsDecided, IsRefusal, RefusesAct, journal_after};
ghost use Rattle.study_run.specs.Accepted.{IsAcceptedJournal};
ghost use Rattle.cloner_top.specs.Refusals.{IsMemoryOrStop};

use crate::refusal::Refusal;
use crate::stop::Stop;
use decision_book::{Reply, ScriptBook};
use decision_script::{Act, Item, Script};
use net_model::Model;
use std::alloc::Global;
use std::sync::Arc;

// Makes the decision of an item, or skips a look. A refused decision stops the study.
fn decide_item(book: &mut ScriptBook, item: &Item) -> Result<(), Refusal>
    ensures events { OnOk result (
        book.new.events ≡ journal_after book.old.net book.old.events item.now.analyst item.now.act) }
    ensures ok { OnOk result (AcceptsAct (after book.old.net book.old.events) item.now.act) }
    ensures err { IfErr result (λ r. IsMemoryOrStop
        (RefusesAct (after book.old.net book.old.events) item.now.line item.now.act) r) }
    ensures accepted { OnOk result (IsAcceptedJournal book.old.net book.old.events
        → IsAcceptedJournal book.new.net book.new.events) }
    ensures net { book.new.net ≡ book.old.net }
{
    let Act::Decide(decision) = item.act else {
        return Ok(());
    };
    let Ok(reply) = book.decide(item.analyst, decision) else {
        return Err(Refusal::OutOfMemory);
    };
    match reply {
        Reply::Accepted => Ok(()),
        reply => Err(Refusal::Stopped(Stop::BadDecision {
            reply,
            line: item.line,
        })),
    }
}

/// Returns the book after all decisions of a script, or the first refusal. The decisions are made at front 0 in script
/// order, each by its analyst. Looks are skipped.
pub(crate) fn decide_script(
    alloc: Global,
    model: Arc<Model>,
    script: &Script,
) -> Result<ScriptBook, Refusal>
    ensures ok { IfOk result (λ book. IsDecided model.value script.now book) }
    ensures err { IfErr result (λ r. IsMemoryOrStop (IsRefusal model.value script.now) r) }
    ensures valid { OnOk result (IsScript script.now) }
{
    let Ok(mut book) = ScriptBook::begin(alloc, model) else {
        return Err(Refusal::OutOfMemory);
    };
    for i in 0..script.len() {
        match decide_item(&mut book, &script.item(i)) {
            Ok(()) => {}
            Err(refusal) => return Err(refusal),
        }
    }
    Ok(book)
}
