//! Fetches the texts of an assignment, and reads them.
ghost use Rattle.std.specs.Prelude.{◌≡◌, IfErr, IfOk, Ok, Err};
ghost use Rattle.sim_outer.specs.Counts.{HasRisen};
ghost use Rattle.net_model.specs.Text.{model};
ghost use Rattle.decision_script.specs.Reading.{script};
ghost use Rattle.watch_points.specs.Reading.{watches};
ghost use Rattle.snapshot_text.specs.Reading.{snapshot};
ghost use Rattle.checkpoint.specs.Accepted.{IsAccepted};
ghost use Rattle.command_words.specs.Requests.{FileNames, Number, Resume, Watch, assignment_view, source_view};
ghost use Rattle.cloner_top.specs.Fetches.{HasFetched};
ghost use Rattle.cloner_top.specs.Reading.{IsBadModel, IsBadScript, IsBadSnapshot, IsBadWatches, IsNotFetched};
ghost use Rattle.cloner_top.specs.Reading.{made_text, origin_view};
ghost use Rattle.cloner_top.specs.Refusals.{IsMemoryOrStop};
ghost use Rattle.cloner_top.specs.Texts.{IsTextOf, fetches_of, origin_of as origin_in, study_origin};

use crate::refusal::{Refusal, Text};
use crate::stop::Stop;
use checkpoint::Snapshot;
use command_words::{Assignment, Source};
use decision_script::{Script, ScriptFault, read_script};
use net_model::{Model, ModelFault, read_model};
use sim_base::NoMemory;
use sim_outer::{FetchFault, Inputs};
use snapshot_text::{SnapshotFault, read_snapshot};
use std::alloc::Global;
use study_generator::{model_text, script_text};
use watch_points::{WatchFault, Watches, read_watches};

/// Reads a text as a model.
pub(crate) fn read_model_text(alloc: Global, text: &[u8]) -> Result<Model, Refusal>
    ensures ok { IfOk result (λ m. model text.now ≡ Ok m) }
    ensures err { IfErr result (λ r. IsMemoryOrStop (IsBadModel text.now) r) }
{
    match read_model(alloc, text) {
        Ok(model) => Ok(model),
        Err(ModelFault::NoMemory) => Err(Refusal::OutOfMemory),
        Err(fault) => Err(Refusal::Stopped(Stop::BadModel(fault))),
    }
}

/// Reads a text as a script.
pub(crate) fn read_script_text(alloc: Global, text: &[u8]) -> Result<Script, Refusal>
    ensures ok { IfOk result (λ s. script text.now ≡ Ok s) }
    ensures err { IfErr result (λ r. IsMemoryOrStop (IsBadScript text.now) r) }
{
    match read_script(alloc, text) {
        Ok(script) => Ok(script),
        Err(ScriptFault::NoMemory) => Err(Refusal::OutOfMemory),
        Err(fault) => Err(Refusal::Stopped(Stop::BadScript(fault))),
    }
}

/// Reads a text as watches.
pub(crate) fn read_watches_text(alloc: Global, text: &[u8]) -> Result<Watches, Refusal>
    ensures ok { IfOk result (λ ws. watches text.now ≡ Ok ws) }
    ensures err { IfErr result (λ r. IsMemoryOrStop (IsBadWatches text.now) r) }
{
    match read_watches(alloc, text) {
        Ok(watches) => Ok(watches),
        Err(WatchFault::NoMemory) => Err(Refusal::OutOfMemory),
        Err(fault) => Err(Refusal::Stopped(Stop::BadWatches(fault))),
    }
}

/// Reads a text as a snapshot of a model.
pub(crate) fn read_snapshot_text(
    alloc: Global,
    model: &Model,
    text: &[u8],
) -> Result<Snapshot, Refusal>
    ensures ok { IfOk result (λ x. snapshot model.now text.now ≡ Ok x) }
    ensures accepted { IfOk result (λ x. IsAccepted model.now x) }
    ensures err { IfErr result (λ r. IsMemoryOrStop (IsBadSnapshot model.now text.now) r) }
{
    match read_snapshot(alloc, model, text) {
        Ok(snapshot) => Ok(snapshot),
        Err(SnapshotFault::NoMemory) => Err(Refusal::OutOfMemory),
        Err(fault) => Err(Refusal::Stopped(Stop::BadSnapshot(fault))),
    }
}

// Generates a text from a number: the model or the script.
fn make_text(alloc: Global, text: Text, number: u32) -> Result<Vec<u8>, NoMemory>
    ensures { IfOk result (λ v. v.items ≡ made_text text number) }
{
    match text {
        Text::Model => model_text(alloc, number),
        Text::Script => script_text(alloc),
        Text::Watches | Text::Snapshot => Ok(Vec::new(alloc)),
    }
}

/// The source of a text.
#[derive(Clone, Copy, Debug)]
pub enum Origin<'a> {
    /// A file of this name.
    InFile(&'a str),
    /// Generated from this number.
    Made(u32),
    /// The assignment has no such text.
    NotAsked,
}

// The source of a text of a study in two files.
fn origin_of_files<'a>(model: &'a str, script: &'a str, text: Text) -> Origin<'a>
    ensures value { origin_view result text ≡ study_origin (FileNames model.entry.now script.entry.now) text }
{
    match text {
        Text::Model => Origin::InFile(model),
        Text::Script => Origin::InFile(script),
        Text::Watches | Text::Snapshot => Origin::NotAsked,
    }
}

// The source of a text that is generated from a number.
fn origin_of_number<'a>(number: u32, text: Text) -> Origin<'a>
    ensures value { origin_view result text ≡ study_origin (Number number) text }
{
    match text {
        Text::Model | Text::Script => Origin::Made(number),
        Text::Watches | Text::Snapshot => Origin::NotAsked,
    }
}

// The source of a text of a study.
fn origin_of_study<'a>(source: Source<'a>, text: Text) -> Origin<'a>
    ensures value { origin_view result text ≡ study_origin (source_view source.entry) text }
{
    match source {
        Source::FileNames { model, script } => origin_of_files(model, script, text),
        Source::Number(number) => origin_of_number(number, text),
    }
}

// The source of a text of a study with watches.
fn origin_of_watch<'a>(model: &'a str, script: &'a str, watches: &'a str, text: Text) -> Origin<'a>
    ensures value { origin_view result text
        ≡ origin_in (Watch model.entry.now script.entry.now watches.entry.now) text }
{
    match text {
        Text::Model => Origin::InFile(model),
        Text::Script => Origin::InFile(script),
        Text::Watches => Origin::InFile(watches),
        Text::Snapshot => Origin::NotAsked,
    }
}

// The source of a text of a run that goes on from a snapshot.
fn origin_of_resume<'a>(model: &'a str, snapshot: &'a str, text: Text) -> Origin<'a>
    ensures value { origin_view result text ≡ origin_in (Resume model.entry.now snapshot.entry.now) text }
{
    match text {
        Text::Model => Origin::InFile(model),
        Text::Snapshot => Origin::InFile(snapshot),
        Text::Script | Text::Watches => Origin::NotAsked,
    }
}

// The source of a text of an assignment.
fn origin_of<'a>(assignment: &Assignment<'a>, text: Text) -> Origin<'a>
    ensures value { origin_view result text ≡ origin_in (assignment_view assignment.now) text }
{
    match *assignment {
        Assignment::Study { source, .. } => origin_of_study(source, text),
        Assignment::Live { model, script } => origin_of_files(model, script, text),
        Assignment::Watch {
            model,
            script,
            watches,
        } => origin_of_watch(model, script, watches, text),
        Assignment::Resume { model, snapshot } => origin_of_resume(model, snapshot, text),
    }
}

/// Fetches a text of an assignment from its file, or generates it.
pub(crate) fn fetch_text<I: Inputs>(
    alloc: Global,
    inputs: &mut I,
    assignment: &Assignment,
    text: Text,
) -> Result<Vec<u8>, Refusal>
    ensures ok { IfOk result (λ v. IsTextOf (assignment_view assignment.now) (I.view inputs.old).files text v.items) }
    ensures err { IfErr result (λ r. IsNotFetched (HasRisen (I.view inputs.old).faults (I.view inputs.new).faults)
        (assignment_view assignment.now) (I.view inputs.old).files text r) }
    ensures fetched { HasFetched (fetches_of (origin_in (assignment_view assignment.now) text))
        (I.view inputs.old) (I.view inputs.new) }
{
    match origin_of(assignment, text) {
        Origin::InFile(name) => match inputs.fetch(alloc, name) {
            Ok(bytes) => Ok(bytes),
            Err(FetchFault::NoMemory) => Err(Refusal::OutOfMemory),
            Err(FetchFault::Failed) => Err(Refusal::NotRead(text)),
        },
        Origin::Made(number) => match make_text(alloc, text, number) {
            Ok(bytes) => Ok(bytes),
            Err(NoMemory) => Err(Refusal::OutOfMemory),
        },
        Origin::NotAsked => Ok(Vec::new(alloc)),
    }
}
