//! Reads all texts before the first message is handled, and makes all decisions, except those of a live study.
ghost use Rattle.std.specs.Prelude.{◌≡◌, ℕ, List, IfErr, IfOk, Ok, OnOk};
ghost use Rattle.sim_outer.specs.Counts.{HasRisen};
ghost use Rattle.decision_script.specs.Stating.{IsScript};
ghost use Rattle.command_words.specs.Requests as requests;
ghost use Rattle.command_words.specs.Requests.{SourceView, assignment_view};
ghost use Rattle.watch_points.specs.Checking.{fit};
ghost use Rattle.cloner_top.specs.Deciding.{IsDecided, IsRefusal, clones_of_book};
ghost use Rattle.cloner_top.specs.Fetches.{HasFetched, HasFetchedUpTo};
ghost use Rattle.cloner_top.specs.Prepared.{IsNotPrepared, IsPrepared, IsReady};
ghost use Rattle.cloner_top.specs.Reading.{IsBadWatch, IsModelOf, IsScriptOf, IsUnscripted};
ghost use Rattle.cloner_top.specs.Refusals.{IsMemoryOrStop};
ghost use Rattle.cloner_top.specs.Texts.{all_fetches, fetches_of, later_fetches, origin_of};

use crate::deciding::decide_script;
use crate::prepared::{Decided, Plan, Prepared, Resuming, Study, Watching};
use crate::reading::{
    fetch_text, read_model_text, read_script_text, read_snapshot_text, read_watches_text,
};
use crate::refusal::{Refusal, Text};
use crate::stop::Stop;
use command_words::{Assignment, Mode};
use decision_script::Script;
use net_model::Model;
use sim_outer::Inputs;
use std::alloc::Global;
use std::sync::Arc;
use watch_points::{Watches, check};

// Returns the plan of a model and a script: all decisions are made at front 0, before the simulation begins.
fn plan_study(alloc: Global, model: Arc<Model>, script: &Script) -> Result<Plan, Refusal>
    ensures model { IfOk result (λ plan. plan.model.value ≡ model.value) }
    ensures book { IfOk result (λ plan. IsDecided model.value script.now plan.book) }
    ensures err { IfErr result (λ r. IsMemoryOrStop (IsRefusal model.value script.now) r) }
    ensures valid { OnOk result (IsScript script.now) }
{
    let Ok(shared) = Arc::try_clone(&model) else {
        return Err(Refusal::OutOfMemory);
    };
    match decide_script(alloc, shared, script) {
        Ok(book) => Ok(Plan { model, book }),
        Err(refusal) => Err(refusal),
    }
}

// Fetches and reads the model.
fn fetch_model<I: Inputs>(
    alloc: Global,
    inputs: &mut I,
    assignment: &Assignment,
) -> Result<Model, Refusal>
    ensures ok { IfOk result (λ net. IsModelOf (assignment_view assignment.now) (I.view inputs.old).files net) }
    ensures err { IfErr result (λ r. IsNotPrepared (HasRisen (I.view inputs.old).faults (I.view inputs.new).faults)
        (I.view inputs.old).files (assignment_view assignment.now) r) }
    ensures fetched { HasFetched (fetches_of (origin_of (assignment_view assignment.now) Text.Model))
        (I.view inputs.old) (I.view inputs.new) }
{
    let text = match fetch_text(alloc, inputs, assignment, Text::Model) {
        Ok(text) => text,
        Err(refusal) => return Err(refusal),
    };
    match read_model_text(alloc, text.as_slice()) {
        Ok(model) => Ok(model),
        Err(refusal) => Err(refusal),
    }
}

// Fetches and reads the script.
fn fetch_script<I: Inputs>(
    alloc: Global,
    inputs: &mut I,
    assignment: &Assignment,
) -> Result<Script, Refusal>
    ensures ok { IfOk result (λ s. IsScriptOf (assignment_view assignment.now) (I.view inputs.old).files s) }
    ensures err { IfErr result (λ r. IsUnscripted (HasRisen (I.view inputs.old).faults (I.view inputs.new).faults)
        (assignment_view assignment.now) (I.view inputs.old).files r) }
    ensures fetched { HasFetched (fetches_of (origin_of (assignment_view assignment.now) Text.Script))
        (I.view inputs.old) (I.view inputs.new) }
{
    let text = match fetch_text(alloc, inputs, assignment, Text::Script) {
        Ok(text) => text,
        Err(refusal) => return Err(refusal),
    };
    match read_script_text(alloc, text.as_slice()) {
        Ok(script) => Ok(script),
        Err(refusal) => Err(refusal),
    }
}

// Prepares a study in which all decisions are made first. The model has been read.
fn prepare_study<I: Inputs>(
    alloc: Global,
    inputs: &mut I,
    assignment: &Assignment,
    mode: Mode,
    model: Arc<Model>,
) -> Result<Prepared, Refusal>
    requires study { (source : SourceView) × (assignment_view assignment.now ≡ requests.Study source mode) }
    requires model { IsModelOf (assignment_view assignment.now) (I.view inputs.old).files model.value }
    ensures ready { IfOk result IsReady }
    ensures ok { IfOk result (λ p. IsPrepared (I.view inputs.old).files (assignment_view assignment.now) p) }
    ensures err { IfErr result (λ r. IsNotPrepared (HasRisen (I.view inputs.old).faults (I.view inputs.new).faults)
        (I.view inputs.old).files (assignment_view assignment.now) r) }
    ensures fetched { HasFetchedUpTo (later_fetches (assignment_view assignment.now))
        (I.view inputs.old) (I.view inputs.new) result }
{
    let script = match fetch_script(alloc, inputs, assignment) {
        Ok(script) => script,
        Err(refusal) => return Err(refusal),
    };
    match plan_study(alloc, model, &script) {
        Ok(plan) => Ok(Prepared::Decided(Decided { mode, plan })),
        Err(refusal) => Err(refusal),
    }
}

// Prepares a live study. The model has been read.
fn prepare_live<I: Inputs>(
    alloc: Global,
    inputs: &mut I,
    assignment: &Assignment,
    model: Arc<Model>,
) -> Result<Prepared, Refusal>
    requires live { (m : List ℕ) × ((s : List ℕ) × (assignment_view assignment.now ≡ requests.Live m s)) }
    requires model { IsModelOf (assignment_view assignment.now) (I.view inputs.old).files model.value }
    ensures ready { IfOk result IsReady }
    ensures ok { IfOk result (λ p. IsPrepared (I.view inputs.old).files (assignment_view assignment.now) p) }
    ensures err { IfErr result (λ r. IsNotPrepared (HasRisen (I.view inputs.old).faults (I.view inputs.new).faults)
        (I.view inputs.old).files (assignment_view assignment.now) r) }
    ensures fetched { HasFetchedUpTo (later_fetches (assignment_view assignment.now))
        (I.view inputs.old) (I.view inputs.new) result }
{
    match fetch_script(alloc, inputs, assignment) {
        Ok(script) => Ok(Prepared::Undecided(Study { model, script })),
        Err(refusal) => Err(refusal),
    }
}

// Checks that the watches fit the clones of a plan. Returns the first watch that does not.
fn check_watches(plan: &Plan, watches: &Watches) -> Result<(), Refusal>
    ensures ok { OnOk result (fit plan.now.model.value (clones_of_book plan.now.book) watches.now ≡ Ok tt) }
    ensures err { IfErr result (λ r.
        IsMemoryOrStop (IsBadWatch plan.now.model.value (clones_of_book plan.now.book) watches.now) r) }
{
    match check(&plan.model, plan.book.lists(), watches) {
        Ok(()) => Ok(()),
        Err(unfit) => Err(Refusal::Stopped(Stop::BadWatch {
            reply: unfit.reply,
            line: unfit.line,
        })),
    }
}

// Prepares a study with watches. The model has been read.
fn prepare_watch<I: Inputs>(
    alloc: Global,
    inputs: &mut I,
    assignment: &Assignment,
    model: Arc<Model>,
) -> Result<Prepared, Refusal>
    requires watch { (m : List ℕ) × ((s : List ℕ) × ((w : List ℕ)
        × (assignment_view assignment.now ≡ requests.Watch m s w))) }
    requires model { IsModelOf (assignment_view assignment.now) (I.view inputs.old).files model.value }
    ensures ready { IfOk result IsReady }
    ensures ok { IfOk result (λ p. IsPrepared (I.view inputs.old).files (assignment_view assignment.now) p) }
    ensures err { IfErr result (λ r. IsNotPrepared (HasRisen (I.view inputs.old).faults (I.view inputs.new).faults)
        (I.view inputs.old).files (assignment_view assignment.now) r) }
    ensures fetched { HasFetchedUpTo (later_fetches (assignment_view assignment.now))
        (I.view inputs.old) (I.view inputs.new) result }
{
    let script = match fetch_script(alloc, inputs, assignment) {
        Ok(script) => script,
        Err(refusal) => return Err(refusal),
    };
    let plan = match plan_study(alloc, model, &script) {
        Ok(plan) => plan,
        Err(refusal) => return Err(refusal),
    };
    let text = match fetch_text(alloc, inputs, assignment, Text::Watches) {
        Ok(text) => text,
        Err(refusal) => return Err(refusal),
    };
    let watches = match read_watches_text(alloc, text.as_slice()) {
        Ok(watches) => watches,
        Err(refusal) => return Err(refusal),
    };
    match check_watches(&plan, &watches) {
        Ok(()) => Ok(Prepared::Watching(Watching { plan, watches })),
        Err(refusal) => Err(refusal),
    }
}

// Prepares a run that goes on from a snapshot. The model has been read.
fn prepare_resume<I: Inputs>(
    alloc: Global,
    inputs: &mut I,
    assignment: &Assignment,
    model: Arc<Model>,
) -> Result<Prepared, Refusal>
    requires resume { (m : List ℕ) × ((x : List ℕ) × (assignment_view assignment.now ≡ requests.Resume m x)) }
    requires model { IsModelOf (assignment_view assignment.now) (I.view inputs.old).files model.value }
    ensures ready { IfOk result IsReady }
    ensures ok { IfOk result (λ p. IsPrepared (I.view inputs.old).files (assignment_view assignment.now) p) }
    ensures err { IfErr result (λ r. IsNotPrepared (HasRisen (I.view inputs.old).faults (I.view inputs.new).faults)
        (I.view inputs.old).files (assignment_view assignment.now) r) }
    ensures fetched { HasFetchedUpTo (later_fetches (assignment_view assignment.now))
        (I.view inputs.old) (I.view inputs.new) result }
{
    let text = match fetch_text(alloc, inputs, assignment, Text::Snapshot) {
        Ok(text) => text,
        Err(refusal) => return Err(refusal),
    };
    match read_snapshot_text(alloc, &model, text.as_slice()) {
        Ok(snapshot) => Ok(Prepared::Resuming(Resuming { model, snapshot })),
        Err(refusal) => Err(refusal),
    }
}

/// Reads all texts of an assignment and makes its decisions, unless it is a live study. Returns the first error. No
/// message is handled.
pub(crate) fn prepare<I: Inputs>(
    alloc: Global,
    inputs: &mut I,
    assignment: &Assignment,
) -> Result<Prepared, Refusal>
    ensures ready { IfOk result IsReady }
    ensures ok { IfOk result (λ p. IsPrepared (I.view inputs.old).files (assignment_view assignment.now) p) }
    ensures err { IfErr result (λ r. IsNotPrepared (HasRisen (I.view inputs.old).faults (I.view inputs.new).faults)
        (I.view inputs.old).files (assignment_view assignment.now) r) }
    ensures fetched { HasFetchedUpTo (all_fetches (assignment_view assignment.now))
        (I.view inputs.old) (I.view inputs.new) result }
{
    let model = match fetch_model(alloc, inputs, assignment) {
        Ok(model) => model,
        Err(refusal) => return Err(refusal),
    };
    let Ok(model) = Arc::new(alloc, model) else {
        return Err(Refusal::OutOfMemory);
    };
    match *assignment {
        Assignment::Study { mode, .. } => prepare_study(alloc, inputs, assignment, mode, model),
        Assignment::Live { .. } => prepare_live(alloc, inputs, assignment, model),
        Assignment::Watch { .. } => prepare_watch(alloc, inputs, assignment, model),
        Assignment::Resume { .. } => prepare_resume(alloc, inputs, assignment, model),
    }
}
