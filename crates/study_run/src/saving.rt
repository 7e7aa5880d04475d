//! Saved runs: one clone of a study is run alone until a time, and written down.
//!
//! ```text
//! let lists = book.lists();
//! let text = save_alone(alloc, &model, lists, clone, 5_000, &mut steps)?;     // the text of a snapshot
//! // later, or on another machine:
//! let snapshot = read_snapshot(alloc, &model, &text)?;
//! let solo = onward(alloc, &model, &snapshot, &mut steps)?;                    // what comes after it
//! ```
//!
//! Cost: that of the run until the time, and the text. A text that is too long costs no memory beyond the snapshot, and
//! none at all if the lines of the trace alone are too long.
//!
//! The promises:
//!
//! - *Defined.* The text is that of the clone's snapshot at the time, or at its end or the horizon if they are earlier.
//! - *Resumed.* The text is read back, and the run from it has the text of the run that was not stopped.
//! - *Causes.* A text that is too long is refused, and so is a log that gets longer than the limit before the time. A
//!   limit that is met only later does not matter.
ghost use Rattle.std.specs.Prelude.{◌≡◌, ◌<◌, ◌≤◌, length, IfErr, IfOk};
ghost use Rattle.sim_base.specs.Clones.{Clone, clone_at};
ghost use Rattle.sim_base.specs.declared.limits.TheConstants.{MAX_FILE_BYTES};
ghost use Rattle.checkpoint.specs.RunSnapshots.{IsRunAt, snapshot_of};
ghost use Rattle.decision_book.specs.Plans.{ArePlanned};
ghost use Rattle.study_run.specs.Saving.{IsFault, IsSaved};
ghost use Rattle.study_run.specs.SayableRuns.{AreSayable};
ghost use Rattle.study_run.specs.Writing.{IsUnwritten};
ghost use Rattle.snapshot_text.specs.SnapshotTexts.{text_of};

use crate::{StudyFault, run_alone_until};
use checkpoint::{Snapshot, last_front, lines_len};
use net_model::Model;
use sim_base::{Lists, MAX_FILE_BYTES, NoMemory, Steps};
use snapshot_text::{snapshot_text, text_len};
use solo_run::Solo;
use std::alloc::Global;
use std::sync::ledger::Ledger;

/// Why nothing is saved.
#[derive(Clone, Copy, Debug, PartialEq, Eq)]
pub enum SaveFault {
    /// Out of memory.
    NoMemory,
    /// The text would be longer than a file may be.
    TooLong,
    /// The log of this station would get longer than the limit before the time.
    LimitMet { station: u32 },
}

// The text of a snapshot, unless it is too long.
fn write_snapshot(alloc: Global, model: &Model, snapshot: &Snapshot) -> Result<Vec<u8>, SaveFault>
    requires count { length snapshot.now.saved ≡ length model.now.sites }
    ensures value { IfOk result (λ text. text.items ≡ text_of model.now snapshot.now) }
    ensures at_most { IfOk result (λ text. length text.items ≤ MAX_FILE_BYTES) }
    ensures fault { IfErr result (λ e. IsUnwritten (text_of model.now snapshot.now) e) }
{
    if text_len(model, snapshot) > MAX_FILE_BYTES as u128 {
        return Err(SaveFault::TooLong);
    }
    match snapshot_text(alloc, model, snapshot) {
        Ok(text) => Ok(text),
        Err(NoMemory) => Err(SaveFault::NoMemory),
    }
}

// The text of the snapshot of a clone whose run has come to a front, unless it is too long.
//
// `clone` is a ghost value: the clone at this place.
fn write_run(
    alloc: Global,
    model: &Model,
    lists: &Lists,
    c: u32,
    front: u64,
    solo: &Solo,
) -> Result<Vec<u8>, SaveFault>
    ghost clone: { Clone }
    requires in_range { c < length lists.now.clones }
    requires clone { clone ≡ clone_at lists.now.clones c }
    requires run { IsRunAt model.now clone front solo.now }
    ensures value { IfOk result (λ text. text.items ≡ text_of model.now (snapshot_of model.now clone front)) }
    ensures at_most { IfOk result (λ text. length text.items ≤ MAX_FILE_BYTES) }
    ensures fault { IfErr result (λ e. IsUnwritten (text_of model.now (snapshot_of model.now clone front)) e) }
{
    // no memory is taken for a snapshot whose lines alone are too long
    let Some(_) = lines_len(model, solo.trace(), MAX_FILE_BYTES as u32) else {
        return Err(SaveFault::TooLong);
    };
    match Snapshot::of(alloc, model, lists.name(c), front, lists.end_of(c), solo) {
        Ok(snapshot) => write_snapshot(alloc, model, &snapshot),
        Err(NoMemory) => Err(SaveFault::NoMemory),
    }
}

/// Runs the clone at a place alone until a time, or to its end or the horizon if they are earlier. Returns the text of
/// its snapshot there.
///
/// Counts a step for each message handled. A log that gets too long only after the time does not matter.
pub fn save_alone<L: Ledger>(
    alloc: Global,
    model: &Model,
    lists: &Lists,
    c: u32,
    time: u64,
    steps: &mut Steps<L>,
) -> Result<Vec<u8>, SaveFault>
    requires in_range { c < length lists.now.clones }
    requires planned { ArePlanned model.now lists.now.clones }
    requires sayable { AreSayable lists.now.clones }
    ensures saved { IfOk result (λ text. IsSaved model.now time (clone_at lists.now.clones c) steps.old steps.new
        text.items) }
    ensures fault { IfErr result (λ e. IsFault model.now time (clone_at lists.now.clones c) steps.old steps.new e) }
{
    let front = time.min(last_front(model, lists.end_of(c)));
    match run_alone_until(alloc, model, lists, c, time, steps) {
        Ok(solo) => match write_run(alloc, model, lists, c, front, &solo) {
            Ok(text) => Ok(text),
            Err(fault) => Err(fault),
        },
        Err(StudyFault::NoMemory) => Err(SaveFault::NoMemory),
        Err(StudyFault::LimitMet { station, .. }) => Err(SaveFault::LimitMet { station }),
    }
}
