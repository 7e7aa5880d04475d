//! Reads a snapshot's text.
ghost use Rattle.std.specs.Prelude.{◌≡◌, ◌≢◌, ◌≤◌, length, Some, None, Ok, Err, IfOk, IfErr, MatchBool};
ghost use Rattle.sim_base.specs.declared.limits.TheConstants.{MAX_FILE_BYTES};
ghost use Rattle.net_model.specs.Rules.{IsNet};
ghost use Rattle.snapshot_lines.specs.Texts.{read_text};
ghost use Rattle.checkpoint.specs.Accepted.{IsAccepted};
ghost use Rattle.snapshot_text.specs.Reading.{ends, if_accepted, of_lines, snapshot, step};
ghost use Rattle.snapshot_text.specs.SnapshotTexts.{IsSayable};

use crate::accepting::{first_bad, first_unfit, fits_front};
use crate::fault::SnapshotFault;
use crate::reader::Reader;
use checkpoint::Snapshot;
use decision_script::words::cut_at;
use net_model::Model;
use sim_base::{MAX_FILE_BYTES, NoMemory};
use std::alloc::Global;

// Takes a line, of which the first begins a reader, and returns whether it is what it must be.
fn take_line(
    reader: &mut Option<Reader>,
    alloc: Global,
    model: &Model,
    line: &[u8],
) -> Result<bool, NoMemory>
    ensures value { IfOk result (λ ok. MatchBool ok (step model.now reader.old line.now ≡ Some reader.new)
        (step model.now reader.old line.now ≡ None)) }
{
    if let Some(reader) = reader {
        return reader.take_line(alloc, model, line);
    }
    let Some(first) = Reader::begin(alloc, line) else {
        return Ok(false);
    };
    *reader = Some(first);
    Ok(true)
}

/// Reads all lines of a text.
pub(crate) fn read_lines(alloc: Global, model: &Model, text: &[u8]) -> Result<Reader, SnapshotFault>
    requires at_most { length text.now ≤ MAX_FILE_BYTES }
    ensures ok { IfOk result (λ r. read_text (step model.now) ends None text.now ≡ Ok (Some r)) }
    ensures refused { IfErr result (λ e. e ≢ SnapshotFault.NoMemory
        → of_lines model.now (read_text (step model.now) ends None text.now) ≡ Err e) }
{
    let mut reader: Option<Reader> = None;
    let mut line: u32 = 1;
    let mut rest = text;
    'lines: while let Some((first, more)) = cut_at(rest, b'\n') {
        if !take_line(&mut reader, alloc, model, first)? {
            return Err(SnapshotFault::BadLine { line });
        }
        line += 1;
        rest = more;
    }
    match reader {
        Some(reader) if reader.may_end() && rest.is_empty() => Ok(reader),
        _ => Err(SnapshotFault::BadLine { line }),
    }
}

// The snapshot, if a run may go on from it.
#[tactic(auto, using(crate::proofs::Sayable::front_accepted, crate::proofs::Sayable::unfit_accepted, crate::proofs::Sayable::bad_accepted, crate::proofs::Sayable::good_accepted, crate::proofs::Sayable::sayable_accepted))]
fn if_good(model: &Model, snapshot: Snapshot) -> Result<Snapshot, SnapshotFault>
    requires sayable { IsNet model.now → IsSayable model.now snapshot }
    ensures ok { IfOk result (λ x. if_accepted model.now snapshot ≡ Ok x) }
    ensures accepted { IfOk result (λ x. IsAccepted model.now x) }
    ensures refused { IfErr result (λ e. if_accepted model.now snapshot ≡ Err e) }
{
    if !fits_front(model, snapshot.front(), snapshot.end()) {
        return Err(SnapshotFault::BadFront);
    }
    if let Some(station) = first_unfit(model, snapshot.all_saved()) {
        return Err(SnapshotFault::Unfit { station });
    }
    match first_bad(
        model,
        snapshot.front(),
        snapshot.all_saved(),
        snapshot.due(),
    ) {
        Some(index) => Err(SnapshotFault::BadPending {
            index: index as u32,
        }),
        None => Ok(snapshot),
    }
}

/// Reads the snapshot that a text states, or returns the first rule that the text breaks. It takes time in proportion
/// to the text's length.
pub fn read_snapshot(alloc: Global, model: &Model, text: &[u8]) -> Result<Snapshot, SnapshotFault>
    ensures ok { IfOk result (λ x. snapshot model.now text.now ≡ Ok x) }
    ensures refused { IfErr result (λ e. e ≢ SnapshotFault.NoMemory → snapshot model.now text.now ≡ Err e) }
    ensures accepted { IfOk result (λ x. IsAccepted model.now x) }
{
    if text.len() > MAX_FILE_BYTES {
        return Err(SnapshotFault::TooLong);
    }
    match read_lines(alloc, model, text) {
        Ok(reader) => if_good(model, reader.snapshot()),
        Err(fault) => Err(fault),
    }
}
