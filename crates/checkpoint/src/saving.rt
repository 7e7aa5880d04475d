//! The snapshot of a one-thread run.
ghost use Rattle.std.specs.Prelude.{◌≡◌, ◌≤◌, ◌<◌, ◌++◌, ◌∷◌, [], length, map, true, IfNone, IfOk, IfSome, OnOk};
ghost use Rattle.std.specs.List.{flat_map, list_all};
ghost use Rattle.sim_base.specs.Clones.{Clone};
ghost use Rattle.stations.specs.Saving.{saved_of};
ghost use Rattle.trace_report.specs.Slots.{AreNames};
ghost use Rattle.trace_report.specs.TraceText.{entry_line};
ghost use Rattle.trace_report.specs.declared.line.TheConstants.{MAX_LINE};
ghost use Rattle.checkpoint.specs.Accepted.{IsAccepted};
ghost use Rattle.checkpoint.specs.RunSnapshots.{IsRunAt, snapshot_of, trace_line};
ghost use Rattle.checkpoint.specs.TraceLines.{is_trace_line};

use crate::snapshot::Snapshot;
use crate::trace_lines::TraceLines;
use log_chain::Log;
use net_model::Model;
use sim_base::{Entry, Name, NoMemory};
use solo_run::Solo;
use stations::Saved;
use std::alloc::Global;
use trace_report::{MAX_LINE, Names, line_len, write_line};

impl Snapshot {
    /// The snapshot of a clone's run that has come to a front: the clone's name, the front, the clone's end, and the
    /// run.
    ///
    /// `clone` is a ghost value: the clone whose run it is.
    pub fn of(
        alloc: Global,
        model: &Model,
        who: Name,
        front: u64,
        end: Option<u64>,
        solo: &Solo,
    ) -> Result<Snapshot, NoMemory>
        ghost clone: { Clone }
        requires run { IsRunAt model.now clone front solo.now }
        requires name { who ≡ clone.name }
        requires end { end ≡ clone.end }
        ensures value { IfOk result (λ x. x ≡ snapshot_of model.now clone front) }
        ensures accepted { IfOk result (λ x. IsAccepted model.now x) }
    {
        let saved = save_all(alloc, model, solo)?;
        let due = solo.due(alloc)?;
        let lines = print_lines(alloc, model, solo.trace())?;
        Ok(Snapshot::from_parts(who, front, end, saved, due, lines))
    }
}

/// The length in bytes of the text of a trace's lines, or None if it is more than `most`. It takes no memory, so a
/// caller can refuse a snapshot that is too long before it is made.
pub fn lines_len(model: &Model, trace: &Log, most: u32) -> Option<u64>
    ensures some { IfSome result (λ n. n ≡ length (flat_map (entry_line model.now) trace.now)) }
    ensures at_most { IfSome result (λ n. n ≤ most) }
    ensures none { IfNone result (most < length (flat_map (entry_line model.now) trace.now)) }
{
    let names = Names::of(model);
    let mut len = 0;
    let mut walk = trace.walk_from(0);
    while let Some(entry) = walk.next() {
        len += line_len(model, &names, &entry) as u64;
        if len > u64::from(most) {
            return None;
        }
    }
    Some(len)
}

// The saved data of all stations, in order.
fn save_all(alloc: Global, model: &Model, solo: &Solo) -> Result<Vec<Saved>, NoMemory>
    requires count { length solo.now.states ≡ length model.now.sites }
    ensures value { IfOk result (λ saved. saved.items ≡ map saved_of solo.now.states) }
{
    let mut all = Vec::with_capacity(alloc, model.len() as usize)?;
    for s in 0..model.len() {
        all.push(solo.state(s + 1).saved(alloc)?)?;
    }
    Ok(all)
}

// The lines of a log's entries.
fn print_lines(alloc: Global, model: &Model, trace: &Log) -> Result<TraceLines, NoMemory>
    requires lines { list_all is_trace_line (map (trace_line model.now) trace.now) ≡ true }
    ensures value { IfOk result (λ lines. lines ≡ map (trace_line model.now) trace.now) }
{
    let names = Names::of(model);
    let mut page = [0u8; MAX_LINE];
    let mut lines = TraceLines::new(alloc);
    let mut walk = trace.walk_from(0);
    while let Some(entry) = walk.next() {
        push_line(&mut lines, &mut page, model, &names, &entry)?;
    }
    Ok(lines)
}

// Adds the line of an entry, which is written into the page first.
fn push_line(
    lines: &mut TraceLines,
    page: &mut [u8],
    model: &Model,
    names: &Names,
    entry: &Entry,
) -> Result<(), NoMemory>
    requires names { AreNames model.now names.now }
    requires page { MAX_LINE ≤ length page.old }
    requires line { is_trace_line (trace_line model.now entry.now) ≡ true }
    ensures ok { OnOk result (lines.new ≡ lines.old ++ trace_line model.now entry.now ∷ []) }
    ensures page { length page.new ≡ length page.old }
{
    let end = write_line(page, 0, model, names, entry);
    lines.push(&page[..end - 1])
}
