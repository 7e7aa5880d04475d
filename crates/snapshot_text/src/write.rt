//! Writes a snapshot's text, and measures it before.
ghost use Rattle.std.specs.Prelude.{◌≡◌, ◌^◌, ◌<◌, ◌≤◌, ◌++◌, length, map, IfOk, OnOk};
ghost use Rattle.std.specs.List.{flat_map};
ghost use Rattle.snapshot_lines.specs.Forms.{line_of};
ghost use Rattle.snapshot_lines.specs.Texts.{ended};
ghost use Rattle.net_model.specs.declared.limits.TheConstants.{MAX_STATIONS};
ghost use Rattle.snapshot_lines.specs.Grammar.{message_line};
ghost use Rattle.snapshot_text.specs.SnapshotTexts.{head_of, station_lines, text_of};

use checkpoint::Snapshot;
use net_model::Model;
use sim_base::{Msg, NoMemory};
use snapshot_lines::lengths::{head_len, message_len, pending_len, station_len, trace_len};
use snapshot_lines::read_lines::Head;
use snapshot_lines::write_lines::{
    push_head, push_message, push_pending, push_station, push_trace,
};
use stations::Saved;
use std::alloc::Global;

fn head(snapshot: &Snapshot) -> Head
    ensures value { result ≡ head_of snapshot.now }
{
    Head {
        who: snapshot.who(),
        front: snapshot.front(),
        end: snapshot.end(),
    }
}

// Adds the lines of the stations.
#[tactic(auto, using(crate::proofs::TextParts::station_next))]
fn push_stations(out: &mut Vec<u8>, model: &Model, saved: &[Saved]) -> Result<(), NoMemory>
    requires count { length saved.now ≡ length model.now.sites }
    ensures value { OnOk result (out.new.items
        ≡ out.old.items ++ flat_map ended (station_lines model.now 1 saved.now)) }
{
    for s in 0..model.len() {
        push_station(out, s + 1, &saved[s as usize])?;
    }
    Ok(())
}

// Adds the lines of the pending messages.
fn push_messages(out: &mut Vec<u8>, due: &[Msg]) -> Result<(), NoMemory>
    ensures value { OnOk result (out.new.items
        ≡ out.old.items ++ flat_map ended (map (line_of message_line) due.now)) }
{
    for message in due {
        push_message(out, message)?;
    }
    Ok(())
}

// The bytes of the lines of the stations.
#[tactic(auto, using(crate::proofs::TextParts::station_next))]
fn stations_len(model: &Model, saved: &[Saved]) -> u128
    requires count { length saved.now ≡ length model.now.sites }
    ensures value { result ≡ length (flat_map ended (station_lines model.now 1 saved.now)) }
    ensures at_most { result < 2 ^ 106 }
{
    let mut len = 0;
    for s in 0..model.len() {
        len += station_len(s + 1, &saved[s as usize]);
    }
    len
}

// The bytes of the lines of the pending messages.
fn messages_len(due: &[Msg]) -> u128
    ensures value { result ≡ length (flat_map ended (map (line_of message_line) due.now)) }
    ensures at_most { result < 2 ^ 126 }
{
    let mut len = 0;
    for message in due {
        len += message_len(message);
    }
    len
}

/// The length of a snapshot's text in bytes. It takes no memory, so a caller can refuse a text that is too long before
/// it is made.
#[tactic(auto, using(crate::proofs::TextParts::text_parts))]
pub fn text_len(model: &Model, snapshot: &Snapshot) -> u128
    requires count { length snapshot.now.saved ≡ length model.now.sites }
    ensures value { result ≡ length (text_of model.now snapshot.now) }
{
    head_len(&head(snapshot))
        + stations_len(model, snapshot.all_saved())
        + pending_len(snapshot.due().len() as u64)
        + messages_len(snapshot.due())
        + trace_len(snapshot.line_count() as u64)
        + snapshot.lines().len() as u128
}

/// The text of a snapshot of this model. It is measured first, and then takes its memory at once.
#[tactic(auto, using(crate::proofs::TextParts::text_parts))]
pub fn snapshot_text(alloc: Global, model: &Model, snapshot: &Snapshot) -> Result<Vec<u8>, NoMemory>
    requires count { length snapshot.now.saved ≡ length model.now.sites }
    ensures value { IfOk result (λ text. text.items ≡ text_of model.now snapshot.now) }
{
    let len = text_len(model, snapshot);
    // no memory has room for more bytes than there are addresses
    if len > usize::MAX as u128 {
        return Err(NoMemory);
    }
    let mut out = Vec::with_capacity(alloc, len as usize)?;
    push_head(&mut out, &head(snapshot))?;
    push_stations(&mut out, model, snapshot.all_saved())?;
    push_pending(&mut out, snapshot.due().len() as u64)?;
    push_messages(&mut out, snapshot.due())?;
    push_trace(&mut out, snapshot.line_count() as u64)?;
    out.extend_from_slice(snapshot.lines())?;
    Ok(out)
}
