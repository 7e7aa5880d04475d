//! Writes the lines of a snapshot, each with its line feed.
ghost use Rattle.std.specs.Prelude.{◌≡◌, ◌++◌, ◌∷◌, [], decimal, codes, OnOk};
ghost use Rattle.snapshot_lines.specs.Forms.{line_of};
ghost use Rattle.snapshot_lines.specs.Texts.{ended};
ghost use Rattle.snapshot_lines.specs.Grammar.{head_line, message_line, pending_line, station_line, trace_line};
ghost use Rattle.snapshot_lines.specs.Spaced.{spaced};

use crate::read_lines::Head;
use crate::write_words::{push_digits, push_end, push_number, push_payload, push_shape, push_word};
use sim_base::{Key, Msg, Name, NoMemory};
use stations::Saved;

// snapshot NAME front F
fn push_who_and_front(out: &mut Vec<u8>, who: &Name, front: u64) -> Result<(), NoMemory>
    ensures value { OnOk result (out.new.items
        ≡ out.old.items ++ (codes "snapshot" ++ spaced (who.now ∷ codes "front" ∷ decimal front ∷ []))) }
{
    out.extend_from_slice(b"snapshot")?;
    push_word(out, who.as_bytes())?;
    push_word(out, b"front")?;
    push_number(out, front)
}

/// snapshot NAME front F end E
#[tactic(auto, using(crate::proofs::SpacedWords::ended_spaced))]
pub fn push_head(out: &mut Vec<u8>, head: &Head) -> Result<(), NoMemory>
    ensures value { OnOk result (out.new.items ≡ out.old.items ++ ended (line_of head_line head.now)) }
{
    push_who_and_front(out, &head.who, head.front)?;
    push_word(out, b"end")?;
    push_end(out, head.end)?;
    out.extend_from_slice(b"\n")?;
    Ok(())
}

// station I next N drawn N handled N
fn push_station_numbers(
    out: &mut Vec<u8>,
    station: u32,
    next: u64,
    drawn: u64,
    handled: u64,
) -> Result<(), NoMemory>
    ensures value { OnOk result (out.new.items ≡ out.old.items ++ (codes "station" ++ spaced (decimal station
        ∷ codes "next" ∷ decimal next ∷ codes "drawn" ∷ decimal drawn ∷ codes "handled" ∷ decimal handled ∷ []))) }
{
    out.extend_from_slice(b"station")?;
    push_number(out, u64::from(station))?;
    push_word(out, b"next")?;
    push_number(out, next)?;
    push_word(out, b"drawn")?;
    push_number(out, drawn)?;
    push_word(out, b"handled")?;
    push_number(out, handled)
}

/// station I next N drawn N handled N SHAPE. The line is the same whatever the number of links.
pub fn push_station(out: &mut Vec<u8>, station: u32, saved: &Saved) -> Result<(), NoMemory>
    ensures value { OnOk result (out.new.items
        ≡ out.old.items ++ ended (line_of (station_line station 0) saved.now)) }
{
    push_station_numbers(out, station, saved.next, saved.drawn, saved.handled)?;
    push_shape(out, &saved.shape)?;
    out.extend_from_slice(b"\n")?;
    Ok(())
}

/// pending N
#[tactic(auto, using(crate::proofs::SpacedWords::ended_spaced))]
pub fn push_pending(out: &mut Vec<u8>, count: u64) -> Result<(), NoMemory>
    ensures value { OnOk result (out.new.items ≡ out.old.items ++ ended (line_of pending_line count)) }
{
    out.extend_from_slice(b"pending")?;
    push_number(out, count)?;
    out.extend_from_slice(b"\n")?;
    Ok(())
}

// TIME SENDER NUMBER TO
fn push_key(out: &mut Vec<u8>, key: &Key, to: u32) -> Result<(), NoMemory>
    ensures value { OnOk result (out.new.items ≡ out.old.items ++ (decimal key.now.time
        ++ spaced (decimal key.now.sender ∷ decimal key.now.number ∷ decimal to ∷ []))) }
{
    push_digits(out, key.time)?;
    push_number(out, u64::from(key.sender))?;
    push_number(out, key.number)?;
    push_number(out, u64::from(to))
}

/// TIME SENDER NUMBER TO PAYLOAD
#[tactic(auto, using(crate::proofs::SpacedWords::ended_spaced))]
pub fn push_message(out: &mut Vec<u8>, message: &Msg) -> Result<(), NoMemory>
    ensures value { OnOk result (out.new.items ≡ out.old.items ++ ended (line_of message_line message.now)) }
{
    push_key(out, &message.key, message.to)?;
    push_payload(out, &message.payload)?;
    out.extend_from_slice(b"\n")?;
    Ok(())
}

/// trace N
#[tactic(auto, using(crate::proofs::SpacedWords::ended_spaced))]
pub fn push_trace(out: &mut Vec<u8>, count: u64) -> Result<(), NoMemory>
    ensures value { OnOk result (out.new.items ≡ out.old.items ++ ended (line_of trace_line count)) }
{
    out.extend_from_slice(b"trace")?;
    push_number(out, count)?;
    out.extend_from_slice(b"\n")?;
    Ok(())
}
