//! Reads the lines of a snapshot.
ghost use Rattle.std.specs.Prelude.{◌≡◌, ℕ, ◌≤◌, IfOk};
ghost use Rattle.snapshot_lines.specs.Forms.{line_says, read_as, read_then};
ghost use Rattle.net_model.specs.declared.limits.TheConstants.{MAX_LINKS};
ghost use Rattle.snapshot_lines.specs.Grammar.{param_form, values_form, change_form, payload_form, end_form, head_line};
ghost use Rattle.snapshot_lines.specs.Grammar.{saved_with, shape_form, station_line, pending_line, message_line};
ghost use Rattle.snapshot_lines.specs.Grammar.{trace_line};

use crate::read_words::{Read, read_job, read_number, read_shape, read_small};
use crate::words::{Words, whole};
use itoa::Buffer;
use net_model::limits::MAX_LINKS;
use sim_base::{Change, Job, Key, Msg, Name, NoMemory, Param, Payload};
use stations::Saved;
use std::alloc::Global;

/// What the first line says: a clone's name, a front, and the clone's end.
#[derive(Clone, Copy)]
pub struct Head {
    pub who: Name,
    pub front: u64,
    pub end: Option<u64>,
}

fn read_end<'a>(words: &Words<'a>) -> Read<'a, Option<u64>>
    ensures value { result ≡ end_form.read words.now }
{
    if let Some(rest) = words.after(b"-") {
        return Some((None, rest));
    }
    let (end, rest) = read_number(words)?;
    Some((Some(end), rest))
}

fn read_head_words<'a>(words: &Words<'a>) -> Read<'a, Head>
    ensures value { result ≡ head_line.read words.now }
{
    let rest = words.after(b"snapshot")?;
    let (word, rest) = rest.take()?;
    let who = Name::read(word)?;
    let rest = rest.after(b"front")?;
    let (front, rest) = read_number(&rest)?;
    let rest = rest.after(b"end")?;
    let (end, rest) = read_end(&rest)?;
    Some((Head { who, front, end }, rest))
}

/// snapshot NAME front F end E
pub fn read_head(line: &[u8]) -> Option<Head>
    ensures value { result ≡ line_says head_line line.now }
{
    whole(read_head_words(&Words::of(line, b' ')))
}

// station I next N drawn N handled N
fn read_station_numbers<'a>(words: &Words<'a>, station: u32) -> Read<'a, (u64, u64, u64)>
    ensures value { (links : ℕ) → read_then result
        (λ n rest. read_as (saved_with n.0 n.1 n.2) ((shape_form links).read rest))
        ≡ (station_line station links).read words.now }
{
    let mut buffer = Buffer::new();
    let rest = words.after(b"station")?;
    let rest = rest.after(buffer.format(station).as_bytes())?;
    let rest = rest.after(b"next")?;
    let (next, rest) = read_number(&rest)?;
    let rest = rest.after(b"drawn")?;
    let (drawn, rest) = read_number(&rest)?;
    let rest = rest.after(b"handled")?;
    let (handled, rest) = read_number(&rest)?;
    Some(((next, drawn, handled), rest))
}

// station I next N drawn N handled N SHAPE
fn read_station_words<'a>(
    alloc: Global,
    words: &Words<'a>,
    station: u32,
    links: usize,
) -> Result<Read<'a, Saved>, NoMemory>
    requires at_most { links ≤ MAX_LINKS }
    ensures value { IfOk result (λ read. read ≡ (station_line station links).read words.now) }
{
    let Some((numbers, rest)) = read_station_numbers(words, station) else {
        return Ok(None);
    };
    let (next, drawn, handled) = numbers;
    match read_shape(alloc, &rest, links)? {
        Some((shape, rest)) => {
            let saved = Saved {
                next,
                drawn,
                handled,
                shape,
            };
            Ok(Some((saved, rest)))
        }
        None => Ok(None),
    }
}

/// The line of the station of this number, which has this number of links.
pub fn read_station(
    alloc: Global,
    line: &[u8],
    station: u32,
    links: usize,
) -> Result<Option<Saved>, NoMemory>
    requires at_most { links ≤ MAX_LINKS }
    ensures value { IfOk result (λ saved. saved ≡ line_says (station_line station links) line.now) }
{
    let words = Words::of(line, b' ');
    Ok(whole(read_station_words(alloc, &words, station, links)?))
}

fn read_pending_words<'a>(words: &Words<'a>) -> Read<'a, u64>
    ensures value { result ≡ pending_line.read words.now }
{
    read_number(&words.after(b"pending")?)
}

/// pending N
pub fn read_pending(line: &[u8]) -> Option<u64>
    ensures value { result ≡ line_says pending_line line.now }
{
    whole(read_pending_words(&Words::of(line, b' ')))
}

fn read_trace_words<'a>(words: &Words<'a>) -> Read<'a, u64>
    ensures value { result ≡ trace_line.read words.now }
{
    read_number(&words.after(b"trace")?)
}

/// trace N
pub fn read_trace(line: &[u8]) -> Option<u64>
    ensures value { result ≡ line_says trace_line line.now }
{
    whole(read_trace_words(&Words::of(line, b' ')))
}

fn read_param<'a>(words: &Words<'a>) -> Read<'a, Param>
    ensures value { result ≡ param_form.read words.now }
{
    let (word, rest) = words.take()?;
    let param = Param::of_word(word)?;
    Some((param, rest))
}

fn read_values<'a>(words: &Words<'a>, param: Param) -> Read<'a, (u64, u64)>
    ensures value { result ≡ (values_form param).read words.now }
{
    let (a, rest) = read_number(words)?;
    if param.values() == 1 {
        return Some(((a, 0), rest));
    }
    let (b, rest) = read_number(&rest)?;
    Some(((a, b), rest))
}

fn read_change<'a>(words: &Words<'a>) -> Read<'a, Change>
    ensures value { result ≡ change_form.read words.now }
{
    let (param, rest) = read_param(words)?;
    let ((a, b), rest) = read_values(&rest, param)?;
    Some((Change { param, a, b }, rest))
}

fn read_payload<'a>(words: &Words<'a>) -> Read<'a, Payload>
    ensures value { result ≡ payload_form.read words.now }
{
    if let Some(rest) = words.after(b"tick") {
        return Some((Payload::Tick, rest));
    }
    if let Some(rest) = words.after(b"job") {
        let (job, rest) = read_job(&rest)?;
        return Some((Payload::Job(job), rest));
    }
    if let Some(rest) = words.after(b"done") {
        let (job, rest) = read_job(&rest)?;
        return Some((Payload::Done(job), rest));
    }
    let rest = words.after(b"set")?;
    let (change, rest) = read_change(&rest)?;
    Some((Payload::Set(change), rest))
}

fn read_message_words<'a>(words: &Words<'a>) -> Read<'a, Msg>
    ensures value { result ≡ message_line.read words.now }
{
    let (time, rest) = read_number(words)?;
    let (sender, rest) = read_small(&rest)?;
    let (number, rest) = read_number(&rest)?;
    let (to, rest) = read_small(&rest)?;
    let (payload, rest) = read_payload(&rest)?;
    let key = Key {
        time,
        sender,
        number,
    };
    Some((Msg { key, to, payload }, rest))
}

/// TIME SENDER NUMBER TO PAYLOAD
pub fn read_message(line: &[u8]) -> Option<Msg>
    ensures value { result ≡ line_says message_line line.now }
{
    whole(read_message_words(&Words::of(line, b' ')))
}
