//! The parts of a trace line, written forward: each function writes its part at a place and returns the place after it.
//!
//! `free` and `WritesPiece` bound the length of a part, by the constants of `lengths`.
ghost use Rattle.std.specs.Prelude.{◌≡◌, ◌+◌, ◌≤◌, ◌++◌, length, codes};
ghost use Rattle.sim_base.specs.declared.entry.Line.TheVariants.{Server};
ghost use Rattle.trace_report.specs.Slots.{AreNames};
ghost use Rattle.log_chain.specs.Stored.{entry_in};
ghost use Rattle.sim_base.specs.Params.{param_word};
ghost use Rattle.trace_report.specs.TraceText.{station_name, class_text, job_text, values_text};
ghost use Rattle.trace_report.specs.TraceText.{change_text, payload_text, counts_text, line_start, entry_line};
ghost use Rattle.trace_report.specs.Writers.{WritesExactly, WritesPiece};
ghost use Rattle.trace_report.specs.declared.line.TheConstants.{MAX_LINE};
ghost use Rattle.sim_base.specs.declared.name.TheConstants.{MAX_NAME_LEN};
ghost use Rattle.trace_report.specs.declared.lengths.TheConstants.{MAX_CLASS_LEN, MAX_JOB_LEN, MAX_WORD_LEN};
ghost use Rattle.trace_report.specs.declared.lengths.TheConstants.{MAX_VALUES_LEN, MAX_CHANGE_LEN, MAX_PAYLOAD_LEN};
ghost use Rattle.trace_report.specs.declared.lengths.TheConstants.{MAX_COUNTS_LEN, MAX_KEY_LEN, MAX_END_LEN};

use crate::names::Names;
use crate::packed_line::write_packed;
use crate::pieces::{put, put_count, put_name, put_number};
use log_chain::StoredEntry;
use net_model::Model;
use sim_base::{Change, Entry, Job, Key, Line, Param, Payload};

// Writes the name of a station, or the analyst's.
#[inline(always)]
fn put_station(bytes: &mut [u8], at: usize, model: &Model, names: &Names, s: u32) -> usize
    requires names { AreNames model.now names.now }
    requires free { at + MAX_NAME_LEN ≤ length bytes.old }
    ensures written { WritesPiece (station_name model.now s) MAX_NAME_LEN at result bytes.old bytes.new }
{
    put_name(bytes, at, &names.slot(model, s).name)
}

// Writes the class of a source's jobs, if the format has classes.
#[inline(always)]
fn put_class(bytes: &mut [u8], at: usize, model: &Model, names: &Names, source: u32) -> usize
    requires names { AreNames model.now names.now }
    requires free { at + MAX_CLASS_LEN ≤ length bytes.old }
    ensures written { WritesPiece (class_text model.now source) MAX_CLASS_LEN at result bytes.old bytes.new }
{
    if model.format() == 2 {
        put_count(bytes, at, b":", u64::from(names.slot(model, source).class))
    } else {
        at
    }
}

// Writes a job.
#[inline(always)]
fn put_job(bytes: &mut [u8], at: usize, model: &Model, names: &Names, job: &Job) -> usize
    requires names { AreNames model.now names.now }
    requires free { at + MAX_JOB_LEN ≤ length bytes.old }
    ensures written { WritesPiece (job_text model.now job.now) MAX_JOB_LEN at result bytes.old bytes.new }
{
    let at = put_station(bytes, at, model, names, job.source);
    let at = put_count(bytes, at, b".", job.count);
    put_class(bytes, at, model, names, job.source)
}

/// The script's word for a parameter.
pub fn word_of(param: Param) -> &'static [u8]
    ensures value { result.now ≡ param_word param }
    ensures length_max { length result.now ≤ MAX_WORD_LEN }
{
    param.word().as_bytes()
}

// Writes the values of a change.
fn put_values(bytes: &mut [u8], at: usize, change: &Change) -> usize
    requires free { at + MAX_VALUES_LEN ≤ length bytes.old }
    ensures written { WritesPiece (values_text change.now) MAX_VALUES_LEN at result bytes.old bytes.new }
{
    let at = put_number(bytes, at, change.a);
    if change.param.values() == 1 {
        at
    } else {
        put_count(bytes, at, b" ", change.b)
    }
}

// Writes a change in script syntax.
fn put_change(bytes: &mut [u8], at: usize, change: &Change) -> usize
    requires free { at + MAX_CHANGE_LEN ≤ length bytes.old }
    ensures written { WritesPiece (change_text change.now) MAX_CHANGE_LEN at result bytes.old bytes.new }
{
    let at = put(bytes, at, word_of(change.param));
    let at = put(bytes, at, b" ");
    put_values(bytes, at, change)
}

/// Writes the payload of a message.
#[inline(always)]
pub fn put_payload(
    bytes: &mut [u8],
    at: usize,
    model: &Model,
    names: &Names,
    payload: &Payload,
) -> usize
    requires names { AreNames model.now names.now }
    requires free { at + MAX_PAYLOAD_LEN ≤ length bytes.old }
    ensures written { WritesPiece (payload_text model.now payload.now) MAX_PAYLOAD_LEN at result bytes.old bytes.new }
{
    match payload {
        Payload::Tick => put(bytes, at, b"tick"),
        Payload::Job(job) => {
            let at = put(bytes, at, b"job ");
            put_job(bytes, at, model, names, job)
        }
        Payload::Done(job) => {
            let at = put(bytes, at, b"done ");
            put_job(bytes, at, model, names, job)
        }
        Payload::Set(change) => {
            let at = put(bytes, at, b"set ");
            put_change(bytes, at, change)
        }
    }
}

// Writes the counts of a server.
#[inline(always)]
fn put_server(bytes: &mut [u8], at: usize, busy: u64, wait: u64, done: u64, lost: u64) -> usize
    requires free { at + MAX_COUNTS_LEN ≤ length bytes.old }
    ensures written { WritesPiece (counts_text (Server busy wait done lost)) MAX_COUNTS_LEN
        at result bytes.old bytes.new }
{
    let at = put_count(bytes, at, b"busy=", busy);
    let at = put_count(bytes, at, b" wait=", wait);
    let at = put_count(bytes, at, b" done=", done);
    put_count(bytes, at, b" lost=", lost)
}

// Writes the counts of a station after a message.
#[inline(always)]
fn put_counts(bytes: &mut [u8], at: usize, counts: &Line) -> usize
    requires free { at + MAX_COUNTS_LEN ≤ length bytes.old }
    ensures written { WritesPiece (counts_text counts.now) MAX_COUNTS_LEN at result bytes.old bytes.new }
{
    match counts {
        Line::Source { sent } => put_count(bytes, at, b"sent=", *sent),
        Line::Server {
            busy,
            wait,
            done,
            lost,
        } => put_server(bytes, at, *busy, *wait, *done, *lost),
        Line::Passed { passed } => put_count(bytes, at, b"passed=", *passed),
        Line::Sink { got, stay } => {
            let at = put_count(bytes, at, b"got=", *got);
            put_count(bytes, at, b" stay=", *stay)
        }
    }
}

// Writes the time of a message, its receiver, its sender and its number.
#[inline(always)]
fn put_key(bytes: &mut [u8], at: usize, model: &Model, names: &Names, key: &Key, to: u32) -> usize
    requires names { AreNames model.now names.now }
    requires free { at + MAX_KEY_LEN ≤ length bytes.old }
    ensures written { WritesPiece (line_start model.now key.now to) MAX_KEY_LEN at result bytes.old bytes.new }
{
    let at = put_number(bytes, at, key.time);
    let at = put(bytes, at, b" ");
    let at = put_station(bytes, at, model, names, to);
    let at = put(bytes, at, b" ");
    let at = put_station(bytes, at, model, names, key.sender);
    let at = put_count(bytes, at, b" ", key.number);
    put(bytes, at, b" ")
}

// Writes the counts and the line feed.
#[inline(always)]
fn put_end(bytes: &mut [u8], at: usize, counts: &Line) -> usize
    requires free { at + MAX_END_LEN ≤ length bytes.old }
    ensures written { WritesPiece (counts_text counts.now ++ codes "\n") MAX_END_LEN at result bytes.old bytes.new }
{
    let at = put_counts(bytes, at, counts);
    put(bytes, at, b"\n")
}

/// The maximum number of bytes in a line, with what its pieces may write past its end.
pub const MAX_LINE: usize = 256;

/// Writes the line of an entry at a place, and returns the place after it.
///
/// A number that is not a station's, 0 or past the last, is written as `analyst`. At least [`MAX_LINE`] bytes from the
/// place must be free, since pieces write past the line's end.
pub fn write_line(bytes: &mut [u8], at: usize, model: &Model, names: &Names, entry: &Entry) -> usize
    requires names { AreNames model.now names.now }
    requires free { at + MAX_LINE ≤ length bytes.old }
    ensures written { WritesExactly (entry_line model.now entry.now) at result bytes.old bytes.new }
{
    let at = put_key(bytes, at, model, names, &entry.msg.key, entry.msg.to);
    let at = put_payload(bytes, at, model, names, &entry.msg.payload);
    let at = put(bytes, at, b" ");
    put_end(bytes, at, &entry.line)
}

/// Writes the line of an entry, as a log stores it, at a place. Returns the place after it, as `write_line` does.
#[inline(always)]
pub fn write_stored(
    bytes: &mut [u8],
    at: usize,
    model: &Model,
    names: &Names,
    stored: StoredEntry<'_>,
) -> usize
    requires names { AreNames model.now names.now }
    requires free { at + MAX_LINE ≤ length bytes.old }
    ensures written { WritesExactly (entry_line model.now (entry_in stored.entry)) at result bytes.old bytes.new }
{
    match stored {
        StoredEntry::Packed(packed) => write_packed(bytes, at, model, names, packed),
        StoredEntry::Whole(entry) => write_line(bytes, at, model, names, entry),
    }
}
