//! Lengths of trace lines, computed before they are written.
ghost use Rattle.std.specs.Prelude.{◌≡◌, ◌≤◌, length};
ghost use Rattle.trace_report.specs.Slots.{AreNames};
ghost use Rattle.trace_report.specs.TraceText.{station_name, class_text, job_text, values_text};
ghost use Rattle.trace_report.specs.TraceText.{change_text, payload_text, counts_text, entry_line};
ghost use Rattle.trace_report.specs.declared.line.TheConstants.{MAX_LINE};
ghost use Rattle.sim_base.specs.declared.name.TheConstants.{MAX_NAME_LEN};
ghost use Rattle.trace_report.specs.declared.lengths.TheConstants.{MAX_CLASS_LEN, MAX_JOB_LEN, MAX_VALUES_LEN};
ghost use Rattle.trace_report.specs.declared.lengths.TheConstants.{MAX_CHANGE_LEN, MAX_PAYLOAD_LEN, MAX_COUNTS_LEN};

use crate::digits::{MAX_NUMBER_LEN, digits};
use crate::line::word_of;
use crate::names::Names;
use net_model::Model;
use sim_base::name::MAX_NAME_LEN;
use sim_base::{Change, Entry, Job, Line, Payload};

/// The maximum number of bytes in the class of a job, with the colon before it.
pub const MAX_CLASS_LEN: usize = 1 + MAX_NUMBER_LEN;

/// The maximum number of bytes in a job.
pub const MAX_JOB_LEN: usize = MAX_NAME_LEN + 1 + MAX_NUMBER_LEN + MAX_CLASS_LEN;

/// The maximum number of bytes in a parameter's word.
pub const MAX_WORD_LEN: usize = 7;

/// The maximum number of bytes in the values of a change.
pub const MAX_VALUES_LEN: usize = MAX_NUMBER_LEN + 1 + MAX_NUMBER_LEN;

/// The maximum number of bytes in a change.
pub const MAX_CHANGE_LEN: usize = MAX_WORD_LEN + 1 + MAX_VALUES_LEN;

/// The maximum number of bytes in a payload.
pub const MAX_PAYLOAD_LEN: usize = 5 + MAX_JOB_LEN;

/// The maximum number of bytes in the counts of a station.
pub const MAX_COUNTS_LEN: usize = 23 + 4 * MAX_NUMBER_LEN;

/// The maximum number of bytes in a line before its payload.
pub const MAX_KEY_LEN: usize = 5 + 2 * MAX_NUMBER_LEN + 2 * MAX_NAME_LEN;

/// The maximum number of bytes in the counts and the line feed.
pub const MAX_END_LEN: usize = MAX_COUNTS_LEN + 1;

#[inline(always)]
fn station_len(model: &Model, names: &Names, s: u32) -> usize
    requires names { AreNames model.now names.now }
    ensures value { result ≡ length (station_name model.now s) }
    ensures length_max { result ≤ MAX_NAME_LEN }
{
    names.slot(model, s).name.len()
}

#[inline(always)]
fn class_len(model: &Model, names: &Names, source: u32) -> usize
    requires names { AreNames model.now names.now }
    ensures value { result ≡ length (class_text model.now source) }
    ensures length_max { result ≤ MAX_CLASS_LEN }
{
    if model.format() == 2 {
        1 + digits(u64::from(names.slot(model, source).class))
    } else {
        0
    }
}

#[inline(always)]
fn job_len(model: &Model, names: &Names, job: &Job) -> usize
    requires names { AreNames model.now names.now }
    ensures value { result ≡ length (job_text model.now job.now) }
    ensures length_max { result ≤ MAX_JOB_LEN }
{
    station_len(model, names, job.source)
        + 1
        + digits(job.count)
        + class_len(model, names, job.source)
}

fn values_len(change: &Change) -> usize
    ensures value { result ≡ length (values_text change.now) }
    ensures length_max { result ≤ MAX_VALUES_LEN }
{
    if change.param.values() == 1 {
        digits(change.a)
    } else {
        digits(change.a) + 1 + digits(change.b)
    }
}

fn change_len(change: &Change) -> usize
    ensures value { result ≡ length (change_text change.now) }
    ensures length_max { result ≤ MAX_CHANGE_LEN }
{
    word_of(change.param).len() + 1 + values_len(change)
}

#[inline(always)]
fn payload_len(model: &Model, names: &Names, payload: &Payload) -> usize
    requires names { AreNames model.now names.now }
    ensures value { result ≡ length (payload_text model.now payload.now) }
    ensures length_max { result ≤ MAX_PAYLOAD_LEN }
{
    match payload {
        Payload::Tick => 4,
        Payload::Job(job) => 4 + job_len(model, names, job),
        Payload::Done(job) => 5 + job_len(model, names, job),
        Payload::Set(change) => 4 + change_len(change),
    }
}

#[inline(always)]
fn counts_len(counts: &Line) -> usize
    ensures value { result ≡ length (counts_text counts.now) }
    ensures length_max { result ≤ MAX_COUNTS_LEN }
{
    match counts {
        Line::Source { sent } => 5 + digits(*sent),
        Line::Server {
            busy,
            wait,
            done,
            lost,
        } => 23 + digits(*busy) + digits(*wait) + digits(*done) + digits(*lost),
        Line::Passed { passed } => 7 + digits(*passed),
        Line::Sink { got, stay } => 10 + digits(*got) + digits(*stay),
    }
}

/// The length of an entry's line, in bytes.
pub fn line_len(model: &Model, names: &Names, entry: &Entry) -> usize
    requires names { AreNames model.now names.now }
    ensures value { result ≡ length (entry_line model.now entry.now) }
    ensures length_max { result ≤ MAX_LINE }
{
    let key = entry.msg.key;
    6 + digits(key.time)
        + station_len(model, names, entry.msg.to)
        + station_len(model, names, key.sender)
        + digits(key.number)
        + payload_len(model, names, &entry.msg.payload)
        + counts_len(&entry.line)
}
