//! The lengths of a snapshot's lines in bytes, before any of them is written. Nothing here takes memory.
//!
//! The sums have 128 bits, since a waiting line of any length can be measured.
ghost use Rattle.std.specs.Prelude.{◌≡◌, ◌+◌, ◌^◌, ◌<◌, ◌≤◌, ◌∷◌, [], length, decimal};
ghost use Rattle.std.specs.List.{flat_map};
ghost use Rattle.snapshot_lines.specs.Forms.{line_of};
ghost use Rattle.snapshot_lines.specs.Texts.{ended};
ghost use Rattle.snapshot_lines.specs.Grammar.{change_form, end_form, head_line, job_word, number_word};
ghost use Rattle.snapshot_lines.specs.Grammar.{message_line, payload_form, pending_line, shape_form, station_line};
ghost use Rattle.snapshot_lines.specs.Grammar.{trace_line};
ghost use Rattle.snapshot_lines.specs.Spaced.{spaced};

use crate::read_lines::Head;
use itoa::Buffer;
use sim_base::{Change, Job, Msg, Payload};
use stations::{JobLine, Saved, Shape};

// A space and a number.
fn number_len(number: u64) -> u128
    ensures value { result ≡ 1 + length (decimal number) }
    ensures at_most { result ≤ 21 }
{
    let mut buffer = Buffer::new();
    1 + buffer.format(number).len() as u128
}

// A space and a job.
fn job_len(job: &Job) -> u128
    ensures value { result ≡ length (spaced (job_word.write job.now)) }
    ensures at_most { result ≤ 63 }
{
    number_len(u64::from(job.source)) + number_len(job.count) + number_len(job.born)
}

// The jobs of a waiting line.
fn jobs_len(line: &JobLine) -> u128
    ensures value { result ≡ length (spaced (flat_map job_word.write line.now)) }
    ensures at_most { result < 2 ^ 71 }
{
    let mut len = 0;
    'jobs: for place in 0..line.len() {
        len += job_len(&line.get(place));
    }
    len
}

// The weights of links.
fn weights_len(weights: &[u32]) -> u128
    ensures value { result ≡ length (spaced (flat_map number_word.write weights.now)) }
    ensures at_most { result < 2 ^ 71 }
{
    let mut len = 0;
    'weights: for weight in weights {
        len += number_len(u64::from(*weight));
    }
    len
}

// A keyword of this length and three numbers.
fn three_len(keyword: u128, lo: u64, hi: u64, count: u64) -> u128
    requires length_max { keyword < 2 ^ 8 }
    ensures value { result ≡ 1 + keyword + length (spaced (decimal lo ∷ decimal hi ∷ decimal count ∷ [])) }
    ensures at_most { result < 2 ^ 9 }
{
    1 + keyword + number_len(lo) + number_len(hi) + number_len(count)
}

// A shape.
fn shape_len(shape: &Shape) -> u128
    ensures value { result ≡ length (spaced ((shape_form 0).write shape.now)) }
    ensures at_most { result < 2 ^ 72 }
{
    match shape {
        Shape::Source { lo, hi, sent } => three_len(6, *lo, *hi, *sent),
        Shape::Server {
            servers,
            room,
            lo,
            hi,
            busy,
            done,
            lost,
            line,
        } => {
            let parameters = three_len(6, u64::from(*servers), u64::from(*room), *lo);
            let counts = number_len(*hi)
                + number_len(*busy)
                + number_len(*done)
                + number_len(*lost);
            parameters + counts + 5 + number_len(line.len() as u64) + jobs_len(line)
        }
        Shape::Delay { lo, hi, passed } => three_len(5, *lo, *hi, *passed),
        Shape::Router { passed, weights } => {
            7 + number_len(*passed) + weights_len(weights.as_slice())
        }
        Shape::Sink { got, stay } => 5 + number_len(*got) + number_len(*stay),
    }
}

// A parameter and its values.
fn change_len(change: &Change) -> u128
    ensures value { result ≡ length (spaced (change_form.write change.now)) }
    ensures at_most { result < 2 ^ 65 }
{
    let first = 1 + change.param.word().len() as u128 + number_len(change.a);
    if change.param.values() == 1 {
        return first;
    }
    first + number_len(change.b)
}

// A payload.
fn payload_len(payload: &Payload) -> u128
    ensures value { result ≡ length (spaced (payload_form.write payload.now)) }
    ensures at_most { result < 2 ^ 66 }
{
    match payload {
        Payload::Tick => 5,
        Payload::Job(job) => 4 + job_len(job),
        Payload::Done(job) => 5 + job_len(job),
        Payload::Set(change) => 4 + change_len(change),
    }
}

// A clone's end, or a hyphen.
fn end_len(end: Option<u64>) -> u128
    ensures value { result ≡ length (spaced (end_form.write end)) }
    ensures at_most { result ≤ 21 }
{
    match end {
        Some(end) => number_len(end),
        None => 2,
    }
}

/// snapshot NAME front F end E
#[tactic(auto, using(crate::proofs::SpacedWords::length_line))]
pub fn head_len(head: &Head) -> u128
    ensures value { result ≡ length (ended (line_of head_line head.now)) }
    ensures at_most { result < 2 ^ 66 }
{
    8 + (1 + head.who.len() as u128) + 6 + number_len(head.front) + 4 + end_len(head.end) + 1
}

/// station I next N drawn N handled N SHAPE
pub fn station_len(station: u32, saved: &Saved) -> u128
    ensures value { result ≡ length (ended (line_of (station_line station 0) saved.now)) }
    ensures at_most { result < 2 ^ 73 }
{
    let numbers = number_len(u64::from(station)) + number_len(saved.next) + number_len(saved.drawn);
    7 + numbers + 5 + 6 + 8 + number_len(saved.handled) + shape_len(&saved.shape) + 1
}

/// pending N
#[tactic(auto, using(crate::proofs::SpacedWords::length_line))]
pub fn pending_len(count: u64) -> u128
    ensures value { result ≡ length (ended (line_of pending_line count)) }
    ensures at_most { result < 2 ^ 6 }
{
    7 + number_len(count) + 1
}

/// TIME SENDER NUMBER TO PAYLOAD
#[tactic(auto, using(crate::proofs::SpacedWords::length_line))]
pub fn message_len(message: &Msg) -> u128
    ensures value { result ≡ length (ended (line_of message_line message.now)) }
    ensures at_most { result < 2 ^ 67 }
{
    let key = number_len(message.key.time) + number_len(u64::from(message.key.sender));
    let rest = number_len(message.key.number) + number_len(u64::from(message.to));
    // the first word has no space, and the line has a line feed
    key + rest + payload_len(&message.payload)
}

/// trace N
#[tactic(auto, using(crate::proofs::SpacedWords::length_line))]
pub fn trace_len(count: u64) -> u128
    ensures value { result ≡ length (ended (line_of trace_line count)) }
    ensures at_most { result < 2 ^ 6 }
{
    5 + number_len(count) + 1
}
