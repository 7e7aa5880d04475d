//! Reads numbers, jobs and shapes from words.
ghost use Rattle.std.specs.Prelude.{◌≡◌, ◌≤◌, ◌++◌, ◌∷◌, [], length, option_map, IfOk, IfSome, OnOk};
ghost use Rattle.std.proofs.Common.{inl, inr};
ghost use Rattle.snapshot_lines.specs.Forms.{many, read_as, read_then};
ghost use Rattle.decision_script.specs.declared.number.TheConstants.{MAX_NUMBER};
ghost use Rattle.net_model.specs.declared.limits.TheConstants.{MAX_LINKS};
ghost use Rattle.snapshot_lines.specs.Grammar.{number_word, stay_word, three_numbers, job_parts, job_word, line_words};
ghost use Rattle.snapshot_lines.specs.Grammar.{server_words, server_of, router_words, sink_words, to_shape, shape_form};
ghost use Rattle.snapshot_lines.specs.ServerWords.{server_with};

use crate::numbers::{MAX_STAY, number_of};
use crate::words::{Words, whole};
use arrayvec::ArrayVec;
use decision_script::words::MAX_NUMBER;
use net_model::limits::MAX_LINKS;
use sim_base::{Job, NoMemory};
use stations::{JobLine, Shape};
use std::alloc::Global;

/// What words begin with, and the words after it; None if they do not begin with it.
pub type Read<'a, A> = Option<(A, Words<'a>)>;

/// A number.
pub fn read_number<'a>(words: &Words<'a>) -> Read<'a, u64>
    ensures value { result ≡ number_word.read words.now }
    ensures at_most { IfSome result (λ p. p.0 ≤ MAX_NUMBER) }
{
    let (word, rest) = words.take()?;
    let number = number_of(word, MAX_NUMBER)?;
    Some((number, rest))
}

/// A number of 32 bits.
pub fn read_small<'a>(words: &Words<'a>) -> Read<'a, u32>
    ensures value { result ≡ number_word.read words.now }
{
    let (number, rest) = read_number(words)?;
    Some((number as u32, rest))
}

// The sum of a sink's stays.
fn read_stay<'a>(words: &Words<'a>) -> Read<'a, u64>
    ensures value { result ≡ stay_word.read words.now }
{
    let (word, rest) = words.take()?;
    let number = number_of(word, MAX_STAY)?;
    Some((number, rest))
}

// The parts of a job.
fn read_job_parts<'a>(parts: &Words<'a>) -> Read<'a, Job>
    ensures value { result ≡ job_parts.read parts.now }
{
    let (source, rest) = read_small(parts)?;
    let (count, rest) = read_number(&rest)?;
    let (born, rest) = read_number(&rest)?;
    Some((
        Job {
            source,
            count,
            born,
        },
        rest,
    ))
}

/// A job.
pub fn read_job<'a>(words: &Words<'a>) -> Read<'a, Job>
    ensures value { result ≡ job_word.read words.now }
{
    let (word, rest) = words.take()?;
    let job = whole(read_job_parts(&Words::of(word, b'.')))?;
    Some((job, rest))
}

// The jobs of a waiting line, of this number.
fn read_jobs<'a>(alloc: Global, words: Words<'a>, count: u64) -> Result<Read<'a, JobLine>, NoMemory>
    ensures value { IfOk result (λ read. read ≡ (many job_word count).read words.entry) }
{
    let mut jobs = Vec::new(alloc);
    let mut rest = words;
    let mut left = count;
    'jobs: while left > 0 {
        let Some((job, more)) = read_job(&rest) else {
            return Ok(None);
        };
        push_job(&mut jobs, job)?;
        rest = more;
        left -= 1;
    }
    Ok(Some((JobLine::of(jobs), rest)))
}

fn push_job(jobs: &mut Vec<Job>, job: Job) -> Result<(), NoMemory>
    ensures ok { OnOk result (jobs.new.items ≡ jobs.old.items ++ job ∷ []) }
{
    jobs.push(job)?;
    Ok(())
}

// The number of waiting jobs, and the jobs.
fn read_line<'a>(alloc: Global, words: &Words<'a>) -> Result<Read<'a, JobLine>, NoMemory>
    ensures value { IfOk result (λ read. read ≡ read_as (λ w. w.1) (line_words.read words.now)) }
{
    let Some((count, rest)) = read_number(words) else {
        return Ok(None);
    };
    read_jobs(alloc, rest, count)
}

// The weights of this number of links.
fn read_weights<'a>(words: Words<'a>, links: usize) -> Read<'a, ArrayVec<u32, MAX_LINKS>>
    requires at_most { links ≤ MAX_LINKS }
    ensures value { option_map (λ p. (p.0.items, p.1)) result ≡ (many number_word links).read words.entry }
{
    let mut weights = ArrayVec::new();
    let mut rest = words;
    let mut left = links;
    'weights: while left > 0 {
        let (weight, more) = read_small(&rest)?;
        weights.push(weight);
        rest = more;
        left -= 1;
    }
    Some((weights, rest))
}

fn read_source<'a>(words: &Words<'a>) -> Read<'a, Shape>
    ensures value { result ≡ read_as to_shape (read_as inl (three_numbers.read words.now)) }
{
    let (lo, rest) = read_number(words)?;
    let (hi, rest) = read_number(&rest)?;
    let (sent, rest) = read_number(&rest)?;
    Some((Shape::Source { lo, hi, sent }, rest))
}

fn read_delay<'a>(words: &Words<'a>) -> Read<'a, Shape>
    ensures value { result ≡ read_as to_shape (read_as inr (read_as inr (read_as inl (three_numbers.read words.now)))) }
{
    let (lo, rest) = read_number(words)?;
    let (hi, rest) = read_number(&rest)?;
    let (passed, rest) = read_number(&rest)?;
    Some((Shape::Delay { lo, hi, passed }, rest))
}

fn read_router<'a>(words: &Words<'a>, links: usize) -> Read<'a, Shape>
    requires at_most { links ≤ MAX_LINKS }
    ensures value { result ≡ read_as to_shape (read_as inr (read_as inr (read_as inr (read_as inl
        ((router_words links).read words.now))))) }
{
    let (passed, rest) = read_number(words)?;
    let (weights, rest) = read_weights(rest, links)?;
    Some((Shape::Router { passed, weights }, rest))
}

fn read_sink<'a>(words: &Words<'a>) -> Read<'a, Shape>
    ensures value { result ≡ read_as to_shape (read_as inr (read_as inr (read_as inr (read_as inr
        (sink_words.read words.now))))) }
{
    let (got, rest) = read_number(words)?;
    let (stay, rest) = read_stay(&rest)?;
    Some((Shape::Sink { got, stay }, rest))
}

// What a server's words say before the waiting line.
#[derive(Clone, Copy)]
struct ServerNumbers {
    servers: u32,
    room: u32,
    lo: u64,
    hi: u64,
    busy: u64,
    done: u64,
    lost: u64,
}

impl ServerNumbers {
    fn with_line(self, line: JobLine) -> Shape
        ensures value { result ≡ server_with self line }
    {
        Shape::Server {
            servers: self.servers,
            room: self.room,
            lo: self.lo,
            hi: self.hi,
            busy: self.busy,
            done: self.done,
            lost: self.lost,
            line,
        }
    }
}

// SERVERS ROOM LO HI BUSY DONE LOST line
fn read_server_numbers<'a>(words: &Words<'a>) -> Read<'a, ServerNumbers>
    ensures value { read_then result (λ numbers rest. read_as (λ w. server_with numbers w.1) (line_words.read rest))
        ≡ read_as server_of (server_words.read words.now) }
{
    let (servers, rest) = read_small(words)?;
    let (room, rest) = read_small(&rest)?;
    let (lo, rest) = read_number(&rest)?;
    let (hi, rest) = read_number(&rest)?;
    let (busy, rest) = read_number(&rest)?;
    let (done, rest) = read_number(&rest)?;
    let (lost, rest) = read_number(&rest)?;
    let rest = rest.after(b"line")?;
    Some((
        ServerNumbers {
            servers,
            room,
            lo,
            hi,
            busy,
            done,
            lost,
        },
        rest,
    ))
}

// SERVERS ROOM LO HI BUSY DONE LOST line N JOBS
fn read_server<'a>(alloc: Global, words: &Words<'a>) -> Result<Read<'a, Shape>, NoMemory>
    ensures value { IfOk result (λ read. read ≡ read_as to_shape (read_as inr (read_as inl
        (server_words.read words.now)))) }
{
    let Some((numbers, rest)) = read_server_numbers(words) else {
        return Ok(None);
    };
    match read_line(alloc, &rest)? {
        Some((line, rest)) => Ok(Some((numbers.with_line(line), rest))),
        None => Ok(None),
    }
}

/// The shape of a station with this number of links.
pub fn read_shape<'a>(
    alloc: Global,
    words: &Words<'a>,
    links: usize,
) -> Result<Read<'a, Shape>, NoMemory>
    requires at_most { links ≤ MAX_LINKS }
    ensures value { IfOk result (λ read. read ≡ (shape_form links).read words.now) }
{
    if let Some(rest) = words.after(b"source") {
        return Ok(read_source(&rest));
    }
    if let Some(rest) = words.after(b"server") {
        return read_server(alloc, &rest);
    }
    if let Some(rest) = words.after(b"delay") {
        return Ok(read_delay(&rest));
    }
    if let Some(rest) = words.after(b"router") {
        return Ok(read_router(&rest, links));
    }
    let Some(rest) = words.after(b"sink") else {
        return Ok(None);
    };
    Ok(read_sink(&rest))
}
