//! Writes the words of a line, each after a space.
ghost use Rattle.std.specs.Prelude.{◌≡◌, ◌++◌, ◌∷◌, [], length, decimal, codes, OnOk};
ghost use Rattle.std.specs.List.{flat_map};
ghost use Rattle.snapshot_lines.specs.Grammar.{change_form, end_form, job_word, line_words, number_word};
ghost use Rattle.snapshot_lines.specs.Grammar.{payload_form, shape_form};
ghost use Rattle.snapshot_lines.specs.Spaced.{spaced};

use itoa::Buffer;
use sim_base::{Change, Job, NoMemory, Payload};
use stations::{JobLine, Shape};

/// Adds a number.
pub fn push_digits(out: &mut Vec<u8>, number: u64) -> Result<(), NoMemory>
    ensures value { OnOk result (out.new.items ≡ out.old.items ++ decimal number) }
{
    let mut buffer = Buffer::new();
    out.extend_from_slice(buffer.format(number).as_bytes())?;
    Ok(())
}

/// Adds a space and a word.
pub fn push_word(out: &mut Vec<u8>, word: &[u8]) -> Result<(), NoMemory>
    ensures value { OnOk result (out.new.items ≡ out.old.items ++ (32 ∷ word.now)) }
{
    out.extend_from_slice(b" ")?;
    out.extend_from_slice(word)?;
    Ok(())
}

/// Adds a space and a number.
pub fn push_number(out: &mut Vec<u8>, number: u64) -> Result<(), NoMemory>
    ensures value { OnOk result (out.new.items ≡ out.old.items ++ (32 ∷ decimal number)) }
{
    out.extend_from_slice(b" ")?;
    push_digits(out, number)
}

// Adds a dot and a number.
fn push_part(out: &mut Vec<u8>, number: u64) -> Result<(), NoMemory>
    ensures value { OnOk result (out.new.items ≡ out.old.items ++ (46 ∷ decimal number)) }
{
    out.extend_from_slice(b".")?;
    push_digits(out, number)
}

/// Adds a job.
pub fn push_job(out: &mut Vec<u8>, job: &Job) -> Result<(), NoMemory>
    ensures value { OnOk result (out.new.items ≡ out.old.items ++ spaced (job_word.write job.now)) }
{
    push_number(out, u64::from(job.source))?;
    push_part(out, job.count)?;
    push_part(out, job.born)
}

// Adds the jobs of a waiting line.
fn push_jobs(out: &mut Vec<u8>, line: &JobLine) -> Result<(), NoMemory>
    ensures value { OnOk result (out.new.items
        ≡ out.old.items ++ spaced (flat_map job_word.write line.now)) }
{
    'jobs: for place in 0..line.len() {
        push_job(out, &line.get(place))?;
    }
    Ok(())
}

// Adds the number of waiting jobs, and the jobs.
fn push_line(out: &mut Vec<u8>, line: &JobLine) -> Result<(), NoMemory>
    ensures value { OnOk result (out.new.items
        ≡ out.old.items ++ spaced (line_words.write (length line.now, line.now))) }
{
    push_number(out, line.len() as u64)?;
    push_jobs(out, line)
}

// Adds the weights of links.
fn push_weights(out: &mut Vec<u8>, weights: &[u32]) -> Result<(), NoMemory>
    ensures value { OnOk result (out.new.items
        ≡ out.old.items ++ spaced (flat_map number_word.write weights.now)) }
{
    'weights: for weight in weights {
        push_number(out, u64::from(*weight))?;
    }
    Ok(())
}

// Adds a keyword and three numbers.
fn push_three(
    out: &mut Vec<u8>,
    keyword: &[u8],
    lo: u64,
    hi: u64,
    count: u64,
) -> Result<(), NoMemory>
    ensures value { OnOk result (out.new.items
        ≡ out.old.items ++ spaced (keyword.now ∷ decimal lo ∷ decimal hi ∷ decimal count ∷ [])) }
{
    push_word(out, keyword)?;
    push_number(out, lo)?;
    push_number(out, hi)?;
    push_number(out, count)
}

// Adds four numbers.
fn push_four(out: &mut Vec<u8>, a: u64, b: u64, c: u64, d: u64) -> Result<(), NoMemory>
    ensures value { OnOk result (out.new.items
        ≡ out.old.items ++ spaced (decimal a ∷ decimal b ∷ decimal c ∷ decimal d ∷ [])) }
{
    push_number(out, a)?;
    push_number(out, b)?;
    push_number(out, c)?;
    push_number(out, d)
}

// Adds a server's counts, and the keyword of its waiting line.
fn push_counts(out: &mut Vec<u8>, busy: u64, done: u64, lost: u64) -> Result<(), NoMemory>
    ensures value { OnOk result (out.new.items
        ≡ out.old.items ++ spaced (decimal busy ∷ decimal done ∷ decimal lost ∷ codes "line" ∷ [])) }
{
    push_number(out, busy)?;
    push_number(out, done)?;
    push_number(out, lost)?;
    push_word(out, b"line")
}

/// Adds a shape. Its words are the same whatever the number of links.
#[tactic(auto, using(crate::proofs::SpacedWords::spaced_append))]
pub fn push_shape(out: &mut Vec<u8>, shape: &Shape) -> Result<(), NoMemory>
    ensures value { OnOk result (out.new.items ≡ out.old.items ++ spaced ((shape_form 0).write shape.now)) }
{
    match shape {
        Shape::Source { lo, hi, sent } => push_three(out, b"source", *lo, *hi, *sent),
        Shape::Server {
            servers,
            room,
            lo,
            hi,
            busy,
            done,
            lost,
            line,
        } => {
            push_word(out, b"server")?;
            push_four(out, u64::from(*servers), u64::from(*room), *lo, *hi)?;
            push_counts(out, *busy, *done, *lost)?;
            push_line(out, line)
        }
        Shape::Delay { lo, hi, passed } => push_three(out, b"delay", *lo, *hi, *passed),
        Shape::Router { passed, weights } => {
            push_word(out, b"router")?;
            push_number(out, *passed)?;
            push_weights(out, weights.as_slice())
        }
        Shape::Sink { got, stay } => {
            push_word(out, b"sink")?;
            push_number(out, *got)?;
            push_number(out, *stay)
        }
    }
}

// Adds a parameter and its values.
fn push_change(out: &mut Vec<u8>, change: &Change) -> Result<(), NoMemory>
    ensures value { OnOk result (out.new.items ≡ out.old.items ++ spaced (change_form.write change.now)) }
{
    push_word(out, change.param.word().as_bytes())?;
    push_number(out, change.a)?;
    if change.param.values() == 1 {
        return Ok(());
    }
    push_number(out, change.b)
}

/// Adds a payload.
pub fn push_payload(out: &mut Vec<u8>, payload: &Payload) -> Result<(), NoMemory>
    ensures value { OnOk result (out.new.items ≡ out.old.items ++ spaced (payload_form.write payload.now)) }
{
    match payload {
        Payload::Tick => push_word(out, b"tick"),
        Payload::Job(job) => {
            push_word(out, b"job")?;
            push_job(out, job)
        }
        Payload::Done(job) => {
            push_word(out, b"done")?;
            push_job(out, job)
        }
        Payload::Set(change) => {
            push_word(out, b"set")?;
            push_change(out, change)
        }
    }
}

/// Adds a clone's end, or a hyphen.
pub fn push_end(out: &mut Vec<u8>, end: Option<u64>) -> Result<(), NoMemory>
    ensures value { OnOk result (out.new.items ≡ out.old.items ++ spaced (end_form.write end)) }
{
    match end {
        Some(end) => push_number(out, end),
        None => push_word(out, b"-"),
    }
}
