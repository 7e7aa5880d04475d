//! Tests of the program with files and sinks in memory.
ghost use Rattle.std.specs.Prelude.{◌≡◌, ◌<◌};

mod branches;
mod failures;
mod gates;
mod great_numbers;
mod kinds;
mod last_station;
mod links;
mod live;
mod many;
mod models;
mod refusals;
mod snapshot_faults;
mod snapshots;
mod statistics;
mod texts;
mod watches;
mod words;

use cloner_top::cloner;
use crew_pool::{Gate, NoGate};
use sample_models::ONE_DESK;
use sim_base::{NoMemory, Steps};
use sim_outer::{MemInputs, MemSink, Word};
use std::alloc::Global;
use std::marker::Brand;
use std::sync::Wait;
use std::sync::atomic::{AtomicU64, Ordering};
use std::sync::ledger::{Blank, Ledger};
use std::thread;
use std::thread::Threads;

/// The number of times that a gate checks whether the other side has come to a point, before it gives up.
const TURNS: u32 = 1_000_000;

/// Waits until a count is at least `least`. Returns `false` if it gave up.
fn comes(count: &AtomicU64, least: u64) -> bool {
    for _turn in 0..TURNS {
        if count.load(Ordering::SeqCst) >= least {
            return true;
        }
        thread::yield_now();
    }
    false
}

/// The behaviour of inputs and sinks: the calls that fail, the bytes that they take, and the capacity of the output.
#[derive(Clone, Copy)]
struct Outside<'a> {
    fetch: &'a [u32],
    put: &'a [(u32, usize)],
    error: &'a [(u32, usize)],
    takes: usize,
}

const GOOD: Outside<'static> = Outside {
    fetch: &[],
    put: &[],
    error: &[],
    takes: 8_000_000,
};

/// How the program ended, and what its sinks hold.
#[derive(Drop)]
struct Outcome {
    status: u8,
    out: MemSink,
    err: MemSink,
}

impl Outcome {
    fn output(&self) -> &[u8] {
        self.out.bytes()
    }

    fn errors(&self) -> &[u8] {
        self.err.bytes()
    }

    fn is(&self, status: u8, output: &[u8], errors: &str) -> bool {
        self.status == status && self.output() == output && self.errors() == errors.as_bytes()
    }
}

/// A command over a model in the file `m` and a script or a snapshot in the file `s`, with its result. In the model the
/// first `old` is replaced by `new`.
#[derive(Clone, Copy)]
struct Row<'a> {
    shows: &'a str,
    words: &'a [&'a str],
    model: &'a str,
    old: &'a str,
    new: &'a str,
    script: &'a str,
    status: u8,
    traces: &'a str,
    report: &'a str,
    errors: &'a str,
}

/// `run` of the model in `m` and the script in `s`.
const RUN: &[&str] = &["run", "m", "s"];

/// `solo` of their base clone.
const SOLO_BASE: &[&str] = &["solo", "m", "s", "--clone", "base"];

/// `live` of these files.
const LIVE: &[&str] = &["live", "m", "s"];

/// `watch` of these files and the watches in `w`.
const WATCH: &[&str] = &["watch", "m", "s", "w"];

/// `save` of the base clone of the model in `m` and the script in `s`, until 10.
const SAVE_10: &[&str] = &["save", "m", "s", "--clone", "base", "--until", "10"];

/// `resume` of the model in `m` and the snapshot in `s`.
const RESUME: &[&str] = &["resume", "m", "s"];

/// The error lines for a file that is not read, and for output that is cut off.
const NO_MODEL: &str = "cloner: cannot read the model\n";

const NO_SCRIPT: &str = "cloner: cannot read the script\n";

const NO_WATCHES: &str = "cloner: cannot read the watches\n";

const NO_SNAPSHOT: &str = "cloner: cannot read the snapshot\n";

const CUT: &str = "cloner: cannot write\n";

/// The script of the worked example: from 8 on the desk of `fast` serves for 2.
const FAST: &str = "fork fast from base
set fast at 8 desk service 2 2";

/// A run that rows change in one or two places.
const PLAIN: Row<'static> = Row {
    shows: "a run of one desk",
    words: RUN,
    model: ONE_DESK,
    old: "",
    new: "",
    script: "",
    status: 0,
    traces: texts::BASE,
    report: texts::BASE_REPORT,
    errors: "",
};

/// A run that ends with nothing written.
const REFUSED: Row<'static> = Row {
    traces: "",
    report: "",
    ..PLAIN
};

/// A run in which a station may handle three messages, and the desk gets a fourth.
const LIMIT_3: Row<'static> = Row {
    old: "lookahead",
    new: "limit = 3\nlookahead",
    status: 7,
    errors: "cloner: limit 3 met at station desk in clone base\n",
    ..REFUSED
};

impl<'a> Row<'a> {
    /// The text of its model.
    fn changed_model(&self, alloc: Global) -> Result<String, NoMemory> {
        Ok(self.model.replacen(alloc, self.old, self.new, 1)?)
    }

    fn holds<R: Threads + Wait + Sync>(&self, rt: &R, alloc: Global) -> bool {
        let Ok(model) = self.changed_model(alloc) else {
            return false;
        };
        let (words, model, script) = (self.words, model.as_str(), self.script);
        match run_program(rt, alloc, &NoGate, words, model, script, &GOOD) {
            Ok(ended) => {
                ended.status == self.status
                    && is_both(ended.output(), self.traces, self.report)
                    && ended.errors() == self.errors.as_bytes()
            }
            Err(_) => false,
        }
    }
}

/// Whether these are exactly the bytes of some traces and a report.
fn is_both(output: &[u8], traces: &str, report: &str) -> bool {
    match (output.get(..traces.len()), output.get(traces.len()..)) {
        (Some(first), Some(rest)) => first == traces.as_bytes() && rest == report.as_bytes(),
        _ => false,
    }
}

/// The number of times that a piece occurs in a text.
fn count_of(text: &[u8], piece: &[u8]) -> u32 {
    let mut count: u32 = 0;
    for at in 0..text.len() {
        if text[at..].starts_with(piece) {
            count = count.saturating_add(1);
        }
    }
    count
}

/// What follows `begin` in the output; None if it begins in another way.
fn rest_of<'a>(output: &'a [u8], begin: &[u8]) -> Option<&'a [u8]> {
    if !output.starts_with(begin) {
        return None;
    }
    output.get(begin.len()..)
}

/// Whether these are first bytes of some traces and a report.
fn begins_both(output: &[u8], traces: &str, report: &str) -> bool {
    match output.get(traces.len()..) {
        Some(rest) => output.starts_with(traces.as_bytes()) && report.as_bytes().starts_with(rest),
        None => traces.as_bytes().starts_with(output),
    }
}

fn words_of(alloc: Global, words: &[&str]) -> Result<Vec<Word>, NoMemory> {
    let mut all = Vec::new(alloc);
    for word in words {
        all.push(Word::new(alloc, word)?)?;
    }
    Ok(all)
}

fn file(alloc: Global, name: &str, text: &str) -> Result<(Word, Vec<u8>), NoMemory> {
    Ok((
        Word::new(alloc, name)?,
        Vec::from_slice(alloc, text.as_bytes())?,
    ))
}

/// A model in the file `m`, a script in the file `s` and watches in the file `w` if there are any. The given fetches
/// fail.
fn inputs_of(
    alloc: Global,
    model: &str,
    script: &str,
    watches: Option<&str>,
    failing: &[u32],
) -> Result<MemInputs, NoMemory> {
    let mut files = Vec::new(alloc);
    files.push(file(alloc, "m", model)?)?;
    files.push(file(alloc, "s", script)?)?;
    if let Some(watches) = watches {
        files.push(file(alloc, "w", watches)?)?;
    }
    MemInputs::new(alloc, files, Vec::from_slice(alloc, failing)?)
}

fn sink_of(alloc: Global, takes: usize, failing: &[(u32, usize)]) -> Result<MemSink, NoMemory> {
    MemSink::new(alloc, takes, Vec::from_slice(alloc, failing)?)
}

/// The exit status of the program for these words, inputs and sinks, with the step counter of a blank.
fn cloner_counted<G: Gate + Sync, L: Ledger, R: Threads + Wait + Sync>(
    rt: &R,
    alloc: Global,
    gate: &G,
    words: &[Word],
    inputs: &mut MemInputs,
    out: &mut MemSink,
    err: &mut MemSink,
    blank: Blank,
) -> u8
    requires name { blank.name ≡ L.name }
    requires parts { blank.parts ≡ L.parts }
    requires nonempty { 0 < L.parts }
{
    let mut steps = Steps::<L>::new(blank);
    cloner(rt, alloc, words, inputs, out, err, gate, &mut steps)
}

/// The result of the program for a model in the file `m`, a script in the file `s` and watches in the file `w`.
fn run_with_watches<G: Gate + Sync, R: Threads + Wait + Sync>(
    rt: &R,
    alloc: Global,
    gate: &G,
    words: &[&str],
    model: &str,
    script: &str,
    watches: Option<&str>,
    outside: &Outside,
) -> Result<Outcome, NoMemory> {
    let words = words_of(alloc, words)?;
    let mut inputs = inputs_of(alloc, model, script, watches, outside.fetch)?;
    let mut out = sink_of(alloc, outside.takes, outside.put)?;
    let mut err = sink_of(alloc, 1000, outside.error)?;
    let status = cloner_counted::<G, Brand, R>(
        rt,
        alloc,
        gate,
        words.as_slice(),
        &mut inputs,
        &mut out,
        &mut err,
        Blank::new(1),
    );
    Ok(Outcome { status, out, err })
}

/// The result of the program for a model in the file `m` and a script in the file `s`.
fn run_program<G: Gate + Sync, R: Threads + Wait + Sync>(
    rt: &R,
    alloc: Global,
    gate: &G,
    words: &[&str],
    model: &str,
    script: &str,
    outside: &Outside,
) -> Result<Outcome, NoMemory> {
    run_with_watches(rt, alloc, gate, words, model, script, None, outside)
}
