//! The program `cloner`: `main` passes the command line, the real files and the real streams to `cloner_top`.
//!
//! A planner starts it with a model, a script and a mode. Its behaviour is the contract of `cloner_top::cloner`, which
//! takes files and sinks by their traits and returns a status. Here they are the system's:
//!
//! ```text
//! words   the arguments without the program's name     inputs   files, read by name
//! output  standard output                              errors   standard error
//! ```
//!
//! If some argument is not text, `cloner` gets no words, and reports that the command line has no known form. If memory
//! runs out while the words are made, `run_words` writes the line of status 1. Its exit code is the status that
//! `cloner` returns, for inputs and sinks of every kind. `main` makes the words and the real files and sinks, and
//! returns that exit code.
//!
//! It costs what `cloner` costs; the counter of steps is not read. For real streams we prove only what their traits
//! promise, and the traits say nothing about content. What is proved of the texts holds of `cloner` for every sink
//! whose bytes are known.
#![tactic(auto)]

ghost use Rattle.std.specs.Prelude.{◌≡◌, ◌⊎◌, ◌<◌, ◌∷◌, [], ℕ, None, IfOk, OnErr};
ghost use Rattle.std.specs.Process.{exit_status};
ghost use Rattle.cloner_top.specs.Answers.{IsAnswer, IsRefused, assignment_of, outside_of};
ghost use Rattle.cloner_top.specs.Facts.{Completes};
ghost use Rattle.cloner_top.specs.Outsides.{ArePutOrCut};
ghost use Rattle.cloner_top.specs.Refusals.{error_line};

use cloner_top::{Refusal, cloner};
use crew_pool::NoGate;
use sim_base::{NoMemory, Steps};
use sim_outer::{ErrSink, FileInputs, Inputs, OutSink, Sink, Word};
use std::alloc::Global;
use std::env;
use std::io::ErrorKind;
use std::marker::Brand;
use std::process::ExitCode;
use std::rt::Env;
use std::sync::Wait;
use std::sync::ledger::{Blank, Ledger};
use std::thread::Threads;

// The words of the command line, without the program's name; none if they cannot be read as text.
fn words<R: Env + AllocGlobal>(rt: &R) -> Result<Vec<Word>, NoMemory> {
    let alloc = rt.alloc();
    let mut words = Vec::new(alloc);
    let args = match env::args(rt) {
        Ok(args) => args,
        Err(fault) if fault.kind() == ErrorKind::OutOfMemory => return Err(NoMemory),
        Err(_) => return Ok(words),
    };
    for (place, arg) in args.enumerate() {
        if place > 0 {
            words.push(Word::new(alloc, arg.as_str())?)?;
        }
    }
    Ok(words)
}

// Runs the program with these files and sinks. The exit code is the status that `cloner` returns.
fn run<I: Inputs, O: Sink, E: Sink, L: Ledger, R: Threads + Wait + Sync>(
    rt: &R,
    alloc: Global,
    words: &[Word],
    inputs: &mut I,
    out: &mut O,
    err: &mut E,
    blank: Blank,
) -> ExitCode
    requires name { blank.name ≡ L.name }
    requires parts { blank.parts ≡ L.parts }
    requires nonempty { 0 < L.parts }
    ensures answer { (n : ℕ) × IsAnswer (assignment_of words.now)
        (outside_of (I.view inputs.old) (O.view out.old) (E.view err.old) 0)
        (outside_of (I.view inputs.new) (O.view out.new) (E.view err.new) n)
        (exit_status result) }
    ensures complete { (n : ℕ) × Completes (assignment_of words.now)
        (outside_of (I.view inputs.old) (O.view out.old) (E.view err.old) 0)
        (outside_of (I.view inputs.new) (O.view out.new) (E.view err.new) n)
        (exit_status result) }
    ensures usage { (exit_status result ≡ 2 → assignment_of words.now ≡ None)
        × (assignment_of words.now ≡ None → (exit_status result ≡ 1) ⊎ (exit_status result ≡ 2)) }
{
    let mut steps = Steps::<L>::new(blank);
    let status = cloner(rt, alloc, words, inputs, out, err, &NoGate, &mut steps);
    ExitCode::from(status)
}

// Writes the error line for out of memory.
fn report_no_memory<E: Sink>(err: &mut E) -> ExitCode
    ensures status { exit_status result ≡ 1 }
    ensures told { ArePutOrCut (error_line Refusal.OutOfMemory ∷ []) (E.view err.old) (E.view err.new) }
{
    let refusal = Refusal::OutOfMemory;
    let line = refusal.line();
    let _ = err.put(line.text().as_bytes());
    ExitCode::from(refusal.status())
}

// The exit code: that of the run, or that of out of memory if the words could not be made.
fn run_words<I: Inputs, O: Sink, E: Sink, L: Ledger, R: Threads + Wait + Sync>(
    rt: &R,
    alloc: Global,
    words: Result<Vec<Word>, NoMemory>,
    inputs: &mut I,
    out: &mut O,
    err: &mut E,
    blank: Blank,
) -> ExitCode
    requires name { blank.name ≡ L.name }
    requires parts { blank.parts ≡ L.parts }
    requires nonempty { 0 < L.parts }
    // the status of `cloner`, with its effect on the files and the sinks
    ensures answer { IfOk words (λ w. (n : ℕ) × IsAnswer (assignment_of w.items)
        (outside_of (I.view inputs.old) (O.view out.old) (E.view err.old) 0)
        (outside_of (I.view inputs.new) (O.view out.new) (E.view err.new) n)
        (exit_status result)) }
    ensures complete { IfOk words (λ w. (n : ℕ) × Completes (assignment_of w.items)
        (outside_of (I.view inputs.old) (O.view out.old) (E.view err.old) 0)
        (outside_of (I.view inputs.new) (O.view out.new) (E.view err.new) n)
        (exit_status result)) }
    ensures usage { IfOk words (λ w. (exit_status result ≡ 2 → assignment_of w.items ≡ None)
        × (assignment_of w.items ≡ None → (exit_status result ≡ 1) ⊎ (exit_status result ≡ 2))) }
    // if the words could not be allocated, only the error line of status 1 is written
    ensures memory { OnErr words (exit_status result ≡ 1) }
    ensures refused { OnErr words (IsRefused
        (outside_of (I.view inputs.old) (O.view out.old) (E.view err.old) 0)
        (outside_of (I.view inputs.new) (O.view out.new) (E.view err.new) 0)
        [] Refusal.OutOfMemory) }
{
    match words {
        Ok(words) => run::<I, O, E, L, R>(rt, alloc, words.as_slice(), inputs, out, err, blank),
        Err(NoMemory) => report_no_memory(err),
    }
}

fn main(rt: HostRuntime) -> ExitCode {
    let words = words(&rt);
    let mut inputs = FileInputs::new(&rt);
    let mut out = OutSink::new(&rt);
    let mut err = ErrSink::new(&rt);
    run_words::<_, _, _, Brand, HostRuntime>(
        &rt,
        rt.alloc(),
        words,
        &mut inputs,
        &mut out,
        &mut err,
        Blank::new(1),
    )
}
