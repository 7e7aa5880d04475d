//! Tests of command lines, missing files, and generated studies.
use super::{GOOD, NO_MODEL, NO_SCRIPT, NO_SNAPSHOT, PLAIN, REFUSED, Row, run_program};
use command_words::usage_line;
use crew_pool::NoGate;
use std::alloc::Global;
use std::sync::Wait;
use std::test::Fail;
use std::thread::Threads;

const USAGE: &str =
    "usage: cloner run MODEL SCRIPT [--workers N], solo MODEL SCRIPT --clone NAME, live MODEL SCRIPT [--workers N], gen NUMBER [--workers N], watch MODEL SCRIPT WATCHES [--workers N], stats MODEL SCRIPT [--workers N], save MODEL SCRIPT --clone NAME --until T, resume MODEL SNAPSHOT, links MODEL SCRIPT [--workers N]\n";

/// What a command line shows, and its words.
type Words = (&'static str, &'static [&'static str]);

const NO_FORM: &[Words] = &[
    ("no words", &[]),
    ("no script", &["run", "m"]),
    ("a third file", &["run", "m", "s", "x"]),
    ("no such mode", &["walk", "m", "s"]),
    ("an empty name", &["run", "", "s"]),
    ("a dash before a name", &["run", "m", "-s"]),
    ("no workers", &["run", "m", "s", "--workers", "0"]),
    ("17 workers", &["run", "m", "s", "--workers", "17"]),
    ("a leading zero", &["run", "m", "s", "--workers", "04"]),
    ("a sign", &["run", "m", "s", "--workers", "+1"]),
    (
        "an option twice",
        &["run", "m", "s", "--workers", "2", "--workers", "2"],
    ),
    (
        "a clone where all are run",
        &["run", "m", "s", "--clone", "base"],
    ),
    (
        "a clone where all are run live",
        &["live", "m", "s", "--clone", "x"],
    ),
    ("no clone", &["solo", "m", "s"]),
    (
        "a capital in a name",
        &["solo", "m", "s", "--clone", "Base"],
    ),
    (
        "workers for one clone",
        &["solo", "m", "s", "--clone", "base", "--workers", "2"],
    ),
    ("number 0", &["gen", "0"]),
    ("a number too great", &["gen", "1000000"]),
    ("a clone of a made study", &["gen", "7", "--clone", "base"]),
    ("no script for statistics", &["stats", "m"]),
    (
        "a clone where all have statistics",
        &["stats", "m", "s", "--clone", "base"],
    ),
    ("no time to save at", &["save", "m", "s", "--clone", "base"]),
    ("no clone to save", &["save", "m", "s", "--until", "10"]),
    (
        "no script of the clone to save",
        &["save", "m", "--clone", "base", "--until", "10"],
    ),
    (
        "a leading zero of a time",
        &["save", "m", "s", "--clone", "base", "--until", "010"],
    ),
    (
        "a time too great",
        &["save", "m", "s", "--clone", "base", "--until", "4294967296"],
    ),
    (
        "an empty time",
        &["save", "m", "s", "--clone", "base", "--until", ""],
    ),
    (
        "workers for a snapshot",
        &[
            "save",
            "m",
            "s",
            "--clone",
            "base",
            "--until",
            "1",
            "--workers",
            "2",
        ],
    ),
    (
        "a time for a whole run",
        &["solo", "m", "s", "--clone", "base", "--until", "10"],
    ),
    ("no snapshot", &["resume", "m"]),
    ("a file after the snapshot", &["resume", "m", "s", "x"]),
    (
        "a clone of a snapshot",
        &["resume", "m", "s", "--clone", "base"],
    ),
    (
        "a time for a snapshot's run",
        &["resume", "m", "s", "--until", "10"],
    ),
    ("help", &["--help"]),
];

#[test]
fn words_of_no_form(rt: HostRuntime) -> Result<(), Fail> {
    assert!(rt; usage_line() == USAGE);
    for (shows, words) in NO_FORM {
        let row = Row {
            words: *words,
            status: 2,
            errors: USAGE,
            ..REFUSED
        };
        assert!(rt; row.holds(&rt, rt.alloc()), "{}", shows);
    }
    Ok(())
}

const FORMS: &[Words] = &[
    ("before the mode", &["--workers=2", "run", "--", "m", "s"]),
    ("behind it", &["run", "--workers", "16", "m", "s"]),
    ("at the end", &["run", "m", "s", "--workers=1"]),
];

#[test]
fn options_in_every_place(rt: HostRuntime) -> Result<(), Fail> {
    for (shows, words) in FORMS {
        let row = Row {
            words: *words,
            ..PLAIN
        };
        assert!(rt; row.holds(&rt, rt.alloc()), "{}", shows);
    }
    Ok(())
}

#[test]
fn files_that_are_not_there(rt: HostRuntime) -> Result<(), Fail> {
    let model = Row {
        words: &["run", "-", "s"],
        status: 3,
        errors: NO_MODEL,
        ..REFUSED
    };
    let script = Row {
        words: &["run", "m", "-"],
        status: 3,
        errors: NO_SCRIPT,
        ..REFUSED
    };
    let snapshot = Row {
        words: &["resume", "m", "-"],
        status: 3,
        errors: NO_SNAPSHOT,
        ..REFUSED
    };
    assert!(rt; model.holds(&rt, rt.alloc()) && script.holds(&rt, rt.alloc()));
    assert!(rt; snapshot.holds(&rt, rt.alloc()));
    Ok(())
}

/// Whether a generated study with this number of workers writes this with status 0.
fn gives<R: Threads + Wait + Sync>(
    rt: &R,
    alloc: Global,
    number: &str,
    workers: &str,
    output: &[u8],
) -> bool {
    let words = ["gen", number, "--workers", workers];
    match run_program(rt, alloc, &NoGate, &words, "", "", &GOOD) {
        Ok(ended) => ended.is(0, output, ""),
        Err(_) => false,
    }
}

/// Whether a generated study writes only the report, the same with any number of workers.
fn is_made<R: Threads + Wait + Sync>(rt: &R, alloc: Global, number: &str) -> bool {
    let Ok(one) = run_program(rt, alloc, &NoGate, &["gen", number], "", "", &GOOD) else {
        return false;
    };
    one.status == 0
        && one.output().starts_with(b"report\ndoor copies=1 ")
        && gives(rt, alloc, number, "2", one.output())
        && gives(rt, alloc, number, "16", one.output())
}

#[test]
fn made_studies(rt: HostRuntime) -> Result<(), Fail> {
    for number in ["1", "7", "999999"] {
        assert!(rt; is_made(&rt, rt.alloc(), number), "{}", number);
    }
    Ok(())
}
