//! Tests with many branches, many lines, and many workers.
use super::{FAST, GOOD, PLAIN, REFUSED, RUN, Row, models, run_program, texts};
use crew_pool::NoGate;
use sample_models::{BUSY, CLINIC, ONE_DESK};
use sim_base::NoMemory;
use std::alloc::Global;
use std::sync::Wait;
use std::test::Fail;
use std::thread::Threads;

/// This number of copies of a line.
fn lines(alloc: Global, count: u32, line: &str) -> Result<String, NoMemory> {
    let mut text = String::new(alloc);
    for _ in 0..count {
        text.push_str(line)?;
    }
    Ok(text)
}

/// This number of forks of the base.
fn forks(alloc: Global, count: u32) -> Result<String, NoMemory> {
    let mut text = String::new(alloc);
    for k in 1..=count {
        let line = format!(in alloc; "fork c{k} from base\n")?;
        text.push_str(line.as_str())?;
    }
    Ok(text)
}

/// This number of branches, each with a different set.
fn set_apart(alloc: Global, count: u32) -> Result<String, NoMemory> {
    let mut text = String::new(alloc);
    for k in 1..=count {
        let line = format!(in alloc; "fork c{k} from base\nset c{k} at 8 desk room {k}\n")?;
        text.push_str(line.as_str())?;
    }
    Ok(text)
}

/// Whether `run` with this number of workers ends with some traces and this report.
fn reports<R: Threads + Wait + Sync>(
    rt: &R,
    alloc: Global,
    workers: &str,
    script: &str,
    report: &str,
) -> bool {
    let words = ["run", "m", "s", "--workers", workers];
    match run_program(rt, alloc, &NoGate, &words, ONE_DESK, script, &GOOD) {
        Ok(ended) => {
            ended.status == 0
                && ended.errors().is_empty()
                && ended.output().ends_with(report.as_bytes())
        }
        Err(_) => false,
    }
}

const ALIKE: &str = "report
gate copies=1 handled=2 alone=512
desk copies=1 handled=4 alone=1024
out copies=1 handled=2 alone=512
total handled=8 alone=2048
";

const APART: &str = "report
gate copies=1 handled=2 alone=402
desk copies=201 handled=804 alone=1004
out copies=1 handled=2 alone=402
total handled=808 alone=1808
";

#[test]
fn hundreds_alike(rt: HostRuntime) -> Result<(), Fail> {
    let script = forks(rt.alloc(), 255)?;
    for workers in ["1", "4"] {
        assert!(rt; reports(&rt, rt.alloc(), workers, script.as_str(), ALIKE));
    }
    Ok(())
}

#[test]
fn hundreds_apart(rt: HostRuntime) -> Result<(), Fail> {
    let script = set_apart(rt.alloc(), 200)?;
    for workers in ["1", "4"] {
        assert!(rt; reports(&rt, rt.alloc(), workers, script.as_str(), APART));
    }
    Ok(())
}

/// Whether a row holds with this script.
fn holds_with<R: Threads + Wait + Sync>(rt: &R, alloc: Global, row: &Row, script: &str) -> bool {
    Row { script, ..*row }.holds(rt, alloc)
}

#[test]
fn a_256th_fork(rt: HostRuntime) -> Result<(), Fail> {
    let row = Row {
        status: 6,
        errors: "cloner: decision: refusal 5 at line 256\n",
        ..REFUSED
    };
    assert!(rt; holds_with(&rt, rt.alloc(), &row, forks(rt.alloc(), 256)?.as_str()));
    Ok(())
}

#[test]
fn a_257th_set(rt: HostRuntime) -> Result<(), Fail> {
    let row = Row {
        status: 6,
        errors: "cloner: decision: refusal 9 at line 257\n",
        ..REFUSED
    };
    let sets = lines(rt.alloc(), 257, "set base at 8 desk room 5\n")?;
    assert!(rt; holds_with(&rt, rt.alloc(), &row, sets.as_str()));
    Ok(())
}

#[test]
fn a_4097th_look(rt: HostRuntime) -> Result<(), Fail> {
    let row = Row {
        status: 5,
        errors: "cloner: script: refusal 5 at line 4097\n",
        ..REFUSED
    };
    let mut looks = lines(rt.alloc(), 4096, "look base desk\n")?;
    assert!(rt; holds_with(&rt, rt.alloc(), &PLAIN, looks.as_str()));
    looks.push_str("look base desk\n")?;
    assert!(rt; holds_with(&rt, rt.alloc(), &row, looks.as_str()));
    Ok(())
}

const SPUN: &str = "report
gate copies=1 handled=1 alone=1
spin copies=1 handled=16384 alone=16384
total handled=16385 alone=16385
";

/// A router that loops until it has handled exactly as many messages as the limit.
#[test]
fn a_limit_just_kept_by_a_router(rt: HostRuntime) -> Result<(), Fail> {
    let row = Row {
        model: models::SPINNING,
        old: "100000",
        new: "16386",
        ..PLAIN
    };
    let model = row.changed_model(rt.alloc())?;
    let ended = run_program(&rt, rt.alloc(), &NoGate, RUN, model.as_str(), "", &GOOD)?;
    assert!(rt; ended.status == 0 && ended.errors().is_empty());
    assert!(rt; ended.output().ends_with(SPUN.as_bytes()));
    Ok(())
}

/// Whether the bytes are the same with one worker and with more, and the status is 0.
fn same_for_all<R: Threads + Wait + Sync>(
    rt: &R,
    alloc: Global,
    more: &str,
    model: &str,
    script: &str,
) -> bool {
    let Ok(one) = run_program(rt, alloc, &NoGate, RUN, model, script, &GOOD) else {
        return false;
    };
    let words = ["run", "m", "s", "--workers", more];
    match run_program(rt, alloc, &NoGate, &words, model, script, &GOOD) {
        Ok(many) => one.status == 0 && many.is(0, one.output(), ""),
        Err(_) => false,
    }
}

#[test]
fn any_number_of_workers(rt: HostRuntime) -> Result<(), Fail> {
    for more in ["2", "4", "16"] {
        assert!(rt;
            same_for_all(&rt, rt.alloc(), more, ONE_DESK, FAST),
            "{}",
            more
        );
    }
    Ok(())
}

/// Windows and a text made by several workers.
#[test]
fn busy_by_four_workers(rt: HostRuntime) -> Result<(), Fail> {
    assert!(rt; same_for_all(&rt, rt.alloc(), "4", BUSY, ""));
    Ok(())
}

#[test]
fn clinic_by_four_workers(rt: HostRuntime) -> Result<(), Fail> {
    assert!(rt; same_for_all(&rt, rt.alloc(), "4", CLINIC, texts::CLINIC_SCRIPT));
    Ok(())
}
