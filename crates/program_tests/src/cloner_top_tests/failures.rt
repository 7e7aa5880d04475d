//! Tests of inputs and sinks that fail.
use super::{
    CUT, FAST, GOOD, LIVE, NO_MODEL, NO_SCRIPT, NO_SNAPSHOT, Outside, RESUME, RUN, SAVE_10,
    SOLO_BASE, begins_both, run_program, texts,
};
use crew_pool::NoGate;
use sample_models::ONE_DESK;
use std::alloc::Global;
use std::sync::Wait;
use std::test::Fail;
use std::thread::Threads;

/// A run of two branches with failing calls: its status, the number of output bytes written, and the error line.
#[derive(Clone, Copy)]
struct Fault<'a> {
    shows: &'a str,
    outside: Outside<'a>,
    status: u8,
    size: usize,
    errors: &'a str,
}

impl<'a> Fault<'a> {
    fn holds<R: Threads + Wait + Sync>(&self, rt: &R, alloc: Global) -> bool {
        match run_program(rt, alloc, &NoGate, RUN, ONE_DESK, FAST, &self.outside) {
            Ok(ended) => {
                ended.status == self.status
                    && ended.output().len() == self.size
                    && begins_both(
                        ended.output(),
                        texts::BASE_AND_FAST,
                        texts::BASE_AND_FAST_REPORT,
                    )
                    && ended.errors() == self.errors.as_bytes()
            }
            Err(_) => false,
        }
    }
}

/// Whether the program ends with this line if a fetch fails.
fn is_unread<R: Threads + Wait + Sync>(
    rt: &R,
    alloc: Global,
    words: &[&str],
    fetch: u32,
    line: &str,
) -> bool {
    let outside = Outside {
        fetch: &[fetch],
        ..GOOD
    };
    match run_program(rt, alloc, &NoGate, words, ONE_DESK, FAST, &outside) {
        Ok(ended) => ended.is(3, &[], line),
        Err(_) => false,
    }
}

/// Each of the two fetches fails, in each mode that makes it.
#[test]
fn fetches_fail(rt: HostRuntime) -> Result<(), Fail> {
    for (mode, words, second) in [
        ("run", RUN, NO_SCRIPT),
        ("solo", SOLO_BASE, NO_SCRIPT),
        ("live", LIVE, NO_SCRIPT),
        ("save", SAVE_10, NO_SCRIPT),
        ("resume", RESUME, NO_SNAPSHOT),
    ] {
        assert!(rt; is_unread(&rt, rt.alloc(), words, 1, NO_MODEL), "{}", mode);
        assert!(rt; is_unread(&rt, rt.alloc(), words, 2, second), "{}", mode);
    }
    Ok(())
}

/// Whether the run is cut off after this number of bytes if put number `put` takes `taken` bytes and fails; and the
/// same with an error sink that also fails.
fn is_cut<R: Threads + Wait + Sync>(
    rt: &R,
    alloc: Global,
    put: u32,
    taken: usize,
    size: usize,
) -> bool {
    let outside = Outside {
        put: &[(put, taken)],
        ..GOOD
    };
    let cut = Fault {
        shows: "a put that fails",
        outside,
        status: 8,
        size,
        errors: CUT,
    };
    let untold = Fault {
        shows: "a put that fails, and then the line of error",
        outside: Outside {
            error: &[(1, 6)],
            ..outside
        },
        errors: "cloner",
        ..cut
    };
    cut.holds(rt, alloc) && untold.holds(rt, alloc)
}

/// Put number `put` of the run, which begins after `before` bytes and has `length`, fails after some of them.
fn put_fails<R: Threads + Wait + Sync>(
    rt: &R,
    alloc: Global,
    put: u32,
    before: usize,
    length: usize,
) -> bool {
    for taken in [0, 1, length.saturating_sub(1), length] {
        if !is_cut(rt, alloc, put, taken, before.saturating_add(taken)) {
            return false;
        }
    }
    true
}

#[test]
fn puts_fail(rt: HostRuntime) -> Result<(), Fail> {
    let first = texts::BASE.len();
    let traces = texts::BASE_AND_FAST.len();
    let report = texts::BASE_AND_FAST_REPORT.len();
    assert!(rt; put_fails(&rt, rt.alloc(), 1, 0, first));
    assert!(rt; put_fails(&rt, rt.alloc(), 2, first, traces.saturating_sub(first)));
    assert!(rt; put_fails(&rt, rt.alloc(), 3, traces, report));
    Ok(())
}

/// A sink that is full before the end cuts the output off, and one that holds exactly all of it does not.
#[test]
fn sinks_that_hold_so_much(rt: HostRuntime) -> Result<(), Fail> {
    let whole = texts::BASE_AND_FAST
        .len()
        .saturating_add(texts::BASE_AND_FAST_REPORT.len());
    let faults = [
        Fault {
            shows: "one byte too little",
            outside: Outside {
                takes: whole.saturating_sub(1),
                ..GOOD
            },
            status: 8,
            size: whole.saturating_sub(1),
            errors: CUT,
        },
        Fault {
            shows: "a sink that just takes all",
            outside: Outside {
                takes: whole,
                ..GOOD
            },
            status: 0,
            size: whole,
            errors: "",
        },
    ];
    for fault in faults {
        assert!(rt; fault.holds(&rt, rt.alloc()), "{}", fault.shows);
    }
    Ok(())
}

/// Failures of calls that are not made: those after the last, and a second error line.
#[test]
fn faults_of_no_call(rt: HostRuntime) -> Result<(), Fail> {
    let whole = texts::BASE_AND_FAST
        .len()
        .saturating_add(texts::BASE_AND_FAST_REPORT.len());
    let faults = [
        Fault {
            shows: "calls after the last",
            outside: Outside {
                fetch: &[3],
                put: &[(4, 0)],
                error: &[(1, 0)],
                ..GOOD
            },
            status: 0,
            size: whole,
            errors: "",
        },
        Fault {
            shows: "a second line that would fail",
            outside: Outside {
                fetch: &[1],
                error: &[(2, 0)],
                ..GOOD
            },
            status: 3,
            size: 0,
            errors: NO_MODEL,
        },
    ];
    for fault in faults {
        assert!(rt; fault.holds(&rt, rt.alloc()), "{}", fault.shows);
    }
    Ok(())
}

#[test]
fn solo_is_cut_off(rt: HostRuntime) -> Result<(), Fail> {
    let outside = Outside {
        put: &[(1, 7)],
        ..GOOD
    };
    let ended = run_program(&rt, rt.alloc(), &NoGate, SOLO_BASE, ONE_DESK, "", &outside)?;
    assert!(rt; ended.is(8, b"clone b", CUT));
    Ok(())
}
