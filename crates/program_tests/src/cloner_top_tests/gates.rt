//! Tests of the gate: it is called once for each station and window, in each mode and with any number of workers.
use super::{FAST, GOOD, Outcome, count_of, run_program, run_with_watches, texts};
use crew_pool::Gate;
use sample_models::{BUSY, CLINIC, ONE_DESK};
use sim_base::NoMemory;
use std::alloc::Global;
use std::sync::Wait;
use std::sync::atomic::{AtomicU64, Ordering};
use std::test::Fail;
use std::thread::Threads;

/// Counts the calls before stations.
#[derive(Drop)]
struct Calls {
    all: AtomicU64,
    // the calls before the first station: one in each window
    windows: AtomicU64,
    // of the first 21 calls: three bits for each three calls, one for each station
    tasks: AtomicU64,
}

impl Calls {
    fn new() -> Calls {
        Calls {
            all: AtomicU64::new(0),
            windows: AtomicU64::new(0),
            tasks: AtomicU64::new(0),
        }
    }

    /// The number of calls, and how many of them were before the first station.
    fn counts(&self) -> (u64, u64) {
        (
            self.all.load(Ordering::SeqCst),
            self.windows.load(Ordering::SeqCst),
        )
    }
}

impl Gate for Calls {
    fn before(&self, _worker: u32, task: u32) {
        let call = self.all.fetch_add(1, Ordering::SeqCst);
        if task == 0 {
            self.windows.fetch_add(1, Ordering::SeqCst);
        }
        if call < 21 && task < 3 {
            let window = (call / 3) as u32;
            self.tasks
                .fetch_or(1 << (3 * window + task), Ordering::SeqCst);
        }
    }

    fn before_call(&self, _analyst: u32, _k: u32) {}
}

/// A study in a mode, with its windows or rounds, and its stations.
#[derive(Clone, Copy)]
struct Case<'a> {
    mode: &'a str,
    model: &'a str,
    script: &'a str,
    watches: Option<&'a str>,
    windows: u64,
    stations: u64,
}

/// The worked example: its windows end at 5, 7, 10, 13, 15, 17 and 20.
const WORKED: Case<'static> = Case {
    mode: "run",
    model: ONE_DESK,
    script: FAST,
    watches: None,
    windows: 7,
    stations: 3,
};

/// Windows that end at 9,001, 18,001 and 27,000. With several workers a crew steps the last two.
const LARGE: Case<'static> = Case {
    mode: "run",
    model: BUSY,
    script: "",
    watches: None,
    windows: 3,
    stations: 2,
};

/// In `watch` the windows end at 5, 7, 10, 12, 15, 17 and 20, since a branch changes at 10. In `links` the station
/// `gate` is at the horizon after one round, `desk` after two and `out` after three.
const CASES: &[Case] = &[
    WORKED,
    Case {
        mode: "stats",
        ..WORKED
    },
    Case {
        mode: "watch",
        script: "",
        watches: Some("watch base desk wait 1 fork help set desk servers 2\n"),
        ..WORKED
    },
    Case {
        mode: "live",
        script: "",
        ..WORKED
    },
    Case {
        mode: "links",
        windows: 3,
        ..WORKED
    },
    LARGE,
    Case {
        mode: "live",
        ..LARGE
    },
    Case {
        mode: "links",
        windows: 2,
        ..LARGE
    },
];

impl<'a> Case<'a> {
    /// The result of the study with this gate and this number of workers.
    fn run<R: Threads + Wait + Sync>(
        &self,
        rt: &R,
        alloc: Global,
        gate: &Calls,
        workers: &str,
    ) -> Result<Outcome, NoMemory> {
        let (model, script, watches) = (self.model, self.script, self.watches);
        if watches.is_none() {
            let words = [self.mode, "m", "s", "--workers", workers];
            return run_program(rt, alloc, gate, &words, model, script, &GOOD);
        }
        let words = [self.mode, "m", "s", "w", "--workers", workers];
        run_with_watches(rt, alloc, gate, &words, model, script, watches, &GOOD)
    }

    /// Whether a run with this number of workers has status 0 and calls the gate once for each station and window.
    fn is_counted<R: Threads + Wait + Sync>(&self, rt: &R, alloc: Global, workers: &str) -> bool {
        let gate = Calls::new();
        let Ok(ended) = self.run(rt, alloc, &gate, workers) else {
            return false;
        };
        let (all, windows) = gate.counts();
        ended.status == 0 && windows == self.windows && all == windows.saturating_mul(self.stations)
    }
}

#[test]
fn each_mode_is_counted(rt: HostRuntime) -> Result<(), Fail> {
    for case in CASES {
        for workers in ["1", "4"] {
            assert!(rt;
                case.is_counted(&rt, rt.alloc(), workers),
                "{} with {}",
                case.mode,
                workers
            );
        }
    }
    Ok(())
}

/// Each three consecutive calls have one each of tasks 0, 1 and 2: the three stations in each of seven windows.
#[test]
fn windows_counted(rt: HostRuntime) -> Result<(), Fail> {
    for workers in ["1", "4"] {
        let gate = Calls::new();
        let ended = WORKED.run(&rt, rt.alloc(), &gate, workers)?;
        assert!(rt;
            ended.status == 0 && gate.counts() == (21, 7),
            "{}",
            workers
        );
        assert!(rt;
            gate.tasks.load(Ordering::SeqCst) == 0x1f_ffff,
            "{}",
            workers
        );
    }
    Ok(())
}

/// Whether the clinic in rounds, by a crew, ends with the number of rounds that the gate counted, and the gate is
/// called once for each station and round.
fn has_rounds<R: Threads + Wait + Sync>(rt: &R, alloc: Global) -> Result<bool, NoMemory> {
    let gate = Calls::new();
    let case = Case {
        mode: "links",
        model: CLINIC,
        script: texts::CLINIC_SCRIPT,
        ..WORKED
    };
    let ended = case.run(rt, alloc, &gate, "4")?;
    let (all, rounds) = gate.counts();
    let stations = u64::from(count_of(CLINIC.as_bytes(), b"[[station]]"));
    let line = format!(in alloc; "\nrounds {rounds}\n")?;
    Ok(
        ended.status == 0
            && ended.output().ends_with(line.as_bytes())
            && all == rounds.saturating_mul(stations),
    )
}

#[test]
fn rounds_of_a_crew_counted(rt: HostRuntime) {
    assert!(rt; has_rounds(&rt, rt.alloc()) == Ok(true));
}

/// The calls in a generated study: all of them, and those before the first station. The report has a line for each
/// station, and two more.
fn generated<R: Threads + Wait + Sync>(
    rt: &R,
    alloc: Global,
    workers: &str,
) -> Result<(u64, u64), NoMemory> {
    let gate = Calls::new();
    let words = ["gen", "7", "--workers", workers];
    let ended = run_program(rt, alloc, &gate, &words, "", "", &GOOD)?;
    let (all, windows) = gate.counts();
    let stations = u64::from(count_of(ended.output(), b"\n").saturating_sub(2));
    if ended.status != 0 || all != windows.saturating_mul(stations) {
        return Err(NoMemory);
    }
    Ok((all, windows))
}

#[test]
fn windows_of_a_generated_study_counted(rt: HostRuntime) -> Result<(), Fail> {
    let (all, windows) = generated(&rt, rt.alloc(), "1")?;
    assert!(rt; 0 < windows && windows < all, "{} of {}", windows, all);
    assert!(rt; generated(&rt, rt.alloc(), "4")? == (all, windows));
    Ok(())
}
