//! Tests of live studies: analysts decide and look while the engine runs.
use super::{
    CUT, GOOD, LIMIT_3, LIVE, Outcome, Outside, RUN, comes, count_of, is_both, models, run_program,
    texts,
};
use crew_pool::{Gate, NoGate};
use sample_models::{BUSY, CLINIC, ONE_DESK, QUIET_JOURNAL};
use sim_base::NoMemory;
use std::alloc::Global;
use std::sync::Wait;
use std::sync::atomic::{AtomicU64, Ordering};
use std::test::Fail;
use std::thread::Threads;

/// The position of a piece in a text.
fn place_of(text: &[u8], piece: &[u8]) -> Option<usize> {
    for at in 0..text.len() {
        if text[at..].starts_with(piece) {
            return Some(at);
        }
    }
    None
}

/// Whether a piece occurs in a text.
fn has(text: &[u8], piece: &str) -> bool {
    place_of(text, piece.as_bytes()).is_some()
}

/// The result of `live` for one desk.
fn live<G: Gate + Sync, R: Threads + Wait + Sync>(
    rt: &R,
    alloc: Global,
    gate: &G,
    workers: &str,
    script: &str,
) -> Result<Outcome, NoMemory> {
    let words = ["live", "m", "s", "--workers", workers];
    run_program(rt, alloc, gate, &words, ONE_DESK, script, &GOOD)
}

/// Whether a live study writes these three texts and nothing else.
fn is_whole(live: &Outcome, journal: &str, traces: &str, report: &str) -> bool {
    let Some(rest) = live.output().get(journal.len()..) else {
        return false;
    };
    live.status == 0
        && live.errors().is_empty()
        && live.output().starts_with(journal.as_bytes())
        && is_both(rest, traces, report)
}

/// Without decisions and looks the journal cannot vary, and the rest is the output of `run`.
#[test]
fn nobody_decides(rt: HostRuntime) -> Result<(), Fail> {
    for workers in ["1", "4", "16"] {
        let live = live(&rt, rt.alloc(), &NoGate, workers, "")?;
        assert!(rt;
            is_whole(&live, QUIET_JOURNAL, texts::BASE, texts::BASE_REPORT),
            "{}",
            workers
        );
    }
    Ok(())
}

/// Two analysts of three looks each.
const SIX_LOOKS: &str = "look base gate
look base desk
look base till
analyst ben
look base gate
look fast desk
look base out
";

/// The fronts up to the one at which the limit is met.
const FRONTS_TO_LIMIT: &str =
    "journal 0 5\n# front 5\n# front 7\n# front 10\n# front 13\n# front 15\nlooks 6\n";

/// Whether six looks are reported, two of them at missing clones or stations.
fn has_six_looks(errors: &[u8]) -> bool {
    count_of(errors, b"\nlook ") == 6
        && has(errors, "look main base till unknown\n")
        && has(errors, "look ben fast desk front=")
        && has(errors, " absent\n")
}

/// The result of `live` for one desk that meets its limit.
fn live_to_limit<R: Threads + Wait + Sync>(
    rt: &R,
    alloc: Global,
    script: &str,
    outside: &Outside<'_>,
) -> Result<Outcome, NoMemory> {
    let model = LIMIT_3.changed_model(alloc)?;
    run_program(rt, alloc, &NoGate, LIVE, model.as_str(), script, outside)
}

/// Fronts up to the one at which the limit is met, six looks, and then the error line.
#[test]
fn limit_met_beside_lookers(rt: HostRuntime) -> Result<(), Fail> {
    let ended = live_to_limit(&rt, rt.alloc(), SIX_LOOKS, &GOOD)?;
    let errors = ended.errors();
    assert!(rt; ended.status == 7 && ended.output().is_empty());
    assert!(rt; errors.starts_with(FRONTS_TO_LIMIT.as_bytes()) && has_six_looks(errors));
    assert!(rt; errors.ends_with(LIMIT_3.errors.as_bytes()));
    Ok(())
}

/// If the error sink fails on the journal, the error line does not follow; the status is the same.
#[test]
fn journal_is_cut_off(rt: HostRuntime) -> Result<(), Fail> {
    let outside = Outside {
        error: &[(1, 12)],
        ..GOOD
    };
    let ended = live_to_limit(&rt, rt.alloc(), "", &outside)?;
    assert!(rt; ended.is(7, &[], "journal 0 5\n"));
    Ok(())
}

/// Whether `live` of one desk is cut off if a put fails: exactly these bytes are written.
fn is_cut<R: Threads + Wait + Sync>(
    rt: &R,
    alloc: Global,
    outside: &Outside<'_>,
    output: &[u8],
    errors: &str,
) -> bool {
    match run_program(rt, alloc, &NoGate, LIVE, ONE_DESK, "", outside) {
        Ok(ended) => ended.is(8, output, errors),
        Err(_) => false,
    }
}

/// Whether `live` of one desk is cut off in the put of this text, which begins after `before` bytes of the whole; and
/// the same with an error sink that also fails.
fn put_fails<R: Threads + Wait + Sync>(
    rt: &R,
    alloc: Global,
    put: u32,
    whole: &[u8],
    before: usize,
    length: usize,
) -> bool {
    for taken in [0, 1, length.saturating_sub(1), length] {
        let Some(part) = whole.get(..before.saturating_add(taken)) else {
            return false;
        };
        let put = &[(put, taken)];
        let outside = Outside { put, ..GOOD };
        let silent = Outside {
            put,
            error: &[(1, 6)],
            ..GOOD
        };
        if !is_cut(rt, alloc, &outside, part, CUT) || !is_cut(rt, alloc, &silent, part, "cloner") {
            return false;
        }
    }
    true
}

/// All that `live` of one desk writes.
fn whole_output(alloc: Global) -> Result<Vec<u8>, NoMemory> {
    let mut whole = Vec::from_slice(alloc, QUIET_JOURNAL.as_bytes())?;
    whole.extend_from_slice(texts::BASE.as_bytes())?;
    whole.extend_from_slice(texts::BASE_REPORT.as_bytes())?;
    Ok(whole)
}

/// Each put of a live study fails, one after the other: the journal, the trace and the report.
#[test]
fn live_output_is_cut_off(rt: HostRuntime) -> Result<(), Fail> {
    let whole = whole_output(rt.alloc())?;
    let mut before: usize = 0;
    let mut put: u32 = 0;
    for text in [QUIET_JOURNAL, texts::BASE, texts::BASE_REPORT] {
        put = put.saturating_add(1);
        assert!(rt;
            put_fails(&rt, rt.alloc(), put, whole.as_slice(), before, text.len()),
            "{}",
            put
        );
        before = before.saturating_add(text.len());
    }
    Ok(())
}

/// Holds the first task until the first analyst's second call, and that call until the first task has begun.
#[derive(Drop)]
struct CallsBesideTasks {
    tasks: AtomicU64,
    calls: AtomicU64,
    missed: AtomicU64,
}

impl Gate for CallsBesideTasks {
    fn before(&self, _worker: u32, _task: u32) {
        if self.tasks.fetch_add(1, Ordering::SeqCst) == 0 && !comes(&self.calls, 1) {
            self.missed.store(1, Ordering::SeqCst);
        }
    }

    fn before_call(&self, analyst: u32, k: u32) {
        if analyst == 1 && k == 1 {
            self.calls.fetch_add(1, Ordering::SeqCst);
            if !comes(&self.tasks, 1) {
                self.missed.store(1, Ordering::SeqCst);
            }
        }
    }
}

/// Whether a fork is accepted, and a set after the first front is refused as late or closed.
fn is_late(output: &[u8]) -> bool {
    let first = place_of(output, b"# front 5\n").unwrap_or(output.len());
    let late = place_of(output, b"# refused 11 front ").unwrap_or(0);
    let closed = place_of(output, b"# refused 2: set").unwrap_or(0);
    has(output, "analyst main\nfork x from base\n") && (first < late || first < closed)
}

/// The fork is accepted, and the set, submitted while the first window runs, is late or closed.
#[test]
fn calls_during_run(rt: HostRuntime) -> Result<(), Fail> {
    let script = "fork x from base\nset base at 0 desk room 5\n";
    let gate = CallsBesideTasks {
        tasks: AtomicU64::new(0),
        calls: AtomicU64::new(0),
        missed: AtomicU64::new(0),
    };
    let live = live(&rt, rt.alloc(), &gate, "1", script)?;
    assert!(rt; live.status == 0 && gate.missed.load(Ordering::SeqCst) == 0);
    assert!(rt; gate.calls.load(Ordering::SeqCst) == 1 && is_late(live.output()));
    Ok(())
}

/// Holds a look until the fourth task of the run has begun.
#[derive(Drop)]
struct LooksBesideTasks {
    tasks: AtomicU64,
    looks: AtomicU64,
    missed: AtomicU64,
}

impl Gate for LooksBesideTasks {
    fn before(&self, _worker: u32, _task: u32) {
        self.tasks.fetch_add(1, Ordering::SeqCst);
    }

    fn before_call(&self, _analyst: u32, _k: u32) {
        self.looks.fetch_add(1, Ordering::SeqCst);
        if !comes(&self.tasks, 4) {
            self.missed.store(1, Ordering::SeqCst);
        }
    }
}

/// The fourth task belongs to the second window, so the racks of the first were published before the look.
#[test]
fn looks_during_run(rt: HostRuntime) -> Result<(), Fail> {
    let gate = LooksBesideTasks {
        tasks: AtomicU64::new(0),
        looks: AtomicU64::new(0),
        missed: AtomicU64::new(0),
    };
    let live = live(&rt, rt.alloc(), &gate, "1", "look base gate\n")?;
    let output = live.output();
    assert!(rt; live.status == 0 && gate.missed.load(Ordering::SeqCst) == 0);
    assert!(rt; gate.looks.load(Ordering::SeqCst) == 1);
    assert!(rt; has(output, "look main base gate front=") && !has(output, "front=0 "));
    Ok(())
}

/// Holds one task until a second worker has begun a task.
#[derive(Drop)]
struct WorkersMeet {
    /// The number of tasks that begin before the held one.
    before: u64,
    tasks: AtomicU64,
    missed: AtomicU64,
}

impl Gate for WorkersMeet {
    fn before(&self, _worker: u32, _task: u32) {
        // while this task is held, only another worker can begin one
        let task = self.tasks.fetch_add(1, Ordering::SeqCst);
        if task == self.before && !comes(&self.tasks, task.saturating_add(2)) {
            self.missed.store(1, Ordering::SeqCst);
        }
    }

    fn before_call(&self, _analyst: u32, _k: u32) {}
}

/// Whether two workers meet in a busy window.
fn meet<R: Threads + Wait + Sync>(rt: &R, alloc: Global, mode: &str) -> bool {
    let gate = WorkersMeet {
        before: 2,
        tasks: AtomicU64::new(0),
        missed: AtomicU64::new(0),
    };
    let words = [mode, "m", "s", "--workers", "2"];
    match run_program(rt, alloc, &gate, &words, BUSY, "", &GOOD) {
        Ok(ended) => {
            ended.status == 0
                && gate.tasks.load(Ordering::SeqCst) > gate.before
                && gate.missed.load(Ordering::SeqCst) == 0
        }
        Err(_) => false,
    }
}

/// The caller steps the first window of two stations. It is so large that the second one goes to the crew.
#[test]
fn workers_meet(rt: HostRuntime) -> Result<(), Fail> {
    for mode in ["run", "live"] {
        assert!(rt; meet(&rt, rt.alloc(), mode), "{}", mode);
    }
    Ok(())
}

/// Four analysts, whose decisions come in any order.
const FOUR: &str = "fork a from base
set a at 8 desk service 2 2
analyst ben
fork b from base
set b at 12 desk room 0
analyst cyd
fork c from a
set c at 15 desk servers 2
analyst dan
fork d from b
end d at 18
";

/// The calls and fronts of a journal without looks, and the output after it.
fn split_journal(output: &[u8]) -> Option<(&[u8], &[u8])> {
    let head = place_of(output, b"\n")?;
    let looks = place_of(output, b"\nlooks 0\n")?;
    let events = output.get(head.saturating_add(1)..looks.saturating_add(1))?;
    let behind = output.get(looks.saturating_add(9)..)?;
    Some((events, behind))
}

/// The lines of a journal that are not comments.
fn without_comments(alloc: Global, events: &[u8]) -> Result<Vec<u8>, NoMemory> {
    let mut script = Vec::new(alloc);
    let mut begins = true;
    let mut comment = false;
    for byte in events {
        if begins {
            comment = *byte == b'#';
        }
        begins = *byte == b'\n';
        if !comment {
            script.push(*byte)?;
        }
    }
    Ok(script)
}

/// Whether `run` of the model writes this, with a journal without comments as its script.
fn repeats<R: Threads + Wait + Sync>(
    rt: &R,
    alloc: Global,
    model: &str,
    events: &[u8],
    behind: &[u8],
) -> bool {
    let Ok(script) = without_comments(alloc, events) else {
        return false;
    };
    let Ok(script) = std::str::from_utf8(script.as_slice()) else {
        return false;
    };
    match run_program(rt, alloc, &NoGate, RUN, model, script, &GOOD) {
        Ok(again) => again.is(0, behind, ""),
        Err(_) => false,
    }
}

/// Whether `run` with the journal of a live study writes what the study wrote.
fn is_repeated<R: Threads + Wait + Sync>(rt: &R, alloc: Global, workers: &str) -> bool {
    let Ok(live) = live(rt, alloc, &NoGate, workers, FOUR) else {
        return false;
    };
    match split_journal(live.output()) {
        Some((events, behind)) => {
            live.status == 0 && repeats(rt, alloc, ONE_DESK, events, behind)
        }
        None => false,
    }
}

/// Whether this holds for 25 studies, one after the other.
fn are_repeated<R: Threads + Wait + Sync>(rt: &R, alloc: Global, workers: &str) -> bool {
    for _time in 0..25u32 {
        if !is_repeated(rt, alloc, workers) {
            return false;
        }
    }
    true
}

#[test]
fn journals_are_repeated(rt: HostRuntime) -> Result<(), Fail> {
    for workers in ["1", "4"] {
        assert!(rt; are_repeated(&rt, rt.alloc(), workers), "{}", workers);
    }
    Ok(())
}

/// A journal that is longer than a script may be, and has only comments.
#[test]
fn a_long_journal_is_repeated(rt: HostRuntime) -> Result<(), Fail> {
    let ended = run_program(
        &rt,
        rt.alloc(),
        &NoGate,
        LIVE,
        models::MANY_FRONTS,
        "",
        &GOOD,
    )?;
    assert!(rt; ended.status == 0 && ended.errors().is_empty());
    let (events, behind) = split_journal(ended.output()).ok_or(NoMemory)?;
    assert!(rt; events.len() > 1_048_576);
    assert!(rt; repeats(&rt, rt.alloc(), models::MANY_FRONTS, events, behind));
    Ok(())
}

/// Pushes an analyst's section with this number of lines; the first analyst's has no name line.
fn push_section(
    alloc: Global,
    text: &mut String,
    analyst: u32,
    lines: u32,
) -> Result<(), NoMemory> {
    if analyst > 1 {
        let head = format!(in alloc; "analyst a{analyst}\n")?;
        text.push_str(head.as_str())?;
    }
    for _line in 0..lines {
        text.push_str("set base at 19 desk room 5\n")?;
    }
    Ok(())
}

/// Sixteen analysts with this number of lines each.
fn sixteen(alloc: Global, lines: u32) -> Result<String, NoMemory> {
    let mut text = String::new(alloc);
    for analyst in 1..=16u32 {
        push_section(alloc, &mut text, analyst, lines)?;
    }
    Ok(text)
}

/// Whether a live study of this script fills its journal.
fn is_full<R: Threads + Wait + Sync>(rt: &R, alloc: Global, workers: &str, script: &str) -> bool {
    match live(rt, alloc, &NoGate, workers, script) {
        Ok(live) => {
            live.status == 0
                && live.output().starts_with(b"journal 4096 7\n")
                && count_of(live.output(), b"\nanalyst a16\n") == 256
        }
        Err(_) => false,
    }
}

/// The maximum number of decisions in a journal: none is missing.
#[test]
fn full_journal(rt: HostRuntime) -> Result<(), Fail> {
    let script = sixteen(rt.alloc(), 256)?;
    for workers in ["1", "4", "16"] {
        assert!(rt;
            is_full(&rt, rt.alloc(), workers, script.as_str()),
            "{}",
            workers
        );
    }
    Ok(())
}

/// Whether the journal has every fork and set of the clinic's three analysts, one of whom looks.
fn clinic_is_whole<R: Threads + Wait + Sync>(rt: &R, alloc: Global, workers: &str) -> bool {
    let words = ["live", "m", "s", "--workers", workers];
    let script = texts::CLINIC_SCRIPT;
    let Ok(ended) = run_program(rt, alloc, &NoGate, &words, CLINIC, script, &GOOD) else {
        return false;
    };
    ended.status == 0
        && ended.errors().is_empty()
        && ended.output().starts_with(b"journal 14 ")
        && has(ended.output(), "\nlooks 1\nlook ada night doctor front=")
}

#[test]
fn clinic_live(rt: HostRuntime) -> Result<(), Fail> {
    for workers in ["1", "4"] {
        assert!(rt; clinic_is_whole(&rt, rt.alloc(), workers), "{}", workers);
    }
    Ok(())
}
