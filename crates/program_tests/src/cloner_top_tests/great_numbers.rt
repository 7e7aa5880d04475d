//! Tests of runs with numbers near those that a packed message or packed counts have, and beyond them. Nothing is lost.
use super::snapshots::Branch;
use super::{GOOD, PLAIN, RESUME, RUN, Row, SOLO_BASE, rest_of, run_program, texts};
use crew_pool::NoGate;
use sample_models::ONE_DESK;
use sim_base::NoMemory;
use std::alloc::Global;
use std::sync::Wait;
use std::test::Fail;
use std::thread::Threads;

/// The sums of stays that packed counts have: less than this.
const STAY_SUMS: u64 = 1 << 46;

/// Sums of stays at the front. The two jobs add 8 and 9.
const STAYS: &[u64] = &[
    4_832_744_177_663,
    4_832_744_177_664,
    53_984_744_177_663,
    53_984_744_177_664,
    STAY_SUMS - 18,
    STAY_SUMS - 17,
    STAY_SUMS - 16,
    STAY_SUMS - 9,
    STAY_SUMS - 8,
    STAY_SUMS - 7,
    STAY_SUMS - 1,
    STAY_SUMS,
    (1 << 48) - 1,
];

/// Whether the desk's run goes on from this sum of stays.
fn goes_on_from<R: Threads + Wait + Sync>(
    rt: &R,
    alloc: Global,
    stay: u64,
) -> Result<bool, NoMemory> {
    let (first, second) = (stay.saturating_add(8), stay.saturating_add(17));
    let sink = format!(in alloc; "sink 0 {stay}")?;
    let after_first = format!(in alloc; "stay={first}")?;
    let after_second = format!(in alloc; "stay={second}\n")?;
    let snapshot = texts::SAVED.replacen(alloc, "sink 0 0", sink.as_str(), 1)?;
    let begun = texts::BASE.replacen(alloc, "stay=8", after_first.as_str(), 1)?;
    let trace = begun.replacen(alloc, "stay=17\n", after_second.as_str(), 1)?;
    let ended = run_program(
        rt,
        alloc,
        &NoGate,
        RESUME,
        ONE_DESK,
        snapshot.as_str(),
        &GOOD,
    )?;
    Ok(ended.is(0, trace.as_bytes(), ""))
}

#[test]
fn sums_of_stays_go_past_the_packed_ones(rt: HostRuntime) -> Result<(), Fail> {
    for stay in STAYS {
        let gone_on = goes_on_from(&rt, rt.alloc(), *stay);
        assert!(rt; gone_on == Ok(true), "{}", *stay);
    }
    Ok(())
}

/// Changes that no station takes. Some have the greatest numbers of a packed message, and some greater ones.
const SETS: &[&str] = &[
    "every 67108863 1073741823",
    "every 67108864 0",
    "hold 0 1073741824",
    "service 67108863 1073741823",
    "service 4294967295 4294967295",
    "weight 0 4294967295",
    "servers 67108863",
    "servers 67108864",
    "room 67108863",
    "room 4294967295",
];

/// Appends the changes as messages of the analyst at 12 to a station, each with the next number, and their lines of
/// the trace with these counts.
fn add_sets(
    alloc: Global,
    pending: &mut String,
    trace: &mut String,
    number: u32,
    station: &str,
    name: &str,
    counts: &str,
) -> Result<(), NoMemory> {
    let mut number = number;
    for set in SETS {
        let message = format!(in alloc; "12 0 {number} {station} set {set}\n")?;
        let line = format!(in alloc; "12 {name} analyst {number} set {set} {counts}\n")?;
        pending.push_str(message.as_str())?;
        trace.push_str(line.as_str())?;
        number = number.saturating_add(1);
    }
    Ok(())
}

/// Whether the desk's run goes on with ten such changes for each station.
fn goes_on_with_sets<R: Threads + Wait + Sync>(rt: &R, alloc: Global) -> Result<bool, NoMemory> {
    let (mut due, mut lines) = (String::new(alloc), String::new(alloc));
    add_sets(alloc, &mut due, &mut lines, 0, "1", "gate", "sent=2")?;
    let busy = "busy=1 wait=0 done=1 lost=0";
    add_sets(alloc, &mut due, &mut lines, 10, "2", "desk", busy)?;
    add_sets(alloc, &mut due, &mut lines, 20, "3", "out", "got=1 stay=8")?;
    due.push_str("13 2 2 2 done")?;
    lines.push_str("13 desk desk")?;
    let many = texts::SAVED.replacen(alloc, "pending 2", "pending 32", 1)?;
    let snapshot = many.replacen(alloc, "13 2 2 2 done", due.as_str(), 1)?;
    let trace = texts::BASE.replacen(alloc, "13 desk desk", lines.as_str(), 1)?;
    let ended = run_program(
        rt,
        alloc,
        &NoGate,
        RESUME,
        ONE_DESK,
        snapshot.as_str(),
        &GOOD,
    )?;
    Ok(ended.is(0, trace.as_bytes(), ""))
}

#[test]
fn great_changes_are_written_and_change_nothing(rt: HostRuntime) {
    assert!(rt; goes_on_with_sets(&rt, rt.alloc()) == Ok(true));
}

/// The desk with the latest horizon, the highest limit and the most jobs.
const LATE: &str = r#"lookahead = 2
horizon = 1000000000
limit = 65536
[[station]]
name = "gate"
kind = "source"
every = [3, 3]
jobs = 1000000
link = [{ to = "desk", delay = 2 }]
[[station]]
name = "desk"
kind = "server"
servers = 1
room = 5
service = [4, 4]
link = [{ to = "out", delay = 2 }]
[[station]]
name = "out"
kind = "sink"
"#;

/// Its state shortly before the horizon, with greater numbers than any run has. The sum of stays gets to 2^46 - 10,
/// and then to 2^46 + 2.
const LATE_SAVED: &str = "snapshot base front 999999990 end -
station 1 next 1048496 drawn 1048496 handled 65530 source 3 3 999998
station 2 next 1048495 drawn 1048496 handled 65530 server 1 5 4 4 1 65530 0 line 0
station 3 next 0 drawn 0 handled 65530 sink 65530 70367744177664
pending 3
999999991 2 1048490 3 job 1.999996.1
999999992 1 1048495 1 tick
999999993 2 1048494 2 done 1.999997.999999983
trace 0
";

const LATE_RESUMED: Row<'static> = Row {
    shows: "the last ten units of time",
    words: RESUME,
    model: LATE,
    script: LATE_SAVED,
    traces: "clone base
999999991 out desk 1048490 job gate.999996 got=65531 stay=70368744177654
999999992 gate gate 1048495 tick sent=999999
999999993 desk desk 1048494 done gate.999997 busy=0 wait=0 done=65531 lost=0
999999994 desk gate 1048496 job gate.999998 busy=1 wait=0 done=65531 lost=0
999999995 gate gate 1048497 tick sent=1000000
999999995 out desk 1048495 job gate.999997 got=65532 stay=70368744177666
999999997 desk gate 1048498 job gate.999999 busy=1 wait=1 done=65531 lost=0
999999998 desk desk 1048496 done gate.999998 busy=1 wait=0 done=65532 lost=0
",
    report: "",
    ..PLAIN
};

#[test]
fn a_late_run_goes_on(rt: HostRuntime) {
    assert!(rt; LATE_RESUMED.holds(&rt, rt.alloc()));
}

/// A clone whose jobs are a million units apart.
const FAR: Branch<'static> = Branch {
    shows: "jobs up to the latest horizon",
    model: LATE,
    old: "every = [3, 3]",
    new: "every = [1000000, 1000000]",
    script: "set base at 2000000 desk service 999999 1000000\n",
    clone: "base",
};

/// Whether `run` writes what `solo` writes of the clone, and then a report.
fn run_is_solo<R: Threads + Wait + Sync>(rt: &R, alloc: Global) -> Result<bool, NoMemory> {
    let model = FAR.model.replacen(alloc, FAR.old, FAR.new, 1)?;
    let model = model.as_str();
    let run = run_program(rt, alloc, &NoGate, RUN, model, FAR.script, &GOOD)?;
    let solo = run_program(rt, alloc, &NoGate, SOLO_BASE, model, FAR.script, &GOOD)?;
    match rest_of(run.output(), solo.output()) {
        Some(rest) => Ok(run.status == 0 && solo.status == 0 && rest.starts_with(b"report\n")),
        None => Ok(false),
    }
}

#[test]
fn a_long_run_goes_on_from_late_times(rt: HostRuntime) -> Result<(), Fail> {
    for until in ["500000001", "999999999"] {
        assert!(rt;
            FAR.goes_on(&rt, rt.alloc(), until) == Ok(true),
            "{}",
            until
        );
    }
    assert!(rt; run_is_solo(&rt, rt.alloc()) == Ok(true));
    Ok(())
}
