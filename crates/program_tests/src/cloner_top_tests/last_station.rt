//! Tests of models with 64 stations, of which the last is a source, a server or a sink. All modes agree on them.
use super::snapshots::Branch;
use super::{GOOD, RUN, WATCH, rest_of, run_program, run_with_watches};
use crew_pool::NoGate;
use sim_base::NoMemory;
use std::alloc::Global;
use std::sync::Wait;
use std::test::Fail;
use std::thread::Threads;

/// A source of three jobs.
const GATE: &str = r#"[[station]]
name = "gate"
kind = "source"
every = [3, 3]
jobs = 3
link = [{ to = "s1", delay = 2 }]
"#;

/// A server that gets them 185 later.
const DESK: &str = r#"[[station]]
name = "s62"
kind = "server"
servers = 1
room = 5
service = [4, 4]
link = [{ to = "out", delay = 2 }]
"#;

const OUT: &str = r#"[[station]]
name = "out"
kind = "sink"
"#;

/// The stations 62, 63 and 64. Before them is a chain of 61 delays.
const LAST_THREE: &[[&str; 3]] = &[[GATE, DESK, OUT], [OUT, GATE, DESK], [DESK, OUT, GATE]];

/// A watch of the desk, and the script with which `run` writes the same.
const WATCHES: &str = "watch base s62 wait 1 fork help set s62 servers 2\n";

const SCRIPT: &str = "fork help from base\nset help at 193 s62 servers 2\n";

const STATS: &str = "stats
base s62 arrived=3 lost=0 done=3 most=1 present=15 waited=3 longest=2
help s62 arrived=3 lost=0 done=3 most=1 present=13 waited=- longest=-
";

/// A model with a chain of 61 delays and three more stations.
fn model_of(alloc: Global, last_three: &[&str; 3]) -> Result<String, NoMemory> {
    let mut model = String::from_str(alloc, "lookahead = 2\nhorizon = 240\n")?;
    for k in 1..=61u32 {
        push_delay(alloc, &mut model, k)?;
    }
    let [first, second, third] = *last_three;
    model.push_str(first)?;
    model.push_str(second)?;
    model.push_str(third)?;
    Ok(model)
}

/// Appends a delay that is linked to the next station of the chain.
fn push_delay(alloc: Global, model: &mut String, k: u32) -> Result<(), NoMemory> {
    let next = k.saturating_add(1);
    let name = format!(in alloc;
        "[[station]]\nname = \"s{k}\"\nkind = \"delay\"\nhold = [1, 1]\n"
    )?;
    let link = format!(in alloc; "link = [{{ to = \"s{next}\", delay = 2 }}]\n")?;
    model.push_str(name.as_str())?;
    model.push_str(link.as_str())?;
    Ok(())
}

/// Whether `run` writes what `solo` writes of each clone, and then a report.
fn run_is_solos<R: Threads + Wait + Sync>(
    rt: &R,
    alloc: Global,
    model: &str,
    run: &[u8],
) -> Result<bool, NoMemory> {
    let mut rest = run;
    for clone in ["base", "help"] {
        let solo = ["solo", "m", "s", "--clone", clone];
        let ended = run_program(rt, alloc, &NoGate, &solo, model, SCRIPT, &GOOD)?;
        match rest_of(rest, ended.output()) {
            Some(more) if ended.status == 0 => rest = more,
            _ => return Ok(false),
        }
    }
    Ok(rest.starts_with(b"report\n"))
}

/// Whether `run` with four workers writes this, `links` and then a line, and `watch` too.
fn others_write<R: Threads + Wait + Sync>(
    rt: &R,
    alloc: Global,
    model: &str,
    run: &[u8],
) -> Result<bool, NoMemory> {
    let by_4 = ["run", "m", "s", "--workers", "4"];
    let links = ["links", "m", "s"];
    let many = run_program(rt, alloc, &NoGate, &by_4, model, SCRIPT, &GOOD)?;
    let linked = run_program(rt, alloc, &NoGate, &links, model, SCRIPT, &GOOD)?;
    let watched = run_with_watches(rt, alloc, &NoGate, WATCH, model, "", Some(WATCHES), &GOOD)?;
    let rounds = match rest_of(linked.output(), run) {
        Some(line) => linked.status == 0 && line.starts_with(b"rounds "),
        None => false,
    };
    Ok(rounds && many.is(0, run, "") && watched.is(0, run, ""))
}

/// Whether the branch is saved at each of these times, and goes on.
fn goes_on<R: Threads + Wait + Sync>(rt: &R, alloc: Global, model: &str) -> Result<bool, NoMemory> {
    let branch = Branch {
        shows: "64 stations",
        model,
        old: "",
        new: "",
        script: SCRIPT,
        clone: "help",
    };
    for until in ["4", "100", "192", "196"] {
        if !branch.goes_on(rt, alloc, until)? {
            return Ok(false);
        }
    }
    Ok(true)
}

/// Whether all modes agree on a model.
fn all_agree<R: Threads + Wait + Sync>(
    rt: &R,
    alloc: Global,
    last_three: &[&str; 3],
) -> Result<bool, NoMemory> {
    let model = model_of(alloc, last_three)?;
    let model = model.as_str();
    let run = run_program(rt, alloc, &NoGate, RUN, model, SCRIPT, &GOOD)?;
    let stats = run_program(
        rt,
        alloc,
        &NoGate,
        &["stats", "m", "s"],
        model,
        SCRIPT,
        &GOOD,
    )?;
    Ok(
        run.status == 0
            && stats.is(0, STATS.as_bytes(), "")
            && run_is_solos(rt, alloc, model, run.output())?
            && others_write(rt, alloc, model, run.output())?
            && goes_on(rt, alloc, model)?,
    )
}

#[test]
fn the_64th_station_takes_part_in_all_modes(rt: HostRuntime) -> Result<(), Fail> {
    for (i, last_three) in LAST_THREE.iter().enumerate() {
        let agreed = all_agree(&rt, rt.alloc(), last_three);
        assert!(rt; agreed == Ok(true), "model {i}");
    }
    Ok(())
}
