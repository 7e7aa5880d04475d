//! Tests of `watch`: it writes what `run` writes with the script of the due times. And what is refused.
use super::{
    GOOD, NO_MODEL, NO_SCRIPT, NO_WATCHES, Outcome, Outside, RUN, WATCH, run_program,
    run_with_watches,
};
use crew_pool::NoGate;
use sample_models::ONE_DESK;
use sim_base::NoMemory;
use std::alloc::Global;
use std::sync::Wait;
use std::test::Fail;
use std::thread::Threads;

/// `watch` with four workers.
const WATCH_BY_FOUR: &[&str] = &["watch", "m", "s", "w", "--workers", "4"];

/// A branch whose desk has a second server from 10 on.
const HELP: &str = "watch base desk wait 1 fork help set desk servers 2\n";

/// The model, the script and the watches of a study; watches may be absent.
#[derive(Clone, Copy)]
struct Study<'a> {
    model: &'a str,
    script: &'a str,
    watches: Option<&'a str>,
}

/// The result of `watch` for a study.
fn watch<R: Threads + Wait + Sync>(
    rt: &R,
    alloc: Global,
    words: &[&str],
    study: Study,
    outside: &Outside,
) -> Result<Outcome, NoMemory> {
    let Study {
        model,
        script,
        watches,
    } = study;
    run_with_watches(rt, alloc, &NoGate, words, model, script, watches, outside)
}

/// Watches over the example with another horizon, and the script with which `run` writes the same.
#[derive(Clone, Copy)]
struct Same<'a> {
    shows: &'a str,
    horizon: &'a str,
    watches: &'a str,
    script: &'a str,
}

impl<'a> Same<'a> {
    fn holds<R: Threads + Wait + Sync>(&self, rt: &R, alloc: Global) -> Result<bool, NoMemory> {
        let model = ONE_DESK.replacen(alloc, "horizon = 20", self.horizon, 1)?;
        let model = model.as_str();
        let study = Study {
            model,
            script: "",
            watches: Some(self.watches),
        };
        let run = run_program(rt, alloc, &NoGate, RUN, model, self.script, &GOOD)?;
        for words in [WATCH, WATCH_BY_FOUR] {
            let watched = watch(rt, alloc, words, study, &GOOD)?;
            if run.status != 0 || !watched.is(0, run.output(), "") {
                return Ok(false);
            }
        }
        Ok(true)
    }
}

const SAME: &[Same] = &[
    Same {
        shows: "a branch of a line that gets long",
        horizon: "horizon = 20",
        watches: HELP,
        script: "fork help from base\nset help at 10 desk servers 2\n",
    },
    Same {
        shows: "a line that stays short",
        horizon: "horizon = 20",
        watches: "watch base desk wait 2 fork help set desk servers 2\n",
        script: "",
    },
    Same {
        shows: "two watches of one clone, of which the second is due first, and a chain from the branch's start on",
        horizon: "horizon = 20",
        watches: "watch base desk wait 1 fork help set desk servers 2
# the first entry of the desk
watch base desk wait 0 fork early set desk servers 2
watch help desk wait 0 fork more set desk servers 3
",
        script: "fork help from base\nset help at 10 desk servers 2\nfork early from base\nset early at 7 desk servers 2
fork more from help\nset more at 12 desk servers 3\n",
    },
    Same {
        shows: "a watch of a branch that is never made",
        horizon: "horizon = 20",
        watches: "watch base desk wait 9 fork help set desk servers 2
watch help desk wait 0 fork more set desk servers 3\n",
        script: "",
    },
    Same {
        shows: "a change after the horizon",
        horizon: "horizon = 6",
        watches: "watch base desk wait 0 fork early set desk servers 2\n",
        script: "",
    },
    Same {
        shows: "a change at the horizon",
        horizon: "horizon = 7",
        watches: "watch base desk wait 0 fork early set desk servers 2\n",
        script: "",
    },
    Same {
        shows: "a change one before the horizon",
        horizon: "horizon = 8",
        watches: "watch base desk wait 0 fork early set desk servers 2\n",
        script: "fork early from base\nset early at 7 desk servers 2\n",
    },
];

#[test]
fn watches_write_what_their_times_do(rt: HostRuntime) -> Result<(), Fail> {
    for same in SAME {
        assert!(rt; same.holds(&rt, rt.alloc()) == Ok(true), "{}", same.shows);
    }
    Ok(())
}

/// A script with a clone that has an end.
const BRIEF: &str = "fork brief from base\nend brief at 9\n";

/// Watches over the example and `BRIEF`, and the end of the line with which they are refused.
const REFUSED: &[(&str, &str)] = &[
    ("# \u{e9}\n", "watches: refusal 2 at line 1\n"),
    (
        "\nwatch base desk wait 1 fork help\n",
        "watches: refusal 3 at line 2\n",
    ),
    (
        "watch base desk wait 01 fork help set desk servers 2",
        "watches: refusal 4 at line 1\n",
    ),
    (
        "watch ghost desk wait 1 fork help set desk servers 2",
        "watch: refusal 3 at line 1\n",
    ),
    (
        "watch brief desk wait 1 fork help set desk servers 2",
        "watch: refusal 12 at line 1\n",
    ),
    (
        "watch base desk wait 1 fork brief set desk servers 2",
        "watch: refusal 4 at line 1\n",
    ),
    (
        "watch base till wait 1 fork help set desk servers 2",
        "watch: refusal 6 at line 1\n",
    ),
    (
        "watch base gate wait 1 fork help set desk servers 2",
        "watch: refusal 7 at line 1\n",
    ),
    (
        "watch base desk wait 1 fork help set gate servers 2",
        "watch: refusal 7 at line 1\n",
    ),
    (
        "watch base desk wait 1 fork help set desk servers 17",
        "watch: refusal 8 at line 1\n",
    ),
];

/// Whether `watch` ends with status 9 and a line of this form.
fn is_refused<R: Threads + Wait + Sync>(
    rt: &R,
    alloc: Global,
    script: &str,
    watches: &str,
    line: &str,
) -> Result<bool, NoMemory> {
    let study = Study {
        model: ONE_DESK,
        script,
        watches: Some(watches),
    };
    let ended = watch(rt, alloc, WATCH, study, &GOOD)?;
    let told = ended.errors();
    Ok(
        ended.status == 9
            && ended.output().is_empty()
            && told.len() == 8 + line.len()
            && told.starts_with(b"cloner: ")
            && told.ends_with(line.as_bytes()),
    )
}

#[test]
fn watches_that_do_not_fit_are_refused(rt: HostRuntime) -> Result<(), Fail> {
    for (watches, line) in REFUSED {
        let refused = is_refused(&rt, rt.alloc(), BRIEF, watches, line);
        assert!(rt; refused == Ok(true), "{}", line);
    }
    Ok(())
}

/// `count` lines of this form, each with its number.
fn lines_of(alloc: Global, count: u32, begin: &str, end: &str) -> Result<String, NoMemory> {
    let mut text = String::new(alloc);
    for number in 0..count {
        text.push_str(begin)?;
        push_number(&mut text, number)?;
        text.push_str(end)?;
    }
    Ok(text)
}

/// Appends three digits.
fn push_number(text: &mut String, number: u32) -> Result<(), NoMemory> {
    for digit in [number / 100 % 10, number / 10 % 10, number % 10] {
        text.push(char::from(b'0' + digit as u8))?;
    }
    Ok(())
}

/// Whether 255 watches that are never due write what `run` does, and one more is refused, as is the sixth watch after
/// 250 forks.
fn many_hold<R: Threads + Wait + Sync>(rt: &R, alloc: Global) -> Result<bool, NoMemory> {
    let (begin, end) = ("watch base desk wait 9 fork b", " set desk servers 2\n");
    let most = lines_of(alloc, 255, begin, end)?;
    let more = lines_of(alloc, 256, begin, end)?;
    let six = lines_of(alloc, 6, begin, end)?;
    let forks = lines_of(alloc, 250, "fork c", " from base\n")?;
    let same = Same {
        shows: "255 watches",
        horizon: "horizon = 20",
        watches: most.as_str(),
        script: "",
    };
    Ok(
        same.holds(rt, alloc)?
            && is_refused(
                rt,
                alloc,
                "",
                more.as_str(),
                "watches: refusal 5 at line 256\n",
            )?
            && is_refused(
                rt,
                alloc,
                forks.as_str(),
                six.as_str(),
                "watch: refusal 5 at line 6\n",
            )?,
    )
}

#[test]
fn there_is_room_for_so_many_watches(rt: HostRuntime) {
    assert!(rt; many_hold(&rt, rt.alloc()) == Ok(true));
}

/// Whether `watch` ends with this status and line, for these inputs and sinks.
fn ends_with<R: Threads + Wait + Sync>(
    rt: &R,
    alloc: Global,
    study: Study,
    fetch: &[u32],
    status: u8,
    line: &str,
) -> Result<bool, NoMemory> {
    let outside = Outside { fetch, ..GOOD };
    let ended = watch(rt, alloc, WATCH, study, &outside)?;
    Ok(ended.is(status, &[], line))
}

/// Each fetch fails. A refused decision precedes a missing file of watches. A branch meets the limit.
#[test]
fn watch_ends_with_the_first_cause(rt: HostRuntime) -> Result<(), Fail> {
    let alloc = rt.alloc();
    let study = Study {
        model: ONE_DESK,
        script: "",
        watches: Some(HELP),
    };
    let missing = Study {
        watches: None,
        ..study
    };
    let undecided = Study {
        script: "set ghost at 5 desk room 1",
        ..missing
    };
    let refused = "cloner: decision: refusal 3 at line 1\n";
    for (study, fetch, status, line) in [
        (study, &[1][..], 3, NO_MODEL),
        (study, &[2], 3, NO_SCRIPT),
        (study, &[3], 3, NO_WATCHES),
        (missing, &[], 3, NO_WATCHES),
        (undecided, &[], 6, refused),
    ] {
        assert!(rt;
            ends_with(&rt, alloc, study, fetch, status, line) == Ok(true),
            "{}",
            line
        );
    }
    Ok(())
}

/// Whether the limit is met in a branch that has one entry more than the script's clone.
fn branch_is_over<R: Threads + Wait + Sync>(rt: &R, alloc: Global) -> Result<bool, NoMemory> {
    let model = ONE_DESK.replacen(alloc, "lookahead", "limit = 4\nlookahead", 1)?;
    let study = Study {
        model: model.as_str(),
        script: "",
        watches: Some(HELP),
    };
    ends_with(
        rt,
        alloc,
        study,
        &[],
        7,
        "cloner: limit 4 met at station desk in clone help\n",
    )
}

#[test]
fn branch_meets_the_limit(rt: HostRuntime) {
    assert!(rt; branch_is_over(&rt, rt.alloc()) == Ok(true));
}
