//! Tests of `save` and `resume`: the text of a snapshot, and that a run goes on from it as if it had not stopped.
use super::{
    CUT, GOOD, LIMIT_3, Outside, PLAIN, REFUSED, RESUME, Row, SAVE_10, models, run_program, texts,
};
use crew_pool::NoGate;
use sample_models::{CLASSES, CLINIC, ONE_DESK};
use sim_base::NoMemory;
use std::alloc::Global;
use std::sync::Wait;
use std::test::Fail;
use std::thread::Threads;

/// Branches whose decisions are for stations of each kind. One has an end, and one has a set at the last time.
const NIGHT: &str = "set base at 6 fan weight 1 3
fork night from base
set night at 17 desk servers 2
set night at 11 desk room 1
set night at 15 slow hold 1 1
set night at 15 gate every 1 1
set night at 21 desk service 5 5
end night at 33
set base at 39 desk room 5
";

/// The desk, saved at 10.
const SAVED: Row<'static> = Row {
    shows: "the desk at 10",
    words: SAVE_10,
    traces: texts::SAVED,
    report: "",
    ..PLAIN
};

/// The run that goes on from there.
const RESUMED: Row<'static> = Row {
    shows: "the run from 10 on",
    words: RESUME,
    script: texts::SAVED,
    traces: texts::BASE,
    ..SAVED
};

const TEXTS: &[Row] = &[
    SAVED,
    RESUMED,
    Row {
        shows: "options before the mode",
        words: &["--until=10", "--clone", "base", "save", "--", "m", "s"],
        ..SAVED
    },
    Row {
        shows: "the desk at 0",
        words: &["save", "m", "s", "--clone", "base", "--until", "0"],
        traces: texts::SAVED_AT_0,
        ..SAVED
    },
    Row {
        shows: "the run from 0 on",
        script: texts::SAVED_AT_0,
        ..RESUMED
    },
    Row {
        shows: "all kinds of stations, sets that are pending, and an end",
        words: &["save", "m", "s", "--clone", "night", "--until", "10"],
        model: models::FIVE_KINDS,
        script: NIGHT,
        traces: texts::FIVE_KINDS_SAVED,
        ..SAVED
    },
    Row {
        shows: "jobs have no class in a snapshot",
        words: &["save", "m", "s", "--clone", "base", "--until", "9"],
        model: models::LATE_HIGH,
        traces: texts::LATE_HIGH_SAVED,
        ..SAVED
    },
    Row {
        shows: "a time after the horizon",
        words: &["save", "m", "s", "--clone", "base", "--until", "4294967295"],
        model: models::ONE_SINK,
        traces: "snapshot base front 20 end -
station 1 next 0 drawn 0 handled 0 sink 0 0
pending 0
trace 0
",
        ..SAVED
    },
    Row {
        shows: "a time after the end",
        model: models::ONE_SINK,
        script: "end base at 9\n",
        traces: "snapshot base front 9 end 9
station 1 next 0 drawn 0 handled 0 sink 0 0
pending 0
trace 0
",
        ..SAVED
    },
];

const STOPS: &[Row] = &[
    Row {
        shows: "a model is refused before its snapshot",
        words: RESUME,
        model: "",
        script: "x",
        status: 4,
        errors: "cloner: model: refusal 3 at station 0 key lookahead\n",
        ..REFUSED
    },
    Row {
        shows: "a script is refused before the clone's name",
        words: &["save", "m", "s", "--clone", "ghost", "--until", "10"],
        script: "x",
        status: 5,
        errors: "cloner: script: refusal 3 at line 1\n",
        ..REFUSED
    },
    Row {
        shows: "a refused decision",
        words: SAVE_10,
        script: "set ghost at 5 desk room 1",
        status: 6,
        errors: "cloner: decision: refusal 3 at line 1\n",
        ..REFUSED
    },
    Row {
        shows: "no clone of the name, before the limit",
        words: &["save", "m", "s", "--clone", "ghost", "--until", "20"],
        status: 6,
        errors: "cloner: no clone ghost\n",
        ..LIMIT_3
    },
    Row {
        shows: "the limit before the front",
        words: &["save", "m", "s", "--clone", "base", "--until", "14"],
        ..LIMIT_3
    },
    Row {
        shows: "the limit at the front",
        words: &["save", "m", "s", "--clone", "base", "--until", "13"],
        status: 0,
        traces: texts::SAVED_AT_13,
        errors: "",
        ..LIMIT_3
    },
    Row {
        shows: "the limit in a run that goes on",
        words: RESUME,
        script: texts::SAVED,
        ..LIMIT_3
    },
];

#[test]
fn snapshots_are_written_and_resumed(rt: HostRuntime) -> Result<(), Fail> {
    for rows in [TEXTS, STOPS] {
        for row in rows {
            assert!(rt; row.holds(&rt, rt.alloc()), "{}", row.shows);
        }
    }
    Ok(())
}

/// A clone of a study. In the model the first `old` is replaced by `new`.
#[derive(Clone, Copy)]
pub(super) struct Branch<'a> {
    pub(super) shows: &'a str,
    pub(super) model: &'a str,
    pub(super) old: &'a str,
    pub(super) new: &'a str,
    pub(super) script: &'a str,
    pub(super) clone: &'a str,
}

impl<'a> Branch<'a> {
    /// Whether the clone's run is saved at this time, and goes on as `solo` runs it.
    pub(super) fn goes_on<R: Threads + Wait + Sync>(
        &self,
        rt: &R,
        alloc: Global,
        until: &str,
    ) -> Result<bool, NoMemory> {
        let model = self.model.replacen(alloc, self.old, self.new, 1)?;
        let model = model.as_str();
        let save = ["save", "m", "s", "--clone", self.clone, "--until", until];
        let solo = ["solo", "m", "s", "--clone", self.clone];
        let saved = run_program(rt, alloc, &NoGate, &save, model, self.script, &GOOD)?;
        let whole = run_program(rt, alloc, &NoGate, &solo, model, self.script, &GOOD)?;
        let Ok(snapshot) = std::str::from_utf8(saved.output()) else {
            return Ok(false);
        };
        let resumed = run_program(rt, alloc, &NoGate, RESUME, model, snapshot, &GOOD)?;
        Ok(saved.status == 0 && whole.status == 0 && resumed.is(0, whole.output(), ""))
    }

    /// The first time at which it does not, up to two after the horizon of 40.
    fn first_break<R: Threads + Wait + Sync>(
        &self,
        rt: &R,
        alloc: Global,
    ) -> Result<Option<u32>, NoMemory> {
        for until in 0..=42u32 {
            let text = format!(in alloc; "{until}")?;
            if !self.goes_on(rt, alloc, text.as_str())? {
                return Ok(Some(until));
            }
        }
        Ok(None)
    }
}

/// A clone with stations of each kind.
const ALL_KINDS: Branch<'static> = Branch {
    shows: "each kind, and an end",
    model: models::FIVE_KINDS,
    old: "",
    new: "",
    script: NIGHT,
    clone: "night",
};

const BRANCHES: &[Branch] = &[
    ALL_KINDS,
    Branch {
        shows: "a set at the last time",
        clone: "base",
        ..ALL_KINDS
    },
    Branch {
        shows: "each kind, with classes in the trace",
        old: "lookahead",
        new: "format = 2\nlookahead",
        ..ALL_KINDS
    },
    Branch {
        shows: "a router by turn",
        old: "\"weights\"",
        new: "\"turn\"",
        script: "set base at 13 desk servers 2\nset base at 15 slow hold 1 1\nset base at 39 gate every 9 9\n",
        clone: "base",
        ..ALL_KINDS
    },
    Branch {
        shows: "a server by class",
        model: CLASSES,
        script: "",
        clone: "base",
        ..ALL_KINDS
    },
    Branch {
        shows: "a server by class, with sets",
        model: models::LATE_HIGH,
        script: "set base at 9 desk service 2 3\nset base at 19 desk room 0\n",
        clone: "base",
        ..ALL_KINDS
    },
];

#[test]
fn runs_go_on_from_each_time(rt: HostRuntime) -> Result<(), Fail> {
    for branch in BRANCHES {
        let broken = branch.first_break(&rt, rt.alloc());
        assert!(rt; broken == Ok(None), "{}: {:?}", branch.shows, broken);
    }
    Ok(())
}

/// Clones of the steady desk. At 4867 the snapshot of the first has 1,048,576 bytes, and that of the second one more.
const STEADY: &str = "set base at 4900 desk room 5
set base at 4900 desk room 5
set base at 4900 desk room 5
set base at 4900 desk room 5
set base at 4900 desk room 5
fork fitting from base
fork too_long from base
";

const TOO_LONG: Row<'static> = Row {
    words: &["save", "m", "s", "--clone", "too_long", "--until", "4867"],
    model: models::STEADY_DESK,
    script: STEADY,
    status: 11,
    errors: "cloner: snapshot too long\n",
    ..REFUSED
};

/// The longest snapshot, and the clinic at 5000.
#[test]
fn long_runs_go_on(rt: HostRuntime) {
    let fitting = Branch {
        model: models::STEADY_DESK,
        script: STEADY,
        clone: "fitting",
        ..ALL_KINDS
    };
    let clinic = Branch {
        model: CLINIC,
        script: texts::CLINIC_SCRIPT,
        ..ALL_KINDS
    };
    assert!(rt; TOO_LONG.holds(&rt, rt.alloc()));
    assert!(rt; fitting.goes_on(&rt, rt.alloc(), "4867") == Ok(true));
    assert!(rt; clinic.goes_on(&rt, rt.alloc(), "5000") == Ok(true));
}

/// Whether the output is cut off after this number of bytes if its put takes that number and fails.
fn is_cut<R: Threads + Wait + Sync>(
    rt: &R,
    alloc: Global,
    row: &Row,
    taken: usize,
) -> Result<bool, NoMemory> {
    let outside = Outside {
        put: &[(1, taken)],
        ..GOOD
    };
    let ended = run_program(
        rt, alloc, &NoGate, row.words, ONE_DESK, row.script, &outside,
    )?;
    Ok(
        ended.status == 8
            && ended.output().len() == taken
            && row.traces.as_bytes().starts_with(ended.output())
            && ended.errors() == CUT.as_bytes(),
    )
}

/// The put of a snapshot, and that of a resumed trace, fail after each number of bytes.
#[test]
fn puts_fail_anywhere(rt: HostRuntime) -> Result<(), Fail> {
    for row in [SAVED, RESUMED] {
        for taken in 0..=row.traces.len() {
            let cut = is_cut(&rt, rt.alloc(), &row, taken);
            assert!(rt; cut == Ok(true), "{} cut after {}", row.shows, taken);
        }
    }
    Ok(())
}
