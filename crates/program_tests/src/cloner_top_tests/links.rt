//! Tests of `links`: what `run` writes, and the line with the number of rounds.
use super::{CUT, FAST, GOOD, Outside, RUN, models, run_program, texts};
use crew_pool::NoGate;
use sample_models::{CLINIC, ONE_DESK};
use sim_base::NoMemory;
use std::alloc::Global;
use std::sync::Wait;
use std::test::Fail;
use std::thread::Threads;

/// `links` of the model in `m` and the script in `s`.
const LINKS: &[&str] = &["links", "m", "s"];

/// The same with four workers.
const LINKS_BY_4: &[&str] = &["links", "m", "s", "--workers", "4"];

/// A study whose `links` writes what `run` does, and then this line.
#[derive(Clone, Copy)]
struct Rounds<'a> {
    shows: &'a str,
    model: &'a str,
    old: &'a str,
    new: &'a str,
    script: &'a str,
    line: &'a str,
}

impl<'a> Rounds<'a> {
    fn holds<R: Threads + Wait + Sync>(&self, rt: &R, alloc: Global) -> Result<bool, NoMemory> {
        let model = self.model.replacen(alloc, self.old, self.new, 1)?;
        let model = model.as_str();
        let run = run_program(rt, alloc, &NoGate, RUN, model, self.script, &GOOD)?;
        for words in [LINKS, LINKS_BY_4] {
            let ended = run_program(rt, alloc, &NoGate, words, model, self.script, &GOOD)?;
            let output = ended.output();
            let same = run.status == 0
                && ended.status == 0
                && output.len() == run.output().len() + self.line.len()
                && output.starts_with(run.output())
                && output.ends_with(self.line.as_bytes())
                && ended.errors().is_empty();
            if !same {
                return Ok(false);
            }
        }
        Ok(true)
    }
}

const EXAMPLE: Rounds<'static> = Rounds {
    shows: "two branches of the example",
    model: ONE_DESK,
    old: "",
    new: "",
    script: FAST,
    line: "rounds 3\n",
};

const ROWS: &[Rounds] = &[
    EXAMPLE,
    Rounds {
        shows: "a sink alone",
        model: models::ONE_SINK,
        script: "",
        line: "rounds 1\n",
        ..EXAMPLE
    },
    Rounds {
        shows: "a ring of two stations",
        model: models::RING,
        script: "",
        line: "rounds 6\n",
        ..EXAMPLE
    },
    Rounds {
        shows: "a station that is linked to itself",
        model: models::SPINNING,
        old: "100000",
        new: "50",
        script: "",
        line: "rounds 2\n",
    },
    Rounds {
        shows: "an end at 0 and a fork",
        script: "fork gone from base\nfork fast from base\nend gone at 0\nset fast at 8 desk service 2 2\n",
        ..EXAMPLE
    },
];

#[test]
fn links_write_what_run_does(rt: HostRuntime) -> Result<(), Fail> {
    for row in ROWS {
        assert!(rt; row.holds(&rt, rt.alloc()) == Ok(true), "{}", row.shows);
    }
    Ok(())
}

#[test]
fn clinic_by_links(rt: HostRuntime) {
    let clinic = Rounds {
        model: CLINIC,
        script: texts::CLINIC_SCRIPT,
        line: "rounds 6\n",
        ..EXAMPLE
    };
    assert!(rt; clinic.holds(&rt, rt.alloc()) == Ok(true));
}

/// Whether the limit is met at the desk in windows, and at the gate in rounds. The desk exceeds it first in time, but
/// the gate's clock reaches the horizon first.
fn limit_is_met<R: Threads + Wait + Sync>(rt: &R, alloc: Global) -> Result<bool, NoMemory> {
    let four = ONE_DESK.replacen(
        alloc,
        "every = [3, 3]\njobs = 2",
        "every = [4, 4]\njobs = 4",
        1,
    )?;
    let model = four.replacen(alloc, "lookahead", "limit = 3\nlookahead", 1)?;
    let model = model.as_str();
    let run = run_program(rt, alloc, &NoGate, RUN, model, "", &GOOD)?;
    let links = run_program(rt, alloc, &NoGate, LINKS, model, "", &GOOD)?;
    Ok(
        run.is(
            7,
            &[],
            "cloner: limit 3 met at station desk in clone base\n",
        ) && links.is(
            7,
            &[],
            "cloner: limit 3 met at station gate in clone base\n",
        ),
    )
}

#[test]
fn links_meet_the_limit(rt: HostRuntime) {
    assert!(rt; limit_is_met(&rt, rt.alloc()) == Ok(true));
}

/// Whether the put of the rounds, the fourth, is cut off after this number of bytes.
fn rounds_are_cut<R: Threads + Wait + Sync>(
    rt: &R,
    alloc: Global,
    taken: usize,
) -> Result<bool, NoMemory> {
    let outside = Outside {
        put: &[(4, taken)],
        ..GOOD
    };
    let whole = run_program(rt, alloc, &NoGate, LINKS, ONE_DESK, FAST, &GOOD)?;
    let ended = run_program(rt, alloc, &NoGate, LINKS, ONE_DESK, FAST, &outside)?;
    let before = whole.output().len().saturating_sub(EXAMPLE.line.len());
    Ok(
        ended.status == 8
            && ended.output().len() == before.saturating_add(taken)
            && whole.output().starts_with(ended.output())
            && ended.errors() == CUT.as_bytes(),
    )
}

#[test]
fn put_of_the_rounds_fails(rt: HostRuntime) -> Result<(), Fail> {
    for taken in [0, 1, EXAMPLE.line.len() - 1, EXAMPLE.line.len()] {
        assert!(rt;
            rounds_are_cut(&rt, rt.alloc(), taken) == Ok(true),
            "{}",
            taken
        );
    }
    Ok(())
}
