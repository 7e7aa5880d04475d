//! Tests of what is refused, and of the limit.
use super::{FAST, LIMIT_3, PLAIN, REFUSED, Row, SOLO_BASE, models, texts};
use std::test::Fail;

const SOLO_GHOST: &[&str] = &["solo", "m", "s", "--clone", "ghost"];

const AT_SPIN: &str = "cloner: limit 16384 met at station spin in clone base\n";

/// The first seven lines of the base.
const CUT_AT_13: &str = "clone base
3 gate gate 0 tick sent=1
5 desk gate 1 job gate.0 busy=1 wait=0 done=0 lost=0
6 gate gate 2 tick sent=2
8 desk gate 3 job gate.1 busy=1 wait=1 done=0 lost=0
9 desk desk 0 done gate.0 busy=1 wait=0 done=1 lost=0
11 out desk 1 job gate.0 got=1 stay=8
";

const REFUSALS: &[Row] = &[
    Row {
        shows: "a delay below the lookahead",
        old: "delay = 2",
        new: "delay = 1",
        status: 4,
        errors: "cloner: model: refusal 10 at station 1\n",
        ..REFUSED
    },
    Row {
        shows: "an unknown key",
        old: "lookahead",
        new: "spedd = 3\nlookahead",
        status: 4,
        errors: "cloner: model: refusal 5 at station 0 key spedd\n",
        ..REFUSED
    },
    Row {
        shows: "a model comes before its script",
        model: "",
        script: "x",
        status: 4,
        errors: "cloner: model: refusal 3 at station 0 key lookahead\n",
        ..REFUSED
    },
    Row {
        shows: "no TOML",
        model: "x",
        script: "x",
        status: 4,
        errors: "cloner: model: refusal 2 at station 0\n",
        ..REFUSED
    },
    Row {
        shows: "a cut line of a script",
        script: "set base at 8 desk serv",
        status: 5,
        errors: "cloner: script: refusal 3 at line 1\n",
        ..REFUSED
    },
    Row {
        shows: "a leading zero",
        script: "set base at 08 desk service 2 2",
        status: 5,
        errors: "cloner: script: refusal 4 at line 1\n",
        ..REFUSED
    },
    Row {
        shows: "no ASCII",
        script: "\n# \u{e9}\n",
        status: 5,
        errors: "cloner: script: refusal 2 at line 2\n",
        ..REFUSED
    },
    Row {
        shows: "an unknown clone",
        script: "set ghost at 5 desk service 1 1",
        status: 6,
        errors: "cloner: decision: refusal 3 at line 1\n",
        ..REFUSED
    },
    Row {
        shows: "a set at the horizon",
        script: "set base at 20 desk room 5",
        status: 6,
        errors: "cloner: decision: refusal 10 at line 1\n",
        ..REFUSED
    },
    Row {
        shows: "an end at the horizon",
        script: "end base at 20",
        status: 6,
        errors: "cloner: decision: refusal 10 at line 1\n",
        ..REFUSED
    },
    Row {
        shows: "a set of a clone that has an end",
        script: "fork brief from base\nend brief at 9\nset brief at 5 desk room 9\n",
        status: 6,
        errors: "cloner: decision: refusal 12 at line 3\n",
        ..REFUSED
    },
    Row {
        shows: "a fork of a clone that has an end, behind a look",
        script: "fork brief from base\nlook base desk\nend brief at 9\nfork x from brief\n",
        status: 6,
        errors: "cloner: decision: refusal 12 at line 4\n",
        ..REFUSED
    },
    Row {
        shows: "no clone of the name",
        words: SOLO_GHOST,
        status: 6,
        errors: "cloner: no clone ghost\n",
        ..REFUSED
    },
    Row {
        shows: "a refused decision comes before the clone's name",
        words: SOLO_GHOST,
        script: "set ghost at 5 desk room 1",
        status: 6,
        errors: "cloner: decision: refusal 3 at line 1\n",
        ..REFUSED
    },
];

/// A run in which a station may handle four messages, exactly as many as the desk gets.
const LIMIT_4: Row<'static> = Row {
    old: "lookahead",
    new: "limit = 4\nlookahead",
    ..PLAIN
};

const LIMITS: &[Row] = &[
    Row {
        shows: "the desk meets its limit",
        ..LIMIT_3
    },
    Row {
        shows: "only the later clone meets it",
        script: "fork later from base\nend base at 13\n",
        errors: "cloner: limit 3 met at station desk in clone later\n",
        ..LIMIT_3
    },
    Row {
        shows: "a limit that is just not met",
        ..LIMIT_4
    },
    Row {
        shows: "a limit that each clone keeps by itself, and both together would not",
        old: "lookahead",
        new: "limit = 5\nlookahead",
        script: FAST,
        traces: texts::BASE_AND_FAST,
        report: texts::BASE_AND_FAST_REPORT,
        ..PLAIN
    },
    Row {
        shows: "solo meets it",
        words: SOLO_BASE,
        ..LIMIT_3
    },
    Row {
        shows: "solo just keeps it",
        words: SOLO_BASE,
        report: "",
        ..LIMIT_4
    },
    Row {
        shows: "an end before the limit",
        words: SOLO_BASE,
        script: "end base at 13\n",
        status: 0,
        traces: CUT_AT_13,
        errors: "",
        ..LIMIT_3
    },
    Row {
        shows: "a router that spins",
        model: models::SPINNING,
        status: 7,
        errors: AT_SPIN,
        ..REFUSED
    },
    Row {
        shows: "and alone",
        words: SOLO_BASE,
        model: models::SPINNING,
        status: 7,
        errors: AT_SPIN,
        ..REFUSED
    },
];

#[test]
fn refusals_are_told(rt: HostRuntime) -> Result<(), Fail> {
    for row in REFUSALS {
        assert!(rt; row.holds(&rt, rt.alloc()), "{}", row.shows);
    }
    Ok(())
}

#[test]
fn limits_are_met(rt: HostRuntime) -> Result<(), Fail> {
    for row in LIMITS {
        assert!(rt; row.holds(&rt, rt.alloc()), "{}", row.shows);
    }
    Ok(())
}
