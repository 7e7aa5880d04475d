//! Tests of branches, and of what they share.
use super::{FAST, PLAIN, Row, models, texts};
use sample_models::{EQUAL_SCRIPT, OWN_SCRIPT_OF_B};
use std::test::Fail;

const TWINS: &str = "set base at 8 desk service 2 2
fork twin from base
";

const APART: &str = "fork a from base
fork b from base
set a at 15 desk room 9
set a at 8 desk service 2 2
set b at 8 desk service 2 2
";

/// A branch that splits from its base between two random draws.
const ROOMY: &str = "fork b from base
set b at 10 desk room 9
";

const SOLO_B: &[&str] = &["solo", "m", "s", "--clone", "b"];

const ROWS: &[Row] = &[
    PLAIN,
    Row {
        shows: "looks and comments change nothing",
        script: "look base desk\n# a comment\n",
        ..PLAIN
    },
    Row {
        shows: "a branch whose desk is faster",
        script: FAST,
        traces: texts::BASE_AND_FAST,
        report: texts::BASE_AND_FAST_REPORT,
        ..PLAIN
    },
    Row {
        shows: "a fork after a set that is not due",
        script: TWINS,
        traces: texts::FAST_TWINS,
        report: texts::FAST_TWINS_REPORT,
        ..PLAIN
    },
    Row {
        shows: "branches of equal decisions never split",
        script: EQUAL_SCRIPT,
        traces: texts::EQUAL_BRANCHES,
        report: texts::EQUAL_BRANCHES_REPORT,
        ..PLAIN
    },
    Row {
        shows: "the same set under two numbers splits",
        script: APART,
        traces: texts::BRANCHES_APART,
        report: texts::BRANCHES_APART_REPORT,
        ..PLAIN
    },
    Row {
        shows: "both halves of a split draw what each draws alone",
        model: models::DRAWN_DESK,
        script: ROOMY,
        traces: texts::DRAWN_BRANCHES,
        report: texts::DRAWN_BRANCHES_REPORT,
        ..PLAIN
    },
    Row {
        shows: "one of the equal branches alone",
        words: SOLO_B,
        script: EQUAL_SCRIPT,
        traces: texts::ONE_BRANCH,
        report: "",
        ..PLAIN
    },
    Row {
        shows: "the same by its own script",
        words: SOLO_B,
        script: OWN_SCRIPT_OF_B,
        traces: texts::ONE_BRANCH,
        report: "",
        ..PLAIN
    },
    Row {
        shows: "a branch that ends early",
        script: "fork brief from base\nend brief at 9\n",
        traces: texts::BRIEF,
        report: texts::BRIEF_REPORT,
        ..PLAIN
    },
    Row {
        shows: "a base that ends before it begins",
        script: "end base at 0\n",
        traces: texts::NOTHING,
        report: texts::NOTHING_REPORT,
        ..PLAIN
    },
];

#[test]
fn branches_are_written(rt: HostRuntime) -> Result<(), Fail> {
    for row in ROWS {
        assert!(rt; row.holds(&rt, rt.alloc()), "{}", row.shows);
    }
    Ok(())
}
