//! Tests of the statistics of servers, clone by clone.
use super::{CUT, FAST, GOOD, LIMIT_3, Outside, PLAIN, Row, models, run_program};
use crew_pool::NoGate;
use sample_models::{CLASSES, CLINIC, NO_ROOM, ONE_DESK};
use std::alloc::Global;
use std::sync::Wait;
use std::test::Fail;
use std::thread::Threads;

/// `stats` of the model in `m` and the script in `s`.
const STATS: &[&str] = &["stats", "m", "s"];

/// The same with four workers.
const STATS_BY_4: &[&str] = &["stats", "m", "s", "--workers", "4"];

/// The statistics of the worked example and its branch.
const TWO_BRANCHES: &str = "stats
base desk arrived=2 lost=0 done=2 most=1 present=9 waited=1 longest=1
fast desk arrived=2 lost=0 done=2 most=1 present=7 waited=- longest=-
";

/// Those of the worked example alone.
const BASE_ALONE: Row<'static> = Row {
    shows: "one desk",
    words: STATS,
    traces: "stats
base desk arrived=2 lost=0 done=2 most=1 present=9 waited=1 longest=1
",
    report: "",
    ..PLAIN
};

const ROWS: &[Row] = &[
    BASE_ALONE,
    Row {
        shows: "no waits after a set",
        script: FAST,
        traces: TWO_BRANCHES,
        ..BASE_ALONE
    },
    Row {
        shows: "no waits beside losses",
        model: NO_ROOM,
        traces: "stats
base desk arrived=3 lost=2 done=1 most=0 present=4 waited=- longest=-
",
        ..BASE_ALONE
    },
    Row {
        shows: "a job that waits when the branch ends",
        script: "fork brief from base\nend brief at 9\n",
        traces: "stats
base desk arrived=2 lost=0 done=2 most=1 present=9 waited=1 longest=1
brief desk arrived=2 lost=0 done=0 most=1 present=5 waited=0 longest=0
",
        ..BASE_ALONE
    },
    Row {
        shows: "a branch that ends at 0",
        script: "fork gone from base\nend gone at 0\n",
        traces: "stats
base desk arrived=2 lost=0 done=2 most=1 present=9 waited=1 longest=1
gone desk arrived=0 lost=0 done=0 most=0 present=0 waited=0 longest=0
",
        ..BASE_ALONE
    },
    Row {
        shows: "no waits by class",
        model: CLASSES,
        traces: "stats
base desk arrived=4 lost=0 done=3 most=3 present=33 waited=- longest=-
",
        ..BASE_ALONE
    },
    Row {
        shows: "the same jobs by arrival",
        model: CLASSES,
        old: "order = \"class\"\n",
        traces: "stats
base desk arrived=4 lost=0 done=3 most=3 present=33 waited=17 longest=8
",
        ..BASE_ALONE
    },
    Row {
        shows: "jobs that come twice",
        model: models::FEEDBACK,
        traces: "stats
base desk arrived=6 lost=0 done=5 most=1 present=28 waited=7 longest=4
",
        ..BASE_ALONE
    },
    Row {
        shows: "a model without servers",
        model: models::ONLY_OUT,
        traces: "stats\n",
        ..BASE_ALONE
    },
    Row {
        shows: "the limit",
        words: STATS,
        ..LIMIT_3
    },
];

#[test]
fn statistics_are_written(rt: HostRuntime) -> Result<(), Fail> {
    for row in ROWS {
        let by_4 = Row {
            words: STATS_BY_4,
            ..*row
        };
        assert!(rt; row.holds(&rt, rt.alloc()), "{}", row.shows);
        assert!(rt; by_4.holds(&rt, rt.alloc()), "{} by 4 workers", row.shows);
    }
    Ok(())
}

/// Whether the statistics are cut off after this number of bytes if their put takes that number and fails.
fn is_cut<R: Threads + Wait + Sync>(rt: &R, alloc: Global, taken: usize) -> bool {
    let outside = Outside {
        put: &[(1, taken)],
        ..GOOD
    };
    match run_program(rt, alloc, &NoGate, STATS, ONE_DESK, FAST, &outside) {
        Ok(ended) => {
            ended.status == 8
                && ended.output().len() == taken
                && TWO_BRANCHES.as_bytes().starts_with(ended.output())
                && ended.errors() == CUT.as_bytes()
        }
        Err(_) => false,
    }
}

#[test]
fn the_put_fails(rt: HostRuntime) -> Result<(), Fail> {
    let length = TWO_BRANCHES.len();
    for taken in [0, 1, length.saturating_sub(1), length] {
        assert!(rt; is_cut(&rt, rt.alloc(), taken), "{}", taken);
    }
    Ok(())
}

/// The clinic has statistics of three servers, the same with one and with four workers.
#[test]
fn clinic_by_workers(rt: HostRuntime) -> Result<(), Fail> {
    let one = run_program(&rt, rt.alloc(), &NoGate, STATS, CLINIC, "", &GOOD)?;
    let four = run_program(&rt, rt.alloc(), &NoGate, STATS_BY_4, CLINIC, "", &GOOD)?;
    let xray =
        b"base xray arrived=406 lost=0 done=405 most=3 present=6316 waited=1459 longest=35\n";
    assert!(rt; one.status == 0 && one.output().starts_with(b"stats\nbase reception arrived="));
    assert!(rt; one.output().ends_with(xray));
    assert!(rt; four.is(0, one.output(), ""));
    Ok(())
}
