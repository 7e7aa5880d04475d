//! Tests of stations of every kind.
use super::{PLAIN, Row, models, texts};
use sample_models::{CLASSES, DRAWN_GATE, FAN_BY_TURN, NO_ROOM};
use std::test::Fail;

/// The gate's jobs and the router's order, as they are in the model, and changed.
const THREE_BY_TURN: &str = r#"jobs = 3
link = [{ to = "fan", delay = 2 }]
[[station]]
name = "fan"
kind = "router"
by = "turn""#;

const TWO_BY_WEIGHTS: &str = r#"jobs = 2
link = [{ to = "fan", delay = 2 }]
[[station]]
name = "fan"
kind = "router"
by = "weights""#;

const ROWS: &[Row] = &[
    Row {
        shows: "a set at time 0",
        script: "set base at 0 desk service 4 4",
        traces: texts::SET_AT_START,
        report: texts::SET_AT_START_REPORT,
        ..PLAIN
    },
    Row {
        shows: "a set at the last time",
        script: "set base at 19 desk room 5",
        traces: texts::SET_AT_LAST,
        report: texts::SET_AT_LAST_REPORT,
        ..PLAIN
    },
    Row {
        shows: "several messages to itself in a window",
        model: models::CLOSE_MESSAGES,
        traces: texts::CLOSE_MESSAGES,
        report: texts::CLOSE_MESSAGES_REPORT,
        ..PLAIN
    },
    Row {
        shows: "drawn interarrival times",
        model: DRAWN_GATE,
        traces: texts::DRAWN_GATE,
        report: texts::DRAWN_GATE_REPORT,
        ..PLAIN
    },
    Row {
        shows: "a desk without a queue loses jobs",
        model: NO_ROOM,
        traces: texts::NO_ROOM,
        report: texts::NO_ROOM_REPORT,
        ..PLAIN
    },
    Row {
        shows: "more servers take the waiting",
        model: NO_ROOM,
        old: "room = 0",
        new: "room = 5",
        script: "set base at 6 desk servers 3",
        traces: texts::MORE_SERVERS,
        report: texts::MORE_SERVERS_REPORT,
        ..PLAIN
    },
    Row {
        shows: "a router by turn, and a delay",
        model: FAN_BY_TURN,
        traces: texts::FAN_BY_TURN,
        report: texts::FAN_BY_TURN_REPORT,
        ..PLAIN
    },
    Row {
        shows: "a router by weights",
        model: FAN_BY_TURN,
        old: "turn",
        new: "weights",
        traces: texts::FAN_BY_WEIGHTS,
        report: texts::FAN_BY_WEIGHTS_REPORT,
        ..PLAIN
    },
    Row {
        shows: "a server by class",
        model: CLASSES,
        traces: texts::CLASSES,
        report: texts::CLASSES_REPORT,
        ..PLAIN
    },
    Row {
        shows: "a router by turn for two jobs",
        model: FAN_BY_TURN,
        old: "jobs = 3",
        new: "jobs = 2",
        traces: texts::FAN_OF_TWO,
        report: texts::FAN_OF_TWO_REPORT,
        ..PLAIN
    },
    Row {
        shows: "a router by weights for two jobs",
        model: FAN_BY_TURN,
        old: THREE_BY_TURN,
        new: TWO_BY_WEIGHTS,
        traces: texts::FAN_OF_TWO,
        report: texts::FAN_OF_TWO_REPORT,
        ..PLAIN
    },
    Row {
        shows: "a job of the lesser class goes before one that waits",
        model: models::LATE_HIGH,
        traces: texts::LATE_HIGH,
        report: texts::LATE_HIGH_REPORT,
        ..PLAIN
    },
    Row {
        shows: "the same jobs by arrival",
        model: models::LATE_HIGH,
        old: "order = \"class\"\n",
        new: "",
        traces: texts::LATE_HIGH_BY_ARRIVAL,
        report: texts::LATE_HIGH_REPORT,
        ..PLAIN
    },
    Row {
        shows: "a sink to which nothing comes",
        model: models::ONLY_OUT,
        traces: texts::NOTHING,
        report: texts::ONLY_OUT_REPORT,
        ..PLAIN
    },
];

#[test]
fn kinds_are_written(rt: HostRuntime) -> Result<(), Fail> {
    for row in ROWS {
        assert!(rt; row.holds(&rt, rt.alloc()), "{}", row.shows);
    }
    Ok(())
}
