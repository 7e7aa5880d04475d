//! Tests of trace and report texts, against texts written by hand.
ghost use Rattle.std.specs.Prelude.{◌≡◌};
ghost use Rattle.trace_report.specs.ReportText.{HaveSmallSums};

use crate::counts::change;
use net_model::{Model, read_model};
use sample_models::ONE_DESK;
use sim_base::{Entry, Figures, Job, Key, Line, Msg, Name, Param, Payload};
use std::alloc::Global;
use trace_report::{Names, line_len, report_text, trace_text, write_line};

/// A model of format 2 with a class, whose stations have the longest possible names, 16 bytes.
const LONGEST_NAMES: &str = r#"format = 2
lookahead = 2
horizon = 20
[[station]]
name = "high_urgency_job"
kind = "source"
every = [3, 3]
jobs = 2
class = 3
link = [{ to = "the_desk_of_a_16", delay = 2 }]
[[station]]
name = "the_desk_of_a_16"
kind = "server"
servers = 1
room = 5
service = [4, 4]
order = "class"
link = [{ to = "out", delay = 2 }]
[[station]]
name = "out"
kind = "sink"
"#;

/// An entry: at 5 station 2 handles the sender's seventh message.
fn entry(sender: u32, payload: Payload, line: Line) -> Entry {
    Entry {
        msg: Msg {
            key: Key {
                time: 5,
                sender,
                number: 7,
            },
            to: 2,
            payload,
        },
        line,
    }
}

fn job(source: u32, count: u64) -> Job {
    Job {
        source,
        count,
        born: 3,
    }
}

/// Whether the trace text of these entries is the expected one.
fn writes(alloc: Global, model: &str, entries: &[Entry], expected: &str) -> bool {
    let Some(name) = Name::read(b"fast") else {
        return false;
    };
    match read_model(alloc, model.as_bytes()) {
        Ok(model) => traces(alloc, &model, &name, entries, expected),
        Err(_) => false,
    }
}

fn traces(alloc: Global, model: &Model, name: &Name, entries: &[Entry], expected: &str) -> bool {
    match trace_text(alloc, model, name, entries) {
        Ok(text) => text.as_slice() == expected.as_bytes(),
        Err(_) => false,
    }
}

/// Whether the report text of these figures is the expected one.
fn reports(alloc: Global, figures: &[Figures], expected: &str) -> bool
    requires sums { HaveSmallSums figures.now }
{
    let Ok(model) = read_model(alloc, ONE_DESK.as_bytes()) else {
        return false;
    };
    if figures.len() != model.len() as usize {
        return false;
    }
    match report_text(alloc, &model, figures) {
        Ok(text) => text.as_slice() == expected.as_bytes(),
        Err(_) => false,
    }
}

#[test]
fn each_payload_and_each_count_has_its_words(rt: HostRuntime) {
    let passed = Line::Passed { passed: 1 };
    let server = Line::Server {
        busy: 1,
        wait: 2,
        done: 30,
        lost: 4,
    };
    let entries = [
        entry(1, Payload::Tick, Line::Source { sent: 2 }),
        entry(1, Payload::Job(job(1, 0)), server),
        entry(
            2,
            Payload::Done(job(1, 10)),
            Line::Sink { got: 2, stay: 17 },
        ),
        entry(0, change(Param::Every, 2, 30), passed),
        entry(0, change(Param::Service, 4, 5), passed),
        entry(0, change(Param::Hold, 0, 9), passed),
        entry(0, change(Param::Weight, 2, 1000), passed),
        entry(0, change(Param::Servers, 16, 0), passed),
        entry(0, change(Param::Room, 5, 0), passed),
    ];
    let expected = "clone fast
5 desk gate 7 tick sent=2
5 desk gate 7 job gate.0 busy=1 wait=2 done=30 lost=4
5 desk desk 7 done gate.10 got=2 stay=17
5 desk analyst 7 set every 2 30 passed=1
5 desk analyst 7 set service 4 5 passed=1
5 desk analyst 7 set hold 0 9 passed=1
5 desk analyst 7 set weight 2 1000 passed=1
5 desk analyst 7 set servers 16 passed=1
5 desk analyst 7 set room 5 passed=1
";
    assert!(rt; writes(rt.alloc(), ONE_DESK, &entries, expected));
}

#[test]
fn format_2_has_classes(rt: HostRuntime) {
    let entries = [
        entry(1, Payload::Job(job(1, 0)), Line::Passed { passed: 1 }),
        entry(2, Payload::Done(job(1, 1)), Line::Passed { passed: 2 }),
    ];
    let expected = "clone fast
5 the_desk_of_a_16 high_urgency_job 7 job high_urgency_job.0:3 passed=1
5 the_desk_of_a_16 the_desk_of_a_16 7 done high_urgency_job.1:3 passed=2
";
    assert!(rt; writes(rt.alloc(), LONGEST_NAMES, &entries, expected));
}

#[test]
fn a_number_of_no_station_is_the_analyst(rt: HostRuntime) {
    let entries = [entry(4, Payload::Job(job(0, 0)), Line::Passed { passed: 1 })];
    let expected = "clone fast\n5 desk analyst 7 job analyst.0 passed=1\n";
    assert!(rt; writes(rt.alloc(), ONE_DESK, &entries, expected));
    let expected = "clone fast\n5 the_desk_of_a_16 analyst 7 job analyst.0:1 passed=1\n";
    assert!(rt; writes(rt.alloc(), LONGEST_NAMES, &entries, expected));
}

#[test]
fn the_longest_lines_are_whole(rt: HostRuntime) {
    let most = u64::MAX;
    let key = Key {
        time: most,
        sender: 2,
        number: most,
    };
    let server = Line::Server {
        busy: most,
        wait: most,
        done: most,
        lost: most,
    };
    let entries = [
        Entry {
            msg: Msg {
                key,
                to: 2,
                payload: Payload::Done(job(1, most)),
            },
            line: server,
        },
        Entry {
            msg: Msg {
                key,
                to: 1,
                payload: change(Param::Service, most, most),
            },
            line: server,
        },
    ];
    let expected = "clone fast
18446744073709551615 the_desk_of_a_16 the_desk_of_a_16 18446744073709551615 done high_urgency_job.18446744073709551615:3 busy=18446744073709551615 wait=18446744073709551615 done=18446744073709551615 lost=18446744073709551615
18446744073709551615 high_urgency_job the_desk_of_a_16 18446744073709551615 set service 18446744073709551615 18446744073709551615 busy=18446744073709551615 wait=18446744073709551615 done=18446744073709551615 lost=18446744073709551615
";
    assert!(rt; writes(rt.alloc(), LONGEST_NAMES, &entries, expected));
    assert!(rt; writes(rt.alloc(), LONGEST_NAMES, &[], "clone fast\n"));
}

#[test]
fn each_kind_of_line_holds_the_greatest_numbers(rt: HostRuntime) {
    let most = u64::MAX;
    let entries = [
        entry(1, Payload::Tick, Line::Source { sent: most }),
        entry(
            1,
            Payload::Job(job(1, most)),
            Line::Sink {
                got: most,
                stay: most,
            },
        ),
        entry(
            0,
            change(Param::Weight, most, most),
            Line::Passed { passed: most },
        ),
        entry(
            0,
            change(Param::Servers, most, 0),
            Line::Passed {
                passed: 9_999_999_999,
            },
        ),
    ];
    let expected = "clone fast
5 desk gate 7 tick sent=18446744073709551615
5 desk gate 7 job gate.18446744073709551615 got=18446744073709551615 stay=18446744073709551615
5 desk analyst 7 set weight 18446744073709551615 18446744073709551615 passed=18446744073709551615
5 desk analyst 7 set servers 18446744073709551615 passed=9999999999
";
    assert!(rt; writes(rt.alloc(), ONE_DESK, &entries, expected));
}

/// Whether the line of an entry, written after three bytes, is the expected one, with the length computed before.
fn writes_behind_three(alloc: Global, entry: &Entry, expected: &str) -> bool {
    let Ok(model) = read_model(alloc, ONE_DESK.as_bytes()) else {
        return false;
    };
    let names = Names::of(&model);
    let mut bytes = [b'.'; 300];
    let end = write_line(&mut bytes, 3, &model, &names, entry);
    end == 3 + line_len(&model, &names, entry) && &bytes[..end] == expected.as_bytes()
}

#[test]
fn a_line_stands_behind_what_was_there(rt: HostRuntime) {
    let tick = entry(1, Payload::Tick, Line::Source { sent: 2 });
    assert!(rt; writes_behind_three(rt.alloc(), &tick, "...5 desk gate 7 tick sent=2\n"));
}

fn figures(copies: u64, handled: u64, alone: u64) -> Figures
    ensures { result ≡ record { copies = copies; handled = handled; alone = alone } }
{
    Figures {
        copies,
        handled,
        alone,
    }
}

#[test]
fn report_of_two_branches(rt: HostRuntime) {
    let two = [figures(1, 2, 4), figures(2, 8, 9), figures(2, 3, 4)];
    let expected = "report
gate copies=1 handled=2 alone=4
desk copies=2 handled=8 alone=9
out copies=2 handled=3 alone=4
total handled=13 alone=17
";
    assert!(rt; reports(rt.alloc(), &two, expected));
}

#[test]
fn report_of_the_largest_figures(rt: HostRuntime) {
    let most = u64::MAX;
    let large = [
        figures(most, 0, 0),
        figures(0, most, 0),
        figures(0, 0, most),
    ];
    let expected = "report
gate copies=18446744073709551615 handled=0 alone=0
desk copies=0 handled=18446744073709551615 alone=0
out copies=0 handled=0 alone=18446744073709551615
total handled=18446744073709551615 alone=18446744073709551615
";
    assert!(rt; reports(rt.alloc(), &large, expected));
}
