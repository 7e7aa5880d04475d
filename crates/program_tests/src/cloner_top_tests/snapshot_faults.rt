//! Tests of snapshots that were changed: what is refused at which place, and what goes on.
use super::{GOOD, RESUME, models, run_program, texts};
use crew_pool::NoGate;
use sample_models::ONE_DESK;
use sim_base::NoMemory;
use std::alloc::Global;
use std::sync::Wait;
use std::test::Fail;
use std::thread::Threads;

/// A change of a snapshot: the first text is replaced by the second. The third has the number and the place of the
/// refusal.
type Damage = (&'static str, &'static str, &'static str);

/// Lines of the desk that have no form of a line, or come at the wrong place.
const BAD_LINES: &[Damage] = &[
    // the first line
    (texts::SAVED, "", "2 at 1"),
    (texts::SAVED, "snapshot base front 10 end -", "2 at 1"),
    (texts::SAVED, "snapshot base front 10 end -\n", "2 at 2"),
    ("snapshot", "Snapshot", "2 at 1"),
    ("base", "Base", "2 at 1"),
    ("front 10", "front 4294967296", "2 at 1"),
    ("end -", "end", "2 at 1"),
    ("end -", "end - ", "2 at 1"),
    ("end -", "end -\r", "2 at 1"),
    ("snapshot", "\nsnapshot", "2 at 1"),
    // stations
    ("station 1", "station 2", "2 at 2"),
    ("next 4", "next  4", "2 at 2"),
    ("next 4", "next 04", "2 at 2"),
    ("next 4", "next +4", "2 at 2"),
    ("next 4", "next\t4", "2 at 2"),
    ("next 4 drawn 2", "drawn 2 next 4", "2 at 2"),
    ("source 3 3 2", "source 3 3", "2 at 2"),
    ("source 3 3 2", "source 3 3 2 2", "2 at 2"),
    ("source 3 3 2", "router 2 1 1", "2 at 2"),
    ("line 0", "line 1", "2 at 3"),
    ("line 0", "line 0 1.1.6", "2 at 3"),
    ("line 0", "line 1 1.1", "2 at 3"),
    ("line 0", "line 1 1.1.06", "2 at 3"),
    ("line 0", "line 4294967295 1.1.6", "2 at 3"),
    ("sink 0 0", "sink 0 18446744073709551616", "2 at 4"),
    (
        "station 3 next 0 drawn 0 handled 0 sink 0 0\n",
        "",
        "2 at 4",
    ),
    ("pending", "station 4\npending", "2 at 5"),
    // pending messages
    ("pending 2", "pending 02", "2 at 5"),
    ("pending 2", "pending 1", "2 at 7"),
    ("pending 2", "pending 3", "2 at 8"),
    ("pending 2", "pending 4294967295", "2 at 8"),
    (
        texts::SAVED,
        "snapshot base front 10 end -
station 1 next 4 drawn 2 handled 2 source 3 3 2
station 2 next 3 drawn 2 handled 3 server 1 5 4 4 1 1 0 line 0
station 3 next 0 drawn 0 handled 0 sink 0 0
pending 4294967295
",
        "2 at 6",
    ),
    ("11 2 1 3", "11 2 1", "2 at 6"),
    ("11 2 1 3", "4294967296 2 1 3", "2 at 6"),
    ("job 1.0.3", "job 1.0.3.0", "2 at 6"),
    ("job 1.0.3", "job gate.0", "2 at 6"),
    ("job 1.0.3", "tick 1", "2 at 6"),
    ("done", "gone", "2 at 7"),
    ("done 1.1.6", "set room 5 5", "2 at 7"),
    ("done 1.1.6", "set service 5", "2 at 7"),
    ("done 1.1.6", "set rooms 5", "2 at 7"),
    // trace lines
    ("trace 5", "trace", "2 at 8"),
    ("trace 5", "trace 4", "2 at 13"),
    ("trace 5", "trace 6", "2 at 14"),
    ("trace 5", "trace 4294967295", "2 at 14"),
    ("3 gate gate 0 tick sent=1", "", "2 at 9"),
    ("tick sent=1", "tick\tsent=1", "2 at 9"),
    ("tick sent=1", "tick sent=\u{7f}", "2 at 9"),
    ("tick sent=1", "tick sent=\u{e9}", "2 at 9"),
    (" gate gate 0 tick sent=1", LINE_200, "2 at 9"),
    // the end
    ("done=1 lost=0\n", "done=1 lost=0", "2 at 13"),
    ("done=1 lost=0\n", "done=1 lost=0\n\n", "2 at 14"),
    ("done=1 lost=0\n", "done=1 lost=0\nx", "2 at 14"),
];

/// The longest line that a trace may have.
const LINE_200: &str =
    "~~~~~~~~~~~~~~~~~~~~~~~~~~~~~~~~~~~~~~~~~~~~~~~~~~~~~~~~~~~~~~~~~~~~~~~~~~~~~~~~~~~~~~~~~~~~~~~~~~~~~~~~~~~~~~~~~~~~~~~~~~~~~~~~~~~~~~~~~~~~~~~~~~~~~~~~~~~~~~~~~~~~~~~~~~~~~~~~~~~~~~~~~~~~~~~~~~~~~~~~";

/// Lines of the desk whose values no run has.
const BAD_VALUES: &[Damage] = &[
    // the front and the end
    ("front 10", "front 21", "6 at 0"),
    ("front 10 end -", "front 10 end 9", "6 at 0"),
    ("end -", "end 20", "6 at 0"),
    (
        "end -\nstation 1 next 4",
        "end 20\nstation 1 next 49",
        "6 at 0",
    ),
    // stations
    ("next 4", "next 49", "3 at 1"),
    ("drawn 2", "drawn 49", "3 at 1"),
    ("source 3 3 2", "source 0 3 2", "3 at 1"),
    ("source 3 3 2", "source 4 3 2", "3 at 1"),
    ("source 3 3 2", "source 3 1000001 2", "3 at 1"),
    ("source 3 3 2", "source 3 3 3", "3 at 1"),
    ("source 3 3 2", "delay 3 3 2", "3 at 1"),
    ("handled 3", "handled 16385", "3 at 2"),
    ("server 1 5 4 4", "server 0 5 4 4", "3 at 2"),
    ("server 1 5 4 4", "server 17 5 4 4", "3 at 2"),
    ("server 1 5 4 4", "server 1 4097 4 4", "3 at 2"),
    ("server 1 5 4 4", "server 1 5 0 4", "3 at 2"),
    ("4 4 1 1 0", "4 4 17 1 0", "3 at 2"),
    ("4 4 1 1 0", "4 4 1 4 0", "3 at 2"),
    ("4 4 1 1 0", "4 4 1 1 4", "3 at 2"),
    ("1 1 0 line 0", "0 1 0 line 1 1.1.6", "3 at 2"),
    ("line 0", "line 1 0.1.6", "3 at 2"),
    ("line 0", "line 1 2.1.6", "3 at 2"),
    ("line 0", "line 1 4.1.6", "3 at 2"),
    ("line 0", "line 1 1.1000000.6", "3 at 2"),
    ("line 0", "line 1 1.1.20", "3 at 2"),
    ("sink 0 0", "sink 1 0", "3 at 3"),
    ("sink 0 0", "sink 0 281474976710656", "3 at 3"),
    ("sink 0 0", "sink 0 18446744073709551615", "3 at 3"),
    ("sink 0 0", "router 0", "3 at 3"),
    (
        "sink 0 0\npending 2\n11",
        "sink 1 0\npending 2\n9",
        "3 at 3",
    ),
    // pending messages
    ("11 2 1 3", "9 2 1 3", "4 at 0"),
    ("11 2 1 3", "14 2 1 3", "4 at 1"),
    ("13 2 2 2", "11 2 1 2", "4 at 1"),
    ("13 2 2 2", "2147483648 2 2 2", "4 at 1"),
    ("11 2 1 3", "11 2 1 0", "4 at 0"),
    ("11 2 1 3", "11 2 1 4", "4 at 0"),
    ("11 2 1 3", "11 4 0 3", "4 at 0"),
    ("11 2 1 3", "11 2 3 3", "4 at 0"),
    ("11 2 1 3", "11 3 0 3", "4 at 0"),
    ("11 2 1 3 job 1.0.3", "11 0 256 2 set room 5", "4 at 0"),
    ("job 1.0.3", "job 0.0.3", "4 at 0"),
    ("job 1.0.3", "job 2.0.3", "4 at 0"),
    ("job 1.0.3", "job 4.0.3", "4 at 0"),
    ("job 1.0.3", "job 1.1000000.3", "4 at 0"),
    ("job 1.0.3", "job 1.0.20", "4 at 0"),
    ("done 1.1.6", "done 3.1.6", "4 at 1"),
    ("11 2 1 3 job 1.0.3", "11 2 1 2 done 1.0.3", "4 at 1"),
    ("4 4 1 1 0", "4 4 0 1 0", "4 at 1"),
];

/// Lines of a clone with stations of all kinds and with an end.
const BAD_KINDS: &[Damage] = &[
    ("router 4 3 1", "router 4 3", "2 at 3"),
    ("router 4 3 1", "router 4 3 1 1", "2 at 3"),
    ("line 2 1.2.3 1.1.2", "line 1 1.2.3 1.1.2", "2 at 5"),
    ("line 2 1.2.3 1.1.2", "line 3 1.2.3 1.1.2", "2 at 5"),
    ("set room 1", "set room", "2 at 9"),
    ("set hold 1 1", "set hold 1", "2 at 13"),
    ("front 10", "front 34", "6 at 0"),
    ("end 33", "end 9", "6 at 0"),
    ("end 33", "end 40", "6 at 0"),
    ("source 1 3 5", "source 1 3 10", "3 at 1"),
    ("router 4 3 1", "router 4 0 1", "3 at 2"),
    ("router 4 3 1", "router 4 3 1001", "3 at 2"),
    ("router 4 3 1", "router 6 3 1", "3 at 2"),
    ("router 4 3 1", "delay 0 4 1", "3 at 2"),
    ("delay 0 4 1", "delay 5 4 1", "3 at 3"),
    ("delay 0 4 1", "delay 0 1000001 1", "3 at 3"),
    ("delay 0 4 1", "delay 0 4 2", "3 at 3"),
    ("server 1 3 2 6 1", "server 2 3 2 6 1", "3 at 4"),
    ("1.2.3", "1.2.40", "3 at 4"),
    ("1.2.3", "2.2.3", "3 at 4"),
    ("11 0 2 4", "11 0 256 4", "4 at 1"),
    ("11 0 2 4", "11 5 0 4", "4 at 1"),
    ("11 2 3 4 job", "11 2 4 4 job", "4 at 3"),
    ("11 2 3 4 job", "11 1 9 4 job", "4 at 3"),
    ("11 2 3 4 job", "11 2 3 4 done", "4 at 3"),
];

/// Whether a snapshot is refused after a change, at its place.
fn is_refused<R: Threads + Wait + Sync>(
    rt: &R,
    alloc: Global,
    model: &str,
    snapshot: &str,
    damage: &Damage,
) -> Result<bool, NoMemory> {
    let (old, new, place) = *damage;
    let snapshot = snapshot.replacen(alloc, old, new, 1)?;
    let errors = format!(in alloc; "cloner: snapshot: refusal {place}\n")?;
    let ended = run_program(rt, alloc, &NoGate, RESUME, model, snapshot.as_str(), &GOOD)?;
    Ok(ended.is(10, b"", errors.as_str()))
}

#[test]
fn damaged_snapshots_are_refused(rt: HostRuntime) -> Result<(), Fail> {
    for (model, snapshot, damages) in [
        (ONE_DESK, texts::SAVED, BAD_LINES),
        (ONE_DESK, texts::SAVED, BAD_VALUES),
        (models::FIVE_KINDS, texts::FIVE_KINDS_SAVED, BAD_KINDS),
    ] {
        for damage in damages {
            let refused = is_refused(&rt, rt.alloc(), model, snapshot, damage);
            assert!(rt; refused == Ok(true), "{} is not {}", damage.1, damage.2);
        }
    }
    Ok(())
}

/// A change that makes a snapshot long: in the second text `*` is replaced by this number of copies of the third.
type Growth = (
    &'static str,
    &'static str,
    &'static str,
    usize,
    &'static str,
);

const LONG: &[Growth] = &[
    (texts::SAVED, "*", "\n", 1_048_577, "1 at 0"),
    (texts::SAVED, "*", "\n", 1_048_576, "2 at 1"),
    ("next 4", "next *", "9", 1_000_000, "2 at 2"),
    ("line 0", "line 4097*", " 1.1.6", 4097, "3 at 2"),
];

/// Whether the desk's snapshot is refused after it has grown.
fn is_long_refused<R: Threads + Wait + Sync>(
    rt: &R,
    alloc: Global,
    growth: &Growth,
) -> Result<bool, NoMemory> {
    let (old, new, piece, times, place) = *growth;
    let begun = texts::SAVED.replacen(alloc, old, new, 1)?;
    let pieces = piece.repeat(alloc, times)?;
    let whole = begun.replacen(alloc, "*", pieces.as_str(), 1)?;
    is_refused(rt, alloc, ONE_DESK, whole.as_str(), &("", "", place))
}

#[test]
fn long_snapshots_are_refused(rt: HostRuntime) -> Result<(), Fail> {
    for growth in LONG {
        let refused = is_long_refused(&rt, rt.alloc(), growth);
        assert!(rt; refused == Ok(true), "{} is not {}", growth.1, growth.4);
    }
    Ok(())
}

/// What the desk handles after 10.
const AFTER_10: &str = "11 out desk 1 job gate.0 got=1 stay=8
13 desk desk 2 done gate.1 busy=0 wait=0 done=2 lost=0
15 out desk 3 job gate.1 got=2 stay=17
";

/// A change of a snapshot, and the change of the trace that is written then. In both the first text is replaced by the
/// second.
type Change = (&'static str, &'static str, &'static str, &'static str);

const ACCEPTED: &[Change] = &[
    // the head and the trace lines
    ("base", "a_name_of_16_let", "base", "a_name_of_16_let"),
    (
        "3 gate gate 0 tick sent=1",
        LINE_200,
        "3 gate gate 0 tick sent=1",
        LINE_200,
    ),
    ("front 10", "front 0", "", ""),
    ("front 10", "front 11", "", ""),
    ("end -", "end 19", "", ""),
    (
        "end -",
        "end 15",
        "15 out desk 3 job gate.1 got=2 stay=17\n",
        "",
    ),
    ("end -", "end 10", AFTER_10, ""),
    // counts that no run has
    ("handled 2 source", "handled 0 source", "", ""),
    ("next 4 drawn 2", "next 48 drawn 48", "", ""),
    (
        "sink 0 0",
        "sink 0 281474976710655",
        AFTER_10,
        "11 out desk 1 job gate.0 got=1 stay=281474976710663
13 desk desk 2 done gate.1 busy=0 wait=0 done=2 lost=0
15 out desk 3 job gate.1 got=2 stay=281474976710672
",
    ),
    (
        "4 4 1 1 0 line 0",
        "4 4 16 1 0 line 1 1.999999.19",
        "busy=0 wait=0 done=2",
        "busy=15 wait=1 done=2",
    ),
    (
        "line 0",
        "line 1 1.999999.19",
        AFTER_10,
        "11 out desk 1 job gate.0 got=1 stay=8
13 desk desk 2 done gate.1 busy=1 wait=0 done=2 lost=0
15 out desk 3 job gate.1 got=2 stay=17
17 desk desk 4 done gate.999999 busy=0 wait=0 done=3 lost=0
19 out desk 5 job gate.999999 got=3 stay=17
",
    ),
    // messages at the front, and after the horizon
    (
        "11 2 1 3",
        "10 2 1 3",
        AFTER_10,
        "10 out desk 1 job gate.0 got=1 stay=7
13 desk desk 2 done gate.1 busy=0 wait=0 done=2 lost=0
15 out desk 3 job gate.1 got=2 stay=16
",
    ),
    (
        "13 2 2 2",
        "2147483647 2 2 2",
        AFTER_10,
        "11 out desk 1 job gate.0 got=1 stay=8\n",
    ),
    // messages that their station does not take, and a set at the front
    (
        "11 2 1 3 job 1.0.3",
        "10 0 255 2 set servers 4294967295",
        AFTER_10,
        "10 desk analyst 255 set servers 4294967295 busy=1 wait=0 done=1 lost=0
13 desk desk 2 done gate.1 busy=0 wait=0 done=2 lost=0
15 out desk 3 job gate.1 got=1 stay=9
",
    ),
    (
        "11 2 1 3 job 1.0.3",
        "11 2 1 3 done 1.0.3",
        AFTER_10,
        "11 out desk 1 done gate.0 got=0 stay=0
13 desk desk 2 done gate.1 busy=0 wait=0 done=2 lost=0
15 out desk 3 job gate.1 got=1 stay=9
",
    ),
    // a tick after the last job
    (
        "11 2 1 3 job 1.0.3",
        "11 1 3 1 tick",
        AFTER_10,
        "11 gate gate 3 tick sent=3
13 desk gate 4 job gate.2 busy=1 wait=1 done=1 lost=0
13 desk desk 2 done gate.1 busy=1 wait=0 done=2 lost=0
15 out desk 3 job gate.1 got=1 stay=9
17 desk desk 4 done gate.2 busy=0 wait=0 done=3 lost=0
19 out desk 5 job gate.2 got=2 stay=17
",
    ),
];

/// Whether a run from a changed snapshot writes the changed trace.
fn goes_on<R: Threads + Wait + Sync>(
    rt: &R,
    alloc: Global,
    change: &Change,
) -> Result<bool, NoMemory> {
    let (old, new, from, to) = *change;
    let snapshot = texts::SAVED.replacen(alloc, old, new, 1)?;
    let trace = texts::BASE.replacen(alloc, from, to, 1)?;
    let ended = run_program(
        rt,
        alloc,
        &NoGate,
        RESUME,
        ONE_DESK,
        snapshot.as_str(),
        &GOOD,
    )?;
    Ok(ended.is(0, trace.as_bytes(), ""))
}

#[test]
fn snapshots_of_no_run_go_on(rt: HostRuntime) -> Result<(), Fail> {
    for change in ACCEPTED {
        let gone_on = goes_on(&rt, rt.alloc(), change);
        assert!(rt; gone_on == Ok(true), "{} for {}", change.1, change.0);
    }
    Ok(())
}
