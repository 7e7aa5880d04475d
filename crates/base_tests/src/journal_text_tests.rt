//! Tests of journal texts, against texts written by hand.
ghost use Rattle.std.specs.Prelude.{◌≡◌, All, length, true};
ghost use Rattle.decision_script.specs.Stating.{IsAnalyst};

use crate::lines::decision;
use decision_book::{Call, Reply};
use decision_script::{Script, read_script};
use journal_text::{Looked, journal_text};
use phys_proc::{Found, Glance};
use sample_models::QUIET_JOURNAL;
use sim_base::Name;
use std::alloc::Global;
use std::process::Abort;

const FOUR_CALLS: &str = "journal 4 7
# front 5
# front 7
# front 10
analyst main
fork fast from base
analyst main
set fast at 10 desk service 2 2
analyst main
# refused 11 front 10: set fast at 9 desk service 2 2
# front 12
# front 15
# front 17
# front 20
analyst main
# refused 2: fork x from base
looks 0
";

const LOOKS: &str = "journal 1 0
analyst ben
# refused 12: end base at 900
looks 3
look ben base desk front=7 clones=2 handled=3 shared=2
look main fast desk front=0 clones=1 absent
look ben base till unknown
";

fn name<R: Abort>(rt: &R, text: &str) -> Name {
    Name::read(text.as_bytes()).expect(rt, "a name")
}

/// A call after this number of fronts, with the decision of this line.
fn call<R: Abort>(
    rt: &R,
    alloc: Global,
    caller: u32,
    fronts: u32,
    line: &str,
    reply: Reply,
) -> Call {
    Call {
        caller,
        fronts,
        decision: decision(alloc, line).expect(rt, "a decision"),
        reply,
    }
}

fn are_callers(script: &Script, calls: &[Call]) -> bool
    ensures { result ≡ true → All (λ c. IsAnalyst (length script.now.analysts) c.caller) calls.now }
{
    let many = script.analysts();
    calls.iter().all(|c| 1 <= c.caller && c.caller <= many)
}

fn are_lookers(script: &Script, looks: &[Looked]) -> bool
    ensures { result ≡ true → All (λ l. IsAnalyst (length script.now.analysts) l.analyst) looks.now }
{
    let many = script.analysts();
    looks.iter().all(|l| 1 <= l.analyst && l.analyst <= many)
}

/// Whether the journal of these calls, fronts and looks has this text, with the analysts of this script.
fn writes(
    alloc: Global,
    script: &[u8],
    calls: &[Call],
    fronts: &[u64],
    looks: &[Looked],
    expected: &str,
) -> bool {
    let Ok(script) = read_script(alloc, script) else {
        return false;
    };
    if !are_callers(&script, calls) || !are_lookers(&script, looks) {
        return false;
    }
    match journal_text(alloc, &script, calls, fronts, looks) {
        Ok(text) => text.as_slice() == expected.as_bytes(),
        Err(_) => false,
    }
}

fn four_calls<R: Abort>(rt: &R, alloc: Global) -> [Call; 4] {
    let late = Reply::Late { front: 10 };
    [
        call(rt, alloc, 1, 3, "fork fast from base", Reply::Accepted),
        call(
            rt,
            alloc,
            1,
            3,
            "set fast at 10 desk service 2 2",
            Reply::Accepted,
        ),
        call(rt, alloc, 1, 3, "set fast at 9 desk service 2 2", late),
        call(rt, alloc, 1, 7, "fork x from base", Reply::Closed),
    ]
}

#[test]
fn calls_stand_among_the_fronts(rt: HostRuntime) {
    let script = b"fork fast from base\n";
    let fronts = [5, 7, 10, 12, 15, 17, 20];
    let calls = four_calls(&rt, rt.alloc());
    assert!(rt; writes(rt.alloc(), script, &calls, &fronts, &[], FOUR_CALLS));
}

#[test]
fn fronts_stand_alone(rt: HostRuntime) {
    let fronts = [5, 7, 10, 13, 15, 17, 20];
    assert!(rt; writes(rt.alloc(), b"", &[], &fronts, &[], QUIET_JOURNAL));
}

fn look_at<R: Abort>(
    rt: &R,
    analyst: u32,
    who: &str,
    station: &str,
    glance: Option<Glance>,
) -> Looked {
    Looked {
        analyst,
        who: name(rt, who),
        station: name(rt, station),
        glance,
    }
}

/// Looks at a clone that has handled 3 events, at a missing clone, and at a missing station.
fn three_looks<R: Abort>(rt: &R) -> [Looked; 3] {
    let handled = Glance {
        front: 7,
        clones: 2,
        found: Some(Found {
            handled: 3,
            shared: 2,
        }),
    };
    let absent = Glance {
        front: 0,
        clones: 1,
        found: None,
    };
    [
        look_at(rt, 2, "base", "desk", Some(handled)),
        look_at(rt, 1, "fast", "desk", Some(absent)),
        look_at(rt, 2, "base", "till", None),
    ]
}

#[test]
fn looks_tell_what_they_found(rt: HostRuntime) {
    let ended = Reply::Ended { at: 30 };
    let calls = [call(&rt, rt.alloc(), 2, 0, "end base at 900", ended)];
    let looks = three_looks(&rt);
    assert!(rt; writes(rt.alloc(), b"analyst ben\n", &calls, &[], &looks, LOOKS));
}
