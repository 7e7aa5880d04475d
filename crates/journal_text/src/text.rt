//! The text of a journal.
ghost use Rattle.std.specs.Prelude.{◌≡◌, ◌++◌, [], length, map, OnOk, IfOk};
ghost use Rattle.std.specs.List.{All, flat_map};
ghost use Rattle.decision_script.specs.Stating.{IsAnalyst};
ghost use Rattle.decision_book.specs.Journal.{NewFront, NewCall};
ghost use Rattle.decision_book.specs.Books.{journal_from, journal_of};
ghost use Rattle.journal_text.specs.JournalText.{call_line, event_text, events_text, found_text};
ghost use Rattle.journal_text.specs.JournalText.{counts_line, glance_text, look_line, looks_text, refusal_text};
ghost use Rattle.journal_text.specs.JournalText.{journal_text as journal_text'};

use crate::looked::Looked;
use crate::pieces::{push, push_count, push_name, push_number};
use decision_book::{Call, Reply};
use decision_script::{Script, push_decision};
use phys_proc::{Found, Glance};
use sim_base::{Decision, NoMemory};
use std::alloc::Global;

fn push_front(out: &mut Vec<u8>, front: u64) -> Result<(), NoMemory>
    ensures value { OnOk result (out.new.items ≡ out.old.items ++ event_text [] (NewFront front)) }
{
    push_count(out, b"# front ", front)?;
    push(out, b"\n")
}

fn push_fronts(out: &mut Vec<u8>, script: &Script, fronts: &[u64]) -> Result<(), NoMemory>
    ensures value { OnOk result (out.new.items ≡
        out.old.items ++ events_text script.now.analysts (map NewFront fronts.now)) }
{
    'fronts: for front in fronts {
        push_front(out, *front)?;
    }
    Ok(())
}

fn push_refusal(out: &mut Vec<u8>, reply: &Reply) -> Result<(), NoMemory>
    ensures value { OnOk result (out.new.items ≡ out.old.items ++ refusal_text reply.now) }
{
    push_number(out, reply.number() as u64)?;
    match reply {
        Reply::Late { front } => push_count(out, b" front ", *front),
        _ => Ok(()),
    }
}

fn push_call_line(out: &mut Vec<u8>, reply: &Reply, decision: &Decision) -> Result<(), NoMemory>
    ensures value { OnOk result (out.new.items ≡ out.old.items ++ call_line reply.now decision.now) }
{
    match reply {
        Reply::Accepted => push_decision(out, decision),
        _ => {
            push(out, b"# refused ")?;
            push_refusal(out, reply)?;
            push(out, b": ")?;
            push_decision(out, decision)
        }
    }
}

fn push_call(out: &mut Vec<u8>, script: &Script, call: &Call) -> Result<(), NoMemory>
    requires caller { IsAnalyst (length script.now.analysts) call.now.caller }
    ensures value { OnOk result (out.new.items ≡ out.old.items ++ event_text script.now.analysts (NewCall call.now)) }
{
    push(out, b"analyst ")?;
    push_name(out, &script.analyst(call.caller))?;
    push(out, b"\n")?;
    push_call_line(out, &call.reply, &call.decision)?;
    push(out, b"\n")
}

// Appends the calls, each after the fronts that precede it, and then the other fronts.
fn push_events(
    out: &mut Vec<u8>,
    script: &Script,
    calls: &[Call],
    fronts: &[u64],
) -> Result<(), NoMemory>
    requires callers { All (λ c. IsAnalyst (length script.now.analysts) c.caller) calls.now }
    ensures value { OnOk result (out.new.items ≡
        out.old.items ++ events_text script.now.analysts (journal_of calls.now fronts.now)) }
{
    let mut before = 0;
    let mut later = fronts;
    'calls: for call in calls {
        let due = call.fronts.saturating_sub(before) as usize;
        let (these, others) = later.split_at(due.min(later.len()));
        push_fronts(out, script, these)?;
        push_call(out, script, call)?;
        before = call.fronts;
        later = others;
    }
    push_fronts(out, script, later)
}

fn push_found(out: &mut Vec<u8>, found: &Option<Found>) -> Result<(), NoMemory>
    ensures value { OnOk result (out.new.items ≡ out.old.items ++ found_text found.now) }
{
    match found {
        None => push(out, b" absent"),
        Some(found) => {
            push_count(out, b" handled=", found.handled)?;
            push_count(out, b" shared=", found.shared as u64)
        }
    }
}

fn push_glance(out: &mut Vec<u8>, glance: &Option<Glance>) -> Result<(), NoMemory>
    ensures value { OnOk result (out.new.items ≡ out.old.items ++ glance_text glance.now) }
{
    match glance {
        None => push(out, b" unknown"),
        Some(glance) => {
            push_count(out, b" front=", glance.front)?;
            push_count(out, b" clones=", glance.clones as u64)?;
            push_found(out, &glance.found)
        }
    }
}

fn push_look(out: &mut Vec<u8>, script: &Script, look: &Looked) -> Result<(), NoMemory>
    requires looker { IsAnalyst (length script.now.analysts) look.now.analyst }
    ensures value { OnOk result (out.new.items ≡ out.old.items ++ look_line script.now.analysts look.now) }
{
    push(out, b"look ")?;
    push_name(out, &script.analyst(look.analyst))?;
    push(out, b" ")?;
    push_name(out, &look.who)?;
    push(out, b" ")?;
    push_name(out, &look.station)?;
    push_glance(out, &look.glance)?;
    push(out, b"\n")
}

fn push_look_lines(out: &mut Vec<u8>, script: &Script, looks: &[Looked]) -> Result<(), NoMemory>
    requires in_range { All (λ l. IsAnalyst (length script.now.analysts) l.analyst) looks.now }
    ensures value { OnOk result (out.new.items ≡ out.old.items ++ flat_map (look_line script.now.analysts) looks.now) }
{
    'looks: for look in looks {
        push_look(out, script, look)?;
    }
    Ok(())
}

fn push_looks(out: &mut Vec<u8>, script: &Script, looks: &[Looked]) -> Result<(), NoMemory>
    requires in_range { All (λ l. IsAnalyst (length script.now.analysts) l.analyst) looks.now }
    ensures value { OnOk result (out.new.items ≡ out.old.items ++ looks_text script.now.analysts looks.now) }
{
    push_count(out, b"looks ", looks.len() as u64)?;
    push(out, b"\n")?;
    push_look_lines(out, script, looks)
}

fn push_head(out: &mut Vec<u8>, calls: usize, fronts: usize) -> Result<(), NoMemory>
    ensures value { OnOk result (out.new.items ≡ out.old.items ++ counts_line calls fronts) }
{
    push_count(out, b"journal ", calls as u64)?;
    push_count(out, b" ", fronts as u64)?;
    push(out, b"\n")
}

/// The text of the journal with these calls and fronts, whose callers are analysts of the script, and with the looks of
/// its analysts.
pub fn journal_text(
    alloc: Global,
    script: &Script,
    calls: &[Call],
    fronts: &[u64],
    looks: &[Looked],
) -> Result<Vec<u8>, NoMemory>
    requires callers { All (λ c. IsAnalyst (length script.now.analysts) c.caller) calls.now }
    requires lookers { All (λ l. IsAnalyst (length script.now.analysts) l.analyst) looks.now }
    ensures { IfOk result (λ text.
        text.items ≡ journal_text' script.now.analysts (journal_of calls.now fronts.now) looks.now) }
{
    let mut out = Vec::new(alloc);
    push_head(&mut out, calls.len(), fronts.len())?;
    push_events(&mut out, script, calls, fronts)?;
    push_looks(&mut out, script, looks)?;
    Ok(out)
}
