//! Puts the texts of all clones into a sink, one after the other.
ghost use Rattle.std.specs.Prelude.{◌≡◌, ◌+◌, ◌%◌, ◌<◌, ◌≤◌, length, map};
ghost use Rattle.std.specs.Prelude.{IfSome, OnOk, OnErr};
ghost use Rattle.sim_base.specs.Clones.{clone_at};
ghost use Rattle.sim_base.specs.declared.message.TheConstants.{WORD_PLACES};
ghost use Rattle.sim_outer.specs.Bytes.{IsAppended};
ghost use Rattle.sim_outer.specs.Counts.{AreCounted};
ghost use Rattle.trace_writer.specs.Batches.{MakeFor};
ghost use Rattle.trace_writer.specs.Kept.{CanPut, HasBeginning, IsBegun};
ghost use Rattle.trace_writer.specs.Puts.{AreCut, IsPartPut, IsPut, IsCutOff};
ghost use Rattle.trace_writer.specs.Rests.{trace_at};
ghost use Rattle.trace_writer.specs.Texts.{AreTextsReady, PutsAll, body};
ghost use Rattle.trace_report.specs.Outputs.{clone_text, clone_texts};

use crate::alone::put_name_line;
use crate::batches::{LineMembers, Makers, Others, begin_if_long, serve_once};
use crate::beside::{Help, WithCrew};
use crate::bounds::parting_at;
use crate::first_word;
use crate::kept::keep_to;
use crate::rest_putter::{Alone, RestPutter};
use crate::text_order::place_in;
use crate::text_rest::TextRest;
use crate::texts::Texts;
use crate::world_traces::WorldTraces;
use crew_pool::Bell;
use sim_outer::{PutFailed, Sink};
use std::alloc::Global;
use std::sync::Wait;
use std::thread::{Threads, join_mut};

// Begins the text of a clone: it has the lines of the text before up to a word that is not after the time at which the
// two clones part. Returns the word.
fn begin_text(traces: &WorldTraces<'_>, texts: &mut Texts<'_>, c: u32) -> u64
    requires in_range { c < length traces.now.clones }
    requires can { CanPut traces.now.net texts.old }
    requires before { HasBeginning traces.now.net traces.now.clones c texts.old }
    ensures begun { IsBegun traces.now.net (trace_at traces.now c) result texts.new }
    ensures can { CanPut traces.now.net texts.new }
{
    let _clones = traces.len();
    let word = first_word(parting_at(traces, c));
    keep_to(&mut texts.text, &mut texts.marks, word)
}

// The word before which the next text has the same lines: 0 if there is no next text.
fn kept_until(traces: &WorldTraces<'_>, c: u32) -> u64
    requires in_range { c < length traces.now.clones }
    ensures whole { result % WORD_PLACES ≡ 0 }
{
    let clones = traces.len();
    if c + 1 < clones {
        first_word(parting_at(traces, c + 1))
    } else {
        0
    }
}

// Puts the lines of a clone: first those that the text has, and then the rest.
fn put_text_lines<'t, O: Sink, P: RestPutter<'t>>(
    traces: &WorldTraces<'t>,
    putter: &mut P,
    texts: &mut Texts<'t>,
    rest: TextRest,
    out: &mut O,
) -> Result<(), PutFailed>
    requires puts_for { P.puts_for putter.old traces.now }
    requires in_range { rest.c < length traces.now.clones }
    requires whole { rest.kept_until % WORD_PLACES ≡ 0 }
    requires can { CanPut traces.now.net texts.old }
    requires begun { IsBegun traces.now.net (trace_at traces.now rest.c) rest.from texts.old }
    // the lines are put, or cut off
    ensures ok { OnOk result (IsPartPut (body traces.now.net (clone_at traces.now.clones rest.c))
        (O.view out.old) (O.view out.new)) }
    ensures err { OnErr result (IsCutOff (body traces.now.net (clone_at traces.now.clones rest.c))
        (O.view out.old) (O.view out.new)) }
    // what the next clone finds
    ensures before { OnOk result (HasBeginning traces.now.net traces.now.clones (rest.c + 1) texts.new) }
    ensures can { CanPut traces.now.net texts.new }
    ensures puts_for { P.puts_for putter.new traces.now }
{
    let _clones = traces.len();
    let _place = place_in(traces.world, &traces.order, rest.c);
    match out.put_part(&texts.text) {
        Ok(()) => {}
        Err(failed) => return Err(failed),
    }
    match putter.put_lines(traces, texts, rest, out) {
        Ok(()) => Ok(()),
        Err(failed) => Err(failed),
    }
}

// Puts the text of a clone. Between two texts, the memory has a beginning of the last one.
fn put_clone_text<'t, O: Sink, P: RestPutter<'t>>(
    traces: &WorldTraces<'t>,
    putter: &mut P,
    texts: &mut Texts<'t>,
    c: u32,
    out: &mut O,
) -> Result<(), PutFailed>
    requires puts_for { P.puts_for putter.old traces.now }
    requires in_range { c < length traces.now.clones }
    requires can { CanPut traces.now.net texts.old }
    requires before { HasBeginning traces.now.net traces.now.clones c texts.old }
    // the text is put, or cut off
    ensures ok { OnOk result (IsPut (clone_text traces.now.net (clone_at traces.now.clones c))
        (O.view out.old) (O.view out.new)) }
    ensures err { OnErr result (IsCutOff (clone_text traces.now.net (clone_at traces.now.clones c))
        (O.view out.old) (O.view out.new)) }
    // what the next clone finds
    ensures before { OnOk result (HasBeginning traces.now.net traces.now.clones (c + 1) texts.new) }
    ensures can { CanPut traces.now.net texts.new }
    ensures puts_for { P.puts_for putter.new traces.now }
{
    let from = begin_text(traces, texts, c);
    let rest = TextRest {
        c,
        from,
        kept_until: kept_until(traces, c),
    };
    match put_name_line(&traces.name(c), out) {
        Ok(()) => {}
        Err(failed) => return Err(failed),
    }
    match put_text_lines(traces, putter, texts, rest, out) {
        Ok(()) => {}
        Err(failed) => return Err(failed),
    }
    match out.put(b"") {
        Ok(()) => Ok(()),
        Err(failed) => Err(failed),
    }
}

// Puts the text of each clone.
fn put_all<'t, O: Sink, P: RestPutter<'t>>(
    traces: &WorldTraces<'t>,
    putter: &mut P,
    texts: &mut Texts<'t>,
    out: &mut O,
) -> Result<(), PutFailed>
    requires puts_for { P.puts_for putter.old traces.now }
    requires ready { AreTextsReady traces.now.net traces.now.clones texts.old }
    ensures put { PutsAll traces.now (O.view out.old) (O.view out.new) result }
{
    for c in 0..traces.len() {
        match put_clone_text(traces, putter, texts, c, out) {
            Ok(()) => {}
            Err(failed) => return Err(failed),
        }
    }
    Ok(())
}

// Puts the text of each clone with the crew, and then ends its members.
fn put_and_end<'r, 't, O: Sink, R: Wait>(
    rt: &'r R,
    traces: &WorldTraces<'t>,
    help: &mut Help<'t>,
    bell: &Bell,
    texts: &mut Texts<'t>,
    out: &mut O,
) -> Result<(), PutFailed>
    requires makers { MakeFor traces.now help.old.makers }
    requires ready { AreTextsReady traces.now.net traces.now.clones texts.old }
    ensures put { PutsAll traces.now (O.view out.old) (O.view out.new) result }
{
    let help = Help {
        alloc: help.alloc,
        makers: help.makers.take(),
        rooms: Vec::new(help.alloc),
    };
    let mut putter = WithCrew { rt, help };
    let done = put_all(traces, &mut putter, texts, out);
    bell.end();
    done
}

// Puts the text of each clone while the members of the crew run in threads, which end after the last text.
fn put_beside<'t, O: Sink, R: Threads + Wait + Sync>(
    rt: &R,
    traces: &WorldTraces<'t>,
    help: &mut Help<'t>,
    members: LineMembers<'_, '_>,
    bell: &Bell,
    texts: &mut Texts<'t>,
    out: &mut O,
) -> Result<(), PutFailed>
    requires makers { MakeFor traces.now help.old.makers }
    requires ready { AreTextsReady traces.now.net traces.now.clones texts.old }
    ensures put { PutsAll traces.now (O.view out.old) (O.view out.new) result }
{
    let alloc = help.alloc;
    let mut members = Some(members);
    let mut make = || serve_once(rt, alloc, bell, &mut members);
    let mut put = || -> Result<(), PutFailed>
        requires { MakeFor traces.now help.now.makers × AreTextsReady traces.now.net traces.now.clones texts.now }
        ensures { PutsAll traces.entry.now (O.view out.entry.now) (O.view out.exit.now) result }
    { put_and_end(rt, traces, help, bell, texts, out) };
    let (_, done) = join_mut(rt, &mut make, &mut put);
    done
}

// Puts the text of each clone with the crew, if one has begun, or by the caller alone.
fn put_with<'t, O: Sink, R: Threads + Wait + Sync>(
    rt: &R,
    alloc: Global,
    traces: &WorldTraces<'t>,
    crew: Option<(Makers<'t>, Others<'t>)>,
    texts: Texts<'t>,
    out: &mut O,
) -> Result<(), PutFailed>
    requires makers { IfSome crew (λ c. c.0 ≡ traces.now) }
    requires ready { AreTextsReady traces.now.net traces.now.clones texts }
    ensures put { PutsAll traces.now (O.view out.old) (O.view out.new) result }
{
    let mut texts = texts;
    let Some((makers, others)) = crew else {
        return put_all(traces, &mut Alone, &mut texts, out);
    };
    let Others { members, bell } = others;
    let mut help = Help {
        alloc,
        makers: Some(makers),
        rooms: Vec::new(alloc),
    };
    put_beside(rt, traces, &mut help, members, &bell, &mut texts, out)
}

/// Puts the text of each clone, its name line and its lines, in one call, in parts as they are made. It runs in the
/// caller's thread, never waits for another thread, and allocates nothing.
///
/// The lines that a clone shares with the previous one are kept, and not made again.
pub fn put_texts_sequentially<'a, O: Sink>(
    traces: &WorldTraces<'a>,
    texts: Texts<'a>,
    out: &mut O,
) -> Result<(), PutFailed>
    requires ready { AreTextsReady traces.now.net traces.now.clones texts }
    // each text was put in one call, or a prefix of one in the last call, which failed, after all texts before it
    ensures ok { OnOk result (IsAppended (O.view out.old).bytes (clone_texts traces.now.net traces.now.clones)
        (O.view out.new).bytes) }
    ensures each { OnOk result (AreCounted (length traces.now.clones) (O.view out.old).calls (O.view out.new).calls) }
    ensures cut { OnErr result (AreCut (map (clone_text traces.now.net) traces.now.clones)
        (O.view out.old) (O.view out.new)) }
    ensures later { (O.view out.old).faults ≤ (O.view out.new).faults }
{
    let mut texts = texts;
    put_all(traces, &mut Alone, &mut texts, out)
}

/// The same with a crew. If there is a long text, and memory for it, a crew of `workers` workers makes the lines of
/// long texts. Without a crew nothing is allocated.
///
/// With one worker it does what `put_texts_sequentially` does, which is proved to return.
pub fn put_texts<'a, O: Sink, R: Threads + Wait + Sync>(
    rt: &R,
    alloc: Global,
    traces: &WorldTraces<'a>,
    workers: u32,
    texts: Texts<'a>,
    out: &mut O,
) -> Result<(), PutFailed>
    requires ready { AreTextsReady traces.now.net traces.now.clones texts }
    // each text was put in one call, or a prefix of one in the last call, which failed, after all texts before it
    ensures ok { OnOk result (IsAppended (O.view out.old).bytes (clone_texts traces.now.net traces.now.clones)
        (O.view out.new).bytes) }
    ensures each { OnOk result (AreCounted (length traces.now.clones) (O.view out.old).calls (O.view out.new).calls) }
    ensures cut { OnErr result (AreCut (map (clone_text traces.now.net) traces.now.clones)
        (O.view out.old) (O.view out.new)) }
    ensures later { (O.view out.old).faults ≤ (O.view out.new).faults }
{
    if workers <= 1 {
        return put_texts_sequentially(traces, texts, out);
    }
    // reborrowed, since the crew must not outlive the traces' borrow
    let crew = begin_if_long(alloc, &*traces, workers);
    put_with(rt, alloc, &*traces, crew, texts, out)
}
