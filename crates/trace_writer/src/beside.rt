//! Puts the rest of a clone's text together with the members of a crew.
ghost use Rattle.std.specs.Prelude.{◌≡◌, ◌⊎◌, ◌%◌, ◌<◌, ◌≤◌, length, IfOk, IfSome, OnErr};
ghost use Rattle.sim_base.specs.declared.message.TheConstants.{WORD_PLACES};
ghost use Rattle.trace_writer.specs.Batches.{IsBatchOf, IsMadeUpTo, MakeFor};
ghost use Rattle.trace_writer.specs.Kept.{CanPut, HasSameLines, IsPageKept};
ghost use Rattle.trace_writer.specs.Parts.{AreParts, IsPutUpTo};
ghost use Rattle.trace_writer.specs.Puts.{IsCutOff};
ghost use Rattle.trace_writer.specs.Rests.{MayPut, PutsRest, rest_lines};

use crate::batches::{Batch, Makers};
use crate::cuts::cuts_from;
use crate::first_word;
use crate::kept::keep_page;
use crate::making::MadePart;
use crate::rest_putter::RestPutter;
use crate::text_order::place_in;
use crate::text_rest::{TextRest, put_rest};
use crate::texts::Texts;
use crate::world_traces::WorldTraces;
use sim_outer::{PutFailed, Sink};
use std::alloc::Global;
use std::sync::Wait;

// The caller alone puts a rest with fewer lines than this; members would not make it faster.
const LONG_REST: u64 = 8_192;

/// The crew that makes the lines of long texts, if there is one, and its allocator.
#[derive(Drop)]
pub(crate) struct Help<'t> {
    /// The allocator.
    pub alloc: Global,
    /// Its caller: `None` if there is no crew, or once an allocation failed.
    pub makers: Option<Makers<'t>>,
    /// The memory of parts that were put, for the next ones.
    pub rooms: Vec<Vec<u8>>,
}

/// Parts that are made but not put, and the word before which the last one ends.
#[derive(Drop)]
pub(crate) struct ReadyParts {
    /// The parts, in order.
    pub parts: Vec<MadePart>,
    /// The word.
    pub until: u64,
}

// Keeps the memory of parts that were put. What finds no room in the list is freed.
fn keep_rooms(rooms: &mut Vec<Vec<u8>>, put: ReadyParts) {
    for made in put.parts {
        if rooms.push(made.bytes).is_err() {
            return;
        }
    }
}

// Keeps the lines of a part, if it ends at the word `kept_until` or before it. Returns the word, or 0 if the part is
// not kept.
fn keep_part(texts: &mut Texts<'_>, made: &MadePart, kept_until: u64) -> u64
    ensures either { (result ≡ kept_until) ⊎ (result ≡ 0) }
    ensures kept { 1 ≤ result → IsPageKept made.now.bytes.items made.now.until texts.old.text.items
        texts.old.marks.items texts.new.text.items texts.new.marks.items }
    ensures none { result ≡ 0 → HasSameLines texts.old texts.new }
    ensures merge { texts.new.merge ≡ texts.old.merge }
    ensures page { texts.new.page.items ≡ texts.old.page.items }
{
    if 0 < kept_until
        && made.until <= kept_until
        && keep_page(&mut texts.text, &mut texts.marks, &made.bytes, made.until)
    {
        kept_until
    } else {
        0
    }
}

// Puts ready parts, which a rest begins with. Returns the word before which the lines after them are kept. Only the
// contract reads the traces.
fn put_ready<O: Sink>(
    traces: &WorldTraces<'_>,
    texts: &mut Texts<'_>,
    rest: TextRest,
    ready: &ReadyParts,
    out: &mut O,
) -> Result<u64, PutFailed>
    requires may { MayPut traces.now rest texts.old }
    requires ready { AreParts traces.now rest.c rest.from ready.now.parts.items ready.now.until }
    ensures ok { IfOk result (λ kept. IsPutUpTo traces.now rest ready.now.until kept texts.new
        (O.view out.old) (O.view out.new)) }
    ensures err { OnErr result (IsCutOff (rest_lines traces.now rest) (O.view out.old) (O.view out.new)) }
    ensures can { CanPut traces.now.net texts.new }
{
    let _clones = traces.len();
    let _place = place_in(traces.world, &traces.order, rest.c);
    let mut kept_until = rest.kept_until;
    for made in &ready.parts {
        match out.put_part(&made.bytes) {
            Ok(()) => {}
            Err(failed) => return Err(failed),
        }
        kept_until = keep_part(texts, made, kept_until);
    }
    Ok(kept_until)
}

// Puts ready parts, and then the lines after them, which the caller makes.
fn put_last<'t, O: Sink>(
    traces: &WorldTraces<'t>,
    texts: &mut Texts<'t>,
    rest: TextRest,
    ready: &ReadyParts,
    out: &mut O,
) -> Result<(), PutFailed>
    requires may { MayPut traces.now rest texts.old }
    requires ready { AreParts traces.now rest.c rest.from ready.now.parts.items ready.now.until }
    ensures put { PutsRest traces.now rest texts.new (O.view out.old) (O.view out.new) result }
{
    let _clones = traces.len();
    let _place = place_in(traces.world, &traces.order, rest.c);
    let kept_until = match put_ready(traces, texts, rest, ready, out) {
        Ok(kept_until) => kept_until,
        Err(failed) => return Err(failed),
    };
    let left = TextRest {
        c: rest.c,
        from: ready.until,
        kept_until,
    };
    put_rest(traces, texts, left, out)
}

// Starts the next batch: parts from the beginning of a rest. `None` if there is no crew, or an allocation fails. The
// batch holds the makers until it is finished.
fn start_batch<'t>(
    traces: &WorldTraces<'t>,
    help: &mut Help<'t>,
    rest: TextRest,
    end: u64,
) -> Option<Batch<'t>>
    requires makers { MakeFor traces.now help.old.makers }
    requires in_range { rest.c < length traces.now.clones }
    requires nonempty { rest.from < end }
    requires whole { rest.kept_until % WORD_PLACES ≡ 0 }
    requires whole_end { end % WORD_PLACES ≡ 0 }
    ensures batch { IfSome result (λ batch. IsBatchOf traces.now rest end batch) }
    ensures makers { MakeFor traces.now help.new.makers }
{
    let makers = help.makers.take()?;
    makers.start(help.alloc, rest, end, &mut help.rooms).ok()
}

// Finishes a batch of parts that a rest begins with, and returns them. `None` if an allocation fails; then there is no
// crew any more. Only the contract reads the traces.
fn finish_batch<'t, R: Wait>(
    rt: &R,
    _traces: &WorldTraces<'t>,
    help: &mut Help<'t>,
    batch: Batch<'t>,
    rest: TextRest,
    end: u64,
) -> Option<ReadyParts>
    requires makers { MakeFor _traces.now help.old.makers }
    requires batch { IsBatchOf _traces.now rest end batch }
    ensures ready { IfSome result (λ ready. IsMadeUpTo _traces.now rest ready.parts.items ready.until) }
    ensures makers { MakeFor _traces.now help.new.makers }
{
    let until = batch.until();
    match batch.finish(rt, help.alloc) {
        Ok((makers, parts)) => {
            help.makers = Some(makers);
            Some(ReadyParts { parts, until })
        }
        Err(_) => None,
    }
}

// Puts a rest batch by batch: members make the parts of a batch while the caller puts those of the previous batch. If
// an allocation fails, the caller goes on alone, and allocates nothing. The memory of parts that were put is for those
// of the next batch.
fn put_by_makers<'t, O: Sink, R: Wait>(
    rt: &R,
    traces: &WorldTraces<'t>,
    help: &mut Help<'t>,
    texts: &mut Texts<'t>,
    rest: TextRest,
    out: &mut O,
) -> Result<(), PutFailed>
    requires makers { MakeFor traces.now help.old.makers }
    requires may { MayPut traces.now rest texts.old }
    ensures put { PutsRest traces.now rest texts.new (O.view out.old) (O.view out.new) result }
    ensures makers { MakeFor traces.now help.new.makers }
{
    let _clones = traces.len();
    let _place = place_in(traces.world, &traces.order, rest.c);
    let end = first_word(traces.world.model().horizon());
    let mut left = rest;
    let mut ready = ReadyParts {
        parts: Vec::new(help.alloc),
        until: rest.from,
    };
    'batch: while ready.until < end {
        let next = TextRest {
            c: rest.c,
            from: ready.until,
            kept_until: left.kept_until,
        };
        let Some(batch) = start_batch(traces, help, next, end) else {
            return put_last(traces, texts, left, &ready, out);
        };
        let kept_until = match put_ready(traces, texts, left, &ready, out) {
            Ok(kept_until) => kept_until,
            Err(failed) => return Err(failed),
        };
        left = TextRest {
            c: rest.c,
            from: ready.until,
            kept_until,
        };
        let Some(made) = finish_batch(rt, traces, help, batch, next, end) else {
            return put_rest(traces, texts, left, out);
        };
        let put = ready;
        ready = made;
        keep_rooms(&mut help.rooms, put);
    }
    put_last(traces, texts, left, &ready, out)
}

/// Puts rests together with the members of a crew that run in threads.
#[derive(Drop)]
pub(crate) struct WithCrew<'r, 't, R: Wait> {
    /// The caller's handle for waiting.
    pub rt: &'r R,
    /// The crew.
    pub help: Help<'t>,
}

impl<'r, 't, R: Wait> RestPutter<'t> for WithCrew<'r, 't, R> {
    ghost use Rattle.trace_writer.specs.Batches.{MakeFor};

    ghost puts_for = { λ p traces. MakeFor traces p.help.makers };

    // with the crew if there is one and the rest is long, otherwise by the caller alone
    fn put_lines<O: Sink>(
        &mut self,
        traces: &WorldTraces<'t>,
        texts: &mut Texts<'t>,
        rest: TextRest,
        out: &mut O,
    ) -> Result<(), PutFailed> {
        if self.help.makers.is_none() || cuts_from(traces, rest.c, rest.from).0 < LONG_REST {
            return put_rest(traces, texts, rest, out);
        }
        put_by_makers(self.rt, traces, &mut self.help, texts, rest, out)
    }
}
