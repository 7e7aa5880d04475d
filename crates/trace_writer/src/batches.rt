//! Batches of parts: a crew makes the lines of one batch while its caller puts those of the previous batch.
ghost use Rattle.std.specs.Prelude.{◌≡◌, ◌%◌, ◌<◌, ◌≤◌, length, IfOk, IfSome};
ghost use Rattle.sim_base.specs.declared.message.TheConstants.{WORD_PLACES};
ghost use Rattle.crew_pool.specs.declared.crew.TheConstants.{MAX_TASKS};
ghost use Rattle.trace_writer.specs.Batches.{AreMade, IsBatchOf};
ghost use Rattle.trace_writer.specs.Parts.{AreJoined, AreParts};

use crate::bounds::is_any_long;
use crate::cuts::cuts_from;
use crate::making::{LineWork, MadePart, TextPart};
use crate::text_rest::TextRest;
use crate::world_traces::WorldTraces;
use crew_pool::{Bell, Crew, MAX_TASKS, Member, NoGate, Started, Workers, serve_all};
use sim_base::{NoMemory, Steps};
use std::alloc::Global;
use std::marker::Brand;
use std::sync::ledger::{Blank, Ledger};
use std::sync::{Arc, Wait};
use std::thread::Threads;

// Parts of a batch for each worker. With several, the parts that finish last are a small share of the batch.
const PARTS_OF_A_WORKER: usize = 8;

/// The caller of a crew that makes lines, between two batches. Contracts see the traces whose lines it makes.
#[derive(Drop)]
pub(crate) struct Makers<'t> {
    traces: &'t WorldTraces<'t>,
    crew: Crew<'static, LineWork<'t>, NoGate>,
    // the number of parts of a batch
    parts: usize,
}

impl<'t> std::marker::Model for Makers<'t> {
    ghost use Rattle.std.specs.Prelude.{◌≤◌};
    ghost use Rattle.crew_pool.specs.declared.crew.TheConstants.{MAX_TASKS};
    ghost use Rattle.trace_writer.specs.WorldTraces.{WorldTracesView};

    ghost Value = { WorldTracesView };

    ghost view = { λ m. m.traces.now };

    ghost invariant = { λ m. (1 ≤ m.parts) × (m.parts ≤ MAX_TASKS) };
}

/// The members of a crew that makes lines, except its caller.
pub(crate) type LineMembers<'g, 't> = Vec<Member<'g, LineWork<'t>, NoGate>>;

/// The members, and the bell that dismisses them.
#[derive(Drop)]
pub(crate) struct Others<'t> {
    /// The members.
    pub members: LineMembers<'static, 't>,
    /// Their bell.
    pub bell: Arc<Bell>,
}

/// A batch that the crew is making: consecutive parts of a clone's text. Contracts see the traces, the clone, the word
/// at which the first part begins, and the word at which the last one ends.
#[derive(Drop)]
pub(crate) struct Batch<'t> {
    traces: &'t WorldTraces<'t>,
    parts: usize,
    started: Started<'static, LineWork<'t>, NoGate>,
    c: u32,
    from: u64,
    until: u64,
}

impl<'t> std::marker::Model for Batch<'t> {
    ghost use Rattle.trace_writer.specs.Batches.{BatchView, IsUnderWay};

    ghost Value = { BatchView };

    ghost view = { λ b. record { traces = b.traces.now; c = b.c; from = b.from; until = b.until } };

    ghost invariant = { λ b. IsUnderWay b.traces.now b.started b.c b.from b.until b.parts };
}

// Begins a crew of this number of workers. The caller is one of them.
fn begin<'t>(
    alloc: Global,
    traces: &'t WorldTraces<'t>,
    workers: Workers,
) -> Result<(Makers<'t>, Others<'t>), NoMemory>
    ensures makers { IfOk result (λ r. r.0 ≡ traces.now) }
{
    let (crew, members) = Crew::begin(alloc, &NoGate, workers)?;
    let bell = crew.bell()?;
    let parts = (workers.count as usize * PARTS_OF_A_WORKER).min(MAX_TASKS);
    Ok((
        Makers {
            traces,
            crew,
            parts,
        },
        Others { members, bell },
    ))
}

/// Begins a crew of this number of workers, if some text is long. `None` if none is, or if an allocation fails.
pub(crate) fn begin_if_long<'t>(
    alloc: Global,
    traces: &'t WorldTraces<'t>,
    workers: u32,
) -> Option<(Makers<'t>, Others<'t>)>
    ensures makers { IfSome result (λ r. r.0 ≡ traces.now) }
{
    let workers = Workers::new(workers)?;
    if workers.count == 1 || !is_any_long(traces) {
        return None;
    }
    begin(alloc, traces, workers).ok()
}

/// Runs the members until the bell rings, unless they have run already.
pub(crate) fn serve_once<R: Threads + Wait + Sync>(
    rt: &R,
    alloc: Global,
    bell: &Bell,
    members: &mut Option<LineMembers<'_, '_>>,
) {
    if let Some(members) = members.take() {
        serve_all(rt, alloc, bell, members);
    }
}

// The word before which the next part ends at the latest: no part has lines that are kept and others.
fn stop_after(from: u64, kept_until: u64, end: u64) -> u64
    requires nonempty { from < end }
    requires whole { kept_until % WORD_PLACES ≡ 0 }
    requires whole_end { end % WORD_PLACES ≡ 0 }
    ensures later { from < result }
    ensures at_most { result ≤ end }
    ensures whole { result % WORD_PLACES ≡ 0 }
{
    if from < kept_until {
        kept_until.min(end)
    } else {
        end
    }
}

// Memory for the lines of a part: that of an earlier part, or new one.
fn room_of_part(alloc: Global, rooms: &mut Vec<Vec<u8>>) -> Vec<u8> {
    match rooms.pop() {
        Some(room) => room,
        None => Vec::new(alloc),
    }
}

// Cuts `most` parts from the beginning of a rest, or fewer if they reach its end. Returns them and the word at which
// the last one ends. The parts get the memory of earlier ones.
fn cut_parts(
    alloc: Global,
    traces: &WorldTraces<'_>,
    rest: TextRest,
    end: u64,
    most: usize,
    rooms: &mut Vec<Vec<u8>>,
) -> Result<(Vec<TextPart>, u64), NoMemory>
    requires in_range { rest.c < length traces.now.clones }
    requires at_least { 1 ≤ most }
    requires nonempty { rest.from < end }
    requires whole { rest.kept_until % WORD_PLACES ≡ 0 }
    requires whole_end { end % WORD_PLACES ≡ 0 }
    ensures joined { IfOk result (λ r. AreJoined rest.c rest.from r.0.items r.1) }
    ensures at_most { IfOk result (λ r. length r.0.items ≤ most) }
    ensures within { IfOk result (λ r. r.1 ≤ end) }
    ensures further { IfOk result (λ r. rest.from < r.1) }
{
    let (_, mut cuts) = cuts_from(traces, rest.c, rest.from);
    let mut parts = Vec::with_capacity(alloc, most)?;
    let mut from = rest.from;
    'cut: while from < end && parts.len() < most {
        let stop = stop_after(from, rest.kept_until, end);
        let until = cuts.next_end(traces, rest.c, from, stop);
        parts.push(TextPart {
            c: rest.c,
            from,
            until,
            room: room_of_part(alloc, rooms),
        })?;
        from = until;
    }
    Ok((parts, from))
}

// Finishes the call of a crew. Its step counter is not used.
fn finish_counted<'t, L: Ledger, R: Wait>(
    rt: &R,
    alloc: Global,
    started: Started<'static, LineWork<'t>, NoGate>,
    blank: Blank,
) -> Result<(Crew<'static, LineWork<'t>, NoGate>, Vec<MadePart>), NoMemory>
    requires name { blank.name ≡ L.name }
    requires parts { blank.parts ≡ L.parts }
    requires nonempty { 0 < L.parts }
    ensures made { IfOk result (λ r. AreMade started.entry.work started.entry.items r.1.items) }
{
    let mut steps = Steps::<L>::new(blank);
    started.finish(rt, alloc, &mut steps)
}

impl<'t> Makers<'t> {
    /// Starts a batch of parts, cut from the beginning of a rest whose last line comes before the word `end`. The parts
    /// get the memory of earlier ones.
    ///
    /// Errors: out of memory. The crew is then lost.
    pub(crate) fn start(
        self,
        alloc: Global,
        rest: TextRest,
        end: u64,
        rooms: &mut Vec<Vec<u8>>,
    ) -> Result<Batch<'t>, NoMemory>
        requires in_range { rest.c < length self.clones }
        requires nonempty { rest.from < end }
        requires whole { rest.kept_until % WORD_PLACES ≡ 0 }
        requires whole_end { end % WORD_PLACES ≡ 0 }
        ensures batch { IfOk result (λ b. IsBatchOf self.entry rest end b) }
    {
        let Makers {
            traces,
            crew,
            parts,
        } = self;
        let (items, until) = cut_parts(alloc, traces, rest, end, parts, rooms)?;
        let work = Arc::new(alloc, LineWork::of(traces))?;
        let started = crew.start(alloc, work, items)?;
        Ok(Batch {
            traces,
            parts,
            started,
            c: rest.c,
            from: rest.from,
            until,
        })
    }
}

impl<'t> Batch<'t> {
    /// The word at which the last part ends.
    pub(crate) fn until(&self) -> u64
        ensures value { result ≡ self.now.until }
    {
        self.until
    }

    /// Makes what no member has begun, and returns the crew with the lines of all parts, in order.
    ///
    /// Errors: out of memory. The crew is then lost.
    pub(crate) fn finish<R: Wait>(
        self,
        rt: &R,
        alloc: Global,
    ) -> Result<(Makers<'t>, Vec<MadePart>), NoMemory>
        ensures makers { IfOk result (λ r. r.0 ≡ self.entry.traces) }
        ensures made { IfOk result (λ r. AreParts self.entry.traces self.entry.c self.entry.from r.1.items
            self.entry.until) }
    {
        let Batch {
            traces,
            parts,
            started,
            c: _,
            from: _,
            until: _,
        } = self;
        let (crew, made) = finish_counted::<Brand, R>(rt, alloc, started, Blank::new(1))?;
        Ok((
            Makers {
                traces,
                crew,
                parts,
            },
            made,
        ))
    }
}
