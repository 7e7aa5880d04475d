//! The work of the crew that makes lines: each task makes the lines of a part of a text.
ghost use Rattle.std.specs.Prelude.{◌≡◌, [], IfOk};
ghost use Rattle.trace_writer.specs.Parts.{IsMade, IsPart};

use crate::merge::LogMerge;
use crate::pages::PAGE;
use crate::text_order::place_in;
use crate::text_rest::fill_merge;
use crate::world_traces::WorldTraces;
use crew_pool::Work;
use sim_base::{NoMemory, Steps};
use std::alloc::Global;
use std::sync::ledger::Ledger;
use trace_report::MAX_LINE;

// The bytes that are reserved for a part of about 4,096 lines. Few lines are longer than 64 bytes.
const BYTES_OF_A_PART: usize = 262_144;

/// A part of a text: the lines of a clone from one word up to another.
#[derive(Drop)]
pub(crate) struct TextPart {
    /// The place of the clone among all clones.
    pub c: u32,
    /// The word from which it has lines.
    pub from: u64,
    /// The word before which it ends.
    pub until: u64,
    /// The memory for its lines. What it holds means nothing.
    pub room: Vec<u8>,
}

/// The lines of a part.
#[derive(Drop)]
pub(crate) struct MadePart {
    /// The word before which it ends.
    pub until: u64,
    /// The lines.
    pub bytes: Vec<u8>,
}

/// The work of making lines of clones. Contracts see the traces.
#[derive(Drop)]
pub(crate) struct LineWork<'t> {
    traces: &'t WorldTraces<'t>,
}

impl<'t> std::marker::Model for LineWork<'t> {
    ghost use Rattle.trace_writer.specs.WorldTraces.{WorldTracesView};

    ghost Value = { WorldTracesView };

    ghost view = { λ w. w.traces.now };
}

impl<'t> LineWork<'t> {
    ghost use Rattle.std.specs.Prelude.{◌≡◌};

    /// The work for these traces.
    pub(crate) fn of(traces: &'t WorldTraces<'t>) -> LineWork<'t>
        ensures value { result ≡ traces.now }
    {
        LineWork { traces }
    }
}

// The memory of an earlier part for the lines of the next one.
fn emptied(room: Vec<u8>) -> Result<Vec<u8>, NoMemory>
    ensures empty { IfOk result (λ bytes. bytes.items ≡ []) }
{
    let mut bytes = room;
    bytes.clear();
    bytes.reserve(BYTES_OF_A_PART)?;
    Ok(bytes)
}

/// Makes the lines of a part in its memory, with a merge and a page of its own.
///
/// Errors: out of memory.
fn make_part(alloc: Global, traces: &WorldTraces<'_>, part: TextPart) -> Result<MadePart, NoMemory>
    requires part { IsPart traces.now part }
    ensures made { IfOk result (λ made. IsMade traces.now part made) }
{
    let _clones = traces.len();
    let _place = place_in(traces.world, &traces.order, part.c);
    let TextPart {
        c,
        from,
        until,
        room,
    } = part;
    let model = traces.world.model();
    let mut merge = LogMerge::new(alloc, model.len() as usize)?;
    fill_merge(traces, &mut merge, c, from);
    let mut page = vec![in alloc; 0u8; PAGE + MAX_LINE]?;
    let mut bytes = emptied(room)?;
    'page: while merge.least() < until {
        let used = merge.fill_page(until, model, &traces.names, &mut page);
        bytes.extend_from_slice(&page[..used])?;
    }
    Ok(MadePart { until, bytes })
}

impl<'t> Work for LineWork<'t> {
    type In = TextPart;

    type Out = MadePart;

    ghost use Rattle.trace_writer.specs.Parts.{IsMade, IsPart};

    ghost ready = { λ work _ part. IsPart work part };

    ghost answers = { λ work _ part made. IsMade work part made };

    ghost cost = { λ _. 0 };

    fn run<L: Ledger>(
        &self,
        alloc: Global,
        _i: u32,
        item: TextPart,
        _steps: &mut Steps<L>,
    ) -> Result<MadePart, NoMemory> {
        make_part(alloc, self.traces, item)
    }

    fn spent(&self, _out: &MadePart) -> u64 {
        0
    }

    fn is_small(&self) -> bool {
        false
    }
}
