//! The memory for all texts.
ghost use Rattle.std.specs.Prelude.{IfOk};
ghost use Rattle.trace_writer.specs.Texts.{AreTextsReady};

use crate::bounds::most_lines;
use crate::merge::LogMerge;
use crate::pages::PAGE;
use crate::world_traces::WorldTraces;
use net_model::limits::{MAX_LIMIT, MAX_STATIONS};
use sim_base::NoMemory;
use std::alloc::Global;
use trace_report::MAX_LINE;

/// The number of bytes of lines of one log that are made at a time.
pub(crate) const PIECE: usize = 16_384;

/// The most marks of a kept beginning.
pub(crate) const MOST_MARKS: usize = 65_536;

/// The maximum number of lines of a clone: all logs of the largest model are full.
pub const MAX_LINES: usize = MAX_STATIONS * MAX_LIMIT as usize;

/// The place of a word in a kept beginning: the lines of all entries before it have this number of bytes.
#[derive(Clone, Copy)]
pub(crate) struct Mark {
    /// The word.
    pub word: u64,
    /// The number of bytes.
    pub size: usize,
}

/// All memory for the texts of clones.
#[derive(Drop)]
pub struct Texts<'a> {
    /// Merges the logs of the clone whose text is put.
    pub(crate) merge: LogMerge<'a>,
    /// Lines that were just made.
    pub(crate) page: Vec<u8>,
    /// The first lines of the last text.
    pub(crate) text: Vec<u8>,
    /// The places of some words in it.
    pub(crate) marks: Vec<Mark>,
}

/// Allocates all memory that the texts need. Writing them needs no more.
pub fn prepare<'a>(alloc: Global, traces: &WorldTraces<'a>) -> Result<Texts<'a>, NoMemory>
    ensures ready { IfOk result (λ texts. AreTextsReady traces.now.net traces.now.clones texts) }
{
    let _clones = traces.len();
    let merge = LogMerge::new(alloc, traces.world.model().len() as usize)?;
    let page = vec![in alloc; 0u8; PAGE + MAX_LINE]?;
    let text = Vec::with_capacity(alloc, MAX_LINE * most_lines(traces))?;
    let marks = Vec::with_capacity(alloc, MOST_MARKS)?;
    Ok(Texts {
        merge,
        page,
        text,
        marks,
    })
}
