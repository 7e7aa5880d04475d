//! The rest of a clone's text, put by the caller alone.
ghost use Rattle.std.specs.Prelude.{◌≡◌, ◌<◌, length};
ghost use Rattle.sim_base.specs.Clones.{clone_at};
ghost use Rattle.stations.specs.Runs.{trace_of};
ghost use Rattle.run_laws.specs.Beginnings.{from};
ghost use Rattle.trace_writer.specs.Words.{entry_word};
ghost use Rattle.trace_writer.specs.Rests.{MayPut, PutsRest};

use crate::line_puts::put_lines;
use crate::merge::LogMerge;
use crate::text_order::place_in;
use crate::texts::Texts;
use crate::world_traces::WorldTraces;
use crate::{first_word, walk_from_word};
use sim_outer::{PutFailed, Sink};

/// The rest of a text: the lines of a clone from a word on.
#[derive(Clone, Copy)]
pub(crate) struct TextRest {
    /// The place of the clone among all clones.
    pub c: u32,
    /// The word from which on lines are not yet put.
    pub from: u64,
    /// The word before which lines are kept for the next text: 0 if none are.
    pub kept_until: u64,
}

/// Fills a merge with what a clone's logs have from a word on.
pub(crate) fn fill_merge<'t>(traces: &WorldTraces<'t>, merge: &mut LogMerge<'t>, c: u32, word: u64)
    requires in_range { c < length traces.now.clones }
    requires most { merge.old.most ≡ length traces.now.net.sites }
    ensures left { merge.new.left ≡ from entry_word word (trace_of traces.now.net (clone_at traces.now.clones c)) }
    ensures most { merge.new.most ≡ merge.old.most }
{
    let place = place_in(traces.world, &traces.order, c);
    merge.clear();
    for s in 0..traces.world.model().len() {
        merge.add(walk_from_word(traces.world.log(place, s + 1), word));
    }
}

/// Puts the rest of a text. It never waits, and allocates nothing.
pub(crate) fn put_rest<'t, O: Sink>(
    traces: &WorldTraces<'t>,
    texts: &mut Texts<'t>,
    rest: TextRest,
    out: &mut O,
) -> Result<(), PutFailed>
    requires may { MayPut traces.now rest texts.old }
    ensures put { PutsRest traces.now rest texts.new (O.view out.old) (O.view out.new) result }
{
    let _clones = traces.len();
    let _place = place_in(traces.world, &traces.order, rest.c);
    fill_merge(traces, &mut texts.merge, rest.c, rest.from);
    let model = traces.world.model();
    let end = first_word(model.horizon());
    match put_lines(model, &traces.names, texts, rest.kept_until, end, out) {
        Ok(()) => Ok(()),
        Err(failed) => Err(failed),
    }
}
