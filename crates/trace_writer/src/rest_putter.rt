//! How the rest of a clone's text is put: by the caller alone, or with the members of a crew.
ghost use Rattle.trace_writer.specs.Rests.{MayPut, PutsRest};
ghost use Rattle.trace_writer.specs.WorldTraces.{WorldTracesView};

use crate::text_rest::{TextRest, put_rest};
use crate::texts::Texts;
use crate::world_traces::WorldTraces;
use sim_outer::{PutFailed, Sink};

/// The strategy that puts rests.
pub(crate) trait RestPutter<'t> {
    // it may put rests of these traces
    ghost puts_for: { Self → WorldTracesView → Type 0 };

    /// Puts a rest.
    fn put_lines<O: Sink>(
        &mut self,
        traces: &WorldTraces<'t>,
        texts: &mut Texts<'t>,
        rest: TextRest,
        out: &mut O,
    ) -> Result<(), PutFailed>
        requires puts_for { puts_for self.old traces.now }
        requires may { MayPut traces.now rest texts.old }
        ensures put { PutsRest traces.now rest texts.new (O.view out.old) (O.view out.new) result }
        ensures puts_for { puts_for self.new traces.now };
}

/// Puts rests by the caller alone. It never waits, and allocates nothing.
#[derive(Clone, Copy, Debug)]
pub(crate) struct Alone;

impl<'t> RestPutter<'t> for Alone {
    ghost puts_for = { λ _ _. Unit {0} };

    fn put_lines<O: Sink>(
        &mut self,
        traces: &WorldTraces<'t>,
        texts: &mut Texts<'t>,
        rest: TextRest,
        out: &mut O,
    ) -> Result<(), PutFailed> {
        put_rest(traces, texts, rest, out)
    }
}
