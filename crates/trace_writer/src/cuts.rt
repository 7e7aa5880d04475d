//! Where the parts of a long text end.
ghost use Rattle.std.specs.Prelude.{◌≡◌, ◌%◌, ◌<◌, ◌≤◌, length};
ghost use Rattle.sim_base.specs.declared.message.TheConstants.{WORD_PLACES};

use crate::text_order::place_in;
use crate::world_traces::WorldTraces;
use crate::{place_of_word, word_at};
use sim_base::message::WORD_PLACES;

// The approximate number of lines of a part: its task costs little compared to them, and its buffer stays in the cache.
const LINES_OF_A_PART: u64 = 4_096;

/// Cuts a text into parts by the log of the station that has most of its lines. Where a part ends is a hint: no text
/// depends on it.
#[derive(Clone, Copy)]
pub(crate) struct Cuts {
    // the station's number, and a place in its log
    station: u32,
    place: u64,
    // the number of its entries in a part
    step: u64,
}

/// The number of lines of a clone from a word on, and cuts of these lines.
pub(crate) fn cuts_from(traces: &WorldTraces<'_>, c: u32, word: u64) -> (u64, Cuts)
    requires in_range { c < length traces.now.clones }
{
    let place = place_in(traces.world, &traces.order, c);
    let mut all: u64 = 0;
    let mut most: u64 = 0;
    let mut cuts = Cuts {
        station: 0,
        place: 0,
        step: 1,
    };
    for s in 0..traces.world.model().len() {
        let log = traces.world.log(place, s + 1);
        let first = place_of_word(log, word);
        let count = log.len() - first;
        all = all.saturating_add(count);
        if most < count {
            most = count;
            cuts.station = s + 1;
            cuts.place = first;
        }
    }
    cuts.step = (most / (all / LINES_OF_A_PART + 1)).max(1);
    (all, cuts)
}

// The word of an entry in a clone's log at a station, or `other` if there is none.
fn word_in(traces: &WorldTraces<'_>, c: u32, station: u32, entry: u64, other: u64) -> u64
    requires in_range { c < length traces.now.clones }
{
    if station == 0 || station > traces.world.model().len() {
        return other;
    }
    let place = place_in(traces.world, &traces.order, c);
    let log = traces.world.log(place, station);
    if entry < log.len() {
        word_at(log, entry)
    } else {
        other
    }
}

impl Cuts {
    // The word of the busiest log's entry one step ahead, or `other` if there is none.
    fn step(&mut self, traces: &WorldTraces<'_>, c: u32, other: u64) -> u64
        requires in_range { c < length traces.now.clones }
    {
        self.place = self.place.saturating_add(self.step);
        word_in(traces, c, self.station, self.place, other)
    }

    /// The end of the next part, which begins at a word: later than that word, and at most `until`.
    pub(crate) fn next_end(
        &mut self,
        traces: &WorldTraces<'_>,
        c: u32,
        from: u64,
        until: u64,
    ) -> u64
        requires in_range { c < length traces.now.clones }
        requires nonempty { from < until }
        requires whole { until % WORD_PLACES ≡ 0 }
        ensures later { from < result }
        ensures within { result ≤ until }
        ensures whole { result % WORD_PLACES ≡ 0 }
    {
        let mut hint = self.step(traces, c, until);
        if hint >= until {
            // the busiest station may have handled its messages before most of the others did
            *self = cuts_from(traces, c, from).1;
            hint = self.step(traces, c, until);
        }
        let end = hint / WORD_PLACES * WORD_PLACES;
        if from < end && end < until {
            end
        } else {
            until
        }
    }
}
