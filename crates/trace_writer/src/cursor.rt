//! Cursors: the merge of a clone's logs, entry by entry.
//!
//! A log has the messages that one station has handled, in order. The trace of a clone is the merge of the logs of all
//! its stations, in the order of keys: by time, sender and number. A [`Cursor`] returns it entry by entry, and makes no
//! list of entries:
//!
//! ```text
//! gate   1  4  4  9 ..  \
//! desk   2  4  7 ..      >  1  2  4  4  4  5  7  9 ..
//! out    5 ..           /
//! ```
//!
//! ```text
//! let mut cursor: Cursor<'_, 8> = Cursor::new(alloc, 3)?;   // allocates all its memory
//! cursor.clear();
//! cursor.add(walk_from_word(gate, word));                   // station after station
//! cursor.add(walk_from_word(desk, word));
//! cursor.add(walk_from_word(out, word));
//! while cursor.least() < NO_WORD { .. cursor.take() .. }    // the trace from the word on
//! ```
//!
//! A tournament ([`Tree`]) finds the least of the next keys. A key is a 64-bit word whose last six bits are the place
//! of its log. So the least word has the place of the next log. A tournament has 8, 16 or 64 words, in an array of
//! fixed size: a step is one `min` for each level, without a loop or a branch. The keys of every run within the model's
//! limits fit, and so do those of logs whose entries are all packed. A log at its end has the greatest word.
//!
//! Contracts see a cursor as the list of its remaining entries. `run_laws::beginning_laws` says that for a clone's logs
//! from a word on this is the clone's trace from there on. The promise that a text has each entry of its clone once and
//! in order rests on it.
ghost use Rattle.std.specs.Prelude.{◌≡◌, ◌∷◌, [], ◌+◌, ◌<◌, ◌≤◌, IfOk, length};
ghost use Rattle.sim_base.specs.declared.message.TheConstants.{WORD_PLACES};
ghost use Rattle.run_laws.specs.Merges.{merge};
ghost use Rattle.log_chain.specs.Packing.{FitWords};
ghost use Rattle.log_chain.specs.Stored.{entry_in};
ghost use Rattle.trace_writer.specs.Cursors.{IsNextWord};
ghost use Rattle.trace_writer.specs.FixedTrees.{IsFixedCount};
ghost use Rattle.trace_writer.specs.Words.{by_key, word_of};

use crate::tree::{NO_WORD, Tree};
use log_chain::{StoredEntry, Walk};
use sim_base::NoMemory;
use sim_base::message::WORD_PLACES;
use std::alloc::Global;
use std::marker::Model;

/// Merge of at most `COUNT` logs, in the order of keys.
///
/// Contracts see the remaining entries, the number of logs added, and the most logs that may be added.
#[derive(Drop)]
pub struct Cursor<'a, const COUNT: usize> {
    walks: Vec<Walk<'a>>,
    // for each place of a log, the key of its next entry as a word
    tree: Tree<COUNT>,
    most: usize,
}

impl<'a, const COUNT: usize> Model for Cursor<'a, COUNT> {
    ghost use Rattle.std.specs.Prelude.{length, vec_capacity};
    ghost use Rattle.trace_writer.specs.Cursors.{CursorView, IsCursor};
    ghost use Rattle.trace_writer.specs.Words.{merge_all};

    ghost Value = { CursorView };

    ghost view = { λ c. record { left = merge_all c.walks.items; logs = length c.walks.items; most = c.most } };

    ghost invariant = { λ c. IsCursor c.walks.items c.tree (vec_capacity c.walks) c.most };
}

impl<'a, const COUNT: usize> Cursor<'a, COUNT> {
    /// A cursor without logs; `most` may be added. It allocates all its memory here.
    pub fn new(alloc: Global, most: usize) -> Result<Cursor<'a, COUNT>, NoMemory>
        requires fixed { IsFixedCount COUNT }
        requires at_most { most ≤ COUNT }
        ensures value { IfOk result (λ c. c ≡ record { left = []; logs = 0; most = most }) }
    {
        let walks = Vec::with_capacity(alloc, most)?;
        let tree = Tree::new();
        Ok(Cursor { walks, tree, most })
    }

    /// Removes all logs.
    pub fn clear(&mut self)
        ensures value { self.new ≡ record { left = []; logs = 0; most = self.old.most } }
    {
        self.walks.clear();
        self.tree.clear();
    }

    /// Adds the rest of a walk. If two keys are equal, the entry of the walk that was added first comes first.
    pub fn add(&mut self, walk: Walk<'a>)
        requires free { self.old.logs < self.old.most }
        requires fit { FitWords walk }
        ensures value { self.new ≡ record self.old {
          left = merge by_key self.old.left walk.entry;
          logs = self.old.logs + 1;
        } }
    {
        let place = self.walks.len();
        let word = word(&walk, place as u64);
        match self.walks.push(walk) {
            Ok(()) => {}
            Err(_) => unreachable!(),
        }
        self.tree.set(place, word);
    }

    /// The word of the next entry, with the place of its log; the greatest word at the end.
    #[inline(always)]
    pub fn least(&self) -> u64
        ensures next { IsNextWord result self.now.left }
    {
        self.tree.least()
    }

    /// The next entry, as its log stores it. The cursor must not be at its end.
    #[inline(always)]
    pub fn take(&mut self) -> StoredEntry<'a>
        requires nonempty { 1 ≤ length self.old.left }
        ensures value { self.old ≡ record self.new { left = entry_in result ∷ self.new.left } }
    {
        let place = self.tree.least() % WORD_PLACES;
        let i = place as usize;
        let entry = self.walks[i].take();
        self.tree.set(i, word(&self.walks[i], place));
        entry
    }
}

// The key of the next entry as a word, with the place of the walk; the greatest word at the end.
#[inline(always)]
fn word(walk: &Walk<'_>, place: u64) -> u64
    requires at_most { place < WORD_PLACES }
    requires fit { FitWords walk.now }
    ensures value { result ≡ word_of place walk.now }
{
    match walk.word(place) {
        Some(word) => word,
        None => NO_WORD,
    }
}
