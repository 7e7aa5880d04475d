//! The merge of a clone's logs, in the smallest tournament that has a place for each log.
ghost use Rattle.std.specs.Prelude.{◌≡◌, ◌+◌, ◌%◌, ◌<◌, ◌≤◌, [], length, take, IfOk};
ghost use Rattle.sim_base.specs.declared.message.TheConstants.{WORD_PLACES};
ghost use Rattle.run_laws.specs.Merges.{merge};
ghost use Rattle.log_chain.specs.Packing.{FitWords};
ghost use Rattle.trace_writer.specs.Cursors.{IsNextWord};
ghost use Rattle.trace_writer.specs.Words.{by_key};
ghost use Rattle.trace_report.specs.Slots.{AreNames};
ghost use Rattle.trace_report.specs.declared.line.TheConstants.{MAX_LINE};
ghost use Rattle.trace_writer.specs.Merges.{cursor_in};
ghost use Rattle.trace_writer.specs.Pages.{IsPage, IsPast, reached};
ghost use Rattle.trace_writer.specs.declared.pages.TheConstants.{PAGE};

use crate::Cursor;
use crate::pages::fill_page;
use log_chain::Walk;
use net_model::Model;
use sim_base::NoMemory;
use sim_base::message::WORD_PLACES;
use std::alloc::Global;
use trace_report::Names;

/// A cursor with a place for each log.
#[derive(Drop)]
pub(crate) enum AnyCursor<'a> {
    /// For at most 8 logs.
    Small(Cursor<'a, 8>),
    /// For at most 16.
    Middle(Cursor<'a, 16>),
    /// For at most 64.
    Large(Cursor<'a, 64>),
}

/// The merge of a clone's logs. Contracts see what its cursor shows.
#[derive(Drop)]
pub(crate) struct LogMerge<'a> {
    cursor: AnyCursor<'a>,
}

impl<'a> std::marker::Model for LogMerge<'a> {
    ghost use Rattle.trace_writer.specs.Cursors.{CursorView};
    ghost use Rattle.trace_writer.specs.Merges.{cursor_in};

    ghost Value = { CursorView };

    ghost view = { λ m. cursor_in m.cursor };
}

// A cursor without logs; `most` may be added.
fn cursor_for<'a>(alloc: Global, most: usize) -> Result<AnyCursor<'a>, NoMemory>
    requires at_most { most ≤ WORD_PLACES }
    ensures value { IfOk result (λ c. cursor_in c ≡ record { left = []; logs = 0; most = most }) }
{
    if most <= 8 {
        Ok(AnyCursor::Small(Cursor::new(alloc, most)?))
    } else if most <= 16 {
        Ok(AnyCursor::Middle(Cursor::new(alloc, most)?))
    } else {
        Ok(AnyCursor::Large(Cursor::new(alloc, most)?))
    }
}

impl<'a> LogMerge<'a> {
    /// A merge without logs, to which `most` may be added. It allocates all its memory here.
    pub(crate) fn new(alloc: Global, most: usize) -> Result<LogMerge<'a>, NoMemory>
        requires at_most { most ≤ WORD_PLACES }
        ensures value { IfOk result (λ m. m ≡ record { left = []; logs = 0; most = most }) }
    {
        let cursor = cursor_for(alloc, most)?;
        Ok(LogMerge { cursor })
    }

    /// Removes all logs.
    pub(crate) fn clear(&mut self)
        ensures value { self.new ≡ record { left = []; logs = 0; most = self.old.most } }
    {
        match &mut self.cursor {
            AnyCursor::Small(cursor) => cursor.clear(),
            AnyCursor::Middle(cursor) => cursor.clear(),
            AnyCursor::Large(cursor) => cursor.clear(),
        }
    }

    /// Adds the rest of a log.
    pub(crate) fn add(&mut self, walk: Walk<'a>)
        requires free { self.old.logs < self.old.most }
        requires fit { FitWords walk }
        ensures value { self.new ≡ record self.old {
          left = merge by_key self.old.left walk.entry;
          logs = self.old.logs + 1;
        } }
    {
        match &mut self.cursor {
            AnyCursor::Small(cursor) => cursor.add(walk),
            AnyCursor::Middle(cursor) => cursor.add(walk),
            AnyCursor::Large(cursor) => cursor.add(walk),
        }
    }

    /// The word of the next entry, with the place of its log; the greatest word at the end.
    pub(crate) fn least(&self) -> u64
        ensures next { IsNextWord result self.now.left }
    {
        match &self.cursor {
            AnyCursor::Small(cursor) => cursor.least(),
            AnyCursor::Middle(cursor) => cursor.least(),
            AnyCursor::Large(cursor) => cursor.least(),
        }
    }

    /// The word of the next entry without a place, or a limit, if no entry before it is left.
    pub(crate) fn word_reached(&self, limit: u64) -> u64
        requires whole { limit % WORD_PLACES ≡ 0 }
        ensures value { result ≡ reached limit self.now.left }
    {
        (self.least() / WORD_PLACES * WORD_PLACES).min(limit)
    }

    /// Writes a page of the next lines, those of words below a limit, and returns the number of bytes.
    pub(crate) fn fill_page(
        &mut self,
        limit: u64,
        model: &Model,
        names: &Names,
        page: &mut [u8],
    ) -> usize
        requires names { AreNames model.now names.now }
        requires free { PAGE + MAX_LINE ≤ length page.old }
        ensures lines { IsPage model.now limit (take result page.new) self.old.left self.new.left }
        ensures done { result < PAGE → IsPast limit self.new.left }
        ensures within { result ≤ length page.new }
        ensures size { length page.new ≡ length page.old }
        ensures most { self.new.most ≡ self.old.most }
    {
        match &mut self.cursor {
            AnyCursor::Small(cursor) => fill_page(cursor, limit, model, names, page),
            AnyCursor::Middle(cursor) => fill_page(cursor, limit, model, names, page),
            AnyCursor::Large(cursor) => fill_page(cursor, limit, model, names, page),
        }
    }
}
