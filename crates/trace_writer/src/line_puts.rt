//! Puts the lines of a clone, page by page.
ghost use Rattle.std.specs.Prelude.{◌≡◌, ◌⊎◌, ◌+◌, ◌%◌, ◌<◌, ◌≤◌, List, length, take, OnOk, OnErr};
ghost use Rattle.sim_base.specs.declared.entry.Entry.{Entry as EntryOf};
ghost use Rattle.sim_base.specs.declared.entry.Line.{Line as LineOf};
ghost use Rattle.sim_base.specs.declared.message.Msg.{Msg as MsgOf};
ghost use Rattle.sim_base.specs.declared.message.TheConstants.{WORD_PLACES};
ghost use Rattle.run_laws.specs.Beginnings.{Rise};
ghost use Rattle.trace_writer.specs.Words.{entry_word};
ghost use Rattle.trace_report.specs.Slots.{AreNames};
ghost use Rattle.trace_report.specs.declared.line.TheConstants.{MAX_LINE};
ghost use Rattle.trace_writer.specs.Kept.{AreMarksOf, HasSameLines, IsKept, IsPageKept, IsPutTo, KeepsMemory};
ghost use Rattle.trace_writer.specs.Kept.{lines_text};
ghost use Rattle.trace_writer.specs.Pages.{IsPast, reached};
ghost use Rattle.trace_writer.specs.Puts.{IsCutOff};
ghost use Rattle.trace_writer.specs.declared.pages.TheConstants.{PAGE};

use crate::kept::keep_page;
use crate::texts::Texts;
use net_model::Model;
use sim_outer::{PutFailed, Sink};
use trace_report::Names;

// The word before which the next page ends: `kept_until`, if the next entry is before it, otherwise `end`.
fn limit_after(least: u64, kept_until: u64, end: u64) -> u64
    ensures kept { least < kept_until → result ≡ kept_until }
    ensures others { kept_until ≤ least → result ≡ end }
{
    if least < kept_until { kept_until } else { end }
}

// Keeps a page of lines before the word `kept_until`. Returns the word, or 0 if there is no memory for the page.
fn keep_lines(texts: &mut Texts<'_>, used: usize, kept_until: u64) -> u64
    requires within { used ≤ length texts.old.page.items }
    requires whole { kept_until % WORD_PLACES ≡ 0 }
    ensures either { (result ≡ kept_until) ⊎ (result ≡ 0) }
    ensures kept { 1 ≤ result → IsPageKept (take used texts.old.page.items) (reached kept_until texts.old.merge.left)
        texts.old.text.items texts.old.marks.items texts.new.text.items texts.new.marks.items }
    ensures none { result ≡ 0 → 1 ≤ kept_until → HasSameLines texts.old texts.new }
    ensures merge { texts.new.merge ≡ texts.old.merge }
    ensures page { texts.new.page.items ≡ texts.old.page.items }
{
    let word = texts.merge.word_reached(kept_until);
    if keep_page(&mut texts.text, &mut texts.marks, &texts.page[..used], word) {
        kept_until
    } else {
        0
    }
}

/// Puts the lines of the next entries, those before the word `end`. Those before `kept_until` are kept, while there is
/// memory for them.
pub(crate) fn put_lines<O: Sink>(
    model: &Model,
    names: &Names,
    texts: &mut Texts<'_>,
    kept_until: u64,
    end: u64,
    out: &mut O,
) -> Result<(), PutFailed>
    requires names { AreNames model.now names.now }
    requires page { PAGE + MAX_LINE ≤ length texts.old.page.items }
    requires whole { kept_until % WORD_PLACES ≡ 0 }
    requires whole_end { end % WORD_PLACES ≡ 0 }
    // the lines are put, or cut off
    ensures ok { OnOk result (IsPutTo model.now texts.old.merge.left texts.new.merge.left
        (O.view out.old) (O.view out.new)) }
    ensures past { OnOk result (IsPast end texts.new.merge.left) }
    ensures err { OnErr result (IsCutOff (lines_text model.now texts.old.merge.left)
        (O.view out.old) (O.view out.new)) }
    // the marks are right in each trace whose first lines the text had
    ensures marks { OnOk result ((tr : List (EntryOf MsgOf LineOf)) → Rise entry_word tr
        → IsKept model.now tr kept_until texts.old
        → AreMarksOf model.now tr texts.new.text.items texts.new.marks.items) }
    ensures memory { KeepsMemory texts.old texts.new }
{
    let mut kept_until = kept_until;
    'page: while texts.merge.least() < end {
        let least = texts.merge.least();
        let limit = limit_after(least, kept_until, end);
        let used = texts.merge.fill_page(limit, model, names, &mut texts.page);
        match out.put_part(&texts.page[..used]) {
            Ok(()) => {}
            Err(failed) => return Err(failed),
        }
        if least < kept_until {
            kept_until = keep_lines(texts, used, kept_until);
        } else {
            kept_until = 0;
        }
    }
    Ok(())
}
