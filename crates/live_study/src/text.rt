//! The text of a live study's journal, followed by its looks.
ghost use Rattle.std.specs.Prelude.{◌≡◌, IfOk};
ghost use Rattle.net_model.specs.Net.{Net};
ghost use Rattle.journal_text.specs.JournalText.{journal_text as journal_text'};
ghost use Rattle.live_study.specs.Lives.{all_looks};
ghost use Rattle.live_study.specs.Looks.{HasMadeLooks};
ghost use Rattle.live_study.specs.Scripts.{IsJournalOf};

use crate::run::LiveRun;
use decision_script::Script;
use journal_text::{Looked, journal_text};
use sim_base::{NoMemory, Reserved};
use std::alloc::Global;

// The looks of all analysts, one after the other.
fn looks_of(alloc: Global, looks: &[Reserved<Looked>]) -> Result<Vec<Looked>, NoMemory>
    ensures value { IfOk result (λ v. v.items ≡ all_looks looks.now) }
{
    let mut all = Vec::new(alloc);
    for own in looks {
        all.extend_from_slice(own.as_slice())?;
    }
    Ok(all)
}

/// The text of the journal that a live study of a script leaves, followed by the looks of its analysts.
pub fn live_journal_text(
    alloc: Global,
    script: &Script,
    live: &LiveRun,
) -> Result<Vec<u8>, NoMemory>
    requires journal { (net : Net) × IsJournalOf net script.now live.now.book }
    requires made { HasMadeLooks script.now (all_looks live.now.looks.items) }
    ensures value { IfOk result (λ text. text.items ≡
        journal_text' script.now.analysts live.now.book.events (all_looks live.now.looks.items)) }
{
    let looks = looks_of(alloc, live.looks.as_slice())?;
    let book = live.book.book();
    journal_text(alloc, script, book.calls(), book.fronts(), looks.as_slice())
}
