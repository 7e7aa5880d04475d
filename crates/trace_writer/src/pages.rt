//! Pages of lines.
ghost use Rattle.std.specs.Prelude.{◌≡◌, ◌+◌, ◌<◌, ◌≤◌, length, take};
ghost use Rattle.trace_writer.specs.Pages.{IsPage, IsPast};
ghost use Rattle.trace_writer.specs.declared.pages.TheConstants.{PAGE};
ghost use Rattle.trace_report.specs.Slots.{AreNames};
ghost use Rattle.trace_report.specs.declared.line.TheConstants.{MAX_LINE};

use crate::Cursor;
use net_model::Model;
use trace_report::{MAX_LINE, Names, write_stored};

/// The least bytes of lines in a full page.
pub(crate) const PAGE: usize = 32_768;

/// Writes the lines of the next entries, those with words below a limit, until the page is full. Returns the number of
/// bytes. At least [`MAX_LINE`] bytes after a full page must be free.
pub(crate) fn fill_page<const COUNT: usize>(
    cursor: &mut Cursor<'_, COUNT>,
    limit: u64,
    model: &Model,
    names: &Names,
    page: &mut [u8],
) -> usize
    requires names { AreNames model.now names.now }
    requires free { PAGE + MAX_LINE ≤ length page.old }
    ensures lines { IsPage model.now limit (take result page.new) cursor.old.left cursor.new.left }
    ensures done { result < PAGE → IsPast limit cursor.new.left }
    ensures within { result ≤ length page.new }
    ensures size { length page.new ≡ length page.old }
    ensures most { cursor.new.most ≡ cursor.old.most }
{
    let mut used = 0;
    while used < PAGE {
        if cursor.least() >= limit {
            return used;
        }
        let entry = cursor.take();
        used = write_stored(page, used, model, names, entry);
    }
    used
}
