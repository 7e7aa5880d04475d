//! The beginning of a text that is kept for the next text.
ghost use Rattle.std.specs.Prelude.{◌≡◌, ◌++◌, ◌∷◌, [], length, true, false};
ghost use Rattle.trace_writer.specs.Kept.{IsKeptTo, IsMarked, IsPageKept};

use crate::texts::Mark;

/// Keeps the lines before the last mark that is not after a word, and returns the word of that mark: 0 if there is
/// none.
pub(crate) fn keep_to(text: &mut Vec<u8>, marks: &mut Vec<Mark>, word: u64) -> u64
    ensures kept { IsKeptTo word result text.old.items marks.old.items text.new.items marks.new.items }
{
    let mut count = 0;
    let mut last = Mark { word: 0, size: 0 };
    'mark: while count < marks.len()
        && marks[count].word <= word
        && last.size <= marks[count].size
        && marks[count].size <= text.len()
    {
        last = marks[count];
        count += 1;
    }
    marks.truncate(count);
    text.truncate(last.size);
    last.word
}

// Marks the end of the text as the place of a word, if there is memory for a mark.
fn mark_end(marks: &mut Vec<Mark>, word: u64, size: usize)
    ensures items { IsMarked marks.old.items marks.new.items (record { word = word; size = size }) }
{
    if marks.len() < marks.capacity() {
        marks.push_reserved(Mark { word, size });
    }
}

/// Keeps a page of lines, if there is memory for them, and marks their end as the place of a word. Returns whether it
/// keeps them.
pub(crate) fn keep_page(text: &mut Vec<u8>, marks: &mut Vec<Mark>, page: &[u8], word: u64) -> bool
    ensures kept { result ≡ true → IsPageKept page.now word text.old.items marks.old.items text.new.items
        marks.new.items }
    ensures same { result ≡ false → (text.new.items ≡ text.old.items) × (marks.new.items ≡ marks.old.items) }
{
    if text.len() + page.len() > text.capacity() {
        return false;
    }
    match text.extend_from_slice(page) {
        Ok(()) => {}
        Err(_) => unreachable!(),
    }
    mark_end(marks, word, text.len());
    true
}
