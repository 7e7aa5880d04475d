//! The printed lines of a trace, as one text.
ghost use Rattle.std.specs.Prelude.{◌≡◌, ◌++◌, ◌∷◌, [], length, true, OnOk, OnErr};
ghost use Rattle.checkpoint.specs.TraceLines.{is_one_line, lines_text};

use sim_base::NoMemory;
use std::alloc::Global;
use std::marker::Model;

/// The greatest number of bytes of a trace line in a snapshot, without the line feed.
pub const MAX_TRACE_LINE: usize = 200;

/// Lines in order, kept as one text in which each line ends with a line feed.
#[derive(Drop)]
pub struct TraceLines {
    text: Vec<u8>,
    // the number of lines
    count: usize,
}

impl Model for TraceLines {
    ghost use Rattle.std.specs.Prelude.{ℕ, List};
    ghost use Rattle.checkpoint.specs.TraceLines.{IsLinesText, lines_in};

    ghost Value = { List (List ℕ) };

    ghost view = { λ t. lines_in t.text.items };

    ghost invariant = { λ t. IsLinesText t.text.items t.count };
}

impl TraceLines {
    /// No lines; takes no memory.
    pub fn new(alloc: Global) -> TraceLines
        ensures value { result ≡ [] }
    {
        TraceLines {
            text: Vec::new(alloc),
            count: 0,
        }
    }

    /// Adds a line at the end; it has no line feed. Out of memory changes nothing.
    pub fn push(&mut self, line: &[u8]) -> Result<(), NoMemory>
        requires one_line { is_one_line line.now ≡ true }
        ensures ok { OnOk result (self.new ≡ self.old ++ line.now ∷ []) }
        ensures err { OnErr result (self.new ≡ self.old) }
    {
        push_ended(&mut self.text, line)?;
        self.count += 1;
        Ok(())
    }

    /// The number of lines.
    pub fn len(&self) -> usize
        ensures value { result ≡ length self.now }
    {
        self.count
    }

    /// The text of the lines: each with its line feed.
    pub fn as_bytes(&self) -> &[u8]
        ensures value { result.now ≡ lines_text self.now }
    {
        self.text.as_slice()
    }
}

// Adds a line and its line feed to a text. Out of memory changes nothing.
fn push_ended(text: &mut Vec<u8>, line: &[u8]) -> Result<(), NoMemory>
    ensures ok { OnOk result (text.new.items ≡ text.old.items ++ (line.now ++ 10 ∷ [])) }
    ensures err { OnErr result (text.new.items ≡ text.old.items) }
{
    let before = text.len();
    text.extend_from_slice(line)?;
    if text.push(b'\n').is_err() {
        text.truncate(before);
        return Err(NoMemory);
    }
    Ok(())
}
