//! Words of a command line.
ghost use Rattle.std.specs.Prelude.{◌≡◌, IfOk};

use sim_base::NoMemory;
use std::alloc::Global;
use std::convert::AsStr;
use std::marker::Model;

/// A word of a command line: a text, seen as its UTF-8 bytes.
#[derive(Drop)]
pub struct Word {
    text: String,
}

impl Model for Word {
    ghost use Rattle.std.specs.Prelude.{List, ℕ, string_bytes};

    ghost Value = { List ℕ };

    ghost view = { λ w. string_bytes w.text };
}

impl Word {
    /// A word with this text.
    pub fn new(alloc: Global, text: &str) -> Result<Word, NoMemory>
        ensures value { IfOk result (λ w. w ≡ text.now) }
    {
        Ok(Word {
            text: String::from_str(alloc, text)?,
        })
    }

    /// Its text.
    pub fn text(&self) -> &str
        ensures value { result.now ≡ self.now }
    {
        self.text.as_str()
    }
}

impl AsStr for Word {
    ghost text = { λ w. w };

    fn as_str(&self) -> &str {
        self.text.as_str()
    }
}
