//! Text lines of bounded length: the error message, and the rounds of `links`.
ghost use Rattle.std.specs.Prelude.{◌≡◌, ◌+◌, ◌≤◌, ◌++◌, [], decimal, length};
ghost use Rattle.cloner_top.specs.declared.error_line.TheConstants.{MAX_ERROR_LINE};
ghost use Rattle.sim_base.specs.declared.name.TheConstants.{MAX_NAME_LEN};
ghost use Rattle.trace_report.specs.declared.digits.TheConstants.{MAX_NUMBER_LEN};

use arrayvec::ArrayString;
use itoa::Buffer;
use sim_base::Name;
use std::marker::Model;

/// The maximum number of bytes in a line. The longest usage line is shorter.
pub const MAX_ERROR_LINE: usize = 320;

/// A text line of at most [`MAX_ERROR_LINE`] bytes: an error message, or the rounds of `links`. It needs no allocation.
#[derive(Drop)]
pub struct ErrorLine {
    text: ArrayString<MAX_ERROR_LINE>,
}

impl Model for ErrorLine {
    ghost use Rattle.std.specs.Prelude.{List, ℕ};

    ghost Value = { List ℕ };

    ghost view = { λ l. l.text.bytes };
}

impl ErrorLine {
    /// Returns an empty line.
    pub fn new() -> ErrorLine
        ensures { result ≡ [] }
    {
        ErrorLine {
            text: ArrayString::new(),
        }
    }

    /// Appends a piece.
    pub fn push(&mut self, piece: &str)
        requires free { length self.old + length piece.now ≤ MAX_ERROR_LINE }
        ensures { self.new ≡ self.old ++ piece.now }
    {
        let Ok(()) = self.text.try_push_str(piece) else {
            unreachable!()
        };
    }

    /// Appends a number in decimal.
    pub fn push_number(&mut self, number: u64)
        requires free { length self.old + MAX_NUMBER_LEN ≤ MAX_ERROR_LINE }
        ensures value { self.new ≡ self.old ++ decimal number }
        ensures length_max { length self.new ≤ length self.old + MAX_NUMBER_LEN }
    {
        let mut buffer = Buffer::new();
        self.push(buffer.format(number));
    }

    /// Appends a name.
    #[tactic(auto, using(sim_base::proofs::NameBytes::short_name))]
    pub fn push_name(&mut self, name: &Name)
        requires free { length self.old + MAX_NAME_LEN ≤ MAX_ERROR_LINE }
        ensures value { self.new ≡ self.old ++ name.now }
        ensures length_max { length self.new ≤ length self.old + MAX_NAME_LEN }
    {
        self.push(name.text());
    }

    /// Returns its text.
    pub fn text(&self) -> &str
        ensures { result.now ≡ self.now }
    {
        self.text.as_str()
    }
}
