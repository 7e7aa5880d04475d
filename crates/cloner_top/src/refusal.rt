//! Why the output is missing or incomplete.
ghost use Rattle.std.specs.Prelude.{◌≡◌, ◌≤◌, length};
ghost use Rattle.cloner_top.specs.Refusals.{error_line, status_of, unread_line};
ghost use Rattle.cloner_top.specs.declared.error_line.TheConstants.{MAX_ERROR_LINE};

use crate::error_line::ErrorLine;
use crate::excess::Excess;
use crate::stop::Stop;
use command_words::usage_line;

/// A text of an assignment.
#[derive(Clone, Copy, Debug, PartialEq, Eq)]
pub enum Text {
    /// The model.
    Model,
    /// The script.
    Script,
    /// The watches.
    Watches,
    /// The snapshot.
    Snapshot,
}

/// The error that ends the program: the first one, in the order of the statuses.
#[derive(Clone, Copy, Debug, PartialEq, Eq)]
pub enum Refusal {
    /// Out of memory.
    OutOfMemory,
    /// The command line has no known form.
    Usage,
    /// This text was not read.
    NotRead(Text),
    /// The study is not run.
    Stopped(Stop),
    /// A limit is exceeded.
    Exceeded(Excess),
    /// The output was cut off.
    CannotWrite,
}

// An error line without numbers.
fn line_of_text(text: &str) -> ErrorLine
    requires { length text.now ≤ MAX_ERROR_LINE }
    ensures { result ≡ text.now }
{
    let mut line = ErrorLine::new();
    line.push(text);
    line
}

// The error line for a text that was not read.
fn line_of_unread(text: Text) -> ErrorLine
    ensures { result ≡ unread_line text }
{
    match text {
        Text::Model => line_of_text("cloner: cannot read the model\n"),
        Text::Script => line_of_text("cloner: cannot read the script\n"),
        Text::Watches => line_of_text("cloner: cannot read the watches\n"),
        Text::Snapshot => line_of_text("cloner: cannot read the snapshot\n"),
    }
}

impl Refusal {
    /// Returns the exit status, from 1 to 11.
    pub fn status(&self) -> u8
        ensures { result ≡ status_of self.now }
    {
        match self {
            Refusal::OutOfMemory => 1,
            Refusal::Usage => 2,
            Refusal::NotRead(_) => 3,
            Refusal::Stopped(stop) => stop.status(),
            Refusal::Exceeded(excess) => excess.status(),
            Refusal::CannotWrite => 8,
        }
    }

    /// Returns the error line.
    pub fn line(&self) -> ErrorLine
        ensures { result ≡ error_line self.now }
    {
        match self {
            Refusal::OutOfMemory => line_of_text("cloner: out of memory\n"),
            Refusal::Usage => line_of_text(usage_line()),
            Refusal::NotRead(text) => line_of_unread(*text),
            Refusal::Stopped(stop) => stop.line(),
            Refusal::Exceeded(excess) => excess.line(),
            Refusal::CannotWrite => line_of_text("cloner: cannot write\n"),
        }
    }
}
