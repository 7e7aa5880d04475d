//! The words of a line, one after the other.
ghost use Rattle.std.specs.Prelude.{◌≡◌, ◌∷◌, ◌≤◌, ◌==◌, [], length, MatchBool, MatchOption};
ghost use Rattle.std.specs.List.{slice_split};
ghost use Rattle.snapshot_lines.specs.Forms.{whole as whole', words_after};

use decision_script::words::cut_at;
use std::marker::Model;

/// The words that are left of a line, or the parts that are left of a word: they have single bytes between them, which
/// are spaces or dots.
#[derive(Drop)]
pub struct Words<'a> {
    // None after the last word
    rest: Option<&'a [u8]>,
    between: u8,
}

impl<'a> Model for Words<'a> {
    ghost use Rattle.std.specs.Prelude.{ℕ, List, option_map};
    ghost use Rattle.snapshot_lines.specs.WordsLeft.{words_in};

    ghost Value = { List (List ℕ) };

    ghost view = { λ w. words_in w.between (option_map (λ l. l.now) w.rest) };
}

impl<'a> Words<'a> {
    /// The words of a line that have the byte `between` between them.
    pub fn of(line: &'a [u8], between: u8) -> Words<'a>
        ensures value { result ≡ slice_split (λ b. b == between) line.now }
    {
        Words {
            rest: Some(line),
            between,
        }
    }

    /// The first word, and the words after it; None if no word is left.
    pub fn take(&self) -> Option<(&'a [u8], Words<'a>)>
        ensures value { MatchOption result (self.now ≡ []) (λ p. self.now ≡ p.0.now ∷ p.1) }
    {
        let line = self.rest?;
        let between = self.between;
        match cut_at(line, between) {
            Some((word, rest)) => Some((word, Words::of(rest, between))),
            None => Some((
                line,
                Words {
                    rest: None,
                    between,
                },
            )),
        }
    }

    /// The words after a keyword; None if it is not the first word.
    pub fn after(&self, keyword: &[u8]) -> Option<Words<'a>>
        ensures value { result ≡ words_after keyword.now self.now }
    {
        let (word, rest) = self.take()?;
        if word == keyword { Some(rest) } else { None }
    }

    /// Whether no word is left.
    #[tactic(auto, using(decision_script::proofs::Cutting::some_word))]
    pub fn is_empty(&self) -> bool
        ensures value { MatchBool result (self.now ≡ []) (1 ≤ length self.now) }
    {
        self.rest.is_none()
    }
}

/// The value that was read, if no word is left.
pub fn whole<A>(read: Option<(A, Words<'_>)>) -> Option<A>
where
    A: Drop,
    ensures value { result ≡ whole' read.entry }
{
    let (value, rest) = read?;
    if rest.is_empty() { Some(value) } else { None }
}
