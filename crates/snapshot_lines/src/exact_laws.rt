//! The theory of texts that are written and read exactly: one grammar defines a writer and a reader that undo each
//! other.
//!
//! A *form* says how the words of a value are written, and how they are read. A form is exact if both are the same
//! relation: every value is read from its own words, whatever follows, and from no other words. A number, for example,
//! is a word that is the decimal text of its value, so `03` is none. Larger forms are made of smaller ones, and are
//! exact because their parts are:
//!
//! ```text
//! led "line" (and_what_follows (number 9) (many job))      line 2 1.0.3 1.1.6
//!             ^ a number, which says what follows            ^ this number of jobs
//! ```
//!
//! A *line* is the words of a form with single spaces between them. A *text* is lines, each with its line feed. A
//! machine reads it: each line leads from one state to the next. At any other text it stops, and reports the number of
//! the first bad line. A missing line counts as the line after the last one.
//!
//! `specs/Forms.antt` comes first, and then `specs/Texts.antt`. There is nothing to run: the contract of each function
//! is a law. A crate above cites a definition in its contracts and a lemma in its proofs:
//!
//!     use Rattle.snapshot_lines.proofs.ExactForms.{led-exact}
//!
//! The promise: a reader of such a grammar accepts exactly the texts that its writer writes.
ghost use Rattle.std.specs.Prelude.{◌≡◌, ℕ, List, Bool, true, false, ◌<◌, ◌^◌};
ghost use Rattle.std.specs.declared.option.Option.{Option as OptionOf};
ghost use Rattle.snapshot_lines.specs.Forms.{Form, IsExact, IsLedByOthers, IsReadJoined, WritesOnly, WritesSome};
ghost use Rattle.snapshot_lines.specs.Forms.{and_then, joined, led, led_or, many, nothing, number, silent};
ghost use Rattle.snapshot_lines.specs.Forms.{such};
ghost use Rattle.snapshot_lines.specs.Texts.{FirstBadLine, LinesAreRead, TextIsOfLines};

/// Two forms that are read exactly.
pub trait TwoForms<A, B> {
    ghost first: { Form A };

    ghost second: { Form B };

    ghost first_is: { IsExact first };

    ghost second_is: { IsExact second };
}

/// Forms of one word are read exactly.
pub fn words_are_exact()
    ensures nothing { IsExact nothing }
    ensures silent { (n : ℕ) → IsExact (silent n) }
    ensures such { (p : List ℕ → Bool) → IsExact (such p) }
    ensures number { (most : ℕ) → most < 2 ^ 64 → IsExact (number most) }
{}

/// Forms that are made of such forms are read exactly, from words and from one line or word.
pub fn forms_are_exact<A, B, T: TwoForms<A, B>>()
    ensures both { IsExact (and_then T.first T.second) }
    ensures many { (n : ℕ) → IsExact (many T.first n) }
    ensures led { (w : List ℕ) → IsExact (led w T.first) }
    ensures either { (w : List ℕ) → IsLedByOthers w T.second → IsExact (led_or w T.first T.second) }
    ensures line { (p : ℕ → Bool) (between : ℕ) → p between ≡ false → WritesOnly p T.first → WritesSome T.first
        → IsReadJoined between T.first }
    ensures word { (between : ℕ) → IsReadJoined between T.first → IsExact (joined between T.first) }
{}

/// A machine that reads lines: the state after a line, and the states in which a text may end.
pub trait LineReader<S> {
    ghost step: { S → List ℕ → OptionOf S };

    ghost ends: { S → Bool };
}

/// A text is read exactly if it is lines that lead to an end. Any other text is refused at its first bad line.
pub fn texts_are_exact<S, T: LineReader<S>>()
    ensures read { LinesAreRead T.step T.ends }
    ensures exact { TextIsOfLines T.step T.ends }
    ensures bad { FirstBadLine T.step T.ends }
{}
