//! The lines of a text, one after the other.
ghost use Rattle.std.specs.Prelude.{◌≡◌, ◌<◌, ◌≤◌, ◌+◌, ◌∷◌, ◌==◌, [], length, position, IfSome, MatchOption};
ghost use Rattle.std.specs.List.{slice_split};
ghost use Rattle.std.specs.Str.Lines.{strip_carriage_return};
ghost use Rattle.sim_base.specs.declared.limits.TheConstants.{MAX_FILE_BYTES};
ghost use Rattle.decision_script.specs.Lines.{lines};

use std::marker::Model;

fn place_of(bytes: &[u8], between: u8) -> Option<usize>
    ensures value { result ≡ position (λ b. b == between) bytes.now }
{
    bytes.iter().position(|byte| *byte == between)
}

/// The bytes before the first byte `between`, and those after it; None if there is no such byte.
#[tactic(auto, using(crate::proofs::Cutting::uncut_bytes, crate::proofs::Cutting::cut_bytes))]
pub fn cut_at(bytes: &[u8], between: u8) -> Option<(&[u8], &[u8])>
    ensures cut { MatchOption result (slice_split (λ b. b == between) bytes.now ≡ bytes.now ∷ [])
        (λ p. slice_split (λ b. b == between) bytes.now ≡ p.0.now ∷ slice_split (λ b. b == between) p.1.now) }
    ensures shorter { IfSome result (λ p. length p.1.now < length bytes.now) }
{
    let at = place_of(bytes, between)?;
    Some((&bytes[..at], &bytes[at + 1..]))
}

fn without_return(line: &[u8]) -> &[u8]
    ensures value { result.now ≡ strip_carriage_return line.now }
{
    match line {
        [text @ .., b'\r'] => text,
        _ => line,
    }
}

/// The lines that are left of a text, and their numbers.
#[derive(Drop)]
pub struct TextLines<'a> {
    // the number of lines before these
    before: u32,
    // None after the last line
    rest: Option<&'a [u8]>,
}

impl<'a> Model for TextLines<'a> {
    ghost use Rattle.std.specs.Prelude.{◌≤◌, ◌+◌, length, option_map, IfSome};
    ghost use Rattle.sim_base.specs.declared.limits.TheConstants.{MAX_FILE_BYTES};
    ghost use Rattle.decision_script.specs.Lines.{LinesLeft, lines_left};

    ghost Value = { LinesLeft };

    ghost view = { λ t. record { line = t.before + 1; texts = lines_left (option_map (λ l. l.now) t.rest) } };

    ghost invariant = { λ t. IfSome t.rest (λ l. t.before + length l.now ≤ MAX_FILE_BYTES) };
}

impl<'a> TextLines<'a> {
    /// All lines of a text.
    pub fn of(text: &'a [u8]) -> TextLines<'a>
        requires length_max { length text.now ≤ MAX_FILE_BYTES }
        ensures line { result.line ≡ 1 }
        ensures texts { result.texts ≡ lines text.now }
    {
        TextLines {
            before: 0,
            rest: Some(text),
        }
    }

    /// The next line with its number, without a carriage return at its end; None after the last line.
    pub fn next_line(&mut self) -> Option<(u32, &'a [u8])>
        ensures line { MatchOption result (self.old.texts ≡ []) (λ p. self.old.texts ≡ p.1.now ∷ self.new.texts) }
        ensures number { IfSome result (λ p. p.0 ≡ self.old.line) }
        ensures next { IfSome result (λ p. self.new.line ≡ self.old.line + 1) }
    {
        let rest = self.rest?;
        self.before += 1;
        match cut_at(rest, b'\n') {
            Some((line, after)) => {
                self.rest = Some(after);
                Some((self.before, without_return(line)))
            }
            None => {
                self.rest = None;
                Some((self.before, without_return(rest)))
            }
        }
    }
}
