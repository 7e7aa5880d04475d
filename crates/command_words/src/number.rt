//! The numbers on a command line: decimal, without a leading zero or sign.
ghost use Rattle.std.specs.Prelude.{◌≡◌, ◌≤◌, IfSome};
ghost use Rattle.command_words.specs.Numbers.{is_number as is_number_of, number_in as number_of};

use sim_base::number::{MAX_DIGITS, are_digits, is_digit_byte, may_lead, value};

// Whether a word is a number without a leading zero or sign; `0` is one.
fn is_number(word: &[u8]) -> bool
    ensures value { result ≡ is_number_of word.now }
{
    match word {
        [] => false,
        [digit] => is_digit_byte(*digit),
        [first, rest @ ..] => may_lead(*first) && are_digits(rest),
    }
}

/// Reads a word as a number from `least` to `most`.
#[tactic(auto, using(crate::proofs::Digits::number_digits))]
pub(crate) fn number_in(least: u32, most: u32, word: &[u8]) -> Option<u32>
    ensures value { result ≡ number_of least most word.now }
    ensures at_least { IfSome result (λ n. least ≤ n) }
    ensures at_most { IfSome result (λ n. n ≤ most) }
{
    if !is_number(word) || word.len() > MAX_DIGITS {
        return None;
    }
    let number = value(word);
    if number < u64::from(least) || number > u64::from(most) {
        return None;
    }
    Some(number as u32)
}
