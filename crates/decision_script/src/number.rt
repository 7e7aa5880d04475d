//! The numbers of a script: one to ten digits without a leading zero, at most `MAX_NUMBER`.
ghost use Rattle.std.specs.Prelude.{◌≡◌};
ghost use Rattle.decision_script.specs.Lines.{has_number_form};
ghost use Rattle.decision_script.specs.Sentences.{word_number};

use crate::fault::LineFault;
use sim_base::number::{MAX_DIGITS, are_digits, is_digit_byte, may_lead, value};

/// The greatest number of a script: the greatest 32-bit number.
pub const MAX_NUMBER: u64 = 4_294_967_295;

fn may_be_number(word: &[u8]) -> bool
    ensures value { result ≡ has_number_form word.now }
{
    match word {
        [] => false,
        [digit] => is_digit_byte(*digit),
        [first, rest @ ..] => may_lead(*first) && are_digits(rest),
    }
}

/// The number that the word spells.
pub fn read_number(word: &[u8]) -> Result<u64, LineFault>
    ensures value { result ≡ word_number word.now }
{
    if !may_be_number(word) || word.len() > MAX_DIGITS {
        return Err(LineFault::BadNumber);
    }
    let number = value(word);
    if number > MAX_NUMBER {
        return Err(LineFault::BadNumber);
    }
    Ok(number)
}
