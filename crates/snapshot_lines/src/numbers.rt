//! Numbers of a snapshot: decimal, without a leading zero.
ghost use Rattle.std.specs.Prelude.{◌≡◌, ◌≤◌, length, true, Some, None, if◌then◌else◌};
ghost use Rattle.std.specs.List.{list_all};
ghost use Rattle.std.specs.Str.Parse.{digits_value};
ghost use Rattle.sim_base.specs.Names.{is_digit};
ghost use Rattle.decision_script.specs.Lines.{has_number_form as has_number_form'};
ghost use Rattle.snapshot_lines.specs.Forms.{is_number};
ghost use Rattle.snapshot_lines.specs.declared.numbers.TheConstants.{MAX_NUMBER_LEN};

use sim_base::number::{are_digits, is_digit_byte, may_lead};

/// The greatest sum of a sink's stays: the greatest number of 64 bits.
pub const MAX_STAY: u64 = 18_446_744_073_709_551_615;

/// The greatest number of digits of a number of 64 bits.
pub const MAX_NUMBER_LEN: usize = 20;

// One digit, or several of which the first is not 0.
fn has_number_form(word: &[u8]) -> bool
    ensures value { result ≡ has_number_form' word.now }
{
    match word {
        [] => false,
        [digit] => is_digit_byte(*digit),
        [first, rest @ ..] => may_lead(*first) && are_digits(rest),
    }
}

// The number that the digits write.
fn value_of(digits: &[u8]) -> u128
    requires all { list_all is_digit digits.now ≡ true }
    requires at_most { length digits.now ≤ MAX_NUMBER_LEN }
    ensures value { result ≡ digits_value 10 digits.now }
{
    let mut value: u128 = 0;
    for digit in digits {
        value = value * 10 + (*digit - b'0') as u128;
    }
    value
}

/// The number that a word writes in decimal; None unless it writes one of at most `most`.
#[tactic(auto, using(crate::proofs::NumberWords::digits_of_form, crate::proofs::NumberWords::number_if_fits, crate::proofs::NumberWords::no_number_by_form, crate::proofs::NumberWords::no_number_by_length, crate::proofs::NumberWords::no_number_by_value))]
pub fn number_of(word: &[u8], most: u64) -> Option<u64>
    ensures value { result ≡ (if is_number most word.now then Some (digits_value 10 word.now) else None) }
{
    if !has_number_form(word) || word.len() > MAX_NUMBER_LEN {
        return None;
    }
    let number = value_of(word);
    if number > u128::from(most) {
        return None;
    }
    Some(number as u64)
}
