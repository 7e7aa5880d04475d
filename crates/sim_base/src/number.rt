//! Decimal numbers as texts and command lines have them.
ghost use Rattle.std.specs.Prelude.{◌≡◌, ◌≤◌, length, true};
ghost use Rattle.std.specs.List.{list_all};
ghost use Rattle.std.specs.Str.Parse.{digits_value};
ghost use Rattle.sim_base.specs.Names.{is_digit, is_leading};

/// The most digits that `value` accepts.
pub const MAX_DIGITS: usize = 10;

/// Whether the byte is a digit.
pub fn is_digit_byte(byte: u8) -> bool
    ensures value { result ≡ is_digit byte }
{
    b'0' <= byte && byte <= b'9'
}

/// Whether all bytes are digits.
pub fn are_digits(word: &[u8]) -> bool
    ensures value { result ≡ list_all is_digit word.now }
{
    word.iter().all(|b| is_digit_byte(*b))
}

/// Whether the byte may lead a number of several digits: a digit other than 0.
pub fn may_lead(byte: u8) -> bool
    ensures value { result ≡ is_leading byte }
{
    b'1' <= byte && byte <= b'9'
}

/// The number that the digits represent.
pub fn value(digits: &[u8]) -> u64
    requires all { list_all is_digit digits.now ≡ true }
    requires at_most { length digits.now ≤ MAX_DIGITS }
    ensures value { result ≡ digits_value 10 digits.now }
{
    let mut value: u64 = 0;
    for digit in digits {
        value = value * 10 + (*digit - b'0') as u64;
    }
    value
}
