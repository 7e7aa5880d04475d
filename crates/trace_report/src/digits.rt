//! The number of decimal digits of a number.
ghost use Rattle.std.specs.Prelude.{◌≡◌, ◌<◌, ◌≤◌, length, decimal};
ghost use Rattle.trace_report.specs.declared.digits.TheConstants.{LEAST_LONG, MAX_NUMBER_LEN, SHORT_NUMBER};

/// The maximum number of digits of a 64-bit number.
pub const MAX_NUMBER_LEN: usize = 20;

/// The maximum number of digits of a short number.
pub const SHORT_NUMBER: usize = 10;

/// The least number that is not short.
pub const LEAST_LONG: u64 = 10_000_000_000;

/// The number of decimal digits of a number.
// Comparisons, since the numbers in traces have few digits and the branches are well predicted.
#[inline(always)]
pub fn digits(n: u64) -> usize
    ensures count { result ≡ length (decimal n) }
    ensures at_most { result ≤ MAX_NUMBER_LEN }
{
    if n < LEAST_LONG {
        few_digits(n)
    } else {
        SHORT_NUMBER + few_digits(n / LEAST_LONG)
    }
}

// The same for a short number.
#[inline(always)]
fn few_digits(n: u64) -> usize
    requires small { n < LEAST_LONG }
    ensures count { result ≡ length (decimal n) }
    ensures at_most { result ≤ SHORT_NUMBER }
{
    if n < 100_000 {
        if n < 10 {
            1
        } else if n < 100 {
            2
        } else if n < 1_000 {
            3
        } else if n < 10_000 {
            4
        } else {
            5
        }
    } else if n < 1_000_000 {
        6
    } else if n < 10_000_000 {
        7
    } else if n < 100_000_000 {
        8
    } else if n < 1_000_000_000 {
        9
    } else {
        10
    }
}
