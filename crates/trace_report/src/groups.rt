//! The decimal digits of the numbers below 1,000, in four bytes for each number.
ghost use Rattle.std.specs.Prelude.{◌<◌, ◌≤◌};
ghost use Rattle.trace_report.specs.Groups.{IsShort, IsPadded, AreShort, ArePadded};
ghost use Rattle.trace_report.specs.declared.groups.TheConstants.{GROUPS};

use crate::digits::digits;
use itoa::write_digits;

/// The number of groups.
pub const GROUPS: usize = 1_000;

/// The groups of all numbers below 1,000.
#[derive(Drop)]
pub struct Groups {
    // without leading zeros; the last byte is the number of digits
    short: [[u8; 4]; GROUPS],
    // three digits, and a byte that is not used
    padded: [[u8; 4]; GROUPS],
    ghost short_are: { AreShort short },
    ghost padded_are: { ArePadded padded },
}

// The digits of a number without leading zeros, and their number in the last byte.
fn short_group(n: u64) -> [u8; 4]
    requires { n < GROUPS }
    ensures { IsShort n result }
{
    let mut group = [0; 4];
    let len = digits(n);
    let _ = write_digits(n, &mut group, len);
    group[3] = len as u8;
    group
}

// The three digits of a number, with leading zeros.
fn padded_group(n: u64) -> [u8; 4]
    requires { n < GROUPS }
    ensures { IsPadded n result }
{
    let mut group = *b"0000";
    let _ = write_digits(n, &mut group, 3);
    group
}

impl Groups {
    /// The groups.
    pub fn new() -> Groups {
        let mut short = [[0; 4]; GROUPS];
        let mut padded = [[0; 4]; GROUPS];
        for n in 0..GROUPS {
            short[n] = short_group(n as u64);
            padded[n] = padded_group(n as u64);
        }
        Groups { short, padded }
    }

    /// The digits of a number without leading zeros, and their number in the last byte.
    #[inline(always)]
    pub fn short(&self, n: usize) -> [u8; 4]
        requires { n < GROUPS }
        ensures { IsShort n result }
    {
        self.short[n]
    }

    /// The three digits of a number.
    #[inline(always)]
    pub fn padded(&self, n: usize) -> [u8; 4]
        requires { n < GROUPS }
        ensures { IsPadded n result }
    {
        self.padded[n]
    }
}
