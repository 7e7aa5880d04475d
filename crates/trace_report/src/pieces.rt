//! Pieces of lines, written forward into a slice. Each function writes at a place and returns the place after the
//! piece.
//!
//! The place is passed in registers. A name is written as `MAX_NAME_LEN` bytes in one store; the next piece overwrites
//! what it writes past its end.
ghost use Rattle.std.specs.Prelude.{◌+◌, ◌≤◌, ◌++◌, length, decimal};
ghost use Rattle.sim_base.specs.declared.name.TheConstants.{MAX_NAME_LEN};
ghost use Rattle.trace_report.specs.declared.digits.TheConstants.{MAX_NUMBER_LEN};
ghost use Rattle.trace_report.specs.Writers.{WritesExactly, WritesPiece};

use crate::digits::digits;
use itoa::write_digits;
use sim_base::Name;
use sim_base::name::MAX_NAME_LEN;

/// Writes bytes.
#[inline(always)]
pub fn put(bytes: &mut [u8], at: usize, piece: &[u8]) -> usize
    requires free { at + length piece.now ≤ length bytes.old }
    ensures written { WritesExactly piece.now at result bytes.old bytes.new }
{
    let end = at + piece.len();
    bytes[at..end].copy_from_slice(piece);
    end
}

/// Writes a name.
#[inline(always)]
pub fn put_name(bytes: &mut [u8], at: usize, name: &Name) -> usize
    requires free { at + MAX_NAME_LEN ≤ length bytes.old }
    ensures written { WritesPiece name.now MAX_NAME_LEN at result bytes.old bytes.new }
{
    bytes[at..at + MAX_NAME_LEN].copy_from_slice(name.padded_bytes());
    at + name.len()
}

/// Writes a number.
#[inline(always)]
pub fn put_number(bytes: &mut [u8], at: usize, n: u64) -> usize
    requires free { at + MAX_NUMBER_LEN ≤ length bytes.old }
    ensures written { WritesPiece (decimal n) MAX_NUMBER_LEN at result bytes.old bytes.new }
{
    let end = at + digits(n);
    let _ = write_digits(n, bytes, end);
    end
}

/// Writes a word, and a number after it.
#[inline(always)]
pub fn put_count(bytes: &mut [u8], at: usize, word: &[u8], n: u64) -> usize
    requires free { at + length word.now + MAX_NUMBER_LEN ≤ length bytes.old }
    ensures written { WritesPiece (word.now ++ decimal n) (length word.now + MAX_NUMBER_LEN)
        at result bytes.old bytes.new }
{
    let at = put(bytes, at, word);
    put_number(bytes, at, n)
}
