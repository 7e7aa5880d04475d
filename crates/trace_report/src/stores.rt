//! Pieces of lines, written forward into a slice, each in one store of fixed size.
//!
//! A piece is passed by value: a copy of fixed size from a value is one store, and from a reference it is a loop.
ghost use Rattle.std.specs.Prelude.{◌≡◌, ◌+◌, ◌<◌, ◌≤◌, ◌++◌, [], ◌∷◌, length, take, decimal};
ghost use Rattle.trace_report.specs.declared.stores.TheConstants.{SLACK};
ghost use Rattle.trace_report.specs.Writers.{WritesPiece};

/// The maximum number of bytes that a store writes past the end of its piece.
pub const SLACK: usize = 16;

/// Writes one byte.
#[inline(always)]
pub fn put1(bytes: &mut [u8], at: usize, piece: u8) -> usize
    requires free { at + SLACK ≤ length bytes.old }
    ensures written { WritesPiece (piece ∷ []) 1 at result bytes.old bytes.new }
{
    bytes[at] = piece;
    at + 1
}

/// Writes the first bytes of four.
#[inline(always)]
pub fn put4(bytes: &mut [u8], at: usize, piece: [u8; 4], len: usize) -> usize
    requires free { at + SLACK ≤ length bytes.old }
    requires short { len ≤ 4 }
    ensures written { WritesPiece (take len piece) len at result bytes.old bytes.new }
{
    bytes[at..at + 4].copy_from_slice(&piece);
    at + len
}

/// Writes the first bytes of eight.
#[inline(always)]
pub fn put8(bytes: &mut [u8], at: usize, piece: [u8; 8], len: usize) -> usize
    requires free { at + SLACK ≤ length bytes.old }
    requires short { len ≤ 8 }
    ensures written { WritesPiece (take len piece) len at result bytes.old bytes.new }
{
    bytes[at..at + 8].copy_from_slice(&piece);
    at + len
}

/// Writes the first bytes of sixteen.
#[inline(always)]
pub fn put16(bytes: &mut [u8], at: usize, piece: [u8; 16], len: usize) -> usize
    requires free { at + SLACK ≤ length bytes.old }
    requires short { len ≤ 16 }
    ensures written { WritesPiece (take len piece) len at result bytes.old bytes.new }
{
    bytes[at..at + 16].copy_from_slice(&piece);
    at + len
}
