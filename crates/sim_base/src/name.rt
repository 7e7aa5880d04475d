//! Names of clones and stations: at most `MAX_NAME_LEN` bytes, padded with zeros.
ghost use Rattle.std.specs.Prelude.{◌≡◌, ◌≤◌, length, take};
ghost use Rattle.std.specs.Prelude.{MatchOption, true, false, position};
ghost use Rattle.std.specs.List.{list_all};
ghost use Rattle.std.specs.Str.{bytes_eq};
ghost use Rattle.sim_base.specs.Names.{is_name, is_lower, is_name_byte as is_name_byte'};
ghost use Rattle.sim_base.specs.declared.name.TheConstants.{MAX_NAME_LEN};

use std::marker::Model;
use std::str;

/// The maximal length of a name, in bytes.
pub const MAX_NAME_LEN: usize = 16;

/// A name: 1 to `MAX_NAME_LEN` bytes of `a-z`, `0-9` and `_`, the first of `a-z`.
#[derive(Clone, Copy, Debug, PartialEq, Eq)]
pub struct Name {
    bytes: [u8; MAX_NAME_LEN],
    len: usize,
}

impl Model for Name {
    ghost use Rattle.std.specs.Prelude.{◌≡◌, ℕ, ◌-◌, ◌++◌, List, length, take, replicate};
    ghost use Rattle.sim_base.specs.Padding.{IsPadded, padded_back};
    ghost use Rattle.sim_base.specs.declared.name.TheConstants.{MAX_NAME_LEN};

    ghost Value = { List ℕ };

    ghost view = { λ n. take n.len n.bytes };

    ghost invariant = { λ n. IsPadded n.bytes n.len };

    ghost inverse = { λ xs. record { bytes = xs ++ replicate (MAX_NAME_LEN - length xs) 0; len = length xs } };

    ghost inverse_ok = { λ n h i. record {
      bytes = (padded_back n.bytes n.len h).0 i;
      len = (padded_back n.bytes n.len h).1 i;
    } };
}

// Whether the byte is one of a to z.
fn is_lower_byte(byte: u8) -> bool
    ensures value { result ≡ is_lower byte }
{
    b'a' <= byte && byte <= b'z'
}

/// Whether a name may contain the byte: one of a to z, a digit or `_`.
pub fn is_name_byte(byte: u8) -> bool
    ensures value { result ≡ is_name_byte' byte }
{
    is_lower_byte(byte) || (b'0' <= byte && byte <= b'9') || byte == b'_'
}

// Whether the bytes are a name.
fn are_name(text: &[u8]) -> bool
    ensures value { result ≡ is_name text.now }
{
    match text {
        [] => false,
        [first, rest @ ..] => is_lower_byte(*first)
            && are_name_bytes(rest)
            && rest.len() < MAX_NAME_LEN,
    }
}

// Whether a name may contain each of the bytes.
fn are_name_bytes(rest: &[u8]) -> bool
    ensures value { result ≡ list_all is_name_byte' rest.now }
{
    rest.iter().all(|b| is_name_byte(*b))
}

impl Name {
    /// The name with these bytes, or None if they are no name.
    pub fn read(text: &[u8]) -> Option<Name>
        ensures value { MatchOption result (is_name text.now ≡ false)
            (λ n. (n ≡ text.now) × (is_name text.now ≡ true)) }
    {
        if !are_name(text) {
            return None;
        }
        let mut bytes = [0u8; MAX_NAME_LEN];
        bytes[..text.len()].copy_from_slice(text);
        Some(Name {
            bytes,
            len: text.len(),
        })
    }

    /// The index of the first equal name in the list.
    pub fn position_in(&self, names: &[Name]) -> Option<usize>
        ensures value { result ≡ position (λ n. bytes_eq n self.now) names.now }
    {
        names
            .iter()
            .position(|name| name.as_bytes() == self.as_bytes())
    }

    /// Its bytes.
    pub fn as_bytes(&self) -> &[u8]
        ensures value { result.now ≡ self.now }
        ensures named { is_name result.now ≡ true }
    {
        &self.bytes[..self.len]
    }

    /// Its bytes, padded to the full length.
    #[inline(always)]
    pub fn padded_bytes(&self) -> &[u8; MAX_NAME_LEN]
        ensures { take (length self.now) result.now ≡ self.now }
    {
        &self.bytes
    }

    /// Its length in bytes.
    #[inline(always)]
    pub fn len(&self) -> usize
        ensures value { result ≡ length self.now }
        ensures length_max { result ≤ MAX_NAME_LEN }
    {
        self.len
    }

    /// Its text.
    pub fn text(&self) -> &str
        ensures value { result.now ≡ self.now }
        ensures named { is_name result.now ≡ true }
    {
        match str::from_utf8(self.as_bytes()) {
            Ok(text) => text,
            Err(_) => unreachable!(),
        }
    }
}
