//! The beginning of an unknown key.
ghost use Rattle.std.specs.Prelude.{◌≡◌, ◌≤◌, length, map, take, true};
ghost use Rattle.std.specs.List.{list_all};
ghost use Rattle.net_model.specs.KeyTexts.{shown_byte as shown_byte', is_shown, key_text};
ghost use Rattle.net_model.specs.declared.key_text.TheConstants.{MAX_KEY_TEXT_LEN};

use sim_base::name::is_name_byte;
use std::marker::Model;
use std::str;

/// The most bytes of a key that are shown.
pub const MAX_KEY_TEXT_LEN: usize = 32;

/// At most [`MAX_KEY_TEXT_LEN`] bytes of `a-z`, `0-9`, `_` and `?`.
#[derive(Clone, Copy, Debug, PartialEq, Eq)]
pub struct KeyText {
    bytes: [u8; MAX_KEY_TEXT_LEN],
    len: usize,
}

impl Model for KeyText {
    ghost use Rattle.std.specs.Prelude.{◌≡◌, ℕ, ◌-◌, ◌++◌, List, length, take, replicate};
    ghost use Rattle.net_model.specs.KeyTexts.{IsKeyText, key_text_back};
    ghost use Rattle.net_model.specs.declared.key_text.TheConstants.{MAX_KEY_TEXT_LEN};

    ghost Value = { List ℕ };

    ghost view = { λ k. take k.len k.bytes };

    ghost invariant = { λ k. IsKeyText k.bytes k.len };

    ghost inverse = { λ xs. record { bytes = xs ++ replicate (MAX_KEY_TEXT_LEN - length xs) 0; len = length xs } };

    ghost inverse_ok = { λ k h i. record {
      bytes = (key_text_back k.bytes k.len h).0 i;
      len = (key_text_back k.bytes k.len h).1 i;
    } };
}

fn shown_byte(byte: u8) -> u8
    ensures { result ≡ shown_byte' byte }
{
    if is_name_byte(byte) { byte } else { b'?' }
}

fn show(bytes: &mut [u8])
    ensures { bytes.new ≡ map shown_byte' bytes.old }
{
    for byte in bytes.iter_mut() {
        *byte = shown_byte(*byte);
    }
}

impl KeyText {
    /// The first bytes of a key, with `?` for each byte other than `a-z`, `0-9` and `_`.
    pub fn of(key: &str) -> KeyText
        ensures { result ≡ key_text key.now }
    {
        let text = key.as_bytes();
        let len = text.len().min(MAX_KEY_TEXT_LEN);
        let mut bytes = [0u8; MAX_KEY_TEXT_LEN];
        bytes[..len].copy_from_slice(&text[..len]);
        show(&mut bytes[..len]);
        KeyText { bytes, len }
    }

    fn as_bytes(&self) -> &[u8]
        ensures value { result.now ≡ self.now }
        ensures shown { list_all is_shown result.now ≡ true }
        ensures length_max { length result.now ≤ MAX_KEY_TEXT_LEN }
    {
        &self.bytes[..self.len]
    }

    /// Its text.
    pub fn text(&self) -> &str
        ensures value { result.now ≡ self.now }
        ensures shown { list_all is_shown result.now ≡ true }
        ensures length_max { length result.now ≤ MAX_KEY_TEXT_LEN }
    {
        match str::from_utf8(self.as_bytes()) {
            Ok(text) => text,
            Err(_) => unreachable!(),
        }
    }
}
