//! A message that the tests of pending messages put in, and a test of names.

use sim_base::{Key, Msg, Name, Payload};

/// A tick for station 2.
pub fn message(time: u64, sender: u32, number: u64) -> Msg {
    Msg {
        key: Key {
            time,
            sender,
            number,
        },
        to: 2,
        payload: Payload::Tick,
    }
}

const NAMES: &[&str] = &["a", "desk_2", "abcdefghijklmnop"];

/// Whether a text is read as a name, and is its text.
fn is_name(text: &str) -> bool {
    match Name::read(text.as_bytes()) {
        Some(name) => name.text() == text,
        None => false,
    }
}

#[test]
fn names_are_read(rt: HostRuntime) {
    for text in NAMES {
        assert!(rt; is_name(text), "{text}");
    }
}
