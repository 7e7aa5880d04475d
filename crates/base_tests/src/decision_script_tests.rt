//! Tests of scripts: which texts are read, where the others are refused, the canonical texts, and the longest texts.

mod texts;

use decision_script::{Script, alone, print_script, read_script};
use sim_base::Name;
use std::alloc::{AllocError, Global};
use std::test::Fail;
use texts::{FAULTS, OWN_SCRIPTS, Own, READ, Refused};

/// The number and the line of the fault, or 0 and 0 if the text is read.
fn fault_of(alloc: Global, text: &[u8]) -> (u32, u32) {
    match read_script(alloc, text) {
        Ok(_) => (0, 0),
        Err(fault) => (fault.number(), fault.line()),
    }
}

/// Whether a text is refused as its row says.
fn is_refused_so(alloc: Global, refused: &Refused) -> bool {
    let (_, text, number, line) = *refused;
    fault_of(alloc, text) == (number, line)
}

#[test]
fn faults_are_named_with_their_lines(rt: HostRuntime) {
    for refused in FAULTS {
        let (shows, _, _, _) = *refused;
        assert!(rt; is_refused_so(rt.alloc(), refused), "{}", shows);
    }
}

#[test]
fn lines_are_read_to_their_ends(rt: HostRuntime) {
    for text in READ {
        assert!(rt; fault_of(rt.alloc(), text.as_bytes()) == (0, 0), "{text}");
    }
}

/// This number of copies of a line.
fn lines(alloc: Global, line: &str, count: u32) -> Result<Vec<u8>, AllocError> {
    let mut text = Vec::new(alloc);
    for _ in 0..count {
        text.extend_from_slice(line.as_bytes())?;
    }
    Ok(text)
}

#[test]
fn long_texts_are_refused(rt: HostRuntime) -> Result<(), Fail> {
    let mut text = lines(rt.alloc(), "#234567890123456789012345678901\n", 32_768)?;
    assert!(rt; text.len() == 1_048_576 && fault_of(rt.alloc(), text.as_slice()) == (0, 0));
    text.push(b'\n')?;
    assert!(rt; fault_of(rt.alloc(), text.as_slice()) == (1, 0));
    Ok(())
}

/// Texts in the 4,097th line, after the maximum number of items, and the fault and its line.
const LAST_LINES: &[(&str, (u32, u32))] = &[
    ("analyst ben", (0, 0)),
    ("look base desk", (5, 4_097)),
    ("end base at 08", (4, 4_097)),
];

#[test]
fn the_4097th_line_is_tested_before_it_is_too_many(rt: HostRuntime) -> Result<(), Fail> {
    for last in LAST_LINES {
        let (line, fault) = *last;
        let mut text = lines(rt.alloc(), "look base desk\n", 4_096)?;
        text.extend_from_slice(line.as_bytes())?;
        assert!(rt; fault_of(rt.alloc(), text.as_slice()) == fault, "{line}");
    }
    Ok(())
}

/// The script of a text, or the own script of one clone if there is a name.
fn own_script(alloc: Global, own: &Own) -> Option<Script> {
    let script = read_script(alloc, own.text.as_bytes()).ok()?;
    match Name::read(own.who.as_bytes()) {
        Some(who) => alone(alloc, &script, &who).ok(),
        None => Some(script),
    }
}

fn is_printed(alloc: Global, script: &Script, canonical: &str) -> bool {
    match print_script(alloc, script) {
        Ok(text) => text.as_slice() == canonical.as_bytes(),
        Err(_) => false,
    }
}

/// Whether the items are in these lines, each of this analyst.
fn has_places(script: &Script, places: &[(u32, u32)]) -> bool {
    let mut i = 0;
    for place in places {
        if i >= script.len() {
            return false;
        }
        let item = script.item(i);
        if (item.line, item.analyst) != *place {
            return false;
        }
        i = i.wrapping_add(1);
    }
    i == script.len()
}

fn is_own(alloc: Global, own: &Own) -> bool {
    match own_script(alloc, own) {
        Some(script) => is_printed(alloc, &script, own.canonical)
            && has_places(&script, own.places),
        None => false,
    }
}

#[test]
fn own_scripts_are_printed(rt: HostRuntime) {
    for own in OWN_SCRIPTS {
        assert!(rt; is_own(rt.alloc(), own), "{}", own.shows);
    }
}

/// The canonical text of a text with this number of items.
fn read_and_print(alloc: Global, text: &[u8], items: u32) -> Option<Vec<u8>> {
    let script = read_script(alloc, text).ok()?;
    if script.len() != items {
        return None;
    }
    print_script(alloc, &script).ok()
}

/// Whether the canonical text of a text with this number of items is its own canonical text.
fn is_read_again(alloc: Global, text: &[u8], items: u32) -> bool {
    let Some(once) = read_and_print(alloc, text, items) else {
        return false;
    };
    match read_and_print(alloc, once.as_slice(), items) {
        Some(again) => again.as_slice() == once.as_slice(),
        None => false,
    }
}

#[test]
fn the_largest_script_is_read_again(rt: HostRuntime) -> Result<(), Fail> {
    let pair =
        "analyst abcdefghijklmnop\nset abcdefghijklmnop at 4294967295 abcdefghijklmnop service 4294967295 4294967295\nanalyst main\nend b at 1\n";
    let text = lines(rt.alloc(), pair, 2_048)?;
    assert!(rt; is_read_again(rt.alloc(), text.as_slice(), 4_096));
    Ok(())
}
