//! Tests of models: which texts are read, how the others are refused, and the time for the fullest and for hostile
//! texts.

mod changes;
mod texts;
mod two_faults;

use changes::{OTHER_TEXTS, ROAD_CHANGES, Refused, SMALL_CHANGES};
use net_model::{KeyText, Kind, Link, Model, read_model};
use sample_models::{CLINIC, ONE_DESK};
use std::alloc::{AllocError, Global};
use std::test::Fail;
use std::time::{Duration, Instant};
use texts::{FACTORY, INLINE, ROAD};
use two_faults::FIRST_OF_TWO;

/// Whether the text is refused with this number at this place, and names this key, or none.
fn is_refused(alloc: Global, text: &[u8], number: u32, place: u32, key: &str) -> bool {
    let Err(fault) = read_model(alloc, text) else {
        return false;
    };
    let named = match fault.key() {
        Some(named) => named == key,
        None => key.is_empty(),
    };
    fault.number() == number && fault.place() == place && named
}

/// Whether the changed text is refused as its row says.
fn is_refused_so(alloc: Global, text: &str, change: &Refused) -> bool {
    match text.replacen(alloc, change.old, change.new, 1) {
        Ok(changed) => is_refused(
            alloc,
            changed.as_bytes(),
            change.number,
            change.place,
            change.key,
        ),
        Err(_) => false,
    }
}

#[test]
fn changes_of_the_small_model_are_refused(rt: HostRuntime) {
    for change in SMALL_CHANGES {
        assert!(rt;
            is_refused_so(rt.alloc(), ONE_DESK, change),
            "{}",
            change.shows
        );
    }
}

#[test]
fn the_first_of_two_faults_is_named(rt: HostRuntime) {
    for change in FIRST_OF_TWO {
        assert!(rt;
            is_refused_so(rt.alloc(), ONE_DESK, change),
            "{}",
            change.shows
        );
    }
}

#[test]
fn other_texts_are_refused(rt: HostRuntime) {
    for change in OTHER_TEXTS {
        assert!(rt;
            is_refused_so(rt.alloc(), ONE_DESK, change),
            "{}",
            change.shows
        );
    }
    assert!(rt; is_refused(rt.alloc(), b"\xff", 2, 0, ""), "not UTF-8");
}

#[test]
fn changes_of_the_road_are_refused(rt: HostRuntime) {
    for change in ROAD_CHANGES {
        assert!(rt; is_refused_so(rt.alloc(), ROAD, change), "{}", change.shows);
    }
}

#[test]
fn long_keys_are_cut(rt: HostRuntime) {
    let key = KeyText::of("aB_c-d9 \u{e9}fghijklmnopqrstuvwxyz0123456");
    assert!(rt; key.text() == "a?_c?d9???fghijklmnopqrstuvwxyz0");
}

/// Whether the station of this number has this name, kind, stream and links.
fn has_station(model: &Model, s: u32, name: &str, kind: Kind, stream: u64, links: &[Link]) -> bool {
    if s < 1 || s > model.len() {
        return false;
    }
    let station = model.station(s);
    station.name.text() == name
        && station.kind == kind
        && station.stream == stream
        && station.links.as_slice() == links
}

fn link(to: u32, delay: u64, weight: u32) -> Link {
    Link { to, delay, weight }
}

/// Whether the numbers at the top of the model are these.
fn has_top(
    model: &Model,
    format: u32,
    lookahead: u64,
    horizon: u64,
    seed: u64,
    limit: u64,
) -> bool {
    model.format() == format
        && model.lookahead() == lookahead
        && model.horizon() == horizon
        && model.seed() == seed
        && model.limit() == limit
}

/// Whether the text is read as the small model, with defaults for what it leaves out.
fn is_small(alloc: Global, text: &str) -> bool {
    let Ok(model) = read_model(alloc, text.as_bytes()) else {
        return false;
    };
    let source = Kind::Source {
        lo: 3,
        hi: 3,
        jobs: 2,
        class: 1,
    };
    let server = Kind::Server {
        servers: 1,
        room: 5,
        lo: 4,
        hi: 4,
        by_class: false,
    };
    has_top(&model, 1, 2, 20, 0, 16_384)
        && model.len() == 3
        && has_station(&model, 1, "gate", source, 1, &[link(2, 2, 1)])
        && has_station(&model, 2, "desk", server, 2, &[link(3, 2, 1)])
        && has_station(&model, 3, "out", Kind::Sink, 3, &[])
}

fn is_clinic(alloc: Global, text: &str) -> bool {
    let Ok(model) = read_model(alloc, text.as_bytes()) else {
        return false;
    };
    let triage = [link(4, 2, 3), link(5, 4, 1)];
    has_top(&model, 1, 1, 10_000, 2001, 16_384)
        && model.len() == 6
        && has_station(
            &model,
            3,
            "triage",
            Kind::Router { turn: false },
            3,
            &triage,
        )
}

fn is_factory(alloc: Global, text: &str) -> bool {
    let Ok(model) = read_model(alloc, text.as_bytes()) else {
        return false;
    };
    let paint = Kind::Delay { lo: 300, hi: 420 };
    let rework = [link(6, 20, 17), link(3, 30, 2), link(7, 5, 1)];
    model.len() == 7
        && has_station(&model, 4, "paint", paint, 4, &[link(5, 5, 1)])
        && has_station(&model, 5, "check", Kind::Router { turn: false }, 5, &rework)
}

/// A model of format 2, with a class, an order and a stream.
fn is_road(alloc: Global, text: &str) -> bool {
    let Ok(model) = read_model(alloc, text.as_bytes()) else {
        return false;
    };
    let cars = Kind::Source {
        lo: 30,
        hi: 90,
        jobs: 1000,
        class: 2,
    };
    let signal = Kind::Server {
        servers: 1,
        room: 25,
        lo: 18,
        hi: 45,
        by_class: true,
    };
    let exits = [link(8, 10, 1), link(9, 12, 1)];
    let ambulances = Kind::Source {
        lo: 4000,
        hi: 9000,
        jobs: 12,
        class: 1,
    };
    has_top(&model, 2, 5, 72_000, 11, 32_768)
        && has_station(&model, 2, "ambulances", ambulances, 40, &[link(3, 5, 1)])
        && has_station(&model, 1, "west", cars, 1, &[link(3, 5, 1)])
        && has_station(&model, 4, "first_signal", signal, 4, &[link(5, 5, 1)])
        && has_station(&model, 7, "fork", Kind::Router { turn: true }, 7, &exits)
}

#[test]
fn model_files_are_read(rt: HostRuntime) {
    assert!(rt; is_small(rt.alloc(), ONE_DESK));
    assert!(rt; is_small(rt.alloc(), INLINE));
    assert!(rt; is_clinic(rt.alloc(), CLINIC));
    assert!(rt; is_factory(rt.alloc(), FACTORY));
    assert!(rt; is_road(rt.alloc(), ROAD));
}

/// Pushes a router of this number, with sixteen links.
fn push_router(alloc: Global, text: &mut Vec<u8>, i: u32) -> Result<(), AllocError> {
    let head = format!(in alloc;
        "\n[[station]]\nname = \"x{i}\"\nkind = \"router\"\nby = \"turn\"\nlink = ["
    )?;
    text.extend_from_slice(head.as_bytes())?;
    push_pieces(text, b"{ to = \"x7\", delay = 2 }, ", 16)?;
    text.push(b']')?;
    Ok(())
}

/// Sixty-four routers of sixteen links each, with a comment before them.
fn full_text(alloc: Global, comment: u32) -> Result<Vec<u8>, AllocError> {
    let mut text = repeat_piece(alloc, b"lookahead = 2\nhorizon = 20\n#", b".", comment)?;
    for i in 0..64u32 {
        push_router(alloc, &mut text, i)?;
    }
    Ok(text)
}

/// The number of stations with sixteen links that the text states, 0 if it is refused.
fn full_stations(alloc: Global, text: &[u8]) -> u32 {
    let Ok(model) = read_model(alloc, text) else {
        return 0;
    };
    let mut full = 0u32;
    for s in 0..model.len() {
        if model.station(s + 1).links.len() == 16 {
            full = full.wrapping_add(1);
        }
    }
    full
}

#[test]
fn the_fullest_model_is_read(rt: HostRuntime) -> Result<(), Fail> {
    let text = full_text(rt.alloc(), 1_000_000)?;
    let start = Instant::now(&rt)?;
    let full = full_stations(rt.alloc(), text.as_slice());
    let took = start.elapsed(&rt)?;
    assert_eq!(rt; full, 64);
    assert!(rt; took < Duration::from_secs(10), "it took {took:?}");
    Ok(())
}

/// Pushes a piece this number of times.
fn push_pieces(text: &mut Vec<u8>, piece: &[u8], times: u32) -> Result<(), AllocError> {
    for _ in 0..times {
        text.extend_from_slice(piece)?;
    }
    Ok(())
}

/// A text of a prefix and this number of pieces.
fn repeat_piece(
    alloc: Global,
    prefix: &[u8],
    piece: &[u8],
    times: u32,
) -> Result<Vec<u8>, AllocError> {
    let mut text = Vec::from_slice(alloc, prefix)?;
    push_pieces(&mut text, piece, times)?;
    Ok(text)
}

/// This number of keys, each with its number.
fn many_keys(alloc: Global, count: u32) -> Result<Vec<u8>, AllocError> {
    let mut text = Vec::new(alloc);
    for i in 0..count {
        let line = format!(in alloc; "k{i} = {i}\n")?;
        text.extend_from_slice(line.as_bytes())?;
    }
    Ok(text)
}

/// Whether the text is refused within ten seconds, with this number at the top and this key, or none. It takes 50 ms; a
/// host that pauses may need longer, and a quadratic algorithm needs more than ten seconds.
fn is_refused_soon(rt: &HostRuntime, text: &[u8], number: u32, key: &str) -> Result<bool, Fail> {
    let start = Instant::now(rt)?;
    let is = is_refused(rt.alloc(), text, number, 0, key);
    let took = start.elapsed(rt)?;
    println!(*rt; "refusal {number}: {took:?}")?;
    Ok(is && took < Duration::from_secs(10))
}

#[test]
fn a_million_brackets_are_refused_soon(rt: HostRuntime) -> Result<(), Fail> {
    let text = repeat_piece(rt.alloc(), b"x = ", b"[", 1_048_572)?;
    assert!(rt; is_refused_soon(&rt, text.as_slice(), 2, "")?);
    Ok(())
}

#[test]
fn a_million_spaces_are_refused_soon(rt: HostRuntime) -> Result<(), Fail> {
    let text = repeat_piece(rt.alloc(), b"", b" ", 1_048_577)?;
    assert!(rt; is_refused_soon(&rt, text.as_slice(), 1, "")?);
    Ok(())
}

#[test]
fn many_keys_are_refused_soon(rt: HostRuntime) -> Result<(), Fail> {
    let text = many_keys(rt.alloc(), 50_000)?;
    assert!(rt; is_refused_soon(&rt, text.as_slice(), 5, "k0")?);
    Ok(())
}

#[test]
fn many_tables_are_refused_soon(rt: HostRuntime) -> Result<(), Fail> {
    let top = b"lookahead = 2\nhorizon = 20\n";
    let text = repeat_piece(rt.alloc(), top.as_slice(), b"[[station]]\n", 80_000)?;
    assert!(rt; is_refused_soon(&rt, text.as_slice(), 12, "")?);
    Ok(())
}
