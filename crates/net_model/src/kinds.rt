//! Reads the kind of a station.
ghost use Rattle.std.specs.Prelude.{◌≡◌, ◌≤◌, IfOk};
ghost use Rattle.toml.specs.View.{view};
ghost use Rattle.net_model.specs.Kinds.{by_word, class_at, delay_of, kind_of, kind_word, kind_word_at};
ghost use Rattle.net_model.specs.Kinds.{order_at, order_word, router_of, server_of, source_of};
ghost use Rattle.net_model.specs.declared.limits.TheConstants.{MAX_CLASS};

use crate::fault::ModelFault;
use crate::field::Field;
use crate::keys::KindWord;
use crate::limits::{MAX_CLASS, MAX_JOBS, MAX_ROOM, MAX_SERVERS};
use crate::reading::{integer_key, out_of_range, read_text, span_key, spot_at, text_key};
use crate::station::Kind;
use toml::Value;

fn kind_named(text: &str) -> Option<KindWord>
    ensures { result ≡ kind_word text.now }
{
    if text == "source" {
        return Some(KindWord::Source);
    }
    if text == "server" {
        return Some(KindWord::Server);
    }
    if text == "delay" {
        return Some(KindWord::Delay);
    }
    if text == "router" {
        return Some(KindWord::Router);
    }
    if text == "sink" {
        return Some(KindWord::Sink);
    }
    None
}

/// The keyword of a station's kind.
pub fn kind_key(station: u32, table: &Value) -> Result<KindWord, ModelFault>
    ensures { result ≡ kind_word_at station (view table.now) }
{
    let key = spot_at(station, Field::Kind);
    match text_key(key, table) {
        Ok(text) => match kind_named(text) {
            Some(word) => Ok(word),
            None => Err(out_of_range(key)),
        },
        Err(fault) => Err(fault),
    }
}

fn read_class(format: u32, station: u32, table: &Value) -> Result<u64, ModelFault>
    ensures value { result ≡ class_at format station (view table.now) }
    ensures small { IfOk result (λ n. n ≤ MAX_CLASS) }
{
    if format == 1 {
        return Ok(1);
    }
    let key = spot_at(station, Field::Class);
    integer_key(key, 1, MAX_CLASS, Some(1), table)
}

fn order_named(text: &str) -> Option<bool>
    ensures { result ≡ order_word text.now }
{
    if text == "arrival" {
        return Some(false);
    }
    if text == "class" {
        return Some(true);
    }
    None
}

fn read_order(format: u32, station: u32, table: &Value) -> Result<bool, ModelFault>
    ensures { result ≡ order_at format station (view table.now) }
{
    if format == 1 {
        return Ok(false);
    }
    let key = spot_at(station, Field::Order);
    let Some(value) = table.get(key.field.key()) else {
        return Ok(false);
    };
    match read_text(key, value) {
        Ok(text) => match order_named(text) {
            Some(by_class) => Ok(by_class),
            None => Err(out_of_range(key)),
        },
        Err(fault) => Err(fault),
    }
}

fn way_named(text: &str) -> Option<bool>
    ensures { result ≡ by_word text.now }
{
    if text == "weights" {
        return Some(false);
    }
    if text == "turn" {
        return Some(true);
    }
    None
}

fn read_source(format: u32, station: u32, table: &Value) -> Result<Kind, ModelFault>
    ensures { result ≡ source_of format station (view table.now) }
{
    let every = span_key(spot_at(station, Field::Every), 1, table)?;
    let jobs = integer_key(spot_at(station, Field::Jobs), 0, MAX_JOBS, None, table)?;
    let class = read_class(format, station, table)? as u32;
    Ok(Kind::Source {
        lo: every.lo,
        hi: every.hi,
        jobs,
        class,
    })
}

fn read_server(format: u32, station: u32, table: &Value) -> Result<Kind, ModelFault>
    ensures { result ≡ server_of format station (view table.now) }
{
    let servers = integer_key(
        spot_at(station, Field::Servers),
        1,
        MAX_SERVERS,
        None,
        table,
    )? as u32;
    let room = integer_key(spot_at(station, Field::Room), 0, MAX_ROOM, None, table)? as u32;
    let service = span_key(spot_at(station, Field::Service), 1, table)?;
    let by_class = read_order(format, station, table)?;
    Ok(Kind::Server {
        servers,
        room,
        lo: service.lo,
        hi: service.hi,
        by_class,
    })
}

fn read_delay(station: u32, table: &Value) -> Result<Kind, ModelFault>
    ensures { result ≡ delay_of station (view table.now) }
{
    let hold = span_key(spot_at(station, Field::Hold), 0, table)?;
    Ok(Kind::Delay {
        lo: hold.lo,
        hi: hold.hi,
    })
}

fn read_router(station: u32, table: &Value) -> Result<Kind, ModelFault>
    ensures { result ≡ router_of station (view table.now) }
{
    let key = spot_at(station, Field::By);
    match text_key(key, table) {
        Ok(text) => match way_named(text) {
            Some(turn) => Ok(Kind::Router { turn }),
            None => Err(out_of_range(key)),
        },
        Err(fault) => Err(fault),
    }
}

/// The kind of a station, from that kind's keys.
pub fn read_kind(
    format: u32,
    station: u32,
    word: KindWord,
    table: &Value,
) -> Result<Kind, ModelFault>
    ensures { result ≡ kind_of format station word (view table.now) }
{
    match word {
        KindWord::Source => read_source(format, station, table),
        KindWord::Server => read_server(format, station, table),
        KindWord::Delay => read_delay(station, table),
        KindWord::Router => read_router(station, table),
        KindWord::Sink => Ok(Kind::Sink),
    }
}
