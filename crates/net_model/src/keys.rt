//! The keys that a table may have.
ghost use Rattle.std.specs.Prelude.{◌≡◌};
ghost use Rattle.toml.specs.View.{table_view, view};
ghost use Rattle.net_model.specs.Keys.{is_known, least_unknown, link_keys, none_unknown};
ghost use Rattle.net_model.specs.Keys.{only_known, station_keys, top_keys};

use crate::fault::ModelFault;
use crate::field::Field;
use crate::key_text::KeyText;
use toml::{Table, Value};

/// The kind of a station, as its keyword names it.
#[derive(Clone, Copy, Debug, PartialEq, Eq)]
pub enum KindWord {
    /// `source`
    Source,
    /// `server`
    Server,
    /// `delay`
    Delay,
    /// `router`
    Router,
    /// `sink`
    Sink,
}

/// The keys at the top of a file.
pub fn top_fields() -> &'static [Field]
    ensures { result.now ≡ top_keys }
{
    &[
        Field::Format,
        Field::Lookahead,
        Field::Horizon,
        Field::Seed,
        Field::Limit,
        Field::Station,
    ]
}

/// The keys of a station of a kind; classes and orders need format 2.
pub fn station_fields(format: u32, word: KindWord) -> &'static [Field]
    ensures { result.now ≡ station_keys format word }
{
    match word {
        KindWord::Source => source_fields(format),
        KindWord::Server => server_fields(format),
        KindWord::Delay => &[
            Field::Name,
            Field::Kind,
            Field::Stream,
            Field::Hold,
            Field::Link,
        ],
        KindWord::Router => &[
            Field::Name,
            Field::Kind,
            Field::Stream,
            Field::By,
            Field::Link,
        ],
        KindWord::Sink => &[Field::Name, Field::Kind, Field::Stream],
    }
}

fn source_fields(format: u32) -> &'static [Field]
    ensures { result.now ≡ station_keys format KindWord.Source }
{
    if format == 1 {
        return &[
            Field::Name,
            Field::Kind,
            Field::Stream,
            Field::Every,
            Field::Jobs,
            Field::Link,
        ];
    }
    &[
        Field::Name,
        Field::Kind,
        Field::Stream,
        Field::Every,
        Field::Jobs,
        Field::Class,
        Field::Link,
    ]
}

fn server_fields(format: u32) -> &'static [Field]
    ensures { result.now ≡ station_keys format KindWord.Server }
{
    if format == 1 {
        return &[
            Field::Name,
            Field::Kind,
            Field::Stream,
            Field::Servers,
            Field::Room,
            Field::Service,
            Field::Link,
        ];
    }
    &[
        Field::Name,
        Field::Kind,
        Field::Stream,
        Field::Servers,
        Field::Room,
        Field::Service,
        Field::Order,
        Field::Link,
    ]
}

/// The keys of a link.
pub fn link_fields() -> &'static [Field]
    ensures { result.now ≡ link_keys }
{
    &[Field::To, Field::Delay, Field::Weight]
}

fn is_field(fields: &[Field], key: &str) -> bool
    ensures { result ≡ is_known fields.now key.now }
{
    fields.iter().any(|field| key == field.key())
}

/// Refuses a table with a key that is not among the fields, and names the least such key.
pub fn only_fields(station: u32, fields: &[Field], value: &Value) -> Result<(), ModelFault>
    ensures { result ≡ only_known station fields.now (view value.now) }
{
    match value.as_table() {
        Some(table) => only_members(station, fields, table),
        None => Ok(()),
    }
}

// The keys of a table rise, so the first unknown one is the least.
fn only_members(station: u32, fields: &[Field], table: &Table) -> Result<(), ModelFault>
    ensures { result ≡ none_unknown station (least_unknown fields.now (table_view table.now)) }
{
    'keys: for (key, _) in table.iter() {
        if !is_field(fields, key.as_str()) {
            return Err(ModelFault::UnknownKey {
                place: station,
                key: KeyText::of(key.as_str()),
            });
        }
    }
    Ok(())
}
