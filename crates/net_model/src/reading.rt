//! Reads the value of one key of a table.
ghost use Rattle.std.specs.Prelude.{◌≡◌, ◌≤◌, ◌<◌, ◌^◌, Option, IfOk, IfSome, is_some, map};
ghost use Rattle.std.specs.List.{list_all};
ghost use Rattle.std.specs.Result.{result_map_both};
ghost use Rattle.toml.specs.Data.{as_table};
ghost use Rattle.toml.specs.View.{view};
ghost use Rattle.net_model.specs.Reading.{integer_at, integer_of, name_at, span_at, span_of_value, span_of_list};
ghost use Rattle.net_model.specs.Reading.{span_of_two, tables_of, text_at, text_of, value_at};

use crate::fault::ModelFault;
use crate::field::Field;
use crate::limits::is_range;
use sim_base::Name;
use toml::Value;

/// The key and the station that are read; the station is 0 for the top of the file.
#[derive(Clone, Copy, Debug, PartialEq, Eq)]
pub struct Spot {
    pub station: u32,
    pub field: Field,
}

/// The spot of a key.
pub(crate) fn spot_at(station: u32, field: Field) -> Spot
    ensures { result ≡ record { station = station; field = field } }
{
    Spot { station, field }
}

/// A range of times, from `lo` to `hi`.
#[derive(Clone, Copy, Debug, PartialEq, Eq)]
pub struct Span {
    pub lo: u64,
    pub hi: u64,
}

fn missing(spot: Spot) -> ModelFault
    ensures { result ≡ ModelFault.Missing spot.station spot.field }
{
    ModelFault::Missing {
        place: spot.station,
        field: spot.field,
    }
}

fn wrong_type(spot: Spot) -> ModelFault
    ensures { result ≡ ModelFault.WrongType spot.station spot.field }
{
    ModelFault::WrongType {
        place: spot.station,
        field: spot.field,
    }
}

/// The fault of a value that the key does not allow.
pub(crate) fn out_of_range(spot: Spot) -> ModelFault
    ensures { result ≡ ModelFault.OutOfRange spot.station spot.field }
{
    ModelFault::OutOfRange {
        place: spot.station,
        field: spot.field,
    }
}

/// The value of a required key.
pub fn value_key<'a>(spot: Spot, table: &'a Value) -> Result<&'a Value, ModelFault>
    ensures { result_map_both (λ v. view v.now) (λ e. e) result ≡ value_at spot.station spot.field (view table.now) }
{
    match table.get(spot.field.key()) {
        Some(value) => Ok(value),
        None => Err(missing(spot)),
    }
}

fn read_integer(spot: Spot, low: u64, high: u64, value: &Value) -> Result<u64, ModelFault>
    requires { high < 2 ^ 63 }
    ensures value { result ≡ integer_of spot.station spot.field low high (view value.now) }
    ensures small { IfOk result (λ n. n ≤ high) }
{
    let Some(number) = value.as_integer() else {
        return Err(wrong_type(spot));
    };
    match u64::try_from(number) {
        Ok(n) if low <= n && n <= high => Ok(n),
        _ => Err(out_of_range(spot)),
    }
}

/// The integer from `low` to `high` of a key. An absent key has its default, if there is one.
pub fn integer_key(
    spot: Spot,
    low: u64,
    high: u64,
    default: Option<u64>,
    table: &Value,
) -> Result<u64, ModelFault>
    requires wide { high < 2 ^ 63 }
    requires usual { IfSome default (λ n. n ≤ high) }
    ensures value { result ≡ integer_at spot.station spot.field low high default (view table.now) }
    ensures small { IfOk result (λ n. n ≤ high) }
{
    match table.get(spot.field.key()) {
        Some(value) => read_integer(spot, low, high, value),
        None => match default {
            Some(n) => Ok(n),
            None => Err(missing(spot)),
        },
    }
}

/// The text of a value.
pub fn read_text<'a>(spot: Spot, value: &'a Value) -> Result<&'a str, ModelFault>
    ensures { result_map_both (λ s. s.now) (λ e. e) result ≡ text_of spot.station spot.field (view value.now) }
{
    match value.as_str() {
        Some(text) => Ok(text),
        None => Err(wrong_type(spot)),
    }
}

/// The text of a key.
pub fn text_key<'a>(spot: Spot, table: &'a Value) -> Result<&'a str, ModelFault>
    ensures { result_map_both (λ s. s.now) (λ e. e) result ≡ text_at spot.station spot.field (view table.now) }
{
    match value_key(spot, table) {
        Ok(value) => read_text(spot, value),
        Err(fault) => Err(fault),
    }
}

/// The name of a key.
pub fn name_key(spot: Spot, table: &Value) -> Result<Name, ModelFault>
    ensures { result ≡ name_at spot.station spot.field (view table.now) }
{
    match text_key(spot, table) {
        Ok(text) => match Name::read(text.as_bytes()) {
            Some(name) => Ok(name),
            None => Err(ModelFault::BadName {
                place: spot.station,
            }),
        },
        Err(fault) => Err(fault),
    }
}

fn span_of_numbers(
    spot: Spot,
    low: u64,
    lo: Option<i64>,
    hi: Option<i64>,
) -> Result<Span, ModelFault>
    ensures { result ≡ span_of_two spot.station spot.field low lo hi }
{
    let (Some(lo), Some(hi)) = (lo, hi) else {
        return Err(wrong_type(spot));
    };
    match (u64::try_from(lo), u64::try_from(hi)) {
        (Ok(lo), Ok(hi)) if is_range(low, lo, hi) => Ok(Span { lo, hi }),
        _ => Err(out_of_range(spot)),
    }
}

fn span_of_values(spot: Spot, low: u64, values: &[Value]) -> Result<Span, ModelFault>
    ensures { result ≡ span_of_list spot.station spot.field low (map view values.now) }
{
    match values {
        [lo, hi] => span_of_numbers(spot, low, lo.as_integer(), hi.as_integer()),
        _ => Err(wrong_type(spot)),
    }
}

fn read_span(spot: Spot, low: u64, value: &Value) -> Result<Span, ModelFault>
    ensures { result ≡ span_of_value spot.station spot.field low (view value.now) }
{
    match value.as_array() {
        Some(values) => span_of_values(spot, low, values.as_slice()),
        None => Err(wrong_type(spot)),
    }
}

/// The range of times of a key, with `lo` at least `low`.
pub fn span_key(spot: Spot, low: u64, table: &Value) -> Result<Span, ModelFault>
    ensures { result ≡ span_at spot.station spot.field low (view table.now) }
{
    match value_key(spot, table) {
        Ok(value) => read_span(spot, low, value),
        Err(fault) => Err(fault),
    }
}

fn are_tables(values: &[Value]) -> bool
    ensures { result ≡ list_all (λ v. is_some (as_table (view v))) values.now }
{
    values.iter().all(|value| value.is_table())
}

/// The elements of an array of tables.
pub fn read_tables<'a>(spot: Spot, value: &'a Value) -> Result<&'a [Value], ModelFault>
    ensures { result_map_both (λ vs. map view vs.now) (λ e. e) result ≡ tables_of spot.station spot.field
        (view value.now) }
{
    match value.as_array() {
        Some(values) => {
            if are_tables(values.as_slice()) {
                Ok(values.as_slice())
            } else {
                Err(wrong_type(spot))
            }
        }
        None => Err(wrong_type(spot)),
    }
}
