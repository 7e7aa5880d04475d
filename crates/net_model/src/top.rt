//! Reads the top of a model file: its format, lookahead, horizon (stop time), seed and limit.
ghost use Rattle.std.specs.Prelude.{◌≡◌, ◌≤◌, IfOk, length, map};
ghost use Rattle.std.specs.Result.{result_map_both};
ghost use Rattle.toml.specs.View.{view};
ghost use Rattle.net_model.specs.Top.{in_number, stations_at, top_of};

use crate::fault::ModelFault;
use crate::field::Field;
use crate::limits::{MAX_HORIZON, MAX_LIMIT, MAX_SEED, MAX_STATIONS, MAX_TIME, USUAL_LIMIT};
use crate::reading::{integer_key, out_of_range, read_tables, spot_at, value_key};
use toml::Value;

/// The numbers at the top of a file, as in a `Model`.
#[derive(Clone, Copy, Debug, PartialEq, Eq)]
pub struct Top {
    pub format: u32,
    pub lookahead: u64,
    pub horizon: u64,
    pub seed: u64,
    pub limit: u64,
}

/// The numbers at the top.
pub fn top_numbers(root: &Value) -> Result<Top, ModelFault>
    ensures { result ≡ top_of (view root.now) }
{
    let format = integer_key(spot_at(0, Field::Format), 1, 2, Some(1), root)? as u32;
    let lookahead = integer_key(spot_at(0, Field::Lookahead), 1, MAX_TIME, None, root)?;
    let horizon = integer_key(spot_at(0, Field::Horizon), 1, MAX_HORIZON, None, root)?;
    let seed = integer_key(spot_at(0, Field::Seed), 0, MAX_SEED, Some(0), root)?;
    let limit = integer_key(
        spot_at(0, Field::Limit),
        1,
        MAX_LIMIT,
        Some(USUAL_LIMIT),
        root,
    )?;
    Ok(Top {
        format,
        lookahead,
        horizon,
        seed,
        limit,
    })
}

fn counted_tables(tables: &[Value]) -> Result<&[Value], ModelFault>
    ensures at_most { IfOk result (λ vs. length vs.now ≤ MAX_STATIONS) }
    ensures value { result_map_both (λ vs. map view vs.now) (λ e. e) result ≡ in_number (map view tables.now) }
{
    if tables.is_empty() {
        return Err(out_of_range(spot_at(0, Field::Station)));
    }
    if tables.len() > MAX_STATIONS {
        return Err(ModelFault::TooMany { place: 0 });
    }
    Ok(tables)
}

/// The tables of the stations, 1 to `MAX_STATIONS`.
pub fn station_tables(root: &Value) -> Result<&[Value], ModelFault>
    ensures at_most { IfOk result (λ vs. length vs.now ≤ MAX_STATIONS) }
    ensures value { result_map_both (λ vs. map view vs.now) (λ e. e) result ≡ stations_at (view root.now) }
{
    match value_key(spot_at(0, Field::Station), root) {
        Ok(value) => match read_tables(spot_at(0, Field::Station), value) {
            Ok(tables) => counted_tables(tables),
            Err(fault) => Err(fault),
        },
        Err(fault) => Err(fault),
    }
}
