//! Reads the links of a station.
ghost use Rattle.std.specs.Prelude.{◌≡◌, ◌≤◌, IfOk, length, map};
ghost use Rattle.std.specs.Result.{result_map_both};
ghost use Rattle.toml.specs.View.{view};
ghost use Rattle.toml.specs.Data.{get};
ghost use Rattle.net_model.specs.Fields.{key_of};
ghost use Rattle.net_model.specs.NamedLinks.{each_link, link_of, link_tables, links_of};

use crate::fault::ModelFault;
use crate::field::Field;
use crate::keys::{KindWord, link_fields, only_fields};
use crate::limits::{MAX_LINKS, MAX_TIME, MAX_WEIGHT};
use crate::reading::{integer_key, name_key, read_tables, spot_at};
use arrayvec::ArrayVec;
use sim_base::Name;
use toml::Value;

/// A link as the file states it: it names the station at its end.
#[derive(Clone, Copy, Debug, PartialEq, Eq)]
pub struct NamedLink {
    pub to: Name,
    pub delay: u64,
    pub weight: u32,
}

impl Default for NamedLink {
    /// A link to no station.
    fn default() -> NamedLink {
        match Name::read(b"nowhere") {
            Some(to) => NamedLink {
                to,
                delay: 0,
                weight: 0,
            },
            None => unreachable!(),
        }
    }
}

fn read_link(station: u32, table: &Value) -> Result<NamedLink, ModelFault>
    ensures { result ≡ link_of station (view table.now) }
{
    only_fields(station, link_fields(), table)?;
    let to = name_key(spot_at(station, Field::To), table)?;
    let delay = integer_key(spot_at(station, Field::Delay), 1, MAX_TIME, None, table)?;
    let weight = integer_key(
        spot_at(station, Field::Weight),
        1,
        MAX_WEIGHT,
        Some(1),
        table,
    )? as u32;
    Ok(NamedLink { to, delay, weight })
}

fn read_each(station: u32, tables: &[Value]) -> Result<ArrayVec<NamedLink, MAX_LINKS>, ModelFault>
    requires { length tables.now ≤ MAX_LINKS }
    ensures { result_map_both (λ v. v.items) (λ e. e) result ≡ each_link station (map view tables.now) }
{
    let mut links = ArrayVec::new();
    'links: for table in tables {
        match read_link(station, table) {
            Ok(link) => links.push(link),
            Err(fault) => return Err(fault),
        }
    }
    Ok(links)
}

fn link_values(station: u32, table: &Value) -> Result<&[Value], ModelFault>
    ensures value { result_map_both (λ vs. map view vs.now) (λ e. e) result ≡ link_tables station
        (get (key_of Field.Link) (view table.now)) }
    ensures at_most { IfOk result (λ vs. length vs.now ≤ MAX_LINKS) }
{
    let field = Field::Link;
    let Some(value) = table.get(field.key()) else {
        return Ok(&[]);
    };
    match read_tables(spot_at(station, field), value) {
        Ok(tables) => {
            if tables.len() > MAX_LINKS {
                return Err(ModelFault::TooMany { place: station });
            }
            Ok(tables)
        }
        Err(fault) => Err(fault),
    }
}

/// The links of a station of a kind, in order.
pub fn read_links(
    station: u32,
    word: KindWord,
    table: &Value,
) -> Result<ArrayVec<NamedLink, MAX_LINKS>, ModelFault>
    ensures { result_map_both (λ v. v.items) (λ e. e) result ≡ links_of station word (view table.now) }
{
    match word {
        KindWord::Sink => Ok(ArrayVec::new()),
        _ => match link_values(station, table) {
            Ok(tables) => read_each(station, tables),
            Err(fault) => Err(fault),
        },
    }
}
