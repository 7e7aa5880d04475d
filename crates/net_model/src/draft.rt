//! Reads the stations, before their links are resolved.
ghost use Rattle.std.specs.Prelude.{◌≡◌, ◌≢◌, ◌≤◌, [], IfErr, IfOk, length, map, Ok, Err};
ghost use Rattle.std.specs.List.{list_any};
ghost use Rattle.std.specs.Result.{result_map_both};
ghost use Rattle.std.specs.Str.{bytes_eq};
ghost use Rattle.toml.specs.View.{view};
ghost use Rattle.net_model.specs.Drafts.{as_draft, draft_of, drafts_of, station_name_at};
ghost use Rattle.net_model.specs.declared.limits.TheConstants.{MAX_STATIONS};

use crate::fault::ModelFault;
use crate::field::Field;
use crate::keys::{only_fields, station_fields};
use crate::kinds::{kind_key, read_kind};
use crate::limits::{MAX_LINKS, MAX_SEED};
use crate::links::{NamedLink, read_links};
use crate::reading::{integer_key, name_key, spot_at};
use crate::station::Kind;
use arrayvec::ArrayVec;
use sim_base::Name;
use std::alloc::Global;
use toml::Value;

/// A station as the file states it: its links name the stations that they lead to.
#[derive(Drop)]
pub struct Draft {
    pub name: Name,
    pub kind: Kind,
    pub stream: u64,
    pub links: ArrayVec<NamedLink, MAX_LINKS>,
}

fn is_taken(name: &Name, earlier: &[Draft]) -> bool
    ensures { result ≡ list_any (λ draft. bytes_eq draft.name name.now) earlier.now }
{
    earlier
        .iter()
        .any(|draft| draft.name.as_bytes() == name.as_bytes())
}

#[tactic(auto, using(crate::proofs::ElementByElement::has_name_drafts))]
fn station_name(station: u32, earlier: &[Draft], table: &Value) -> Result<Name, ModelFault>
    ensures { result ≡ station_name_at station (map as_draft earlier.now) (view table.now) }
{
    let name = name_key(spot_at(station, Field::Name), table)?;
    if name.text() == "analyst" {
        return Err(ModelFault::BadName { place: station });
    }
    if is_taken(&name, earlier) {
        return Err(ModelFault::NameTwice { place: station });
    }
    Ok(name)
}

fn read_draft(
    format: u32,
    earlier: &[Draft],
    station: u32,
    table: &Value,
) -> Result<Draft, ModelFault>
    ensures { result_map_both as_draft (λ e. e) result ≡ draft_of format (map as_draft earlier.now) station
        (view table.now) }
{
    let name = station_name(station, earlier, table)?;
    let word = kind_key(station, table)?;
    only_fields(station, station_fields(format, word), table)?;
    let key = spot_at(station, Field::Stream);
    let stream = integer_key(key, 0, MAX_SEED, Some(u64::from(station)), table)?;
    let kind = read_kind(format, station, word, table)?;
    let links = read_links(station, word, table)?;
    Ok(Draft {
        name,
        kind,
        stream,
        links,
    })
}

/// The stations of the tables, in order.
pub fn read_drafts(alloc: Global, format: u32, tables: &[Value]) -> Result<Vec<Draft>, ModelFault>
    requires { length tables.now ≤ MAX_STATIONS }
    ensures count { IfOk result (λ v. length v.items ≡ length tables.now) }
    ensures ok { IfOk result (λ v. drafts_of format [] 1 (map view tables.now) ≡ Ok (map as_draft v.items)) }
    ensures refused { IfErr result (λ e. e ≢ ModelFault.NoMemory
        → drafts_of format [] 1 (map view tables.now) ≡ Err e) }
{
    let mut drafts = Vec::new(alloc);
    'drafts: for (i, table) in tables.iter().enumerate() {
        match read_draft(format, drafts.as_slice(), i as u32 + 1, table) {
            Ok(draft) => match drafts.push(draft) {
                Ok(()) => {}
                Err(_) => return Err(ModelFault::NoMemory),
            },
            Err(fault) => return Err(fault),
        }
    }
    Ok(drafts)
}
