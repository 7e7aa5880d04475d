//! Reads a model text.
ghost use Rattle.std.specs.Prelude.{◌≡◌, ◌≢◌, ◌≤◌, IfErr, IfOk, length, map, Ok, Err, Some, None};
ghost use Rattle.toml.specs.Errors.{IsMemory};
ghost use Rattle.toml.specs.View.{table_view, view};
ghost use Rattle.net_model.specs.Sites.{as_site};
ghost use Rattle.net_model.specs.declared.limits.TheConstants.{MAX_STATIONS};
ghost use Rattle.net_model.specs.Text.{model, model_of, sites_of_tables, tree};

use crate::draft::read_drafts;
use crate::fault::ModelFault;
use crate::keys::{only_fields, top_fields};
use crate::model::Model;
use crate::resolve::resolve_stations;
use crate::station::Station;
use crate::top::{Top, station_tables, top_numbers};
use sim_base::MAX_FILE_BYTES;
use std::alloc::Global;
use toml::de::Error;
use toml::{Table, Value};

fn refusal(error: &Error) -> ModelFault
    ensures memory { IsMemory error.now → result ≡ ModelFault.NoMemory }
    ensures other { ¬ IsMemory error.now → result ≡ ModelFault.NotToml }
{
    if error.is_memory() {
        ModelFault::NoMemory
    } else {
        ModelFault::NotToml
    }
}

fn read_tree(alloc: Global, text: &[u8]) -> Result<Table, ModelFault>
    ensures ok { IfOk result (λ t. tree text.now ≡ Some (table_view t)) }
    ensures refused { IfErr result (λ e. e ≢ ModelFault.NoMemory → (e ≡ ModelFault.NotToml) × (tree text.now ≡ None)) }
{
    match toml::table_from_slice(alloc, text) {
        Ok(table) => Ok(table),
        Err(error) => Err(refusal(&error)),
    }
}

fn read_stations(alloc: Global, top: Top, tables: &[Value]) -> Result<Vec<Station>, ModelFault>
    requires { length tables.now ≤ MAX_STATIONS }
    ensures ok { IfOk result (λ v. sites_of_tables top (map view tables.now) ≡ Ok (map as_site v.items)) }
    ensures refused { IfErr result (λ e. e ≢ ModelFault.NoMemory → sites_of_tables top (map view tables.now) ≡ Err e) }
{
    match read_drafts(alloc, top.format, tables) {
        Ok(drafts) => resolve_stations(alloc, top.lookahead, drafts.as_slice()),
        Err(fault) => Err(fault),
    }
}

fn read_root(alloc: Global, root: &Value) -> Result<Model, ModelFault>
    ensures ok { IfOk result (λ m. model_of (view root.now) ≡ Ok m) }
    ensures refused { IfErr result (λ e. e ≢ ModelFault.NoMemory → model_of (view root.now) ≡ Err e) }
{
    let known = only_fields(0, top_fields(), root);
    if let Err(fault) = known {
        return Err(fault);
    }
    let top = match top_numbers(root) {
        Ok(top) => top,
        Err(fault) => return Err(fault),
    };
    let tables = match station_tables(root) {
        Ok(tables) => tables,
        Err(fault) => return Err(fault),
    };
    match read_stations(alloc, top, tables) {
        Ok(stations) => Ok(Model { top, stations }),
        Err(fault) => Err(fault),
    }
}

/// Reads the model of a text, or returns the first rule that it breaks.
///
/// The rules are tested in a fixed order: the length of the text, its TOML form, the keys at the top, each station
/// alone, the links' targets. Out of memory is reported as `ModelFault::NoMemory`, wherever it happens.
pub fn read_model(alloc: Global, text: &[u8]) -> Result<Model, ModelFault>
    ensures ok { IfOk result (λ m. model text.now ≡ Ok m) }
    ensures refused { IfErr result (λ e. e ≢ ModelFault.NoMemory → model text.now ≡ Err e) }
{
    if text.len() > MAX_FILE_BYTES {
        return Err(ModelFault::TooLong);
    }
    match read_tree(alloc, text) {
        Ok(table) => read_root(alloc, &Value::Table(table)),
        Err(fault) => Err(fault),
    }
}
