//! Whether a station accepts a change.
ghost use Rattle.std.specs.Prelude.{◌≡◌};
ghost use Rattle.net_model.specs.Net.{HasStation, site_of};
ghost use Rattle.net_model.specs.Sites.{as_site};
ghost use Rattle.stations.specs.Changes.{accepts as accepts', is_accepted, has_parameter, is_in_range};

use net_model::limits::{MAX_ROOM, MAX_SERVERS, MAX_WEIGHT, is_range};
use net_model::{Kind, Model, Station};
use sim_base::{Change, Param};

/// Why a station does not accept a change.
#[derive(Clone, Copy, Debug, PartialEq, Eq)]
pub enum ChangeFault {
    /// Its kind has no such parameter.
    WrongParameter,
    /// A value is outside the parameter's range.
    OutOfRange,
}

/// Whether a station of the model accepts a change.
///
/// `WrongParameter` is returned exactly if its kind does not have the parameter, `OutOfRange` exactly if it does and a
/// value is out of range.
pub fn accepts(model: &Model, station: u32, change: &Change) -> Result<(), ChangeFault>
    requires is_station { HasStation model.now station }
    ensures { result ≡ accepts' (site_of model.now station) change.now }
{
    station_accepts(model.station(station), change)
}

pub(crate) fn station_accepts(station: &Station, change: &Change) -> Result<(), ChangeFault>
    ensures { result ≡ accepts' (as_site station.now) change.now }
{
    if !kind_has(&station.kind, change.param) {
        return Err(ChangeFault::WrongParameter);
    }
    if !in_range(station.links.len(), change) {
        return Err(ChangeFault::OutOfRange);
    }
    Ok(())
}

pub(crate) fn takes_change(station: &Station, change: &Change) -> bool
    ensures { result ≡ is_accepted (as_site station.now) change.now }
{
    station_accepts(station, change).is_ok()
}

fn kind_has(kind: &Kind, param: Param) -> bool
    ensures { result ≡ has_parameter kind.now param }
{
    match *kind {
        Kind::Source { .. } => param == Param::Every,
        Kind::Server { .. } => {
            param == Param::Service || param == Param::Servers || param == Param::Room
        }
        Kind::Delay { .. } => param == Param::Hold,
        Kind::Router { turn } => param == Param::Weight && !turn,
        Kind::Sink => false,
    }
}

fn in_range(links: usize, change: &Change) -> bool
    ensures { result ≡ is_in_range links change.now.param change.now.a change.now.b }
{
    match change.param {
        Param::Every | Param::Service => is_range(1, change.a, change.b),
        Param::Hold => is_range(0, change.a, change.b),
        Param::Servers => 1 <= change.a && change.a <= MAX_SERVERS,
        Param::Room => change.a <= MAX_ROOM,
        Param::Weight => {
            1 <= change.a && change.a <= links as u64 && 1 <= change.b && change.b <= MAX_WEIGHT
        }
    }
}
