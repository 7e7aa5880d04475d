//! Resolves the links of the stations.
ghost use Rattle.std.specs.Prelude.{◌≡◌, ◌≢◌, ◌≤◌, ◌<◌, IfErr, IfOk, IfSome, length, map, position, Ok, Err};
ghost use Rattle.std.specs.Result.{result_map_both};
ghost use Rattle.std.specs.Str.{bytes_eq};
ghost use Rattle.net_model.specs.Drafts.{as_draft};
ghost use Rattle.net_model.specs.Resolving.{links_of_named, link_to, link_of_named, site_of_draft, sites_of};
ghost use Rattle.net_model.specs.Sites.{as_site};
ghost use Rattle.net_model.specs.declared.limits.TheConstants.{MAX_LINKS, MAX_STATIONS};

use crate::draft::Draft;
use crate::fault::ModelFault;
use crate::limits::MAX_LINKS;
use crate::links::NamedLink;
use crate::station::{Kind, Link, Station};
use arrayvec::ArrayVec;
use sim_base::Name;
use std::alloc::Global;

fn named_draft(drafts: &[Draft], name: &Name) -> Option<usize>
    ensures value { result ≡ position (λ draft. bytes_eq draft.name name.now) drafts.now }
    ensures in_range { IfSome result (λ i. i < length drafts.now) }
{
    drafts
        .iter()
        .position(|draft| draft.name.as_bytes() == name.as_bytes())
}

fn link_into(
    lookahead: u64,
    station: u32,
    link: &NamedLink,
    i: usize,
    kind: Kind,
) -> Result<Link, ModelFault>
    requires { i < MAX_STATIONS }
    ensures { result ≡ link_to lookahead station link.now i kind }
{
    if kind.is_source() {
        return Err(ModelFault::IntoSource { place: station });
    }
    if link.delay < lookahead {
        return Err(ModelFault::ShortDelay { place: station });
    }
    Ok(Link {
        to: i as u32 + 1,
        delay: link.delay,
        weight: link.weight,
    })
}

fn resolve_link(
    lookahead: u64,
    drafts: &[Draft],
    station: u32,
    link: &NamedLink,
) -> Result<Link, ModelFault>
    requires { length drafts.now ≤ MAX_STATIONS }
    ensures { result ≡ link_of_named lookahead (map as_draft drafts.now) station link.now }
{
    match named_draft(drafts, &link.to) {
        Some(i) => link_into(lookahead, station, link, i, drafts[i].kind),
        None => Err(ModelFault::UnknownStation { place: station }),
    }
}

fn resolve_links(
    lookahead: u64,
    drafts: &[Draft],
    station: u32,
    links: &[NamedLink],
) -> Result<ArrayVec<Link, MAX_LINKS>, ModelFault>
    requires drafts_max { length drafts.now ≤ MAX_STATIONS }
    requires at_most { length links.now ≤ MAX_LINKS }
    ensures { result_map_both (λ v. v.items) (λ e. e) result ≡ links_of_named lookahead
        (map as_draft drafts.now) station links.now }
{
    let mut found = ArrayVec::new();
    'links: for link in links {
        match resolve_link(lookahead, drafts, station, link) {
            Ok(link) => found.push(link),
            Err(fault) => return Err(fault),
        }
    }
    Ok(found)
}

fn resolve_station(
    lookahead: u64,
    drafts: &[Draft],
    station: u32,
    draft: &Draft,
) -> Result<Station, ModelFault>
    requires { length drafts.now ≤ MAX_STATIONS }
    ensures { result_map_both as_site (λ e. e) result ≡ site_of_draft lookahead (map as_draft drafts.now) station
        (as_draft draft.now) }
{
    let links = resolve_links(lookahead, drafts, station, draft.links.as_slice())?;
    if !draft.kind.is_sink() && links.is_empty() {
        return Err(ModelFault::NoWayOut { place: station });
    }
    Ok(Station {
        name: draft.name,
        kind: draft.kind,
        stream: draft.stream,
        links,
    })
}

/// The stations of the network, in order.
pub fn resolve_stations(
    alloc: Global,
    lookahead: u64,
    drafts: &[Draft],
) -> Result<Vec<Station>, ModelFault>
    requires { length drafts.now ≤ MAX_STATIONS }
    ensures ok { IfOk result (λ v. sites_of lookahead (map as_draft drafts.now) 1 (map as_draft drafts.now)
        ≡ Ok (map as_site v.items)) }
    ensures refused { IfErr result (λ e. e ≢ ModelFault.NoMemory
        → sites_of lookahead (map as_draft drafts.now) 1 (map as_draft drafts.now) ≡ Err e) }
{
    let mut stations = Vec::new(alloc);
    'stations: for (i, draft) in drafts.iter().enumerate() {
        match resolve_station(lookahead, drafts, i as u32 + 1, draft) {
            Ok(station) => match stations.push(station) {
                Ok(()) => {}
                Err(_) => return Err(ModelFault::NoMemory),
            },
            Err(fault) => return Err(fault),
        }
    }
    Ok(stations)
}
