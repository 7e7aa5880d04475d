//! A model: a queueing network that keeps every rule, with its horizon (stop time) and its lookahead.
ghost use Rattle.std.specs.Prelude.{◌≡◌, ◌+◌, ◌<◌, ◌≤◌, length, Some, IfSome, position};
ghost use Rattle.std.specs.Str.{bytes_eq};
ghost use Rattle.net_model.specs.Net.{HasStation, class_from, station_named, site_at};
ghost use Rattle.net_model.specs.Sites.{as_site};

use crate::station::{Kind, Station};
use crate::top::Top;
use sim_base::Name;

/// The queueing network of a file; it meets every rule of `specs/Rules.antt`.
#[derive(Drop)]
pub struct Model {
    pub(crate) top: Top,
    pub(crate) stations: Vec<Station>,
}

impl std::marker::Model for Model {
    ghost use Rattle.net_model.specs.Net.{Net};

    ghost Value = { Net };

    ghost use Rattle.net_model.specs.Sites.{net_of};
    ghost use Rattle.net_model.specs.Rules.{IsNet};

    ghost view = { λ m. net_of m.top m.stations.items };

    ghost invariant = { λ m. IsNet (net_of m.top m.stations.items) };
}

impl Model {
    ghost use Rattle.net_model.specs.Rules.{IsNet};

    /// The number of stations.
    pub fn len(&self) -> u32
        ensures value { result ≡ length self.now.sites }
        ensures valid { IsNet self.now }
    {
        self.stations.len() as u32
    }

    /// The station with this number, from 1.
    pub fn station(&self, s: u32) -> &Station
        requires is_station { HasStation self.now s }
        ensures value { site_at self.now s ≡ Some (as_site result.now) }
        ensures valid { IsNet self.now }
    {
        &self.stations[s as usize - 1]
    }

    /// The class of the jobs that a station makes, or 1 if it is not a source of the model.
    pub fn class_of(&self, source: u32) -> u32
        ensures value { result ≡ class_from self.now source }
    {
        if source == 0 || source > self.len() {
            return 1;
        }
        match self.station(source).kind {
            Kind::Source { class, .. } => class,
            _ => 1,
        }
    }

    /// The number of the station with this name, or None if there is none.
    pub fn find(&self, name: &Name) -> Option<u32>
        ensures value { result ≡ station_named name.now self.now }
        ensures in_range { IfSome result (λ s. s ≤ length self.now.sites) }
    {
        match place(&self.stations, name) {
            Some(i) => Some(i as u32 + 1),
            None => None,
        }
    }

    /// The format: 1, or 2 with classes and service by class.
    pub fn format(&self) -> u32
        ensures { result ≡ self.now.format }
    {
        self.top.format
    }

    /// No link's delay is less than this; it is at least 1.
    pub fn lookahead(&self) -> u64
        ensures value { result ≡ self.now.lookahead }
        ensures valid { IsNet self.now }
    {
        self.top.lookahead
    }

    /// Nothing is handled at this time or later.
    pub fn horizon(&self) -> u64
        ensures value { result ≡ self.now.horizon }
        ensures valid { IsNet self.now }
    {
        self.top.horizon
    }

    /// The seed of all draws.
    pub fn seed(&self) -> u64
        ensures { result ≡ self.now.seed }
    {
        self.top.seed
    }

    /// The most messages that a station may handle in one clone.
    pub fn limit(&self) -> u64
        ensures value { result ≡ self.now.limit }
        ensures valid { IsNet self.now }
    {
        self.top.limit
    }
}

fn place(stations: &[Station], name: &Name) -> Option<usize>
    ensures value { result ≡ position (λ station. bytes_eq station.name name.now) stations.now }
    ensures in_range { IfSome result (λ i. i < length stations.now) }
{
    stations
        .iter()
        .position(|station| station.name.as_bytes() == name.as_bytes())
}
