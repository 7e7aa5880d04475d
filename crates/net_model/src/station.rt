//! Stations (logical processes) as a model describes them: name, kind, random number stream, and links.
ghost use Rattle.std.specs.Prelude.{◌≡◌};
ghost use Rattle.net_model.specs.Net.{is_source, is_sink, routes_by_turn, serves_by_class};

use crate::limits::MAX_LINKS;
use arrayvec::ArrayVec;
use sim_base::Name;

/// A link that jobs travel over: the station at its end, the travel time, and its weight.
#[derive(Clone, Copy, Debug, Default, PartialEq, Eq)]
pub struct Link {
    pub to: u32,
    pub delay: u64,
    pub weight: u32,
}

/// The kind of a station. Times are ranges, from `lo` to `hi`.
#[derive(Clone, Copy, Debug, PartialEq, Eq)]
pub enum Kind {
    /// Makes a number of jobs of one class, with times between them from a range.
    Source {
        lo: u64,
        hi: u64,
        jobs: u64,
        class: u32,
    },
    /// Serves jobs. A limited number may wait, and they are served in the order of arrival or by class.
    Server {
        servers: u32,
        room: u32,
        lo: u64,
        hi: u64,
        by_class: bool,
    },
    /// Holds each job for a time from a range.
    Delay {
        lo: u64,
        hi: u64,
    },
    /// Sends each job on, in turn or by the weights of its links.
    Router {
        turn: bool,
    },
    /// Where jobs leave the network.
    Sink,
}

impl Kind {
    /// Whether jobs begin there; no link leads to such a station.
    pub(crate) fn is_source(&self) -> bool
        ensures value { result ≡ is_source self.now }
    {
        match *self {
            Kind::Source { .. } => true,
            _ => false,
        }
    }

    /// Whether jobs leave the network there; such a station has no links.
    pub(crate) fn is_sink(&self) -> bool
        ensures value { result ≡ is_sink self.now }
    {
        match *self {
            Kind::Sink => true,
            _ => false,
        }
    }

    /// Whether it is a router that takes its links in turn.
    pub fn by_turn(&self) -> bool
        ensures value { result ≡ routes_by_turn self.now }
    {
        match *self {
            Kind::Router { turn } => turn,
            _ => false,
        }
    }

    /// Whether it is a server that serves waiting jobs by class.
    pub fn by_class(&self) -> bool
        ensures value { result ≡ serves_by_class self.now }
    {
        match *self {
            Kind::Server { by_class, .. } => by_class,
            _ => false,
        }
    }
}

/// A station of a model: its name, its kind, the stream of its draws, and its links in order.
#[derive(Drop)]
pub struct Station {
    pub name: Name,
    pub kind: Kind,
    pub stream: u64,
    pub links: ArrayVec<Link, MAX_LINKS>,
}
