//! The keys of a model file.
ghost use Rattle.std.specs.Prelude.{◌≡◌, ◌≤◌, length};
ghost use Rattle.net_model.specs.Fields.{key_of};
ghost use Rattle.net_model.specs.declared.key_text.TheConstants.{MAX_KEY_TEXT_LEN};

use sim_base::Param;

/// A key that a model file may have.
#[derive(Clone, Copy, Debug, PartialEq, Eq)]
pub enum Field {
    /// The format of the file.
    Format,
    /// No link's delay is less than this.
    Lookahead,
    /// The end of the simulation.
    Horizon,
    /// The seed of all draws.
    Seed,
    /// The most messages that a station may handle in one clone.
    Limit,
    /// The stations.
    Station,
    /// A station's name.
    Name,
    /// The kind of a station.
    Kind,
    /// The stream that a station draws from.
    Stream,
    /// The range of times between a source's jobs.
    Every,
    /// The number of jobs that a source makes.
    Jobs,
    /// The class of a source's jobs.
    Class,
    /// The number of jobs that a server serves at a time.
    Servers,
    /// The most jobs that may wait at a server.
    Room,
    /// The range of a server's service times.
    Service,
    /// The order in which waiting jobs are served.
    Order,
    /// The range of times that a delay holds a job.
    Hold,
    /// The rule by which a router picks a link.
    By,
    /// A station's links.
    Link,
    /// The name of the station at the end of a link.
    To,
    /// The travel time of a link.
    Delay,
    /// A link's share among those of its station.
    Weight,
}

impl Field {
    /// The key as it is written in a file.
    pub fn key(&self) -> &'static str
        ensures value { result.now ≡ key_of self.now }
        ensures length_max { length result.now ≤ MAX_KEY_TEXT_LEN }
    {
        match self {
            Field::Format => "format",
            Field::Lookahead => "lookahead",
            Field::Horizon => "horizon",
            Field::Seed => "seed",
            Field::Limit => "limit",
            Field::Station => "station",
            Field::Name => "name",
            Field::Kind => "kind",
            Field::Stream => "stream",
            Field::Every => Param::Every.word(),
            Field::Jobs => "jobs",
            Field::Class => "class",
            Field::Servers => Param::Servers.word(),
            Field::Room => Param::Room.word(),
            Field::Service => Param::Service.word(),
            Field::Order => "order",
            Field::Hold => Param::Hold.word(),
            Field::By => "by",
            Field::Link => "link",
            Field::To => "to",
            Field::Delay => "delay",
            Field::Weight => Param::Weight.word(),
        }
    }
}
