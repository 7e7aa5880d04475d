//! Messages, the events of the simulation, and their order: by time stamp, then by sender and sequence number.
ghost use Rattle.std.specs.Prelude.{◌≡◌, ◌<◌, ◌^◌, ◌↔◌, IsTrue};
ghost use Rattle.sim_base.specs.KeyWords.{FitsWord, key_word};
ghost use Rattle.sim_base.specs.Order.{msg_cmp};
ghost use Rattle.sim_base.specs.declared.message.TheConstants.{WORD_PLACES};
ghost use Rattle.sim_base.specs.Params.{param_word, param_values, param_of_word};

use std::cmp::Ordering;

/// The number of times that a word can represent: the first 30 of its 64 bits.
pub const WORD_TIMES: u64 = 1_073_741_824;

/// The number of senders: 7 bits.
pub const WORD_SENDERS: u32 = 128;

/// The number of sequence numbers of one sender: 21 bits.
pub const WORD_NUMBERS: u64 = 2_097_152;

/// The number of places: the last 6 bits.
pub const WORD_PLACES: u64 = 64;

/// The number of words of one time: the 34 bits below it.
pub const WORDS_OF_TIME: u64 = WORD_SENDERS as u64 * WORD_NUMBERS * WORD_PLACES;

/// What messages are ordered by: the time, then the sender, then the sender's running count.
///
/// The sender is a station's number from 1, or 0 for the analyst.
#[derive(Clone, Copy, Debug, Default, PartialEq, Eq, PartialOrd, Ord)]
pub struct Key {
    pub time: u64,
    pub sender: u32,
    pub number: u64,
}

impl Key {
    /// Whether the key fits a 64-bit word, as the keys of a run do.
    #[inline(always)]
    pub fn fits_word(self) -> bool
        ensures value { IsTrue result ↔ FitsWord self }
    {
        self.time < WORD_TIMES && self.sender < WORD_SENDERS && self.number < WORD_NUMBERS
    }

    /// The key as one word with a place in its last bits. Words have the order of their keys.
    #[inline(always)]
    pub fn word(self, place: u64) -> u64
        requires fit { FitsWord self }
        requires at_most { place < WORD_PLACES }
        ensures value { result ≡ key_word place self }
    {
        ((self.time * u64::from(WORD_SENDERS) + u64::from(self.sender)) * WORD_NUMBERS
            + self.number)
            * WORD_PLACES
            + place
    }
}

/// A job: the station of its source, its count among that source's jobs (from 0), and when it was made.
#[derive(Clone, Copy, Debug, Default, PartialEq, Eq, PartialOrd, Ord)]
pub struct Job {
    pub source: u32,
    pub count: u64,
    pub born: u64,
}

/// A parameter of a station that a decision may change.
#[derive(Clone, Copy, Debug, Default, PartialEq, Eq, PartialOrd, Ord)]
pub enum Param {
    /// The range of a source's time between jobs.
    #[default]
    Every,
    /// The range of a server's service time.
    Service,
    /// The range of a delay's time.
    Hold,
    /// The number of servers that work in parallel.
    Servers,
    /// The number of jobs that may wait.
    Room,
    /// The weight of one link of a router.
    Weight,
}

impl Param {
    /// All parameters.
    pub const ALL: [Param; 6] = [
        Param::Every,
        Param::Service,
        Param::Hold,
        Param::Servers,
        Param::Room,
        Param::Weight,
    ];

    /// Its keyword in scripts and traces, which is also its key in a model file.
    pub fn word(self) -> &'static str
        ensures value { result.now ≡ param_word self }
    {
        match self {
            Param::Every => "every",
            Param::Service => "service",
            Param::Hold => "hold",
            Param::Servers => "servers",
            Param::Room => "room",
            Param::Weight => "weight",
        }
    }

    /// The number of values in a change of it: the two ends of a range, a link and its weight, or one number.
    pub fn values(self) -> u32
        ensures value { result ≡ param_values self }
    {
        match self {
            Param::Every | Param::Service | Param::Hold | Param::Weight => 2,
            Param::Servers | Param::Room => 1,
        }
    }

    /// The parameter with this keyword, or None if there is none.
    pub fn of_word(word: &[u8]) -> Option<Param>
        ensures value { result ≡ param_of_word word.now }
    {
        Param::ALL
            .iter()
            .copied()
            .find(|param| param.word().as_bytes() == word)
    }
}

/// New values of a parameter; `b` is 0 if the parameter takes one value.
#[derive(Clone, Copy, Debug, Default, PartialEq, Eq, PartialOrd, Ord)]
pub struct Change {
    pub param: Param,
    pub a: u64,
    pub b: u64,
}

/// What a message means to its receiver.
#[derive(Clone, Copy, Debug, Default, PartialEq, Eq, PartialOrd, Ord)]
pub enum Payload {
    /// A source makes its next job.
    #[default]
    Tick,
    /// A job arrives.
    Job(Job),
    /// The service of a job ends.
    Done(Job),
    /// A decision changes a parameter.
    Set(Change),
}

/// A message: its key, the station that receives it, and its payload.
///
/// Messages are ordered by key; the receiver and the payload only separate equal keys.
#[derive(Clone, Copy, Debug, Default, PartialEq, Eq, PartialOrd, Ord)]
pub struct Msg {
    pub key: Key,
    pub to: u32,
    pub payload: Payload,
}

/// Which of two messages comes first: the order by which every station handles its messages.
pub fn compare(a: &Msg, b: &Msg) -> Ordering
    ensures value { result ≡ msg_cmp a.now b.now }
{
    a.cmp(b)
}
