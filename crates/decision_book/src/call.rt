//! A call is a decision that an analyst asked for, with its reply. A reply is `Accepted` or the first refusal whose
//! condition holds; a refusal has a number, from 1 to 12.
ghost use Rattle.std.specs.Prelude.{◌≡◌};
ghost use Rattle.decision_book.specs.Numbers.{reply_number};

use sim_base::Decision;

/// The most calls of a journal: as many as a script may have items, so a script alone never gets the reply `Full`.
pub const MAX_CALLS: usize = decision_script::MAX_ITEMS;

/// The reply to a decision: `Accepted`, or the first refusal whose condition holds, in this order.
#[derive(Clone, Copy, Debug, PartialEq, Eq)]
pub enum Reply {
    /// No refusal holds.
    Accepted,
    /// The journal holds [`MAX_CALLS`] calls. Such a call is not added to it.
    Full,
    /// The front is the horizon.
    Closed,
    /// The clone that is forked, changed or ended does not exist.
    UnknownClone,
    /// That clone has an end.
    Ended { at: u64 },
    /// The new name of a fork is the name of a clone.
    NameTaken,
    /// A fork, and there are already as many clones as allowed, [`MAX_CLONES`](sim_base::MAX_CLONES).
    TooManyClones,
    /// A set, and the station does not exist.
    UnknownStation,
    /// A set, and the station has no such parameter.
    WrongParameter,
    /// A set, and a value is out of the parameter's range.
    OutOfRange,
    /// A set, and the clone's list is full: it holds [`MAX_DECISIONS`](sim_base::MAX_DECISIONS).
    ListFull,
    /// The time of a set or an end is the horizon or later.
    PastHorizon,
    /// The time of a set or an end is before the front.
    Late { front: u64 },
}

impl Reply {
    /// The number of the refusal, from 1 to 12, or 0 for `Accepted`.
    pub fn number(&self) -> u32
        ensures value { result ≡ reply_number self.now }
    {
        match self {
            Reply::Accepted => 0,
            Reply::Full => 1,
            Reply::Closed => 2,
            Reply::UnknownClone => 3,
            Reply::Ended { .. } => 12,
            Reply::NameTaken => 4,
            Reply::TooManyClones => 5,
            Reply::UnknownStation => 6,
            Reply::WrongParameter => 7,
            Reply::OutOfRange => 8,
            Reply::ListFull => 9,
            Reply::PastHorizon => 10,
            Reply::Late { .. } => 11,
        }
    }
}

/// A decision that was asked for, and its reply.
#[derive(Clone, Copy, Debug, PartialEq, Eq)]
pub struct Call {
    /// Number of the analyst who asked.
    pub caller: u32,
    /// The number of fronts before the call.
    pub fronts: u32,
    /// The decision.
    pub decision: Decision,
    /// Its reply; never `Full` for a call in a journal.
    pub reply: Reply,
}
