//! Decisions, and the changes that they plan for a clone.
ghost use Rattle.std.specs.Prelude.{◌≡◌};
ghost use Rattle.std.specs.Bool.{Decides};
ghost use Rattle.sim_base.specs.Decisions.{subject};

use crate::message::Change;
use crate::name::Name;

/// What an analyst decides.
#[derive(Clone, Copy, Debug, PartialEq, Eq)]
pub enum Decision {
    /// Forks a new clone from an old one.
    Fork {
        new: Name,
        old: Name,
    },
    /// Gives a parameter of a station new values in one clone, from a time on.
    Set {
        who: Name,
        at: u64,
        station: Name,
        change: Change,
    },
    /// Ends a clone: it handles nothing at this time or later.
    End {
        who: Name,
        at: u64,
    },
}

impl Decision {
    /// The clone that the decision is about: the one that is forked, changed or ended.
    pub fn subject(&self) -> Name
        ensures value { result ≡ subject self.now }
    {
        match self {
            Decision::Fork { old, .. } => *old,
            Decision::Set { who, .. } => *who,
            Decision::End { who, .. } => *who,
        }
    }
}

/// One element of a clone's decision list: a station's parameter takes new values at a time.
#[derive(Clone, Copy, Debug, PartialEq, Eq)]
pub struct Planned {
    pub at: u64,
    pub station: u32,
    pub change: Change,
}

/// Whether two planned decisions are equal: in their time, their station, the parameter and its values.
pub fn same_plan(a: &Planned, b: &Planned) -> bool
    ensures equal { Decides result (a.now ≡ b.now) }
{
    a == b
}
