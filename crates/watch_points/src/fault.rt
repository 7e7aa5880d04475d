//! Why a text states no watches.
ghost use Rattle.std.specs.Prelude.{◌≡◌};
ghost use Rattle.watch_points.specs.Faults.{fault_line, fault_number};

use sim_base::NoMemory;
use std::alloc::AllocError;

/// The first rule that a text of watches breaks, or out of memory. `line` is the number of the first line that breaks
/// a rule, from 1.
#[derive(Clone, Copy, Debug, PartialEq, Eq)]
pub enum WatchFault {
    /// More bytes than [`MAX_FILE_BYTES`](sim_base::MAX_FILE_BYTES).
    TooLong,
    /// A byte of 128 or more, also in a comment.
    NotAscii { line: u32 },
    /// The line has no known form.
    BadLine { line: u32 },
    /// The line has a known form, but one of its numbers is not written in digits without a leading zero, or needs more
    /// than 32 bits.
    BadNumber { line: u32 },
    /// A watch after [`MAX_WATCHES`](crate::MAX_WATCHES) others.
    TooManyLines { line: u32 },
    /// Out of memory.
    NoMemory,
}

impl WatchFault {
    /// Its number, from 1 to 6.
    pub fn number(&self) -> u32
        ensures value { result ≡ fault_number self.now }
    {
        match self {
            WatchFault::TooLong => 1,
            WatchFault::NotAscii { .. } => 2,
            WatchFault::BadLine { .. } => 3,
            WatchFault::BadNumber { .. } => 4,
            WatchFault::TooManyLines { .. } => 5,
            WatchFault::NoMemory => 6,
        }
    }

    /// The number of the line that breaks the rule, or 0.
    pub fn line(&self) -> u32
        ensures value { result ≡ fault_line self.now }
    {
        match self {
            WatchFault::TooLong | WatchFault::NoMemory => 0,
            WatchFault::NotAscii { line }
            | WatchFault::BadLine { line }
            | WatchFault::BadNumber { line }
            | WatchFault::TooManyLines { line } => *line,
        }
    }
}

impl From<AllocError> for WatchFault {
    ghost use Rattle.std.specs.Prelude.{◌≡◌};
    ghost use Rattle.watch_points.specs.declared.fault.WatchFault.TheVariants.{NoMemory};

    ghost from_gives = { λ _ e. e ≡ NoMemory };

    fn from(_error: AllocError) -> WatchFault {
        WatchFault::NoMemory
    }
}

impl From<NoMemory> for WatchFault {
    ghost use Rattle.std.specs.Prelude.{◌≡◌};
    ghost use Rattle.watch_points.specs.declared.fault.WatchFault.TheVariants.{NoMemory};

    ghost from_gives = { λ _ e. e ≡ NoMemory };

    fn from(_error: NoMemory) -> WatchFault {
        WatchFault::NoMemory
    }
}
