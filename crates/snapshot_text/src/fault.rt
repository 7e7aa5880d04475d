//! Why a text is no snapshot of a model.
ghost use Rattle.std.specs.Prelude.{◌≡◌};
ghost use Rattle.snapshot_text.specs.Faults.{fault_number, fault_place};

use sim_base::NoMemory;
use std::alloc::AllocError;

/// The first rule that a text breaks, in the order `TooLong`, `BadLine`, `BadFront`, `Unfit`, `BadPending`; or out of
/// memory.
#[derive(Clone, Copy, Debug, PartialEq, Eq)]
pub enum SnapshotFault {
    /// More bytes than [`MAX_FILE_BYTES`](sim_base::MAX_FILE_BYTES).
    TooLong,
    /// The first line that is not what is expected, from 1. A missing line counts as the line after the last one.
    BadLine { line: u32 },
    /// The first station, from 1, that its data does not fit.
    Unfit { station: u32 },
    /// The first bad pending message, from 0.
    BadPending { index: u32 },
    /// Out of memory.
    NoMemory,
    /// The front is above the horizon or the clone's end, or that end is not below the horizon.
    BadFront,
}

impl SnapshotFault {
    /// Its number, from 1 to 6.
    pub fn number(&self) -> u32
        ensures value { result ≡ fault_number self.now }
    {
        match self {
            SnapshotFault::TooLong => 1,
            SnapshotFault::BadLine { .. } => 2,
            SnapshotFault::Unfit { .. } => 3,
            SnapshotFault::BadPending { .. } => 4,
            SnapshotFault::NoMemory => 5,
            SnapshotFault::BadFront => 6,
        }
    }

    /// The line, the station, or the index of the message; else 0.
    pub fn place(&self) -> u32
        ensures value { result ≡ fault_place self.now }
    {
        match self {
            SnapshotFault::BadLine { line } => *line,
            SnapshotFault::Unfit { station } => *station,
            SnapshotFault::BadPending { index } => *index,
            SnapshotFault::TooLong | SnapshotFault::NoMemory | SnapshotFault::BadFront => 0,
        }
    }
}

impl From<AllocError> for SnapshotFault {
    ghost use Rattle.std.specs.Prelude.{◌≡◌};
    ghost use Rattle.snapshot_text.specs.declared.fault.SnapshotFault.TheVariants.{NoMemory};

    ghost from_gives = { λ _ e. e ≡ NoMemory };

    fn from(_error: AllocError) -> SnapshotFault {
        SnapshotFault::NoMemory
    }
}

impl From<NoMemory> for SnapshotFault {
    ghost use Rattle.std.specs.Prelude.{◌≡◌};
    ghost use Rattle.snapshot_text.specs.declared.fault.SnapshotFault.TheVariants.{NoMemory};

    ghost from_gives = { λ _ e. e ≡ NoMemory };

    fn from(_error: NoMemory) -> SnapshotFault {
        SnapshotFault::NoMemory
    }
}
