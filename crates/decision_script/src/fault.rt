//! Why a text is no script.
ghost use Rattle.std.specs.Prelude.{◌≡◌};
ghost use Rattle.decision_script.specs.Faults.{fault_line, fault_number};

use sim_base::NoMemory;
use std::alloc::{AllocError, AllocFailed};

/// The first rule that a text breaks, or out of memory. `line` is the number of the first faulty line, from 1.
#[derive(Clone, Copy, Debug, PartialEq, Eq)]
pub enum ScriptFault {
    /// More bytes than [`MAX_FILE_BYTES`](sim_base::MAX_FILE_BYTES).
    TooLong,
    /// A byte of 128 or more, also in a comment.
    NotAscii { line: u32 },
    /// The line has no known form.
    BadLine { line: u32 },
    /// The line has a known form, but no 32-bit number in the place of a number.
    BadNumber { line: u32 },
    /// A decision or look after [`MAX_ITEMS`](crate::MAX_ITEMS) others.
    TooManyLines { line: u32 },
    /// A section of one more analyst than [`MAX_ANALYSTS`](crate::MAX_ANALYSTS).
    TooManyAnalysts { line: u32 },
    /// Out of memory.
    NoMemory,
}

impl ScriptFault {
    /// Its number, from 1 to 7.
    pub fn number(&self) -> u32
        ensures value { result ≡ fault_number self.now }
    {
        match self {
            ScriptFault::TooLong => 1,
            ScriptFault::NotAscii { .. } => 2,
            ScriptFault::BadLine { .. } => 3,
            ScriptFault::BadNumber { .. } => 4,
            ScriptFault::TooManyLines { .. } => 5,
            ScriptFault::TooManyAnalysts { .. } => 6,
            ScriptFault::NoMemory => 7,
        }
    }

    /// The number of the line that it names, or 0.
    pub fn line(&self) -> u32
        ensures value { result ≡ fault_line self.now }
    {
        match self {
            ScriptFault::TooLong | ScriptFault::NoMemory => 0,
            ScriptFault::NotAscii { line }
            | ScriptFault::BadLine { line }
            | ScriptFault::BadNumber { line }
            | ScriptFault::TooManyLines { line }
            | ScriptFault::TooManyAnalysts { line } => *line,
        }
    }
}

impl From<AllocError> for ScriptFault {
    ghost use Rattle.std.specs.Prelude.{◌≡◌};
    ghost use Rattle.decision_script.specs.declared.fault.ScriptFault.TheVariants.{NoMemory};

    ghost from_gives = { λ _ e. e ≡ NoMemory };

    fn from(_error: AllocError) -> ScriptFault {
        ScriptFault::NoMemory
    }
}

impl<T: Drop> From<AllocFailed<T>> for ScriptFault {
    ghost use Rattle.std.specs.Prelude.{◌≡◌};
    ghost use Rattle.decision_script.specs.declared.fault.ScriptFault.TheVariants.{NoMemory};

    ghost from_gives = { λ _ e. e ≡ NoMemory };

    fn from(_error: AllocFailed<T>) -> ScriptFault {
        ScriptFault::NoMemory
    }
}

impl From<NoMemory> for ScriptFault {
    ghost use Rattle.std.specs.Prelude.{◌≡◌};
    ghost use Rattle.decision_script.specs.declared.fault.ScriptFault.TheVariants.{NoMemory};

    ghost from_gives = { λ _ e. e ≡ NoMemory };

    fn from(_error: NoMemory) -> ScriptFault {
        ScriptFault::NoMemory
    }
}

/// The first rule that a line breaks, independent of the lines before it, or out of memory.
#[derive(Clone, Copy, Debug, PartialEq, Eq)]
pub enum LineFault {
    /// A byte of 128 or more, also in a comment.
    NotAscii,
    /// The line has no known form.
    BadLine,
    /// The line has a known form, but one of its numbers is not plain digits without a leading zero, or needs more than
    /// 32 bits.
    BadNumber,
    /// Out of memory.
    NoMemory,
}
