//! Why a model text is refused.
ghost use Rattle.std.specs.Prelude.{◌≡◌, ◌≤◌, IfSome, length, option_copied};
ghost use Rattle.net_model.specs.Faults.{fault_key, fault_number, fault_place};
ghost use Rattle.net_model.specs.declared.key_text.TheConstants.{MAX_KEY_TEXT_LEN};

use crate::field::Field;
use crate::key_text::KeyText;
use std::alloc::{AllocError, AllocFailed};

/// The first rule that a model text breaks, or out of memory. `place` is the number of the station that breaks it, or 0
/// for the top of the file.
#[derive(Clone, Copy, Debug, PartialEq, Eq)]
pub enum ModelFault {
    /// More bytes than [`MAX_FILE_BYTES`](sim_base::MAX_FILE_BYTES).
    TooLong,
    /// Not a TOML text.
    NotToml,
    /// A required key is absent.
    Missing { place: u32, field: Field },
    /// A value has the wrong type for its key.
    WrongType { place: u32, field: Field },
    /// A key that is not allowed there: the least such key in byte order.
    UnknownKey { place: u32, key: KeyText },
    /// The name of a station is not a valid name.
    BadName { place: u32 },
    /// An earlier station has this name.
    NameTwice { place: u32 },
    /// A value is out of its key's range.
    OutOfRange { place: u32, field: Field },
    /// A link leads to a name that no station has.
    UnknownStation { place: u32 },
    /// A link is faster than the lookahead.
    ShortDelay { place: u32 },
    /// A station that is no sink has no link.
    NoWayOut { place: u32 },
    /// More stations than [`MAX_STATIONS`](crate::limits::MAX_STATIONS), or more links of a station than
    /// [`MAX_LINKS`](crate::limits::MAX_LINKS).
    TooMany { place: u32 },
    /// Out of memory.
    NoMemory,
    /// A link leads to a source.
    IntoSource { place: u32 },
}

impl ModelFault {
    /// Its number, from 1 to 14.
    pub fn number(&self) -> u32
        ensures { result ≡ fault_number self.now }
    {
        match self {
            ModelFault::TooLong => 1,
            ModelFault::NotToml => 2,
            ModelFault::Missing { .. } => 3,
            ModelFault::WrongType { .. } => 4,
            ModelFault::UnknownKey { .. } => 5,
            ModelFault::BadName { .. } => 6,
            ModelFault::NameTwice { .. } => 7,
            ModelFault::OutOfRange { .. } => 8,
            ModelFault::UnknownStation { .. } => 9,
            ModelFault::ShortDelay { .. } => 10,
            ModelFault::NoWayOut { .. } => 11,
            ModelFault::TooMany { .. } => 12,
            ModelFault::NoMemory => 13,
            ModelFault::IntoSource { .. } => 14,
        }
    }

    /// The number of the station that it names, or 0.
    pub fn place(&self) -> u32
        ensures { result ≡ fault_place self.now }
    {
        match self {
            ModelFault::TooLong | ModelFault::NotToml | ModelFault::NoMemory => 0,
            ModelFault::Missing { place, .. }
            | ModelFault::WrongType { place, .. }
            | ModelFault::UnknownKey { place, .. }
            | ModelFault::BadName { place }
            | ModelFault::NameTwice { place }
            | ModelFault::OutOfRange { place, .. }
            | ModelFault::UnknownStation { place }
            | ModelFault::ShortDelay { place }
            | ModelFault::NoWayOut { place }
            | ModelFault::TooMany { place }
            | ModelFault::IntoSource { place } => *place,
        }
    }

    /// The key that it names, or None if it names none. Of an unknown key its text.
    pub fn key(&self) -> Option<&str>
        ensures value { option_copied result ≡ fault_key self.now }
        ensures length_max { IfSome result (λ key. length key.now ≤ MAX_KEY_TEXT_LEN) }
    {
        match self {
            ModelFault::Missing { field, .. }
            | ModelFault::WrongType { field, .. }
            | ModelFault::OutOfRange { field, .. } => Some(field.key()),
            ModelFault::UnknownKey { key, .. } => Some(key.text()),
            _ => None,
        }
    }
}

impl From<AllocError> for ModelFault {
    ghost use Rattle.net_model.specs.declared.fault.ModelFault.TheVariants.{NoMemory};
    ghost use Rattle.std.specs.Prelude.{◌≡◌};

    ghost from_gives = { λ _ e. e ≡ NoMemory };

    fn from(_error: AllocError) -> ModelFault {
        ModelFault::NoMemory
    }
}

impl<T: Drop> From<AllocFailed<T>> for ModelFault {
    ghost use Rattle.net_model.specs.declared.fault.ModelFault.TheVariants.{NoMemory};
    ghost use Rattle.std.specs.Prelude.{◌≡◌};

    ghost from_gives = { λ _ e. e ≡ NoMemory };

    fn from(_error: AllocFailed<T>) -> ModelFault {
        ModelFault::NoMemory
    }
}
