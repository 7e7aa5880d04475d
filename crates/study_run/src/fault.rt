//! Why the run of a study has no result: out of memory, or a log that would get longer than the model's limit.
ghost use Rattle.std.specs.Prelude.{◌≡◌};
ghost use Rattle.study_run.specs.Faults.{fault_of_window as fault_of_window'};

use world_core::WorldFault;

/// Why a run has no result.
#[derive(Clone, Copy, Debug, PartialEq, Eq)]
pub enum StudyFault {
    /// Out of memory.
    NoMemory,
    /// A log would get longer than the limit: the station, and the place of the clone among all clones.
    LimitMet { station: u32, who: u32 },
}

/// The fault of a run in which a window has this fault.
pub fn fault_of_window(fault: WorldFault) -> StudyFault
    ensures value { result ≡ fault_of_window' fault }
{
    match fault {
        WorldFault::NoMemory => StudyFault::NoMemory,
        WorldFault::EventLimit { station, who, .. } => StudyFault::LimitMet { station, who },
    }
}
