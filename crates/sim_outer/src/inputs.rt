//! Inputs: files that are fetched by name.
ghost use Rattle.std.specs.Prelude.{◌≡◌, ◌≤◌, ◌⊎◌, IfOk, IfErr};
ghost use Rattle.sim_outer.specs.Counts.{IsCounted, HasRisen};
ghost use Rattle.sim_outer.specs.Views.{InputsView};
ghost use Rattle.sim_outer.specs.Files.{IsFetched, Lacks};

use sim_base::MAX_FILE_BYTES;
use std::alloc::{AllocError, Global};

/// The most bytes of a file that a fetch returns: one more than a file may have, so that a longer file is noticed.
pub const MAX_FETCHED: usize = MAX_FILE_BYTES + 1;

/// Why a fetch fails.
#[derive(Clone, Copy, Debug, PartialEq, Eq)]
pub enum FetchFault {
    /// Out of memory.
    NoMemory,
    /// There is no such file, or it could not be read.
    Failed,
}

impl From<AllocError> for FetchFault {
    ghost use Rattle.std.specs.Prelude.{◌≡◌};
    ghost use Rattle.sim_outer.specs.declared.inputs.FetchFault.{FetchFault};

    ghost from_gives = { λ _ fault. fault ≡ FetchFault.NoMemory };

    fn from(_error: AllocError) -> FetchFault {
        FetchFault::NoMemory
    }
}

/// Files that are fetched by name.
pub trait Inputs {
    // the files by their names and the number of calls, if the contract knows them, and the faults
    ghost view: { Self → InputsView };

    /// The first [`MAX_FETCHED`] bytes of the file of this name, or the whole file if it is shorter.
    ///
    /// It fails only if the count of faults rises in this call, or if the contract knows the files and none has this
    /// name.
    fn fetch(&mut self, alloc: Global, name: &str) -> Result<Vec<u8>, FetchFault>
        ensures bytes { IfOk result (λ v. IsFetched (view self.old).files name.now v.items) }
        ensures cause { IfErr result (λ e. e ≡ FetchFault.Failed →
            HasRisen (view self.old).faults (view self.new).faults ⊎ Lacks (view self.old).files name.now) }
        ensures later { (view self.old).faults ≤ (view self.new).faults }
        ensures same { (view self.new).files ≡ (view self.old).files }
        ensures counted { IsCounted (view self.old).calls (view self.new).calls };
}
