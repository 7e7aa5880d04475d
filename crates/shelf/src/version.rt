//! Versions: the last rack of each station, which is what readers are shown.
ghost use Rattle.std.specs.Prelude.{◌≡◌, map, Some};
ghost use Rattle.std.specs.Arc.{arc_value};
ghost use Rattle.shelf.specs.Racks.{AreShown, HasRack, latest};

use crate::history::{Naming, PublishedRacks};
use left_right::Absorb;
use phys_proc::Rack;
use std::alloc::AllocError;
use std::cell::Cell;
use std::marker::Model;
use std::sync::Arc;

/// The last rack of each station, and the prefix of the history that it covers. Contracts see the latter.
#[derive(Drop)]
pub struct Version<J: Naming> {
    published: PublishedRacks<J>,
    racks: Vec<Arc<Rack>>,
}

impl<J: Naming> Model for Version<J> {
    ghost use Rattle.std.specs.Prelude.{List, map};
    ghost use Rattle.std.specs.Arc.{arc_value};
    ghost use Rattle.phys_proc.specs.Racks.{RackView};
    ghost use Rattle.shelf.specs.Racks.{AreShown};

    ghost Value = { List RackView };

    ghost view = { λ v. v.published };

    ghost invariant = { λ v. AreShown (map arc_value v.racks.items) v.published };
}

impl<J: Naming> Version<J> {
    /// A version of these racks.
    pub fn of(published: PublishedRacks<J>, racks: Vec<Arc<Rack>>) -> Version<J>
        requires shown { AreShown (map arc_value racks.items) published }
        ensures value { result ≡ published }
    {
        Version { published, racks }
    }

    /// The prefix of the history that it covers.
    pub fn published(&self) -> &PublishedRacks<J>
        ensures value { result.now ≡ self.now }
    {
        &self.published
    }

    /// The last rack of each station.
    pub fn racks(&self) -> &[Arc<Rack>]
        ensures shown { AreShown (map arc_value result.now) self.now }
    {
        self.racks.as_slice()
    }

    /// The last rack of a station.
    pub fn rack(&self, station: u32) -> &Rack
        requires has_rack { HasRack station self.now }
        ensures last { latest station self.now ≡ Some result.now }
    {
        &self.racks[station as usize - 1]
    }
}

/// The state that `left_right` shows to readers.
#[derive(Drop)]
pub struct ShownVersion<J: Naming> {
    /// The version in this state.
    pub version: Arc<Version<J>>,
}

/// Two handles of the next version, one for each state of `left_right`.
#[derive(Drop)]
pub struct NextVersion<J: Naming> {
    first: Cell<Option<Arc<Version<J>>>>,
    second: Arc<Version<J>>,
}

impl<J: Naming> NextVersion<J> {
    /// Shows this version.
    pub fn of(version: Arc<Version<J>>) -> Result<NextVersion<J>, AllocError> {
        let first = Arc::try_clone(&version)?;
        Ok(NextVersion {
            first: Cell::new(Some(first)),
            second: version,
        })
    }
}

impl<J: Naming> Absorb<NextVersion<J>> for ShownVersion<J> {
    type State = ();

    ghost state = { λ s. tt };

    ghost applied = { λ s p. s };

    ghost never_fails = { Unit {0} };

    fn absorb_first(
        &mut self,
        operation: &NextVersion<J>,
        _other: &ShownVersion<J>,
    ) -> Result<(), AllocError> {
        if let Some(version) = operation.first.replace(None) {
            self.version = version;
        }
        Ok(())
    }

    fn absorb_second(
        &mut self,
        operation: NextVersion<J>,
        _other: &ShownVersion<J>,
    ) -> Result<(), NextVersion<J>> {
        let NextVersion { second, .. } = operation;
        self.version = second;
        Ok(())
    }
}
