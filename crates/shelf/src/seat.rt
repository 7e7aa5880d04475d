//! The readers: a seat looks at the newest rack of a station.
ghost use Rattle.std.specs.Prelude.{◌≡◌, ◌≤◌, Some, IfSome, MatchBool};
ghost use mathlib.Core.List.{IsPrefix};
ghost use Rattle.phys_proc.specs.Racks.{RackView};
ghost use Rattle.shelf.specs.Racks.{AreLegal, HasRack, IsGlance, latest};

use crate::history::{Naming, PublishedRacks};
use crate::version::{ShownVersion, Version};
use left_right::ReadHandle;
use phys_proc::Glance;
use sim_base::Name;
use std::marker::Model;
use std::sync::Arc;

/// The racks published up to some time, for a seat to learn. Only the stocker makes it.
#[derive(Drop)]
pub struct Told<J: Naming> {
    /// The newest version at that time.
    pub(crate) version: Arc<Version<J>>,
}

impl<J: Naming> Model for Told<J> {
    ghost use Rattle.std.specs.Prelude.{List};
    ghost use Rattle.phys_proc.specs.Racks.{RackView};

    ghost Value = { List RackView };

    ghost view = { λ t. t.version.value };
}

/// A reader's handle on the shelf. Contracts see the racks that it knows: all published up to the last that it saw or
/// learnt.
#[derive(Drop)]
pub struct Seat<J: Naming> {
    /// The reader's side of `left_right`.
    pub(crate) handle: ReadHandle<ShownVersion<J>>,
    /// The newest version that it saw or learnt.
    pub(crate) newest: Arc<Version<J>>,
}

impl<J: Naming> Model for Seat<J> {
    ghost use Rattle.std.specs.Prelude.{List};
    ghost use Rattle.phys_proc.specs.Racks.{RackView};

    ghost Value = { List RackView };

    ghost view = { λ s. s.newest.value };
}

// Whether b is longer than a. If it is not, b is a prefix of a.
fn is_behind<J: Naming>(a: &PublishedRacks<J>, b: &PublishedRacks<J>) -> bool
    ensures value { MatchBool result (IsPrefix a.now b.now) (IsPrefix b.now a.now) }
{
    // for its clauses: both are prefixes of one history, so the shorter is a prefix of the longer
    let _both = a.longer(b);
    a.len() < b.len()
}

// The shown version, if it is longer than the known one.
fn newer_version<J: Naming>(
    handle: &mut ReadHandle<ShownVersion<J>>,
    known: &PublishedRacks<J>,
) -> Option<Arc<Version<J>>>
    ensures begins { IfSome result (λ v. IsPrefix known.now v.value) }
{
    let guard = handle.enter()?;
    if !is_behind(known, guard.version.published()) {
        return None;
    }
    let again = Arc::try_clone(&guard.version).ok()?;
    drop(guard);
    Some(again)
}

// Takes the shown version if it is newer. Keeps the present one if its handle cannot be copied.
fn refresh<J: Naming>(handle: &mut ReadHandle<ShownVersion<J>>, newest: &mut Arc<Version<J>>)
    ensures begins { IsPrefix newest.old.value newest.new.value }
{
    if let Some(version) = newer_version(handle, newest.published()) {
        *newest = version;
    }
}

// What the version shows of the named clone at a station.
fn glance_at<J: Naming>(version: &Version<J>, station: u32, who: &Name) -> Glance
    requires has_rack { HasRack station version.now }
    ensures glance { (r : RackView) × (latest station version.now ≡ Some r) × IsGlance r who.now result }
{
    version.rack(station).glance(who)
}

impl<J: Naming> Seat<J> {
    /// Looks at the station's newest rack. It waits for nobody, takes no memory, and always answers.
    pub fn look(&mut self, station: u32, who: &Name) -> Glance
        requires has_rack { HasRack station self.old }
        ensures begins { IsPrefix self.old self.new }
        ensures legal { AreLegal self.new }
        // the result is that of the station's last rack, which is no older than the one that the seat knew
        ensures glance { (r : RackView) × (latest station self.new ≡ Some r) × IsGlance r who.now result }
        ensures front { (r : RackView) → latest station self.old ≡ Some r → r.front ≤ result.front }
    {
        refresh(&mut self.handle, &mut self.newest);
        // for its clause: the racks are legal, so a later one of a station shows a later front
        let _legal = self.newest.published().len();
        glance_at(&self.newest, station, who)
    }

    /// Learns what was published: no later look is older.
    pub fn learn(&mut self, told: Told<J>)
        ensures begins { IsPrefix self.old self.new }
        ensures told { IsPrefix told self.new }
        ensures legal { AreLegal self.new }
    {
        let Told { version } = told;
        if is_behind(self.newest.published(), version.published()) {
            self.newest = version;
        }
        // for its clause
        let _legal = self.newest.published().len();
    }
}
