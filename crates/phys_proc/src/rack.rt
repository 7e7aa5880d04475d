//! Racks: the view of a station for readers, at a window boundary (front).
ghost use Rattle.std.specs.Prelude.{◌≡◌, ◌<◌, IfOk, IfSome, IfNone, length, true, false};
ghost use Rattle.std.specs.List.{AllByRecursion};
ghost use Rattle.sim_base.specs.declared.lists.TheConstants.{MAX_CLONES};
ghost use Rattle.clone_sets.specs.Sets.{has, size};
ghost use Rattle.run_laws.specs.Queue.{In};
ghost use Rattle.phys_proc.specs.Racks.{RackCopyView, view_of_copy, FindsClone};

use crate::copy::PhysCopy;
use clone_sets::CloneSet;
use log_chain::Log;
use net_model::Model;
use sim_base::{Lists, Name, NoMemory};
use std::alloc::Global;
use std::sync::Arc;

/// A copy as a reader sees it: its clones, and its log.
#[derive(Drop)]
pub struct RackCopy {
    pub(crate) set: CloneSet,
    pub(crate) log: Log,
}

impl std::marker::Model for RackCopy {
    ghost use Rattle.phys_proc.specs.Racks.{RackCopyView};

    ghost Value = { RackCopyView };

    ghost view = { λ s. record { set = s.set; log = s.log } };
}

/// Snapshot of a station at a front for readers: the copies, and the lists of the clones that they represent.
#[derive(Drop)]
pub struct Rack {
    pub(crate) model: Arc<Model>,
    pub(crate) lists: Arc<Lists>,
    pub(crate) station: u32,
    pub(crate) front: u64,
    pub(crate) copies: Vec<RackCopy>,
}

impl std::marker::Model for Rack {
    ghost use Rattle.phys_proc.specs.Racks.{RackView, ShowsClones};

    ghost Value = { RackView };

    ghost view = { λ r. record {
      net = r.model.value;
      clones = r.lists.value.clones;
      station = r.station;
      front = r.front;
      copies = r.copies.items;
    } };

    ghost invariant = { λ r. ShowsClones r.model.value r.lists.value.clones r.station r.front r.copies.items };
}

/// The view of one clone in a rack.
#[derive(Clone, Copy, Debug, PartialEq, Eq)]
pub struct Glance {
    /// The time up to which the rack shows the station.
    pub front: u64,
    /// The number of clones.
    pub clones: u32,
    /// The clone's data in the rack, if there is a clone with this name.
    pub found: Option<Found>,
}

/// Progress of a clone at a station: its number of handled messages, and the number of clones with the same log.
#[derive(Clone, Copy, Debug, PartialEq, Eq)]
pub struct Found {
    /// The number of messages that the clone has handled at the station.
    pub handled: u64,
    /// The number of clones with its log there, including the clone itself.
    pub shared: u32,
}

// The copy that the clone is in.
pub(crate) fn find_copy(copies: &[RackCopy], c: u32) -> Option<Found>
    requires clone { c < MAX_CLONES }
    ensures some { IfSome result (λ f. (h : RackCopyView) × In h copies.now × (has h.set c ≡ true) ×
        (f.handled ≡ length h.log) × (f.shared ≡ size h.set)) }
    ensures none { IfNone result (AllByRecursion (λ h. has h.set c ≡ false) copies.now) }
{
    for copy in copies {
        if copy.set.has(c) {
            return Some(Found {
                handled: copy.log.len(),
                shared: copy.set.len(),
            });
        }
    }
    None
}

impl Rack {
    /// The number of its station.
    pub fn station(&self) -> u32
        ensures value { result ≡ self.now.station }
    {
        self.station
    }

    /// The time up to which it shows the station.
    pub fn front(&self) -> u64
        ensures value { result ≡ self.now.front }
    {
        self.front
    }

    /// The lists of the clones in the rack.
    pub fn lists(&self) -> &Lists
        ensures value { result.now.clones ≡ self.now.clones }
    {
        &self.lists
    }

    // The data of the clone with this name.
    fn find(&self, who: &Name) -> Option<Found>
        ensures found { FindsClone self.now.net self.now.clones self.now.station self.now.front who.now result }
    {
        let Some(c) = self.lists.find(who) else {
            return None;
        };
        let Some(found) = find_copy(self.copies.as_slice(), c) else {
            unreachable!()
        };
        Some(found)
    }

    /// The view of the clone with this name. Allocates nothing.
    pub fn glance(&self, who: &Name) -> Glance
        ensures front { result.front ≡ self.now.front }
        ensures clones { result.clones ≡ length self.now.clones }
        ensures found { FindsClone self.now.net self.now.clones self.now.station self.now.front who.now result.found }
    {
        Glance {
            front: self.front,
            clones: self.lists.len(),
            found: self.find(who),
        }
    }
}

impl PhysCopy {
    /// The copy as a reader sees it; the log is shared.
    pub(crate) fn see(&mut self, alloc: Global) -> Result<RackCopy, NoMemory>
        ensures seen { IfOk result (λ s. s ≡ view_of_copy self.old) }
        ensures same { self.new ≡ self.old }
    {
        let log = self.log.share(alloc)?;
        let set = self.pending.set();
        Ok(RackCopy { set, log })
    }
}
