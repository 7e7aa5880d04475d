//! All stations with their copies of the clones, and one step of them to their bounds.
ghost use Rattle.std.specs.Prelude.{◌≡◌, ◌+◌, ◌<◌, ℕ, IfOk, IfErr};
ghost use Rattle.net_model.specs.declared.limits.TheConstants.{MAX_STATIONS};
ghost use Rattle.station_steps.specs.Windows.{AreBounds, AreStations};
ghost use Rattle.world_core.specs.Cuts.{HasSteppedTo, IsStepTo};
ghost use Rattle.world_core.specs.Overs.{IsFaultAt};
ghost use Rattle.world_core.specs.declared.world.WorldFault.TheVariants.{EventLimit};

use crate::world::WorldFault;
use net_model::Model;
use sim_base::Steps;
use station_steps::{Buffers, SharedEnds, SharedLists, StationSlot, Stepper};
use std::alloc::Global;
use std::sync::Arc;
use std::sync::ledger::Ledger;

/// All stations with their copies of the clones.
#[derive(Drop)]
pub struct Stations {
    /// The model.
    pub model: Arc<Model>,
    /// The clones with their decisions and ends.
    pub lists: SharedLists,
    /// When clones end.
    pub ends: SharedEnds,
    /// The copies of each station, in the order of the stations.
    pub procs: Vec<StationSlot>,
    /// The bound of each station, and memory for what stations send.
    pub buffers: Buffers,
}

// The fault of a step whose first station over the limit is at this place, from 0, with this first clone there.
fn beyond_limit(model: &Arc<Model>, place: u32, who: u32) -> WorldFault
    requires at_most { place < MAX_STATIONS }
    ensures value { result ≡ EventLimit (place + 1) who model.now.value.limit }
{
    WorldFault::EventLimit {
        station: place + 1,
        who,
        kept: model.limit(),
    }
}

impl Stations {
    /// Steps each station to its bound, and gives it what the others sent to it. Returns the number of handled
    /// messages, which is a hint. At whatever cut the copies represent the clones, if the bounds are the next times of
    /// a round, they represent the clones there afterwards.
    ///
    /// # Errors
    ///
    /// Out of memory, or a log would get longer than the limit: the stations have no meaning.
    pub fn advance<E: Stepper, L: Ledger>(
        &mut self,
        alloc: Global,
        stepper: &mut E,
        steps: &mut Steps<L>,
    ) -> Result<u64, WorldFault>
        requires stations { AreStations self.old.model.value self.old.procs.items }
        requires bounds { AreBounds self.old.model.value self.old.procs.items self.old.buffers.bounds.items }
        ensures model { self.new.model.value ≡ self.old.model.value }
        ensures lists { self.new.lists ≡ self.old.lists }
        ensures ends { self.new.ends ≡ self.old.ends }
        ensures stepped { (cut next : ℕ → ℕ) → IsStepTo self.old.model.value self.old.lists.clones self.old.ends
            cut next self.old.buffers.bounds.items self.old.procs.items → IfOk result (λ handled.
            HasSteppedTo self.old.model.value self.old.lists.clones self.old.ends cut next steps.old steps.new
            self.new.procs.items) }
        ensures fault { (cut next : ℕ → ℕ) → IsStepTo self.old.model.value self.old.lists.clones self.old.ends
            cut next self.old.buffers.bounds.items self.old.procs.items → IfErr result (λ e.
            IsFaultAt self.old.model.value self.old.lists.clones cut next steps.old steps.new e) }
    {
        let stepped = stepper.step(
            alloc,
            &self.model,
            &self.ends,
            &mut self.procs,
            &mut self.buffers,
            steps,
        )?;
        if let Some((place, who)) = stepped.over {
            return Err(beyond_limit(&self.model, place, who));
        }
        Ok(stepped.handled)
    }
}
