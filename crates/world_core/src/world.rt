//! The world of all clones, and its time windows, none longer than the lookahead allows.
ghost use Rattle.std.specs.Prelude.{◌≡◌, ◌+◌, ◌<◌, ◌≤◌, length, IfOk, IfErr};
ghost use Rattle.sim_base.specs.declared.lists.TheConstants.{MAX_CLONES};
ghost use Rattle.net_model.specs.Rules.{IsNet};
ghost use Rattle.stations.specs.Runs.{next_front};
ghost use Rattle.world_core.specs.Worlds.{AreInNet, WorldStands, opening_world, total_handled};
ghost use Rattle.world_core.specs.Opening.{AreFirst};
ghost use Rattle.world_core.specs.Overs.{IsFault, NoneBeyond};

use crate::advancing::Stations;
use crew_pool::{Crew, Gate};
use net_model::Model;
use phys_proc::Proc;
use sim_base::{Lists, NoMemory, Steps};
use station_steps::{
    Alone, Buffers, LARGE_STEP, SharedEnds, SharedLists, StationSlot, Stepper, Window, WithCrew,
};
use std::alloc::Global;
use std::mem;
use std::sync::ledger::Ledger;
use std::sync::{Arc, Wait};

/// The world of all clones at a front: the copies of every station represent them.
#[derive(Drop)]
pub struct World {
    // boxed, so that a window moves a pointer
    pub(crate) stations: Box<Stations>,
    pub(crate) front: u64,
    // the number of messages that the last window handled: a hint for the next one
    pub(crate) last: u64,
}

impl std::marker::Model for World {
    ghost use Rattle.world_core.specs.Worlds.{WorldView, WorldStands};

    ghost Value = { WorldView };

    ghost view = { λ w. record {
      net = w.stations.value.model.value;
      clones = w.stations.value.lists.clones;
      front = w.front;
    } };

    ghost invariant = { λ w. WorldStands w.stations.value.model.value w.stations.value.lists.clones w.stations.value.ends w.front
        w.stations.value.procs.items };
}

/// Why a window has no result.
#[derive(Clone, Copy, Debug, PartialEq, Eq)]
pub enum WorldFault {
    /// Out of memory.
    NoMemory,
    /// A log would get longer than the limit: the least such station, there the least such clone, and the limit.
    EventLimit { station: u32, who: u32, kept: u64 },
}

impl From<NoMemory> for WorldFault {
    ghost use Rattle.std.specs.Prelude.{◌≡◌};
    ghost use Rattle.world_core.specs.declared.world.WorldFault.TheVariants.{NoMemory};

    ghost from_gives = { λ _ e. e ≡ NoMemory };

    fn from(_error: NoMemory) -> WorldFault {
        WorldFault::NoMemory
    }
}

// The copies of all stations as they open, for the first clone.
fn open_all(alloc: Global, model: &Model) -> Result<Vec<StationSlot>, NoMemory>
    ensures valid { IsNet model.now }
    ensures count { IfOk result (λ procs. length procs.items ≡ length model.now.sites) }
    ensures first { IfOk result (λ procs. AreFirst model.now procs.items) }
{
    let mut procs = Vec::new(alloc);
    for s in 0..model.len() {
        let proc = Proc::new(alloc, model, s + 1)?;
        procs.push(StationSlot::of(alloc, proc)?)?;
    }
    Ok(procs)
}

impl World {
    /// The base clone alone, before anything is handled.
    pub fn new(alloc: Global, model: Arc<Model>) -> Result<World, NoMemory>
        ensures begins { IfOk result (λ w. w ≡ opening_world model.value) }
    {
        let procs = open_all(alloc, &model)?;
        let lists = SharedLists::new(alloc)?;
        let ends = SharedEnds::none(alloc)?;
        let stations = Stations {
            model,
            lists,
            ends,
            procs,
            buffers: Buffers::new(alloc),
        };
        Ok(World {
            stations: Box::new(alloc, stations)?,
            front: 0,
            last: 0,
        })
    }

    /// Makes a world of these stations at this front.
    pub fn of_stations(stations: Box<Stations>, front: u64) -> World
        requires stands { WorldStands stations.value.model.value stations.value.lists.clones stations.value.ends front
            stations.value.procs.items }
        ensures value { result ≡ record {
          net = stations.value.model.value;
          clones = stations.value.lists.clones;
          front = front;
        } }
    {
        World {
            stations,
            front,
            last: 0,
        }
    }

    /// Returns the stations of the world.
    pub fn into_stations(self) -> Box<Stations>
        ensures net { result.value.model.value ≡ self.net }
        ensures clones { result.value.lists.clones ≡ self.clones }
        ensures stands { WorldStands self.net self.clones result.value.ends self.front result.value.procs.items }
    {
        let World {
            stations,
            front: _,
            last: _,
        } = self;
        stations
    }

    /// Whether the last window was large, so that a crew pays off for the next one. It is a hint.
    pub fn wants_crew(&self) -> bool {
        self.last >= LARGE_STEP
    }

    /// The time that all clones have reached.
    pub fn front(&self) -> u64
        ensures value { result ≡ self.now.front }
        ensures within { result ≤ self.now.net.horizon }
    {
        self.front
    }

    /// The model.
    pub fn model(&self) -> &Model
        ensures value { result.now ≡ self.now.net }
    {
        &self.stations.model
    }

    /// The clones with their decisions and ends.
    pub fn lists(&self) -> &Lists
        ensures clones { result.now.clones ≡ self.now.clones }
        // what is proved of the clones of a world
        ensures at_most { length self.now.clones ≤ MAX_CLONES }
        ensures in_net { AreInNet self.now.net self.now.clones }
        ensures length_max { NoneBeyond self.now.net self.now.clones self.now.front }
    {
        self.stations.lists.lists()
    }

    /// Handles the messages before the bound at each station separately, by any stepper. Then gives each station what
    /// the others sent to it.
    ///
    /// # Errors
    ///
    /// The world is dropped if out of memory, or if a log would get longer than the limit.
    pub fn advance<E: Stepper, L: Ledger>(
        self,
        alloc: Global,
        stepper: &mut E,
        bound: u64,
        steps: &mut Steps<L>,
    ) -> Result<World, WorldFault>
        requires above { self.front < bound }
        requires within { bound ≤ next_front self.net self.clones self.front }
        // the result: the same world at the bound
        ensures value { IfOk result (λ w. w ≡ record self { front = bound }) }
        // the steps: the messages that the stations handle, each once for all clones of a copy
        ensures steps { IfOk result (λ w. steps.new + total_handled self.net self.clones self.front
            ≡ steps.old + total_handled self.net self.clones bound) }
        // no log is beyond the limit, or the fault names the first that is
        ensures length_max { IfOk result (λ w. NoneBeyond self.net self.clones bound) }
        ensures fault { IfErr result (λ e. IsFault self.net self.clones self.front bound steps.old steps.new e) }
    {
        let World {
            mut stations,
            front: _,
            last: _,
        } = self;
        let parts = &mut *stations;
        parts.buffers.bound_all(parts.procs.len(), bound)?;
        match parts.advance(alloc, stepper, steps) {
            Ok(handled) => Ok(World {
                stations,
                front: bound,
                last: handled,
            }),
            Err(fault) => Err(fault),
        }
    }

    /// The same in the caller's thread, which calls the gate before each station.
    ///
    /// # Errors
    ///
    /// The world is dropped if out of memory, or if a log would get longer than the limit.
    pub fn window_in_place<G: Gate, L: Ledger>(
        self,
        alloc: Global,
        gate: &G,
        bound: u64,
        steps: &mut Steps<L>,
    ) -> Result<World, WorldFault>
        requires above { self.front < bound }
        requires within { bound ≤ next_front self.net self.clones self.front }
        // the result: the same world at the bound
        ensures value { IfOk result (λ w. w ≡ record self { front = bound }) }
        // the steps: the messages that the stations handle, each once for all clones of a copy
        ensures steps { IfOk result (λ w. steps.new + total_handled self.net self.clones self.front
            ≡ steps.old + total_handled self.net self.clones bound) }
        // no log is beyond the limit, or the fault names the first that is
        ensures length_max { IfOk result (λ w. NoneBeyond self.net self.clones bound) }
        ensures fault { IfErr result (λ e. IsFault self.net self.clones self.front bound steps.old steps.new e) }
    {
        self.advance(alloc, &mut Alone::new(gate), bound, steps)
    }

    /// Handles the messages before the bound at each station separately. Then delivers to each station what the others
    /// sent to it. If the last window was large, the crew does it: each station is a task, even if nothing is due
    /// there. Otherwise the caller's thread steps the stations in place. The gate is called before each station.
    ///
    /// # Errors
    ///
    /// The world is dropped if out of memory, or if a log would get longer than the limit.
    pub fn window<G: Gate, L: Ledger, R: Wait>(
        self,
        rt: &R,
        alloc: Global,
        crew: &mut Crew<'_, Window, G>,
        bound: u64,
        steps: &mut Steps<L>,
    ) -> Result<World, WorldFault>
        requires above { self.front < bound }
        requires within { bound ≤ next_front self.net self.clones self.front }
        // the result: the same world at the bound
        ensures value { IfOk result (λ w. w ≡ record self { front = bound }) }
        // the steps: the messages that the stations handle, each once for all clones of a copy
        ensures steps { IfOk result (λ w. steps.new + total_handled self.net self.clones self.front
            ≡ steps.old + total_handled self.net self.clones bound) }
        // no log is beyond the limit, or the fault names the first that is
        ensures length_max { IfOk result (λ w. NoneBeyond self.net self.clones bound) }
        ensures fault { IfErr result (λ e. IsFault self.net self.clones self.front bound steps.old steps.new e) }
    {
        if crew.is_single() || !self.wants_crew() {
            return self.window_in_place(alloc, crew.gate(), bound, steps);
        }
        let gate = crew.gate();
        let mut stepper = WithCrew::new(rt, mem::replace(crew, Crew::single(gate)));
        let window = self.advance(alloc, &mut stepper, bound, steps);
        *crew = stepper.into_crew();
        window
    }
}
