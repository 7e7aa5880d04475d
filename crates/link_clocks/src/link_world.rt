//! The world of all clones, each station at the clock of its inbound links.
ghost use Rattle.std.specs.Prelude.{◌≡◌, ◌+◌, ◌∷◌, [], ◌↔◌, suc, IfOk, IfErr, IsTrue, OnOk};
ghost use Rattle.sim_base.specs.Clones.{base};
ghost use Rattle.net_model.specs.Net.{HasStation};
ghost use Rattle.net_model.specs.Rules.{IsNet};
ghost use Rattle.world_core.specs.Taking.{AreAccepted, clones_after_calls};
ghost use Rattle.link_clocks.specs.NetClocks.{clock, AreAllDone};
ghost use Rattle.link_clocks.specs.LinkWorlds.{IsRoundFault, NoneBeyondAfter, total_after};

use crate::clocks::{Clocks, are_all};
use crew_pool::{Crew, Gate};
use decision_book::Call;
use net_model::Model;
use sim_base::{NoMemory, Steps};
use station_steps::{Alone, Buffers, Stepper, Window, WithCrew};
use std::alloc::Global;
use std::mem;
use std::sync::ledger::Ledger;
use std::sync::{Arc, Wait};
use world_core::{Stations, World, WorldFault};

/// All clones, each station at its own clock: the copies of every station represent them there.
#[derive(Drop)]
pub struct LinkWorld {
    stations: Box<Stations>,
    clocks: Clocks,
}

impl std::marker::Model for LinkWorld {
    ghost use Rattle.link_clocks.specs.LinkWorlds.{LinkView, LinkStands};

    ghost Value = { LinkView };

    ghost view = { λ w. record {
      net = w.stations.value.model.value;
      clones = w.stations.value.lists.clones;
      rounds = w.clocks.rounds;
    } };

    ghost invariant = { λ w. LinkStands w.stations.value.model.value w.stations.value.lists.clones
        w.stations.value.ends w.clocks.rounds w.clocks.now.items w.clocks.next.items w.stations.value.procs.items };
}

// Sets the bound of each station to its time in the list.
fn bound_by(buffers: &mut Buffers, times: &[u64]) -> Result<(), NoMemory>
    ensures same { OnOk result (buffers.new.bounds.items ≡ times.now) }
{
    buffers.bounds.clear();
    buffers.bounds.extend_from_slice(times)?;
    Ok(())
}

impl LinkWorld {
    /// Puts the clones of a world at front 0 into rounds, each station at clock 0.
    ///
    /// # Errors
    ///
    /// Out of memory: the world is dropped.
    pub fn of(alloc: Global, world: World) -> Result<LinkWorld, NoMemory>
        requires first { world.front ≡ 0 }
        ensures begins { IfOk result (λ w. w ≡ record { net = world.net; clones = world.clones; rounds = 0 }) }
    {
        let stations = world.into_stations();
        let clocks = Clocks::new(alloc, &stations.model)?;
        Ok(LinkWorld { stations, clocks })
    }

    /// The clones that the calls create, each station at clock 0. The calls were accepted at front 0.
    ///
    /// # Errors
    ///
    /// Out of memory.
    pub fn new(alloc: Global, model: Arc<Model>, calls: &[Call]) -> Result<LinkWorld, NoMemory>
        requires accepted { AreAccepted model.value (base ∷ []) 0 calls.now }
        ensures begins { IfOk result (λ w. w ≡ record {
          net = model.value;
          clones = clones_after_calls model.value (base ∷ []) calls.now;
          rounds = 0;
        }) }
    {
        let world = World::new(alloc, model)?;
        let world = world.take(alloc, calls)?;
        let linked = LinkWorld::of(alloc, world)?;
        Ok(linked)
    }

    /// The number of finished rounds.
    pub fn rounds(&self) -> u64
        ensures value { result ≡ self.now.rounds }
    {
        self.clocks.rounds
    }

    /// The clock of a station, by its number from 1. It allocates nothing.
    pub fn clock(&self, station: u32) -> u64
        requires is_station { HasStation self.now.net station }
        ensures value { result ≡ clock self.now.net self.now.rounds station }
    {
        self.clocks.now[station as usize - 1]
    }

    /// Whether the clocks of all stations are at the horizon. It allocates nothing.
    pub fn is_done(&self) -> bool
        ensures value { IsTrue result ↔ AreAllDone self.now.net self.now.rounds }
        ensures valid { IsNet self.now.net }
    {
        are_all(self.clocks.now.as_slice(), self.stations.model.horizon())
    }

    /// Whether two or more stations have something due in the next round, so that a crew pays off for it. It is a hint.
    pub fn wants_crew(&self) -> bool {
        let mut one_is_busy = false;
        for i in 0..self.stations.procs.len() {
            if !self.stations.procs[i].is_idle(self.clocks.next[i]) {
                if one_is_busy {
                    return true;
                }
                one_is_busy = true;
            }
        }
        false
    }

    /// Handles the messages before its next clock at each station, separately, by any stepper. Then gives each station
    /// what the others sent to it.
    ///
    /// # Errors
    ///
    /// The world is dropped if out of memory, or if a log would get longer than the limit.
    pub fn advance<E: Stepper, L: Ledger>(
        self,
        alloc: Global,
        stepper: &mut E,
        steps: &mut Steps<L>,
    ) -> Result<LinkWorld, WorldFault>
        requires going { ¬ (AreAllDone self.net self.rounds) }
        // the result: the same world after one more round
        ensures value { IfOk result (λ w. w ≡ record self { rounds = suc self.rounds }) }
        // the steps: the messages that the stations handle, each once for all clones of a copy
        ensures steps { IfOk result (λ w. steps.new + total_after self.net self.clones self.rounds
            ≡ steps.old + total_after self.net self.clones (suc self.rounds)) }
        // no log is beyond the limit, or the fault names the first that is
        ensures length_max { IfOk result (λ w. NoneBeyondAfter self.net self.clones (suc self.rounds)) }
        ensures fault { IfErr result (λ e. IsRoundFault self.net self.clones self.rounds steps.old steps.new e) }
    {
        let LinkWorld {
            mut stations,
            clocks,
        } = self;
        let parts = &mut *stations;
        bound_by(&mut parts.buffers, clocks.next.as_slice())?;
        match parts.advance(alloc, stepper, steps) {
            Ok(_) => {
                let clocks = clocks.after_round(&parts.model);
                Ok(LinkWorld { stations, clocks })
            }
            Err(fault) => Err(fault),
        }
    }

    /// The same in the caller's thread, which calls the gate before each station.
    ///
    /// # Errors
    ///
    /// The world is dropped if out of memory, or if a log would get longer than the limit.
    pub fn round_in_place<G: Gate, L: Ledger>(
        self,
        alloc: Global,
        gate: &G,
        steps: &mut Steps<L>,
    ) -> Result<LinkWorld, WorldFault>
        requires going { ¬ (AreAllDone self.net self.rounds) }
        // the result: the same world after one more round
        ensures value { IfOk result (λ w. w ≡ record self { rounds = suc self.rounds }) }
        // the steps: the messages that the stations handle, each once for all clones of a copy
        ensures steps { IfOk result (λ w. steps.new + total_after self.net self.clones self.rounds
            ≡ steps.old + total_after self.net self.clones (suc self.rounds)) }
        // no log is beyond the limit, or the fault names the first that is
        ensures length_max { IfOk result (λ w. NoneBeyondAfter self.net self.clones (suc self.rounds)) }
        ensures fault { IfErr result (λ e. IsRoundFault self.net self.clones self.rounds steps.old steps.new e) }
    {
        self.advance(alloc, &mut Alone::new(gate), steps)
    }

    /// Handles the messages before its next clock at each station, separately. Then delivers to each station what the
    /// others sent to it. If two or more stations have something due, the crew does it: each station is a task, even if
    /// nothing is due there. Otherwise the caller's thread steps the stations in place. The gate is called before each
    /// station.
    ///
    /// # Errors
    ///
    /// The world is dropped if out of memory, or if a log would get longer than the limit.
    pub fn round<G: Gate, L: Ledger, R: Wait>(
        self,
        rt: &R,
        alloc: Global,
        crew: &mut Crew<'_, Window, G>,
        steps: &mut Steps<L>,
    ) -> Result<LinkWorld, WorldFault>
        requires going { ¬ (AreAllDone self.net self.rounds) }
        // the result: the same world after one more round
        ensures value { IfOk result (λ w. w ≡ record self { rounds = suc self.rounds }) }
        // the steps: the messages that the stations handle, each once for all clones of a copy
        ensures steps { IfOk result (λ w. steps.new + total_after self.net self.clones self.rounds
            ≡ steps.old + total_after self.net self.clones (suc self.rounds)) }
        // no log is beyond the limit, or the fault names the first that is
        ensures length_max { IfOk result (λ w. NoneBeyondAfter self.net self.clones (suc self.rounds)) }
        ensures fault { IfErr result (λ e. IsRoundFault self.net self.clones self.rounds steps.old steps.new e) }
    {
        if crew.is_single() || !self.wants_crew() {
            return self.round_in_place(alloc, crew.gate(), steps);
        }
        let gate = crew.gate();
        let mut stepper = WithCrew::new(rt, mem::replace(crew, Crew::single(gate)));
        let round = self.advance(alloc, &mut stepper, steps);
        *crew = stepper.into_crew();
        round
    }

    /// The world at the horizon.
    pub fn into_world(self) -> World
        requires done { AreAllDone self.net self.rounds }
        ensures value { result ≡ record { net = self.net; clones = self.clones; front = self.net.horizon } }
    {
        let LinkWorld {
            stations,
            clocks: _,
        } = self;
        let front = stations.model.horizon();
        World::of_stations(stations, front)
    }
}
