//! Steppers: strategies that step all stations (logical processes), each to its bound, and give each what the others
//! sent to it.
ghost use Rattle.std.specs.Prelude.{◌≡◌, IfOk};
ghost use Rattle.phys_proc.specs.Ends.{ends_in};
ghost use Rattle.station_steps.specs.Stepping.{AllSteppedAndGiven, IsPlaceOfOver};
ghost use Rattle.station_steps.specs.Windows.{AreBounds, AreStations, bound_of};

use crate::delivery::deliver_all;
use crate::shared_ends::SharedEnds;
use crate::station_slot::StationSlot;
use crate::stepping::{Buffers, WindowResult, step_by_crew, step_in_place};
use crate::windows::Window;
use crew_pool::{Crew, Gate};
use net_model::Model;
use sim_base::{NoMemory, Steps};
use std::alloc::Global;
use std::sync::ledger::Ledger;
use std::sync::{Arc, Wait};

/// A step that handles at least this number of messages is large: a crew pays off for the next one.
pub const LARGE_STEP: u64 = 2_000;

/// The strategy that steps all stations. It calls its gate before each station, in each step.
pub trait Stepper {
    /// Steps all stations in place, each to its bound. If no clone is over the limit, each station gets what the others
    /// sent to it, at once or at its next step. Otherwise the stations have no meaning.
    ///
    /// # Errors
    ///
    /// Out of memory: the stations have no meaning.
    fn step<L: Ledger>(
        &mut self,
        alloc: Global,
        model: &Arc<Model>,
        ends: &SharedEnds,
        procs: &mut Vec<StationSlot>,
        buffers: &mut Buffers,
        steps: &mut Steps<L>,
    ) -> Result<WindowResult, NoMemory>
        requires stations { AreStations model.now.value procs.old.items }
        requires bounds { AreBounds model.now.value procs.old.items buffers.old.bounds.items }
        ensures stepped { IfOk result (λ s. AllSteppedAndGiven model.now.value
            (ends_in model.now.value.horizon ends.now) (bound_of buffers.old.bounds.items) procs.old.items
            procs.new.items s.over steps.old steps.new) }
        ensures at_most { IfOk result (λ s. IsPlaceOfOver s.over) };

    /// Whether the last step was so large that a crew pays off for the next one. It is a hint.
    fn was_large(&self) -> bool;
}

// Steps all stations in place, and delivers at once.
fn step_and_deliver<G: Gate, L: Ledger>(
    alloc: Global,
    gate: &G,
    model: &Arc<Model>,
    ends: &SharedEnds,
    procs: &mut Vec<StationSlot>,
    buffers: &mut Buffers,
    steps: &mut Steps<L>,
) -> Result<WindowResult, NoMemory>
    requires stations { AreStations model.now.value procs.old.items }
    requires bounds { AreBounds model.now.value procs.old.items buffers.old.bounds.items }
    ensures stepped { IfOk result (λ s. AllSteppedAndGiven model.now.value (ends_in model.now.value.horizon ends.now)
        (bound_of buffers.old.bounds.items) procs.old.items procs.new.items s.over steps.old steps.new) }
    ensures at_most { IfOk result (λ s. IsPlaceOfOver s.over) }
{
    let stepped = step_in_place(alloc, gate, model, ends.ends(), procs, buffers, steps)?;
    if let Some(_) = stepped.over {
        return Ok(stepped);
    }
    deliver_all(procs, &buffers.sent)?;
    Ok(stepped)
}

/// Steps in the caller's thread. It waits for nobody, unless its gate does.
#[derive(Drop)]
pub struct Alone<'g, G: Gate> {
    gate: &'g G,
    last: u64,
}

impl<'g, G: Gate> Alone<'g, G> {
    /// Steps in the caller's thread, with this gate.
    pub fn new(gate: &'g G) -> Alone<'g, G> {
        Alone { gate, last: 0 }
    }
}

impl<'g, G: Gate> Stepper for Alone<'g, G> {
    fn step<L: Ledger>(
        &mut self,
        alloc: Global,
        model: &Arc<Model>,
        ends: &SharedEnds,
        procs: &mut Vec<StationSlot>,
        buffers: &mut Buffers,
        steps: &mut Steps<L>,
    ) -> Result<WindowResult, NoMemory> {
        let stepped = step_and_deliver(alloc, self.gate, model, ends, procs, buffers, steps)?;
        self.last = stepped.handled;
        Ok(stepped)
    }

    fn was_large(&self) -> bool {
        self.last >= LARGE_STEP
    }
}

/// Steps by a crew if the last step was large, and otherwise in the caller's thread. It may wait for members.
#[derive(Drop)]
pub struct WithCrew<'r, 'g, G: Gate, R: Wait> {
    rt: &'r R,
    gate: &'g G,
    crew: Crew<'g, Window, G>,
    last: u64,
}

impl<'r, 'g, G: Gate, R: Wait> WithCrew<'r, 'g, G, R> {
    /// Steps by this crew, with its gate. The first step is by the crew, too.
    pub fn new(rt: &'r R, crew: Crew<'g, Window, G>) -> WithCrew<'r, 'g, G, R> {
        WithCrew {
            rt,
            gate: crew.gate(),
            crew,
            last: LARGE_STEP,
        }
    }

    /// Returns the crew.
    pub fn into_crew(self) -> Crew<'g, Window, G> {
        let WithCrew {
            rt: _,
            gate: _,
            crew,
            last: _,
        } = self;
        crew
    }

    // By the crew if the last step was large: each station is a task, even if nothing is due there. Otherwise in place.
    fn step_all<L: Ledger>(
        &mut self,
        alloc: Global,
        model: &Arc<Model>,
        ends: &SharedEnds,
        procs: &mut Vec<StationSlot>,
        buffers: &mut Buffers,
        steps: &mut Steps<L>,
    ) -> Result<WindowResult, NoMemory>
        requires stations { AreStations model.now.value procs.old.items }
        requires bounds { AreBounds model.now.value procs.old.items buffers.old.bounds.items }
        ensures stepped { IfOk result (λ s. AllSteppedAndGiven model.now.value
            (ends_in model.now.value.horizon ends.now) (bound_of buffers.old.bounds.items) procs.old.items
            procs.new.items s.over steps.old steps.new) }
        ensures at_most { IfOk result (λ s. IsPlaceOfOver s.over) }
    {
        if self.crew.is_single() || self.last < LARGE_STEP {
            return step_and_deliver(alloc, self.gate, model, ends, procs, buffers, steps);
        }
        let work = Window::shared(alloc, model, ends)?;
        let stepped = step_by_crew(self.rt, alloc, &mut self.crew, work, procs, buffers, steps)?;
        Ok(stepped)
    }
}

impl<'r, 'g, G: Gate, R: Wait> Stepper for WithCrew<'r, 'g, G, R> {
    fn step<L: Ledger>(
        &mut self,
        alloc: Global,
        model: &Arc<Model>,
        ends: &SharedEnds,
        procs: &mut Vec<StationSlot>,
        buffers: &mut Buffers,
        steps: &mut Steps<L>,
    ) -> Result<WindowResult, NoMemory> {
        let stepped = self.step_all(alloc, model, ends, procs, buffers, steps)?;
        self.last = stepped.handled;
        Ok(stepped)
    }

    fn was_large(&self) -> bool {
        self.last >= LARGE_STEP
    }
}
