//! A crew as its caller holds it.
ghost use Rattle.std.specs.Prelude.{◌≡◌, IfOk};
ghost use Rattle.crew_pool.specs.Tasks.{MayRunAll, HaveRunAll};

use crate::bell::Bell;
use crate::gate::Gate;
use crate::idle::IdleCrew;
use crate::member::Member;
use crate::started::Started;
use crate::work::Work;
use crate::workers::Workers;
use sim_base::{NoMemory, Steps};
use std::alloc::Global;
use std::sync::ledger::Ledger;
use std::sync::{Arc, Wait};

/// The greatest number of tasks of a call.
pub const MAX_TASKS: usize = 64;

/// The caller's handle on a crew: workers that stay from call to call, one of them the caller. After a call was out of
/// memory the crew is spent, and each later call reports out of memory at once. Contracts see nothing of it.
#[derive(Drop)]
pub struct Crew<'g, W: Work, G: Gate> {
    /// The gate that each task passes.
    pub(crate) gate: &'g G,
    /// The crew between two calls, or `None` once it is spent.
    pub(crate) idle: Option<IdleCrew<W>>,
}

impl<'g, W: Work, G: Gate> std::marker::Model for Crew<'g, W, G> {
    ghost Value = { Unit {0} };

    ghost view = { λ _. tt };
}

impl<'g, W: Work + Send + Drop, G: Gate> Crew<'g, W, G> {
    /// A crew of this number of workers, together with its members: all workers except the caller.
    ///
    /// # Errors
    ///
    /// [`NoMemory`], if an allocation fails.
    pub fn begin(
        alloc: Global,
        gate: &'g G,
        workers: Workers,
    ) -> Result<(Crew<'g, W, G>, Vec<Member<'g, W, G>>), NoMemory> {
        let (idle, members) = IdleCrew::begin(alloc, gate, workers)?;
        let crew = Crew {
            gate,
            idle: Some(idle),
        };
        Ok((crew, members))
    }

    /// A crew without members, for work in the caller's thread. It allocates nothing. Its calls report out of memory.
    pub fn single(gate: &'g G) -> Crew<'g, W, G> {
        Crew { gate, idle: None }
    }

    /// The bell of this crew. The code that starts the members calls its `end`, since they wait for it.
    ///
    /// # Errors
    ///
    /// [`NoMemory`], if the bell cannot be shared, or there is none: the crew is spent, or was made by `single`.
    pub fn bell(&self) -> Result<Arc<Bell>, NoMemory> {
        match &self.idle {
            Some(idle) => idle.bell(),
            None => Err(NoMemory),
        }
    }

    /// The gate that each task passes.
    pub fn gate(&self) -> &'g G {
        self.gate
    }

    /// Whether the caller is the only worker, also because the crew is spent. A hint: contracts do not use it.
    pub fn is_single(&self) -> bool {
        match &self.idle {
            Some(idle) => idle.is_single(),
            None => true,
        }
    }

    /// Runs one task for each item, each task once and after the gate's `before`. Each answer is returned at its item's
    /// place, and the steps grow by what the answers cost. Small work runs in the caller's thread.
    ///
    /// # Errors
    ///
    /// [`NoMemory`]: the items are lost, the crew is spent, and nothing is said about the steps. Members may still run
    /// tasks of this call: those that they have begun, and others that they steal. They end with the bell.
    pub fn all<L: Ledger, R: Wait>(
        &mut self,
        rt: &R,
        alloc: Global,
        work: Arc<W>,
        items: Vec<W::In>,
        steps: &mut Steps<L>,
    ) -> Result<Vec<W::Out>, NoMemory>
        requires may_run { MayRunAll (W.ready work.value) items.items }
        // an answer for each item, at the item's place, and the steps that the answers took are counted
        ensures have_run { IfOk result (λ outs. HaveRunAll (W.answers work.value) W.cost items.items steps.old steps.new
            outs.items) }
    {
        let crew = Crew {
            gate: self.gate,
            idle: self.idle.take(),
        };
        let started = crew.start(alloc, work, items)?;
        let (crew, outs) = started.finish(rt, alloc, steps)?;
        self.idle = crew.idle;
        Ok(outs)
    }

    /// Starts a call: deals a task for each item, and wakes members that steal them. [`Started::finish`] ends the call.
    /// In between the caller is free.
    ///
    /// # Errors
    ///
    /// [`NoMemory`]: items and crew are lost. Members that were given a job may still run tasks of this call.
    pub fn start(
        self,
        alloc: Global,
        work: Arc<W>,
        items: Vec<W::In>,
    ) -> Result<Started<'g, W, G>, NoMemory>
        requires may_run { MayRunAll (W.ready work.value) items.items }
        ensures value { IfOk result (λ s. s ≡ record { work = work.value; items = items.items }) }
    {
        let Crew { gate, idle } = self;
        match idle {
            Some(idle) => idle.start(alloc, gate, work, items),
            None => Err(NoMemory),
        }
    }
}
