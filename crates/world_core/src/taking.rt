//! Applies decisions to a world at its front (window boundary): forks, sets and ends.
ghost use Rattle.std.specs.Prelude.{◌≡◌, ◌<◌, ◌≤◌, None, length, IfOk, OnOk, Some};
ghost use Rattle.sim_base.specs.Clones.{clone_at, place_of, clones_with_fork, clones_with_plan, clones_with_end};
ghost use Rattle.sim_base.specs.declared.lists.TheConstants.{MAX_CLONES};
ghost use Rattle.net_model.specs.Net.{HasStation};
ghost use Rattle.decision_book.specs.Journal.{clones_after};
ghost use Rattle.world_core.specs.Taking.{IsAccepted, AreAccepted, clones_after_calls};
ghost use Rattle.station_steps.specs.Forking.{AllForked, LivesAtAll, LivesNowhere};

use crate::world::World;
use clone_sets::CloneSet;
use decision_book::Call;
use sim_base::{Decision, Name, NoMemory, Planned};
use station_steps::{StationSlot, deliver_to};
use stations::decision::set_message;
use std::alloc::Global;

// The new clone joins the old one in its copy at each station.
fn fork_all(procs: &mut Vec<StationSlot>, old: u32, new: u32) -> Result<(), NoMemory>
    requires old { LivesAtAll old procs.old.items }
    requires new { LivesNowhere new procs.old.items }
    requires below { new < MAX_CLONES }
    ensures forked { OnOk result (AllForked old new procs.old.items procs.new.items) }
{
    for i in 0..procs.len() {
        procs[i].fork(old, new)?;
    }
    Ok(())
}

impl World {
    /// Applies calls that were accepted for these clones at this front, one after the other.
    ///
    /// Out of memory: the world is dropped.
    pub fn take(self, alloc: Global, fresh: &[Call]) -> Result<World, NoMemory>
        requires accepted { AreAccepted self.net self.clones self.front fresh.now }
        ensures value { IfOk result (λ w.
            w ≡ record self { clones = clones_after_calls self.net self.clones fresh.now }) }
    {
        let mut world = self;
        for call in fresh {
            world = world.with_decision(alloc, &call.decision)?;
        }
        Ok(world)
    }

    // Applies one accepted decision.
    fn with_decision(self, alloc: Global, decision: &Decision) -> Result<World, NoMemory>
        requires accepted { IsAccepted self.net self.clones self.front decision.now }
        ensures value { IfOk result (λ w. w ≡ record self { clones = clones_after self.net self.clones decision.now }) }
    {
        let Some(clone) = self.stations.lists.lists().find(&decision.subject()) else {
            unreachable!()
        };
        match *decision {
            Decision::Fork { new, .. } => {
                let world = self.with_fork(alloc, new, clone)?;
                Ok(world)
            }
            Decision::Set {
                at,
                station,
                change,
                ..
            } => {
                let Some(station) = self.stations.model.find(&station) else {
                    unreachable!()
                };
                let world = self.with_set(
                    clone,
                    Planned {
                        at,
                        station,
                        change,
                    },
                )?;
                Ok(world)
            }
            Decision::End { at, .. } => {
                let world = self.with_end(alloc, clone, at)?;
                Ok(world)
            }
        }
    }

    /// Adds a new clone with the decisions of the old one. Neither has an end.
    ///
    /// # Errors
    ///
    /// Out of memory: the world is dropped.
    pub fn with_fork(self, alloc: Global, new: Name, old: u32) -> Result<World, NoMemory>
        requires in_range { old < length self.clones }
        requires open { (clone_at self.clones old).end ≡ None }
        requires unused { place_of new self.clones ≡ None }
        requires at_most { length self.clones < MAX_CLONES }
        // the same world with the new clone
        ensures value { IfOk result (λ w. w ≡ record self { clones = clones_with_fork self.clones new old }) }
    {
        let World {
            mut stations,
            front,
            last,
        } = self;
        let parts = &mut *stations;
        let number = parts.lists.lists().len();
        parts.lists.fork(alloc, new, old)?;
        fork_all(&mut parts.procs, old, number)?;
        Ok(World {
            stations,
            front,
            last,
        })
    }

    /// Adds a decision to the clone `who`. Its station gets the decision as a message.
    ///
    /// # Errors
    ///
    /// Out of memory: the world is dropped.
    pub fn with_set(self, who: u32, plan: Planned) -> Result<World, NoMemory>
        requires in_range { who < length self.clones }
        requires is_station { HasStation self.net plan.station }
        requires not_late { self.front ≤ plan.at }
        // the same world, in which this clone has the decision
        ensures value { IfOk result (λ w. w ≡ record self { clones = clones_with_plan self.clones who plan }) }
    {
        let World {
            mut stations,
            front,
            last,
        } = self;
        let parts = &mut *stations;
        let msg = set_message(parts.lists.lists().list(who).len(), plan);
        parts.lists.add(who, plan)?;
        deliver_to(&mut parts.procs, msg, CloneSet::one(who))?;
        Ok(World {
            stations,
            front,
            last,
        })
    }

    // Ends a clone: it takes nothing from that time on.
    fn with_end(self, alloc: Global, who: u32, at: u64) -> Result<World, NoMemory>
        requires in_range { who < length self.clones }
        requires open { (clone_at self.clones who).end ≡ None }
        requires not_late { self.front ≤ at }
        requires time_max { at ≤ self.net.horizon }
        // the same world, in which this clone has the end
        ensures value { IfOk result (λ w. w ≡ record self { clones = clones_with_end self.clones who at }) }
    {
        let World {
            mut stations,
            front,
            last,
        } = self;
        let parts = &mut *stations;
        parts.lists.end(who, at);
        parts.ends.end(alloc, who, at)?;
        Ok(World {
            stations,
            front,
            last,
        })
    }
}
