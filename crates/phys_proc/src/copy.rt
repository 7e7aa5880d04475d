//! A physical process: one copy of a station, which represents the virtual processes of several clones.
ghost use Rattle.std.specs.Prelude.{◌≡◌, ◌≤◌, IfOk, IfSome, IfNone};
ghost use Rattle.clone_sets.specs.Sets.{minus};
ghost use Rattle.sim_base.specs.declared.message.Msg.{Msg as Msg'};
ghost use Rattle.sim_base.specs.Order.{msg_cmp};
ghost use Rattle.sim_base.specs.Marked.{SortedMarked};
ghost use Rattle.phys_proc.specs.Own.{NextDue, NothingDue, half};
ghost use Rattle.phys_proc.specs.Ends.{ends_in};
ghost use Rattle.copy_pending.specs.Merged.{IsPart};

use crate::clone_ends::CloneEnds;
use clone_sets::CloneSet;
use copy_pending::CopyPending;
use log_chain::Log;
use sim_base::NoMemory;
use stations::State;
use std::alloc::Global;

/// Physical process: the common state and log of a set of clones, and their pending messages.
#[derive(Drop)]
pub struct PhysCopy {
    pub(crate) state: State,
    pub(crate) log: Log,
    // with the set of clones
    pub(crate) pending: CopyPending,
}

impl std::marker::Model for PhysCopy {
    ghost use Rattle.phys_proc.specs.Own.{StationCopy};
    ghost use Rattle.copy_pending.specs.Merged.{messages_of};

    ghost Value = { StationCopy };

    ghost view = { λ p. record {
      set = p.pending.set;
      state = p.state;
      log = p.log;
      pending = messages_of p.pending;
    } };
}

// The clones that take the next message: the least one before the bound that some clone of the copy takes. Messages
// that none takes are skipped. The message is not removed: only its time and its marks are read.
#[inline(never)]
pub(crate) fn next_due(
    copy: &mut PhysCopy,
    ends: &CloneEnds,
    bound: u64,
    horizon: u64,
) -> Option<CloneSet>
    requires time_max { bound ≤ horizon }
    requires sorted { SortedMarked msg_cmp copy.old.pending }
    ensures some { IfSome result (λ k. (m : Msg') × NextDue (ends_in horizon ends.now) bound copy.old copy.new m k) }
    ensures none { IfNone result (NothingDue (ends_in horizon ends.now) bound copy.old copy.new) }
{
    while let Some(time) = copy.pending.least_time() {
        if time >= bound {
            return None;
        }
        let Some(marks) = copy.pending.least_marks() else {
            unreachable!()
        };
        let takers = copy
            .pending
            .set()
            .meet(marks)
            .minus(ends.ended_clones(time));
        if !takers.is_empty() {
            return Some(takers);
        }
        let _passed = copy.pending.take_message();
    }
    None
}

impl PhysCopy {
    /// The clones that it represents.
    pub fn set(&self) -> CloneSet
        ensures value { result ≡ self.now.set }
    {
        self.pending.set()
    }

    /// The log of its station.
    pub fn log(&self) -> &Log
        ensures value { result.now ≡ self.now.log }
    {
        &self.log
    }

    /// The copy for some of its clones, and the copy for the others, which keeps the heap of pending messages.
    pub(crate) fn halves(
        self,
        alloc: Global,
        some: CloneSet,
    ) -> Result<(PhysCopy, PhysCopy), NoMemory>
        requires some { IsPart some self.set }
        requires others { IsPart (minus self.set some) self.set }
        ensures first { IfOk result (λ p. p.0 ≡ half self some) }
        ensures second { IfOk result (λ p. p.1 ≡ half self (minus self.set some)) }
    {
        let PhysCopy {
            state,
            mut log,
            pending,
        } = self;
        let others = pending.set().minus(some);
        let first = PhysCopy {
            state: state.copy(alloc)?,
            log: log.share(alloc)?,
            pending: pending.cut(alloc, some)?,
        };
        let second = PhysCopy {
            state,
            log,
            pending: pending.keep(alloc, others)?,
        };
        Ok((first, second))
    }
}
