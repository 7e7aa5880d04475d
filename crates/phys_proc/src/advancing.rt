//! Advances one physical process (copy) to a window boundary.
ghost use Rattle.std.specs.Prelude.{◌≡◌, [], ◌+◌, length, OnOk, IfOk, IfSome, IfNone};
ghost use Rattle.clone_sets.specs.Sets.{empty};
ghost use Rattle.phys_proc.specs.Own.{MayAdvance, IsAdvance, ComesFrom};
ghost use Rattle.phys_proc.specs.Stops.{IsStop};
ghost use Rattle.phys_proc.specs.StepGoals.{ends_for};

use crate::copies::{Copies, lower_bound_of};
use crate::copy::{PhysCopy, next_due};
use crate::event::handle_least;
use crate::quick::handle_packed;
use crate::sent::SentMessages;
use crate::step_goal::StepGoal;
use arrayvec::ArrayVec;
use clone_sets::CloneSet;
use sim_base::{Msg, NoMemory, Steps};
use stations::MAX_SENDS;
use std::alloc::Global;
use std::sync::ledger::Ledger;

/// The progress of a step: the copies at the bound, their sends to other stations, and the clones whose logs would get
/// too long.
#[derive(Drop)]
pub(crate) struct StepOutput {
    /// The copies that have reached the bound.
    pub done: Copies,
    /// The messages to other stations so far, each with the clones that send it.
    pub sent: SentMessages,
    /// The clones whose logs would get longer than the limit.
    pub over: CloneSet,
    /// The number of messages handled.
    pub handled: u64,
    /// If the clones of a copy part, those that take its next message.
    pub takers: CloneSet,
}

impl StepOutput {
    /// A stage with nothing handled and nothing sent. It allocates nothing.
    pub fn new(alloc: Global) -> StepOutput
        ensures done { result.done ≡ [] }
        ensures sent { result.sent ≡ [] }
        ensures over { result.over ≡ empty }
        ensures handled { result.handled ≡ 0 }
    {
        StepOutput {
            done: Copies::none(alloc),
            sent: SentMessages::new(alloc),
            over: CloneSet::empty(),
            handled: 0,
            takers: CloneSet::empty(),
        }
    }

    /// Begins again with nothing handled and nothing sent.
    #[inline(always)]
    pub fn restart(&mut self, alloc: Global)
        ensures done { self.new.done ≡ [] }
        ensures sent { self.new.sent ≡ [] }
        ensures over { self.new.over ≡ empty }
        ensures handled { self.new.handled ≡ 0 }
    {
        if !self.done.is_empty() {
            self.done = Copies::none(alloc);
        }
        self.sent.clear();
        self.over = CloneSet::empty();
        self.handled = 0;
    }
}

/// Why a copy stops.
#[derive(Clone, Copy, Debug, PartialEq, Eq)]
pub(crate) enum Stop {
    /// Nothing is due before the bound.
    Settled,
    /// The logs of its clones would get longer than the limit.
    Full,
    /// Only some of its clones take the next message. The stage has these clones, since a large result would be moved
    /// for each copy.
    Parts,
}

/// Handles in place the messages that all clones of a copy take before the bound, and returns why it stops. `out` is a
/// buffer for the sends of one message.
pub(crate) fn handle_together<L: Ledger>(
    copy: &mut PhysCopy,
    goal: &StepGoal<'_>,
    out: &mut ArrayVec<Msg, MAX_SENDS>,
    stage: &mut StepOutput,
    steps: &mut Steps<L>,
) -> Result<Stop, NoMemory>
    requires may_advance { MayAdvance goal.now.model.now goal.now.station goal.now.bound stage.old.handled copy.old }
    // result: the advanced copy, its sends, and a step for each message
    ensures onward { OnOk result (ComesFrom goal.now.model.now goal.now.station (ends_for goal.now) goal.now.bound
        copy.old copy.new stage.old.sent stage.new.sent steps.old steps.new) }
    // the reason to stop: nothing is due, the limit is reached, or its clones part
    ensures stop { IfOk result (λ stop. IsStop goal.now.model.now.limit (ends_for goal.now) goal.now.bound copy.new
        stage.new.takers stop) }
    // invariant of the stage: the finished copies, and the clones over the limit; messages are counted
    ensures done { OnOk result (stage.new.done ≡ stage.old.done) }
    ensures over { OnOk result (stage.new.over ≡ stage.old.over) }
    ensures handled { OnOk result (stage.new.handled + steps.old ≡ stage.old.handled + steps.new) }
{
    loop {
        let count = handle_packed(copy, goal, &mut stage.sent, steps)?;
        stage.handled += count;
        if lower_bound_of(copy) >= goal.bound {
            return Ok(Stop::Settled);
        }
        if let Some(stop) = handle_next(copy, goal, out, stage, steps)? {
            return Ok(stop);
        }
    }
}

// Handles the next message if all clones take it. Otherwise returns why the copy stops.
#[inline(never)]
fn handle_next<L: Ledger>(
    copy: &mut PhysCopy,
    goal: &StepGoal<'_>,
    out: &mut ArrayVec<Msg, MAX_SENDS>,
    stage: &mut StepOutput,
    steps: &mut Steps<L>,
) -> Result<Option<Stop>, NoMemory>
    requires may_advance { MayAdvance goal.now.model.now goal.now.station goal.now.bound stage.old.handled copy.old }
    ensures onward { OnOk result (ComesFrom goal.now.model.now goal.now.station (ends_for goal.now) goal.now.bound
        copy.old copy.new stage.old.sent stage.new.sent steps.old steps.new) }
    ensures stop { IfOk result (λ o. IfSome o (λ stop. IsStop goal.now.model.now.limit (ends_for goal.now)
        goal.now.bound copy.new stage.new.takers stop)) }
    ensures more { IfOk result (λ o. IfNone o (length copy.new.log ≡ length copy.old.log + 1)) }
    ensures done { OnOk result (stage.new.done ≡ stage.old.done) }
    ensures over { OnOk result (stage.new.over ≡ stage.old.over) }
    ensures handled { OnOk result (stage.new.handled + steps.old ≡ stage.old.handled + steps.new) }
{
    let Some(takers) = next_due(copy, goal.ends, goal.bound, goal.model.horizon()) else {
        return Ok(Some(Stop::Settled));
    };
    if takers == copy.set() {
        if copy.log().len() >= goal.model.limit() {
            return Ok(Some(Stop::Full));
        }
        stage.handled += 1;
        handle_least(copy, goal.model, goal.station, out, &mut stage.sent, steps)?;
        Ok(None)
    } else {
        stage.takers = takers;
        Ok(Some(Stop::Parts))
    }
}

/// Brings a stopped copy to the bound: if its clones part it becomes several copies, or they go over the limit.
pub(crate) fn bring_to_bound<L: Ledger>(
    alloc: Global,
    copy: PhysCopy,
    stop: Stop,
    goal: &StepGoal<'_>,
    out: &mut ArrayVec<Msg, MAX_SENDS>,
    stage: &mut StepOutput,
    steps: &mut Steps<L>,
) -> Result<(), NoMemory>
    requires may_advance { MayAdvance goal.now.model.now goal.now.station goal.now.bound stage.old.handled copy }
    requires stop { IsStop goal.now.model.now.limit (ends_for goal.now) goal.now.bound copy stage.old.takers stop }
    ensures comes { OnOk result (IsAdvance goal.now.model.now goal.now.station (ends_for goal.now) goal.now.bound copy
        stage.old.done stage.new.done stage.old.sent stage.new.sent stage.old.over stage.new.over
        steps.old steps.new) }
    ensures handled { OnOk result (stage.new.handled + steps.old ≡ stage.old.handled + steps.new) }
{
    match stop {
        Stop::Settled => {
            let lower_bound = lower_bound_of(&copy);
            stage.done.put(copy, lower_bound)?;
        }
        Stop::Full => {
            stage.over = stage.over.union(copy.set());
        }
        Stop::Parts => {
            let (mut some, mut others) = copy.halves(alloc, stage.takers)?;
            let first = handle_together(&mut some, goal, out, stage, steps)?;
            bring_to_bound(alloc, some, first, goal, out, stage, steps)?;
            let second = handle_together(&mut others, goal, out, stage, steps)?;
            bring_to_bound(alloc, others, second, goal, out, stage, steps)?;
        }
    }
    Ok(())
}
