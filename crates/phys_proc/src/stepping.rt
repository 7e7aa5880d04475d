//! Advances all physical processes of a station to a window boundary.
ghost use Rattle.std.specs.Prelude.{◌≡◌, ◌+◌, ◌++◌, OnOk};
ghost use Rattle.std.specs.List.{AllZip};
ghost use Rattle.phys_proc.specs.Own.{IsStepResult, IsLowerBound};
ghost use Rattle.phys_proc.specs.StepGoals.{ends_for};
ghost use Rattle.phys_proc.specs.StepOutputs.{MayStepCopies, IsNewOutput};

use crate::advancing::{StepOutput, Stop, bring_to_bound, handle_together};
use crate::copies::{Copies, lower_bound_of};
use crate::copy::PhysCopy;
use crate::step_goal::StepGoal;
use arrayvec::ArrayVec;
use sim_base::{Msg, NoMemory, Steps};
use stations::MAX_SENDS;
use std::alloc::Global;
use std::mem;
use std::sync::ledger::Ledger;

// Steps the copies in place. Copies whose clones part are taken out, and the resulting copies are put with the finished
// ones. A copy is only read if its time in `bounds` is before the bound.
fn step_copies_in_place<L: Ledger>(
    alloc: Global,
    copies: &mut Vec<PhysCopy>,
    bounds: &mut Vec<u64>,
    goal: &StepGoal<'_>,
    out: &mut ArrayVec<Msg, MAX_SENDS>,
    stage: &mut StepOutput,
    steps: &mut Steps<L>,
) -> Result<(), NoMemory>
    requires may_step { MayStepCopies goal.now.model.now goal.now.station goal.now.bound copies.old.items }
    requires each { AllZip IsLowerBound bounds.old.items copies.old.items }
    requires new { IsNewOutput stage.old }
    // result: the copies at the bound, in place or finished, their sends, and the clones over the limit
    ensures stepped { OnOk result (IsStepResult goal.now.model.now goal.now.station (ends_for goal.now) goal.now.bound
        copies.old.items (copies.new.items ++ stage.new.done) stage.new.sent stage.new.over steps.old steps.new) }
    // lower bounds of the pending times of each copy in place
    ensures each { OnOk result (AllZip IsLowerBound bounds.new.items copies.new.items) }
    // counts: the messages handled
    ensures handled { OnOk result (stage.new.handled + steps.old ≡ steps.new) }
{
    let mut i = 0;
    while i < copies.len() {
        let first = bounds[i];
        if goal.bound <= first {
            i += 1;
            continue;
        }
        let stop = handle_together(&mut copies[i], goal, out, stage, steps)?;
        match stop {
            Stop::Settled => {
                let now = lower_bound_of(&copies[i]);
                bounds[i] = now;
                i += 1;
            }
            _ => {
                let copy = copies.remove(i);
                let _ = bounds.remove(i);
                bring_to_bound(alloc, copy, stop, goal, out, stage, steps)?;
            }
        }
    }
    Ok(())
}

/// Steps all copies of a station to the bound, each in place. If out of memory, they are lost. `out` is a buffer for
/// the sends of one message.
#[inline(always)]
pub(crate) fn step_copies<L: Ledger>(
    alloc: Global,
    copies: &mut Copies,
    goal: &StepGoal<'_>,
    out: &mut ArrayVec<Msg, MAX_SENDS>,
    stage: &mut StepOutput,
    steps: &mut Steps<L>,
) -> Result<(), NoMemory>
    requires may_step { MayStepCopies goal.now.model.now goal.now.station goal.now.bound copies.old }
    requires new { IsNewOutput stage.old }
    ensures stepped { OnOk result (IsStepResult goal.now.model.now goal.now.station (ends_for goal.now) goal.now.bound
        copies.old copies.new stage.new.sent stage.new.over steps.old steps.new) }
    ensures handled { OnOk result (stage.new.handled + steps.old ≡ steps.new) }
{
    let stepped = step_copies_in_place(
        alloc,
        &mut copies.copies,
        &mut copies.bounds,
        goal,
        out,
        stage,
        steps,
    );
    if let Err(error) = stepped {
        copies.copies.clear();
        copies.bounds.clear();
        return Err(error);
    }
    if !stage.done.is_empty() {
        copies.append(alloc, mem::replace(&mut stage.done, Copies::none(alloc)))?;
    }
    Ok(())
}
