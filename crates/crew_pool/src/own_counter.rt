//! Steps of tasks that run in several threads. One counter cannot be lent to all of them, so each task has a counter of
//! its own. The caller's counter is ticked by the cost of the answers.
ghost use Rattle.std.specs.Prelude.{◌≡◌, ◌+◌, ◌<◌, sum_by, IfOk};

use crate::work::Work;
use sim_base::{NoMemory, Steps};
use std::alloc::Global;
use std::sync::ledger::{Blank, Ledger};

/// Runs one task on a counter of its own, whose count is dropped.
pub fn run_with_own_counter<W: Work, L: Ledger>(
    alloc: Global,
    work: &W,
    i: u32,
    item: W::In,
    blank: Blank,
) -> Result<W::Out, NoMemory>
    requires ready { W.ready work.now i item }
    requires name { blank.name ≡ L.name }
    requires parts { blank.parts ≡ L.parts }
    requires nonempty { 0 < L.parts }
    ensures answer { IfOk result (λ out. W.answers work.now i item out) }
{
    let mut steps = Steps::<L>::new(blank);
    work.run(alloc, i, item, &mut steps)
}

/// Ticks the counter once for each step that the answers took.
pub fn tick_costs<W: Work, L: Ledger>(work: &W, outs: &[W::Out], steps: &mut Steps<L>)
    ensures value { steps.new ≡ steps.old + sum_by W.cost outs.now }
{
    for out in outs {
        tick_many(work.spent(out), steps);
    }
}

/// Ticks the counter `many` times.
fn tick_many<L: Ledger>(many: u64, steps: &mut Steps<L>)
    ensures value { steps.new ≡ steps.old + many }
{
    for _i in 0..many {
        steps.tick();
    }
}
