//! Tests of a clone that is simulated alone: the desk's log in a worked example, and the example resumed.
ghost use Rattle.std.specs.Prelude.{◌≡◌, ◌<◌};

mod resumed;
mod traces;

use net_model::read_model;
use resumed::resumed_runs;
use sample_models::ONE_DESK;
use sim_base::Steps;
use solo_run::Solo;
use std::alloc::Global;
use std::marker::Brand;
use std::sync::ledger::{Blank, Ledger};
use std::test::Fail;
use traces::one_desk_trace;

/// Whether the desk's log has its four entries of the trace.
fn desk_log_is<L: Ledger>(alloc: Global, steps: &mut Steps<L>) -> Option<bool> {
    let model = read_model(alloc, ONE_DESK.as_bytes()).ok()?;
    let Ok(solo) = Solo::new(alloc, &model, &[]) else {
        return None;
    };
    let solo = solo.run_to(&model, model.horizon(), steps).ok()?;
    let log = solo.log(alloc, 2).ok()?;
    let [_, first, _, second, done, _, last, _] = one_desk_trace();
    Some(log.as_slice() == [first, second, done, last].as_slice())
}

fn with_steps<L: Ledger>(alloc: Global, blank: Blank) -> bool
    requires name { blank.name ≡ L.name }
    requires parts { blank.parts ≡ L.parts }
    requires nonempty { 0 < L.parts }
{
    let mut steps = Steps::<L>::new(blank);
    desk_log_is(alloc, &mut steps) == Some(true) && resumed_runs(alloc, &mut steps)
}

#[test]
fn worked_examples_run(rt: HostRuntime) -> Result<(), Fail> {
    let all = with_steps::<Brand>(rt.alloc(), Blank::new(1));
    assert!(rt; all);
    Ok(())
}
