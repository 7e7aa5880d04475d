//! The mode of a run: what its world is, how far it goes in each step, and what it does afterwards.
ghost use Rattle.std.specs.Prelude.{◌≡◌, ◌<◌, ◌↔◌, ℕ, IsTrue, IfOk};
ghost use Rattle.study_run.specs.Onwards.{GoesOn, HasComeTo, RunState, run_state};
ghost use Rattle.study_run.specs.declared.fault.StudyFault.{StudyFault};

use crate::fault::StudyFault;
use sim_base::Steps;
use station_steps::Stepper;
use std::alloc::Global;
use std::sync::ledger::Ledger;

/// `Onwards`: the mode of a run, such as plain windows, windows with watches, or rounds. `W` is the world that it
/// advances.
pub trait Onwards<W: Drop> {
    // a run went on from the first state to the second
    ghost has_gone_on: { RunState Self W → RunState Self W → Type 0 };

    // a run that began in this state stopped, at this step count, with this fault
    ghost has_stopped: { RunState Self W → ℕ → StudyFault → Type 0 };

    // the run is at its end
    ghost done: { Self → W → Type 0 };

    // an upper bound on the number of steps that are left
    ghost left: { Self → W → ℕ };

    /// Whether the run is at its end.
    fn is_done(&self, world: &W) -> bool
        ensures value { IsTrue result ↔ done self.now world.now };

    /// Whether a crew pays off for the next step, if the last step was large or not. It is a hint.
    fn wants_crew(&self, world: &W, was_large: bool) -> bool;

    /// One step: advances all stations by the stepper, and does what is due afterwards.
    ///
    /// # Errors
    ///
    /// The world is dropped if out of memory, or if the limit is met.
    fn advance<E: Stepper, L: Ledger>(
        &mut self,
        alloc: Global,
        stepper: &mut E,
        world: W,
        steps: &mut Steps<L>,
    ) -> Result<W, StudyFault>
        requires going { ¬ (done self.old world) }
        requires come { HasComeTo has_gone_on (run_state self.old world steps.old) }
        ensures goes { GoesOn has_gone_on has_stopped (run_state self.old world steps.old) self.new steps.new result }
        ensures left { IfOk result (λ w. left self.new w < left self.old world) };
}
