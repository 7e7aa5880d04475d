//! A worked example, computed by the checker. There is nothing to run.
ghost use Rattle.std.specs.Prelude.{◌≡◌};
ghost use Rattle.sim_outer.specs.declared.inputs.TheConstants.{MAX_FETCHED};

/// The most bytes of a file that a fetch returns, in numbers: one more than a file may have.
pub fn limits_in_numbers()
    ensures fetched { MAX_FETCHED ≡ 1048577 }
{}
