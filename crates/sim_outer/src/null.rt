//! The sink that drops everything.
ghost use Rattle.std.specs.Prelude.{None, IsOk};

use crate::sink::{PutFailed, Sink};

/// Takes every piece and drops it. Contracts do not know the bytes.
#[derive(Clone, Copy, Debug)]
pub struct NullSink;

impl Sink for NullSink {
    ghost view = { λ _. record { bytes = None; faults = 0; calls = None } };

    fn put(&mut self, _piece: &[u8]) -> Result<(), PutFailed>
        ensures takes { IsOk result }
    {
        Ok(())
    }

    fn put_part(&mut self, _part: &[u8]) -> Result<(), PutFailed>
        ensures takes { IsOk result }
    {
        Ok(())
    }
}
