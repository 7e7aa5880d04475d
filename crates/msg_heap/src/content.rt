//! The payload of a packed message that is no change.
use crate::job::PackedJob;

/// The payload of a packed message that is no change; its job stays packed.
#[derive(Clone, Copy)]
pub enum Content {
    /// A source makes its next job.
    Tick,
    /// A job arrives.
    Job(PackedJob),
    /// The service of a job ends.
    Done(PackedJob),
}
