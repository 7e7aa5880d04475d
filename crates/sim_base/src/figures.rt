//! The counts that the report has for a station: copies, and messages.

/// The report's figures for one station: its physical copies, the messages that the copies handled, and the messages
/// that the clones would have handled alone.
#[derive(Clone, Copy, Debug, PartialEq, Eq)]
pub struct Figures {
    pub copies: u64,
    pub handled: u64,
    pub alone: u64,
}
