//! The result of a station's step to the window boundary: its copies there, the messages that they sent, and the number
//! of event executions (messages handled).
use crate::sent_list::SentList;
use crate::station_slot::StationSlot;
use clone_sets::CloneSet;

/// The result of a station's step.
#[derive(Drop)]
pub struct StationStep {
    /// The copies at the bound; they have no meaning if some clone is over the limit.
    pub done: StationSlot,
    /// The messages to other stations, each with the clones that send it.
    pub sent: SentList,
    /// The clones whose logs would get longer than the limit.
    pub over: CloneSet,
    /// The number of messages handled, each counted once for all clones of a copy.
    pub handled: u64,
}
