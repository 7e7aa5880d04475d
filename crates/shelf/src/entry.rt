//! Entries of the log that holds the history.
use logbook::Pen;
use phys_proc::Rack;

/// An entry of the log. Only contracts see it.
#[derive(Drop)]
pub struct Entry {
    /// The rack that was added, or `None` if a step adds nothing.
    pub rack: Option<Rack>,
    /// The key of the pen that added it.
    pub used: u64,
    /// The key of the pen that may add the next rack.
    pub next: u64,
}

/// A rack to add, the pen that adds it, and the pen that may add the rack after it.
#[derive(Drop)]
pub struct Addition<'a> {
    /// The rack.
    pub rack: &'a Rack,
    /// The pen that adds it.
    pub pen: &'a Pen,
    /// The pen that may add the rack after it.
    pub next: &'a Pen,
}
