//! Where the reader of a snapshot is in its text.

/// The lines that may come next.
#[derive(Clone, Copy, Debug, PartialEq, Eq)]
pub enum Place {
    /// The line of the next station, or `pending N` after the last one.
    Stations,
    /// A pending message, or `trace N` if none is left.
    Messages { left: u64 },
    /// A trace line, or the end of the text if none is left.
    Lines { left: u64 },
}
