//! Why the program stops, and what it prints before the error line.
use crate::excess::Excess;
use crate::refusal::Refusal;

/// Why the output is missing or incomplete.
#[derive(Drop)]
pub enum Halt {
    /// Only the error line is printed.
    Refused(Refusal),
    /// A live study exceeded the limit: its journal is printed before the error line.
    Overrun { journal: Vec<u8>, excess: Excess },
}
