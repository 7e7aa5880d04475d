//! Decisions in script syntax, one for each line.

use decision_script::{Act, read_script};
use sim_base::Decision;
use std::alloc::Global;

/// The decision that a line states.
pub fn decision(alloc: Global, line: &str) -> Option<Decision> {
    let script = read_script(alloc, line.as_bytes()).ok()?;
    if script.is_empty() {
        return None;
    }
    match script.item(0).act {
        Act::Decide(decision) => Some(decision),
        Act::Look { .. } => None,
    }
}
