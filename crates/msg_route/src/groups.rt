//! Equal messages of several copies become one message.
ghost use Rattle.std.specs.Prelude.{◌≡◌, IfOk};
ghost use Rattle.msg_route.specs.Grouping.{group_of, IsGrouped};

use clone_sets::CloneSet;
use sim_base::{Msg, NoMemory, Pending};
use std::alloc::Global;

/// Merges equal messages, and returns them in the order of messages.
pub fn group(alloc: Global, sent: Vec<(Msg, CloneSet)>) -> Result<Vec<(Msg, CloneSet)>, NoMemory>
    ensures value { IfOk result (λ grouped. grouped.items ≡ group_of sent.items) }
    ensures grouped { IfOk result (λ grouped. IsGrouped sent.items grouped.items) }
{
    let mut pending = Pending::new(alloc);
    for (msg, set) in sent {
        pending.insert(msg, set)?;
    }
    let mut grouped = Vec::new(alloc);
    while let Some(pair) = pending.take_least() {
        grouped.push(pair)?;
    }
    Ok(grouped)
}
