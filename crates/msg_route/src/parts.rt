//! The copies of a receiver that a message for some clones goes to.
ghost use Rattle.std.specs.Prelude.{◌≡◌, ◌<◌, ◌^◌, length, IfOk};
ghost use Rattle.msg_route.specs.Routing.{parts_of, IsCut};

use clone_sets::CloneSet;
use sim_base::NoMemory;
use std::alloc::Global;

/// One copy of the receiver, and the clones whose message it gets.
#[derive(Clone, Copy, Debug, PartialEq, Eq)]
pub struct Part {
    /// Its index among the receiver's copies.
    pub receiver: u32,
    /// The clones that it shares with the senders.
    pub set: CloneSet,
}

/// The parts of a message from the senders, one for each receiver that shares clones with them, in rising order of
/// receiver.
pub fn cut(alloc: Global, senders: CloneSet, receivers: &[CloneSet]) -> Result<Vec<Part>, NoMemory>
    requires { length receivers.now < 2 ^ 32 }
    ensures value { IfOk result (λ parts. parts.items ≡ parts_of senders receivers.now) }
    ensures cut { IfOk result (λ parts. IsCut senders receivers.now parts.items) }
{
    let mut parts = Vec::new(alloc);
    for (receiver, set) in receivers.iter().enumerate() {
        let shared = senders.meet(*set);
        if !shared.is_empty() {
            parts.push(Part {
                receiver: receiver as u32,
                set: shared,
            })?;
        }
    }
    Ok(parts)
}
