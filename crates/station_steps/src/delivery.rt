//! Delivery after a window: each station (a logical process) gets the messages that the others sent to it.
ghost use Rattle.std.specs.Prelude.{◌∷◌, [], OnOk};
ghost use Rattle.station_steps.specs.Windows.{AllDelivered, AreStationsInOrder};

use crate::station_slot::StationSlot;
use clone_sets::CloneSet;
use msg_heap::PackedMsg;
use phys_proc::SentMessages;
use sim_base::{Msg, NoMemory};

/// Delivers a message to its station, if there is one.
///
/// # Errors
///
/// Out of memory: some of the station's copies may have the message.
pub fn deliver_to(procs: &mut Vec<StationSlot>, msg: Msg, set: CloneSet) -> Result<(), NoMemory>
    requires in_order { AreStationsInOrder procs.old.items }
    ensures given { OnOk result (AllDelivered ((msg, set) ∷ []) procs.old.items procs.new.items) }
{
    if 1 <= msg.to && msg.to as usize <= procs.len() {
        let i = msg.to as usize - 1;
        procs[i].deliver_at_once(msg, set)?;
    }
    Ok(())
}

// The same for a packed message.
#[inline(always)]
fn deliver_packed_to(
    procs: &mut Vec<StationSlot>,
    msg: PackedMsg,
    set: CloneSet,
) -> Result<(), NoMemory>
    requires in_order { AreStationsInOrder procs.old.items }
    ensures given { OnOk result (AllDelivered ((msg, set) ∷ []) procs.old.items procs.new.items) }
{
    let to = msg.to();
    if 1 <= to && to as usize <= procs.len() {
        let i = to as usize - 1;
        procs[i].deliver_packed(msg, set)?;
    }
    Ok(())
}

// Delivers packed messages.
fn deliver_packed(
    procs: &mut Vec<StationSlot>,
    sent: &[(PackedMsg, CloneSet)],
) -> Result<(), NoMemory>
    requires in_order { AreStationsInOrder procs.old.items }
    ensures given { OnOk result (AllDelivered sent.now procs.old.items procs.new.items) }
{
    for pair in sent {
        deliver_packed_to(procs, pair.0, pair.1)?;
    }
    Ok(())
}

// Delivers whole messages.
fn deliver_whole(procs: &mut Vec<StationSlot>, sent: &[(Msg, CloneSet)]) -> Result<(), NoMemory>
    requires in_order { AreStationsInOrder procs.old.items }
    ensures given { OnOk result (AllDelivered sent.now procs.old.items procs.new.items) }
{
    for pair in sent {
        deliver_to(procs, pair.0, pair.1)?;
    }
    Ok(())
}

/// Delivers to each station what the others sent to it, in the caller's thread. Each message goes to the copies that
/// have one of its clones.
///
/// # Errors
///
/// Out of memory: some of the copies may have some of the messages.
pub fn deliver_all(procs: &mut Vec<StationSlot>, sent: &SentMessages) -> Result<(), NoMemory>
    requires in_order { AreStationsInOrder procs.old.items }
    ensures given { OnOk result (AllDelivered sent.now procs.old.items procs.new.items) }
{
    let (packed, whole) = sent.parts();
    deliver_packed(procs, packed)?;
    deliver_whole(procs, whole)?;
    Ok(())
}
