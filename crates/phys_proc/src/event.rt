//! How a copy handles its least message, for all its clones.
ghost use Rattle.std.specs.Prelude.{◌≡◌, ◌<◌, ◌+◌, List, [], ◌∷◌, length, OnOk};
ghost use Rattle.clone_sets.specs.declared.set.CloneSet.{CloneSet as CloneSet'};
ghost use Rattle.copy_pending.specs.Merged.{messages_of};
ghost use Rattle.sim_base.specs.declared.message.Msg.{Msg as Msg'};
ghost use Rattle.phys_proc.specs.Own.{IsCopy, IsHandled, sent_after, pending_after};

use crate::copy::PhysCopy;
use crate::sent::SentMessages;
use arrayvec::ArrayVec;
use copy_pending::CopyPending;
use net_model::Model;
use sim_base::{Entry, Msg, NoMemory, Steps};
use stations::MAX_SENDS;
use stations::state::handle;
use std::sync::ledger::Ledger;

/// All clones of the copy take the least message. `out` is a buffer for its sends.
pub(crate) fn handle_least<L: Ledger>(
    copy: &mut PhysCopy,
    model: &Model,
    station: u32,
    out: &mut ArrayVec<Msg, MAX_SENDS>,
    sent: &mut SentMessages,
    steps: &mut Steps<L>,
) -> Result<(), NoMemory>
    requires due { (m : Msg') × (k : CloneSet') × (q : List (Msg' × CloneSet')) × (copy.old.pending ≡ (m, k) ∷ q) ×
        (m.key.time < model.now.horizon) }
    requires fits { IsCopy model.now station copy.old }
    requires length_max { length copy.old.log < model.now.limit }
    ensures handled { OnOk result (IsHandled model.now station copy.old copy.new sent.old sent.new) }
    ensures counted { OnOk result (steps.new ≡ steps.old + 1) }
{
    let msg = copy.pending.take_message();
    out.clear();
    let line = handle(&mut copy.state, model, &msg, out, steps)?;
    copy.log.push(Entry { msg, line })?;
    send_all(station, out.as_slice(), &mut copy.pending, sent)?;
    Ok(())
}

// A station's sends to itself become pending for all clones, and the others are laid aside for them.
fn send_all(
    station: u32,
    sends: &[Msg],
    pending: &mut CopyPending,
    sent: &mut SentMessages,
) -> Result<(), NoMemory>
    ensures pending { OnOk result (messages_of pending.new
        ≡ pending_after station pending.old.set sends.now (messages_of pending.old)) }
    ensures same { OnOk result (pending.new.set ≡ pending.old.set) }
    ensures aside { OnOk result (sent.new ≡ sent_after station pending.old.set sends.now sent.old) }
{
    for msg in sends {
        if msg.to == station {
            pending.insert_for_all(*msg)?;
        } else {
            sent.push(*msg, pending.set())?;
        }
    }
    Ok(())
}
