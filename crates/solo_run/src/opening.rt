//! The start of a one-thread run: the opening states of the stations, and the first messages of the future event list.
ghost use Rattle.std.specs.Prelude.{◌≡◌, ◌+◌, length, IfOk, OnOk};
ghost use Rattle.sim_base.specs.Order.{msg_cmp};
ghost use Rattle.net_model.specs.Net.{Net};
ghost use Rattle.net_model.specs.Rules.{IsNet};
ghost use Rattle.run_laws.specs.Queue.{insert_all};
ghost use Rattle.run_laws.specs.World.{first_messages, set_messages};
ghost use Rattle.stations.specs.Runs.{simulation};
ghost use Rattle.solo_run.specs.Beginning.{AreOpeningStates, with_first};
ghost use Rattle.solo_run.specs.EventLists.{all_messages};

use crate::event_list::EventList;
use net_model::Model;
use sim_base::{Msg, NoMemory, Planned};
use stations::State;
use stations::decision::set_message;
use stations::state::setup;
use std::alloc::Global;

fn put_first(pending: &mut EventList, first: Option<Msg>) -> Result<(), NoMemory>
    ensures ok { OnOk result (all_messages pending.new ≡ with_first first (all_messages pending.old)) }
{
    if let Some(msg) = first {
        pending.insert(msg)?;
    }
    Ok(())
}

/// Opens every station: returns the states in order, and makes their first messages pending.
pub(crate) fn open_all(
    alloc: Global,
    model: &Model,
    pending: &mut EventList,
) -> Result<Vec<State>, NoMemory>
    ensures valid { IsNet model.now }
    ensures opened { IfOk result (λ states. AreOpeningStates model.now (length model.now.sites) states.items) }
    ensures first { OnOk result (all_messages pending.new ≡ insert_all msg_cmp
        (first_messages (simulation model.now) (length model.now.sites)) (all_messages pending.old)) }
{
    let mut states = Vec::new(alloc);
    for s in 0..model.len() {
        let (state, first) = setup(alloc, model, s + 1)?;
        states.push(state)?;
        put_first(pending, first)?;
    }
    Ok(states)
}

/// Makes the decisions of a clone pending messages, numbered from 0.
pub(crate) fn put_decisions(pending: &mut EventList, list: &[Planned]) -> Result<(), NoMemory>
    ensures ok { (net : Net) → OnOk result (all_messages pending.new ≡
        insert_all msg_cmp (set_messages (simulation net) 0 list.now) (all_messages pending.old)) }
{
    for k in 0..list.len() {
        pending.insert(set_message(k, list[k]))?;
    }
    Ok(())
}
