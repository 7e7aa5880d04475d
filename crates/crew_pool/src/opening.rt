//! A mailbox between two threads: a channel of capacity one, with a reply to each task.
//!
//! A [`Caller`] and a [`Worker`] share one slot. The caller puts a task there, and the worker takes it when it looks.
//! Later the worker puts its answer there, and the caller collects it. The caller can take back a task that the worker
//! has not taken yet:
//!
//! ```text
//!            give            take            answer
//!   empty --------->  waits -------->  taken -------->  answered
//!     ^ ^               |                                   |
//!     | `-- take_back --'                                   |
//!     `------------------------ collect --------------------'
//! ```
//!
//! An example:
//!
//! ```text
//! let (mut caller, mut worker) = open::<Lot, Bill, Pricing>(alloc)?;
//! caller.give(lot);
//! if let Some(lot) = worker.take() {      // in the worker's thread
//!     worker.answer(price(lot));
//! }
//! let bill = caller.collect(&rt);         // a bill for this very lot
//! ```
//!
//! Cost: `open` allocates the slot, and nothing else allocates. A call is one or two atomic steps and a move of the
//! task or the answer. `collect` yields its processor between looks, and does not sleep. [`Worker::has_task`] is one
//! load; its result may be out of date when it is read.
//!
//! Promise: **the collected answer is an answer to the very task that was given**, whatever the threads do in between.
//! An [`Errand`] defines the allowed answers to a task. A task that is taken back is the one that was given: either the
//! worker gets it, or the caller has it back.
//!
//! `specs/Mail.antt` has the rule: a table of the mailbox's states, with the word, the slot and what each end knows. It
//! is not proved that the worker ever takes or answers a task: if its end is dropped, `collect` waits forever.
ghost use Rattle.std.specs.Prelude.{◌≡◌, None, IfOk};

use crate::caller::Caller;
use crate::errand::Errand;
use crate::mail::Hire;
use crate::steps::take_slot;
use crate::worker::Worker;
use atomic_table::{Refused, Table};
use sim_base::NoMemory;
use std::alloc::Global;
use std::sync::Arc;

/// Opens a new mailbox and returns both ends.
///
/// # Errors
///
/// [`NoMemory`], if the slot cannot be allocated.
pub fn open<T: Drop, A: Drop, E: Errand<T, A>>(
    alloc: Global,
) -> Result<(Caller<T, A, E>, Worker<T, A, E>), NoMemory>
    ensures idle { IfOk result (λ ends. (ends.0 ≡ None) × (ends.1 ≡ None)) }
{
    let mut slots = Vec::with_capacity(alloc, 1)?;
    slots.push_reserved(None);
    let (table, mut seat) = match Table::new(alloc, &[0], slots, &()) {
        Ok(made) => made,
        Err(Refused { slots: _ }) => return Err(NoMemory),
    };
    let work_seat = table.shared.split_seat::<Hire>(&mut seat);
    take_slot(&table.shared, &mut seat);
    let table = Arc::new(alloc, table)?;
    let shared = Arc::try_clone(&table)?;
    Ok((
        Caller { table, seat },
        Worker {
            table: shared,
            seat: work_seat,
        },
    ))
}
