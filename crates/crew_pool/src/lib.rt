//! Crews: workers that run the tasks of a call concurrently (a work-stealing thread pool that stays from call to call).
//!
//! In a conservative parallel simulation the logical processes of one time window are independent until the window
//! ends, so each can be stepped separately. A [`Work`] defines what stepping one means. A [`Crew`] is given the items
//! of a window, runs one task for each item, and returns each answer at its item's place. A task owns its item: it
//! changes the item in place and returns it in its answer. All tasks read the work itself.
//!
//! A crew is begun once, around all calls of a run. The caller is worker 0; the others are its [`Member`]s, each in a
//! thread. A call puts its tasks into one deque. The caller pops tasks from the head, and members that were woken steal
//! from the head too, one task at a time:
//!
//! ```text
//!              start: the caller deals 5 tasks     | 0 1 2 3 4 |     and gives members 1 and 2 a job each
//!   caller     pops 0, runs it .. pops 3 .. finds the deque empty, takes the job of member 2 back, waits for member 1
//!   member 1   steals 1, runs it .. steals 2 .. steals 4, runs it, finds the deque empty, returns its answers
//!   member 2   is woken too late: its job was taken back
//! ```
//!
//! ```text
//! let (mut crew, members) = Crew::begin(alloc, &NoGate, workers)?;
//! let bell = crew.bell()?;
//! let (_, outs) = thread::join(
//!     &rt,
//!     || serve_all(&rt, alloc, &bell, members),
//!     || { let outs = crew.all(&rt, alloc, work, items, &mut steps); bell.end(); outs },
//! );
//! // outs[i] is the answer to items[i]
//! ```
//!
//! The caller gives each member its jobs by a mailbox ([`open`]): a channel of capacity one, with a reply to each task.
//!
//! [`Crew::all`] is [`Crew::start`] and then [`Started::finish`]: between the two the caller is free, and members
//! already run tasks. A crew of one worker has no members, and its caller runs all tasks in order. The code that starts
//! the members calls [`Bell::end`] on each way out, since they wait for it.
//!
//! Cost: a call allocates a few short lists, and does one push, one pop or steal and one move of the answer for each
//! task. For each member that it wakes it clones two `Arc`s. A member looks for its next job some thousand times before
//! it sleeps, and uses a processor while it looks. Small work ([`Work::is_small`]) wakes no member. If a task is out of
//! memory, the call reports it and the crew is spent.
//!
//! Promise: **an answer to each item at its place, for every number of workers and every order of stealing**. Neither
//! the workers nor the order of tasks occur in the contract of [`Crew::all`]. [`Forked`] has the same contract for a
//! single call, which starts and joins its threads. The speed of a crew is not proved, nor that two workers ever run at
//! the same time. A [`Gate`] is called before each task, and before each call of an analyst in a live study; tests hold
//! threads with it.
//!
//! The tests are in `engine_tests`.
#![tactic(auto)]

pub mod bell;
pub mod caller;
pub mod crew;
pub mod errand;
pub mod forked;
pub mod gate;
mod gathering;
pub mod idle;
pub mod job;
pub mod lists;
mod mail;
pub mod member;
mod opening;
pub mod own_counter;
mod places;
pub mod started;
mod steps;
mod taking;
pub mod task_deque;
pub mod work;
pub mod worker;
pub mod workers;

pub use bell::Bell;
pub use caller::Caller;
pub use crew::{Crew, MAX_TASKS};
pub use errand::Errand;
pub use forked::Forked;
pub use gate::{Gate, NoGate};
pub use lists::{add, add_all};
pub use member::{Member, serve, serve_all};
pub use opening::open;
pub use own_counter::{run_with_own_counter, tick_costs};
pub use started::Started;
pub use work::Work;
pub use worker::Worker;
pub use workers::{MAX_WORKERS, Workers};
