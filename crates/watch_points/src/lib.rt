//! Watches: branches that are made when a waiting line gets long.
//!
//! Planners often decide by state: a second desk as soon as ten people wait. A *watch* states such a decision before
//! the simulation begins. It names a server of a clone and a number of jobs. When at least that number of jobs first
//! wait there, a branch of the clone is made: a clone with a new name and one more decision. The decision takes effect
//! one lookahead later, exactly as if the planner had known the time beforehand.
//!
//! ```text
//! watch base desk wait 1 fork help set desk servers 2
//!
//! time                        3    5    8    10             20
//! jobs that wait at the desk       0    1                          the watch is due at 8
//! base ----------------------------------------------------- horizon
//!                                       `--- help ---------- from 10 on the desk has two servers (the lookahead is 2)
//! ```
//!
//! A watch may also watch the branch of an earlier watch, from the time of that branch's change on.
//!
//! ```text
//! let watches = read_watches(alloc, text)?;            // or the first line with a fault, and which
//! check(&model, world.lists(), &watches)?;             // or the first watch that does not fit, and why
//! let mut watcher = Watcher::new(alloc, model, world.lists(), &watches)?;
//! // after each window of the world:
//! world = watcher.after(alloc, world)?;                // with the branches of the watches that are due
//! // at the horizon:
//! let order = watcher.order(alloc)?;                   // the places of the clones in the order of the watches
//! ```
//!
//! Cost: `read_watches` takes time proportional to the text. `check` compares each watch with the names of the clones
//! and of the earlier watches, and allocates nothing. After each window, watches of one clone and station that follow
//! each other look up the clone's copy once and read each new entry of its log once. Each of them then compares its
//! least number of jobs with the longest line among these entries. It reads the entries itself only if that line was
//! long enough. A watch that has made its branch costs nothing.
//!
//! The promises:
//!
//! - *Texts.* The watches are those that `specs/Reading.antt` defines, or the fault is the first one.
//! - *Refusals.* `check` returns the first reply of the table in `specs/Checking.antt` whose condition holds.
//! - *Branches.* After each window the world has exactly the branches that its logs bring (`specs/Watchers.antt`), and
//!   each was forked and changed in time. At the horizon these are the branches of the whole run, as
//!   `specs/Triggers.antt` defines them from the clones' own runs alone.
//! - *Order.* The places that `order` returns put the clones in the order of the watches, whatever the order in which
//!   they were made. The figures of a report are the same in both orders.
#![tactic(auto)]

pub mod branch_laws;
pub mod due_examples;
pub mod examples;
pub mod fault;
pub mod fitting;
pub mod laws;
mod line;
pub mod naming;
mod peak;
mod read;
mod waiting;
pub mod watch;
pub mod watcher;

pub use fault::WatchFault;
pub use fitting::{Unfit, check};
pub use naming::numbered_name;
pub use read::read_watches;
pub use watch::{MAX_WATCHES, Watch, Watches};
pub use watcher::Watcher;
