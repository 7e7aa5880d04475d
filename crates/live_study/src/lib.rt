//! Live studies: analysts decide while the engine runs (interactive simulation).
//!
//! In a study the decisions are known before the simulation begins. In a live one each analyst is a thread that asks
//! its decisions one after the other, and the engine is a thread that goes from window to window. They meet
//! at the desk, where calls and fronts (window boundaries) come one after the other; so there is one journal, whatever
//! the schedule:
//!
//! ```text
//! engine      next .. take .. window to 5      next .. take .. window to 7     ..    to the horizon
//! ada               fork fast
//! ben                              set base at 4: late
//! journal     # front 5 | ada: fork fast | # front 7 | ben: refused, late | ..
//! ```
//!
//! In each turn the engine passes the times of the next messages to the desk. It gets the next front and the calls
//! that were accepted since its last turn, applies these to the world, and runs the window up to that front. Then it
//! publishes the racks of the stations that are looked at, and at the horizon those of all. An analyst reads the newest
//! rack at its seat, and waits for nobody.
//!
//! ```text
//! let live = live_study(&rt, alloc, workers, &gate, &model, &script, &mut steps)?;
//! let text = live_journal_text(alloc, &script, &live)?;
//! ```
//!
//! What it costs: a thread for each analyst and the engine's crew; a decision waits for its turn at the desk; a rack of
//! each station that is looked at in each window. However the engine ends, all analysts do all that they have to do,
//! and all threads are joined. What follows takes no memory, so the journal is there in any case.
//!
//! It carries a promise of README.md: **all threads' decisions form one ordered journal, and every observation was
//! correct when it was made**. In the journal each analyst's decisions are in order, each once, and no others. None is
//! answered Full, since no more are asked than a journal holds. If the engine reaches the horizon, the world has the
//! clones that this journal leaves, and what clones share was counted once. What each look saw is true of the clones
//! that there were at time 0 or at its front of the journal. It stays true of those that the journal leaves, since
//! nothing after a front changes a log before it (`laws`). If a log would get longer than the limit, the result names
//! the least station and there the least clone at the last front. It is not proved that threads run concurrently.
//!
//! The tests are in `engine_tests`.
#![tactic(auto)]

pub mod analyst;
mod asking;
mod begin;
mod beside;
mod engine;
pub mod examples;
pub mod laws;
mod live;
mod prepared;
mod ready;
mod reserve;
mod resources;
pub mod run;
mod study;
mod text;
mod work;

pub use analyst::Analyst;
pub use run::LiveRun;
pub use study::live_study;
pub use text::live_journal_text;
