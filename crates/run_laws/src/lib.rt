//! The theory of runs: definitions over any kind of station, independent of code, and the laws proved about them.
//!
//! A discrete event simulation handles its pending messages (the *future event list*) in the order of their times.
//! Clones of one simulation diverge at decisions and share most of their past. So one *copy* of a station (a physical
//! process) may represent many clones (its virtual processes). It does so until a message arrives that only some of
//! them take. The laws say that this equals, message by message, a run of each clone alone on one thread:
//!
//!     clones      base  slow  fast  |  a station's copies at a front       a window: all stations step in parallel
//!                   \    |    /     |    {base, slow}   log  1 2 3         up to the next front, since a message over
//!                    one past       |    {fast}         log  1 2 4         a link arrives later by the lookahead
//!
//! `specs/` has all definitions, each with a line of comment. Read them in this order:
//!
//! - Queue, Machine, Simulation, World, Handlers, Window, Runs, Fronts: a clone's run, alone on one thread;
//! - Sharing, Prefixes, Copies, Merges, Orders: what clones have in common, and copies that represent them;
//! - Laws, StepLaws, MarkLaws, CopyLaws, CountLaws, FrontLaws, TraceLaws, SharedTexts, Numbers: the laws, as statements
//!   that contracts cite;
//! - Beginnings: what the trace of a clone begins with is kept for the next clone;
//! - Examples, BeginningExamples: two stations that throw a ball to each other, computed.
//!
//! There is nothing to run, and nothing costs time. The contract of each function in `laws` is a law, and `examples`
//! pins the definitions by worked values. A crate above cites a definition in its contracts and a lemma in its proofs,
//! as `phys_proc` does:
//!
//!     ensures windows { .. IsStepped (simulation model.now) has .. self.old.copies self.new.copies sent.new.items }
//!     use Rattle.run_laws.proofs.Steps.{IsStepped-SoFar}
//!
//! That each station may run alone up to the next front is a law of `link_laws`, since a window is a round.
//!
//! Three promises rest on both. Copies give every clone its own trace. The report counts a message once if clones
//! handle it together. Windows on many threads change nothing.
#![tactic(auto)]

pub mod beginning_examples;
pub mod beginning_laws;
pub mod examples;
pub mod laws;
pub mod number_laws;
pub mod order_laws;
pub mod text_laws;
