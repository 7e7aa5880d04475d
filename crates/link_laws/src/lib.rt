//! The theory of link clocks: stations that synchronise by their inbound links, in rounds, without a common front.
//!
//! The window rule takes all stations to one front, which the lookahead bounds. Here each station goes to
//! its own *clock*, as far as its links allow. The next clock is the least of the horizon and, for each link from
//! another station, the sender's clock plus the delay. Conservative simulation calls it the lower bound on time stamps.
//! A *round* takes every station from its clock to its next one. Three stations in a line, delays of 2, horizon 20:
//!
//!     round    gate --2--> desk --2--> out
//!       0         0          0          0
//!       1        20          2          2
//!       2        20         20          4
//!       3        20         20         20
//!
//! The clocks after a round are a *cut*: one time for each station. A message is *known* at a cut if it is pending at
//! the start, or if its sender sends it before the sender's time. A known message *waits* at its station if it comes at
//! the station's time or later, and before the clone's end.
//!
//! The theory rests on one condition, `IsRoundOf`. Each station has a *floor*, and no clone's log grows between the
//! station's time and its floor (`IsIdleBelow`). A station in a good state that handles any message at its floor or
//! later sends nothing to another station before that station's next time (`IsRound`). The laws of copies and counts
//! use nothing else. Another choice of times needs only a law that it meets `IsRoundOf`. Two choices meet it:
//!
//! | Step | Floor of a station | Why no message comes too early |
//! |---|---|---|
//! | of link clocks | its clock | the delays of the links |
//! | a window | the least due time of all clones, or else the window's end | the lookahead |
//!
//! So a window that skips idle time is a round, too.
//!
//! `specs/` has all definitions. Read them in this order: Cuts, CutCopies, Clocks, RoundLaws, WindowLaws, Examples.
//! There is nothing to run, and nothing costs time. The contract of each function in `laws` is a law, and `examples`
//! pins the clocks by worked values.
//!
//! It promises, for every simulation that meets the laws of `run_laws` and keeps to its links (`KeepsToLinks`):
//!
//! - the clocks rise to the horizon, in at most horizon / lookahead + 1 rounds if the lookahead is positive;
//! - in a round every station alone handles exactly the messages that each clone's own run handles there;
//! - copies that represent the clones at a cut, stepped and given the messages sent to them, represent them at the next
//!   cut;
//! - the number handled once grows by the gains of the copies, and the limit holds as in windows;
//! - at a cut with one time for all stations these laws are those of fronts in `run_laws`;
//! - a window is a round, so the laws of windows follow: what each station comes to, what the copies represent, and the
//!   sum of what they gain.
//!
//! `cloner` rests on these laws: the windows of `world_core` and the rounds of `link_clocks` are steps at a cut.
#![tactic(auto)]

pub mod examples;
pub mod laws;
