//! Decision scripts: the script of a text, its canonical text, and the decisions that reach one clone.
//!
//! A planner writes down what to try, one line per decision, and the simulation branches accordingly:
//!
//! ```text
//! # a second desk, if the queue is long
//! fork fast from base
//! set fast at 40 desk servers 2
//! analyst ben
//! look fast desk
//! end fast at 900
//! ```
//!
//! A line is a decision (`fork`, `set`, `end`), a `look`, or the beginning of an analyst's section; before the first
//! section the analyst is `main`. Words are separated by blanks; a line whose first word begins with `#` is a comment.
//! Numbers are whole 32-bit numbers without a leading zero.
//!
//! ```text
//! let script = read_script(alloc, text)?;       // or the first faulty line and its fault
//! let own = alone(alloc, &script, &name)?;      // the part that reaches one clone
//! let text = print_script(alloc, &own)?;        // its canonical text, which is read as the same script
//! ```
//!
//! Reading, printing and `alone` are each one walk over the text or the items. An item takes about 100 bytes, and a
//! script has at most `MAX_ITEMS`.
//!
//! The definitions in `specs/` are the grammar, and `read_script` follows them. It returns the script of the text, or
//! the first faulty line with its first fault. Two promises rest on this. The canonical text of every script is read as
//! that script. A clone that is run from its own script has the same decisions as in the whole one.
//!
//! The tests are in `base_tests`.
#![tactic(auto)]

pub mod examples;
pub mod fault;
pub mod item;
pub mod laws;
mod line;
mod number;
mod one_clone;
mod print;
mod read;
pub mod script;
mod text_lines;
pub mod words;

pub use fault::ScriptFault;
pub use item::{Act, Item};
pub use one_clone::alone;
pub use print::{print_script, push_decision};
pub use read::read_script;
pub use script::{MAX_ANALYSTS, MAX_ITEMS, Script};
