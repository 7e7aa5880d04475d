//! The output texts of a run: the trace of a clone, with a line for each event executed, and the report.
//!
//! `specs/TraceText.antt` and `specs/ReportText.antt` define the texts; `examples` has some of them in full.
//!
//! A line is written forward into a byte buffer, from a given place. Each writer returns the place after its piece:
//!
//! ```text
//!   .. 5 desk gate 7 job gate.0 busy=1 wait=0 done=0 lost=0\n | 5 out d
//!                                                             ^ the next line's place
//! ```
//!
//! ```text
//! let names = Names::of(&model);
//! let at = write_line(&mut bytes, at, &model, &names, &entry);
//! ```
//!
//! A line is written in one of two ways. `write_line` takes a whole entry: a name is copied as 16 bytes whatever its
//! length, and a number is written from its last digit. `write_packed` takes an entry of 24 bytes and reads its numbers
//! from the three words. It writes them in groups of three digits, from tables that `Names` fills once, and each piece
//! is one store of fixed size. `write_stored` chooses by how the log stores the entry.
//!
//! In both ways a piece may write past the line's end, but never more than `MAX_LINE` bytes from the line's start. A
//! buffer therefore ends with `MAX_LINE` spare bytes. A packed entry's line has at most `MAX_PACKED_LINE` bytes.
//! `line_len` counts digits to return the length of a line before it is written, so that a buffer can be allocated
//! once. `trace_text` writes each line into a small buffer that stays in cache, and appends it to the text.
//!
//! A line costs a copy of a few bytes for each name and word. A number costs a few divisions; in a packed entry's line
//! it costs one lookup and one store for each three digits. Only `trace_text` and `report_text` allocate memory, and
//! out of memory is the only error.
//!
//! The promise: **every trace and the report are right**. Each text is exactly what the definitions name.
//!
//! The tests are in `base_tests`.
#![tactic(auto)]

mod digits;
pub mod examples;
mod groups;
mod lengths;
mod line;
mod names;
mod numbers;
mod packed_line;
mod pieces;
mod report;
mod stores;
mod trace;

pub use digits::MAX_NUMBER_LEN;
pub use lengths::line_len;
pub use line::{MAX_LINE, write_line, write_stored};
pub use names::Names;
pub use packed_line::{MAX_PACKED_LINE, write_packed};
pub use report::report_text;
pub use trace::trace_text;
