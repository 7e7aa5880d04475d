//! The text of a snapshot, both ways.
//!
//! ```text
//! snapshot base front 10 end -
//! station 1 next 4 drawn 2 handled 2 source 3 3 2
//! ..
//! pending 2
//! 11 2 1 3 job 1.0.3
//! 13 2 2 2 done 1.1.6
//! trace 5
//! 3 gate gate 0 tick sent=1
//! ..
//! ```
//!
//! `specs/SnapshotTexts.antt` states the text line by line, and `specs/Reading.antt` states the machine that reads it.
//! Each line has a form of `snapshot_lines`.
//!
//! ```text
//! if text_len(&model, &snapshot) > MAX_FILE_BYTES as u128 { .. }      // too long: known before any memory is taken
//! let text = snapshot_text(alloc, &model, &snapshot)?;
//! let snapshot = read_snapshot(alloc, &model, &text)?;
//! ```
//!
//! A text that is refused has one fault, the first of these: too long, a bad line, a bad front, a station that its data
//! does not fit, a bad pending message. A missing line counts as the line after the last one.
//!
//! Cost: reading and writing take time in proportion to the text's length. The reader takes each line once, and then
//! tests each station and each message once. Nothing is reserved by a number that the text states. The writer measures
//! the text, and then takes its memory at once.
//!
//! The promises:
//!
//! - *Exact.* A text is read if and only if it is the text of a snapshot that a run may go on from. It is read as that
//!   snapshot.
//! - *Faults.* Any other text is refused at the first rule that it breaks.
#![tactic(auto)]

mod accepting;
pub mod examples;
pub mod fault;
pub mod laws;
pub mod place;
mod read;
pub mod reader;
mod write;

pub use fault::SnapshotFault;
pub use read::read_snapshot;
pub use write::{snapshot_text, text_len};
