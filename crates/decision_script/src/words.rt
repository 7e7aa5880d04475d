//! The calls that read one line of a text: its words, numbers, names and changes of parameters.
//!
//! They read the lines of a script, and those of any other text made of the same words:
//!
//! ```text
//! let mut left = TextLines::of(text);
//! while let Some((number, line)) = left.next_line() {
//!     // if not `is_ascii_line(line)`: `LineFault::NotAscii`
//!     let words = words_of(alloc, line)?;
//!     // if there are no words, or the first `is_comment`: the line means nothing
//! }
//! ```
//!
//! `read_name`, `read_param`, `read_number` and `read_change` each return the value of their words, or the rule that a
//! word breaks. The time is proportional to the line's length. Only `words_of` allocates: one slice for each word.

pub use crate::fault::LineFault;
pub use crate::line::{is_ascii_line, is_comment, read_change, read_name, read_param, words_of};
pub use crate::number::{MAX_NUMBER, read_number};
pub use crate::text_lines::{TextLines, cut_at};
