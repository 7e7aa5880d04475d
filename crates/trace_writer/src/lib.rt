//! The texts of all clones, put one after the other, each in parts.
//!
//! A clone's text is a name line and a line for each message that the clone handled. Clones that branch from one
//! another begin with the same lines. So the first lines of a text are kept, up to the time at which the next clone
//! parts, and only the lines from there on are made anew:
//!
//! ```text
//!   text of `base`     clone base\n 3 gate ..\n 5 desk ..\n 8 desk ..\n 9 gate ..\n 13 desk ..\n
//!   text of `fast`     clone fast\n 3 gate ..\n 5 desk ..\n 8 desk analyst 0 set ..\n 9 gate ..\n 11 desk ..\n
//!                                 | kept                  | made
//!                                                         ^ the two decision lists part at 8
//! ```
//!
//! ```text
//! let traces = WorldTraces::of(&world);                   // a world at the horizon; `in_order` for another order
//! let texts = prepare(alloc, &traces)?;                   // all memory that the texts need
//! put_texts(rt, alloc, &traces, workers, texts, out)?;    // one call for each clone
//! ```
//!
//! A text is put in one call, in parts. First come the name line and the kept lines. Then the logs of all stations are
//! merged from there on ([`cursor`]), and their lines are written into a page of 32 KB, which is put when it is
//! full. Lines that the next text begins with are also appended to the kept ones. A *mark* says that the kept lines up
//! to some byte are those of the entries before some word. There is one at the end of each page and of the kept lines.
//! The next text keeps the lines before the last mark that is not after its own parting. So a mark is a hint: without
//! it a text is made from an earlier word on, and has the same bytes.
//!
//! `prepare` reserves 256 bytes for each line of the longest text; no line is longer. Pages that hold no line are never
//! touched, so a text without a successor needs almost no memory. If the kept lines had no room, keeping would stop. A
//! line costs the merge of its entry and its bytes. `put_alone` puts the text of one log.
//!
//! If a run has a long text, a crew of workers makes the lines of long texts. It is begun once for all texts. A text is
//! cut into parts of about 4,096 lines, and each part is a task of the crew: it merges the logs from a word on, and
//! writes the lines up to another word into a buffer. Eight parts for each worker are a batch, at most 64. The members
//! make one batch while the caller puts the parts of the previous batch, and keeps those that the next text begins
//! with. Then the caller makes what no member has begun. The buffers of parts that were put are used again:
//!
//! ```text
//!   caller     start 2 | put the parts of batch 1 | make parts of 2 | start 3 | put the parts of batch 2 | ..
//!   members              make parts of 2 ........................ |   make parts of 3 ..
//! ```
//!
//! Where a part ends is a hint, and no text depends on it. If memory runs out, the caller puts the rest alone, and
//! allocates nothing. Only tests show that the threads run concurrently. `put_texts_sequentially` is the same without a
//! crew: it never waits for another thread, so its contract promises that it returns.
//!
//! The promise: **each text is the trace of its clone simulated alone**, byte for byte, and the texts are in the
//! requested order. The texts need no memory once the first part is put, so out of memory can occur only before any
//! output.
//!
//! The tests are in `base_tests`.
#![tactic(auto)]

mod alone;
mod batches;
mod beside;
mod bounds;
pub mod cursor;
mod cuts;
mod kept;
pub mod laws;
mod line_puts;
mod making;
mod merge;
mod pages;
mod parting;
mod putting;
mod rest_putter;
mod text_order;
mod text_rest;
mod texts;
pub mod tree;
pub mod words;
mod world_traces;

pub use alone::put_alone;
pub use cursor::Cursor;
pub use putting::{put_texts, put_texts_sequentially};
pub use texts::{Texts, prepare};
pub use tree::{NO_WORD, Tree};
pub use words::{first_word, place_of_word, walk_from_word, word_at};
pub use world_traces::WorldTraces;
