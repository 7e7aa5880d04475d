//! Input and output: the words of the command line, inputs that are read by name, and sinks that take bytes.
//!
//! A proved program still meets missing files and broken pipes. The contents of a file are not proved; instead, I/O
//! errors are counted. `Inputs` and `Sink` define the promises to a caller. If a fetch fails, it raised the count of
//! faults, or the file is known not to exist. If a put fails, it raised the count, and took a prefix of the piece.
//! Calls are counted too, if the contract knows the count, so that a caller can promise how often it fetches and puts.
//! A piece may be put in parts (`put_part`), followed by a `put` of the rest; together they are one call. So a long
//! text need not be held whole. The top call is generic over these two traits:
//!
//! ```text
//!              Inputs                        Sink
//!            /        \                  /     |     \
//!   FileInputs      MemInputs     OutSink   ErrSink   MemSink, NullSink
//!   real files      in tests      real streams        in tests
//! ```
//!
//! An example of a fault in a test:
//!
//! ```text
//! let mut out = MemSink::new(alloc, 4_096, failing)?;   // call 2 takes 10 bytes and fails
//! out.put(text)?;                                       // call 1
//! out.put_part(b"clone base\n")?;                       // call 2, which fails here, since that has 11 bytes
//! let written = out.bytes();
//! ```
//!
//! A fetch copies the file once, at most `MAX_FETCHED` bytes: one more than a file may have, so that a longer file is
//! noticed. A put allocates nothing. `MemInputs` searches its files one by one.
//!
//! The types over real files and streams are the trusted edge, a few lines each. It is proved that they raise the count
//! at each fault. The promise that each status of the program has a cause rests on them. A file that was not read, or
//! an output that was cut off, is counted as a fault and never ignored.
//!
//! The tests are in `base_tests`.
#![tactic(auto)]

pub mod examples;
pub mod inputs;
pub mod mem_inputs;
pub mod mem_sink;
pub mod null;
pub mod real;
pub mod sink;
pub mod word;

pub use inputs::{FetchFault, Inputs, MAX_FETCHED};
pub use mem_inputs::MemInputs;
pub use mem_sink::MemSink;
pub use null::NullSink;
pub use real::{ErrSink, FileInputs, OutSink};
pub use sink::{PutFailed, Sink};
pub use word::Word;
