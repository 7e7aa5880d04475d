//! The queueing network of a model file: its stations, the links between them, and its limits.
//!
//! A planner describes a clinic, a shop or a road network as a queueing network. Sources make jobs (patients, orders,
//! cars), and servers with a queue serve them. Delays hold jobs, routers choose their way, and sinks count them as they
//! leave. Links join the stations, each with a delay that is at least the lookahead, and all times are whole numbers.
//! In a file:
//!
//!     lookahead = 2
//!     horizon = 20
//!
//!     [[station]]                       # station 1: a job every 3
//!     name = "gate"
//!     kind = "source"
//!     every = [3, 3]
//!     jobs = 2
//!     link = [{ to = "desk", delay = 2 }]
//!
//! `read_model` reads such a text, or returns the first rule that it breaks, with the station and the key:
//!
//!     let model = read_model(alloc, text)?;           // Err(ModelFault::OutOfRange { place: 1, field: Every })
//!     let desk = model.find(&name);                   // Some(2): stations are numbered from 1, in the file's order
//!
//! A text is read once, in time linear in its length, except for names. Each is compared with those before it, so this
//! time is quadratic in the number of stations, which is small. `limits` names every bound on a model's values.
//!
//! `specs/Text.antt` defines the model of a text, key by key and in a fixed order of the rules. `read_model` returns
//! exactly that, unless it is out of memory. Every `Model` keeps the rules of `specs/Rules.antt`, so no crate above has
//! to test them again. Example texts are in `specs/Examples.antt`. Of the promises in README.md this crate carries "an
//! error names the first rule that is broken", for the text of the model.
//!
//! The tests are in `base_tests`.
#![tactic(auto)]

mod draft;
pub mod examples;
pub mod fault;
pub mod field;
pub mod key_text;
mod keys;
mod kinds;
pub mod limits;
mod links;
pub mod model;
mod read;
mod reading;
mod resolve;
pub mod station;
mod top;

pub use fault::ModelFault;
pub use field::Field;
pub use key_text::KeyText;
pub use model::Model;
pub use read::read_model;
pub use station::{Kind, Link, Station};
