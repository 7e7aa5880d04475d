//! Studies made from a number: a model of a ward block and a script of sixteen plans, as texts.
//!
//! A study for measuring or for trying the program needs no files: `gen 7` simulates study number 7. Patients enter
//! through a door, are sent to one of one to eight wards, walk to the exit and leave:
//!
//! ```text
//!                 +-> ward1 -+
//! door -> triage -+-> ..     +-> walk -> exit
//!                 +-> wardW -+
//! ```
//!
//! The number is the seed of the model, and determines the number of wards and the density of arrivals. The script is
//! the same for every number. Plan 1 is a fork of the base, and each other plan of the plan with half its number. Each
//! changes the service in the first ward, from a time of its own on.
//!
//! ```text
//! let study = generate(alloc, 7)?;                        // two texts, in the form of two files
//! let model = read_model(alloc, study.model.as_slice());
//! let script = read_script(alloc, study.script.as_slice());
//! ```
//!
//! The texts are defined: `specs/Texts.antt` has the model's, and the script's is the canonical text of the script in
//! `specs/Scripts.antt`. Nothing is drawn at random. Out of memory is the only error.
//!
//! Cost: one walk over the wards and one over the plans; the two texts have less than 3,000 bytes together. Promise:
//! for every number, no decision of the script is refused, and it leaves a clone for each plan
//! (`decisions_are_accepted`).
//!
//! The tests are in `base_tests`.
#![tactic(auto)]

pub mod examples;
mod model;
mod script;
mod study;

pub use model::model_text;
pub use script::script_text;
pub use study::{Made, generate};
