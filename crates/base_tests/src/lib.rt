//! The tests of the crates below the engine, and of the texts. The library is empty.
//!
//! A crate's tests are proved together with the crate, so a crate with tests is proved twice. The tests of these crates
//! are here, so both the tests and the crates are proved once. Each module tests one crate by its public items:
//!
//! ```text
//! sim_base_lists, sim_base_messages, sim_base_pending    sim_base
//! packed_limits                                          msg_heap and log_chain
//! clone_sets_tests         log_chain_tests          sim_outer_tests
//! copy_pending_tests       msg_heap_tests           solo_run_tests
//! decision_book_tests      msg_route_tests          stations_tests
//! decision_script_tests    net_model_tests          study_generator_tests
//! journal_text_tests       trace_report_tests       trace_writer_tests
//! phys_proc_tests          phys_proc: the lists of sent messages
//! ```
//!
//! `counts` and `lines` test no crate. Five modules write their tables with `counts`, and two read their decisions
//! with `lines`.
//!
//! They show what is not proved: that calls find memory, and that contracts mean what they should, against values
//! computed by hand. A table has a row for each case. A row has the text or the decision first, and then the result, as
//! the number, the place and the key of a refusal. So a row reads: *this change to the small model is refused with this
//! number*.
#![tactic(auto)]

#[cfg(test)]
mod clone_sets_tests;
#[cfg(test)]
mod copy_pending_tests;
#[cfg(test)]
mod counts;
#[cfg(test)]
mod decision_book_tests;
#[cfg(test)]
mod decision_script_tests;
#[cfg(test)]
mod journal_text_tests;
#[cfg(test)]
mod lines;
#[cfg(test)]
mod log_chain_tests;
#[cfg(test)]
mod msg_heap_tests;
#[cfg(test)]
mod msg_route_tests;
#[cfg(test)]
mod net_model_tests;
#[cfg(test)]
mod packed_limits;
#[cfg(test)]
mod phys_proc_tests;
#[cfg(test)]
mod sim_base_lists;
#[cfg(test)]
mod sim_base_messages;
#[cfg(test)]
mod sim_base_pending;
#[cfg(test)]
mod sim_outer_tests;
#[cfg(test)]
mod solo_run_tests;
#[cfg(test)]
mod stations_tests;
#[cfg(test)]
mod study_generator_tests;
#[cfg(test)]
mod trace_report_tests;
#[cfg(test)]
mod trace_writer_tests;
