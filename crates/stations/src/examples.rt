//! Worked examples, computed by the checker from the definitions of a run alone.
//!
//! The models and the expected traces are in `specs/Examples/`, with log entries written like lines of a trace text.
//! Each function's contract is a theorem; there is nothing to run.
ghost use Rattle.std.specs.Prelude.{◌≡◌, [], ◌∷◌, Some, true, false, filter};
ghost use Rattle.std.specs.List.{list_all};
ghost use Rattle.sim_base.specs.Clones.{base};
ghost use Rattle.stations.specs.Runs.{trace_of, log_at, state_at, replay, window};
ghost use Rattle.stations.specs.Runs.{copies, handled_once, handled_alone, AreFronts, IsBeyond};
ghost use Rattle.stations.specs.Examples.OneDesk.{one_desk, one_desk_trace, fast, fast_trace, set_at_start, first_set};
ghost use Rattle.stations.specs.Examples.OneDesk.{brief, brief_trace, two_branches, short_logs, fast_desk, quick_desk};
ghost use Rattle.stations.specs.Examples.OneDesk.{quick_desk_trace, gate, desk, out};
ghost use Rattle.stations.specs.Examples.Draws.{drawn_gate, drawn_gate_trace};
ghost use Rattle.stations.specs.Examples.FullRoom.{three_sources, no_room_trace, more_servers, more_servers_trace};
ghost use Rattle.stations.specs.Examples.FullRoom.{desk as shared_desk, less, less_log};
ghost use Rattle.stations.specs.Examples.SeveralLinks.{several_links, several_links_trace};
ghost use Rattle.stations.specs.Examples.Routers.{fan_network, by_turn_trace, by_weights_trace};
ghost use Rattle.stations.specs.Examples.Routers.{lighter, lighter_trace, fan, slow};
ghost use Rattle.stations.specs.Examples.Changes.{answers, server_changes, server_answers};
ghost use Rattle.stations.specs.Examples.Changes.{delay_changes, delay_answers, weight_changes};
ghost use Rattle.stations.specs.Examples.Changes.{weight_answers, turn_answers, IsIgnored};
ghost use Rattle.stations.specs.Examples.{tick, job, done, set};
ghost use Rattle.sim_base.specs.declared.message.Param.TheVariants.{Service};
ghost use Rattle.stations.specs.Fitting.{fits_saved};
ghost use Rattle.stations.specs.Saving.{saved_of, restored};
ghost use Rattle.stations.specs.Examples.SavedStates.{gate_at_10, desk_at_10, out_at_10, sources_at_bounds};
ghost use Rattle.stations.specs.Examples.SavedStates.{unfit_sources, servers_at_bounds, unfit_servers, sinks_at_bounds};
ghost use Rattle.stations.specs.Examples.SavedStates.{unfit_sinks, routers_at_bounds, unfit_routers, delays_at_bounds};
ghost use Rattle.stations.specs.Examples.SavedStates.{unfit_delays};
ghost use Rattle.stations.specs.Examples.Classes.{two_classes, by_class_trace, by_arrival_trace};

/// A server serves one job at a time, and the next one waits.
pub fn one_job_at_a_time()
    ensures { trace_of one_desk base ≡ one_desk_trace }
{}

/// Faster service from a time on: a service that has already begun does not change.
pub fn faster_branch()
    ensures { trace_of one_desk fast ≡ fast_trace }
{}

/// Several messages of a station to itself, closer together than the lookahead.
pub fn several_self_messages()
    ensures { trace_of quick_desk base ≡ quick_desk_trace }
{}

/// Times between jobs are drawn from a range.
pub fn drawn_times()
    ensures { trace_of drawn_gate base ≡ drawn_gate_trace }
{}

/// A decision at time 0 is handled before everything else, and here changes nothing.
pub fn set_at_the_start()
    ensures { trace_of one_desk set_at_start ≡ first_set ∷ one_desk_trace }
{}

/// Three jobs arrive at the same time at a server without a waiting line: two are lost.
pub fn full_waiting_room()
    ensures { trace_of (three_sources 0) base ≡ no_room_trace }
{}

/// Three jobs arrive at the same time; when servers are added, the waiting jobs are served.
pub fn servers_are_added()
    ensures { trace_of (three_sources 5) more_servers ≡ more_servers_trace }
{}

/// Fewer servers end no service, and a smaller room turns no waiting job away.
pub fn fewer_servers_and_less_room()
    ensures { log_at (three_sources 5) less shared_desk 20 ≡ less_log }
{}

/// A router by turn, followed by a delay: after the last link the first is used again, and nothing is drawn.
pub fn router_by_turn()
    ensures trace { trace_of (fan_network true) base ≡ by_turn_trace }
    ensures drawn { (state_at (fan_network true) base fan 20).sender.draws.count ≡ 0 }
{}

/// A router by weights: a word is drawn for each job.
pub fn router_by_weights()
    ensures trace { trace_of (fan_network false) base ≡ by_weights_trace }
    ensures drawn { (state_at (fan_network false) base fan 20).sender.draws.count ≡ 3 }
{}

/// The weight of the first link is reduced: the jobs take the second.
pub fn weight_that_changes()
    ensures { trace_of (fan_network false) lighter ≡ lighter_trace }
{}

/// A source, a server and a delay that choose among several links: each draws its link before its time.
pub fn several_links_drawn_first()
    ensures { trace_of several_links base ≡ several_links_trace }
{}

/// A server takes jobs of a lesser class first.
pub fn priority_classes()
    ensures { trace_of (two_classes true) base ≡ by_class_trace }
{}

/// The same network with the waiting line served in the order of arrival.
pub fn classes_by_arrival()
    ensures { trace_of (two_classes false) base ≡ by_arrival_trace }
{}

/// A clone handles nothing at its end or later.
pub fn a_clone_that_ends()
    ensures { trace_of one_desk brief ≡ brief_trace }
{}

/// The changes that stations accept, and the reasons for refusing the others.
pub fn changes_that_stations_take()
    ensures server { answers one_desk desk server_changes ≡ server_answers }
    ensures delay { answers (fan_network true) 3 delay_changes ≡ delay_answers }
    ensures by_weights { answers (fan_network false) 2 weight_changes ≡ weight_answers }
    ensures by_turn { answers (fan_network true) 2 weight_changes ≡ turn_answers }
{}

/// Messages that a station's kind does not handle change only its count of messages.
pub fn messages_that_stations_ignore()
    ensures job_at_source { IsIgnored one_desk gate (job gate 0 3) }
    ensures tick_at_server { IsIgnored one_desk desk tick }
    ensures done_while_idle { IsIgnored one_desk desk (done gate 0 3) }
    ensures refused_set { IsIgnored one_desk desk (set Service 5 4) }
    ensures done_at_delay { IsIgnored (fan_network true) 3 (done gate 0 3) }
    ensures done_at_router { IsIgnored (fan_network true) 2 (done gate 0 3) }
    ensures set_at_sink { IsIgnored one_desk out (set Service 2 2) }
{}

/// A station alone, window after window, reaches the logs and states of the run.
pub fn windows_of_one_station()
    ensures first_log { (window one_desk base desk 5 7).at.log ≡ log_at one_desk base desk 7 }
    ensures first_state { (window one_desk base desk 5 7).at.state ≡ state_at one_desk base desk 7 }
    ensures third_log { (window one_desk fast desk 10 13).at.log ≡ log_at one_desk fast desk 13 }
    ensures ended_log { (window one_desk brief desk 7 10).at.log ≡ log_at one_desk brief desk 20 }
{}

/// The state of a station is the replay of its log.
pub fn replayed_state()
    ensures reached { state_at one_desk fast desk 20 ≡ fast_desk }
    ensures replayed { replay one_desk desk (log_at one_desk fast desk 20) ≡ fast_desk }
{}

/// The desk's log has four entries and is beyond a limit of three; the gate's has two and is not.
pub fn beyond_the_limit()
    ensures desk { IsBeyond short_logs desk 20 base }
    ensures gate { ¬ (IsBeyond short_logs gate 20 base) }
{}

/// The windows of the two branches: the same fronts for one of them and for both.
pub fn fronts_of_two_branches()
    ensures alone { AreFronts one_desk (base ∷ []) 0 (5 ∷ 7 ∷ 10 ∷ 13 ∷ 15 ∷ 17 ∷ 20 ∷ []) }
    ensures both { AreFronts one_desk two_branches 0 (5 ∷ 7 ∷ 10 ∷ 13 ∷ 15 ∷ 17 ∷ 20 ∷ []) }
    ensures quick { AreFronts quick_desk (base ∷ []) 0 (6 ∷ 11 ∷ 17 ∷ 30 ∷ []) }
{}

/// What the two branches have in common at the horizon: copies, messages handled once and alone.
pub fn report_of_two_branches()
    ensures gate_copies { copies one_desk two_branches gate 20 ≡ 1 }
    ensures gate_handled { handled_once one_desk two_branches gate 20 ≡ 2 }
    ensures gate_alone { handled_alone one_desk two_branches gate 20 ≡ 4 }
    ensures desk_copies { copies one_desk two_branches desk 20 ≡ 2 }
    ensures desk_handled { handled_once one_desk two_branches desk 20 ≡ 8 }
    ensures desk_alone { handled_alone one_desk two_branches desk 20 ≡ 9 }
    ensures out_copies { copies one_desk two_branches out 20 ≡ 2 }
    ensures out_handled { handled_once one_desk two_branches out 20 ≡ 3 }
    ensures out_alone { handled_alone one_desk two_branches out 20 ≡ 4 }
{}

/// The states of the three stations at 10 as plain data, and restored from it.
pub fn states_as_plain_data()
    ensures gate { saved_of (state_at one_desk base gate 10) ≡ gate_at_10 }
    ensures desk { saved_of (state_at one_desk base desk 10) ≡ desk_at_10 }
    ensures out { saved_of (state_at one_desk base out 10) ≡ out_at_10 }
    ensures gate_again { restored one_desk gate gate_at_10 ≡ Some (state_at one_desk base gate 10) }
    ensures desk_again { restored one_desk desk desk_at_10 ≡ Some (state_at one_desk base desk 10) }
    ensures out_again { restored one_desk out out_at_10 ≡ Some (state_at one_desk base out 10) }
{}

/// Plain data at the bounds that fit a station.
pub fn data_at_the_bounds()
    ensures sources { list_all (fits_saved one_desk gate) sources_at_bounds ≡ true }
    ensures servers { list_all (fits_saved one_desk desk) servers_at_bounds ≡ true }
    ensures sinks { list_all (fits_saved one_desk out) sinks_at_bounds ≡ true }
    ensures routers { list_all (fits_saved (fan_network true) fan) routers_at_bounds ≡ true }
    ensures delays { list_all (fits_saved (fan_network true) slow) delays_at_bounds ≡ true }
{}

/// Plain data that breaks one bound, row by row: none of it fits.
pub fn data_beyond_the_bounds()
    ensures sources { filter (fits_saved one_desk gate) unfit_sources ≡ [] }
    ensures servers { filter (fits_saved one_desk desk) unfit_servers ≡ [] }
    ensures sinks { filter (fits_saved one_desk out) unfit_sinks ≡ [] }
    ensures routers { filter (fits_saved (fan_network true) fan) unfit_routers ≡ [] }
    ensures delays { filter (fits_saved (fan_network true) slow) unfit_delays ≡ [] }
{}
