//! The laws of runs, applied to these stations. Each function's contract is a law of every network that keeps the rules
//! of a model, and there is nothing to run.
ghost use Rattle.net_model.specs.Net.{Net};
ghost use Rattle.net_model.specs.Rules.{IsNet};
ghost use Rattle.run_laws.specs.Handlers.{HandlesLawfully, SendsToStations, HandlesFreshly};
ghost use Rattle.run_laws.specs.Laws.{TraceRises, StateIsReplay, ReplayIsGood, EqualLogsEqualStates};
ghost use Rattle.stations.specs.Good.{IsGood, sender_of, number_of, next_number};
ghost use Rattle.stations.specs.Laws.{ReplayCounts, ReplaySuits, ReplayFits};
ghost use Rattle.stations.specs.Laws.{ReplayGoesOn, SendsNextNumbers, NumbersAreSmall, KeysAreSmall};
ghost use Rattle.stations.specs.Laws.{LogKeysAreSmall, JobsTakeTheLookahead};
ghost use Rattle.stations.specs.Runs.{simulation};

/// The stations meet the requirements of the laws of runs. Each keeps the invariant of its kind, sends later, and to
/// another station later by at least the lookahead. It sends only to existing stations, and numbers its messages.
pub fn stations_are_lawful()
    ensures lawful { (net : Net) → IsNet net → HandlesLawfully (simulation net) (IsGood net) }
    ensures to_stations { (net : Net) → IsNet net → SendsToStations (simulation net) (IsGood net) }
    ensures fresh { (net : Net) → IsNet net
        → HandlesFreshly (simulation net) (IsGood net) sender_of number_of next_number }
{}

/// The trace of a clone rises strictly by time, sender and number.
pub fn traces_rise()
    ensures { (net : Net) → IsNet net → TraceRises (simulation net) sender_of number_of }
{}

/// The state of a station is the replay of its log, so equal logs give equal states.
pub fn states_are_replays()
    ensures replay { (net : Net) → IsNet net → StateIsReplay (simulation net) }
    ensures equal { (net : Net) → IsNet net → EqualLogsEqualStates (simulation net) }
{}

/// The state that a log leads to from its station's opening is a good state of that station. Its count of handled
/// messages is the number of log entries, and each further entry adds one.
pub fn logs_are_replayed()
    ensures good { (net : Net) → IsNet net → ReplayIsGood (simulation net) (IsGood net) }
    ensures counted { (net : Net) → ReplayCounts net }
    ensures suits { (net : Net) → IsNet net → ReplaySuits net }
    ensures fits { (net : Net) → IsNet net → ReplayFits net }
    ensures goes_on { (net : Net) → ReplayGoesOn net }
{}

/// A station numbers its messages consecutively, at most `MAX_SENDS` for each message that it handles. So its numbers
/// stay below `MAX_SENDS` times (1 + the length of its log).
pub fn sends_are_numbered()
    ensures next { (net : Net) → IsNet net → SendsNextNumbers net }
    ensures small { (net : Net) → IsNet net → NumbersAreSmall net }
{}

/// If no log is beyond the limit, the sender and the number of every message of a run are small, handled or pending.
/// With a time below the horizon, a key then fits a 64-bit word.
pub fn keys_are_small()
    ensures all { (net : Net) → IsNet net → KeysAreSmall net }
    ensures logs { (net : Net) → IsNet net → LogKeysAreSmall net }
{}

/// A job takes at least the lookahead over any link, even one back to its own station.
pub fn jobs_take_the_lookahead()
    ensures later { (net : Net) → IsNet net → JobsTakeTheLookahead net }
{}
