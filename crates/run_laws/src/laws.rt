//! The laws of machines and of runs: each function's contract is a law, and there is nothing to run.
//!
//! `specs/*Laws.antt` and `specs/Numbers.antt` state the laws, `specs/Handlers.antt` their requirements on a
//! simulation.
ghost use Rattle.std.specs.Prelude.{ℕ, List};
ghost use Rattle.std.specs.declared.cmp.Ordering.{Ordering as Order};
ghost use Rattle.run_laws.specs.Simulation.{Simulation};
ghost use Rattle.run_laws.specs.Handlers.{IsTimed, IsLawful, HandlesLawfully, SendsToStations, HandlesFreshly};
ghost use Rattle.run_laws.specs.Laws.{RunIsReached, RunIsDetermined, RunGoesOn, LateMessageStaysPending};
ghost use Rattle.run_laws.specs.Laws.{TraceRises, NumbersAreOnce, DueIsForStations, StateIsReplay};
ghost use Rattle.run_laws.specs.Laws.{ReplayIsGood, EqualLogsEqualStates, LogAtFront, DecisionAddsDue};
ghost use Rattle.run_laws.specs.Laws.{EndDropsDue};
ghost use Rattle.run_laws.specs.StepLaws.{SettledCopyStays, FullCopyGoesOver, SharedMessageIsHandledOnce};
ghost use Rattle.run_laws.specs.StepLaws.{MessageOfNoneIsPassedOver, CopySplits, StepTakesCopies};
ghost use Rattle.run_laws.specs.StepLaws.{StepGivesWindows, StepFindsThoseOver, CopiesGainTogether};
ghost use Rattle.run_laws.specs.StepLaws.{NothingIsGiven, MessageIsGiven, GivenIsDelivered};
ghost use Rattle.run_laws.specs.Numbers.{EntriesAreApart};
ghost use Rattle.run_laws.specs.TraceLaws.{TraceIsOfLogs, TraceIsMerge};
ghost use Rattle.run_laws.specs.FrontLaws.{FrontIsFar, FrontRises, FrontsRise, FrontsGoOn};
ghost use Rattle.run_laws.specs.FrontLaws.{FrontsAreOne, LeastIsOfStations, LeastAtDecision, LeastAtEnd};
ghost use Rattle.run_laws.specs.FrontLaws.{LeastAtFork, FrontStaysAtFork, LeastIsOfCopies};
ghost use Rattle.run_laws.specs.MarkLaws.{HalfTakesTheSame, HalfKeepsItsMarks, ForkTakesAsItsOrigin};
ghost use Rattle.run_laws.specs.CountLaws.{CountsAreFew, NothingIsHandledAtFirst, HandledStaysAtDecision};
ghost use Rattle.run_laws.specs.CountLaws.{HandledStaysAtEnd, HandledStaysAtFork, CopiesAreLogs, CopyGainsFew};
ghost use Rattle.run_laws.specs.CountLaws.{CopiesGainFew, AloneIsOfCopies, ClonesAreOfCopies};
ghost use Rattle.run_laws.specs.CountLaws.{CopyIsClass};
ghost use Rattle.run_laws.specs.CopyLaws.{StandsAtStart, StandsAfterDecision};
ghost use Rattle.run_laws.specs.CopyLaws.{StandsAfterOtherDecision, StandsAfterEnd, StandsAfterFork};
ghost use Rattle.run_laws.specs.StepLaws.{LateCopyIsSettled};

/// A machine that stays in good states, and whose sends come later than the message it handles.
pub trait Machine<X, M> {
    ghost order: { M → M → Order };

    ghost time: { M → ℕ };

    ghost handle: { X → M → X × List M };

    ghost good: { X → Type 0 };

    ghost timed: { IsTimed order time };

    ghost lawful: { IsLawful time handle good };
}

/// A simulation whose stations stay in good states and send later, and to each other later by at least the lookahead.
pub trait Stations<S, M, N> {
    ghost sim: { Simulation S M N };

    ghost good: { ℕ → S → Type 0 };

    ghost lawful: { HandlesLawfully sim good };

    ghost to_stations: { SendsToStations sim good };
}

/// A simulation whose stations number their messages.
pub trait NumberingStations<S, M, N>: Stations<S, M, N> {
    ghost sender: { M → ℕ };

    ghost number: { M → ℕ };

    ghost next: { S → ℕ };

    ghost fresh: { HandlesFreshly Self.sim Self.good sender number next };
}

/// The turns lead to exactly the run, and a run to one front continues to each later one.
pub fn turns_make_the_run<X, M, T: Machine<X, M>>()
    ensures reached { RunIsReached T.order T.time T.handle T.good }
    ensures determined { RunIsDetermined T.order T.time T.handle T.good }
    ensures goes_on { RunGoesOn T.order T.time T.handle T.good }
    ensures late { LateMessageStaysPending T.order T.time T.handle T.good }
{}

/// A trace rises strictly, no sequence number is used twice, and every due message is for a station.
pub fn traces_rise<S, M, N, T: NumberingStations<S, M, N>>()
    ensures rises { TraceRises T.sim T.sender T.number }
    ensures once { NumbersAreOnce T.sim T.sender T.number }
    ensures entries { EntriesAreApart T.sim T.sender T.number }
    ensures for_stations { DueIsForStations T.sim }
{}

/// A trace is the merge of the stations' logs, in the order of messages.
pub fn logs_make_the_trace<S, M, N, T: NumberingStations<S, M, N>>()
    ensures of_logs { TraceIsOfLogs T.sim T.sender T.number }
    ensures merge { TraceIsMerge T.sim T.sender T.number }
{}

/// A station's log determines its state, and its log at each earlier front.
pub fn logs_tell_states<S, M, N, T: Stations<S, M, N>>()
    ensures replay { StateIsReplay T.sim }
    ensures good { ReplayIsGood T.sim T.good }
    ensures equal { EqualLogsEqualStates T.sim }
    ensures at_front { LogAtFront T.sim }
{}

/// The changes that a decision or an end at or after a front makes there.
pub fn decisions_change_what_is_due<S, M, N, T: Stations<S, M, N>>()
    ensures decision { DecisionAddsDue T.sim }
    ensures ending { EndDropsDue T.sim }
{}

/// From front to front (window boundaries) a run reaches the horizon, and ends there.
pub fn fronts_reach_the_horizon<S, M, N, T: Stations<S, M, N>>()
    ensures far { FrontIsFar T.sim }
    ensures rises { FrontRises T.sim }
    ensures to_horizon { FrontsRise T.sim }
    ensures go_on { FrontsGoOn T.sim }
    ensures one_list { FrontsAreOne T.sim }
{}

/// The least due time: of a clone, by its stations and after each change of it; and of all clones, by the copies.
pub fn least_times_are_of_stations<S, M, N, K, T: Stations<S, M, N>>()
    ensures stations { LeastIsOfStations T.sim }
    ensures decision { LeastAtDecision T.sim }
    ensures ending { LeastAtEnd T.sim }
    ensures forking { LeastAtFork T.sim }
    ensures front_at_fork { FrontStaysAtFork T.sim }
    ensures copies { LeastIsOfCopies K T.sim }
{}

/// The results of a step of a station's copies up to a bound, message by message and copy by copy. They equal the
/// clones' own windows.
pub fn steps_give_windows<S, M, N, K, T: Stations<S, M, N>>()
    ensures late { LateCopyIsSettled K T.sim T.good }
    ensures settled { SettledCopyStays K T.sim T.good }
    ensures full { FullCopyGoesOver K T.sim T.good }
    ensures shared { SharedMessageIsHandledOnce K T.sim T.good }
    ensures passed { MessageOfNoneIsPassedOver K T.sim T.good }
    ensures splits { CopySplits K T.sim T.good }
    ensures copies { StepTakesCopies K T.sim T.good }
    ensures windows { StepGivesWindows K T.sim T.good }
    ensures over { StepFindsThoseOver K T.sim T.good }
    ensures gains { CopiesGainTogether K T.sim T.good }
{}

/// Messages that are cut to a half or spread to a fork are taken as before.
pub fn halves_and_forks_take_the_same<S, M, N, K, T: Stations<S, M, N>>()
    ensures half { HalfTakesTheSame K T.sim }
    ensures half_marks { HalfKeepsItsMarks K T.sim }
    ensures fork { ForkTakesAsItsOrigin K T.sim }
{}

/// The messages sent to a station are given to its copies one by one; then they are delivered.
pub fn messages_are_delivered<S, M, N, K, T: Stations<S, M, N>>()
    ensures nothing { NothingIsGiven K T.sim }
    ensures message { MessageIsGiven K T.sim }
    ensures delivered { GivenIsDelivered K T.sim }
{}

/// From the start on, through decisions, ends and forks, a station's copies represent the clones.
pub fn copies_stand_for_clones<S, M, N, K, T: Stations<S, M, N>>()
    ensures start { StandsAtStart K T.sim }
    ensures decision { StandsAfterDecision K T.sim }
    ensures other_decision { StandsAfterOtherDecision K T.sim }
    ensures ending { StandsAfterEnd K T.sim }
    ensures forking { StandsAfterFork K T.sim }
{}

/// There are as many copies as different logs.
pub fn counts_are_of_logs<S, M, N, K, T: Stations<S, M, N>>()
    ensures copies { CopiesAreLogs K T.sim }
{}

/// The number handled once is 0 at the start. A decision, an end or a fork does not change it.
pub fn handled_once_stays<S, M, N, T: Stations<S, M, N>>()
    ensures first { NothingIsHandledAtFirst T.sim }
    ensures decision { HandledStaysAtDecision T.sim }
    ensures ending { HandledStaysAtEnd T.sim }
    ensures forking { HandledStaysAtFork T.sim }
{}

/// A copy gains at most the limit for each of its clones, and so do several copies.
pub fn gains_are_few<S, M, N, K, T: Stations<S, M, N>>()
    ensures copy { CopyGainsFew K T.sim T.good }
    ensures copies { CopiesGainFew K T.sim T.good }
{}

/// If no log is beyond the limit, the counts of a report are bounded.
pub fn counts_are_few<S, M, N, T: Stations<S, M, N>>()
    ensures at_most { CountsAreFew T.sim }
{}

/// From the copies: the number handled alone, the number of clones, and which clones share a log.
pub fn counts_are_of_copies<S, M, N, K, T: Stations<S, M, N>>()
    ensures alone { AloneIsOfCopies K T.sim }
    ensures clones { ClonesAreOfCopies K T.sim }
    ensures class { CopyIsClass K T.sim }
{}
