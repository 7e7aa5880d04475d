//! The laws of link clocks and of rounds: each function's contract is a law, and there is nothing to run.
//!
//! `specs/RoundLaws.antt` states the laws.
ghost use Rattle.link_laws.specs.RoundLaws.{ClockRises, ClockIsLeast, ClockReachesHorizon, RoundsAreBounded};
ghost use Rattle.link_laws.specs.RoundLaws.{FirstDoneIsRounds, ClocksMakeRounds, RoundsGiveRuns, DueIsWaiting};
ghost use Rattle.link_laws.specs.RoundLaws.{FrontIsCut, SameCut, StandsAfterRound, RoundGivesLogs};
ghost use Rattle.link_laws.specs.RoundLaws.{HandledGrowsInRound, HandledIsFewInRound, OverIsBeyondInRound};
ghost use Rattle.link_laws.specs.RoundLaws.{CopiesAreLogsAtCut, RoundsAreEnough, WindowsAreRounds};
ghost use Rattle.link_laws.specs.WindowLaws.{WindowsGiveRuns, StandsAfterWindow, HandledGrows, HandledGrowsToLimit};
ghost use Rattle.link_laws.specs.WindowLaws.{HandledIsFew, OverIsBeyond, WindowsAddUp, RunAddsUp};

use run_laws::laws::Stations;

/// Clocks rise link by link to the horizon, in a bounded number of rounds.
pub fn clocks_reach_the_horizon<S, M, N, T: Stations<S, M, N>>()
    ensures rises { ClockRises T.sim }
    ensures least { ClockIsLeast T.sim }
    ensures at_horizon { ClockReachesHorizon T.sim T.good }
    ensures enough { RoundsAreEnough T.sim T.good }
    ensures at_most { RoundsAreBounded T.sim T.good }
    ensures rounds { FirstDoneIsRounds T.sim }
{}

/// In a round each station may run alone, from its time to its next one. Clocks make rounds, and so do windows.
pub fn rounds_give_runs<S, M, N, T: Stations<S, M, N>>()
    ensures clocks { ClocksMakeRounds T.sim T.good }
    ensures windows { WindowsAreRounds T.sim T.good }
    ensures alone { RoundsGiveRuns T.sim T.good }
    ensures due { DueIsWaiting T.sim }
{}

/// The copies of each station represent the clones from cut to cut.
pub fn copies_stand_at_cuts<S, M, N, K, T: Stations<S, M, N>>()
    ensures front { FrontIsCut K T.sim }
    ensures same { SameCut K T.sim }
    ensures round { StandsAfterRound K T.sim T.good }
    ensures logs { RoundGivesLogs K T.sim T.good }
{}

/// The messages that a round handles once, the clones over the limit, and the number of copies, by the logs alone.
pub fn rounds_gain<S, M, N, K, T: Stations<S, M, N>>()
    ensures grows { HandledGrowsInRound K T.sim T.good }
    ensures at_most { HandledIsFewInRound K T.sim T.good }
    ensures over { OverIsBeyondInRound K T.sim T.good }
    ensures copies { CopiesAreLogsAtCut K T.sim }
{}

/// In a window each station may run alone, and the copies of each station represent the clones after it. This follows
/// from the laws of rounds, since a window is a round. Library law, not used by `cloner`.
pub fn windows_follow<S, M, N, K, T: Stations<S, M, N>>()
    ensures alone { WindowsGiveRuns T.sim }
    ensures window { StandsAfterWindow K T.sim }
{}

/// The messages that a window handles once, the clones over the limit, and the sum of all windows of a run: the number
/// handled once. Library law, not used by `cloner`.
pub fn windows_gain<S, M, N, K, T: Stations<S, M, N>>()
    ensures grows { HandledGrows K T.sim }
    ensures to_limit { HandledGrowsToLimit K T.sim }
    ensures at_most { HandledIsFew K T.sim }
    ensures over { OverIsBeyond K T.sim }
    ensures windows { WindowsAddUp K T.sim }
    ensures run { RunAddsUp K T.sim }
{}
