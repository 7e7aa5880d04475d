//! Laws of the limit and of the report: each function's contract is a law, and there is nothing to run.
//!
//! `specs/Laws.antt` states the laws.
ghost use Rattle.study_run.specs.Accepted.{AcceptedIsTaken};
ghost use Rattle.study_run.specs.Laws.{FullIsFound, FullIsLonger, FullIsOne, MeetingIsFound};
ghost use Rattle.study_run.specs.Laws.{MeetingIsOne, NotWithinAndMet, NotWithinAndMetAlone, TotalIsFew};
ghost use Rattle.study_run.specs.Laws.{TotalIsOfReport, WithinIsNotFound, WithinIsNotFull, WithinOrMet};
ghost use Rattle.study_run.specs.Laws.{WithinOrMetAlone};

/// The station and clone at which a run of clones meets the limit: there is at most one, and there is one exactly if
/// some log of the whole run is longer.
pub fn limit_is_met_once()
    ensures one { MeetingIsOne }
    ensures found { MeetingIsFound }
    ensures within { WithinIsNotFound }
    ensures either { WithinOrMet }
    ensures not_both { NotWithinAndMet }
{}

/// The station at which one clone's trace meets the limit.
pub fn first_full_log()
    ensures one { FullIsOne }
    ensures found { FullIsFound }
    ensures longer { FullIsLonger }
    ensures within { WithinIsNotFull }
    ensures either { WithinOrMetAlone }
    ensures not_both { NotWithinAndMetAlone }
{}

/// The total of the report is the number of messages handled once, and is no more than the limit allows.
#[tactic(auto, using(crate::proofs::Reports::total_is_of_report, crate::proofs::Reports::total_is_few))]
pub fn report_has_the_total()
    ensures total { TotalIsOfReport }
    ensures at_most { TotalIsFew }
{}

/// A world may take at front 0 what a right journal without fronts accepted.
#[tactic(auto, using(crate::proofs::Accepting::accepted_is_taken))]
pub fn accepted_calls_are_taken()
    ensures { AcceptedIsTaken }
{}
