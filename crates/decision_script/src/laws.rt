//! The laws of scripts: each function's contract is a law, and there is nothing to run.
ghost use Rattle.decision_script.specs.Alone.{AloneIsOfDecisions};
ghost use Rattle.decision_script.specs.Laws.{CanonicalTextReadsAgain};

/// The canonical text of every script is read as that script, except for the line numbers.
#[tactic(auto, using(crate::proofs::ReadsAgain::canonical_text_reads_again))]
pub fn reads_again()
    ensures value { CanonicalTextReadsAgain }
{}

/// The decisions of a clone's own script are those of the whole script that reach the clone.
#[tactic(auto, using(crate::proofs::OwnDecisions::decisions_of_alone))]
pub fn alone_is_of_decisions()
    ensures value { AloneIsOfDecisions }
{}
