//! The law of journal texts: the function's contract is the law, and there is nothing to run.
ghost use Rattle.net_model.specs.Net.{Net};
ghost use Rattle.journal_text.specs.Laws.{JournalReadsAsScript};

/// The lines of a right journal's calls and fronts, without comments, are read as a script. It has the accepted
/// decisions in order, each by the analyst who made it. All of them are accepted at front 0, and lead to the same
/// clones as the journal.
#[tactic(auto, using(crate::proofs::ReadsAsScript::journal_reads_as_script))]
pub fn journals_read_as_scripts()
    ensures { (net : Net) → JournalReadsAsScript net }
{}
