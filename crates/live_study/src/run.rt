//! What a live study leaves: its journal, its looks, and the world at the horizon (the stop time).
use decision_desk::LegalBook;
use journal_text::Looked;
use sim_base::Reserved;
use study_run::StudyFault;
use world_core::World;

/// What a live study leaves.
#[derive(Drop)]
pub struct LiveRun {
    /// The book of its journal.
    pub book: LegalBook,
    /// What each analyst saw at its looks.
    pub looks: Vec<Reserved<Looked>>,
    /// The world at the horizon, or why there is none.
    pub run: Result<World, StudyFault>,
}
