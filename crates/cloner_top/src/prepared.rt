//! Studies that are ready to run.
ghost use Rattle.std.specs.Prelude.{◌≡◌};

use checkpoint::Snapshot;
use command_words::Mode;
use decision_book::ScriptBook;
use decision_script::Script;
use net_model::Model;
use std::sync::Arc;
use watch_points::Watches;

/// A model and a script whose analysts decide while the study runs.
#[derive(Drop)]
pub(crate) struct Study {
    pub(crate) model: Arc<Model>,
    pub(crate) script: Script,
}

/// A model, and a book over it with the accepted decisions.
#[derive(Drop)]
pub(crate) struct Plan {
    pub(crate) model: Arc<Model>,
    pub(crate) book: ScriptBook,
    ghost net_is: { book.net ≡ model.value },
}

/// A plan, and the mode in which to run it.
#[derive(Drop)]
pub(crate) struct Decided {
    pub(crate) mode: Mode,
    pub(crate) plan: Plan,
}

/// A plan, and watches that fit its clones.
#[derive(Drop)]
pub(crate) struct Watching {
    pub(crate) plan: Plan,
    pub(crate) watches: Watches,
}

/// A model, and a snapshot of a run of it.
#[derive(Drop)]
pub(crate) struct Resuming {
    pub(crate) model: Arc<Model>,
    pub(crate) snapshot: Snapshot,
}

/// A study that is ready to run: its texts are read, and no message is handled yet.
#[derive(Drop)]
pub(crate) enum Prepared {
    /// All decisions are made.
    Decided(Decided),
    /// Analysts decide while the study runs.
    Undecided(Study),
    /// All decisions are made; watches create branches while the study runs.
    Watching(Watching),
    /// One clone's run goes on from a snapshot.
    Resuming(Resuming),
}
