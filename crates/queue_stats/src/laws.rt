//! The laws of queues in runs: each function's contract is a law, and there is nothing to run.
//!
//! `specs/Laws.antt` and `specs/Orders.antt` state them. `cloner` calls none of these functions, but the clauses of
//! `stats_of` rest on what they state.
ghost use Rattle.net_model.specs.Net.{Net};
ghost use Rattle.net_model.specs.Rules.{IsNet};
ghost use Rattle.queue_stats.specs.Laws.{LogsAreQueues, RunsKeepLindley, RunsKeepLittle};
ghost use Rattle.queue_stats.specs.Orders.{RunsEndVisitsInOrder, RunsServeInOrder};

/// The log of a server in any run is the history of a queue: each visitor has departed or is in the system.
pub fn logs_are_queues()
    ensures queues { (net : Net) → IsNet net → LogsAreQueues net }
{}

/// Every run keeps Little's law in its finite form. Until a parameter changes, a station of one server also keeps
/// Lindley's equation. If it serves by arrival, jobs depart in order of arrival, and the n-th visit ends at the n-th
/// departure. The service times in Lindley's equation are then the visits' own.
pub fn runs_keep_the_laws_of_queues()
    ensures little { (net : Net) → IsNet net → RunsKeepLittle net }
    ensures lindley { (net : Net) → IsNet net → RunsKeepLindley net }
    ensures order { (net : Net) → IsNet net → RunsServeInOrder net }
    ensures visits { (net : Net) → IsNet net → RunsEndVisitsInOrder net }
{}
