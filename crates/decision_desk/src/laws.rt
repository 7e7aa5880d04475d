//! The law that a late time stays settled. The contract is the law; there is nothing to run.
ghost use Rattle.net_model.specs.Net.{Net};
ghost use Rattle.decision_desk.specs.Laws.{LateIsSettled};

/// If `Desk::is_late` returned a front, each accepted set or end at that time or earlier precedes that front in the
/// journal. The pass's account records the front, so the journal that `Desk::close` returns has it.
pub fn late_is_settled()
    ensures settled { (net : Net) → LateIsSettled net }
{}
