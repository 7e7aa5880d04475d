//! The law that later decisions change no past, so looks stay true: the contract is the law, there is nothing to run.
ghost use Rattle.net_model.specs.Net.{Net};
ghost use Rattle.net_model.specs.Rules.{IsNet};
ghost use Rattle.live_study.specs.Laws.{GlancesStayTrue, LogsStay, LooksStayTrue};

/// Calls after a front change no log before it: a later set or end has a time from the front on, and a later fork
/// begins as its origin. So what a look reports is true of the clones that the journal leaves. It is also true of all
/// clones that come from those of its rack by decisions accepted from its front on.
pub fn looks_stay_true()
    ensures logs { (net : Net) → IsNet net → LogsStay net }
    ensures looks { (net : Net) → IsNet net → LooksStayTrue net }
    ensures glances { (net : Net) → IsNet net → GlancesStayTrue net }
{}
