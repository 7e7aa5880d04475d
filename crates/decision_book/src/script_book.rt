//! The book of a script: its decisions are all made at front 0, before the simulation begins.

use crate::call::{Call, Reply};
use crate::reply::{decide_by_table, is_full};
use net_model::Model;
use sim_base::{Decision, Lists, NoMemory};
use std::alloc::Global;
use std::sync::Arc;

/// A journal without fronts, and the lists of the clones after it. It reserves no memory: a decision may run out of it.
#[derive(Drop)]
pub struct ScriptBook {
    alloc: Global,
    model: Arc<Model>,
    lists: Lists,
    calls: Vec<Call>,
}

impl std::marker::Model for ScriptBook {
    ghost use Rattle.std.specs.Prelude.{[]};
    ghost use Rattle.decision_book.specs.Books.{BookView, IsBook, journal_of};

    ghost Value = { BookView };

    ghost view = { λ b. record { net = b.model.value; events = journal_of b.calls.items [] } };

    ghost invariant = { λ b. IsBook b.model.value b.lists.clones b.calls.items [] 0 };
}

impl ScriptBook {
    ghost use Rattle.std.specs.Prelude.{◌≡◌, ◌≢◌, ◌↔◌, ◌≤◌, ◌++◌, ◌∷◌, [], length, OnOk, OnErr, IfOk};
    ghost use Rattle.decision_book.specs.declared.call.Reply.TheVariants.{Full};
    ghost use Rattle.decision_book.specs.declared.call.TheConstants.{MAX_CALLS};
    ghost use Rattle.decision_book.specs.Journal.{after, NewCall, call_of, calls_of, fronts_of};
    ghost use Rattle.decision_book.specs.Books.{journal_of};
    ghost use Rattle.decision_book.specs.Replies.{reply};
    ghost use Rattle.decision_book.specs.Right.{journal_with};
    ghost use Rattle.decision_book.specs.Plans.{ArePlanned};
    ghost use Rattle.decision_book.specs.Scripts.{after_decision};

    /// A book with no calls: the base clone alone. Reserves nothing.
    pub fn begin(alloc: Global, model: Arc<Model>) -> Result<ScriptBook, NoMemory>
        ensures value { IfOk result (λ book. book ≡ record { net = model.value; events = [] }) }
    {
        let lists = Lists::new(alloc)?;
        // for its clause: the model is a network that keeps the rules
        let _horizon = model.horizon();
        Ok(ScriptBook {
            alloc,
            model,
            lists,
            calls: Vec::new(alloc),
        })
    }

    /// Makes a decision and returns the reply. The call is added to the journal, unless the reply is Full. If out of
    /// memory, changes nothing.
    #[tactic(auto, using(crate::proofs::Scripts::asking_is_after_decision))]
    pub fn decide(&mut self, caller: u32, d: Decision) -> Result<Reply, NoMemory>
        // the reply of the table
        ensures reply { IfOk result (λ r. r ≡ reply (after self.old.net self.old.events) d) }
        // the journal has the call, unless the journal was full
        ensures journal { OnOk result (self.new ≡ record self.old {
          events = journal_with self.old.net self.old.events caller d;
        }) }
        // and the situation is the one after the decision
        ensures next { OnOk result (after self.old.net self.new.events
            ≡ after_decision (after self.old.net self.old.events) d) }
        // it is Full exactly if the journal holds as many calls as it may
        ensures full { IfOk result (λ r. (r ≡ Full) ↔ (MAX_CALLS ≤ length (calls_of self.old.events))) }
        // otherwise the call is the last entry
        ensures entry { IfOk result (λ r. r ≢ Full →
            self.new.events ≡ self.old.events ++ NewCall (call_of caller self.old.events d r) ∷ []) }
        ensures err { OnErr result (self.new ≡ self.old) }
    {
        let calls = self.calls.len();
        self.calls.reserve(1)?;
        let reply = decide_by_table(self.alloc, &self.model, &mut self.lists, 0, calls, &d)?;
        if !is_full(reply) {
            self.calls.push_reserved(Call {
                caller,
                fronts: 0,
                decision: d,
                reply,
            });
        }
        Ok(reply)
    }

    /// The clones with their lists and ends, as they result from the accepted decisions.
    pub fn lists(&self) -> &Lists
        ensures value { result.now.clones ≡ (after self.now.net self.now.events).clones }
        ensures planned { ArePlanned self.now.net result.now.clones }
    {
        &self.lists
    }

    /// The calls, in order.
    pub fn calls(&self) -> &[Call]
        ensures value { result.now ≡ calls_of self.now.events }
        // the journal is the calls and the fronts merged
        ensures whole { self.now.events ≡ journal_of (calls_of self.now.events) (fronts_of self.now.events) }
    {
        self.calls.as_slice()
    }
}
