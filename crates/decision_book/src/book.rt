//! The book: the journal of decisions and fronts, and the resulting lists.
use crate::call::{Call, MAX_CALLS, Reply};
use crate::reply::{decide_by_table, is_full};
use net_model::Model;
use sim_base::{Decision, Lists, MAX_CLONES, MAX_DECISIONS, NoMemory, Reserved};
use std::alloc::Global;
use std::sync::Arc;

/// The journal of a simulation, calls and fronts together, and the lists of the clones after it.
#[derive(Drop)]
pub struct Book {
    alloc: Global,
    model: Arc<Model>,
    lists: Lists,
    calls: Reserved<Call>,
    fronts: Reserved<u64>,
    front: u64,
}

impl std::marker::Model for Book {
    ghost use Rattle.decision_book.specs.Books.{BookView, IsBookWithRoom, journal_of};

    ghost Value = { BookView };

    ghost view = { λ b. record { net = b.model.value; events = journal_of b.calls.items b.fronts.items } };

    ghost invariant = { λ b. IsBookWithRoom b.model.value b.lists b.calls b.fronts.items b.front };
}

impl Book {
    ghost use Rattle.std.specs.Prelude.{◌≡◌, ◌≢◌, ◌↔◌, ◌≤◌, ◌<◌, ◌++◌, ◌∷◌, [], length, OnOk, OnErr, IfOk};
    ghost use Rattle.decision_book.specs.declared.call.Reply.TheVariants.{Full};
    ghost use Rattle.decision_book.specs.declared.call.TheConstants.{MAX_CALLS};
    ghost use Rattle.decision_book.specs.Journal.{after, NewCall, call_of, calls_of, fronts_of, NewFront};
    ghost use Rattle.decision_book.specs.Books.{journal_of, IsCallUnlessFull};
    ghost use Rattle.decision_book.specs.Replies.{reply};
    ghost use Rattle.decision_book.specs.Right.{journal_with, IsRight};
    ghost use Rattle.decision_book.specs.Plans.{ArePlanned};
    ghost use Rattle.decision_book.specs.Scripts.{after_decision};

    /// A book with no calls and no fronts: the base clone alone, at front 0.
    ///
    /// Reserves the memory of all calls, clones and decisions, so that `decide` allocates nothing.
    pub fn begin(alloc: Global, model: Arc<Model>) -> Result<Book, NoMemory>
        ensures value { IfOk result (λ book. book ≡ record { net = model.value; events = [] }) }
    {
        let lists = Lists::with_room(alloc, MAX_CLONES, MAX_DECISIONS)?;
        let calls = Reserved::with_capacity(alloc, MAX_CALLS)?;
        // for its clause: the model is a network that keeps the rules
        let _horizon = model.horizon();
        Ok(Book {
            alloc,
            model,
            lists,
            calls,
            fronts: Reserved::new(alloc),
            front: 0,
        })
    }

    /// Makes a decision and returns the reply. The call is added to the journal, unless the reply is Full. Allocates
    /// nothing.
    #[tactic(auto, using(crate::proofs::Scripts::asking_is_after_decision))]
    pub fn decide(&mut self, caller: u32, d: Decision) -> Reply
        // the reply of the table
        ensures reply { result ≡ reply (after self.old.net self.old.events) d }
        // the journal has the call, unless the journal was full
        ensures journal { self.new ≡ record self.old {
          events = journal_with self.old.net self.old.events caller d;
        } }
        // and the situation is the one after the decision
        ensures next { after self.old.net self.new.events ≡ after_decision (after self.old.net self.old.events) d }
        // it is Full exactly if the journal holds as many calls as it may
        ensures full { (result ≡ Full) ↔ (MAX_CALLS ≤ length (calls_of self.old.events)) }
        // otherwise the call is the last entry
        ensures entry { result ≢ Full →
            self.new.events ≡ self.old.events ++ NewCall (call_of caller self.old.events d result) ∷ [] }
    {
        let calls = self.calls.len();
        let decided = decide_by_table(
            self.alloc,
            &self.model,
            &mut self.lists,
            self.front,
            calls,
            &d,
        );
        let Ok(reply) = decided else { unreachable!() };
        if !is_full(reply) {
            let call = Call {
                caller,
                fronts: self.fronts.len() as u32,
                decision: d,
                reply,
            };
            let Ok(()) = self.calls.extend(&[call]) else {
                unreachable!()
            };
        }
        reply
    }

    /// Makes a decision and returns the reply and the call, which is now the last entry of the journal. There is no
    /// call if the reply is Full. Allocates nothing.
    pub fn ask(&mut self, caller: u32, d: &Decision) -> (Reply, Option<Call>)
        ensures reply { result.0 ≡ reply (after self.old.net self.old.events) d.now }
        ensures call { IsCallUnlessFull self.old caller d.now result.0 result.1 self.new }
        ensures full { (result.0 ≡ Full) ↔ (MAX_CALLS ≤ length (calls_of self.old.events)) }
    {
        let fronts = self.fronts.len() as u32;
        let reply = self.decide(caller, *d);
        if is_full(reply) {
            return (reply, None);
        }
        let call = Call {
            caller,
            fronts,
            decision: *d,
            reply,
        };
        (reply, Some(call))
    }

    /// Raises the front. If out of memory, changes nothing.
    pub fn advance(&mut self, front: u64) -> Result<(), NoMemory>
        requires above { (after self.old.net self.old.events).front < front }
        requires within { front ≤ self.old.net.horizon }
        ensures ok { OnOk result (
            self.new ≡ record self.old { events = self.old.events ++ NewFront front ∷ [] }) }
        ensures err { OnErr result (self.new ≡ self.old) }
    {
        self.fronts.push(front)?;
        self.front = front;
        Ok(())
    }

    /// The model that the decisions are about.
    pub fn model(&self) -> &Model
        ensures value { result.now ≡ self.now.net }
    {
        &self.model
    }

    /// The last front, or 0.
    pub fn front(&self) -> u64
        ensures value { result ≡ (after self.now.net self.now.events).front }
        ensures within { result ≤ self.now.net.horizon }
        // each reply is that of the table after the events before it, and the fronts rise
        ensures right { IsRight self.now.net self.now.events }
    {
        self.front
    }

    /// The clones with their lists and ends, as they result from the accepted decisions.
    pub fn lists(&self) -> &Lists
        ensures value { result.now.clones ≡ (after self.now.net self.now.events).clones }
        ensures planned { ArePlanned self.now.net result.now.clones }
    {
        &self.lists
    }

    /// The calls, in order.
    pub fn calls(&self) -> &[Call]
        ensures value { result.now ≡ calls_of self.now.events }
        // the journal is the calls and the fronts merged
        ensures whole { self.now.events ≡ journal_of (calls_of self.now.events) (fronts_of self.now.events) }
    {
        self.calls.as_slice()
    }

    /// The fronts, in order.
    pub fn fronts(&self) -> &[u64]
        ensures value { result.now ≡ fronts_of self.now.events }
    {
        self.fronts.as_slice()
    }
}
