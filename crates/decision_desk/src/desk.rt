//! The desk: a book of decisions that threads share.
ghost use Rattle.std.specs.Prelude.{◌≡◌, ℕ, ◌+◌, ◌-◌, ◌<◌, ◌≤◌, ◌++◌, ◌∷◌, []};
ghost use Rattle.std.specs.Prelude.{List, All, Some, length, map, IfOk, OnOk, OnErr};
ghost use mathlib.Core.List.{IsPrefix};
ghost use Rattle.decision_book.specs.Journal.{Event, front_of};
ghost use Rattle.decision_desk.specs.declared.desk.TheConstants.{MAX_PARTS, MAX_PASSES};
ghost use Rattle.decision_desk.specs.Turns.{IsDeskTable, new_account};
ghost use Rattle.decision_desk.specs.Passes.{IsAsked, IsFinalBook, late_front, pass_after_look, new_passes, new_helm};

use crate::helm::Helm;
use crate::legal::LegalBook;
use crate::pass::{Pass, Receipt, decide_in_turn};
use crate::turns::{DeskRule, Share, look_at_front};
use crate::view::View;
use atomic_table::{Refused, Table};
use decision_book::MAX_CALLS;
use net_model::Model;
use sim_base::limits::MAX_ANALYSTS;
use sim_base::{Decision, NoMemory, Reserved};
use std::alloc::Global;
use std::sync::{Arc, Wait};

/// The maximum number of passes of a desk, one for each analyst.
pub const MAX_PASSES: u32 = MAX_ANALYSTS;

/// The parts of the right to close a desk: one for each pass, and the helm's own. The helm begins with all of them.
pub const MAX_PARTS: u32 = MAX_PASSES + 1;

/// The desk: the book that threads share.
#[derive(Drop)]
pub struct Desk {
    /// The words of the turns, and the slot of the book.
    pub(crate) table: Table<Option<LegalBook>, View, Model, DeskRule, Global>,
    pub ghost sized: { IsDeskTable table.shared.table_id },
}

impl Desk {
    ghost use Rattle.decision_desk.specs.Desks.{desk_id};

    /// Opens a desk with an empty book. Returns a pass for each analyst, with memory reserved for all its receipts, and
    /// the helm.
    pub fn begin(
        alloc: Global,
        model: Arc<Model>,
        analysts: u32,
    ) -> Result<(Desk, Vec<Pass>, Helm), NoMemory>
        requires at_least { 1 ≤ analysts }
        requires at_most { analysts ≤ MAX_PASSES }
        ensures passes { IfOk result (λ r. r.1.items ≡ new_passes (desk_id r.0) model.value analysts) }
        ensures helm { IfOk result (λ r. r.2 ≡ new_helm (desk_id r.0) model.value analysts) }
    {
        let (desk, mut helm) = Desk::open(alloc, model)?;
        let mut passes = Vec::with_capacity(alloc, analysts as usize)?;
        for _i in 0..analysts {
            let pass = desk.make_pass(alloc, &mut helm)?;
            passes.push(pass)?;
        }
        Ok((desk, passes, helm))
    }

    // A desk with an empty book, and no passes.
    fn open(alloc: Global, model: Arc<Model>) -> Result<(Desk, Helm), NoMemory>
        ensures value { IfOk result (λ r. r.1 ≡ new_helm (desk_id r.0) model.value 0) }
    {
        let mut slots = Vec::with_capacity(alloc, 1)?;
        let about = Arc::try_clone(&model)?;
        let book = LegalBook::begin(alloc, model)?;
        slots.push_reserved(Some(book));
        match Table::new(alloc, &[0, 0, 0, 0], slots, &*about) {
            Ok((table, seat)) => Ok((
                Desk { table },
                Helm {
                    seat,
                    made: 0,
                    known: 0,
                    front: 0,
                },
            )),
            Err(Refused { slots: _ }) => Err(NoMemory),
        }
    }

    // Makes a pass for the next caller, with memory reserved for all its receipts.
    fn make_pass(&self, alloc: Global, helm: &mut Helm) -> Result<Pass, NoMemory>
        requires desk { helm.old.desk ≡ desk_id self.now }
        requires parts { 1 < helm.old.parts }
        requires at_most { helm.old.made < MAX_PASSES }
        ensures pass { IfOk result (λ p. p ≡ record {
          desk = helm.old.desk;
          net = helm.old.net;
          seen = helm.old.seen;
          account = new_account (helm.old.made + 1);
        }) }
        ensures helm { OnOk result (
            helm.new ≡ record helm.old { parts = helm.old.parts - 1; made = helm.old.made + 1 }) }
        ensures same { OnErr result (helm.new ≡ helm.old) }
    {
        let receipts = Reserved::with_capacity(alloc, MAX_CALLS)?;
        let Helm { seat, made, .. } = helm;
        let caller = *made + 1;
        let seat = self.table.shared.split_seat::<Share>(seat);
        *made = caller;
        Ok(Pass {
            seat,
            caller,
            receipts,
        })
    }

    // Merges a pass into the helm.
    fn absorb(&self, helm: &mut Helm, pass: Pass)
        requires helm { helm.old.desk ≡ desk_id self.now }
        requires pass { pass.desk ≡ desk_id self.now }
        ensures helm { helm.new ≡ record helm.old {
          parts = helm.old.parts + 1;
          accounts = helm.old.accounts ++ pass.account ∷ [];
        } }
    {
        let Pass {
            seat,
            caller: _,
            receipts: _,
        } = pass;
        self.table.shared.join_seat::<Share>(&mut helm.seat, seat);
    }

    /// Submits a decision in the pass's turn. It may wait, and allocates nothing.
    pub fn decide<R: Wait>(&self, rt: &R, pass: &mut Pass, d: Decision) -> Receipt
        requires desk { pass.old.desk ≡ desk_id self.now }
        ensures asked { (j : List Event) × IsAsked pass.old d result pass.new j }
    {
        let Pass {
            seat,
            caller,
            receipts,
        } = pass;
        let receipt = decide_in_turn(rt, &self.table.shared, seat, *caller, &d);
        if receipt.entry.is_some() {
            let Ok(()) = receipts.push(receipt) else {
                unreachable!()
            };
        }
        receipt
    }

    /// The front. It never waits, and allocates nothing.
    pub fn front(&self, pass: &mut Pass) -> u64
        requires desk { pass.old.desk ≡ desk_id self.now }
        ensures rises { front_of pass.old.seen ≤ result }
        ensures seen { (j : List Event) × IsPrefix pass.old.seen j
            × (result ≡ front_of j) × (pass.new ≡ pass_after_look pass.old j) }
    {
        look_at_front(&self.table.shared, &mut pass.seat)
    }

    /// The front, if it is past this time. It never waits, and allocates nothing.
    pub fn is_late(&self, pass: &mut Pass, time: u64) -> Option<u64>
        requires desk { pass.old.desk ≡ desk_id self.now }
        ensures rises { (f : ℕ) → result ≡ Some f → front_of pass.old.seen ≤ f }
        ensures late { (j : List Event) × IsPrefix pass.old.seen j
            × (result ≡ late_front (front_of j) time) × (pass.new ≡ pass_after_look pass.old j) }
    {
        let front = self.front(pass);
        if time < front { Some(front) } else { None }
    }

    // Merges all passes into the helm.
    fn absorb_all(&self, helm: &mut Helm, passes: Vec<Pass>)
        requires helm { helm.old.desk ≡ desk_id self.now }
        requires passes { All (λ p. p.desk ≡ desk_id self.now) passes.items }
        ensures helm { helm.new ≡ record helm.old {
          parts = helm.old.parts + length passes.items;
          accounts = helm.old.accounts ++ map (λ p. p.account) passes.items;
        } }
    {
        for pass in passes {
            self.absorb(helm, pass);
        }
    }

    /// Returns the book, once all passes are handed back. It allocates nothing.
    pub fn close(self, passes: Vec<Pass>, helm: Helm) -> LegalBook
        requires desk { helm.desk ≡ desk_id self }
        requires passes { All (λ p. p.desk ≡ desk_id self) passes.items }
        requires whole { helm.parts + length passes.items ≡ MAX_PARTS }
        ensures closed { IsFinalBook (record helm {
          parts = MAX_PARTS;
          accounts = helm.accounts ++ map (λ p. p.account) passes.items;
        }) result }
    {
        let mut helm = helm;
        self.absorb_all(&mut helm, passes);
        self.take_book(helm)
    }

    // Returns the book, once the helm has every part.
    fn take_book(self, helm: Helm) -> LegalBook
        requires desk { helm.desk ≡ desk_id self }
        requires whole { helm.parts ≡ MAX_PARTS }
        ensures closed { IsFinalBook helm result }
    {
        let Desk { table } = self;
        let Helm { seat, .. } = helm;
        let mut closed = table.close_with(seat);
        let book = closed.take(0).unwrap();
        closed.free();
        book
    }
}
