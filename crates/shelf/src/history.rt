//! The history of all published racks. It only grows, and only its writer adds to it.
//!
//! Each entry of the log names the pen that added it and the pen that may add the next one. Two writers never share
//! a pen, and a pen adds at most one rack. So nobody else extends the history, and an addition always succeeds.
ghost use Rattle.std.specs.Prelude.{◌≡◌, ℕ, ◌<◌, ◌++◌, ◌∷◌, ◌⊎◌, [], length};
ghost use mathlib.Core.List.{IsPrefix};
ghost use Rattle.logbook.specs.Pages.{may_write};
ghost use Rattle.shelf.specs.Racks.{AreLegal, MayBePublished};
ghost use Rattle.shelf.specs.Rules.{head_of};
ghost use Rattle.shelf.specs.declared.history.TheConstants.{MAX_RACKS};

use crate::entry::{Addition, Entry};
use logbook::{Gain, Offer, Pen, Plain, Play, Rule, Seen, Start, Word};
use phys_proc::Rack;
use std::marker::{Brand, Model, PhantomData};

/// The maximum length of a history, in racks.
pub const MAX_RACKS: u64 = 1 << 62;

type Head = Word<Entry, u64, HistoryRule>;

type SeenLog = Seen<Entry, u64, HistoryRule>;

/// The rule of the log: a pen that has added a rack never adds another.
pub struct HistoryRule;

impl Rule<Entry, u64> for HistoryRule {
    ghost use Rattle.std.specs.Prelude.{[]};
    ghost use base.Fml.{ftrue};
    ghost use Rattle.shelf.specs.Rules.{IsHistory};

    ghost holds = { λ cells log. IsHistory cells log };

    ghost first = { [] };

    ghost hinted = { λ n log. Unit {0} };

    ghost shows = { λ log. [] };

    ghost keeps = { λ names log. ftrue };

    ghost moves = { λ ask before after answer. Unit {0} };
}

/// Callers trade nothing.
pub struct Nothing;

impl Gain<Entry, u64> for Nothing {
    ghost use base.Fml.{ftrue};

    ghost after = { λ names about answer. ftrue };
}

/// The step that makes a pen.
pub struct GivePen;

impl Play<Entry, u64> for GivePen {
    ghost use Rattle.shelf.specs.Rules.{GivesPen};

    ghost then = { GivesPen };
}

/// The step adds no entry.
impl Plain<(), Entry, u64> for GivePen {
    ghost use Rattle.std.specs.Prelude.{None};

    ghost ask = { λ nothing. record { rack = None; used = 0; next = 0 } };

    ghost state = { λ nothing. None };
}

/// The step that adds a rack.
pub struct Add;

impl Play<Entry, u64> for Add {
    ghost use Rattle.shelf.specs.Rules.{Adds};

    ghost then = { Adds };
}

/// The step adds an entry with the rack and the keys of both pens.
impl<'a> Plain<Addition<'a>, Entry, u64> for Add {
    ghost use Rattle.std.specs.Prelude.{Some, None};

    ghost ask = { λ a. record {
      rack = Some a.rack.now;
      used = a.pen.now.nib.key;
      next = a.next.now.nib.key;
    } };

    ghost state = { λ a. None };
}

/// Identifies a history by its book and by the key of the pen that may add its first rack. Each call picks its own.
pub trait Naming {
    ghost use Rattle.logbook.specs.Pages.{Book};

    ghost book: { Book };

    ghost start: { ℕ };
}

impl Naming for Brand {
    ghost book = { record { number = 0; log_name = 0; cells_name = 0 } };

    ghost start = { 0 };
}

// A new pen. Its word is made here and is dropped unused: only a pen whose word was made may add an entry.
fn give_pen(head: &Head, seen: &SeenLog) -> Pen
    requires head { head.now ≡ head_of seen.now.book }
    ensures pen { (result.book ≡ seen.now.book) × (result.nib.right ≡ may_write) }
{
    let mut seen = seen.again();
    let mut offer: Offer<Entry, u64, HistoryRule, Nothing> = seen.plain::<Nothing, (), GivePen>(
        &(),
    );
    let mut pen = seen.no_pen();
    head.compare_exchange::<GivePen, Nothing>(0, 0, &mut seen, &mut offer, &mut pen);
    let _word: Head = Word::tracked(0, &mut pen);
    pen
}

/// An empty history, not yet named.
#[derive(Drop)]
pub struct NewHistory {
    head: Head,
    pen: Pen,
    seen: SeenLog,
    pub ghost empty: { seen.log ≡ [] },
    pub ghost head_is: { head ≡ head_of seen.book },
    pub ghost pen_is: { (pen.book ≡ seen.book) × (pen.nib.right ≡ may_write) },
}

impl NewHistory {
    /// A new history.
    pub fn new() -> NewHistory {
        let (seen, mut first, _second) = Seen::open(Start::alone(), 0, 0);
        let head = Word::tracked(0, &mut first);
        let pen = give_pen(&head, &seen);
        NewHistory { head, pen, seen }
    }

    // Names the history.
    pub(crate) fn named<J: Naming>(self) -> History<J>
        requires name { (self.seen.book ≡ J.book) × (self.pen.nib.key ≡ J.start) }
        ensures nothing { result ≡ [] }
    {
        let NewHistory { head, pen, seen } = self;
        History {
            head,
            pen,
            count: 0,
            seen,
            of: PhantomData,
        }
    }
}

/// The writer's handle on the history. Contracts see the racks.
#[derive(Drop)]
pub struct History<J: Naming> {
    // The word that every step exchanges. It stays at 0.
    head: Head,
    // The right to add the next rack.
    pen: Pen,
    count: u64,
    seen: SeenLog,
    of: PhantomData<J>,
}

impl<J: Naming> Model for History<J> {
    ghost use Rattle.std.specs.Prelude.{◌≡◌, List, length};
    ghost use Rattle.phys_proc.specs.Racks.{RackView};
    ghost use Rattle.shelf.specs.Racks.{AreLegal};
    ghost use Rattle.shelf.specs.Rules.{racks_from, IsWriter};

    ghost Value = { List RackView };

    ghost view = { λ h. racks_from J.start h.seen.log };

    ghost invariant = { λ h. IsWriter J.book J.start h.head h.pen.book h.pen.nib h.count h.seen.book h.seen.log };
}

impl<J: Naming> History<J> {
    /// The whole history, for readers.
    pub fn published(&self) -> PublishedRacks<J>
        ensures value { result ≡ self.now }
    {
        PublishedRacks {
            count: self.count,
            seen: self.seen.again(),
            of: PhantomData,
        }
    }

    /// Adds a rack.
    pub fn add(&mut self, rack: &Rack)
        requires at_most { length self.old < MAX_RACKS }
        requires may { MayBePublished self.old rack.now }
        ensures value { self.new ≡ self.old ++ rack.now ∷ [] }
    {
        let next = give_pen(&self.head, &self.seen);
        let mut offer: Offer<Entry, u64, HistoryRule, Nothing> = self
            .seen
            .plain::<Nothing, Addition, Add>(&Addition {
                rack,
                pen: &self.pen,
                next: &next,
            });
        self.head
            .compare_exchange::<Add, Nothing>(0, 0, &mut self.seen, &mut offer, &mut self.pen);
        self.pen = next;
        self.count += 1;
    }
}

/// A prefix of the history. Contracts see its racks; the code keeps only their number.
#[derive(Drop)]
pub struct PublishedRacks<J: Naming> {
    count: u64,
    seen: SeenLog,
    of: PhantomData<J>,
}

impl<J: Naming> Model for PublishedRacks<J> {
    ghost use Rattle.std.specs.Prelude.{◌≡◌, List, length};
    ghost use Rattle.phys_proc.specs.Racks.{RackView};
    ghost use Rattle.shelf.specs.Racks.{AreLegal};
    ghost use Rattle.shelf.specs.Rules.{racks_from};

    ghost Value = { List RackView };

    ghost view = { λ p. racks_from J.start p.seen.log };

    ghost invariant = { λ p. (p.seen.book ≡ J.book) × (p.count ≡ length (racks_from J.start p.seen.log))
        × AreLegal (racks_from J.start p.seen.log) };
}

impl<J: Naming> PublishedRacks<J> {
    /// The number of racks.
    pub fn len(&self) -> u64
        ensures value { result ≡ length self.now }
        ensures legal { AreLegal self.now }
    {
        self.count
    }

    /// A copy.
    pub fn again(&self) -> PublishedRacks<J>
        ensures value { result ≡ self.now }
    {
        PublishedRacks {
            count: self.count,
            seen: self.seen.again(),
            of: PhantomData,
        }
    }

    /// The longer of two prefixes of the history; the other is a prefix of it.
    pub fn longer(&self, other: &PublishedRacks<J>) -> PublishedRacks<J>
        ensures one { (result ≡ self.now) ⊎ (result ≡ other.now) }
        ensures this { IsPrefix self.now result }
        ensures that { IsPrefix other.now result }
        ensures legal { AreLegal result }
    {
        // for its clauses: both are prefixes of what is known then, so the shorter is a prefix of the longer
        let mut both = self.seen.again();
        both.learn(&other.seen);
        if self.count < other.count {
            other.again()
        } else {
            self.again()
        }
    }
}
