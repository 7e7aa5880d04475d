//! `CloneSet`: a set of clones below `CloneSet::LIMIT`, one bit each, and its operations.
ghost use Rattle.std.specs.Prelude.{◌≡◌, ℕ, ◌+◌, ◌*◌, ◌<◌, ◌==◌, true, false, ◌||◌, ◌&&◌};
ghost use Rattle.std.specs.Prelude.{not, IfNone, IfSome, IsTrue, ◌↔◌, length, nat_eq, All, Contains};
ghost use Rattle.std.specs.List.Sorted.{IsStrictlyIncreasing};
ghost use Rattle.std.specs.Cmp.{nat_eq_equiv, partial_equiv_from_equiv};
ghost use Rattle.clone_sets.specs.Sets.{has, empty, one, union, meet, minus, with, without, size, IsFirst, members};
ghost use Rattle.clone_sets.specs.Words.{bit_in_word};

use crate::members::Members;
use sim_base::MAX_CLONES;
use std::marker::Model;

/// A set of clone numbers below `CloneSet::LIMIT`.
#[derive(Clone, Copy, Debug)]
pub struct CloneSet {
    // clone c is bit c % 64 of word c / 64
    word0: u64,
    word1: u64,
    word2: u64,
    word3: u64,
}

impl Model for CloneSet {
    ghost use Rattle.std.specs.Prelude.{ℕ};
    ghost use Rattle.clone_sets.specs.Words.{set_of, low_word, high_words, AreWords, words_back};

    ghost Value = { ℕ };

    ghost view = { λ s. set_of s.word0 s.word1 s.word2 s.word3 };

    ghost invariant = { λ s. AreWords s.word0 s.word1 s.word2 s.word3 };

    ghost inverse = { λ s. record {
      word0 = low_word s;
      word1 = low_word (high_words s);
      word2 = low_word (high_words (high_words s));
      word3 = high_words (high_words (high_words s));
    } };

    ghost inverse_ok = { λ s h i. record {
      word0 = (words_back s.word0 s.word1 s.word2 s.word3 h).word0 i;
      word1 = (words_back s.word0 s.word1 s.word2 s.word3 h).word1 i;
      word2 = (words_back s.word0 s.word1 s.word2 s.word3 h).word2 i;
      word3 = (words_back s.word0 s.word1 s.word2 s.word3 h).word3 i;
    } };
}

impl PartialEq for CloneSet {
    ghost eq = { nat_eq };

    ghost laws = { partial_equiv_from_equiv nat_eq_equiv };

    fn eq(&self, other: &CloneSet) -> bool {
        let apart0 = self.word0 ^ other.word0;
        let apart1 = self.word1 ^ other.word1;
        let apart2 = self.word2 ^ other.word2;
        let apart3 = self.word3 ^ other.word3;
        apart0 | apart1 | apart2 | apart3 == 0
    }
}

impl Eq for CloneSet {
    ghost laws = { nat_eq_equiv };
}

impl CloneSet {
    /// Clone numbers are below this.
    pub const LIMIT: u32 = MAX_CLONES;

    /// The empty set.
    pub fn empty() -> CloneSet
        ensures { result ≡ empty }
    {
        CloneSet {
            word0: 0,
            word1: 0,
            word2: 0,
            word3: 0,
        }
    }

    /// One clone alone.
    pub fn one(c: u32) -> CloneSet
        requires { c < Self.LIMIT }
        ensures value { result ≡ one c }
        ensures members { (d : ℕ) → has result d ≡ (c == d) }
    {
        CloneSet {
            word0: bit_of(c, 0),
            word1: bit_of(c, 1),
            word2: bit_of(c, 2),
            word3: bit_of(c, 3),
        }
    }

    /// The set with one more clone.
    pub fn with(self, c: u32) -> CloneSet
        requires { c < Self.LIMIT }
        ensures value { result ≡ with self c }
        ensures members { (d : ℕ) → has result d ≡ ((c == d) || has self d) }
    {
        self.union(CloneSet::one(c))
    }

    /// The set without one clone.
    pub fn without(self, c: u32) -> CloneSet
        requires { c < Self.LIMIT }
        ensures value { result ≡ without self c }
        ensures members { (d : ℕ) → has result d ≡ (not (c == d) && has self d) }
    {
        self.minus(CloneSet::one(c))
    }

    /// The union of the two.
    pub fn union(self, o: CloneSet) -> CloneSet
        ensures value { result ≡ union self o }
        ensures members { (d : ℕ) → has result d ≡ (has self d || has o d) }
    {
        CloneSet {
            word0: self.word0 | o.word0,
            word1: self.word1 | o.word1,
            word2: self.word2 | o.word2,
            word3: self.word3 | o.word3,
        }
    }

    /// The intersection of the two.
    pub fn meet(self, o: CloneSet) -> CloneSet
        ensures value { result ≡ meet self o }
        ensures members { (d : ℕ) → has result d ≡ (has self d && has o d) }
    {
        CloneSet {
            word0: self.word0 & o.word0,
            word1: self.word1 & o.word1,
            word2: self.word2 & o.word2,
            word3: self.word3 & o.word3,
        }
    }

    /// The clones of this set that are not in the other.
    pub fn minus(self, o: CloneSet) -> CloneSet
        ensures value { result ≡ minus self o }
        ensures members { (d : ℕ) → has result d ≡ (has self d && not (has o d)) }
    {
        CloneSet {
            word0: self.word0 & !o.word0,
            word1: self.word1 & !o.word1,
            word2: self.word2 & !o.word2,
            word3: self.word3 & !o.word3,
        }
    }

    /// Whether a clone is in the set.
    pub fn has(self, c: u32) -> bool
        requires { c < Self.LIMIT }
        ensures { result ≡ has self c }
    {
        (self.word(c / 64) >> (c % 64)) & 1 == 1
    }

    // word i has the clones from 64 * i on
    fn word(self, i: u32) -> u64
        requires { i < 4 }
        ensures { (j : ℕ) → j < 64 → has result j ≡ has self (64 * i + j) }
    {
        match i {
            0 => self.word0,
            1 => self.word1,
            2 => self.word2,
            _ => self.word3,
        }
    }

    /// Whether the set is empty.
    pub fn is_empty(self) -> bool
        ensures value { result ≡ (self == empty) }
        ensures members { IsTrue result ↔ ((d : ℕ) → has self d ≡ false) }
    {
        self.word0 | self.word1 | self.word2 | self.word3 == 0
    }

    /// The number of clones in the set.
    pub fn len(self) -> u32
        ensures value { result ≡ size self }
        ensures members { result ≡ length (members self) }
        ensures limit { (d : ℕ) → has self d ≡ true → d < Self.LIMIT }
    {
        self.word0.count_ones()
            + self.word1.count_ones()
            + self.word2.count_ones()
            + self.word3.count_ones()
    }

    /// The least clone of the set, or None if it is empty.
    pub fn first(self) -> Option<u32>
        ensures none { IfNone result (self ≡ empty) }
        ensures some { IfSome result (IsFirst self) }
        ensures below { IfSome result (λ c. c < Self.LIMIT) }
    {
        if self.word0 != 0 {
            Some(self.word0.trailing_zeros())
        } else if self.word1 != 0 {
            Some(64 + self.word1.trailing_zeros())
        } else if self.word2 != 0 {
            Some(128 + self.word2.trailing_zeros())
        } else if self.word3 != 0 {
            Some(192 + self.word3.trailing_zeros())
        } else {
            None
        }
    }

    /// The clones of the set, in rising order.
    pub fn iter(self) -> Members
        ensures value { result ≡ members self }
        ensures members { (d : ℕ) → d < Self.LIMIT → (Contains result d ↔ IsTrue (has self d)) }
        ensures below { All (λ c. c < Self.LIMIT) result }
        ensures rising { IsStrictlyIncreasing result }
    {
        Members { rest: self }
    }
}

// word i of the set with clone c alone
fn bit_of(c: u32, i: u32) -> u64
    ensures { result ≡ bit_in_word c i }
{
    if c / 64 == i { 1 << (c % 64) } else { 0 }
}
