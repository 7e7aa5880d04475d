//! Random variates: seeded draws from a range, and picks by weight.
ghost use Rattle.std.specs.Prelude.{◌≡◌, ◌+◌, ◌-◌, ◌%◌, ◌<◌, ◌≤◌, length, sum};
ghost use Rattle.sim_draw.specs.Drawing.{DrawsView, after_draw, range_of, next_of};
ghost use Rattle.sim_draw.specs.Drawing.{AreWeights, pick_of, index_of, after_pick_by, IsFirstAbove};
ghost use Rattle.sim_draw.specs.declared.draws.TheConstants.{MAX_DRAWS};
ghost use Rattle.sim_base.specs.declared.limits.TheConstants.{MAX_TIME};

use rand_core::utils::NextWord;
use rand_pcg::Lcg64Xsh32;
use sim_base::limits::MAX_LINKS;
use std::marker::Model;

/// The most words that may be drawn from a stream: 32 bits.
pub const MAX_DRAWS: u64 = 4_294_967_296;
/// The most weights of a pick.
pub const MAX_WEIGHTS: usize = MAX_LINKS;

/// Draws from one stream of a seed.
///
/// The words are those of PCG32, as `rand_pcg` makes them. No call allocates.
#[derive(Drop)]
pub struct Draws {
    seed: u64,
    stream: u64,
    drawn: u64,
    words: Lcg64Xsh32,
}

impl Model for Draws {
    ghost use Rattle.std.specs.Prelude.{◌≡◌};
    ghost use Rattle.sim_draw.specs.Drawing.{DrawsView, generator};

    ghost Value = { DrawsView };

    ghost view = { λ d. record { seed = d.seed; stream = d.stream; count = d.drawn } };

    ghost invariant = { λ d. d.words ≡ generator (record { seed = d.seed; stream = d.stream; count = d.drawn }) };
}

impl Draws {
    /// The stream from its start.
    pub fn new(seed: u64, stream: u64) -> Draws
        ensures { result ≡ record { seed = seed; stream = stream; count = 0 } }
    {
        Draws {
            seed,
            stream,
            drawn: 0,
            words: Lcg64Xsh32::new(seed, stream),
        }
    }

    /// The stream after `drawn` words; the generator skips them.
    pub fn at(seed: u64, stream: u64, drawn: u64) -> Draws
        ensures { result ≡ record { seed = seed; stream = stream; count = drawn } }
    {
        let mut words = Lcg64Xsh32::new(seed, stream);
        words.advance(drawn);
        Draws {
            seed,
            stream,
            drawn,
            words,
        }
    }

    /// The number of words drawn.
    pub fn drawn(&self) -> u64
        ensures { result ≡ self.now.count }
    {
        self.drawn
    }

    /// Independent draws with the same seed, stream and count.
    pub fn copy(&self) -> Draws
        ensures { result ≡ self.now }
    {
        Draws::at(self.seed, self.stream, self.drawn)
    }

    /// A number from `lo` to `hi`, from one word: `lo` plus the word modulo the size of the range.
    pub fn range(&mut self, lo: u64, hi: u64) -> u64
        requires ordered { lo ≤ hi }
        requires small { hi ≤ MAX_TIME }
        requires few_drawn { self.old.count < MAX_DRAWS }
        ensures value { result ≡ range_of lo hi self.old }
        ensures drawn { self.new ≡ after_draw self.old }
        ensures least { lo ≤ result }
        ensures greatest { result ≤ hi }
    {
        let word = self.word();
        lo + u64::from(word) % (hi - lo + 1)
    }

    /// An index, chosen by the weights: the first whose running sum exceeds one word modulo the sum.
    ///
    /// With one weight it returns 0 and draws nothing.
    pub fn pick(&mut self, weights: &[u32]) -> usize
        requires valid { AreWeights weights.now }
        requires few_drawn { self.old.count < MAX_DRAWS }
        ensures value { result ≡ pick_of weights.now self.old }
        ensures drawn { self.new ≡ after_pick_by weights.now self.old }
        ensures within { result < length weights.now }
        ensures choice { 2 ≤ length weights.now → IsFirstAbove weights.now (next_of self.old % sum weights.now) result }
    {
        if weights.len() == 1 {
            return 0;
        }
        let word = self.word();
        index_above(weights, u64::from(word) % total(weights))
    }

    // The next word.
    fn word(&mut self) -> u32
        requires { self.old.count < MAX_DRAWS }
        ensures value { result ≡ next_of self.old }
        ensures drawn { self.new ≡ after_draw self.old }
    {
        let word = self.words.next_word();
        self.drawn += 1;
        word
    }
}

// The sum of the weights.
fn total(weights: &[u32]) -> u64
    requires { AreWeights weights.now }
    ensures { result ≡ sum weights.now }
{
    weights.iter().map(|w| u64::from(*w)).sum()
}

// The first index whose running sum of weights exceeds x.
fn index_above(weights: &[u32], x: u64) -> usize
    requires { x < sum weights.now }
    ensures value { result ≡ index_of weights.now x }
    ensures within { result < length weights.now }
{
    let mut left = x;
    for (i, weight) in weights.iter().enumerate() {
        let weight = u64::from(*weight);
        if left < weight {
            return i;
        }
        left -= weight;
    }
    0
}
