//! Tournaments of 8, 16 or 64 words, in an array of fixed size.
//!
//! A change takes one step for each level, and no step is tested: the number of levels is known when it is compiled.
ghost use Rattle.std.specs.Prelude.{◌≡◌, ◌+◌, ◌*◌, ◌/◌, ◌<◌, ◌≤◌, ℕ, List, length, get_or, replicate, slice_set};
ghost use Rattle.trace_writer.specs.FixedTrees.{IsFixedCount, IsFixedMending};
ghost use Rattle.trace_writer.specs.Tournament.{IsLeastWord};
ghost use Rattle.trace_writer.specs.declared.tree.TheConstants.{NODES};
ghost use Rattle.trace_writer.specs.declared.tree.TheConstants.{NO_WORD};

use std::marker::Model;

/// The greatest word, which represents an exhausted list.
pub const NO_WORD: u64 = u64::MAX;

/// The nodes of the largest tournament, with one that is not used.
pub const NODES: usize = 128;

/// Tournament of `COUNT` words: an array of words with their minimum.
#[derive(Drop)]
pub struct Tree<const COUNT: usize> {
    // node i has the lesser word of nodes 2 * i and 2 * i + 1; nodes from `COUNT` on are the words
    nodes: [u64; NODES],
}

impl<const COUNT: usize> Model for Tree<COUNT> {
    ghost use Rattle.std.specs.Prelude.{ℕ, List};
    ghost use Rattle.trace_writer.specs.FixedTrees.{IsFixedTree, words_in};

    ghost Value = { List ℕ };

    ghost view = { λ t. words_in t.nodes COUNT };

    ghost invariant = { λ t. IsFixedTree t.nodes COUNT };
}

// Gives the parent of a node the lesser word of the node, `least`, and its sibling, and returns it.
#[inline(always)]
fn step(nodes: &mut [u64; NODES], node: usize, least: u64) -> u64
    requires above { 1 < node }
    requires within { node < NODES }
    ensures rises { (count : ℕ) (words : List ℕ) → IsFixedMending nodes.old count node least words
        → IsFixedMending nodes.new count (node / 2) result words }
{
    let now = least.min(nodes[node ^ 1]);
    nodes[node / 2] = now;
    now
}

// The same for three levels, up to the top of a tournament of 8 words.
#[inline(always)]
fn rise_three(nodes: &mut [u64; NODES], node: usize, least: u64) -> u64
    requires above { 8 ≤ node }
    requires within { node < NODES }
    ensures rises { (count : ℕ) (words : List ℕ) → IsFixedMending nodes.old count node least words
        → IsFixedMending nodes.new count (node / 8) result words }
{
    let least = step(nodes, node, least);
    let least = step(nodes, node / 2, least);
    step(nodes, node / 4, least)
}

// The same for four levels, up to the top of a tournament of 16 words.
#[inline(always)]
fn rise_four(nodes: &mut [u64; NODES], node: usize, least: u64) -> u64
    requires above { 16 ≤ node }
    requires within { node < NODES }
    ensures rises { (count : ℕ) (words : List ℕ) → IsFixedMending nodes.old count node least words
        → IsFixedMending nodes.new count (node / 16) result words }
{
    let least = rise_three(nodes, node, least);
    step(nodes, node / 8, least)
}

// The same for six levels, up to the top of a tournament of 64 words.
#[inline(always)]
fn rise_six(nodes: &mut [u64; NODES], node: usize, least: u64) -> u64
    requires above { 64 ≤ node }
    requires within { node < NODES }
    ensures rises { (count : ℕ) (words : List ℕ) → IsFixedMending nodes.old count node least words
        → IsFixedMending nodes.new count (node / 64) result words }
{
    let least = rise_three(nodes, node, least);
    rise_three(nodes, node / 8, least)
}

// The same up to the top.
#[inline(always)]
fn rise<const COUNT: usize>(nodes: &mut [u64; NODES], node: usize, least: u64) -> u64
    requires fixed { IsFixedCount COUNT }
    requires low { COUNT ≤ node }
    requires high { node < 2 * COUNT }
    ensures rises { (words : List ℕ) → IsFixedMending nodes.old COUNT node least words
        → IsFixedMending nodes.new COUNT 1 result words }
{
    if COUNT == 8 {
        rise_three(nodes, node, least)
    } else if COUNT == 16 {
        rise_four(nodes, node, least)
    } else {
        rise_six(nodes, node, least)
    }
}

impl<const COUNT: usize> Tree<COUNT> {
    /// `COUNT` words, each the greatest.
    pub fn new() -> Tree<COUNT>
        requires fixed { IsFixedCount COUNT }
        ensures value { result ≡ replicate COUNT NO_WORD }
    {
        Tree {
            nodes: [NO_WORD; NODES],
        }
    }

    /// Makes each word the greatest.
    pub fn clear(&mut self)
        ensures value { self.new ≡ replicate (length self.old) NO_WORD }
    {
        self.nodes = [NO_WORD; NODES];
    }

    /// Replaces a word.
    #[inline(always)]
    pub fn set(&mut self, i: usize, word: u64)
        requires in_range { i < length self.old }
        ensures value { self.new ≡ slice_set self.old i word }
    {
        let nodes = &mut self.nodes;
        let node = COUNT + i;
        nodes[node] = word;
        let _ = rise::<COUNT>(nodes, node, word);
    }

    /// The least word.
    #[inline(always)]
    pub fn least(&self) -> u64
        ensures value { IsLeastWord result self.now }
    {
        self.nodes[1]
    }
}
