//! The blocks of pending messages: a first one, which is empty only if no message is pending, and later ones.
ghost use Rattle.std.specs.Prelude.{◌≡◌, ◌<◌, ◌≤◌, [], ◌∷◌, ◌++◌, length, OnOk, OnErr, IfOk};
ghost use Rattle.sim_base.specs.Pending.{insert_marked, spread_marks, cut_by};
ghost use Rattle.sim_base.specs.Order.{msg_cmp};
ghost use Rattle.sim_base.specs.Blocks.{of_blocks, block_at, halves_of, AreBlocks, AreSized, AreFilled, IsBlockOf};
ghost use Rattle.sim_base.specs.declared.pending.blocks.TheConstants.{MAX_IN_BLOCK};

use super::block::Block;
use crate::marks::Marks;
use crate::memory::NoMemory;
use crate::message::Msg;
use std::collections::VecDeque;

/// The most messages in a block.
pub const MAX_IN_BLOCK: usize = 64;

/// The number of messages in the first half of a full block.
pub const HALF: usize = MAX_IN_BLOCK / 2;

/// The block that a message belongs to: 0 for the first, and 1 + the index of a later one.
pub(crate) fn block_of<S: Marks>(later: &VecDeque<Block<S>>, msg: &Msg) -> usize
    ensures value { IsBlockOf msg_cmp msg.now later.now.items result }
{
    let mut low = 0;
    let mut high = later.len();
    while low < high {
        let middle = low + (high - low) / 2;
        if later[middle].starts_after(msg) {
            high = middle;
        } else {
            low = middle + 1;
        }
    }
    low
}

/// The number of messages in the block.
fn len_at<S: Marks>(first: &Block<S>, later: &VecDeque<Block<S>>, at: usize) -> usize
    requires within { at ≤ length later.now.items }
    ensures value { result ≡ length (block_at first.now later.now.items at) }
{
    if at == 0 {
        first.len()
    } else {
        later[at - 1].len()
    }
}

/// Splits a full block into two halves.
fn halve<S: Marks>(
    first: &mut Block<S>,
    later: &mut VecDeque<Block<S>>,
    at: usize,
) -> Result<(), NoMemory>
    requires within { at ≤ length later.old.items }
    requires full { length (block_at first.old later.old.items at) ≡ MAX_IN_BLOCK }
    ensures ok { OnOk result ((first.new ∷ later.new.items) ≡ halves_of at (first.old ∷ later.old.items)) }
    ensures err { OnErr result ((first.new ≡ first.old) × (later.new.items ≡ later.old.items)) }
{
    later.reserve(1)?;
    let half = if at == 0 {
        first.split_off(HALF)?
    } else {
        later[at - 1].split_off(HALF)?
    };
    let Ok(_) = later.insert(at, half) else {
        unreachable!()
    };
    Ok(())
}

/// Halves the block of a message if it is full, and returns the block of the message after that.
///
/// If out of memory, changes nothing.
pub(crate) fn halve_if_full<S: Marks>(
    first: &mut Block<S>,
    later: &mut VecDeque<Block<S>>,
    at: usize,
    msg: &Msg,
) -> Result<usize, NoMemory>
    requires blocks { AreBlocks msg_cmp first.old later.old.items }
    requires place { IsBlockOf msg_cmp msg.now later.old.items at }
    ensures same { of_blocks (first.new ∷ later.new.items) ≡ of_blocks (first.old ∷ later.old.items) }
    ensures blocks { AreBlocks msg_cmp first.new later.new.items }
    ensures place { IfOk result (λ to. IsBlockOf msg_cmp msg.now later.new.items to) }
    ensures free { IfOk result (λ to. length (block_at first.new later.new.items to) < MAX_IN_BLOCK) }
{
    if len_at(first, later, at) < MAX_IN_BLOCK {
        return Ok(at);
    }
    halve(first, later, at)?;
    if later[at].starts_after(msg) {
        Ok(at)
    } else {
        Ok(at + 1)
    }
}

/// Inserts a message into its block. If out of memory, changes nothing.
pub(crate) fn put<S: Marks>(
    first: &mut Block<S>,
    later: &mut VecDeque<Block<S>>,
    at: usize,
    msg: Msg,
    marks: S,
) -> Result<(), NoMemory>
    requires blocks { AreBlocks msg_cmp first.old later.old.items }
    requires place { IsBlockOf msg_cmp msg later.old.items at }
    requires free { length (block_at first.old later.old.items at) < MAX_IN_BLOCK }
    ensures blocks { AreBlocks msg_cmp first.new later.new.items }
    ensures ok { OnOk result (of_blocks (first.new ∷ later.new.items) ≡ insert_marked S.union msg_cmp msg marks
        (of_blocks (first.old ∷ later.old.items))) }
    ensures err { OnErr result (of_blocks (first.new ∷ later.new.items) ≡ of_blocks (first.old ∷ later.old.items)) }
{
    if at == 0 {
        first.insert(msg, marks)
    } else {
        later[at - 1].insert(msg, marks)
    }
}

/// Replaces an empty first block by the next one, if there is one.
pub(crate) fn next_block<S: Marks>(first: &mut Block<S>, later: &mut VecDeque<Block<S>>)
    requires empty { first.old ≡ [] }
    requires later { AreFilled later.old.items }
    ensures same { of_blocks (first.new ∷ later.new.items) ≡ of_blocks later.old.items }
    ensures sized { AreSized first.new later.new.items }
{
    if let Some(next) = later.pop_front() {
        *first = next;
    }
}

/// Appends a block unless it is empty.
pub(crate) fn add_block<S: Marks>(
    first: &mut Block<S>,
    later: &mut VecDeque<Block<S>>,
    block: Block<S>,
) -> Result<(), NoMemory>
    requires sized { AreSized first.old later.old.items }
    requires small { length block ≤ MAX_IN_BLOCK }
    ensures all { OnOk result (of_blocks (first.new ∷ later.new.items) ≡ of_blocks (first.old ∷ later.old.items)
        ++ block) }
    ensures sized { OnOk result (AreSized first.new later.new.items) }
{
    if block.is_empty() {
        return Ok(());
    }
    if first.is_empty() {
        *first = block;
        return Ok(());
    }
    later.push_back(block)?;
    Ok(())
}

/// Keeps of each later block the messages that meet `by`, and drops empty blocks.
pub(crate) fn keep_later<S: Marks>(later: &mut VecDeque<Block<S>>, by: S)
    requires filled { AreFilled later.old.items }
    ensures value { of_blocks later.new.items ≡ cut_by S.common by (of_blocks later.old.items) }
    ensures filled { AreFilled later.new.items }
{
    // rotates once through the ring: takes the first block out, and appends it again if a message stays
    for _ in 0..later.len() {
        let Some(mut block) = later.pop_front() else {
            unreachable!()
        };
        block.keep(by);
        if block.is_empty() {
            continue;
        }
        let Ok(_) = later.push_back(block) else {
            unreachable!()
        };
    }
}

/// Joins `more` to the marks of each message of the later blocks whose marks meet `by`.
pub(crate) fn spread_later<S: Marks>(later: &mut VecDeque<Block<S>>, by: S, more: S)
    requires filled { AreFilled later.old.items }
    ensures value { of_blocks later.new.items ≡ spread_marks S.union S.common by more (of_blocks later.old.items) }
    ensures filled { AreFilled later.new.items }
    ensures count { length later.new.items ≡ length later.old.items }
{
    for i in 0..later.len() {
        later[i].spread(by, more);
    }
}
