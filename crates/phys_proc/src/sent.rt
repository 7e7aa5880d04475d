//! What the copies of a station send to other stations: messages, each with the clones that send it.
ghost use Rattle.std.specs.Prelude.{◌≡◌, ◌<◌, ◌∷◌, ◌++◌, [], Some, OnOk, length, slice_get};
ghost use Rattle.phys_proc.specs.Sent.{msg_in};

use clone_sets::CloneSet;
use msg_heap::PackedMsg;
use sim_base::{Msg, NoMemory};
use std::alloc::Global;
use std::marker::Model;

/// A sent message: packed, or whole if one of its numbers is too large.
#[derive(Clone, Copy)]
pub enum SentMsg {
    /// Packed in 16 bytes.
    Packed(PackedMsg),
    /// Whole.
    Whole(Msg),
}

impl SentMsg {
    /// The number of its receiver.
    #[inline(always)]
    pub fn to(&self) -> u32
        ensures value { result ≡ (msg_in self.now).to }
    {
        match self {
            SentMsg::Packed(msg) => msg.to(),
            SentMsg::Whole(msg) => msg.to,
        }
    }

    /// Its time.
    #[inline(always)]
    pub fn time(&self) -> u64
        ensures value { result ≡ (msg_in self.now).key.time }
    {
        match self {
            SentMsg::Packed(msg) => msg.time(),
            SentMsg::Whole(msg) => msg.key.time,
        }
    }

    /// The message.
    #[inline(always)]
    pub fn msg(&self) -> Msg
        ensures value { result ≡ msg_in self.now }
    {
        match self {
            SentMsg::Packed(msg) => msg.msg(),
            SentMsg::Whole(msg) => *msg,
        }
    }
}

/// Messages in the order in which they were sent, each with the clones that send it. They are packed up to the first
/// that does not fit; from there on they are whole.
#[derive(Drop)]
pub struct SentMessages {
    packed: Vec<(PackedMsg, CloneSet)>,
    whole: Vec<(Msg, CloneSet)>,
}

impl Model for SentMessages {
    ghost use Rattle.std.specs.Prelude.{◌++◌};
    ghost use Rattle.phys_proc.specs.Own.{MarkedMessages};

    ghost Value = { MarkedMessages };

    ghost view = { λ s. s.packed.items ++ s.whole.items };
}

// Appends a packed message.
#[inline(always)]
fn push_to(
    packed: &mut Vec<(PackedMsg, CloneSet)>,
    msg: PackedMsg,
    set: CloneSet,
) -> Result<(), NoMemory>
    ensures more { OnOk result (packed.new.items ≡ packed.old.items ++ (msg, set) ∷ []) }
{
    packed.push((msg, set))?;
    Ok(())
}

// Appends a whole message.
#[inline(never)]
fn push_whole(whole: &mut Vec<(Msg, CloneSet)>, msg: Msg, set: CloneSet) -> Result<(), NoMemory>
    ensures more { OnOk result (whole.new.items ≡ whole.old.items ++ (msg, set) ∷ []) }
{
    whole.push((msg, set))?;
    Ok(())
}

// Appends whole messages.
#[inline(never)]
fn append_whole(whole: &mut Vec<(Msg, CloneSet)>, more: &[(Msg, CloneSet)]) -> Result<(), NoMemory>
    ensures both { OnOk result (whole.new.items ≡ whole.old.items ++ more.now) }
{
    whole.extend_from_slice(more)?;
    Ok(())
}

impl SentMessages {
    /// No messages. It allocates nothing.
    pub fn new(alloc: Global) -> SentMessages
        ensures none { result ≡ [] }
    {
        SentMessages {
            packed: Vec::new(alloc),
            whole: Vec::new(alloc),
        }
    }

    /// The number of messages.
    #[inline(always)]
    pub fn len(&self) -> usize
        ensures value { result ≡ length self.now }
    {
        self.packed.len() + self.whole.len()
    }

    /// Drops all messages, and keeps the memory.
    #[inline(always)]
    pub fn clear(&mut self)
        ensures none { self.new ≡ [] }
    {
        self.packed.clear();
        self.whole.clear();
    }

    /// Appends a message.
    ///
    /// # Errors
    ///
    /// Out of memory: it is not there.
    pub fn push(&mut self, msg: Msg, set: CloneSet) -> Result<(), NoMemory>
        ensures more { OnOk result (self.new ≡ self.old ++ (msg, set) ∷ []) }
    {
        match PackedMsg::of(&msg) {
            Some(packed) => self.push_packed(packed, set),
            None => push_whole(&mut self.whole, msg, set),
        }
    }

    /// Appends a packed message.
    ///
    /// # Errors
    ///
    /// Out of memory: it is not there.
    #[inline(always)]
    pub fn push_packed(&mut self, msg: PackedMsg, set: CloneSet) -> Result<(), NoMemory>
        ensures more { OnOk result (self.new ≡ self.old ++ (msg, set) ∷ []) }
    {
        if self.whole.is_empty() {
            push_to(&mut self.packed, msg, set)
        } else {
            push_whole(&mut self.whole, msg.msg(), set)
        }
    }

    /// Appends all messages of another list.
    ///
    /// # Errors
    ///
    /// Out of memory: some of them are there.
    #[inline(always)]
    pub fn append(&mut self, more: &SentMessages) -> Result<(), NoMemory>
        ensures both { OnOk result (self.new ≡ self.old ++ more.now) }
    {
        for pair in more.packed.as_slice() {
            self.push_packed(pair.0, pair.1)?;
        }
        if !more.whole.is_empty() {
            append_whole(&mut self.whole, more.whole.as_slice())?;
        }
        Ok(())
    }

    /// The packed messages, and the whole ones that follow them.
    #[inline(always)]
    pub fn parts(&self) -> (&[(PackedMsg, CloneSet)], &[(Msg, CloneSet)])
        ensures value { self.now ≡ result.0.now ++ result.1.now }
    {
        (self.packed.as_slice(), self.whole.as_slice())
    }

    /// The message at a place, and the clones that send it.
    #[inline(always)]
    pub fn at(&self, i: usize) -> (SentMsg, CloneSet)
        requires place { i < length self.now }
        ensures value { slice_get self.now i ≡ Some (msg_in result.0, result.1) }
    {
        let packed = self.packed.len();
        if i < packed {
            let pair = &self.packed[i];
            (SentMsg::Packed(pair.0), pair.1)
        } else {
            let pair = &self.whole[i - packed];
            (SentMsg::Whole(pair.0), pair.1)
        }
    }
}
