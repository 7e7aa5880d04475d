//! Lists with reserved memory: a push within it allocates nothing.
ghost use Rattle.std.specs.Prelude.{◌≡◌, ◌++◌, ◌∷◌, [], ◌<◌, ◌≤◌, ◌+◌, length};
ghost use Rattle.std.specs.Prelude.{OnOk, OnErr, IfOk, IsOk, IfSome, IfNone};

use crate::memory::NoMemory;
use std::alloc::Global;
use std::marker::Model;

/// A list with memory reserved for a number of elements.
///
/// It may grow beyond that. The memory stays reserved when elements are removed.
#[derive(Drop)]
pub struct Reserved<T: Drop> {
    items: Vec<T>,
    // for how many elements memory is reserved: contracts alone see it
    reserved: usize,
}

impl<T: Drop> Model for Reserved<T> {
    ghost use Rattle.std.specs.Prelude.{◌≤◌, vec_capacity};
    ghost use Rattle.sim_base.specs.Reserved.{ReservedView};

    ghost Value = { ReservedView T };

    ghost view = { λ r. record { items = r.items.items; reserved = r.reserved } };

    ghost invariant = { λ r. r.reserved ≤ vec_capacity r.items };
}

impl<T: Drop> Reserved<T> {
    /// An empty list with no memory reserved.
    pub fn new(alloc: Global) -> Reserved<T>
        ensures value { result ≡ record { items = []; reserved = 0 } }
    {
        Reserved {
            items: Vec::new(alloc),
            reserved: 0,
        }
    }

    /// An empty list with memory reserved for `reserved` elements.
    pub fn with_capacity(alloc: Global, reserved: usize) -> Result<Reserved<T>, NoMemory>
        ensures value { IfOk result (λ r. r ≡ record { items = []; reserved = reserved }) }
    {
        let items = Vec::with_capacity(alloc, reserved)?;
        Ok(Reserved { items, reserved })
    }

    /// Appends an element. If out of memory, changes nothing.
    pub fn push(&mut self, item: T) -> Result<(), NoMemory>
        ensures ok { OnOk result (
            self.new ≡ record self.old { items = self.old.items ++ item ∷ [] }) }
        ensures err { OnErr result (self.new ≡ self.old) }
        ensures reserved { length self.old.items < self.old.reserved → IsOk result }
    {
        self.items.push(item)?;
        Ok(())
    }

    /// Removes and returns the last element.
    pub fn pop(&mut self) -> Option<T>
        ensures some { IfSome result (λ x. self.old.items ≡ self.new.items ++ x ∷ []) }
        ensures none { IfNone result ((self.old.items ≡ []) × (self.new.items ≡ [])) }
        ensures reserved { self.new.reserved ≡ self.old.reserved }
    {
        self.items.pop()
    }

    /// The number of elements.
    pub fn len(&self) -> usize
        ensures value { result ≡ length self.now.items }
    {
        self.items.len()
    }

    /// Its elements.
    pub fn as_slice(&self) -> &[T]
        ensures value { result.now ≡ self.now.items }
    {
        self.items.as_slice()
    }
}

impl<T: Copy> Reserved<T> {
    /// Appends elements. If out of memory, changes nothing.
    pub fn extend(&mut self, more: &[T]) -> Result<(), NoMemory>
        ensures ok { OnOk result (
            self.new ≡ record self.old { items = self.old.items ++ more.now }) }
        ensures err { OnErr result (self.new ≡ self.old) }
        ensures reserved { length self.old.items + length more.now ≤ self.old.reserved → IsOk result }
    {
        self.items.extend_from_slice(more)?;
        Ok(())
    }
}
