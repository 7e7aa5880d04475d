//! A script: the analysts of a text and their items in order, each item with its line and its analyst.
//!
//! Lines and analysts are numbered from 1, items from 0. Analyst 1 is `main`.
ghost use Rattle.std.specs.Prelude.{◌≡◌, ◌<◌, [], length, slice_get, Some, IsTrue, ◌↔◌};
ghost use Rattle.decision_script.specs.Stating.{IsAnalyst, analyst_name};

use crate::item::Item;
use sim_base::Name;
use std::marker::Model;

/// The most analysts of a script, `main` included.
pub const MAX_ANALYSTS: usize = sim_base::limits::MAX_ANALYSTS as usize;
/// The most decisions and looks of a script.
pub const MAX_ITEMS: usize = 4_096;

/// A script: the analysts and their items in order, of a text or a part of it.
#[derive(Drop)]
pub struct Script {
    pub(crate) analysts: Vec<Name>,
    pub(crate) items: Vec<Item>,
}

impl Model for Script {
    ghost use Rattle.decision_script.specs.Stating.{ScriptView, IsScript};

    ghost Value = { ScriptView };

    ghost view = { λ s. record { analysts = s.analysts.items; items = s.items.items } };

    ghost invariant = { λ s. IsScript (record { analysts = s.analysts.items; items = s.items.items }) };
}

impl Script {
    ghost use Rattle.decision_script.specs.Stating.{IsScript};

    /// The number of items.
    pub fn len(&self) -> u32
        ensures value { result ≡ length self.now.items }
        ensures valid { IsScript self.now }
    {
        self.items.len() as u32
    }

    /// Whether it has no items.
    pub fn is_empty(&self) -> bool
        ensures value { IsTrue result ↔ (self.now.items ≡ []) }
    {
        self.items.is_empty()
    }

    /// The item with this index, from 0.
    pub fn item(&self, i: u32) -> Item
        requires in_range { i < length self.now.items }
        ensures value { slice_get self.now.items i ≡ Some result }
        ensures valid { IsScript self.now }
    {
        self.items[i as usize]
    }

    /// The number of analysts.
    pub fn analysts(&self) -> u32
        ensures value { result ≡ length self.now.analysts }
        ensures valid { IsScript self.now }
    {
        self.analysts.len() as u32
    }

    /// The name of the analyst with this number, from 1; analyst 1 is `main`.
    pub fn analyst(&self, a: u32) -> Name
        requires in_range { IsAnalyst (length self.now.analysts) a }
        ensures value { result ≡ analyst_name self.now.analysts a }
        ensures valid { IsScript self.now }
    {
        self.analysts[a as usize - 1]
    }
}
