//! The items of a script.
ghost use Rattle.std.specs.Prelude.{◌≡◌, ◌++◌, ◌∷◌, [], OnOk, OnErr};

use sim_base::{Decision, Name, NoMemory};

/// What an analyst does.
#[derive(Clone, Copy, Debug, PartialEq, Eq)]
pub enum Act {
    /// A decision on the clones.
    Decide(Decision),
    /// A question about a station's progress in a clone.
    Look { who: Name, station: Name },
}

/// An act, with the numbers of its line and of its analyst, both from 1.
#[derive(Clone, Copy, Debug, PartialEq, Eq)]
pub struct Item {
    /// Its line in the text, from 1.
    pub line: u32,
    /// Number of the analyst; 1 is `main`.
    pub analyst: u32,
    /// What the analyst does.
    pub act: Act,
}

pub(crate) fn push_item(items: &mut Vec<Item>, item: Item) -> Result<(), NoMemory>
    ensures ok { OnOk result (items.new.items ≡ items.old.items ++ item ∷ []) }
    ensures err { OnErr result (items.new.items ≡ items.old.items) }
{
    items.extend_from_slice(&[item])?;
    Ok(())
}
