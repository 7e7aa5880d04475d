//! A watch, and the watches of a text.
ghost use Rattle.std.specs.Prelude.{◌≡◌, ◌≤◌, ◌<◌, ◌↔◌, ◌++◌, ◌∷◌, [], length, slice_get, IsTrue, Some, OnOk, OnErr};
ghost use Rattle.watch_points.specs.declared.watch.TheConstants.{MAX_WATCHES};

use sim_base::{Change, Name, NoMemory};
use std::marker::Model;

/// The greatest number of watches. With the base clone they make as many clones as there may be.
pub const MAX_WATCHES: usize = 255;

/// A watch: when at least `least` jobs first wait at a server of a clone, a branch of the clone is made. The branch
/// has a change at a station, which comes later by the lookahead.
#[derive(Clone, Copy, Debug, PartialEq, Eq)]
pub struct Watch {
    /// Its line in the text, from 1.
    pub line: u32,
    /// The name of the clone that is watched.
    pub who: Name,
    /// The name of the server that is watched.
    pub station: Name,
    /// The name of the branch.
    pub new: Name,
    /// The name of the station that the branch changes.
    pub target: Name,
    /// The change there.
    pub change: Change,
    /// The least number of waiting jobs. It is the last field, next to what else is read after each window.
    pub least: u64,
}

/// Watches, in the order of their lines.
#[derive(Drop)]
pub struct Watches {
    pub(crate) items: Vec<Watch>,
}

impl Model for Watches {
    ghost use Rattle.std.specs.Prelude.{List, ◌≤◌, length};
    ghost use Rattle.watch_points.specs.declared.watch.Watch.{Watch};
    ghost use Rattle.watch_points.specs.declared.watch.TheConstants.{MAX_WATCHES};

    ghost Value = { List Watch };

    ghost view = { λ w. w.items.items };

    ghost invariant = { λ w. length w.items.items ≤ MAX_WATCHES };
}

impl Watches {
    /// The number of watches, at most [`MAX_WATCHES`].
    pub fn len(&self) -> u32
        ensures value { result ≡ length self.now }
        ensures at_most { result ≤ MAX_WATCHES }
    {
        self.items.len() as u32
    }

    /// Whether there are none.
    pub fn is_empty(&self) -> bool
        ensures value { IsTrue result ↔ (self.now ≡ []) }
    {
        self.items.is_empty()
    }

    /// The watch at a place, from 0.
    pub fn get(&self, i: u32) -> Watch
        requires in_range { i < length self.now }
        ensures value { slice_get self.now i ≡ Some result }
    {
        self.items[i as usize]
    }
}

pub(crate) fn push_watch(items: &mut Vec<Watch>, watch: Watch) -> Result<(), NoMemory>
    ensures ok { OnOk result (items.new.items ≡ items.old.items ++ watch ∷ []) }
    ensures err { OnErr result (items.new.items ≡ items.old.items) }
{
    items.extend_from_slice(&[watch])?;
    Ok(())
}
