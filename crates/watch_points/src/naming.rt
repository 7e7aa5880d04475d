//! The names that the numbers of clones stand for.
ghost use Rattle.std.specs.Prelude.{◌≡◌, ◌+◌, ◌<◌, length};
ghost use Rattle.watch_points.specs.CloneNumbers.{numbered_name as numbered_name_of};

use crate::watch::Watches;
use sim_base::{Lists, Name};

/// The name of the clone with this number (`Watcher::clone_number`), from the clones of the script and the watches.
#[tactic(auto, using(crate::proofs::CloneNumbers::script_name, crate::proofs::CloneNumbers::watch_name))]
pub fn numbered_name(lists: &Lists, w: &Watches, number: u32) -> Name
    requires in_range { number < length lists.now.clones + length w.now }
    ensures value { result ≡ numbered_name_of lists.now.clones w.now number }
{
    if number < lists.len() {
        lists.name(number)
    } else {
        w.get(number - lists.len()).new
    }
}
