//! Queries on a world: due times, the next front (window boundary) and the report's figures.
ghost use Rattle.std.specs.Prelude.{◌≡◌, ◌*◌, ◌<◌, ◌≤◌, length};
ghost use Rattle.std.specs.List.{AllByRecursion};
ghost use Rattle.sim_base.specs.Clones.{clone_at};
ghost use Rattle.sim_base.specs.declared.lists.TheConstants.{MAX_CLONES};
ghost use Rattle.net_model.specs.Net.{HasStation};
ghost use Rattle.net_model.specs.declared.limits.TheConstants.{MAX_LIMIT};
ghost use Rattle.stations.specs.Runs.{simulation, next_front, copies, handled_once, handled_alone};
ghost use Rattle.run_laws.specs.Fronts.{least_of, least};
ghost use Rattle.phys_proc.specs.Own.{handled_alone_by, all_sizes};

use crate::world::World;
use phys_proc::PhysCopy;
use sim_base::Figures;
use stations::due::{earlier, window_end};

// The number of messages that the clones of these copies would have handled, each alone.
fn alone_in(copies: &[PhysCopy]) -> u64
    requires length_max { AllByRecursion (λ a. length a.log ≤ MAX_LIMIT) copies.now }
    requires at_most { all_sizes copies.now ≤ MAX_CLONES }
    ensures value { result ≡ handled_alone_by copies.now }
{
    let mut sum = 0;
    for copy in copies {
        sum += copy.set().len() as u64 * copy.log().len();
    }
    sum
}

impl World {
    /// The least time that is due in a clone, below its end; None exactly if there is none. It allocates nothing.
    pub fn least_of(&self, c: u32) -> Option<u64>
        requires in_range { c < length self.now.clones }
        ensures value { result ≡ least_of (simulation self.now.net) (clone_at self.now.clones c) self.now.front }
    {
        let stations = &*self.stations;
        let mut least = None;
        for i in 0..stations.procs.len() {
            least = earlier(
                least,
                stations.procs[i].least_of(&stations.model, stations.ends.ends(), c),
            );
        }
        least
    }

    /// The least time that is due in any clone; None exactly if there is none. It allocates nothing.
    pub fn least(&self) -> Option<u64>
        ensures value { result ≡ least (simulation self.now.net) self.now.clones self.now.front }
    {
        let stations = &*self.stations;
        let mut least = None;
        for i in 0..stations.procs.len() {
            least = stations.procs[i].with_least(&stations.model, stations.ends.ends(), least);
        }
        least
    }

    /// The next front: the least due time plus the lookahead, at most the horizon. It allocates nothing.
    pub fn bound(&self) -> u64
        ensures value { result ≡ next_front self.now.net self.now.clones self.now.front }
    {
        window_end(&self.stations.model, self.least())
    }

    /// The report's figures of a station at the front: its copies, the messages handled once, and those that the clones
    /// would handle alone. It allocates nothing.
    pub fn figures(&self, station: u32) -> Figures
        requires is_station { HasStation self.now.net station }
        ensures copies { result.copies ≡ copies self.now.net self.now.clones station self.now.front }
        ensures handled { result.handled ≡ handled_once self.now.net self.now.clones station self.now.front }
        ensures alone { result.alone ≡ handled_alone self.now.net self.now.clones station self.now.front }
    {
        let stations = &*self.stations;
        let proc = &stations.procs[station as usize - 1];
        Figures {
            copies: proc.copies().len() as u64,
            handled: proc.handled(),
            alone: alone_in(proc.copies()),
        }
    }
}
