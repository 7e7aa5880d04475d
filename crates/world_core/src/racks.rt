//! The view of a station for readers: its copies (physical processes) at the front (window boundary).
ghost use Rattle.std.specs.Prelude.{◌≡◌, IfOk};
ghost use Rattle.net_model.specs.Net.{HasStation};

use crate::world::World;
use phys_proc::Rack;
use sim_base::NoMemory;
use station_steps::share_of;
use std::alloc::Global;

impl World {
    /// What readers see of a station at the front: its copies, and the lists of the clones that they represent.
    ///
    /// The world is unchanged, even if out of memory.
    pub fn rack(&mut self, alloc: Global, station: u32) -> Result<Rack, NoMemory>
        requires is_station { HasStation self.old.net station }
        // the result: a rack of the station, at the front of this world
        ensures net { IfOk result (λ r. r.net ≡ self.old.net) }
        ensures clones { IfOk result (λ r. r.clones ≡ self.old.clones) }
        ensures station { IfOk result (λ r. r.station ≡ station) }
        ensures front { IfOk result (λ r. r.front ≡ self.old.front) }
        // the world is unchanged, even if out of memory
        ensures same { self.new ≡ self.old }
    {
        let stations = &mut *self.stations;
        let model = share_of(&stations.model)?;
        let lists = stations.lists.show(alloc)?;
        let rack = stations.procs[station as usize - 1].rack(alloc, model, lists, self.front)?;
        Ok(rack)
    }
}
