//! The clocks of inbound links: how far each station may go in a round.
ghost use Rattle.std.specs.Prelude.{◌≡◌, ◌<◌, ◌≤◌, ◌↔◌, ℕ, length, slice_index, suc, IfOk, IsTrue};
ghost use Rattle.std.specs.List.{All, AllByRecursion};
ghost use Rattle.net_model.specs.declared.limits.TheConstants.{MAX_HORIZON, MAX_TIME};
ghost use Rattle.link_clocks.specs.NetClocks.{AreLowered, AreNextClocks, HasClocks};

use net_model::{Link, Model};
use sim_base::NoMemory;
use std::alloc::Global;

/// The clocks of all stations after some rounds, and the next ones, in the order of the stations.
#[derive(Drop)]
pub struct Clocks {
    /// The number of rounds.
    pub rounds: u64,
    /// The clocks after them.
    pub now: Vec<u64>,
    /// The next clocks.
    pub next: Vec<u64>,
}

// Lowers the bounds of the stations to which the links of sender x lead. `time` is the sender's clock.
fn lower_by_links(links: &[Link], x: u32, time: u64, bounds: &mut [u64])
    requires far { time ≤ MAX_HORIZON }
    requires links { AllByRecursion (λ l. (1 ≤ l.to) × (l.to ≤ length bounds.old) × (l.delay ≤ MAX_TIME)) links.now }
    ensures lowered { AreLowered links.now x time bounds.old bounds.new }
{
    for link in links {
        if link.to != x {
            let i = link.to as usize - 1;
            bounds[i] = bounds[i].min(time + link.delay);
        }
    }
}

// Sets each bound to the next clock of its station. It allocates nothing.
fn set_to_next(model: &Model, clocks: &[u64], bounds: &mut [u64])
    requires clocks { length clocks.now ≡ length model.now.sites }
    requires time_max { AllByRecursion (λ t. t ≤ model.now.horizon) clocks.now }
    requires bounds { length bounds.old ≡ length model.now.sites }
    ensures next { AreNextClocks model.now clocks.now bounds.new }
{
    let horizon = model.horizon();
    for bound in bounds.iter_mut() {
        *bound = horizon;
    }
    'senders: for x in 0..model.len() {
        let station = model.station(x + 1);
        lower_by_links(station.links.as_slice(), x + 1, clocks[x as usize], bounds);
    }
}

/// Whether all times are equal to this one.
pub fn are_all(times: &[u64], time: u64) -> bool
    ensures value { IsTrue result ↔ ((i : ℕ) → i < length times.now → slice_index times.now i ≡ time) }
{
    for i in 0..times.len() {
        if times[i] != time {
            return false;
        }
    }
    true
}

// A time of zero for each station.
fn zeros(alloc: Global, model: &Model) -> Result<Vec<u64>, NoMemory>
    ensures count { IfOk result (λ times. length times.items ≡ length model.now.sites) }
    ensures zero { IfOk result (λ times. All (λ t. t ≡ 0) times.items) }
{
    let mut times = Vec::new(alloc);
    times.resize(model.len() as usize, 0)?;
    Ok(times)
}

impl Clocks {
    /// The clocks before the first round.
    ///
    /// # Errors
    ///
    /// Out of memory.
    pub fn new(alloc: Global, model: &Model) -> Result<Clocks, NoMemory>
        ensures first { IfOk result (λ c. HasClocks model.now c.rounds c.now.items c.next.items) }
        ensures none { IfOk result (λ c. c.rounds ≡ 0) }
    {
        let now = zeros(alloc, model)?;
        let mut next = zeros(alloc, model)?;
        set_to_next(model, now.as_slice(), next.as_mut_slice());
        Ok(Clocks {
            rounds: 0,
            now,
            next,
        })
    }

    /// The clocks after one more round. It allocates nothing.
    pub fn after_round(self, model: &Model) -> Clocks
        requires clocks { HasClocks model.now self.rounds self.now.items self.next.items }
        requires fits { self.rounds < MAX_HORIZON }
        ensures counted { result.rounds ≡ suc self.rounds }
        ensures clocks { HasClocks model.now result.rounds result.now.items result.next.items }
    {
        let Clocks { rounds, now, next } = self;
        let mut later = now;
        set_to_next(model, next.as_slice(), later.as_mut_slice());
        Clocks {
            rounds: rounds + 1,
            now: next,
            next: later,
        }
    }
}
