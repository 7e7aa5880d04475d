//! The logs of a clone and its trace, from the copies (physical processes) that represent it.
ghost use Rattle.std.specs.Prelude.{◌≡◌, ◌≢◌, ◌<◌, ◌≤◌, ℕ, length, slice_index_or, IfOk, IfSome, IfNone, true, false};
ghost use Rattle.std.specs.List.{AllByRecursion};
ghost use Rattle.sim_base.specs.Clones.{clone_at};
ghost use Rattle.sim_base.specs.declared.lists.TheConstants.{MAX_CLONES};
ghost use Rattle.clone_sets.specs.Sets.{has};
ghost use Rattle.net_model.specs.Net.{HasStation};
ghost use Rattle.stations.specs.Runs.{simulation};
ghost use Rattle.run_laws.specs.Merges.{merge};
ghost use Rattle.run_laws.specs.Runs.{run_of, log_at};
ghost use Rattle.world_core.specs.Tracing.{by_key, IsCopyOf};

use crate::world::World;
use log_chain::Log;
use phys_proc::PhysCopy;
use sim_base::{Entry, NoMemory};
use std::alloc::Global;
use std::cmp::Ordering;

// Which of two entries comes first: by time, sender and number.
fn order(a: &Entry, b: &Entry) -> Ordering
    ensures value { result ≡ by_key a.now b.now }
{
    a.msg.key.cmp(&b.msg.key)
}

// The entries of a log.
fn entries(alloc: Global, log: &Log) -> Result<Vec<Entry>, NoMemory>
    ensures value { IfOk result (λ v. v.items ≡ log.now) }
{
    let mut out = Vec::with_capacity(alloc, log.len() as usize)?;
    let mut walk = log.walk_from(0);
    while let Some(entry) = walk.next() {
        out.push(entry)?;
    }
    Ok(out)
}

// Merges two ordered lists.
fn merge_logs(alloc: Global, xs: &[Entry], ys: &[Entry]) -> Result<Vec<Entry>, NoMemory>
    ensures value { IfOk result (λ v. v.items ≡ merge by_key xs.now ys.now) }
{
    let mut out = Vec::with_capacity(alloc, xs.len().saturating_add(ys.len()))?;
    let mut i = 0;
    let mut j = 0;
    while i < xs.len() && j < ys.len() {
        if order(&xs[i], &ys[j]) == Ordering::Greater {
            out.push(ys[j])?;
            j += 1;
        } else {
            out.push(xs[i])?;
            i += 1;
        }
    }
    out.extend_from_slice(&xs[i..])?;
    out.extend_from_slice(&ys[j..])?;
    Ok(out)
}

// The copy that represents clone c.
fn copy_of(copies: &[PhysCopy], c: u32) -> Option<&PhysCopy>
    requires below { c < MAX_CLONES }
    ensures some { IfSome result (λ copy. IsCopyOf copies.now c copy.now) }
    ensures none { IfNone result (AllByRecursion (λ a. has a.set c ≡ false) copies.now) }
{
    for copy in copies {
        if copy.set().has(c) {
            return Some(copy);
        }
    }
    None
}

impl World {
    // The copy of a station that represents a clone: its log is that of each of its clones.
    fn copy(&self, who: u32, station: u32) -> &PhysCopy
        requires in_range { who < length self.now.clones }
        requires is_station { HasStation self.now.net station }
        ensures is_in { has result.now.set who ≡ true }
        ensures log { (c : ℕ) → has result.now.set c ≡ true →
            result.now.log ≡ log_at (simulation self.now.net) (clone_at self.now.clones c) station self.now.front }
        ensures length_max { length result.now.log ≤ self.now.net.limit }
        ensures alike { (c : ℕ) → c < length self.now.clones →
            log_at (simulation self.now.net) (clone_at self.now.clones c) station self.now.front
            ≡ log_at (simulation self.now.net) (clone_at self.now.clones who) station self.now.front →
            has result.now.set c ≡ true }
    {
        let stations = &*self.stations;
        match copy_of(stations.procs[station as usize - 1].copies(), who) {
            Some(copy) => copy,
            None => unreachable!(),
        }
    }

    /// The log of a clone at a station, up to the front: that of the copy that represents the clone there. It allocates
    /// nothing.
    pub fn log(&self, who: u32, station: u32) -> &Log
        requires in_range { who < length self.now.clones }
        requires is_station { HasStation self.now.net station }
        ensures value { result.now ≡ log_at (simulation self.now.net) (clone_at self.now.clones who) station
            self.now.front }
        ensures length_max { length result.now ≤ self.now.net.limit }
    {
        self.copy(who, station).log()
    }

    /// The number of entries in the log of a clone at a station, up to the front. It allocates nothing.
    pub fn log_len(&self, who: u32, station: u32) -> u64
        requires in_range { who < length self.now.clones }
        requires is_station { HasStation self.now.net station }
        ensures value { result ≡ length (log_at (simulation self.now.net) (clone_at self.now.clones who) station
            self.now.front) }
    {
        self.log(who, station).len()
    }

    /// The entry at place i, from 0, of the log of a clone at a station, up to the front. It allocates nothing.
    pub fn entry(&self, who: u32, station: u32, i: u64) -> Entry
        requires in_range { who < length self.now.clones }
        requires is_station { HasStation self.now.net station }
        requires within { i < length (log_at (simulation self.now.net) (clone_at self.now.clones who) station
            self.now.front) }
        ensures value { result ≡ slice_index_or (log_at (simulation self.now.net) (clone_at self.now.clones who)
            station self.now.front) i result }
    {
        self.log(who, station).get(i)
    }

    /// The first clone that shares a copy with the clone `who` at a station; it may be `who`. It is the first with the
    /// same log there. It allocates nothing.
    pub fn first_with(&self, who: u32, station: u32) -> u32
        requires in_range { who < length self.now.clones }
        requires is_station { HasStation self.now.net station }
        ensures within { result ≤ who }
        ensures same { log_at (simulation self.now.net) (clone_at self.now.clones result) station self.now.front
            ≡ log_at (simulation self.now.net) (clone_at self.now.clones who) station self.now.front }
        ensures first { (c : ℕ) → c < result →
            log_at (simulation self.now.net) (clone_at self.now.clones c) station self.now.front
            ≢ log_at (simulation self.now.net) (clone_at self.now.clones who) station self.now.front }
    {
        match self.copy(who, station).set().first() {
            Some(first) => first,
            None => unreachable!(),
        }
    }

    /// The trace of a clone up to the front: the logs of its stations, merged by time, sender and number.
    ///
    /// # Errors
    ///
    /// Out of memory.
    pub fn trace(&self, alloc: Global, who: u32) -> Result<Vec<Entry>, NoMemory>
        requires in_range { who < length self.now.clones }
        ensures value { IfOk result (λ es.
            es.items ≡ (run_of (simulation self.now.net) (clone_at self.now.clones who) self.now.front).at.trace) }
    {
        let mut trace = Vec::new(alloc);
        for i in 0..self.stations.model.len() {
            let log = entries(alloc, self.log(who, i + 1))?;
            trace = merge_logs(alloc, trace.as_slice(), log.as_slice())?;
        }
        Ok(trace)
    }
}
