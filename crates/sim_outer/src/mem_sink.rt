//! Sinks in memory, for tests: they hold a limited number of bytes, and fail at given calls.
ghost use Rattle.std.specs.Prelude.{◌≡◌, ◌≤◌, ◌+◌, ◌↔◌, ◌++◌, [], true, length, take, Some, OnOk, OnErr, IfOk, IsOk};
ghost use Rattle.sim_outer.specs.Bytes.{IsAppended, IsPrefixAppended};
ghost use Rattle.sim_outer.specs.Counts.{IsCounted, HasRisen};
ghost use Rattle.sim_outer.specs.MemSinkView.{stop_of as stop_of', share as share', with_share, fits_whole};
ghost use Rattle.sim_outer.specs.MemSinkView.{left_of, next_stop};
ghost use Rattle.sim_outer.specs.MemSinkView.{after_call, next_is_whole, after_put, next_part_is_whole, after_part};

use crate::sink::{PutFailed, Sink};
use sim_base::NoMemory;
use std::alloc::Global;
use std::marker::Model;

/// A sink in memory with a capacity in bytes. The calls with given numbers fail, counted from 1.
#[derive(Drop)]
pub struct MemSink {
    taken: Vec<u8>,
    capacity: usize,
    failing: Vec<(u32, usize)>,
    begun: usize,
    calls: u64,
    faults: u64,
}

impl Model for MemSink {
    ghost use Rattle.std.specs.Prelude.{◌≤◌, length};
    ghost use Rattle.std.specs.Vec.{vec_capacity};
    ghost use Rattle.sim_outer.specs.MemSinkView.{MemSinkView};

    ghost Value = { MemSinkView };

    ghost view = { λ s. record {
      taken = s.taken.items;
      capacity = s.capacity;
      failing = s.failing.items;
      begun = s.begun;
      calls = s.calls;
      faults = s.faults;
    } };

    ghost invariant = { λ s. (s.begun ≤ length s.taken.items) × (length s.taken.items ≤ s.capacity)
        × (s.capacity ≤ vec_capacity s.taken) };
}

impl MemSink {
    /// Reserves the memory of the whole capacity. Each pair of `failing` is the number of a call that fails, and the
    /// most bytes that it takes.
    pub fn new(
        alloc: Global,
        capacity: usize,
        failing: Vec<(u32, usize)>,
    ) -> Result<MemSink, NoMemory>
        ensures value { IfOk result (λ s. s ≡ record {
          taken = [];
          capacity = capacity;
          failing = failing.items;
          begun = 0;
          calls = 0;
          faults = 0;
        }) }
    {
        Ok(MemSink {
            taken: Vec::with_capacity(alloc, capacity)?,
            capacity,
            failing,
            begun: 0,
            calls: 0,
            faults: 0,
        })
    }

    /// The bytes that it took.
    pub fn bytes(&self) -> &[u8]
        ensures value { result.now ≡ self.now.taken }
    {
        self.taken.as_slice()
    }

    // The most bytes that the next call still takes, if it is one that fails.
    fn stop(&self) -> Option<usize>
        ensures value { result ≡ next_stop self.now }
    {
        let call = self.calls.saturating_add(1);
        let stop = stop_of(self.failing.as_slice(), call);
        stop.map(|stop| stop.saturating_sub(self.begun))
    }

    // Takes the bytes of a piece that fit, up to a stop, and returns whether these are all.
    fn take_share(&mut self, piece: &[u8], stop: Option<usize>) -> bool
        ensures whole { result ≡ fits_whole stop (left_of self.old) (length piece.now) }
        ensures after { self.new ≡ with_share self.old stop piece.now }
    {
        let left = self.capacity - self.taken.len();
        let (count, whole) = share(stop, piece.len(), left);
        let Ok(()) = self.taken.extend_from_slice(&piece[..count]) else {
            unreachable!()
        };
        self.begun += count;
        whole
    }

    // Counts a finished call, and a fault if its piece was not taken whole.
    fn end_call(&mut self, whole: bool) -> Result<(), PutFailed>
        ensures whole { IsOk result ↔ (whole ≡ true) }
        ensures later { self.old.faults ≤ self.new.faults }
        ensures after { self.new ≡ after_call self.old whole }
    {
        self.begun = 0;
        self.calls = self.calls.saturating_add(1);
        if whole {
            return Ok(());
        }
        self.faults = self.faults.saturating_add(1);
        Err(PutFailed)
    }
}

impl Sink for MemSink {
    ghost view = { λ s. record { bytes = Some s.taken; faults = s.faults; calls = Some s.calls } };

    fn put(&mut self, piece: &[u8]) -> Result<(), PutFailed>
        ensures ok { OnOk result (IsAppended (Some self.old.taken) piece.now (Some self.new.taken)) }
        ensures part { OnErr result (IsPrefixAppended (Some self.old.taken) piece.now (Some self.new.taken)) }
        ensures cause { OnErr result (HasRisen self.old.faults self.new.faults) }
        ensures later { self.old.faults ≤ self.new.faults }
        ensures counted { IsCounted (Some self.old.calls) (Some self.new.calls) }

        // exactly when it succeeds, the bytes taken, and when the count rises
        ensures succeeds { IsOk result ↔ (next_is_whole self.old (length piece.now) ≡ true) }
        ensures after { self.new ≡ after_put self.old piece.now }
    {
        let stop = self.stop();
        let whole = self.take_share(piece, stop);
        self.end_call(whole && stop.is_none())
    }

    fn put_part(&mut self, part: &[u8]) -> Result<(), PutFailed>
        ensures ok { OnOk result (IsAppended (Some self.old.taken) part.now (Some self.new.taken)) }
        ensures part { OnErr result (IsPrefixAppended (Some self.old.taken) part.now (Some self.new.taken)) }
        ensures cause { OnErr result (HasRisen self.old.faults self.new.faults) }
        ensures later { self.old.faults ≤ self.new.faults }
        ensures same { OnOk result (Some self.new.calls ≡ Some self.old.calls) }
        ensures counted { OnErr result (IsCounted (Some self.old.calls) (Some self.new.calls)) }

        // exactly when it succeeds, the bytes taken, and when the count rises
        ensures succeeds { IsOk result ↔ (next_part_is_whole self.old (length part.now) ≡ true) }
        ensures after { self.new ≡ after_part self.old part.now }
    {
        let stop = self.stop();
        if self.take_share(part, stop) {
            return Ok(());
        }
        self.end_call(false)
    }
}

// The stop of the call with this number, if it is one that fails.
fn stop_of(failing: &[(u32, usize)], call: u64) -> Option<usize>
    ensures value { result ≡ stop_of' failing.now call }
{
    failing.iter().find(|f| u64::from(f.0) == call).map(|f| f.1)
}

// The number of bytes taken of a piece of this size, and whether these are all.
fn share(stop: Option<usize>, size: usize, left: usize) -> (usize, bool)
    ensures count { result.0 ≡ share' stop left size }
    ensures whole { result.1 ≡ fits_whole stop left size }
{
    (
        stop.unwrap_or(size).min(size).min(left),
        size <= stop.unwrap_or(size) && size <= left,
    )
}
