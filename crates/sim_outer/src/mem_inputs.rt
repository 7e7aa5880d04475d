//! Inputs in memory, for tests: files whose fetch fails at given calls.
ghost use Rattle.std.specs.Prelude.{◌≡◌, ◌≤◌, ◌⊎◌, ◌↔◌, ◌==◌, Some, None, IfOk, IfErr, Err};
ghost use Rattle.std.specs.FinMap as finite;
ghost use Rattle.std.specs.List.{list_any};
ghost use Rattle.std.specs.Option.{option_map};
ghost use Rattle.sim_outer.specs.Counts.{IsCounted, HasRisen};
ghost use Rattle.sim_outer.specs.Files.{IsFetched, Lacks, prefix_of};
ghost use Rattle.sim_outer.specs.MemInputsView.{named_bytes, files_by_name, prefix_by_name, next_prefix, after_fetch};

use crate::inputs::{FetchFault, Inputs, MAX_FETCHED};
use crate::word::Word;
use sim_base::NoMemory;
use std::alloc::Global;
use std::marker::Model;

/// Files in memory. The calls with given numbers fail, counted from 1.
#[derive(Drop)]
pub struct MemInputs {
    files: Vec<(Word, Vec<u8>)>,
    failing: Vec<u32>,
    calls: u64,
    faults: u64,
}

impl Model for MemInputs {
    ghost use Rattle.sim_outer.specs.MemInputsView.{MemInputsView, named_bytes};

    ghost Value = { MemInputsView };

    ghost view = { λ m. record {
      files = named_bytes m.files.items;
      failing = m.failing.items;
      calls = m.calls;
      faults = m.faults;
    } };
}

impl MemInputs {
    /// These files; of two files with the same name the first counts. The calls with the numbers in `failing` fail.
    pub fn new(
        _alloc: Global,
        files: Vec<(Word, Vec<u8>)>,
        failing: Vec<u32>,
    ) -> Result<MemInputs, NoMemory>
        ensures value { IfOk result (λ m. m ≡ record {
          files = named_bytes files.items;
          failing = failing.items;
          calls = 0;
          faults = 0;
        }) }
    {
        Ok(MemInputs {
            files,
            failing,
            calls: 0,
            faults: 0,
        })
    }
}

impl Inputs for MemInputs {
    ghost view = { λ m. record { files = Some (files_by_name m.files); faults = m.faults; calls = Some m.calls } };

    fn fetch(&mut self, alloc: Global, name: &str) -> Result<Vec<u8>, FetchFault>
        ensures bytes { IfOk result (λ v. IsFetched (Some (files_by_name self.old.files)) name.now v.items) }
        ensures cause { IfErr result (λ e. e ≡ FetchFault.Failed → HasRisen self.old.faults self.new.faults
            ⊎ Lacks (Some (files_by_name self.old.files)) name.now) }
        ensures later { self.old.faults ≤ self.new.faults }
        ensures same { Some (files_by_name self.new.files) ≡ Some (files_by_name self.old.files) }
        ensures counted { IsCounted (Some self.old.calls) (Some self.new.calls) }

        // the exact result, and the exact cases in which the count rises
        ensures ok { IfOk result (λ v. next_prefix self.old name.now ≡ Some v.items) }
        ensures failed { (result ≡ Err FetchFault.Failed) ↔ (next_prefix self.old name.now ≡ None) }
        ensures after { self.new ≡ after_fetch self.old }
    {
        self.calls = self.calls.saturating_add(1);
        if contains(self.failing.as_slice(), self.calls) {
            self.faults = self.faults.saturating_add(1);
            return Err(FetchFault::Failed);
        }
        prefix_by_name(alloc, self.files.as_slice(), name)
    }
}

fn contains(numbers: &[u32], call: u64) -> bool
    ensures value { result ≡ list_any (λ number. number == call) numbers.now }
{
    numbers.iter().any(|number| u64::from(*number) == call)
}

// The bytes that a fetch returns of the first file of this name.
fn prefix_by_name(
    alloc: Global,
    files: &[(Word, Vec<u8>)],
    name: &str,
) -> Result<Vec<u8>, FetchFault>
    ensures ok { IfOk result (λ v. prefix_by_name (named_bytes files.now) name.now ≡ Some v.items) }
    ensures failed { (result ≡ Err FetchFault.Failed)
        ↔ (prefix_by_name (named_bytes files.now) name.now ≡ None) }
{
    let Some(file) = look_up(files, name) else {
        return Err(FetchFault::Failed);
    };
    Ok(Vec::from_slice(alloc, prefix(file))?)
}

// The bytes of the first file of this name.
fn look_up<'a>(files: &'a [(Word, Vec<u8>)], name: &str) -> Option<&'a [u8]>
    ensures value { option_map (λ b. b.now) result
        ≡ finite.get (files_by_name (named_bytes files.now)) name.now }
{
    for (word, bytes) in files {
        if name == word.text() {
            return Some(bytes.as_slice());
        }
    }
    None
}

#[tactic(auto, using(crate::proofs::Prefixes::take_prefix_of))]
fn prefix(file: &[u8]) -> &[u8]
    ensures value { result.now ≡ prefix_of file.now }
{
    &file[..file.len().min(MAX_FETCHED)]
}
