//! Reads the watches of a text.
ghost use Rattle.std.specs.Prelude.{◌≡◌, ◌≢◌, ◌≤◌, length, [], Ok, Err, OnOk, IfOk, IfErr};
ghost use Rattle.sim_base.specs.declared.limits.TheConstants.{MAX_FILE_BYTES};
ghost use Rattle.decision_script.specs.Lines.{lines};
ghost use Rattle.watch_points.specs.Reading.{after_line, after_lines, after_saying, fault_at, watches};

use crate::fault::WatchFault;
use crate::line::parse_line;
use crate::watch::{MAX_WATCHES, Watch, Watches, push_watch};
use decision_script::words::{LineFault, TextLines};
use sim_base::MAX_FILE_BYTES;
use std::alloc::Global;

fn fault_of_line(line: u32, broken: LineFault) -> WatchFault
    ensures value { result ≡ fault_at line broken }
{
    match broken {
        LineFault::NotAscii => WatchFault::NotAscii { line },
        LineFault::BadLine => WatchFault::BadLine { line },
        LineFault::BadNumber => WatchFault::BadNumber { line },
        LineFault::NoMemory => WatchFault::NoMemory,
    }
}

impl Watches {
    fn new(alloc: Global) -> Watches
        ensures value { result ≡ [] }
    {
        Watches {
            items: Vec::new(alloc),
        }
    }

    // Adds what a line said.
    fn add(&mut self, line: u32, said: Option<Watch>) -> Result<(), WatchFault>
        ensures ok { OnOk result (after_saying line self.old said ≡ Ok self.new) }
        ensures refused { IfErr result (λ e. e ≢ WatchFault.NoMemory → after_saying line self.old said ≡ Err e) }
    {
        let Some(watch) = said else {
            return Ok(());
        };
        if self.items.len() >= MAX_WATCHES {
            return Err(WatchFault::TooManyLines { line });
        }
        push_watch(&mut self.items, watch)?;
        Ok(())
    }

    #[tactic(auto, unfolding(crate::specs::Reading::after_line))]
    fn read_line(&mut self, alloc: Global, line: u32, text: &[u8]) -> Result<(), WatchFault>
        ensures ok { OnOk result (after_line line self.old text.now ≡ Ok self.new) }
        ensures refused { IfErr result (λ e. e ≢ WatchFault.NoMemory → after_line line self.old text.now ≡ Err e) }
    {
        match parse_line(alloc, line, text) {
            Ok(said) => self.add(line, said),
            Err(broken) => Err(fault_of_line(line, broken)),
        }
    }
}

#[tactic(auto, unfolding(crate::specs::Reading::after_lines))]
fn read_lines(alloc: Global, text: &[u8]) -> Result<Watches, WatchFault>
    requires at_most { length text.now ≤ MAX_FILE_BYTES }
    ensures ok { IfOk result (λ ws. after_lines 1 [] (lines text.now) ≡ Ok ws) }
    ensures refused { IfErr result (λ e. e ≢ WatchFault.NoMemory → after_lines 1 [] (lines text.now) ≡ Err e) }
{
    let mut watches = Watches::new(alloc);
    let mut left = TextLines::of(text);
    'lines: while let Some((line, text)) = left.next_line() {
        watches.read_line(alloc, line, text)?;
    }
    Ok(watches)
}

/// Reads the watches that a text states, in time proportional to its length. A refusal names the first line with a
/// fault, and of its faults the first in the order of [`WatchFault`].
pub fn read_watches(alloc: Global, text: &[u8]) -> Result<Watches, WatchFault>
    // what the text states
    ensures ok { IfOk result (λ ws. watches text.now ≡ Ok ws) }
    // or the first rule that it breaks; only out of memory is left open
    ensures refused { IfErr result (λ e. e ≢ WatchFault.NoMemory → watches text.now ≡ Err e) }
{
    if text.len() > MAX_FILE_BYTES {
        return Err(WatchFault::TooLong);
    }
    read_lines(alloc, text)
}
