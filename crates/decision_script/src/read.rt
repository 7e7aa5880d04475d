//! Reads a script.
ghost use Rattle.std.specs.Prelude.{◌≡◌, ◌≢◌, ◌≤◌, length, codes, Ok, Err, IfOk, IfErr};
ghost use Rattle.sim_base.specs.declared.limits.TheConstants.{MAX_FILE_BYTES};
ghost use Rattle.decision_script.specs.Lines.{lines};
ghost use Rattle.decision_script.specs.Reading.{after_lines, fault_at, script, new_reader};

use crate::fault::{LineFault, ScriptFault};
use crate::item::{Act, Item, push_item};
use crate::line::{ParsedLine, parse_line};
use crate::script::{MAX_ANALYSTS, MAX_ITEMS, Script};
use crate::text_lines::TextLines;
use sim_base::{MAX_FILE_BYTES, Name};
use std::alloc::Global;
use std::marker::Model;

// The state of the reading so far.
#[derive(Drop)]
struct Reader {
    analysts: Vec<Name>,
    // the number of the current analyst
    current: u32,
    items: Vec<Item>,
}

impl Model for Reader {
    ghost use Rattle.std.specs.Prelude.{◌≤◌, length};
    ghost use Rattle.decision_script.specs.Reading.{ReaderView};
    ghost use Rattle.decision_script.specs.declared.script.TheConstants.{MAX_ANALYSTS};

    ghost Value = { ReaderView };

    ghost view = { λ r. record { analysts = r.analysts.items; current = r.current; items = r.items.items } };

    ghost invariant = { λ r. length r.analysts.items ≤ MAX_ANALYSTS };
}

impl Reader {
    ghost use Rattle.std.specs.Prelude.{◌≡◌, ◌≢◌, Ok, Err, OnOk, IfOk, IfErr};
    ghost use Rattle.decision_script.specs.Stating.{IsScript};
    ghost use Rattle.decision_script.specs.Reading.{analyst_place, in_section, with_act, after_saying};
    ghost use Rattle.decision_script.specs.Reading.{after_line, new_reader, script_of};

    fn new(alloc: Global) -> Result<Reader, ScriptFault>
        ensures ok { IfOk result (λ r. r ≡ new_reader) }
        ensures refused { IfErr result (λ e. e ≡ ScriptFault.NoMemory) }
    {
        let mut analysts = Vec::new(alloc);
        analysts.push(main_name())?;
        Ok(Reader {
            analysts,
            current: 1,
            items: Vec::new(alloc),
        })
    }

    fn begin_section(&mut self, line: u32, name: Name) -> Result<(), ScriptFault>
        ensures ok { OnOk result (in_section line self.old name (analyst_place name self.old.analysts) ≡ Ok self.new) }
        ensures refused { IfErr result (λ e. e ≢ ScriptFault.NoMemory
            → in_section line self.old name (analyst_place name self.old.analysts) ≡ Err e) }
    {
        match name.position_in(self.analysts.as_slice()) {
            Some(i) => {
                self.current = i as u32 + 1;
                Ok(())
            }
            None => {
                if self.analysts.len() >= MAX_ANALYSTS {
                    return Err(ScriptFault::TooManyAnalysts { line });
                }
                self.analysts.push(name)?;
                self.current = self.analysts.len() as u32;
                Ok(())
            }
        }
    }

    fn add_act(&mut self, line: u32, act: Act) -> Result<(), ScriptFault>
        ensures ok { OnOk result (with_act line self.old act ≡ Ok self.new) }
        ensures refused { IfErr result (λ e. e ≢ ScriptFault.NoMemory → with_act line self.old act ≡ Err e) }
    {
        if self.items.len() >= MAX_ITEMS {
            return Err(ScriptFault::TooManyLines { line });
        }
        let item = Item {
            line,
            analyst: self.current,
            act,
        };
        push_item(&mut self.items, item)?;
        Ok(())
    }

    fn take(&mut self, line: u32, said: ParsedLine) -> Result<(), ScriptFault>
        ensures ok { OnOk result (after_saying line self.old said ≡ Ok self.new) }
        ensures refused { IfErr result (λ e. e ≢ ScriptFault.NoMemory → after_saying line self.old said ≡ Err e) }
    {
        match said {
            ParsedLine::Nothing => Ok(()),
            ParsedLine::Section(name) => self.begin_section(line, name),
            ParsedLine::Action(act) => self.add_act(line, act),
        }
    }

    #[tactic(auto, unfolding(crate::specs::Reading::after_line))]
    fn read_line(&mut self, alloc: Global, line: u32, text: &[u8]) -> Result<(), ScriptFault>
        ensures ok { OnOk result (after_line line self.old text.now ≡ Ok self.new) }
        ensures refused { IfErr result (λ e. e ≢ ScriptFault.NoMemory → after_line line self.old text.now ≡ Err e) }
    {
        match parse_line(alloc, text) {
            Ok(said) => self.take(line, said),
            Err(broken) => Err(fault_of_line(line, broken)),
        }
    }

    fn into_script(self) -> Script
        requires valid { IsScript (script_of self) }
        ensures value { result ≡ script_of self }
    {
        Script {
            analysts: self.analysts,
            items: self.items,
        }
    }
}

fn main_name() -> Name
    ensures value { result ≡ codes "main" }
{
    match Name::read(b"main") {
        Some(name) => name,
        None => unreachable!(),
    }
}

fn fault_of_line(line: u32, broken: LineFault) -> ScriptFault
    ensures value { result ≡ fault_at line broken }
{
    match broken {
        LineFault::NotAscii => ScriptFault::NotAscii { line },
        LineFault::BadLine => ScriptFault::BadLine { line },
        LineFault::BadNumber => ScriptFault::BadNumber { line },
        LineFault::NoMemory => ScriptFault::NoMemory,
    }
}

#[tactic(auto, unfolding(crate::specs::Reading::after_lines))]
fn read_lines(alloc: Global, text: &[u8]) -> Result<Reader, ScriptFault>
    requires length_max { length text.now ≤ MAX_FILE_BYTES }
    ensures ok { IfOk result (λ r. after_lines 1 new_reader (lines text.now) ≡ Ok r) }
    ensures refused { IfErr result (λ e. e ≢ ScriptFault.NoMemory → after_lines 1 new_reader (lines text.now) ≡ Err e) }
{
    let mut reader = Reader::new(alloc)?;
    let mut left = TextLines::of(text);
    'lines: while let Some((line, text)) = left.next_line() {
        reader.read_line(alloc, line, text)?;
    }
    Ok(reader)
}

/// Reads the script of a text. A refusal names the first faulty line, and the first of its faults in the order of
/// [`ScriptFault`].
pub fn read_script(alloc: Global, text: &[u8]) -> Result<Script, ScriptFault>
    // the script of the text
    ensures ok { IfOk result (λ s. script text.now ≡ Ok s) }
    // or the first rule that it breaks; out of memory may come for every text
    ensures refused { IfErr result (λ e. e ≢ ScriptFault.NoMemory → script text.now ≡ Err e) }
{
    if text.len() > MAX_FILE_BYTES {
        return Err(ScriptFault::TooLong);
    }
    match read_lines(alloc, text) {
        Ok(reader) => Ok(reader.into_script()),
        Err(fault) => Err(fault),
    }
}
