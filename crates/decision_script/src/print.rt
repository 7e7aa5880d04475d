//! The canonical text of a script.
ghost use Rattle.std.specs.Prelude.{◌≡◌, ◌++◌, ◌∷◌, [], ◌≤◌, drop, length, map, OnOk, IfOk, decimal, codes};
ghost use Rattle.std.specs.List.{All, flat_map, join_with_byte};
ghost use Rattle.sim_base.specs.Params.{words_of_change};
ghost use Rattle.decision_script.specs.Printing.{canonical_text, item_lines, line_text, section_before};
ghost use Rattle.decision_script.specs.Printing.{words_of_act, words_of_decision, words_of_section};
ghost use Rattle.decision_script.specs.Stating.{IsAnalyst};
ghost use Rattle.decision_script.specs.declared.script.TheConstants.{MAX_ANALYSTS};

use crate::item::{Act, Item};
use crate::script::Script;
use itoa::Buffer;
use sim_base::{Change, Decision, Name, NoMemory};
use std::alloc::Global;

fn push_name(out: &mut Vec<u8>, name: &Name) -> Result<(), NoMemory>
    ensures value { OnOk result (out.new.items ≡ out.old.items ++ (32 ∷ name.now)) }
{
    out.extend_from_slice(b" ")?;
    out.extend_from_slice(name.as_bytes())?;
    Ok(())
}

fn push_number(out: &mut Vec<u8>, number: u64) -> Result<(), NoMemory>
    ensures value { OnOk result (out.new.items ≡ out.old.items ++ (32 ∷ decimal number)) }
{
    let mut buffer = Buffer::new();
    out.extend_from_slice(b" ")?;
    out.extend_from_slice(buffer.format(number).as_bytes())?;
    Ok(())
}

fn push_section(out: &mut Vec<u8>, name: &Name) -> Result<(), NoMemory>
    ensures value { OnOk result (out.new.items ≡ out.old.items ++ line_text (words_of_section name.now)) }
{
    out.extend_from_slice(b"analyst")?;
    push_name(out, name)?;
    out.extend_from_slice(b"\n")?;
    Ok(())
}

fn push_fork(out: &mut Vec<u8>, new: &Name, old: &Name) -> Result<(), NoMemory>
    ensures value { OnOk result (out.new.items ≡
        out.old.items ++ join_with_byte 32 (codes "fork" ∷ new.now ∷ codes "from" ∷ old.now ∷ [])) }
{
    out.extend_from_slice(b"fork")?;
    push_name(out, new)?;
    out.extend_from_slice(b" from")?;
    push_name(out, old)
}

fn push_change(out: &mut Vec<u8>, change: &Change) -> Result<(), NoMemory>
    ensures value { OnOk result (out.new.items ≡ out.old.items
        ++ (32 ∷ join_with_byte 32 (words_of_change change.now.param change.now.a change.now.b))) }
{
    out.extend_from_slice(b" ")?;
    out.extend_from_slice(change.param.word().as_bytes())?;
    push_number(out, change.a)?;
    if change.param.values() == 1 {
        return Ok(());
    }
    push_number(out, change.b)
}

fn push_set(
    out: &mut Vec<u8>,
    who: &Name,
    at: u64,
    station: &Name,
    change: &Change,
) -> Result<(), NoMemory>
    ensures value { OnOk result (out.new.items ≡ out.old.items
        ++ join_with_byte 32 (codes "set" ∷ who.now ∷ codes "at" ∷ decimal at ∷ station.now
        ∷ words_of_change change.now.param change.now.a change.now.b)) }
{
    out.extend_from_slice(b"set")?;
    push_name(out, who)?;
    out.extend_from_slice(b" at")?;
    push_number(out, at)?;
    push_name(out, station)?;
    push_change(out, change)
}

fn push_end(out: &mut Vec<u8>, who: &Name, at: u64) -> Result<(), NoMemory>
    ensures value { OnOk result (out.new.items ≡
        out.old.items ++ join_with_byte 32 (codes "end" ∷ who.now ∷ codes "at" ∷ decimal at ∷ [])) }
{
    out.extend_from_slice(b"end")?;
    push_name(out, who)?;
    out.extend_from_slice(b" at")?;
    push_number(out, at)
}

/// Appends a decision, without the line feed. If out of memory, a part of it may have been appended, and the text must
/// be dropped.
pub fn push_decision(out: &mut Vec<u8>, decision: &Decision) -> Result<(), NoMemory>
    ensures value { OnOk result (out.new.items ≡
        out.old.items ++ join_with_byte 32 (words_of_decision decision.now)) }
{
    match decision {
        Decision::Fork { new, old } => push_fork(out, new, old),
        Decision::Set {
            who,
            at,
            station,
            change,
        } => push_set(out, who, *at, station, change),
        Decision::End { who, at } => push_end(out, who, *at),
    }
}

fn push_decision_line(out: &mut Vec<u8>, decision: &Decision) -> Result<(), NoMemory>
    ensures value { OnOk result (out.new.items ≡ out.old.items ++ line_text (words_of_decision decision.now)) }
{
    push_decision(out, decision)?;
    out.extend_from_slice(b"\n")?;
    Ok(())
}

fn push_look(out: &mut Vec<u8>, who: &Name, station: &Name) -> Result<(), NoMemory>
    ensures value { OnOk result (out.new.items ≡ out.old.items
        ++ line_text (codes "look" ∷ who.now ∷ station.now ∷ [])) }
{
    out.extend_from_slice(b"look")?;
    push_name(out, who)?;
    push_name(out, station)?;
    out.extend_from_slice(b"\n")?;
    Ok(())
}

fn push_act(out: &mut Vec<u8>, act: &Act) -> Result<(), NoMemory>
    ensures value { OnOk result (out.new.items ≡ out.old.items ++ line_text (words_of_act act.now)) }
{
    match act {
        Act::Decide(decision) => push_decision_line(out, decision),
        Act::Look { who, station } => push_look(out, who, station),
    }
}

fn other_analysts(analysts: &[Name]) -> &[Name]
    ensures value { result.now ≡ drop 1 analysts.now }
{
    match analysts {
        [_main, others @ ..] => others,
        [] => analysts,
    }
}

// A section line for each of these analysts.
fn push_sections(out: &mut Vec<u8>, names: &[Name]) -> Result<(), NoMemory>
    ensures value { OnOk result (out.new.items ≡ out.old.items ++ flat_map line_text (map words_of_section names.now)) }
{
    'names: for name in names {
        push_section(out, name)?;
    }
    Ok(())
}

fn push_section_before(
    out: &mut Vec<u8>,
    analysts: &[Name],
    force: u32,
    item: &Item,
) -> Result<(), NoMemory>
    requires in_range { IsAnalyst (length analysts.now) item.now.analyst }
    ensures value { OnOk result (out.new.items ≡ out.old.items
        ++ flat_map line_text (section_before analysts.now force item.now)) }
{
    if item.analyst == force {
        return Ok(());
    }
    push_section(out, &analysts[item.analyst as usize - 1])
}

fn push_items(out: &mut Vec<u8>, analysts: &[Name], items: &[Item]) -> Result<(), NoMemory>
    requires at_most { length analysts.now ≤ MAX_ANALYSTS }
    requires in_range { All (λ i. IsAnalyst (length analysts.now) i.analyst) items.now }
    ensures value { OnOk result (out.new.items ≡ out.old.items
        ++ flat_map line_text (item_lines analysts.now (length analysts.now) items.now)) }
{
    let mut force = analysts.len() as u32;
    'items: for item in items {
        push_section_before(out, analysts, force, item)?;
        push_act(out, &item.act)?;
        force = item.analyst;
    }
    Ok(())
}

/// The canonical text: a section line for each analyst from the second on, then the items, with a section line wherever
/// the analyst changes.
pub fn print_script(alloc: Global, script: &Script) -> Result<Vec<u8>, NoMemory>
    ensures value { IfOk result (λ v. v.items ≡ canonical_text script.now) }
{
    let mut out = Vec::new(alloc);
    let analysts = script.analysts.as_slice();
    push_sections(&mut out, other_analysts(analysts))?;
    push_items(&mut out, analysts, script.items.as_slice())?;
    Ok(out)
}
