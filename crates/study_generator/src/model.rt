//! The text of a made model.
ghost use Rattle.std.specs.Prelude.{◌≡◌, ◌≤◌, ◌++◌, OnOk, IfOk, string_bytes, codes};
ghost use Rattle.std.specs.List.{flat_map, join_by, range_with_len};
ghost use Rattle.study_generator.specs.Numbers.{wards};
ghost use Rattle.study_generator.specs.Texts.{door_text, model_text as model_text_of, top_text, triage_text};
ghost use Rattle.study_generator.specs.Texts.{ward_text, way_text, ways_out_text};

use sim_base::NoMemory;
use std::alloc::Global;
use std::fmt::Write;

/// The most wards of a made model.
pub const MAX_WARDS: u32 = 8;

// The number of wards.
fn ward_count(n: u32) -> u32
    ensures value { result ≡ wards n }
    ensures at_least { 1 ≤ result }
    ensures at_most { result ≤ MAX_WARDS }
{
    1 + n % MAX_WARDS
}

fn write_top(text: &mut String, n: u32) -> Result<(), NoMemory>
    ensures value { OnOk result (string_bytes text.new ≡ string_bytes text.old ++ top_text n) }
{
    write!(text, "lookahead = 2\nhorizon = 5000\nseed = {n}\n")?;
    Ok(())
}

fn write_door(text: &mut String, n: u32) -> Result<(), NoMemory>
    ensures value { OnOk result (string_bytes text.new ≡ string_bytes text.old ++ door_text n) }
{
    let gap = 1 + n % 5;
    text.push_str("[[station]]\nname = \"door\"\nkind = \"source\"\n")?;
    write!(text, "every = [1, {gap}]\njobs = 5000\n")?;
    text.push_str("link = [{ to = \"triage\", delay = 2 }]\n")?;
    Ok(())
}

// The link to a ward.
fn write_way(text: &mut String, i: u32) -> Result<(), NoMemory>
    ensures value { OnOk result (string_bytes text.new ≡ string_bytes text.old ++ way_text i) }
{
    write!(text, "{{ to = \"ward{i}\", delay = 2, weight = {i} }}")?;
    Ok(())
}

// The links to all wards.
fn write_ways(text: &mut String, wards: u32) -> Result<(), NoMemory>
    requires at_least { 1 ≤ wards }
    requires at_most { wards ≤ MAX_WARDS }
    ensures value { OnOk result (string_bytes text.new ≡
        string_bytes text.old ++ join_by way_text (codes ", ") (range_with_len 1 wards)) }
{
    write_way(text, 1)?;
    'further: for i in 2..wards + 1 {
        text.push_str(", ")?;
        write_way(text, i)?;
    }
    Ok(())
}

fn write_triage(text: &mut String, wards: u32) -> Result<(), NoMemory>
    requires at_least { 1 ≤ wards }
    requires at_most { wards ≤ MAX_WARDS }
    ensures value { OnOk result (string_bytes text.new ≡ string_bytes text.old ++ triage_text wards) }
{
    text.push_str("[[station]]\nname = \"triage\"\nkind = \"router\"\nby = \"weights\"\nlink = [")?;
    write_ways(text, wards)?;
    text.push_str("]\n")?;
    Ok(())
}

fn write_ward(text: &mut String, i: u32) -> Result<(), NoMemory>
    requires at_most { i ≤ MAX_WARDS }
    ensures value { OnOk result (string_bytes text.new ≡ string_bytes text.old ++ ward_text i) }
{
    let servers = 1 + i % 3;
    let longest = 3 + 2 * i;
    write!(
        text,
        "[[station]]\nname = \"ward{i}\"\nkind = \"server\"\nservers = {servers}\n"
    )?;
    write!(text, "room = 20\nservice = [3, {longest}]\n")?;
    text.push_str("link = [{ to = \"walk\", delay = 3 }]\n")?;
    Ok(())
}

fn write_wards(text: &mut String, wards: u32) -> Result<(), NoMemory>
    requires at_most { wards ≤ MAX_WARDS }
    ensures value { OnOk result (string_bytes text.new ≡
        string_bytes text.old ++ flat_map ward_text (range_with_len 1 wards)) }
{
    'wards: for i in 1..wards + 1 {
        write_ward(text, i)?;
    }
    Ok(())
}

fn write_ways_out(text: &mut String) -> Result<(), NoMemory>
    ensures value { OnOk result (string_bytes text.new ≡ string_bytes text.old ++ ways_out_text) }
{
    text.push_str("[[station]]\nname = \"walk\"\nkind = \"delay\"\nhold = [0, 4]\n")?;
    text.push_str("link = [{ to = \"exit\", delay = 2 }]\n")?;
    text.push_str("[[station]]\nname = \"exit\"\nkind = \"sink\"\n")?;
    Ok(())
}

/// The text of the model with this number.
pub fn model_text(alloc: Global, n: u32) -> Result<Vec<u8>, NoMemory>
    ensures value { IfOk result (λ v. v.items ≡ model_text_of n) }
{
    let wards = ward_count(n);
    let mut text = String::new(alloc);
    write_top(&mut text, n)?;
    write_door(&mut text, n)?;
    write_triage(&mut text, wards)?;
    write_wards(&mut text, wards)?;
    write_ways_out(&mut text)?;
    Ok(text.into_bytes())
}
