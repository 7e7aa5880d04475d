//! The text of the made script.
ghost use Rattle.std.specs.Prelude.{◌≡◌, ◌≤◌, ◌++◌, OnOk, IfOk, string_bytes};
ghost use Rattle.decision_script.specs.Printing.{canonical_text, line_text, words_of_decision};
ghost use Rattle.study_generator.specs.Scripts.{fork_of_plan, made_script, parent, set_of_plan};

use sim_base::NoMemory;
use std::alloc::Global;
use std::fmt::Write;

/// The number of plans of every made script.
pub const PLANS: u32 = 16;

// The clone that a plan is a fork of.
fn write_parent(text: &mut String, j: u32) -> Result<(), NoMemory>
    ensures value { OnOk result (string_bytes text.new ≡ string_bytes text.old ++ parent j) }
{
    if j == 1 {
        text.push_str("base")?;
    } else {
        let parent = j / 2;
        write!(text, "plan{parent}")?;
    }
    Ok(())
}

fn write_fork(text: &mut String, j: u32) -> Result<(), NoMemory>
    ensures value { OnOk result (string_bytes text.new ≡
        string_bytes text.old ++ line_text (words_of_decision (fork_of_plan j))) }
{
    write!(text, "fork plan{j} from ")?;
    write_parent(text, j)?;
    text.push_str("\n")?;
    Ok(())
}

fn write_set(text: &mut String, j: u32) -> Result<(), NoMemory>
    requires at_most { j ≤ PLANS }
    ensures value { OnOk result (string_bytes text.new ≡
        string_bytes text.old ++ line_text (words_of_decision (set_of_plan j))) }
{
    let at = 100 * j;
    let longest = 2 + j;
    write!(text, "set plan{j} at {at} ward1 service 1 {longest}\n")?;
    Ok(())
}

/// The text of the script, which is the same for every number.
pub fn script_text(alloc: Global) -> Result<Vec<u8>, NoMemory>
    ensures value { IfOk result (λ v. v.items ≡ canonical_text made_script) }
{
    let mut text = String::new(alloc);
    'plans: for j in 1..PLANS + 1 {
        write_fork(&mut text, j)?;
        write_set(&mut text, j)?;
    }
    Ok(text.into_bytes())
}
