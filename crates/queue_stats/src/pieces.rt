//! Pieces of lines: bytes, names and numbers.
ghost use Rattle.std.specs.Prelude.{◌≡◌, ◌++◌, OnOk, decimal};

use itoa::Buffer;
use sim_base::{Name, NoMemory};

/// Appends bytes.
pub fn push(out: &mut Vec<u8>, bytes: &[u8]) -> Result<(), NoMemory>
    ensures value { OnOk result (out.new.items ≡ out.old.items ++ bytes.now) }
{
    out.extend_from_slice(bytes)?;
    Ok(())
}

/// Appends a name.
pub fn push_name(out: &mut Vec<u8>, name: &Name) -> Result<(), NoMemory>
    ensures value { OnOk result (out.new.items ≡ out.old.items ++ name.now) }
{
    push(out, name.as_bytes())
}

/// Appends a keyword and a number.
pub fn push_figure(out: &mut Vec<u8>, keyword: &[u8], number: u64) -> Result<(), NoMemory>
    ensures value { OnOk result (out.new.items ≡ out.old.items ++ (keyword.now ++ decimal number)) }
{
    let mut buffer = Buffer::new();
    push(out, keyword)?;
    push(out, buffer.format(number).as_bytes())
}
