//! Pieces of lines: bytes, names and numbers.
ghost use Rattle.std.specs.Prelude.{◌≡◌, ◌++◌, OnOk, decimal};

use itoa::Buffer;
use sim_base::{Name, NoMemory};

/// Appends bytes.
pub(crate) fn push(out: &mut Vec<u8>, bytes: &[u8]) -> Result<(), NoMemory>
    ensures value { OnOk result (out.new.items ≡ out.old.items ++ bytes.now) }
{
    out.extend_from_slice(bytes)?;
    Ok(())
}

/// Appends a name.
pub(crate) fn push_name(out: &mut Vec<u8>, name: &Name) -> Result<(), NoMemory>
    ensures value { OnOk result (out.new.items ≡ out.old.items ++ name.now) }
{
    push(out, name.as_bytes())
}

/// Appends a number.
pub(crate) fn push_number(out: &mut Vec<u8>, number: u64) -> Result<(), NoMemory>
    ensures value { OnOk result (out.new.items ≡ out.old.items ++ decimal number) }
{
    let mut buffer = Buffer::new();
    push(out, buffer.format(number).as_bytes())
}

/// Appends bytes, and a number after them.
pub(crate) fn push_count(out: &mut Vec<u8>, word: &[u8], number: u64) -> Result<(), NoMemory>
    ensures value { OnOk result (out.new.items ≡ out.old.items ++ (word.now ++ decimal number)) }
{
    push(out, word)?;
    push_number(out, number)
}
