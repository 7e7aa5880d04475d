//! Lists that grow, with out of memory as `NoMemory`.
ghost use Rattle.std.specs.Prelude.{◌≡◌, ◌++◌, ◌∷◌, [], OnOk};

use sim_base::NoMemory;

/// Appends an element.
pub fn add<X: Drop>(list: &mut Vec<X>, one: X) -> Result<(), NoMemory>
    ensures value { OnOk result (list.new.items ≡ list.old.items ++ one ∷ []) }
{
    list.push(one)?;
    Ok(())
}

/// Appends the elements of another list.
pub fn add_all<X: Drop>(list: &mut Vec<X>, mut more: Vec<X>) -> Result<(), NoMemory>
    ensures value { OnOk result (list.new.items ≡ list.old.items ++ more.items) }
{
    list.append(&mut more)?;
    Ok(())
}
