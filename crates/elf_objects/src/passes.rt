//! Refusals at each index.

ghost use Rattle.std.specs.Prelude.{◌≡◌, ◌<◌, ℕ, Option};
ghost use Rattle.elf_objects.specs.Passes.{first_below, FaultIs};
ghost use Rattle.std.specs.Bool.{then_some};
ghost use Rattle.elf_objects.specs.internal.Passes.{FindsBelow};

use crate::fault::ElfFault;

pub fn refuse_if(refused: bool, fault: ElfFault) -> Option<ElfFault>
    ensures { result ≡ then_some refused fault }
{
    if refused { Some(fault) } else { None }
}

/// The first `Some` of the function over the indexes below a count, in rising order.
pub fn first_below<T: Drop, F: Fn(u32) -> Option<T>>(count: u32, found_at: F) -> Option<T>
    requires { (k : ℕ) → k < count → F.pre found_at k }
    ensures { (f : ℕ → Option T) → FindsBelow count (F.post found_at) f → result ≡ first_below f count }
{
    for i in 0..count {
        if let Some(found) = found_at(i) {
            return Some(found);
        }
    }
    None
}

/// The refusal as an error, if there is one.
pub fn refuse(fault: Option<ElfFault>) -> Result<(), ElfFault>
    ensures { FaultIs result fault }
{
    match fault {
        None => Ok(()),
        Some(fault) => Err(fault),
    }
}
