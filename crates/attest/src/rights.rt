//! The accesses of the unit instructions, checked byte by byte.

ghost use Rattle.std.specs.Prelude.{◌≡◌, ◌≢◌, ◌+◌, ◌≤◌, ℕ, List, Some, None, OnOk, IfErr};
ghost use Rattle.mod_layout.specs.First.{first_in};
ghost use Rattle.pc_access.specs.Rights.{right};
ghost use Rattle.attest.specs.Units.{each_byte, in_range};

use mod_layout::{DEVICES_END, ModuleTable};
use pc_access::{Denied, Kind, allowed};
use sm_words::Width;

/// Whether the range from `start`, below `end`, can be accessed: neither a device's nor past the last
/// address.
pub fn in_range(start: u32, end: u32) -> bool
    ensures { result ≡ in_range start end }
{
    u32::from(DEVICES_END) <= start && end <= 0x10000 && start <= end
}

/// Whether so many bytes from `start` on may be read or written; the first refusal where not.
pub fn check(
    table: &ModuleTable,
    active: Option<u16>,
    kind: Kind,
    start: u16,
    count: u16,
) -> Result<(), Denied>
    requires data { kind ≢ Kind.Fetch }
    requires fits { start + count ≤ 65536 }
    ensures allowed { OnOk result ((held : List ℕ)
        → first_in (right table.now active held) (each_byte kind start count) ≡ None) }
    ensures denied { IfErr result (λ denied. (held : List ℕ)
        → first_in (right table.now active held) (each_byte kind start count) ≡ Some denied) }
{
    for offset in 0..count {
        if let Err(denied) = allowed(table, active, kind, start + offset, Width::Byte, &[]) {
            return Err(denied);
        }
    }
    Ok(())
}
