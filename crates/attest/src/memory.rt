//! Bytes of the memory in a row.

ghost use Rattle.std.specs.Prelude.{◌≡◌, ◌+◌, ◌≤◌, length, slice_range, bytes_eq};
ghost use Rattle.pc_access.specs.declared.Kind.TheVariants.{Write};
ghost use Rattle.attest.specs.Units.{each_byte};
ghost use Rattle.attest.specs.Accesses.{memory_after};
ghost use Rattle.mem_map.specs.Contents.{SameMarks};

use mem_map::Memory;

/// Whether these 16 bytes stand from `addr` on.
pub fn stands_at(memory: &Memory, addr: u16, tag: &[u8; 16]) -> bool
    requires { addr + 16 ≤ 65536 }
    ensures same { result ≡ bytes_eq (slice_range memory.now.bytes addr (addr + 16)) tag.now }
    ensures size { length memory.now.bytes ≡ 65536 }
{
    for i in 0..16 {
        if memory.byte(addr + i) != tag[usize::from(i)] {
            return false;
        }
    }
    true
}

/// Writes these 16 bytes from `addr` on.
pub fn store(memory: &mut Memory, addr: u16, tag: &[u8; 16])
    requires { addr + 16 ≤ 65536 }
    ensures stored { memory.new.bytes ≡ memory_after memory.old.bytes (each_byte Write addr 16) tag.now }
    ensures marks { SameMarks memory.old memory.new }
{
    for i in 0..16 {
        memory.set_byte(addr + i, tag[usize::from(i)]);
    }
}
