//! Little-endian numbers of a file. A number that does not lie wholly in the file reads as 0.

ghost use Rattle.std.specs.Prelude.{◌≡◌, ◌<◌, ◌^◌, slice_index};
ghost use Rattle.elf_objects.specs.Bytes.{half_at, long_at};

use byteorder::{ByteOrder, LittleEndian};

pub fn byte_at(file: &[u8], at: usize) -> u8
    ensures { result ≡ slice_index file.now at }
{
    if at < file.len() { file[at] } else { 0 }
}

#[tactic(auto, unfolding(crate::specs::Bytes::half_at))]
pub fn half_at(file: &[u8], at: usize) -> u16
    requires { at < 2 ^ 40 }
    ensures { result ≡ half_at file.now at }
{
    if file.len() < at + 2 {
        return 0;
    }
    LittleEndian::read_u16(&file[at..])
}

#[tactic(auto, unfolding(crate::specs::Bytes::long_at))]
pub fn long_at(file: &[u8], at: usize) -> u32
    requires { at < 2 ^ 40 }
    ensures { result ≡ long_at file.now at }
{
    if file.len() < at + 4 {
        return 0;
    }
    LittleEndian::read_u32(&file[at..])
}
