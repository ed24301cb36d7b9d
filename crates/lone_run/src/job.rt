//! Whose call it is, and the bytes of the two sections.

ghost use Rattle.std.specs.Prelude.{◌≡◌, ◌<◌, ◌-◌, ◌^◌, slice_index, slice_set};
ghost use Rattle.sm_words.specs.Words.{word_at};
ghost use Rattle.cpu_step.specs.Lone.{lone_byte, lone_read, lone_write, inside_by, is_inside};
ghost use Rattle.lone_run.specs.internal.Jobs.{lone_call};

use cpu_step::{Access, Kind};
use mod_layout::Module;
use pc_access::is_misaligned;
use sm_words::Width;

/// Whose call it is: the node's key, the module, its text, and the caller's id.
#[derive(Clone, Copy)]
pub struct Job<'a> {
    pub node_key: &'a [u8; 16],
    pub owner: &'a Module,
    pub text: &'a [u8],
    pub caller: u16,
}

/// What an instruction takes: its cycles, and whether the module closes when they have passed.
#[derive(Clone, Copy)]
pub struct Lasts {
    pub cycles: u32,
    pub closing: bool,
}

/// The byte at this place, and 0 past the end.
fn at(bytes: &[u8], place: usize) -> u16
    ensures value { result ≡ slice_index bytes.now place }
    ensures small { result < 256 }
{
    match bytes.get(place) {
        Some(byte) => u16::from(*byte),
        None => 0,
    }
}

/// Sets the byte at this place, where it is there.
fn set(bytes: &mut [u8], place: usize, byte: u8)
    ensures { bytes.new ≡ slice_set bytes.old place byte }
{
    if place < bytes.len() {
        bytes[place] = byte;
    }
}

/// The byte at an address of the text or the data.
pub fn byte(job: &Job<'_>, ram: &[u8], addr: usize) -> u16
    ensures value { result ≡ lone_byte (lone_call job.now) ram.now addr }
    ensures small { result < 256 }
{
    if job.owner.text.holds(addr) {
        at(
            job.text,
            addr.saturating_sub(usize::from(job.owner.text.start)),
        )
    } else {
        at(ram, addr.saturating_sub(usize::from(job.owner.ram.start)))
    }
}

/// The word at an address, low byte first.
pub fn word(job: &Job<'_>, ram: &[u8], addr: usize) -> u16
    requires small { addr < 2 ^ 32 }
    ensures { result ≡ word_at (lone_byte (lone_call job.now) ram.now) addr }
{
    byte(job, ram, addr) + 256 * byte(job, ram, addr + 1)
}

/// What a read gives.
pub fn read(job: &Job<'_>, ram: &[u8], access: Access) -> u16
    ensures { result ≡ lone_read (lone_call job.now) ram.now access }
{
    let addr = usize::from(access.addr);
    match access.width {
        Width::Byte => byte(job, ram, addr),
        Width::Word => word(job, ram, addr),
    }
}

/// Writes a byte or a word of the data.
pub fn write(owner: &Module, ram: &mut [u8], access: Access, value: u16)
    ensures { ram.new ≡ lone_write owner.now access.width ram.old access.addr value }
{
    let [low, high] = value.to_le_bytes();
    let start = usize::from(owner.ram.start);
    let addr = usize::from(access.addr);
    set(ram, addr.saturating_sub(start), low);
    if access.width == Width::Word {
        set(ram, (addr + 1).saturating_sub(start), high);
    }
}

/// Whether an access of this kind at an address stays in the two sections.
fn is_home(job: &Job<'_>, kind: Kind, addr: usize) -> bool
    ensures { result ≡ inside_by kind (lone_call job.now) addr }
{
    match kind {
        Kind::Read => job.owner.text.holds(addr) || job.owner.ram.holds(addr),
        Kind::Write => job.owner.ram.holds(addr),
        Kind::Fetch => false,
    }
}

/// Whether an access is aligned and stays in the two sections.
pub fn is_inside(job: &Job<'_>, access: Access) -> bool
    ensures { result ≡ is_inside (lone_call job.now) access }
{
    !is_misaligned(access.width, access.addr) && is_home(job, access.kind, usize::from(access.addr))
}
