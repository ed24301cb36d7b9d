//! The image of a workload.
//!
//! The program of the outside sets SP, enables line 0 and interrupts, and calls module 1 again and again. The module
//! branches on its data word, and both ways take equally long. The handler is RETI alone.

ghost use Rattle.std.specs.Prelude.{◌≡◌, ℕ, ◌≤◌, ◌<◌, ◌+◌, ◌-◌, ◌*◌, ◌++◌, length, replicate, slice_index, IfOk, OnOk};
ghost use Rattle.mod_layout.specs.Tables.{IsTable};
ghost use Rattle.workload.specs.Program as spec;

use image_text::Image;
use mod_layout::{ModuleTable, RESET_VECTOR, Section};
use std::alloc::{AllocError, Global};

/// Where the program of the outside starts.
pub const START: u16 = 0x0200;

/// The program of the outside.
pub const PROGRAM: [u16; 12] = [
    // SP and the lines' register are set.
    0x4031, 0x0600, 0x43d2, 0x0040,
    // R7 and GIE are set, and the module is called.
    0x4037, 0x0214, 0xd232, 0x4030, 0x0300, 0x4303,
    // It comes back to here, and is called again.
    0x4030, 0x0300,
];

/// The module's text.
pub const TEXT: Section = Section {
    start: 0x0300,
    end: 0x0322,
};

/// The module's data, one word.
pub const DATA: Section = Section {
    start: 0x0400,
    end: 0x0402,
};

/// The module's program.
pub const MODULE: [u16; 17] = [
    // The data word is compared with 0.
    0x9382, 0x0400, 0x2404,
    // It is not 0: six cycles.
    0x4215, 0x0400, 0x4303, 0x3c05,
    // It is 0: six cycles.
    0x4303, 0x4303, 0x4303, 0x4303, 0x3c00,
    // R5 and the flags are cleared, and the module returns.
    0x4305, 0xc032, 0x0107, 0x4030, 0x0214,
];

/// The module's vendor.
pub const VENDOR: u16 = 7;

/// Where the handler of line 0 starts.
pub const HANDLER: u16 = 0x0500;

/// Where the vector of line 0 stands.
pub const LINE_VECTOR: u16 = 0xffe2;

/// Where the stack of a handler starts that interrupts a module.
pub const HANDLER_STACK: u16 = 0x0600;

/// The word of RETI.
pub const RETI: u16 = 0x1300;

// What the rules say of them: a changed number is refused here.
const _: () = prove!(HANDLER == 0x0500 && HANDLER_STACK == 0x0600 && LINE_VECTOR == 0xffe2);

const _: () = prove!(RETI == 0x1300 && START == 0x0200 && VENDOR == 7);

const _: () = prove!(
    TEXT.start == 0x0300 && TEXT.end == 0x0322 && DATA.start == 0x0400 && DATA.end == 0x0402
);

/// The image whose module has this word as its data.
pub fn image(alloc: Global, word: u16) -> Result<Image, AllocError>
    ensures image { IfOk result (λ i. i ≡ spec.image word) }
{
    let memory = memory(alloc, word)?;
    let node_key = [0; 16];
    let _memory_bytes = tell_bytes(&memory);
    let _key_bytes = tell_bytes(&node_key);
    Ok(Image {
        memory,
        table: table(),
        node_key,
        handler_sp: HANDLER_STACK,
    })
}

// The table of the one module.
fn table() -> ModuleTable
    ensures module { result ≡ spec.table }
    ensures table { IsTable result }
{
    let mut table = ModuleTable::new();
    match table.add(VENDOR, TEXT, DATA) {
        Ok(_) => {}
        Err(_) => {}
    }
    table
}

// The bytes of memory.
#[tactic(auto, unfolding(crate::specs::Program::memory))]
fn memory(alloc: Global, word: u16) -> Result<Vec<u8>, AllocError>
    ensures memory { IfOk result (λ m. m.items ≡ spec.memory word) }
    ensures length { IfOk result (λ m. length m.items ≡ 65536) }
{
    let mut memory = Vec::new(alloc);
    place(&mut memory, START, &PROGRAM)?;
    place(&mut memory, TEXT.start, &MODULE)?;
    place(&mut memory, DATA.start, &[word])?;
    place(&mut memory, HANDLER, &[RETI])?;
    place(&mut memory, LINE_VECTOR, &[HANDLER])?;
    place(&mut memory, RESET_VECTOR, &[START])?;
    Ok(memory)
}

// Zeros up to an address.
fn fill(memory: &mut Vec<u8>, end: usize) -> Result<(), AllocError>
    requires order { length memory.old.items ≤ end }
    ensures zeros { OnOk result (memory.new.items ≡ memory.old.items ++ replicate (end - length memory.old.items) 0) }
    ensures length { OnOk result (length memory.new.items ≡ end) }
{
    memory.resize(end, 0)?;
    Ok(())
}

// Zeros up to an address, and words there.
#[tactic(auto, unfolding(crate::specs::Program::placed_words))]
fn place(memory: &mut Vec<u8>, addr: u16, words: &[u16]) -> Result<(), AllocError>
    requires order { length memory.old.items ≤ addr }
    ensures placed { OnOk result (memory.new.items ≡ spec.placed_words addr words.now memory.old.items) }
    ensures length { OnOk result (length memory.new.items ≡ addr + 2 * length words.now) }
{
    fill(memory, usize::from(addr))?;
    for word in words {
        memory.extend_from_slice(&word.to_le_bytes())?;
    }
    Ok(())
}

// A slice of bytes holds bytes.
fn tell_bytes(bytes: &[u8]) -> usize
    ensures { (k : ℕ) → slice_index bytes.now k < 256 }
{
    bytes.len()
}
