//! Each call once, and scripts against plain lists.

use mem_map::Memory;
use std::alloc::{AllocError, Global};
use std::test::Fail;

#[test]
fn bytes_words_and_pages(rt: HostRuntime) -> Result<(), Fail> {
    let bytes = vec![in rt.alloc(); 0u8; 65536]?;
    let bytes = bytes.as_slice();
    assert_eq!(rt; bytes.len(), 65536);
    let mut memory = Memory::new(rt.alloc(), bytes)?;
    memory.set_byte(0x0400, 0x34);
    memory.set_byte(0x0401, 0x12);
    memory.set_byte(0xffff, 0x56);
    assert_eq!(rt; memory.byte(0x0401), 0x12);
    // The low byte stands at the lower address.
    assert_eq!(rt; memory.word(0x0400), 0x1234);
    assert_eq!(rt; memory.word(0xfffe), 0x5600);
    assert_eq!(rt; memory.word(0x0402), 0);
    let page = memory.page(4);
    assert_eq!(rt; page.first().copied(), Some(0x34));
    assert_eq!(rt; memory.page(255).last().copied(), Some(0x56));
    assert!(rt; memory.mark().is_err());
    Ok(())
}

// The bytes that a memory should have, and those at its marks.
#[derive(Drop)]
struct Plain {
    bytes: Vec<u8>,
    marks: Vec<Vec<u8>>,
}

impl Plain {
    fn set(&mut self, addr: u16, byte: u8) {
        if let Some(place) = self.bytes.get_mut(usize::from(addr)) {
            *place = byte;
        }
    }

    fn mark(&mut self) -> Result<(), AllocError> {
        self.marks.push(self.bytes.clone()?)?;
        Ok(())
    }

    fn load(&mut self, k: u16) -> Result<(), AllocError> {
        if let Some(mark) = self.marks.get(usize::from(k)) {
            self.bytes = mark.clone()?;
        }
        Ok(())
    }

    fn back(&mut self, k: u16) -> Result<(), AllocError> {
        self.load(k)?;
        self.marks.truncate(usize::from(k).saturating_add(1));
        Ok(())
    }

    fn agrees(&self, memory: &Memory, addr: u16) -> bool {
        self.bytes.get(usize::from(addr)).copied() == Some(memory.byte(addr))
    }
}

// The next number of a row that looks random.
fn next(seed: u32) -> u32 {
    seed.wrapping_mul(1_103_515_245).wrapping_add(12_345) % 0x8000_0000
}

// One step of a script, in both; whether they agree where it wrote, and at another address.
fn step(memory: &mut Memory, plain: &mut Plain, number: u32) -> Result<bool, AllocError> {
    let addr = (number / 64 % 65_536) as u16;
    let k = (number / 8 % 20) as u16;
    let kind = number / 4096 % 64;
    let is_mark = k < memory.marks();
    if kind == 0 && memory.mark().is_ok() {
        plain.mark()?;
    } else if kind == 1 && is_mark {
        memory.load(k);
        plain.load(k)?;
    } else if kind == 2 && is_mark {
        memory.back(k);
        plain.back(k)?;
    } else {
        let byte = (number / 16 % 256) as u8;
        memory.set_byte(addr, byte);
        plain.set(addr, byte);
    }
    Ok(plain.agrees(memory, addr) && plain.agrees(memory, addr.wrapping_mul(7)))
}

fn start(alloc: Global) -> Result<Plain, AllocError> {
    Ok(Plain {
        bytes: vec![in alloc; 0u8; 65_536]?,
        marks: Vec::new(alloc),
    })
}

#[test]
fn scripts_of_ten_thousand_steps(rt: HostRuntime) -> Result<(), Fail> {
    let zeros = vec![in rt.alloc(); 0u8; 65536]?;
    let zeros = zeros.as_slice();
    assert_eq!(rt; zeros.len(), 65536);
    let mut memory = Memory::with_marks(rt.alloc(), zeros, 16)?;
    let mut plain = start(rt.alloc())?;
    let mut seed = 1;
    for _ in 0..10_000 {
        seed = next(seed);
        assert!(rt; step(&mut memory, &mut plain, seed)?);
    }
    for addr in 0..=u16::MAX {
        assert!(rt; plain.agrees(&memory, addr));
    }
    // A seventeenth mark finds no room.
    assert!(rt; memory.marks() <= 16);
    Ok(())
}
