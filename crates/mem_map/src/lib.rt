//! The memory of the machine, and marks to which its bytes can go back.
#![tactic(auto)]

ghost use Rattle.std.specs.Prelude.{◌≡◌, ◌+◌, ◌*◌, ◌<◌, ◌≤◌, ◌%◌, ◌↔◌, ◌++◌, ◌∷◌, [], IfOk, IsErr, OnOk, OnErr, get_or, length, slice_index, slice_range, slice_set, take, replicate, ◌-◌, Some, None};
ghost use Rattle.sm_words.specs.Words.{add16, cleared, word_at};
ghost use Rattle.mod_layout.specs.Table.{size_of};

use arrayvec::ArrayVec;
use mod_layout::Section;
pub use page_pool::Full;
use page_pool::Pool;
use std::alloc::{AllocError, Global};
use std::marker::Model;

/// Memory was refused.
pub type NoMemory = AllocError;

/// The number of bytes of a page.
const PAGE: u16 = 256;

/// The most marks that a memory can be made for.
const MOST_MARKS: usize = 16;

/// One byte for each address from 0x0000 to 0xFFFF, and up to 16 marks, each of which keeps the bytes of a moment.
#[derive(Debug, Drop)]
pub struct Memory {
    pool: Pool,
    present: u16,
    marks: ArrayVec<u16, MOST_MARKS>,
    room: u16,
}

impl Model for Memory {
    ghost use Rattle.mem_map.specs.Contents.{Contents};
    ghost use Rattle.mem_map.specs.internal.Marks.{contents_of, IsMarked};

    ghost Value = { Contents };

    ghost view = { λ m. contents_of m.pool m.present m.marks.items m.room };

    ghost invariant = { λ m. IsMarked m.pool m.present m.marks.items m.room };
}

impl Memory {
    /// The memory with these bytes, one for each of the 65,536 addresses, and no room for marks.
    pub fn new(alloc: Global, bytes: &[u8]) -> Result<Memory, NoMemory>
        requires size { length bytes.now ≡ 65536 }
        ensures bytes { IfOk result (λ memory. memory ≡ record { bytes = bytes.now; marked = []; room = 0 }) }
    {
        Memory::with_marks(alloc, bytes, 0)
    }

    /// The memory with these bytes, and room for so many marks. Takes all memory that it ever needs.
    #[tactic(auto, using(crate::proofs::MarkLemmas::first_marked))]
    pub fn with_marks(alloc: Global, bytes: &[u8], marks: u16) -> Result<Memory, NoMemory>
        requires size { length bytes.now ≡ 65536 }
        requires most { marks ≤ 16 }
        ensures bytes { IfOk result (λ memory. memory ≡ record { bytes = bytes.now; marked = []; room = marks }) }
    {
        Ok(Memory {
            pool: filled(alloc, bytes, marks + 1)?,
            present: 0,
            marks: ArrayVec::new(),
            room: marks,
        })
    }

    /// The byte at an address.
    pub fn byte(&self, addr: u16) -> u8
        ensures byte { result ≡ slice_index self.now.bytes addr }
        ensures size { length self.now.bytes ≡ 65536 }
    {
        self.page((addr / PAGE) as u8)[usize::from(addr % PAGE)]
    }

    /// Changes the byte at an address, and no other.
    #[tactic(auto, using(crate::proofs::MarkLemmas::written_marked, crate::proofs::MarkLemmas::written_shown))]
    pub fn set_byte(&mut self, addr: u16, byte: u8)
        ensures written { self.new ≡ record self.old { bytes = slice_set self.old.bytes addr byte } }
    {
        self.pool.write(self.present, addr, byte);
    }

    /// Sets a section's bytes to 0, and changes no other.
    #[tactic(auto, using(crate::proofs::Clearing::cleared_next))]
    pub fn clear(&mut self, section: Section)
        ensures cleared { self.new ≡
            record self.old { bytes = cleared section.start (size_of section) self.old.bytes } }
    {
        for addr in section.start..section.end {
            self.set_byte(addr, 0);
        }
    }

    /// The word at an even address, the low byte first.
    pub fn word(&self, addr: u16) -> u16
        requires even { addr % 2 ≡ 0 }
        ensures exact { result ≡ word_at (slice_index self.now.bytes) addr }
    {
        word_in(self.page((addr / PAGE) as u8), usize::from(addr % PAGE))
    }

    /// The word at an even address and the two behind it, past 0xFFFF those at 0x0000.
    #[inline(always)]
    pub fn three_words(&self, addr: u16) -> (u16, u16, u16)
        requires even { addr % 2 ≡ 0 }
        ensures first { result.0 ≡ word_at (slice_index self.now.bytes) addr }
        ensures second { result.1 ≡ word_at (slice_index self.now.bytes) (add16 addr 2) }
        ensures third { result.2 ≡ word_at (slice_index self.now.bytes) (add16 addr 4) }
    {
        let at = usize::from(addr % PAGE);
        if at > 250 {
            return (
                self.word(addr),
                self.word(addr.wrapping_add(2)),
                self.word(addr.wrapping_add(4)),
            );
        }
        let page = self.page((addr / PAGE) as u8);
        (
            word_in(page, at),
            word_in(page, at + 2),
            word_in(page, at + 4),
        )
    }

    /// The 256 bytes of page `n`, which starts at address 256 times `n`.
    pub fn page(&self, n: u8) -> &[u8]
        ensures page { result.now ≡ slice_range self.now.bytes (256 * n) (256 * n + 256) }
        ensures len { length result.now ≡ 256 }
        ensures size { length self.now.bytes ≡ 65536 }
    {
        self.pool.page(self.present, n)
    }

    /// How many marks there are.
    pub fn marks(&self) -> u16
        ensures number { result ≡ length self.now.marked }
        ensures most { length self.now.marked ≤ 16 }
    {
        self.marks.len() as u16
    }

    /// Marks the present bytes, and gives the number of marks before. Refused exactly where there is no room
    /// for one more.
    #[tactic(auto, using(crate::proofs::MarkLemmas::full_shown, crate::proofs::MarkLemmas::full_found, crate::proofs::MarkLemmas::mark_marked, crate::proofs::MarkLemmas::mark_shown))]
    pub fn mark(&mut self) -> Result<u16, Full>
        ensures full { IsErr result ↔ (length self.old.marked ≡ self.old.room) }
        ensures number { IfOk result (λ k. k ≡ length self.old.marked) }
        ensures marked { OnOk result (self.new ≡ record self.old { marked = self.old.marked ++ self.old.bytes ∷ [] }) }
        ensures unchanged { OnErr result (self.new ≡ self.old) }
    {
        match self.pool.copy_table(self.present) {
            Err(full) => Err(full),
            Ok(copy) => {
                let number = self.marks.len() as u16;
                self.marks.push(copy);
                Ok(number)
            }
        }
    }

    /// Makes the bytes those of mark `k`, and keeps every mark.
    #[tactic(auto, using(crate::proofs::MarkLemmas::not_full, crate::proofs::MarkLemmas::mark_live, crate::proofs::MarkLemmas::load_marked, crate::proofs::MarkLemmas::load_shown))]
    pub fn load(&mut self, k: u16)
        requires { k < length self.old.marked }
        ensures loaded { self.new ≡ record self.old { bytes = get_or self.old.marked k [] } }
    {
        let mark = self.marks[usize::from(k)];
        self.pool.drop_table(self.present);
        match self.pool.copy_table(mark) {
            Ok(copy) => self.present = copy,
            Err(Full) => unreachable!(),
        }
    }

    /// Makes the bytes those of mark `k`, and drops the marks above it.
    pub fn back(&mut self, k: u16)
        requires { k < length self.old.marked }
        ensures back { self.new ≡
            record self.old { bytes = get_or self.old.marked k []; marked = take (k + 1) self.old.marked } }
    {
        for _ in usize::from(k) + 1..self.marks.len() {
            self.drop_newest();
        }
        self.load(k);
    }

    // Drops the newest mark.
    #[tactic(auto, using(crate::proofs::MarkLemmas::drop_marked, crate::proofs::MarkLemmas::drop_shown))]
    fn drop_newest(&mut self)
        requires { 0 < length self.old.marked }
        ensures { self.new ≡ record self.old { marked = take (length self.old.marked - 1) self.old.marked } }
    {
        if let Some(mark) = self.marks.pop() {
            self.pool.drop_table(mark);
        }
    }
}

// The word at this place of a page.
fn word_in(page: &[u8], at: usize) -> u16
    requires { at + 1 < length page.now }
    ensures { result ≡ word_at (slice_index page.now) at }
{
    u16::from_le_bytes([page[at], page[at + 1]])
}

// A pool whose table 0 alone is live, and has these bytes.
#[tactic(auto, using(crate::proofs::MarkLemmas::filled_start, crate::proofs::MarkLemmas::filled_more, crate::proofs::MarkLemmas::filled_all))]
fn filled(alloc: Global, bytes: &[u8], tables: u16) -> Result<Pool, NoMemory>
    requires size { length bytes.now ≡ 65536 }
    requires least { 1 ≤ tables }
    requires most { tables ≤ 17 }
    ensures { IfOk result (λ pool. pool ≡ slice_set (replicate tables None) 0 (Some bytes.now)) }
{
    let mut pool = Pool::new(alloc, tables)?;
    for addr in 0..bytes.len() {
        pool.write(0, addr as u16, bytes[addr]);
    }
    Ok(pool)
}
