//! The entry stub: the code at the start of a module's text through which the module is called.
#![tactic(auto)]

ghost use Rattle.std.specs.Prelude.{◌≡◌, ◌+◌, ◌*◌, ◌≤◌, ◌%◌, ◌++◌, length, List, []};
ghost use Rattle.entry_stubs.specs.Stub.{stub_front, stub_words};

use arrayvec::ArrayVec;
use mod_layout::Section;

/// The most words that a stub has: 38 and a table of 64 entries.
const MOST_WORDS: usize = 102;

/// The words before the table, of a stub with so many entries whose private stack ends there.
pub fn front(text: Section, data_start: u16, count: u16, stack_end: u16) -> [u16; 38]
    requires data { data_start + 2 ≤ 65535 }
    requires text { text.start + 76 ≤ 65535 }
    ensures words { result ≡ stub_front text.start text.end data_start count stack_end }
{
    [
        // A return address in the own text loops for ever.
        0x9037,
        text.start,
        0x2804,
        0x9037,
        text.end,
        0x2c01,
        0x3fff,
        // An unknown entry goes to the last two words.
        0x9036,
        count,
        0x2c1a,
        // SP and R7 are kept, and the private stack is set.
        0x4182,
        data_start,
        0x4782,
        data_start + 2,
        0x4031,
        stack_end,
        // The entry is called through the table.
        0x5606,
        0x1296,
        text.start + 76,
        // SP is restored, registers and flags are cleared, and the module is left.
        0x4211,
        data_start,
        0x4304,
        0x4305,
        0x4306,
        0x4307,
        0x4308,
        0x4309,
        0x430a,
        0x430b,
        0x430d,
        0x430e,
        0x430f,
        0xc032,
        0x0107,
        0x4210,
        data_start + 2,
        // An unknown entry gives 0.
        0x430c,
        0x4700,
    ]
}

/// The words of the stub of a module whose text is this section, whose data start there, and whose
/// entries stand at these addresses. The private stack has `stack` bytes, from the data's third word
/// on. R6 chooses the entry, R7 is the return address, and R12 the result, which is 0 for an unknown
/// entry.
#[tactic(auto, unfolding(crate::specs::Stub::stub_words))]
pub fn stub(
    text: Section,
    data_start: u16,
    stack: u16,
    entries: &[u16],
) -> ArrayVec<u16, MOST_WORDS>
    requires some { 1 ≤ length entries.now }
    requires few { length entries.now ≤ 64 }
    requires even { stack % 2 ≡ 0 }
    requires data { data_start + 4 + stack ≤ 65534 }
    requires room { text.start + 76 + 2 * length entries.now ≤ text.end }
    ensures words { result.items ≡ stub_words text data_start stack entries.now }
    ensures bytes { 2 * length result.items ≡ 76 + 2 * length entries.now }
{
    let mut words = ArrayVec::new();
    let stack_end = data_start + 4 + stack;
    let front = front(text, data_start, entries.len() as u16, stack_end);
    // Both fit: 38 words, and at most 64 entries.
    let _front_fits = words.try_extend_from_slice(&front);
    let _table_fits = words.try_extend_from_slice(entries);
    words
}
