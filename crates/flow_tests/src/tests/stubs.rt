//! Texts that begin with a stub, and some that nearly do.

use super::{no, verdict_at};
use flow_check::{Reason, Verdict};
use std::alloc::Global;
use std::process::Abort;
use std::test::Fail;

// A stub of one entry, whose private stack ends at 0x0a24, and the entry: `mov` to R12 and a return.
pub const STUB: [u16; 41] = [
    0x9037, 0x0800, 0x2804, 0x9037, 0x0852, 0x2c01, 0x3fff, 0x9036, 0x0001, 0x2c1a, 0x4182, 0x0a00,
    0x4782, 0x0a02, 0x4031, 0x0a24, 0x5606, 0x1296, 0x084c, 0x4211, 0x0a00, 0x4304, 0x4305, 0x4306,
    0x4307, 0x4308, 0x4309, 0x430a, 0x430b, 0x430d, 0x430e, 0x430f, 0xc032, 0x0107, 0x4210, 0x0a02,
    0x430c, 0x4700, 0x084e, 0x431c, 0x4130,
];

// The words of the stub of `entries` entries, all of them the two words at the end.
fn stub_of(alloc: Global, rt: &impl Abort, entries: u16) -> Result<Vec<u16>, Fail> {
    assert!(rt; entries <= 64);
    let entry = 0x084c + 2 * entries;
    let mut words = Vec::new(alloc);
    for (k, word) in STUB.iter().enumerate() {
        match k {
            4 => words.push(entry + 4)?,
            8 => words.push(entries)?,
            0..38 => words.push(*word)?,
            _ => {}
        }
    }
    for _ in 0..entries {
        words.push(entry)?;
    }
    words.push(0x431c)?;
    words.push(0x4130)?;
    Ok(words)
}

#[test]
fn sizes(rt: HostRuntime) -> Result<(), Fail> {
    let alloc = rt.alloc();
    for entries in [1, 2, 64] {
        let words = stub_of(alloc, &rt, entries)?;
        let found = verdict_at(alloc, &rt, 0x0800, 0x0a00..0x0a24, words.as_slice(), b"")?;
        assert_eq!(rt; found, Verdict::Yes);
    }
    Ok(())
}

// A word of the stub by its number, what stands there, and whether it is still a stub.
fn word_rows() -> &'static [(usize, u16, bool)] {
    &[
        (15, 0x0a24, true),
        // A stack of no bytes, and one that ends past the data, or below its own start.
        (15, 0x0a04, true),
        (15, 0x0a26, false),
        (15, 0x0a02, false),
        // No entries.
        (8, 0, false),
        // An entry that is odd, in the table, or past the text.
        (38, 0x084f, false),
        (38, 0x084c, false),
        (38, 0x0852, false),
    ]
}

// What is no stub calls through a table by R6, which is not known.
#[test]
fn words(rt: HostRuntime) -> Result<(), Fail> {
    for (k, word, is_stub) in word_rows() {
        let mut words = STUB;
        assert!(rt; *k < 41);
        words[*k] = *word;
        let expected = if *is_stub {
            Verdict::Yes
        } else {
            no(0x0822, Reason::OutsideAccess, 0)
        };
        let found = verdict_at(rt.alloc(), &rt, 0x0800, 0x0a00..0x0a24, &words, b"")?;
        assert_eq!(rt; found, expected);
    }
    Ok(())
}

// The entry goes back into the stub.
#[test]
fn back_into_the_stub(rt: HostRuntime) -> Result<(), Fail> {
    let mut words = STUB;
    words[39] = 0x4030;
    words[40] = 0x0820;
    let found = verdict_at(rt.alloc(), &rt, 0x0800, 0x0a00..0x0a24, &words, b"")?;
    assert_eq!(rt; found, no(0x084e, Reason::UnknownTarget, 0));
    Ok(())
}
