//! Worked verdicts.

use arm_balance::read_arms;
use flow_check::{Reason, Verdict, check, check_with};
use mod_layout::{Module, Section};
use std::alloc::Global;
use std::ops::Range;
use std::process::Abort;
use std::test::Fail;

mod modes;
mod released;
mod stubs;
mod summaries;
mod violations;

/// The most bytes of a text in these tests.
const MOST: usize = 256;

fn no(addr: u16, reason: Reason, value: u16) -> Verdict {
    Verdict::No {
        addr,
        reason,
        value,
    }
}

fn bytes_of(words: &[u16]) -> [u8; MOST] {
    let mut bytes = [0; MOST];
    for (k, word) in words.iter().enumerate() {
        let [low, high] = word.to_le_bytes();
        if k < MOST / 2 {
            bytes[2 * k] = low;
            bytes[2 * k + 1] = high;
        }
    }
    bytes
}

// The verdict of a text of these words from `start` on, with these addresses as data.
fn verdict_at(
    alloc: Global,
    rt: &impl Abort,
    start: u16,
    data: Range<u16>,
    words: &[u16],
    arms: &[u8],
) -> Result<Verdict, Fail> {
    assert!(rt; !words.is_empty() && words.len() < MOST / 2);
    assert!(rt; 0x0200 <= start && start < 0x8000 && start % 2 == 0);
    assert!(rt; 0x0200 <= data.start && data.start < data.end && data.end < 0x8000);
    assert!(rt; data.start % 2 == 0 && data.end % 2 == 0);
    let owner = Module {
        id: 1,
        vendor: 7,
        text: Section {
            start,
            end: start + 2 * words.len() as u16,
        },
        ram: Section {
            start: data.start,
            end: data.end,
        },
    };
    let bytes = bytes_of(words);
    let text = &bytes[..2 * words.len()];
    let arms = read_arms(alloc, arms)?;
    if arms.list.is_empty() {
        Ok(check(alloc, &owner, text)?)
    } else {
        Ok(check_with(alloc, &owner, text, &arms)?)
    }
}

// The same with the text from 0x0300 and two bytes of data from 0x0400 on.
fn verdict(alloc: Global, rt: &impl Abort, words: &[u16], arms: &[u8]) -> Result<Verdict, Fail> {
    verdict_at(alloc, rt, 0x0300, 0x0400..0x0402, words, arms)
}

// A branch on the data's word at 0x0304, whose arms meet at 0x0318.
const BALANCED: [u16; 17] = [
    0x9382, 0x0400, 0x2404, 0x4215, 0x0400, 0x4303, 0x3c05, 0x4303, 0x4303, 0x4303, 0x4303, 0x3c00,
    0x4305, 0xc032, 0x0107, 0x4030, 0x0214,
];

// The same with arms of six and five cycles.
const UNEVEN: [u16; 17] = [
    0x9382, 0x0400, 0x2404, 0x4303, 0x4303, 0x4303, 0x3c05, 0x4303, 0x4303, 0x4303, 0x4303, 0x3c00,
    0x4305, 0xc032, 0x0107, 0x4030, 0x0214,
];

// Texts, and their verdicts without certificates.
fn plain_rows() -> &'static [(&'static [u16], Verdict)] {
    &[
        (&[0x4305, 0x4030, 0x0214], Verdict::Yes),
        // A secret branch.
        (
            &BALANCED,
            Verdict::No {
                addr: 0x0304,
                reason: Reason::SecretBranch,
                value: 0,
            },
        ),
        // The data's word as an address.
        (
            &[0x4215, 0x0400, 0x4526],
            Verdict::No {
                addr: 0x0304,
                reason: Reason::SecretAddress,
                value: 0,
            },
        ),
        // A read past the data.
        (
            &[0x4215, 0x0402],
            Verdict::No {
                addr: 0x0300,
                reason: Reason::OutsideAccess,
                value: 0x0402,
            },
        ),
        // The data's word in R5, and R6, where the text is left.
        (
            &[0x4215, 0x0400, 0x4506, 0x4030, 0x0214],
            Verdict::No {
                addr: 0x0306,
                reason: Reason::SecretAtExit,
                value: 5,
            },
        ),
        // A place that is not known.
        (
            &[0x4700],
            Verdict::No {
                addr: 0x0300,
                reason: Reason::UnknownTarget,
                value: 0,
            },
        ),
        // RETI, and an instruction that ends past the text.
        (
            &[0x1300],
            Verdict::No {
                addr: 0x0300,
                reason: Reason::Illegal,
                value: 0x1300,
            },
        ),
        (
            &[0x4030],
            Verdict::No {
                addr: 0x0300,
                reason: Reason::Illegal,
                value: 0x4030,
            },
        ),
        // Protect.
        (
            &[0x1381],
            Verdict::No {
                addr: 0x0300,
                reason: Reason::Unit,
                value: 1,
            },
        ),
        // The module's id is public; it leaves by the word that gives it up.
        (&[0x1385, 0x1380], Verdict::Yes),
    ]
}

#[test]
fn plain_texts(rt: HostRuntime) -> Result<(), Fail> {
    for (words, expected) in plain_rows() {
        assert_eq!(rt; verdict(rt.alloc(), &rt, words, b"")?, *expected);
    }
    Ok(())
}

// Texts with certificates, and their verdicts.
fn balanced_rows() -> &'static [(&'static [u16], &'static [u8], Verdict)] {
    &[
        (&BALANCED, b"0304 0318 6", Verdict::Yes),
        (
            &BALANCED,
            b"0304 0318 7",
            Verdict::No {
                addr: 0x0304,
                reason: Reason::ArmTime,
                value: 0,
            },
        ),
        (
            &BALANCED,
            b"0304 031a 7",
            Verdict::No {
                addr: 0x031e,
                reason: Reason::SecretAtExit,
                value: 5,
            },
        ),
        (
            &UNEVEN,
            b"0304 0318 6",
            Verdict::No {
                addr: 0x0304,
                reason: Reason::ArmTime,
                value: 0,
            },
        ),
        // The arms go on to a write of PC.
        (
            &BALANCED,
            b"0304 0400 6",
            Verdict::No {
                addr: 0x0304,
                reason: Reason::Arm,
                value: 0x031e,
            },
        ),
        // The jump at 0x030c, in the arm that is met first, goes past this join.
        (
            &BALANCED,
            b"0304 0317 6",
            Verdict::No {
                addr: 0x0304,
                reason: Reason::Arm,
                value: 0x030c,
            },
        ),
        // The other arm begins past this join.
        (
            &BALANCED,
            b"0304 0306 6",
            Verdict::No {
                addr: 0x0304,
                reason: Reason::Arm,
                value: 0x030e,
            },
        ),
        // A certificate for another branch.
        (
            &BALANCED,
            b"0306 0318 6",
            Verdict::No {
                addr: 0x0304,
                reason: Reason::SecretBranch,
                value: 0,
            },
        ),
    ]
}

#[test]
fn balanced_texts(rt: HostRuntime) -> Result<(), Fail> {
    for (words, arms, expected) in balanced_rows() {
        assert_eq!(rt; verdict(rt.alloc(), &rt, words, arms)?, *expected);
    }
    Ok(())
}

// 20,000 instructions one after another.
#[test]
fn too_many(rt: HostRuntime) -> Result<(), Fail> {
    let mut text = Vec::new(rt.alloc());
    for _ in 0..20000 {
        text.push(0x03u8)?;
        text.push(0x43u8)?;
    }
    let owner = Module {
        id: 1,
        vendor: 7,
        text: Section {
            start: 0x0300,
            end: 0x9f40,
        },
        ram: Section {
            start: 0xa000,
            end: 0xa002,
        },
    };
    let expected = no(0x0300, Reason::TooMany, 0);
    assert_eq!(rt; check(rt.alloc(), &owner, text.as_slice())?, expected);
    Ok(())
}
