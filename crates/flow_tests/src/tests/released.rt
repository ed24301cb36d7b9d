//! Modules that answer: verdicts without terms, and under them.

use super::bytes_of;
use arm_balance::read_arms;
use flow_check::{Reason, Verdict, check_under, check_with};
use mod_layout::{Module, Section};
use std::alloc::Global;
use std::process::Abort;
use std::test::Fail;

/// A text from 0x1000 on, its certificates, the answers and the public words of its data, which begin at 0x2000.
struct Row {
    words: &'static [u16],
    arms: &'static [u8],
    answers: &'static [u8],
    public: &'static [u16],
    /// What is said where nothing is told.
    closed: Verdict,
    released: Verdict,
}

/// R12.
const RESULT: u8 = 12;

/// The flags, by the number of SR.
const FLAGS: u8 = 2;

fn pins() -> &'static [Row] {
    &[
        // A PIN in the data's first word: all ones in R12 where R13 is another.
        Row {
            words: &[
                0x421d, 0x2000, 0xec0d, 0x831d, 0x7c0c, 0x430d, 0xc032, 0x0107, 0x4030, 0x0214,
            ],
            arms: b"",
            answers: &[RESULT],
            public: &[],
            closed: Verdict::No {
                addr: 0x1010,
                reason: Reason::SecretAtExit,
                value: 12,
            },
            released: Verdict::Yes,
        },
        // Three attempts, by a branch on their public number.
        Row {
            words: &[
                0x90b2, 0x0003, 0x2002, 0x2c0c, 0x5392, 0x2002, 0x421d, 0x2000, 0xec0d, 0x831d,
                0x7c0c, 0x430d, 0xc032, 0x0107, 0x4030, 0x0214, 0x430c, 0xc032, 0x0107, 0x4030,
                0x0214,
            ],
            arms: b"",
            answers: &[RESULT],
            public: &[0x2002],
            closed: Verdict::No {
                addr: 0x1006,
                reason: Reason::SecretBranch,
                value: 0,
            },
            released: Verdict::Yes,
        },
        // The same, where the right PIN makes the number 0 again: then it is not public.
        Row {
            words: &[
                0x90b2, 0x0003, 0x2002, 0x2c0e, 0x5392, 0x2002, 0x421d, 0x2000, 0xec0d, 0x831d,
                0x7c0c, 0xcc82, 0x2002, 0x430d, 0xc032, 0x0107, 0x4030, 0x0214, 0x430c, 0xc032,
                0x0107, 0x4030, 0x0214,
            ],
            arms: b"",
            answers: &[RESULT],
            public: &[0x2002],
            closed: Verdict::No {
                addr: 0x1006,
                reason: Reason::SecretBranch,
                value: 0,
            },
            released: Verdict::No {
                addr: 0x1020,
                reason: Reason::DataAtExit,
                value: 0x2002,
            },
        },
        // That with masks in place of the branch, where the number is no public word.
        Row {
            words: &[
                0x421d, 0x2000, 0xec0d, 0x831d, 0x7c0c, 0x421d, 0x2002, 0x803d, 0x0003, 0x7e0e,
                0xfe0c, 0x8e82, 0x2002, 0xcc82, 0x2002, 0x430e, 0x430d, 0xc032, 0x0107, 0x4030,
                0x0214,
            ],
            arms: b"",
            answers: &[RESULT],
            public: &[],
            closed: Verdict::No {
                addr: 0x1026,
                reason: Reason::SecretAtExit,
                value: 12,
            },
            released: Verdict::Yes,
        },
        // A balanced branch on the PIN.
        Row {
            words: &[
                0x921c, 0x2000, 0x2002, 0x431c, 0x3c03, 0x430c, 0x4303, 0x4303, 0xc032, 0x0107,
                0x4030, 0x0214,
            ],
            arms: b"1004 1010 3",
            answers: &[RESULT],
            public: &[],
            closed: Verdict::No {
                addr: 0x1014,
                reason: Reason::SecretAtExit,
                value: 12,
            },
            released: Verdict::Yes,
        },
        // The flags of a comparison.
        Row {
            words: &[0x921c, 0x2000, 0x4030, 0x0214],
            arms: b"",
            answers: &[FLAGS],
            public: &[],
            closed: Verdict::No {
                addr: 0x1004,
                reason: Reason::SecretAtExit,
                value: 2,
            },
            released: Verdict::Yes,
        },
    ]
}

fn others() -> &'static [Row] {
    &[
        // A code over a message in R12, with a public number of messages.
        Row {
            words: &[
                0x5392, 0x2008, 0x421e, 0x2008, 0xee0c, 0x521c, 0x2000, 0x108c, 0xec0d, 0x5d0d,
                0x630d, 0xa21d, 0x2006, 0xed0c, 0x521c, 0x2002, 0x108c, 0xec0d, 0x5d0d, 0x630d,
                0xa21d, 0x2004, 0xed0c, 0x521c, 0x2004, 0x108c, 0xec0d, 0x5d0d, 0x630d, 0xa21d,
                0x2002, 0xed0c, 0x521c, 0x2006, 0x108c, 0xec0d, 0x5d0d, 0x630d, 0xa21d, 0x2000,
                0xed0c, 0xc032, 0x0107, 0x4030, 0x0214,
            ],
            arms: b"",
            answers: &[RESULT, 13],
            public: &[0x2008],
            closed: Verdict::No {
                addr: 0x1056,
                reason: Reason::SecretAtExit,
                value: 12,
            },
            released: Verdict::Yes,
        },
        // Unprotect with an answer.
        Row {
            words: &[
                0x923c, 0x2005, 0x421c, 0x2000, 0x1380, 0x4030, 0x0214, 0x430c, 0xc032, 0x0107,
                0x4030, 0x0214,
            ],
            arms: b"",
            answers: &[RESULT],
            public: &[],
            closed: Verdict::No {
                addr: 0x1008,
                reason: Reason::SecretAtExit,
                value: 12,
            },
            released: Verdict::Yes,
        },
        // A secret into a public word.
        Row {
            words: &[
                0x4215, 0x2002, 0x9305, 0x2401, 0x4303, 0x4292, 0x2000, 0x2002, 0x4305, 0xc032,
                0x0107, 0x4030, 0x0214,
            ],
            arms: b"",
            answers: &[],
            public: &[0x2002],
            closed: Verdict::No {
                addr: 0x1006,
                reason: Reason::SecretBranch,
                value: 0,
            },
            released: Verdict::No {
                addr: 0x1016,
                reason: Reason::DataAtExit,
                value: 0x2002,
            },
        },
    ]
}

// Which reason is named at an exit.
fn exits() -> &'static [Row] {
    &[
        // Two public words are secret.
        Row {
            words: &[
                0x4292, 0x2000, 0x2002, 0x4292, 0x2000, 0x2004, 0x4030, 0x0214,
            ],
            arms: b"",
            answers: &[],
            public: &[0x2002, 0x2004],
            closed: Verdict::Yes,
            released: Verdict::No {
                addr: 0x100c,
                reason: Reason::DataAtExit,
                value: 0x2002,
            },
        },
        // A public word and a register are.
        Row {
            words: &[0x4215, 0x2000, 0x4582, 0x2002, 0x4030, 0x0214],
            arms: b"",
            answers: &[],
            public: &[0x2002],
            closed: Verdict::No {
                addr: 0x1008,
                reason: Reason::SecretAtExit,
                value: 5,
            },
            released: Verdict::No {
                addr: 0x1008,
                reason: Reason::SecretAtExit,
                value: 5,
            },
        },
        // A public word is where the module gives itself up, which makes its data 0.
        Row {
            words: &[0x4292, 0x2000, 0x2002, 0x1380],
            arms: b"",
            answers: &[],
            public: &[0x2002],
            closed: Verdict::Yes,
            released: Verdict::Yes,
        },
    ]
}

// The verdicts of a text without terms and under them.
fn verdicts(alloc: Global, rt: &impl Abort, row: &Row) -> Result<(Verdict, Verdict), Fail> {
    assert!(rt; !row.words.is_empty() && row.words.len() < 100);
    let owner = Module {
        id: 1,
        vendor: 7,
        text: Section {
            start: 0x1000,
            end: 0x1000 + 2 * row.words.len() as u16,
        },
        ram: Section {
            start: 0x2000,
            end: 0x2010,
        },
    };
    let bytes = bytes_of(row.words);
    let text = &bytes[..2 * row.words.len()];
    let arms = read_arms(alloc, row.arms)?;
    let closed = check_with(alloc, &owner, text, &arms)?;
    let released = check_under(alloc, &owner, text, &arms, row.answers, row.public)?;
    Ok((closed, released))
}

fn are_as_said(alloc: Global, rt: &impl Abort, rows: &[Row]) -> Result<(), Fail> {
    for row in rows {
        let (closed, released) = verdicts(alloc, rt, row)?;
        assert_eq!(rt; closed, row.closed);
        assert_eq!(rt; released, row.released);
    }
    Ok(())
}

#[test]
fn checked_pins(rt: HostRuntime) -> Result<(), Fail> {
    are_as_said(rt.alloc(), &rt, pins())
}

#[test]
fn other_modules(rt: HostRuntime) -> Result<(), Fail> {
    are_as_said(rt.alloc(), &rt, others())
}

#[test]
fn reasons_at_exits(rt: HostRuntime) -> Result<(), Fail> {
    are_as_said(rt.alloc(), &rt, exits())
}
