//! The reason that a verdict names: that of the lowest address, there the lowest, and there the lowest value.

use super::{no, verdict, verdict_at};
use flow_check::{Reason, Verdict};
use std::test::Fail;

/// A text, and what is named of it.
type Row = (&'static [u16], u16, Reason, u16);

// Each text has its reason at two addresses, that of the first row of a kind being the lower one.
fn two_addresses() -> &'static [Row] {
    &[
        (
            &[0x2403, 0x9382, 0x0400, 0x2400, 0x9382, 0x0400, 0x2400],
            0x0306,
            Reason::SecretBranch,
            0,
        ),
        (
            &[0x2403, 0x4215, 0x0400, 0x4526, 0x4215, 0x0400, 0x4526],
            0x0306,
            Reason::SecretAddress,
            0,
        ),
        (
            &[0x2402, 0x4215, 0x0404, 0x4215, 0x0402],
            0x0302,
            Reason::OutsideAccess,
            0x0404,
        ),
        (
            &[
                0x2404, 0x4216, 0x0400, 0x4030, 0x0214, 0x4215, 0x0400, 0x4030, 0x0214,
            ],
            0x0306,
            Reason::SecretAtExit,
            6,
        ),
        (&[0x2401, 0x4700, 0x4700], 0x0302, Reason::UnknownTarget, 0),
        (&[0x2401, 0x1400, 0x1300], 0x0302, Reason::Illegal, 0x1400),
        (&[0x2401, 0x1384, 0x1381], 0x0302, Reason::Unit, 4),
    ]
}

// Texts of which one instruction has two reasons.
fn two_reasons() -> &'static [Row] {
    &[
        // A jump on a secret leaves the text, with the flags secret.
        (&[0x9382, 0x0400, 0x2480], 0x0304, Reason::SecretBranch, 0),
        // From a secret address to one outside the data.
        (
            &[0x4215, 0x0400, 0x4592, 0x0000, 0x0600],
            0x0304,
            Reason::SecretAddress,
            0,
        ),
        // To where a word outside the data says.
        (&[0x4210, 0x0402], 0x0300, Reason::OutsideAccess, 0x0402),
    ]
}

// Texts of which one instruction has two values.
fn two_values() -> &'static [Row] {
    &[
        (
            &[0x4292, 0x0404, 0x0402],
            0x0300,
            Reason::OutsideAccess,
            0x0402,
        ),
        // The flags, as 2, and R5.
        (
            &[0x9382, 0x0400, 0x4215, 0x0400, 0x4030, 0x0214],
            0x0308,
            Reason::SecretAtExit,
            2,
        ),
        // BIC to SR of fewer bits, and of a byte, leaves the flags secret.
        (
            &[0x9382, 0x0400, 0xc032, 0x0007, 0x4030, 0x0214],
            0x0308,
            Reason::SecretAtExit,
            2,
        ),
        (
            &[0x9382, 0x0400, 0xc072, 0x0107, 0x4030, 0x0214],
            0x0308,
            Reason::SecretAtExit,
            2,
        ),
    ]
}

#[test]
fn lowest(rt: HostRuntime) -> Result<(), Fail> {
    for rows in [two_addresses(), two_reasons(), two_values()] {
        for (words, addr, reason, value) in rows {
            let found = verdict(rt.alloc(), &rt, words, b"")?;
            assert_eq!(rt; found, no(*addr, *reason, *value));
        }
    }
    Ok(())
}

#[test]
fn cleared_flags(rt: HostRuntime) -> Result<(), Fail> {
    let words = [0x9382, 0x0400, 0xc032, 0x0107, 0x4030, 0x0214];
    assert_eq!(rt; verdict(rt.alloc(), &rt, &words, b"")?, Verdict::Yes);
    Ok(())
}

// Two branches on a secret, each with a certificate; a text, the certificates, and what is named of it.
fn arm_rows() -> &'static [(&'static [u16], &'static [u8], u16, Reason, u16)] {
    &[
        // A write to PC is in both arms of each, and their times are others: the lower address, and the lower reason.
        (
            &[
                0x2404, 0x9382, 0x0400, 0x2400, 0x4700, 0x9382, 0x0400, 0x2400, 0x4700,
            ],
            b"0306 030a 9\n030e 0312 9\n",
            0x0306,
            Reason::Arm,
            0x0308,
        ),
        // The arm's instruction at 0x0306, and the join at 0x0308 past the text: the lower value.
        (
            &[0x9382, 0x0400, 0x2400, 0x4700],
            b"0304 0308 0",
            0x0304,
            Reason::Arm,
            0x0306,
        ),
        // No time passes in the arms of either.
        (
            &[
                0x2404, 0x9382, 0x0400, 0x2400, 0x3c00, 0x9382, 0x0400, 0x2400, 0xc032, 0x0107,
                0x4030, 0x0214,
            ],
            b"0306 0308 1\n030e 0310 2\n",
            0x0306,
            Reason::ArmTime,
            0,
        ),
    ]
}

#[test]
fn lowest_of_arms(rt: HostRuntime) -> Result<(), Fail> {
    for (words, arms, addr, reason, value) in arm_rows() {
        let found = verdict(rt.alloc(), &rt, words, arms)?;
        assert_eq!(rt; found, no(*addr, *reason, *value));
    }
    Ok(())
}

// Eight calls, each to the next instruction, with the data's word in R5; then three words at 0x0328.
const CALLS: [u16; 23] = [
    0x4031, 0x0440, 0x4215, 0x0400, 0x12b0, 0x030c, 0x12b0, 0x0310, 0x12b0, 0x0314, 0x12b0, 0x0318,
    0x12b0, 0x031c, 0x12b0, 0x0320, 0x12b0, 0x0324, 0x12b0, 0x0328, 0, 0, 0,
];

// The three words, and what is named of the text.
fn call_rows() -> &'static [([u16; 3], Verdict)] {
    &[
        // R5 is cleared, and the text is left.
        ([0x4305, 0x4030, 0x0214], Verdict::Yes),
        // A ninth call.
        (
            [0x12b0, 0x0328, 0x4305],
            Verdict::No {
                addr: 0x0328,
                reason: Reason::UnknownTarget,
                value: 0,
            },
        ),
        // A ninth call, out of the text with R5 secret.
        (
            [0x12b0, 0x0214, 0x4305],
            Verdict::No {
                addr: 0x0328,
                reason: Reason::SecretAtExit,
                value: 5,
            },
        ),
    ]
}

#[test]
fn nine_calls(rt: HostRuntime) -> Result<(), Fail> {
    for ([first, second, third], expected) in call_rows() {
        let mut words = CALLS;
        words[20] = *first;
        words[21] = *second;
        words[22] = *third;
        let found = verdict_at(rt.alloc(), &rt, 0x0300, 0x0400..0x0440, &words, b"")?;
        assert_eq!(rt; found, *expected);
    }
    Ok(())
}
