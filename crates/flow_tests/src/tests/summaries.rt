//! A branch that is met several times.

use super::{no, verdict_at};
use flow_check::{Reason, Verdict};
use std::test::Fail;

// The words at 0x0404 and 0x0406 are set to 7, and a routine with a branch on the data's first word is called with R4
// 0x0404, and then once more: both of its arms write the word at R4. Then the word at 0x0406 is in R5 where the text
// is left.
const CALLS: [u16; 35] = [
    0x4031, 0x0420, 0x40b2, 0x0007, 0x0404, 0x40b2, 0x0007, 0x0406, 0x4034, 0x0404, 0x12b0, 0x0330,
    0x4034, 0x0406, 0x12b0, 0x0330, 0x4215, 0x0406, 0xc032, 0x0107, 0x4030, 0x0214, 0x4303, 0x4303,
    0x9382, 0x0400, 0x2403, 0x4384, 0x0000, 0x3c04, 0x4394, 0x0000, 0x4303, 0x4303, 0x4130,
];

// The word at 0x031a, R4 of the second call; the one at 0x031c, which is that call or a jump back to the first; and the
// verdict.
fn rows() -> [(u16, u16, Verdict); 4] {
    [
        (0x0406, 0x12b0, no(0x0328, Reason::SecretAtExit, 5)),
        (0x0404, 0x12b0, Verdict::Yes),
        // Past the data.
        (0x0420, 0x12b0, no(0x0334, Reason::Arm, 0x0336)),
        // Two addresses under one call string.
        (0x0406, 0x3ffb, no(0x0334, Reason::Arm, 0x0336)),
    ]
}

#[test]
fn met_again(rt: HostRuntime) -> Result<(), Fail> {
    for (address, word, expected) in rows() {
        let mut text = CALLS;
        text[13] = address;
        text[14] = word;
        let data = 0x0400..0x0420;
        let found = verdict_at(rt.alloc(), &rt, 0x0300, data, &text, b"0334 0344 6")?;
        assert_eq!(rt; found, expected);
    }
    Ok(())
}

// A loop in which a data word is counted up, and in each turn five calls of a routine are met at once, each with its
// own R4: both arms of the routine's branch on the data's first word write the word at R4.
const AT_ONCE: [u16; 61] = [
    0x4031, 0x0420, 0x4382, 0x041c, 0x5392, 0x041c, 0x9382, 0x041c, 0x2009, 0x4303, 0x4303, 0x4303,
    0x4303, 0x4034, 0x0402, 0x12b0, 0x0364, 0x3fff, 0x2008, 0x4303, 0x4303, 0x4303, 0x4034, 0x0404,
    0x12b0, 0x0364, 0x3fff, 0x2007, 0x4303, 0x4303, 0x4034, 0x0406, 0x12b0, 0x0364, 0x3fff, 0x2006,
    0x4303, 0x4034, 0x0408, 0x12b0, 0x0364, 0x3fff, 0x2005, 0x4034, 0x040a, 0x12b0, 0x0364, 0x3fff,
    0x4030, 0x0308, 0x9382, 0x0400, 0x2403, 0x4384, 0x0000, 0x3c04, 0x4394, 0x0000, 0x4303, 0x4303,
    0x4130,
];

// Where the R4 of each call stands.
const PLACES: [usize; 5] = [14, 23, 31, 38, 44];

// Which calls have an R4 past the data, and the verdict.
fn rows_at_once() -> [([bool; 5], Verdict); 5] {
    let arm = no(0x0368, Reason::Arm, 0x036a);
    [
        ([false, false, false, false, false], Verdict::Yes),
        ([true, true, true, true, true], arm),
        ([true, false, false, false, false], arm),
        ([false, true, false, true, true], arm),
        ([false, false, false, false, true], arm),
    ]
}

#[test]
fn met_at_once(rt: HostRuntime) -> Result<(), Fail> {
    for (past, expected) in rows_at_once() {
        let mut text = AT_ONCE;
        for k in 0..PLACES.len() {
            let place = PLACES[k];
            if past[k] && place < text.len() {
                text[place] = 0x0420;
            }
        }
        let data = 0x0400..0x0420;
        let found = verdict_at(rt.alloc(), &rt, 0x0300, data, &text, b"0368 0378 6")?;
        assert_eq!(rt; found, expected);
    }
    Ok(())
}

// Both arms read an address at 0x0330, and then what stands there. Where the data begin with the text, what the scout
// claims of the arms is refuted, since it takes that address for one of the data, and the rule for one of the text.
const CLAIMED: [u16; 25] = [
    0x4031, 0x0420, 0x9382, 0x0400, 0x2404, 0x4215, 0x0330, 0x4526, 0x3c05, 0x4215, 0x0330, 0x4526,
    0x4303, 0x4303, 0x4305, 0x4306, 0xc032, 0x0107, 0x4030, 0x0214, 0x4303, 0x4303, 0x4303, 0x4303,
    0x0300,
];

// Where the data begin, the address that is read, and the verdict.
fn rows_claimed() -> [(u16, u16, Verdict); 4] {
    [
        (0x0400, 0x0300, Verdict::Yes),
        (0x0300, 0x0300, Verdict::Yes),
        // No address of the module.
        (0x0400, 0x0420, no(0x0308, Reason::Arm, 0x030e)),
        (0x0300, 0x0420, no(0x0308, Reason::Arm, 0x030e)),
    ]
}

#[test]
fn claimed(rt: HostRuntime) -> Result<(), Fail> {
    for (start, address, expected) in rows_claimed() {
        let mut text = CLAIMED;
        text[24] = address;
        let data = start..0x0420;
        let found = verdict_at(rt.alloc(), &rt, 0x0300, data, &text, b"0308 031c 7")?;
        assert_eq!(rt; found, expected);
    }
    Ok(())
}
