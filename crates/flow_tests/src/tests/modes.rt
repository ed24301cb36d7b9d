//! What each mode of a source gives of what is known there.

use super::stubs::STUB;
use super::{no, verdict_at};
use flow_check::{Reason, Verdict};
use flow_rule::Val;
use std::alloc::Global;
use std::process::Abort;
use std::test::Fail;

// Words that put a value into R5 at the entry of a stub, and what is known of it. There R7 and the word at 0x0a02 are
// Away, R9 and the word at 0x0a00 are Public, and the word at 0x0a04 is Secret.
fn rows() -> &'static [(&'static [u16], Val)] {
    &[
        // A register.
        (&[0x4038, 0x0850, 0x4805], Val::Known(0x0850)),
        (&[0x4705], Val::Away),
        (&[0x4905], Val::Public),
        (&[0x4218, 0x0a04, 0x4805], Val::Secret),
        // Indexed.
        (
            &[0x40b2, 0x0850, 0x0a06, 0x4038, 0x0a00, 0x4815, 0x0006],
            Val::Known(0x0850),
        ),
        (
            &[0x40b2, 0x0850, 0x0a06, 0x4038, 0x0a00, 0x4815, 0x0002],
            Val::Away,
        ),
        (
            &[0x40b2, 0x0850, 0x0a06, 0x4038, 0x0a00, 0x4815, 0x0000],
            Val::Public,
        ),
        (
            &[0x40b2, 0x0850, 0x0a06, 0x4038, 0x0a00, 0x4815, 0x0004],
            Val::Secret,
        ),
        // Symbolic.
        (
            &[0x40b2, 0x0850, 0x0a06, 0x4015, 0x01ac],
            Val::Known(0x0850),
        ),
        (&[0x40b2, 0x0850, 0x0a06, 0x4015, 0x01a8], Val::Away),
        (&[0x40b2, 0x0850, 0x0a06, 0x4015, 0x01a6], Val::Public),
        (&[0x40b2, 0x0850, 0x0a06, 0x4015, 0x01aa], Val::Secret),
        // Absolute.
        (
            &[0x40b2, 0x0850, 0x0a06, 0x4215, 0x0a06],
            Val::Known(0x0850),
        ),
        (&[0x40b2, 0x0850, 0x0a06, 0x4215, 0x0a02], Val::Away),
        (&[0x40b2, 0x0850, 0x0a06, 0x4215, 0x0a00], Val::Public),
        (&[0x40b2, 0x0850, 0x0a06, 0x4215, 0x0a04], Val::Secret),
        // Indirect.
        (
            &[0x40b2, 0x0850, 0x0a06, 0x4038, 0x0a06, 0x4825],
            Val::Known(0x0850),
        ),
        (&[0x40b2, 0x0850, 0x0a06, 0x4038, 0x0a02, 0x4825], Val::Away),
        (
            &[0x40b2, 0x0850, 0x0a06, 0x4038, 0x0a00, 0x4825],
            Val::Public,
        ),
        (
            &[0x40b2, 0x0850, 0x0a06, 0x4038, 0x0a04, 0x4825],
            Val::Secret,
        ),
        // Increment.
        (
            &[0x40b2, 0x0850, 0x0a06, 0x4038, 0x0a06, 0x4835],
            Val::Known(0x0850),
        ),
        (&[0x40b2, 0x0850, 0x0a06, 0x4038, 0x0a02, 0x4835], Val::Away),
        (
            &[0x40b2, 0x0850, 0x0a06, 0x4038, 0x0a00, 0x4835],
            Val::Public,
        ),
        (
            &[0x40b2, 0x0850, 0x0a06, 0x4038, 0x0a04, 0x4835],
            Val::Secret,
        ),
        // Immediate, and a constant with 0x084f added.
        (&[0x4035, 0x0850], Val::Known(0x0850)),
        (&[0x4315, 0x5035, 0x084f], Val::Known(0x0850)),
        // Bytes: with 0x0800 added where the word is Known, and one of Away is Public.
        (
            &[0x40b2, 0x0850, 0x0a06, 0x4255, 0x0a06, 0x5035, 0x0800],
            Val::Known(0x0850),
        ),
        (&[0x4255, 0x0a02], Val::Public),
        (&[0x4255, 0x0a00], Val::Public),
        (&[0x4255, 0x0a04], Val::Secret),
    ]
}

// The verdict of a stub whose entry jumps over an illegal word at 0x0850, does this, compares R5 with 0, branches on
// that, and goes where R5 says.
fn entry_verdict(alloc: Global, rt: &impl Abort, entry: &[u16]) -> Result<Verdict, Fail> {
    assert!(rt; entry.len() < 16);
    let mut words = Vec::new(alloc);
    for (k, word) in STUB.iter().enumerate() {
        match k {
            4 => words.push(0x0858 + 2 * entry.len() as u16)?,
            0..39 => words.push(*word)?,
            _ => {}
        }
    }
    words.push(0x3c01)?;
    words.push(0x1400)?;
    for word in entry {
        words.push(*word)?;
    }
    for word in [0x9305, 0x2400, 0x4500] {
        words.push(word)?;
    }
    verdict_at(alloc, rt, 0x0800, 0x0a00..0x0a24, words.as_slice(), b"")
}

#[test]
fn sources(rt: HostRuntime) -> Result<(), Fail> {
    for (entry, value) in rows() {
        assert!(rt; entry.len() < 16);
        let end = 0x0852 + 2 * entry.len() as u16;
        let expected = match *value {
            Val::Known(_) => no(0x0850, Reason::Illegal, 0x1400),
            Val::Away => Verdict::Yes,
            Val::Public => no(end + 4, Reason::UnknownTarget, 0),
            Val::Secret => no(end + 2, Reason::SecretBranch, 0),
        };
        assert_eq!(rt; entry_verdict(rt.alloc(), &rt, entry)?, expected);
    }
    Ok(())
}
