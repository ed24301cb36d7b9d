//! Worked certificates.

use arm_balance::{Arm, ArmsFault, read_arms};
use std::test::Fail;

// Texts, and why they are refused.
fn faults() -> &'static [(&'static [u8], ArmsFault)] {
    &[
        (b"304 0318 6", ArmsFault::Line { n: 1 }),
        (b"0304 0318 06", ArmsFault::Line { n: 1 }),
        (b"0304 0318 65536", ArmsFault::Line { n: 1 }),
        (b"0304 0318 6 ", ArmsFault::Line { n: 1 }),
        (b"0304 031G 6", ArmsFault::Line { n: 1 }),
        (b"0304 0318 6\n\n", ArmsFault::Line { n: 2 }),
        (b"0304 0318 6\n0304 0318 6\n", ArmsFault::NotRising { n: 2 }),
    ]
}

#[test]
fn refused_texts(rt: HostRuntime) {
    for (text, fault) in faults() {
        match read_arms(rt.alloc(), text) {
            Ok(_) => assert!(rt; false),
            Err(found) => assert_eq!(rt; found, *fault),
        }
    }
}

#[test]
fn read_texts(rt: HostRuntime) -> Result<(), Fail> {
    let arms = read_arms(rt.alloc(), b"0304 0318 6\nffff 0000 65535")?;
    let list = [
        Arm {
            branch: 0x0304,
            join: 0x0318,
            cycles: 6,
        },
        Arm {
            branch: 0xffff,
            join: 0,
            cycles: 65535,
        },
    ];
    assert_eq!(rt; arms.list.as_slice(), list.as_slice());
    assert_eq!(rt; read_arms(rt.alloc(), b"")?.list.len(), 0);
    Ok(())
}

// 257 lines with rising branches.
#[test]
fn too_many(rt: HostRuntime) -> Result<(), Fail> {
    let mut text = String::new(rt.alloc());
    for branch in 0..257u16 {
        let line = format!(in rt.alloc(); "{branch:04x} 0000 1\n")?;
        text.push_str(line.as_str())?;
    }
    match read_arms(rt.alloc(), text.as_bytes()) {
        Ok(_) => assert!(rt; false),
        Err(found) => assert_eq!(rt; found, ArmsFault::TooMany),
    }
    Ok(())
}
