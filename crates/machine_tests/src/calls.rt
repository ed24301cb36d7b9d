//! Worked calls: how they end, and the data that they leave.

use lone_run::{Entry, Outcome, call};
use mod_layout::{Module, Section};
use sm_words::{Core, PC};
use std::process::Abort;

const NODE_KEY: [u8; 16] = [0; 16];

/// The tag of the bytes cd ab under the key of the module that tags. That key is the first 16 bytes of
///     printf '\203\023\202\117\022\004\205\023\202\117\024\004\206\023\000\107\000\003\020\003\000\004\026\004' |
///         openssl dgst -sha256 -mac HMAC -macopt hexkey:226b13d20262706f6143d81ffe421caa
/// (vendor 7's, where the node's key is 00 01 02 .. 0f), and the tag those of
///     printf '\315\253' | openssl dgst -sha256 -mac HMAC -macopt hexkey:c68b61865c24102af321fe1d36e2633d
const TAG: [u8; 16] = [
    0xe2, 0xce, 0xee, 0x42, 0xd3, 0x68, 0x96, 0xe5, 0xc4, 0x0d, 0x5e, 0x08, 0x79, 0xdb, 0xf8, 0x70,
];

/// How a call ends: what it is, PC at its end, the highest of the other registers then, and its cycles.
#[derive(Clone, Copy, Debug, PartialEq, Eq)]
enum End {
    Exit(u16, u16, u64),
    Closed(u16, u16, u64),
    Broken(u64),
    Running,
}

fn highest(core: &Core) -> u16 {
    let mut highest = 0;
    for reg in 1..16u8 {
        highest = core.get(reg).max(highest);
    }
    highest
}

fn end_of(outcome: Outcome) -> End {
    match outcome {
        Outcome::Exit { core, cycles } => End::Exit(core.pc(), highest(&core), cycles),
        Outcome::Closed { core, cycles } => End::Closed(core.pc(), highest(&core), cycles),
        Outcome::Broken { cycles } => End::Broken(cycles),
        Outcome::Running => End::Running,
    }
}

// The end of a call, by a core of zeros, of a module with this text from 0x0300 and these data from 0x0400 on.
fn end_by(rt: &impl Abort, text: &[u8], ram: &mut [u8], limit: u64) -> End {
    assert!(rt; text.len() <= 0x100 && ram.len() <= 0x100 && limit <= 1000);
    assert!(rt; !ram.is_empty() && ram.len() % 2 == 0);
    let owner = Module {
        id: 1,
        vendor: 7,
        text: Section {
            start: 0x0300,
            end: 0x0300 + text.len() as u16,
        },
        ram: Section {
            start: 0x0400,
            end: 0x0400 + ram.len() as u16,
        },
    };
    let mut core = Core::new([0; 16]);
    core.put(PC, 0x0300);
    let entry = Entry { core, caller: 0 };
    end_of(call(&NODE_KEY, &owner, text, ram, &entry, limit))
}

// Its arms take equal cycles: a word of the data decides.
fn balanced() -> &'static [u8; 34] {
    &[
        0x82, 0x93, 0x00, 0x04, 0x04, 0x24, 0x15, 0x42, 0x00, 0x04, 0x03, 0x43, 0x05, 0x3c, 0x03,
        0x43, 0x03, 0x43, 0x03, 0x43, 0x03, 0x43, 0x00, 0x3c, 0x05, 0x43, 0x32, 0xc0, 0x07, 0x01,
        0x30, 0x40, 0x14, 0x02,
    ]
}

#[test]
fn a_balanced_call(rt: HostRuntime) {
    for data in [0, 1] {
        for (limit, expected) in [
            (100, End::Exit(0x0214, 0, 18)),
            (19, End::Exit(0x0214, 0, 18)),
            (18, End::Exit(0x0214, 0, 18)),
            (17, End::Running),
        ] {
            let mut ram = [data, 0];
            assert_eq!(rt; end_by(&rt, balanced(), &mut ram, limit), expected);
            assert_eq!(rt; ram, [data, 0]);
        }
    }
}

#[test]
fn a_call_that_closes(rt: HostRuntime) {
    let rows = [
        (100, End::Closed(0x0302, 0, 38), 0),
        (39, End::Closed(0x0302, 0, 38), 0),
        (38, End::Closed(0x0302, 0, 38), 0),
        (37, End::Running, 5),
    ];
    for (limit, expected, data) in rows {
        let mut ram = [5; 64];
        assert_eq!(rt;
            end_by(&rt, &[0x80, 0x13, 0x00, 0x47], &mut ram, limit),
            expected
        );
        assert_eq!(rt; (ram[0], ram[63]), (data, data));
    }
}

// The id of an address is asked for after one cycle.
#[test]
fn a_broken_call(rt: HostRuntime) {
    for (limit, expected) in [(2, End::Broken(1)), (1, End::Running), (0, End::Running)] {
        let mut ram = [7, 7];
        let text = [0x03, 0x43, 0x84, 0x13, 0x00, 0x47];
        assert_eq!(rt; end_by(&rt, &text, &mut ram, limit), expected);
        assert_eq!(rt; ram, [7, 7]);
    }
}

// A write into the data, and then one past them.
#[test]
fn data_before_the_instruction(rt: HostRuntime) {
    let mut ram = [7, 7];
    let text = [0x82, 0x43, 0x00, 0x04, 0x82, 0x43, 0x02, 0x04];
    assert_eq!(rt; end_by(&rt, &text, &mut ram, 100), End::Broken(4));
    assert_eq!(rt; ram, [0, 0]);
}

// It tags the word at 0x0400 behind it, keeps the answer, 1, and its own id behind the tag, and leaves with the id of
// its caller in R15. The cycles: 6 and 4 blocks of 64, 4, 6, 4, 6 and 2.
#[test]
fn a_call_that_tags(rt: HostRuntime) {
    let owner = Module {
        id: 3,
        vendor: 7,
        text: Section {
            start: 0x0300,
            end: 0x0310,
        },
        ram: Section {
            start: 0x0400,
            end: 0x0416,
        },
    };
    let text = [
        0x83, 0x13, 0x82, 0x4f, 0x12, 0x04, 0x85, 0x13, 0x82, 0x4f, 0x14, 0x04, 0x86, 0x13, 0x00,
        0x47,
    ];
    let node_key = [0, 1, 2, 3, 4, 5, 6, 7, 8, 9, 10, 11, 12, 13, 14, 15];
    let core = Core::new([
        0x0300, 0, 0, 0, 0, 0, 0, 0x0214, 0, 0, 0, 0, 0x0400, 0x0402, 0x0402, 0,
    ]);
    let entry = Entry { core, caller: 2 };
    let mut ram = [0; 22];
    ram[0] = 0xcd;
    ram[1] = 0xab;
    match call(&node_key, &owner, &text, &mut ram, &entry, 1000) {
        Outcome::Exit { core, cycles } => {
            assert_eq!(rt; (core.pc(), core.get(15), cycles), (0x0214, 2, 284));
        }
        _ => panic!(rt; "no exit"),
    }
    assert_eq!(rt; &ram[..2], [0xcd, 0xab].as_slice());
    assert_eq!(rt; &ram[2..18], TAG.as_slice());
    assert_eq!(rt; &ram[18..], [1, 0, 3, 0].as_slice());
}
