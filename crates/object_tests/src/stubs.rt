use entry_stubs::*;
use mod_layout::Section;

// The stub of one entry at 0x084e, in a text from 0x0800 to 0x0850 with data from 0x0a00 and a
// stack of 32 bytes.
const ONE_ENTRY: [u16; 39] = [
    0x9037, 0x0800, 0x2804, 0x9037, 0x0850, 0x2c01, 0x3fff, 0x9036, 0x0001, 0x2c1a, 0x4182, 0x0a00,
    0x4782, 0x0a02, 0x4031, 0x0a24, 0x5606, 0x1296, 0x084c, 0x4211, 0x0a00, 0x4304, 0x4305, 0x4306,
    0x4307, 0x4308, 0x4309, 0x430a, 0x430b, 0x430d, 0x430e, 0x430f, 0xc032, 0x0107, 0x4210, 0x0a02,
    0x430c, 0x4700, 0x084e,
];

#[test]
fn stub_of_one_entry(rt: HostRuntime) {
    let text = Section {
        start: 0x0800,
        end: 0x0850,
    };
    let words = stub(text, 0x0a00, 32, &[0x084e]);
    assert_eq!(rt; words.as_slice(), ONE_ENTRY.as_slice());
}

// The largest stub, at the largest addresses that a call may have.
#[test]
fn stub_of_most_entries(rt: HostRuntime) {
    let text = Section {
        start: 0xff32,
        end: 0xfffe,
    };
    let words = stub(text, 0, 0xfffa, &[0xfffc; 64]);
    assert_eq!(rt; words.len(), 102);
    assert_eq!(rt; words[8], 64);
    assert_eq!(rt; words[15], 0xfffe);
    assert_eq!(rt; words[18], 0xff7e);
    assert_eq!(rt; words[37], 0x4700);
    assert_eq!(rt; words[38], 0xfffc);
    assert_eq!(rt; words[101], 0xfffc);
}
