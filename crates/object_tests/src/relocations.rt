//! Fields at their bounds and at the end of a section.

use reloc_apply::{RelocFault, apply};
use std::alloc::Global;
use std::process::Abort;
use std::test::Fail;

// A section's first bytes; the word is 0x2211.
const BEFORE: [u8; 4] = [0x11, 0x22, 0x33, 0x44];

// Kind, place, sum and offset, and the bytes after that or why it is refused: the lowest and the highest value of each
// kind, and one past each.
const VALUES: &str = "\
1 512 -2147483648 0: 00000080
1 512 -2147483649 0: Range { value: -2147483649 }
1 512 4294967295 0: ffffffff
1 512 4294967296 0: Range { value: 4294967296 }
2 1536 514 0: 00223344
2 1536 512 0: Range { value: -513 }
2 1536 2560 0: ff213344
2 1536 2562 0: Range { value: 512 }
2 1536 2561 0: Odd { value: 1025 }
2 1536 513 0: Odd { value: -1023 }
2 1536 2563 0: Odd { value: 1027 }
3 512 -32768 0: 00803344
3 512 -32769 0: Range { value: -32769 }
3 512 65535 0: ffff3344
3 512 65536 0: Range { value: 65536 }
5 512 -32768 0: 00803344
5 512 -32769 0: Range { value: -32769 }
5 512 65535 0: ffff3344
5 512 65536 0: Range { value: 65536 }
4 65535 0 0: 01003344
4 65535 -1 0: Range { value: -65536 }
4 1 65536 0: ffff3344
4 1 65537 0: Range { value: 65536 }
6 65535 0 0: 01003344
6 65535 -1 0: Range { value: -65536 }
6 1 65536 0: ffff3344
6 1 65537 0: Range { value: 65536 }
9 512 -128 0: 80223344
9 512 -129 0: Range { value: -129 }
9 512 255 0: ff223344
9 512 256 0: Range { value: 256 }
0 512 8589934592 0: 11223344
7 512 0 0: Kind { n: 7 }
255 512 0 0: Kind { n: 255 }
";

// Where a field of each kind last fits into four bytes, and which kinds fit nowhere.
const PLACES: &str = "\
1 0 4 0: 04000000
1 0 4 1: Outside
2 0 4 2: 11220144
2 0 4 3: Outside
3 0 4 2: 11220400
3 0 4 3: Outside
4 0 4 1: 11040044
6 0 4 3: Outside
9 0 4 3: 11223304
9 0 4 4: Outside
9 0 4 4294967295: Outside
0 0 4 4294967295: 11223344
8 0 4 4294967295: Kind { n: 8 }
";

// What the four numbers of a row give.
fn told(rt: &impl Abort, alloc: Global, numbers: &str) -> Result<String, Fail> {
    let numbers: Vec<&str> = numbers.split(' ').collect(alloc)?;
    let [kind, place, sum, offset] = numbers.as_slice() else {
        return Err("not four numbers".into());
    };
    let (kind, place) = (kind.parse::<u8>()?, place.parse::<u16>()?);
    let (sum, offset) = (sum.parse::<i64>()?, offset.parse::<u32>()?);
    assert!(rt; -0x2_0000_0000 <= sum && sum <= 0x2_0000_0000);
    let mut bytes = BEFORE;
    let answer = apply(kind, place, sum, offset, &mut bytes);
    let [first, second, third, fourth] = bytes;
    match answer {
        Ok(()) => Ok(format!(in alloc; "{first:02x}{second:02x}{third:02x}{fourth:02x}")?),
        Err(fault) => Ok(format!(in alloc; "{fault:?}")?),
    }
}

fn assert_rows(rt: &impl Abort, alloc: Global, rows: &str) -> Result<(), Fail> {
    for row in rows.lines() {
        let (numbers, wanted) = row.split_once(": ").ok_or("no row")?;
        let told = told(rt, alloc, numbers)?;
        assert_eq!(rt; told.as_str(), wanted, "{row}");
    }
    Ok(())
}

#[test]
fn values_at_their_bounds(rt: HostRuntime) -> Result<(), Fail> {
    assert_rows(&rt, rt.alloc(), VALUES)
}

#[test]
fn fields_at_the_end(rt: HostRuntime) -> Result<(), Fail> {
    assert_rows(&rt, rt.alloc(), PLACES)
}

#[test]
fn a_section_without_bytes(rt: HostRuntime) {
    assert_eq!(rt; apply(0, 0, 0, 0, &mut []), Ok(()));
    assert_eq!(rt; apply(9, 0, 0, 0, &mut []), Err(RelocFault::Outside));
    // A field that is outside is told before an odd difference.
    assert_eq!(rt; apply(2, 0, 1, 0, &mut []), Err(RelocFault::Outside));
}
