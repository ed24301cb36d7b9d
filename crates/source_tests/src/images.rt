//! Texts of images, read and written; the expected values are those of the format.

use image_text::{read, write};
use mod_layout::{Module, Section};
use std::test::Fail;

const EMPTY_ONE: &[u8; 69] =
    b"sancus-image 1\nkey 00000000000000000000000000000000\nhandler 0000\nend\n";

const EMPTY_TWO: &[u8; 79] =
    b"sancus-image 2\nkey 00000000000000000000000000000000\nhandler 0000\nmodules 0\nend\n";

const MODULES_ONE: &[u8] = b"sancus-image 1
key 000102030405060708090a0b0c0d0e0f
handler 0600
module 0007 0300 0306 0400 0402
module ffff 0700 0702 0780 0782
at 0200 31400006d24340003740140232d23040
at 0300 03430343004700000000000000000000
at fff0 00000000000000000000000000000002
end
";

const MODULES_TWO: &[u8] = b"sancus-image 2
key 000102030405060708090a0b0c0d0e0f
handler 0600
modules 2
module 0007 0300 0306 0400 0402
module ffff 0700 0702 0780 0782
at 0200 31400006d24340003740140232d23040
at 0300 03430343004700000000000000000000
at fff0 00000000000000000000000000000002
end
";

#[test]
fn texts_are_read_and_written(rt: HostRuntime) -> Result<(), Fail> {
    for (text, room) in [
        (EMPTY_ONE.as_slice(), 8),
        (EMPTY_TWO.as_slice(), 32),
        (MODULES_ONE, 8),
        (MODULES_TWO, 32),
    ] {
        let image = read(rt.alloc(), text)?;
        assert_eq!(rt; image.table.room(), room);
        let written = write(rt.alloc(), &image)?;
        assert_eq!(rt; written.as_slice(), text);
    }
    Ok(())
}

#[test]
fn an_image_has_what_its_text_says(rt: HostRuntime) -> Result<(), Fail> {
    let image = read(rt.alloc(), MODULES_ONE)?;
    assert_eq!(rt; image.handler_sp, 0x0600);
    assert_eq!(rt;
        image.node_key,
        [0, 1, 2, 3, 4, 5, 6, 7, 8, 9, 10, 11, 12, 13, 14, 15]
    );
    let second = Module {
        id: 2,
        vendor: 0xffff,
        text: Section {
            start: 0x0700,
            end: 0x0702,
        },
        ram: Section {
            start: 0x0780,
            end: 0x0782,
        },
    };
    assert_eq!(rt; image.table.get(2).copied(), Some(second));
    assert_eq!(rt; image.table.get(3).copied(), None);
    for (at, byte) in [
        (0x01ff, 0),
        (0x0200, 0x31),
        (0x020f, 0x40),
        (0x0210, 0),
        (0x0305, 0x47),
        (0xfffe, 0),
        (0xffff, 2),
    ] {
        assert_eq!(rt; image.memory.get(at).copied(), Some(byte));
    }
    Ok(())
}
