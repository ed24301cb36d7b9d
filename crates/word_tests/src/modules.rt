//! The refusals, the ids, and what an address is to a module.

use mod_layout::{Module, ModuleTable, Place, Section, TableFault};
use std::test::Fail;

const fn section(start: u16, end: u16) -> Section {
    Section { start, end }
}

// The text and the data of the n-th of many small modules.
fn sections(n: u16) -> (Section, Section) {
    let start = 0x0300 + 0x10 * (n % 64);
    (section(start, start + 4), section(start + 8, start + 12))
}

#[test]
fn refusals(rt: HostRuntime) -> Result<(), Fail> {
    let mut table = ModuleTable::new();
    // The module with the higher id lies lower, so that both are met from below.
    assert_eq!(rt;
        table.add(7, section(0x0500, 0x0600), section(0x0700, 0x0800)),
        Ok(1)
    );
    assert_eq!(rt;
        table.add(7, section(0x0300, 0x0400), section(0x0400, 0x0500)),
        Ok(2)
    );
    let ram = section(0x0900, 0x0902);
    let cases = [
        // Each refusal by itself.
        (section(0x0a00, 0x0a00), ram, TableFault::Empty),
        (ram, section(0x0a02, 0x0a00), TableFault::Empty),
        (section(0x0a01, 0x0a04), ram, TableFault::Odd),
        (ram, section(0x0a00, 0x0a03), TableFault::Odd),
        (
            section(0x02fe, 0x0302),
            ram,
            TableFault::Overlap { with: 2 },
        ),
        (
            ram,
            section(0x07fe, 0x0802),
            TableFault::Overlap { with: 1 },
        ),
        (
            section(0x0200, 0xff00),
            ram,
            TableFault::Overlap { with: 1 },
        ),
        (
            section(0x0900, 0x0a00),
            ram,
            TableFault::Overlap { with: 0 },
        ),
        (section(0x01fe, 0x0202), ram, TableFault::Reserved),
        (ram, section(0xff00, 0xffe2), TableFault::Reserved),
        // Where two apply, the first of the order.
        (section(0x0001, 0x0001), ram, TableFault::Empty),
        (section(0x0501, 0x0600), ram, TableFault::Odd),
        (
            section(0x0100, 0x0400),
            ram,
            TableFault::Overlap { with: 2 },
        ),
        (
            section(0x0100, 0x0200),
            section(0x0100, 0x0200),
            TableFault::Overlap { with: 0 },
        ),
    ];
    for (text, ram, fault) in cases {
        assert_eq!(rt; table.add(7, text, ram), Err(fault));
    }
    // The bounds themselves are taken.
    assert_eq!(rt;
        table.add(7, section(0x0200, 0x0202), section(0xffde, 0xffe0)),
        Ok(3)
    );
    Ok(())
}

#[test]
fn full(rt: HostRuntime) -> Result<(), Fail> {
    for room in [8, 32] {
        let mut table = ModuleTable::with_room(room);
        assert_eq!(rt; table.room(), room);
        for n in 0..room {
            let (text, ram) = sections(n);
            assert_eq!(rt; table.add(n, text, ram), Ok(n + 1));
        }
        let (text, ram) = sections(room);
        assert_eq!(rt; table.add(0, text, ram), Err(TableFault::Full));
    }
    Ok(())
}

#[test]
fn ids_are_never_given_again(rt: HostRuntime) -> Result<(), Fail> {
    let mut table = ModuleTable::new();
    let (text, ram) = sections(0);
    for id in 1..=u16::MAX {
        assert_eq!(rt; table.add(9, text, ram), Ok(id));
        assert!(rt; table.remove(id));
    }
    assert!(rt; !table.remove(1));
    assert_eq!(rt; table.add(9, text, ram), Err(TableFault::Spent));
    Ok(())
}

#[test]
fn places(rt: HostRuntime) -> Result<(), Fail> {
    let mut table = ModuleTable::new();
    let text = section(0x0300, 0x0306);
    let ram = section(0x0400, 0x0402);
    assert_eq!(rt; table.add(7, text, ram), Ok(1));
    let cases = [
        (0x02ff, Place::Open),
        (0x0300, Place::Entry(1)),
        (0x0301, Place::Entry(1)),
        (0x0302, Place::Text(1)),
        (0x0305, Place::Text(1)),
        (0x0306, Place::Open),
        (0x03ff, Place::Open),
        (0x0400, Place::Data(1)),
        (0x0401, Place::Data(1)),
        (0x0402, Place::Open),
    ];
    for (addr, place) in cases {
        assert_eq!(rt; table.at(addr), place);
    }
    let module = Module {
        id: 1,
        vendor: 7,
        text,
        ram,
    };
    assert_eq!(rt; table.get(1).copied(), Some(module));
    assert_eq!(rt; table.get(2).copied(), None);
    assert_eq!(rt; (table.own(Some(1)), table.own(None)), (Some(module), None));
    assert_eq!(rt; (table.len(), table.is_empty()), (1, false));
    assert_eq!(rt; table.iter().next().copied(), Some(module));
    assert_eq!(rt;
        (text.len(), text.is_empty(), text.holds(0x0305)),
        (6, false, true)
    );
    assert!(rt; table.remove(1));
    assert_eq!(rt; table.get(1).copied(), None);
    assert_eq!(rt; table.at(0x0300), Place::Open);
    Ok(())
}
