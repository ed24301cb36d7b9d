//! The rules, each at a place of a module.

use mod_layout::{ModuleTable, Section};
use pc_access::{Denied, Kind, Rule, allowed};
use sm_words::Width;
use std::test::Fail;

// Module 1 has text 0300 to 0304 and data 0400 to 0402, module 2 has text 0500 to 0504 and data 0600 to 0602.
fn table_of_two(rt: &impl std::process::Abort) -> ModuleTable {
    let mut table = ModuleTable::new();
    for start in [0x0300, 0x0500] {
        let text = Section {
            start,
            end: start + 4,
        };
        let ram = Section {
            start: start + 0x0100,
            end: start + 0x0102,
        };
        assert!(rt; table.add(7, text, ram).is_ok());
    }
    table
}

fn denied(rule: Rule, addr: u16, module: u16) -> Result<(), Denied> {
    Err(Denied { rule, addr, module })
}

#[test]
fn rules(rt: HostRuntime) -> Result<(), Fail> {
    let table = table_of_two(&rt);
    let cases = [
        // Data of module 1 from outside: its two bytes, and past them.
        (
            None,
            Kind::Read,
            0x0400,
            Width::Byte,
            denied(Rule::ReadData, 0x0400, 1),
        ),
        (
            None,
            Kind::Read,
            0x0401,
            Width::Byte,
            denied(Rule::ReadData, 0x0401, 1),
        ),
        (None, Kind::Read, 0x0402, Width::Byte, Ok(())),
        (
            None,
            Kind::Read,
            0x0400,
            Width::Word,
            denied(Rule::ReadData, 0x0400, 1),
        ),
        (
            Some(2),
            Kind::Write,
            0x0400,
            Width::Word,
            denied(Rule::WriteData, 0x0400, 1),
        ),
        (Some(1), Kind::Write, 0x0400, Width::Word, Ok(())),
        (Some(1), Kind::Read, 0x0401, Width::Byte, Ok(())),
        (
            Some(1),
            Kind::Fetch,
            0x0400,
            Width::Word,
            denied(Rule::FetchData, 0x0400, 1),
        ),
        // Text: read by everyone, written by no one.
        (None, Kind::Read, 0x0300, Width::Word, Ok(())),
        (Some(2), Kind::Read, 0x0302, Width::Word, Ok(())),
        (
            None,
            Kind::Write,
            0x0300,
            Width::Word,
            denied(Rule::WriteText, 0x0300, 1),
        ),
        (
            Some(1),
            Kind::Write,
            0x0300,
            Width::Word,
            denied(Rule::WriteText, 0x0300, 1),
        ),
        (
            Some(1),
            Kind::Write,
            0x0303,
            Width::Byte,
            denied(Rule::WriteText, 0x0303, 1),
        ),
        // Where instructions start.
        (None, Kind::Fetch, 0x0300, Width::Word, Ok(())),
        (
            None,
            Kind::Fetch,
            0x0302,
            Width::Word,
            denied(Rule::FetchNotEntry, 0x0302, 1),
        ),
        (
            Some(2),
            Kind::Fetch,
            0x0302,
            Width::Word,
            denied(Rule::FetchNotEntry, 0x0302, 1),
        ),
        (Some(1), Kind::Fetch, 0x0302, Width::Word, Ok(())),
        (
            None,
            Kind::Fetch,
            0x01fe,
            Width::Word,
            denied(Rule::FetchDevice, 0x01fe, 0),
        ),
        (None, Kind::Fetch, 0x0200, Width::Word, Ok(())),
        // Alignment comes before all else.
        (
            None,
            Kind::Read,
            0x0401,
            Width::Word,
            denied(Rule::Misaligned, 0x0401, 0),
        ),
        (
            None,
            Kind::Write,
            0xffff,
            Width::Word,
            denied(Rule::Misaligned, 0xffff, 0),
        ),
        (None, Kind::Write, 0x01ff, Width::Byte, Ok(())),
    ];
    for (active, kind, addr, width, wanted) in cases {
        assert_eq!(rt; allowed(&table, active, kind, addr, width, &[]), wanted);
    }
    Ok(())
}

#[test]
fn held_modules_are_not_entered(rt: HostRuntime) -> Result<(), Fail> {
    let table = table_of_two(&rt);
    let entry = 0x0300;
    let refused = denied(Rule::Reenter, entry, 1);
    // The oldest and the newest of those held, and one that is not.
    assert_eq!(rt;
        allowed(&table, None, Kind::Fetch, entry, Width::Word, &[1]),
        refused
    );
    assert_eq!(rt;
        allowed(&table, None, Kind::Fetch, entry, Width::Word, &[1, 2]),
        refused
    );
    assert_eq!(rt;
        allowed(&table, None, Kind::Fetch, entry, Width::Word, &[2, 1]),
        refused
    );
    assert_eq!(rt;
        allowed(&table, None, Kind::Fetch, entry, Width::Word, &[2]),
        Ok(())
    );
    assert_eq!(rt;
        allowed(&table, None, Kind::Read, entry, Width::Word, &[1]),
        Ok(())
    );
    Ok(())
}
