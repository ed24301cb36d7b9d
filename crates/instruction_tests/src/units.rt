//! Rows of the unit instructions, and tags that another tool computed.

use attest::{UnitDone, Who, unit};
use insn_decode::UnitName;
use mem_map::Memory;
use mod_layout::{ModuleTable, Section};
use pc_access::{Denied, Rule};
use sm_words::Core;
use std::alloc::Global;
use std::test::Fail;

const NODE_KEY: [u8; 16] = [0, 1, 2, 3, 4, 5, 6, 7, 8, 9, 10, 11, 12, 13, 14, 15];

/// The tag of the bytes cd ab under module 1's key. That key is the first 16 bytes of
///     printf '\203\023\000\107\000\003\004\003\000\004\022\004' |
///         openssl dgst -sha256 -mac HMAC -macopt hexkey:226b13d20262706f6143d81ffe421caa
/// (the provider's key of vendor 7), and the tag those of
///     printf '\315\253' |
///         openssl dgst -sha256 -mac HMAC -macopt hexkey:ca7a6a7c1cbf8a34c1efeed78576b2fb
const TAG: [u8; 16] = [
    0xbd, 0xc5, 0xb7, 0xda, 0x9a, 0xeb, 0x15, 0x62, 0xe4, 0x4b, 0x63, 0xfd, 0x71, 0xb6, 0x73, 0x99,
];

/// The tag of module 2's identity under module 1's key:
///     printf '\003\103\000\107\000\007\004\007\200\007\202\007' |
///         openssl dgst -sha256 -mac HMAC -macopt hexkey:ca7a6a7c1cbf8a34c1efeed78576b2fb
const IDENTITY_TAG: [u8; 16] = [
    0xd2, 0xf2, 0x73, 0xa0, 0x49, 0x5a, 0xa2, 0x3c, 0xf6, 0x83, 0x46, 0x5b, 0xf1, 0x1d, 0x5e, 0x83,
];

const OUTSIDE: Who = Who {
    active: None,
    caller: 0,
};

const INSIDE: Who = Who {
    active: Some(1),
    caller: 2,
};

fn section(start: u16, end: u16) -> Section {
    Section { start, end }
}

// Module 1 has the text 1383 4700 and 18 bytes of data that begin with cd ab; module 2 has the text
// 4303 4700 and 2 bytes of data.
fn two_modules() -> Result<ModuleTable, Fail> {
    let mut table = ModuleTable::new();
    table.add(7, section(0x0300, 0x0304), section(0x0400, 0x0412))?;
    table.add(7, section(0x0700, 0x0704), section(0x0780, 0x0782))?;
    Ok(table)
}

// Eight modules, of 2 bytes of text and 4 of data each.
fn fill(table: &mut ModuleTable) -> Result<(), Fail> {
    for k in 0..8u16 {
        let start = 0x1000 + 16 * k;
        table.add(7, section(start, start + 2), section(start + 4, start + 8))?;
    }
    Ok(())
}

fn memory(alloc: Global, rt: &impl std::process::Abort) -> Result<Memory, Fail> {
    let bytes = vec![in alloc; 0u8; 65536]?;
    let bytes = bytes.as_slice();
    assert_eq!(rt; bytes.len(), 65536);
    let mut memory = Memory::new(alloc, bytes)?;
    let words = [
        (0x0300, 0x1383),
        (0x0302, 0x4700),
        (0x0700, 0x4303),
        (0x0702, 0x4700),
        (0x0400, 0xabcd),
    ];
    for (addr, word) in words {
        set_word(&mut memory, addr, word);
    }
    Ok(memory)
}

fn set_word(memory: &mut Memory, addr: u16, word: u16) {
    memory.set_byte(addr, (word % 256) as u8);
    memory.set_byte(addr | 1, (word / 256) as u8);
}

// A core with R11 to R15.
fn core(r11: u16, r12: u16, r13: u16, r14: u16, r15: u16) -> Core {
    Core::new([
        0x0300, 0x0600, 8, 0, 4, 5, 6, 7, 8, 9, 10, r11, r12, r13, r14, r15,
    ])
}

fn done(cycles: u32, closing: bool, made: u16) -> UnitDone {
    UnitDone {
        cycles,
        closing,
        made,
    }
}

// Every instruction outside and inside, where nothing is hashed. R12 is in module 1's data; as a range or
// a section it is empty or ends before it starts.
#[test]
fn short_rows(rt: HostRuntime) -> Result<(), Fail> {
    let mut memory = memory(rt.alloc(), &rt)?;
    let mut table = two_modules()?;
    // R15 and the cycles, outside and inside.
    let rows = [
        ((0, 6), (0xeeee, 15)),
        ((0, 6), (0, 6)),
        ((0, 6), (0, 6)),
        ((0, 6), (0, 6)),
        ((1, 6), (1, 6)),
        ((0, 6), (1, 6)),
        ((0, 6), (2, 6)),
    ];
    for op in 0..7u8 {
        let (outside, inside) = rows[usize::from(op)];
        for (who, (r15, cycles)) in [(OUTSIDE, outside), (INSIDE, inside)] {
            let mut core = core(7, 0x0400, 0x03fe, 0x0402, 0xeeee);
            // Only unprotect inside closes.
            let closing = r15 == 0xeeee;
            let name = UnitName::from_number(u16::from(op));
            let answer = unit(name, &mut core, &mut memory, &mut table, who, &NODE_KEY);
            assert_eq!(rt; answer, Ok(done(cycles, closing, 0)), "{op}");
            assert_eq!(rt; (core.get(15), core.get(0)), (r15, 0x0300), "{op}");
        }
    }
    Ok(())
}

// attest and tag inside, with ranges below 0x0200, past 0x10000 and empty, and refused at their first, a
// middle and their last byte.
#[test]
fn ranges(rt: HostRuntime) -> Result<(), Fail> {
    let mut memory = memory(rt.alloc(), &rt)?;
    let mut table = two_modules()?;
    let nothing = Ok((0, 6));
    let denied = |rule, addr, module| Err(Denied { rule, addr, module });
    let read = denied(Rule::ReadData, 0x0780, 2);
    let text = denied(Rule::WriteText, 0x0300, 1);
    let rows = [
        // attest of module 2 by the 16 bytes at R13.
        (UnitName::Attest, 0x0702, 0x01ff, 0, nothing),
        (UnitName::Attest, 0x0702, 0xfff1, 0, nothing),
        (UnitName::Attest, 0x0702, 0xfff0, 0, Ok((0, 262))),
        (UnitName::Attest, 0x0702, 0x0780, 0, read),
        (UnitName::Attest, 0x0702, 0x0779, 0, read),
        (UnitName::Attest, 0x0702, 0x0771, 0, read),
        // tag of R12 to R13 at R14.
        (UnitName::Tag, 0x01fe, 0x0300, 0x0402, nothing),
        (UnitName::Tag, 0x01fe, 0x01fe, 0x0402, nothing),
        (UnitName::Tag, 0x0402, 0x0400, 0x0402, nothing),
        (UnitName::Tag, 0x0400, 0x0402, 0x01fe, nothing),
        (UnitName::Tag, 0x0400, 0x0402, 0xfff1, nothing),
        (UnitName::Tag, 0x0400, 0x0400, 0xfff0, Ok((1, 262))),
        (UnitName::Tag, 0x0780, 0x0784, 0x0402, read),
        (UnitName::Tag, 0x077e, 0x0784, 0x0402, read),
        (UnitName::Tag, 0x077e, 0x0781, 0x0402, read),
        (UnitName::Tag, 0x0400, 0x0402, 0x0300, text),
        (UnitName::Tag, 0x0400, 0x0402, 0x02f8, text),
        (UnitName::Tag, 0x0400, 0x0402, 0x02f1, text),
        (UnitName::Tag, 0x0400, 0x0402, 0x0782, Ok((1, 262))),
        (
            UnitName::Tag,
            0x0400,
            0x0402,
            0x0781,
            denied(Rule::WriteData, 0x0781, 2),
        ),
    ];
    for (name, r12, r13, r14, want) in rows {
        let mut core = core(7, r12, r13, r14, 0xeeee);
        let answer = unit(name, &mut core, &mut memory, &mut table, INSIDE, &NODE_KEY);
        let got = answer.map(|done| (core.get(15), done.cycles));
        assert_eq!(rt; got, want, "{r12:04x} {r13:04x} {r14:04x}");
    }
    Ok(())
}

#[test]
fn tags(rt: HostRuntime) -> Result<(), Fail> {
    let mut memory = memory(rt.alloc(), &rt)?;
    let mut table = two_modules()?;
    // The message, the two bytes at 0x0400, is read before its tag is written over it.
    let mut tagging = core(7, 0x0400, 0x0402, 0x0400, 0);
    let answer = unit(
        UnitName::Tag,
        &mut tagging,
        &mut memory,
        &mut table,
        INSIDE,
        &NODE_KEY,
    );
    assert_eq!(rt; (answer, tagging.get(15)), (Ok(done(262, false, 0)), 1));
    for (addr, byte) in (0x0400..).zip(TAG) {
        assert_eq!(rt; memory.byte(addr), byte, "at {addr:04x}");
    }
    for (addr, byte) in (0x0402..).zip(IDENTITY_TAG) {
        memory.set_byte(addr, byte);
    }
    // The last of the 16 bytes right, and wrong.
    for (last, id) in [(0x83, 2), (0x84, 0)] {
        memory.set_byte(0x0411, last);
        let mut attesting = core(7, 0x0702, 0x0402, 0, 0xeeee);
        let answer = unit(
            UnitName::Attest,
            &mut attesting,
            &mut memory,
            &mut table,
            INSIDE,
            &NODE_KEY,
        );
        assert_eq!(rt; (answer, attesting.get(15)), (Ok(done(262, false, 0)), id));
    }
    Ok(())
}

// A text of 2 bytes and data of 64: protect takes 518 cycles, unprotect 38.
#[test]
fn protected_and_closed(rt: HostRuntime) -> Result<(), Fail> {
    let mut memory = memory(rt.alloc(), &rt)?;
    let mut table = two_modules()?;
    memory.set_byte(0x0a00, 1);
    memory.set_byte(0x0a3f, 1);
    memory.set_byte(0x0a40, 1);
    let mut protecting = core(9, 0x0900, 0x0902, 0x0a00, 0x0a40);
    let answer = unit(
        UnitName::Protect,
        &mut protecting,
        &mut memory,
        &mut table,
        OUTSIDE,
        &NODE_KEY,
    );
    assert_eq!(rt; (answer, protecting.get(15)), (Ok(done(518, false, 3)), 3));
    assert_eq!(rt; table.get(3).map(|module| module.vendor), Some(9));
    assert_eq!(rt;
        (
            memory.byte(0x0a00),
            memory.byte(0x0a3f),
            memory.byte(0x0a40)
        ),
        (0, 0, 1)
    );
    let who = Who {
        active: Some(3),
        caller: 0,
    };
    let mut closing = core(0, 0, 0, 0, 0xeeee);
    let answer = unit(
        UnitName::Unprotect,
        &mut closing,
        &mut memory,
        &mut table,
        who,
        &NODE_KEY,
    );
    assert_eq!(rt; (answer, closing.get(15)), (Ok(done(38, true, 0)), 0xeeee));
    // Its own caller is none.
    let answer = unit(
        UnitName::CallerId,
        &mut closing,
        &mut memory,
        &mut table,
        who,
        &NODE_KEY,
    );
    assert_eq!(rt; (answer, closing.get(15)), (Ok(done(6, false, 0)), 0));
    Ok(())
}

// Protects a module of 2 bytes of text and 2 of data: what is done, R15, and whether the table has a module 9.
fn protect_ninth(memory: &mut Memory, table: &mut ModuleTable) -> (Option<UnitDone>, u16, bool) {
    memory.set_byte(0x2004, 1);
    let mut core = core(7, 0x2000, 0x2002, 0x2004, 0x2006);
    let answer = unit(
        UnitName::Protect,
        &mut core,
        memory,
        table,
        OUTSIDE,
        &NODE_KEY,
    );
    (answer.ok(), core.get(15), table.get(9).is_some())
}

// A ninth module has no room among 8, and is made among 32: its text has 2 bytes, as above.
#[test]
fn the_ninth_module(rt: HostRuntime) -> Result<(), Fail> {
    let mut memory = memory(rt.alloc(), &rt)?;
    let mut eight = ModuleTable::new();
    fill(&mut eight)?;
    assert_eq!(rt;
        protect_ninth(&mut memory, &mut eight),
        (Some(done(6, false, 0)), 0, false)
    );
    assert_eq!(rt; memory.byte(0x2004), 1);
    let mut more = ModuleTable::with_room(32);
    fill(&mut more)?;
    assert_eq!(rt;
        protect_ninth(&mut memory, &mut more),
        (Some(done(518, false, 9)), 9, true)
    );
    assert_eq!(rt; memory.byte(0x2004), 0);
    Ok(())
}
