//! Sources and what they give.
use asm_text::{AsmRelocation, SectionKind, assemble};
use std::test::Fail;

mod forms;

#[test]
fn a_program_is_assembled(rt: HostRuntime) -> Result<(), Fail> {
    let text =
        b"section .text code\nglobal main\nlabel main\nmov #0x1234, r5\nmov #0, r3\nlabel here\njmp here\n";
    let unit = assemble(rt.alloc(), text)?;
    assert_eq!(rt; unit.sections.len(), 1);
    assert_eq!(rt; unit.sections[0].name.as_str(), ".text");
    assert_eq!(rt; unit.sections[0].kind, SectionKind::Code);
    assert_eq!(rt; unit.sections[0].size, 8);
    assert_eq!(rt;
        unit.sections[0].bytes.as_slice(),
        [0x35, 0x40, 0x34, 0x12, 0x03, 0x43, 0xff, 0x3f].as_slice()
    );
    assert_eq!(rt; unit.symbols.len(), 2);
    assert_eq!(rt; unit.symbols[0].name.as_str(), "here");
    assert_eq!(rt; unit.symbols[0].global, false);
    assert_eq!(rt; unit.symbols[0].home, Some(0));
    assert_eq!(rt; unit.symbols[0].value, 6);
    assert_eq!(rt; unit.symbols[1].name.as_str(), "main");
    assert_eq!(rt; unit.symbols[1].global, true);
    assert_eq!(rt; unit.symbols[1].home, Some(0));
    assert_eq!(rt; unit.symbols[1].value, 0);
    assert_eq!(rt; unit.relocations.len(), 0);
    Ok(())
}

// A line of a section of code, and its words.
fn lines() -> &'static [(&'static [u8], &'static [u8])] {
    &[
        (b"mov #0x0000, r5", &[0x35, 0x40, 0x00, 0x00]),
        (b"mov #a, &b", &[0xb2, 0x40, 0, 0, 0, 0]),
        (b"reti", &[0x00, 0x13]),
        (b"unit 0", &[0x80, 0x13]),
        (b"unit 6", &[0x86, 0x13]),
        (b"word 0x1234", &[0x34, 0x12]),
        (b"word a", &[0, 0]),
        (b"label a", &[]),
        (b"global a", &[]),
    ]
}

#[test]
fn lines_have_their_words(rt: HostRuntime) -> Result<(), Fail> {
    for (line, bytes) in lines() {
        let mut text = Vec::from_slice(rt.alloc(), b"section t code\n")?;
        text.extend_from_slice(line)?;
        text.push(b'\n')?;
        assert_eq!(rt; text.len() <= 1_048_576, true);
        let unit = assemble(rt.alloc(), text.as_slice())?;
        assert_eq!(rt; unit.sections.len(), 1);
        assert_eq!(rt; unit.sections[0].bytes.as_slice(), *bytes);
    }
    Ok(())
}

#[test]
fn names_are_relocated(rt: HostRuntime) -> Result<(), Fail> {
    let text = b"section t code\nglobal far\nreti\nmov #a, &b\nlabel a\nmov r5, &b\n";
    let unit = assemble(rt.alloc(), text)?;
    assert_eq!(rt; unit.symbols.len(), 3);
    assert_eq!(rt; unit.symbols[0].name.as_str(), "a");
    assert_eq!(rt; unit.symbols[0].value, 8);
    assert_eq!(rt; unit.symbols[1].name.as_str(), "far");
    assert_eq!(rt; unit.symbols[2].name.as_str(), "b");
    assert_eq!(rt; unit.symbols[2].home, None);
    let wanted = [
        AsmRelocation {
            section: 0,
            offset: 4,
            symbol: 0,
        },
        AsmRelocation {
            section: 0,
            offset: 6,
            symbol: 2,
        },
        AsmRelocation {
            section: 0,
            offset: 10,
            symbol: 2,
        },
    ];
    assert_eq!(rt; unit.relocations.as_slice(), wanted.as_slice());
    Ok(())
}

// A source without a refusal.
fn accepted() -> &'static [&'static [u8]] {
    &[
        b"",
        b"section nnnnnnnnnnnnnnnnnnnnnnnnnnnnnnnnnnnnnnnnnnnnnnnnnnnnnnnnnnnnnnnn code\n\
          label nnnnnnnnnnnnnnnnnnnnnnnnnnnnnnnnnnnnnnnnnnnnnnnnnnnnnnnnnnnnnnnn\n\
          word nnnnnnnnnnnnnnnnnnnnnnnnnnnnnnnnnnnnnnnnnnnnnnnnnnnnnnnnnnnnnnnn\n",
        b"section a bss\nspace 2\nspace 65532\n",
        b"section a bss\nspace 65534\n",
        b"section a code\nlabel a\nsection b data\nlabel b\n",
        b"global a\nglobal a\n",
    ]
}

#[test]
fn texts_are_accepted(rt: HostRuntime) {
    for text in accepted() {
        assert_eq!(rt; text.len() <= 1_048_576, true);
        assert_eq!(rt; assemble(rt.alloc(), text).err(), None);
    }
}
