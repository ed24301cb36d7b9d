//! A whole file beside its bytes, which were put together by hand from TIS ELF 1.2.

use asm_text::assemble;
use obj_write::write_object;
use std::alloc::AllocError;
use std::test::Fail;

/// Code with a name of elsewhere and a local label, data, and a place without bytes.
const SOURCE: &[u8] =
    b"section .text code\nglobal main\nlabel main\nmov #far, r5\nlabel here\njmp here\n\
section .data data\nword 0x1234\nsection .bss bss\nspace 4\n";

// The file's header: it starts at 0 and has 52 bytes.
fn file_header() -> &'static [&'static [u8]] {
    &[
        // e_ident: the magic, ELFCLASS32, ELFDATA2LSB, EV_CURRENT, and zeros up to 16 bytes
        b"\x7fELF\x01\x01\x01\0\0\0\0\0\0\0\0\0",
        // e_type ET_REL
        b"\x01\0",
        // e_machine EM_MSP430, 105
        b"\x69\0",
        // e_version EV_CURRENT
        b"\x01\0\0\0",
        // e_entry: none
        b"\0\0\0\0",
        // e_phoff: no program headers
        b"\0\0\0\0",
        // e_shoff: the section headers start behind all contents, at 212
        b"\xd4\0\0\0",
        // e_flags
        b"\0\0\0\0",
        // e_ehsize 52
        b"\x34\0",
        // e_phentsize, e_phnum: no program headers
        b"\0\0\0\0",
        // e_shentsize 40
        b"\x28\0",
        // e_shnum: section 0, three of the source, three tables and one of relocations
        b"\x08\0",
        // e_shstrndx: .shstrtab is section 6
        b"\x06\0",
    ]
}

// The contents of the sections, each up to a multiple of 4.
fn contents() -> &'static [&'static [u8]] {
    &[
        // .text, at 52: mov #0, r5 with its number as a word, whose place is relocated
        b"\x35\x40\0\0",
        // jmp to itself, one word back from the next; two zeros
        b"\xff\x3f\0\0",
        // .data, at 60: the word 0x1234; two zeros
        b"\x34\x12\0\0",
        // .symtab, at 64; .bss has no bytes. Symbol 0
        b"\0\0\0\0\0\0\0\0\0\0\0\0\0\0\0\0",
        // here: name at 1, value 4, no size, STB_LOCAL and STT_NOTYPE, st_other, section 1
        b"\x01\0\0\0\x04\0\0\0\0\0\0\0\x00\0\x01\0",
        // main: name at 6, value 0, no size, STB_GLOBAL and STT_NOTYPE, st_other, section 1
        b"\x06\0\0\0\0\0\0\0\0\0\0\0\x10\0\x01\0",
        // far: name at 11, value 0, no size, STB_GLOBAL and STT_NOTYPE, st_other, SHN_UNDEF
        b"\x0b\0\0\0\0\0\0\0\0\0\0\0\x10\0\0\0",
        // .strtab, at 128: 15 bytes, and a zero
        b"\0here\0main\0far\0",
        b"\0",
        // .shstrtab, at 144: 55 bytes, and a zero
        b"\0.text\0.data\0.bss\0.symtab\0.strtab\0.shstrtab\0.rela.text\0",
        b"\0",
        // .rela.text, at 200: r_offset 2, symbol 3 with R_MSP430_16_BYTE, r_addend 0; it ends at 212
        b"\x02\0\0\0\x05\x03\0\0\0\0\0\0",
    ]
}

// The section headers: sh_name, sh_type, sh_flags, sh_addr, sh_offset, sh_size, sh_link, sh_info, sh_addralign, sh_entsize.
fn section_headers() -> &'static [[u32; 10]] {
    &[
        // section 0, SHT_NULL
        [0, 0, 0, 0, 0, 0, 0, 0, 0, 0],
        // .text: SHT_PROGBITS, SHF_ALLOC and SHF_EXECINSTR
        [1, 1, 2 + 4, 0, 52, 6, 0, 0, 2, 0],
        // .data: SHT_PROGBITS, SHF_WRITE and SHF_ALLOC
        [7, 1, 1 + 2, 0, 60, 2, 0, 0, 2, 0],
        // .bss: SHT_NOBITS, SHF_WRITE and SHF_ALLOC
        [13, 8, 1 + 2, 0, 64, 4, 0, 0, 2, 0],
        // .symtab: SHT_SYMTAB, names in section 5, symbol 2 is the first that is not local
        [18, 2, 0, 0, 64, 64, 5, 2, 4, 16],
        // .strtab: SHT_STRTAB
        [26, 3, 0, 0, 128, 15, 0, 0, 4, 0],
        // .shstrtab: SHT_STRTAB
        [34, 3, 0, 0, 144, 55, 0, 0, 4, 0],
        // .rela.text: SHT_RELA, symbols in section 4, relocates section 1
        [44, 4, 0, 0, 200, 12, 4, 1, 4, 12],
    ]
}

fn put_rows(out: &mut Vec<u8>, rows: &[&[u8]]) -> Result<(), AllocError> {
    for row in rows {
        out.extend_from_slice(row)?;
    }
    Ok(())
}

fn put_headers(out: &mut Vec<u8>, headers: &[[u32; 10]]) -> Result<(), AllocError> {
    for header in headers {
        for number in header {
            out.extend_from_slice(&number.to_le_bytes())?;
        }
    }
    Ok(())
}

#[test]
fn each_byte_is_the_standards(rt: HostRuntime) -> Result<(), Fail> {
    let mut wanted = Vec::new(rt.alloc());
    put_rows(&mut wanted, file_header())?;
    put_rows(&mut wanted, contents())?;
    put_headers(&mut wanted, section_headers())?;
    assert_eq!(rt; wanted.len(), 532);
    let unit = assemble(rt.alloc(), SOURCE)?;
    let bytes = write_object(rt.alloc(), &unit)?;
    assert_eq!(rt; bytes.as_slice(), wanted.as_slice());
    Ok(())
}
