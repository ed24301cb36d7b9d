//! Each mnemonic with each operand that it takes. The words are put together from the fields of the code table.

use asm_text::assemble;
use std::alloc::Global;
use std::process::Abort;
use std::test::Fail;

// A mnemonic, and its first word with all fields of operands 0.
type Mnemonic = (&'static [u8], u16);

// An operand's text, its fields in a first word, its extension word, and whether that is a name's.
type Form = (&'static [u8], u16, &'static [u8], bool);

fn two_operand_mnemonics() -> &'static [Mnemonic] {
    &[
        (b"mov", 0x4000),
        (b"mov.b", 0x4040),
        (b"add", 0x5000),
        (b"add.b", 0x5040),
        (b"addc", 0x6000),
        (b"addc.b", 0x6040),
        (b"subc", 0x7000),
        (b"subc.b", 0x7040),
        (b"sub", 0x8000),
        (b"sub.b", 0x8040),
        (b"cmp", 0x9000),
        (b"cmp.b", 0x9040),
        (b"dadd", 0xa000),
        (b"dadd.b", 0xa040),
        (b"bit", 0xb000),
        (b"bit.b", 0xb040),
        (b"bic", 0xc000),
        (b"bic.b", 0xc040),
        (b"bis", 0xd000),
        (b"bis.b", 0xd040),
        (b"xor", 0xe000),
        (b"xor.b", 0xe040),
        (b"and", 0xf000),
        (b"and.b", 0xf040),
    ]
}

// A source of two operands: its register in bits 8 to 11, its mode in bits 4 and 5.
fn sources() -> &'static [Form] {
    &[
        (b"r0", 0x0000, &[], false),
        (b"r15", 0x0f00, &[], false),
        (b"0x1234(r1)", 0x0110, &[0x34, 0x12], false),
        (b"&0x1234", 0x0210, &[0x34, 0x12], false),
        (b"&there", 0x0210, &[0, 0], true),
        (b"@r4", 0x0420, &[], false),
        (b"@r15+", 0x0f30, &[], false),
        (b"#0x1234", 0x0030, &[0x34, 0x12], false),
        (b"#there", 0x0030, &[0, 0], true),
        (b"#4", 0x0220, &[], false),
        (b"#8", 0x0230, &[], false),
        (b"#0", 0x0300, &[], false),
        (b"#1", 0x0310, &[], false),
        (b"#2", 0x0320, &[], false),
        (b"#-1", 0x0330, &[], false),
    ]
}

// A destination: its register in bits 0 to 3, its mode in bit 7.
fn destinations() -> &'static [Form] {
    &[
        (b"r3", 0x0003, &[], false),
        (b"0x5678(r15)", 0x008f, &[0x78, 0x56], false),
        (b"&0x5678", 0x0082, &[0x78, 0x56], false),
        (b"&here", 0x0082, &[0, 0], true),
    ]
}

fn changing_mnemonics() -> &'static [Mnemonic] {
    &[
        (b"rrc", 0x1000),
        (b"rrc.b", 0x1040),
        (b"swpb", 0x1080),
        (b"rra", 0x1100),
        (b"rra.b", 0x1140),
        (b"sxt", 0x1180),
    ]
}

fn reading_mnemonics() -> &'static [Mnemonic] {
    &[(b"push", 0x1200), (b"push.b", 0x1240), (b"call", 0x1280)]
}

// The one operand of an instruction that changes it: its register in bits 0 to 3, its mode in bits 4 and 5.
fn places() -> &'static [Form] {
    &[
        (b"r0", 0x0000, &[], false),
        (b"r15", 0x000f, &[], false),
        (b"0x1234(r1)", 0x0011, &[0x34, 0x12], false),
        (b"&0x1234", 0x0012, &[0x34, 0x12], false),
        (b"&there", 0x0012, &[0, 0], true),
        (b"@r4", 0x0024, &[], false),
        (b"@r15+", 0x003f, &[], false),
    ]
}

// What else may be the one operand of an instruction that reads it alone.
fn numbers() -> &'static [Form] {
    &[
        (b"#0x1234", 0x0030, &[0x34, 0x12], false),
        (b"#there", 0x0030, &[0, 0], true),
        (b"#4", 0x0022, &[], false),
        (b"#8", 0x0032, &[], false),
        (b"#0", 0x0003, &[], false),
        (b"#1", 0x0013, &[], false),
        (b"#2", 0x0023, &[], false),
        (b"#-1", 0x0033, &[], false),
    ]
}

// A source, the bytes that it is to give, and where its names are.
#[derive(Drop)]
struct Worked {
    text: Vec<u8>,
    bytes: Vec<u8>,
    names: Vec<usize>,
}

impl Worked {
    fn new(alloc: Global) -> Result<Worked, Fail> {
        Ok(Worked {
            text: Vec::from_slice(alloc, b"section t code\n")?,
            bytes: Vec::new(alloc),
            names: Vec::new(alloc),
        })
    }

    fn add_extension(&mut self, form: &Form) -> Result<(), Fail> {
        let (_, _, extension, named) = form;
        if *named {
            self.names.push(self.bytes.len())?;
        }
        self.bytes.extend_from_slice(extension)?;
        Ok(())
    }

    fn add_one(&mut self, mnemonic: &Mnemonic, form: &Form) -> Result<(), Fail> {
        self.text.extend_from_slice(mnemonic.0)?;
        self.text.push(b' ')?;
        self.text.extend_from_slice(form.0)?;
        self.text.push(b'\n')?;
        self.bytes
            .extend_from_slice(&(mnemonic.1 | form.1).to_le_bytes())?;
        self.add_extension(form)
    }

    fn add_two(
        &mut self,
        mnemonic: &Mnemonic,
        source: &Form,
        destination: &Form,
    ) -> Result<(), Fail> {
        self.text.extend_from_slice(mnemonic.0)?;
        self.text.push(b' ')?;
        self.text.extend_from_slice(source.0)?;
        self.text.extend_from_slice(b", ")?;
        self.text.extend_from_slice(destination.0)?;
        self.text.push(b'\n')?;
        let word = mnemonic.1 | source.1 | destination.1;
        self.bytes.extend_from_slice(&word.to_le_bytes())?;
        self.add_extension(source)?;
        self.add_extension(destination)
    }

    fn add_all(&mut self, mnemonic: &Mnemonic, forms: &[Form]) -> Result<(), Fail> {
        for form in forms {
            self.add_one(mnemonic, form)?;
        }
        Ok(())
    }

    fn add_pairs(&mut self, mnemonic: &Mnemonic, source: &Form) -> Result<(), Fail> {
        for destination in destinations() {
            self.add_two(mnemonic, source, destination)?;
        }
        Ok(())
    }

    fn check(&self, rt: &impl Abort, alloc: Global) -> Result<(), Fail> {
        assert!(rt; self.text.len() <= 1_048_576);
        let unit = assemble(alloc, self.text.as_slice())?;
        assert_eq!(rt; unit.sections.len(), 1);
        assert_eq!(rt; unit.sections[0].bytes.as_slice(), self.bytes.as_slice());
        let mut names = Vec::new(alloc);
        for relocation in &unit.relocations {
            names.push(relocation.offset as usize)?;
        }
        assert_eq!(rt; names.as_slice(), self.names.as_slice());
        Ok(())
    }
}

fn pairs_of(alloc: Global, mnemonic: &Mnemonic) -> Result<Worked, Fail> {
    let mut worked = Worked::new(alloc)?;
    for source in sources() {
        worked.add_pairs(mnemonic, source)?;
    }
    Ok(worked)
}

#[test]
fn two_operands_have_their_words(rt: HostRuntime) -> Result<(), Fail> {
    for mnemonic in two_operand_mnemonics() {
        pairs_of(rt.alloc(), mnemonic)?.check(&rt, rt.alloc())?;
    }
    Ok(())
}

#[test]
fn places_have_their_words(rt: HostRuntime) -> Result<(), Fail> {
    for mnemonic in changing_mnemonics() {
        let mut worked = Worked::new(rt.alloc())?;
        worked.add_all(mnemonic, places())?;
        worked.check(&rt, rt.alloc())?;
    }
    Ok(())
}

#[test]
fn read_operands_have_their_words(rt: HostRuntime) -> Result<(), Fail> {
    for mnemonic in reading_mnemonics() {
        let mut worked = Worked::new(rt.alloc())?;
        worked.add_all(mnemonic, places())?;
        worked.add_all(mnemonic, numbers())?;
        worked.check(&rt, rt.alloc())?;
    }
    Ok(())
}
