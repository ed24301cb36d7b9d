//! The bytes of the sections, and the relocations.

ghost use Rattle.std.specs.Prelude.{◌≡◌, ◌≢◌, ◌<◌, ◌≤◌, ◌+◌, ◌-◌, ◌*◌, ◌++◌, ◌^◌, ℕ, length, flat_map, option_map, Ok, Err, Some, true, OnOk, IfOk, IfErr, MatchResult};
ghost use Rattle.std.specs.Option.{option_to_list};
ghost use Rattle.arrayvec.specs.ArrayVec.{array_vec_len};
ghost use Rattle.sm_words.specs.Bytes.{word_bytes};
ghost use Rattle.asm_text.specs.Emission as spec;
ghost use Rattle.asm_text.specs.internal.Emitted.{meanings_value, emitted_of, newest_section, HasRoom, AreNames};
ghost use Rattle.asm_text.specs.internal.Known.{IsBelow, IsKnown, IsNamed, AreKnown, AreNamed};
ghost use Rattle.asm_text.specs.internal.Placed.{ArePlaced};
ghost use Rattle.asm_text.specs.internal.Maps.{texts_in};
ghost use Rattle.asm_line.specs.Identifiers.{is_name};
ghost use Rattle.asm_line.specs.Statements.{statement_size};
ghost use Rattle.asm_text.specs.Views.{section_value};
ghost use Rattle.asm_line.specs.Encoding as encoding;

use crate::names::string_of;
use crate::placing::{Spot, statement_size};
use crate::unit::{AsmFault, AsmRelocation, AsmSection};
use arrayvec::ArrayVec;
use asm_line::{Field, SectionKind, Statement, jump_word, leading_word};
use insn_decode::{Condition, Insn, Operand};
use std::alloc::{AllocError, Global};

/// The bytes of a statement, at most three words.
pub type Bytes = ArrayVec<u8, 6>;

fn push_word(word: u16, bytes: &mut Bytes)
    requires room { array_vec_len bytes.old ≤ 4 }
    ensures bytes { bytes.new.items ≡ bytes.old.items ++ word_bytes word }
    ensures length { array_vec_len bytes.new ≡ array_vec_len bytes.old + 2 }
{
    bytes.push((word % 256) as u8);
    bytes.push((word / 256) as u8);
}

// An operand's extension word, if it has one.
fn extension(operand: Operand) -> Option<u16>
    ensures { option_to_list result ≡ encoding.extension operand }
{
    match operand {
        Operand::Imm(x)
        | Operand::Indexed { x, .. }
        | Operand::Symbolic(x)
        | Operand::Absolute(x) => Some(x),
        _ => None,
    }
}

fn push_extension(operand: Operand, bytes: &mut Bytes)
    requires room { array_vec_len bytes.old ≤ 4 }
    ensures bytes { bytes.new.items ≡ bytes.old.items ++ flat_map word_bytes (encoding.extension operand) }
    ensures length { array_vec_len bytes.new ≤ array_vec_len bytes.old + 2 }
{
    if let Some(word) = extension(operand) {
        push_word(word, bytes);
    }
}

fn code_bytes(insn: Insn) -> Option<Bytes>
    ensures { option_map (λ bytes. bytes.items) result ≡ encoding.code_bytes insn }
{
    let word = leading_word(insn)?;
    let mut bytes = ArrayVec::new();
    push_word(word, &mut bytes);
    match insn {
        Insn::Two { src, dst, .. } => {
            push_extension(src, &mut bytes);
            push_extension(dst, &mut bytes);
        }
        Insn::One { arg, .. } => push_extension(arg, &mut bytes),
        Insn::Jump { .. } | Insn::Reti | Insn::Unit(_) => {}
    }
    Some(bytes)
}

fn word_bytes(word: u16) -> Bytes
    ensures { result.items ≡ word_bytes word }
{
    let mut bytes = ArrayVec::new();
    push_word(word, &mut bytes);
    bytes
}

// The offset in words of a jump from `here` to `there`, counted from the next word.
fn reach(here: u32, there: u32) -> i64
    requires { here ≤ 65534 }
    ensures { result ≡ spec.reach here there }
{
    let next = here + 2;
    if there >= next {
        i64::from((there - next) / 2)
    } else {
        -i64::from((next - there) / 2)
    }
}

// The jump of line n, at `here` in this section, to a spot.
fn jump_bytes(
    n: u64,
    section: usize,
    here: u32,
    condition: Condition,
    spot: Option<Spot>,
) -> Result<Bytes, AsmFault>
    requires { here ≤ 65534 }
    ensures { MatchResult result (λ bytes. spec.jump_bytes n section here condition spot ≡ Ok bytes.items)
        (λ fault. spec.jump_bytes n section here condition spot ≡ Err fault) }
{
    let Some(spot) = spot else {
        return Err(AsmFault::NoLabel { n });
    };
    if spot.section != section {
        return Err(AsmFault::NoLabel { n });
    }
    let value = reach(here, spot.offset);
    let Some(word) = jump_word(condition, value) else {
        return Err(AsmFault::Far { n, value });
    };
    Ok(word_bytes(word))
}

/// What names mean: the names of sections, and of each name where its label stands, and its symbol.
#[derive(Clone, Copy)]
pub struct Meanings<'a> {
    pub sections: &'a [&'a [u8]],
    pub spots: &'a [Option<Spot>],
    pub symbols: &'a [Option<u32>],
}

/// The sections and the relocations so far.
#[derive(Drop)]
pub struct Emission {
    pub sections: Vec<AsmSection>,
    pub relocations: Vec<AsmRelocation>,
}

fn field_number(field: Field<usize>) -> u16
    ensures { result ≡ spec.field_number field }
{
    match field {
        Field::Number(number) => number,
        Field::Name(_) => 0,
    }
}

// The bytes of the statement of line n, at `here` in this section.
fn statement_bytes(
    meanings: &Meanings<'_>,
    n: u64,
    section: usize,
    here: u32,
    statement: Statement<usize>,
) -> Result<Bytes, AsmFault>
    requires here { here ≤ 65534 }
    requires known { IsKnown (length meanings.now.spots.now) statement }
    ensures { MatchResult result (λ bytes. spec.statement_bytes (meanings_value meanings.now) n section here statement
        ≡ Ok bytes.items) (λ fault. spec.statement_bytes (meanings_value meanings.now) n section here statement
        ≡ Err fault) }
{
    match statement {
        Statement::Word(field) => Ok(word_bytes(field_number(field))),
        Statement::Jump { condition, target } => {
            jump_bytes(n, section, here, condition, meanings.spots[target])
        }
        Statement::Code { insn, .. } => code_bytes(insn).ok_or(AsmFault::Line { n }),
        Statement::Section { .. }
        | Statement::Label(_)
        | Statement::Global(_)
        | Statement::Space(_) => Ok(ArrayVec::new()),
    }
}

// The offset of the word of a second operand after this one, from the start of the instruction.
fn second_word(first: Operand) -> u32
    ensures exact { result ≡ spec.second_word first }
    ensures most { result ≤ 4 }
{
    2 + 2 * u32::from(first.words())
}

// A section with a statement more.
fn grow(section: &mut AsmSection, size: u32, bytes: &[u8]) -> Result<(), AllocError>
    requires { section.old.size + size < 2 ^ 32 }
    ensures { OnOk result (section_value section.new ≡ spec.grown (section_value section.old) size bytes.now) }
{
    section.bytes.extend_from_slice(bytes)?;
    section.size += size;
    Ok(())
}

impl Emission {
    fn new(alloc: Global) -> Self
        ensures { emitted_of result ≡ spec.nothing }
    {
        Emission {
            sections: Vec::new(alloc),
            relocations: Vec::new(alloc),
        }
    }

    fn relocate(
        &mut self,
        meanings: &Meanings<'_>,
        section: usize,
        offset: u32,
        name: Option<usize>,
    ) -> Result<(), AllocError>
        requires section { section < 2 ^ 32 }
        requires name { IsBelow (length meanings.now.symbols.now) name }
        ensures relocations { OnOk result (self.new.relocations.items ≡ self.old.relocations.items
            ++ spec.relocation_if (meanings_value meanings.now) section offset name) }
        ensures sections { self.new.sections ≡ self.old.sections }
    {
        let Some(name) = name else {
            return Ok(());
        };
        if let Some(symbol) = meanings.symbols[name] {
            self.relocations.push(AsmRelocation {
                section: section as u32,
                offset,
                symbol,
            })?;
        }
        Ok(())
    }

    fn add_relocations(
        &mut self,
        meanings: &Meanings<'_>,
        section: usize,
        here: u32,
        statement: Statement<usize>,
    ) -> Result<(), AllocError>
        requires section { section < 2 ^ 32 }
        requires here { here ≤ 65534 }
        requires known { IsKnown (length meanings.now.symbols.now) statement }
        ensures relocations { OnOk result (self.new.relocations.items ≡ self.old.relocations.items
            ++ spec.statement_relocations (meanings_value meanings.now) section here statement) }
        ensures sections { self.new.sections ≡ self.old.sections }
    {
        match statement {
            Statement::Word(Field::Name(name)) => self.relocate(
                meanings,
                section,
                here,
                Some(name),
            ),
            Statement::Code {
                insn,
                first,
                second,
            } => match insn {
                Insn::Two { src, .. } => {
                    self.relocate(meanings, section, here + 2, first)?;
                    self.relocate(meanings, section, here + second_word(src), second)
                }
                Insn::One { .. } => self.relocate(meanings, section, here + 2, first),
                Insn::Jump { .. } | Insn::Reti | Insn::Unit(_) => Ok(()),
            },
            Statement::Word(Field::Number(_))
            | Statement::Section { .. }
            | Statement::Label(_)
            | Statement::Global(_)
            | Statement::Space(_)
            | Statement::Jump { .. } => Ok(()),
        }
    }

    // A statement in the last section.
    fn add_in_last(
        &mut self,
        meanings: &Meanings<'_>,
        n: u64,
        statement: Statement<usize>,
    ) -> Result<(), AsmFault>
        requires few { length self.old.sections.items ≤ 256 }
        requires room { HasRoom (emitted_of self.old).sections (statement_size statement) }
        requires spots { IsKnown (length meanings.now.spots.now) statement }
        requires symbols { IsKnown (length meanings.now.symbols.now) statement }
        ensures emitted { OnOk result (spec.in_last (meanings_value meanings.now) n (emitted_of self.old)
            (newest_section (emitted_of self.old).sections) statement ≡ Ok (emitted_of self.new)) }
        ensures refused { IfErr result (λ fault. fault ≢ AsmFault.NoMemory
            → spec.in_last (meanings_value meanings.now) n (emitted_of self.old)
            (newest_section (emitted_of self.old).sections) statement ≡ Err fault) }
    {
        let Some(last) = self.sections.len().checked_sub(1) else {
            return Err(AsmFault::Place { n });
        };
        let here = self.sections[last].size;
        let bytes = match statement_bytes(meanings, n, last, here, statement) {
            Ok(bytes) => bytes,
            Err(fault) => return Err(fault),
        };
        self.add_relocations(meanings, last, here, statement)?;
        grow(
            &mut self.sections[last],
            statement_size(statement),
            bytes.as_slice(),
        )?;
        Ok(())
    }

    fn open(&mut self, alloc: Global, name: &[u8], kind: SectionKind) -> Result<(), AllocError>
        requires { is_name name.now ≡ true }
        ensures { OnOk result (emitted_of self.new ≡ spec.opened (emitted_of self.old) kind name.now) }
    {
        let name = string_of(alloc, name)?;
        self.sections.push(AsmSection {
            name,
            kind,
            size: 0,
            bytes: Vec::new(alloc),
        })?;
        Ok(())
    }

    // The statement of line n.
    #[tactic(auto, using(crate::proofs::NameLemmas::name_at, crate::proofs::NameLemmas::name_is))]
    fn add(
        &mut self,
        alloc: Global,
        meanings: &Meanings<'_>,
        n: u64,
        statement: Statement<usize>,
    ) -> Result<(), AsmFault>
        requires few { length self.old.sections.items ≤ 256 }
        requires room { HasRoom (emitted_of self.old).sections (statement_size statement) }
        requires spots { IsKnown (length meanings.now.spots.now) statement }
        requires symbols { IsKnown (length meanings.now.symbols.now) statement }
        requires named { IsNamed (length meanings.now.sections.now) statement }
        requires names { AreNames (texts_in meanings.now.sections.now) }
        ensures emitted { OnOk result (spec.emitted (meanings_value meanings.now) n (emitted_of self.old) statement
            ≡ Ok (emitted_of self.new)) }
        ensures refused { IfErr result (λ fault. fault ≢ AsmFault.NoMemory
            → spec.emitted (meanings_value meanings.now) n (emitted_of self.old) statement ≡ Err fault) }
    {
        match statement {
            Statement::Section { name, kind } => {
                self.open(alloc, meanings.sections[name], kind)?;
                Ok(())
            }
            Statement::Label(_) | Statement::Global(_) => Ok(()),
            Statement::Word(_)
            | Statement::Space(_)
            | Statement::Jump { .. }
            | Statement::Code { .. } => self.add_in_last(meanings, n, statement),
        }
    }
}

/// The bytes and relocations of these statements, or the first jump that is refused.
pub fn emit_all(
    alloc: Global,
    meanings: &Meanings<'_>,
    statements: &[Statement<usize>],
) -> Result<Emission, AsmFault>
    requires spots { AreKnown (length meanings.now.spots.now) statements.now }
    requires symbols { AreKnown (length meanings.now.symbols.now) statements.now }
    requires named { AreNamed (length meanings.now.sections.now) statements.now }
    requires names { AreNames (texts_in meanings.now.sections.now) }
    requires placed { ArePlaced (length meanings.now.spots.now) statements.now }
    ensures emitted { IfOk result (λ e. spec.emitted_from (meanings_value meanings.now) 1 spec.nothing statements.now
        ≡ Ok (emitted_of e)) }
    ensures refused { IfErr result (λ fault. fault ≢ AsmFault.NoMemory
        → spec.emitted_from (meanings_value meanings.now) 1 spec.nothing statements.now ≡ Err fault) }
{
    let mut emission = Emission::new(alloc);
    for (index, statement) in statements.iter().enumerate() {
        if let Err(fault) = emission.add(alloc, meanings, index as u64 + 1, *statement) {
            return Err(fault);
        }
    }
    Ok(emission)
}
