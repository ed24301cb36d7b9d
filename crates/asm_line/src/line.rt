//! The statement that a line writes.

ghost use Rattle.std.specs.Prelude.{◌≡◌, Some, None, option_map, length};
ghost use Rattle.std.specs.Option.{option_copied};
ghost use Rattle.insn_decode.specs.Code as code;
ghost use Rattle.insn_decode.specs.Text as names;
ghost use Rattle.asm_line.specs.Lines as spec;
ghost use Rattle.texts.specs.Words as spaced;
ghost use Rattle.asm_line.specs.Operands.{without_ending};
ghost use Rattle.asm_line.specs.Renamed.{with_texts};
ghost use Rattle.asm_line.specs.internal.Statements.{operand_value};

use crate::MAX_SIZE;
use crate::encoding::leading_word;
use crate::operand::{field_of, name_of, operand_of};
use crate::statement::{SectionKind, Statement, Value};
use insn_decode::{Condition, Insn, OneOp, TwoOp, UnitName};
use sm_words::Width;
use texts::{read_decimal, split_word};

/// The statement that a line without its LF writes, where it has one of the forms.
#[tactic(auto, unfolding(crate::specs::Lines::statement_of))]
pub fn statement_of(line: &[u8]) -> Option<Statement<&[u8]>>
    ensures exact { option_map with_texts result ≡ spec.statement_of line.now }
{
    let Some((word, rest)) = split_word(line) else {
        return alone(line);
    };
    let Some((first, second)) = split_word(rest) else {
        return with_one(word, rest);
    };
    if split_word(second).is_some() {
        return None;
    }
    with_two(word, first, second)
}

// The statement of a line of one word.
fn alone<'a>(word: &[u8]) -> Option<Statement<&'a [u8]>>
    ensures { option_map with_texts result ≡ spec.alone word.now }
{
    if word == b"reti".as_slice() {
        Some(plain(Insn::Reti))
    } else {
        None
    }
}

// An instruction without names.
fn plain<'a>(insn: Insn) -> Statement<&'a [u8]>
    ensures { with_texts result ≡ Statement.Code insn None None }
{
    Statement::Code {
        insn,
        first: None,
        second: None,
    }
}

// The statement of a line of two words.
fn with_one<'a>(word: &[u8], text: &'a [u8]) -> Option<Statement<&'a [u8]>>
    ensures { option_map with_texts result ≡ spec.with_one word.now text.now }
{
    if word == b"label".as_slice() {
        name_of(text).map(|name| Statement::Label(name))
    } else if word == b"global".as_slice() {
        name_of(text).map(|name| Statement::Global(name))
    } else if word == b"word".as_slice() {
        field_of(text).map(|field| Statement::Word(field))
    } else if word == b"space".as_slice() {
        space_of(text)
    } else if word == b"unit".as_slice() {
        unit_statement(text)
    } else {
        match condition_of(word) {
            Some(condition) => name_of(text).map(|target| Statement::Jump { condition, target }),
            None => one_operand(word, text),
        }
    }
}

fn space_of<'a>(word: &[u8]) -> Option<Statement<&'a [u8]>>
    ensures { option_map with_texts result ≡ spec.space_of word.now }
{
    let size = read_decimal(word, u64::from(MAX_SIZE))?;
    if size >= 2 && size % 2 == 0 {
        Some(Statement::Space(size as u32))
    } else {
        None
    }
}

#[tactic(auto, using(crate::proofs::WrittenLemmas::unit_there))]
fn unit_statement<'a>(word: &[u8]) -> Option<Statement<&'a [u8]>>
    ensures { option_map with_texts result ≡ spec.unit_statement word.now }
{
    let number = read_decimal(word, 6)?;
    Some(plain(Insn::Unit(UnitName::from_number(number as u16))))
}

// An instruction with names, where the code table has it.
fn coded<'a>(
    insn: Insn,
    first: Option<&'a [u8]>,
    second: Option<&'a [u8]>,
) -> Option<Statement<&'a [u8]>>
    ensures { option_map with_texts result ≡ spec.coded insn (option_copied first.entry)
        (option_copied second.entry) }
{
    if leading_word(insn).is_some() {
        Some(Statement::Code {
            insn,
            first,
            second,
        })
    } else {
        None
    }
}

fn one_operand<'a>(word: &[u8], text: &'a [u8]) -> Option<Statement<&'a [u8]>>
    ensures { option_map with_texts result ≡ spec.one_operand word.now text.now }
{
    let width = mnemonic_width(word);
    let op = one_op_of(base_of(word))?;
    let arg = operand_of(text)?;
    coded(
        Insn::One {
            op,
            width,
            arg: arg.operand,
        },
        arg.name,
        None,
    )
}

// The statement of a line of three words.
fn with_two<'a>(word: &[u8], first: &'a [u8], second: &'a [u8]) -> Option<Statement<&'a [u8]>>
    ensures { option_map with_texts result ≡ spec.with_two word.now first.now second.now }
{
    if word == b"section".as_slice() {
        let name = name_of(first)?;
        let kind = section_kind(second)?;
        return Some(Statement::Section { name, kind });
    }
    two_operands(word, first.strip_suffix(b",")?, second)
}

fn two_operands<'a>(word: &[u8], source: &'a [u8], dest: &'a [u8]) -> Option<Statement<&'a [u8]>>
    ensures { option_map with_texts result ≡ spec.two_operands (Some source.now) word.now dest.now }
{
    let width = mnemonic_width(word);
    let op = two_op_of(base_of(word))?;
    let src = operand_of(source)?;
    let dst = operand_of(dest)?;
    coded(
        Insn::Two {
            op,
            width,
            src: src.operand,
            dst: dst.operand,
        },
        src.name,
        dst.name,
    )
}

fn section_kind(word: &[u8]) -> Option<SectionKind>
    ensures { result ≡ spec.section_kind word.now }
{
    if word == b"code".as_slice() {
        Some(SectionKind::Code)
    } else if word == b"data".as_slice() {
        Some(SectionKind::Data)
    } else if word == b"bss".as_slice() {
        Some(SectionKind::Bss)
    } else {
        None
    }
}

fn mnemonic_width(word: &[u8]) -> Width
    ensures { result ≡ spec.mnemonic_width word.now }
{
    match word.strip_suffix(b".b") {
        Some(_) => Width::Byte,
        None => Width::Word,
    }
}

// The mnemonic without `.b`.
fn base_of(word: &[u8]) -> &[u8]
    ensures { result.now ≡ spec.base_of word.now }
{
    match word.strip_suffix(b".b") {
        Some(base) => base,
        None => word,
    }
}

fn two_op_of(base: &[u8]) -> Option<TwoOp>
    ensures { result ≡ spec.two_op_of base.now }
{
    for op in two_ops() {
        if base == two_name(*op).as_bytes() {
            return Some(*op);
        }
    }
    None
}

fn two_ops() -> &'static [TwoOp]
    ensures { result.now ≡ code.two_ops }
{
    &[
        TwoOp::Mov,
        TwoOp::Add,
        TwoOp::Addc,
        TwoOp::Subc,
        TwoOp::Sub,
        TwoOp::Cmp,
        TwoOp::Dadd,
        TwoOp::Bit,
        TwoOp::Bic,
        TwoOp::Bis,
        TwoOp::Xor,
        TwoOp::And,
    ]
}

fn two_name(op: TwoOp) -> &'static str
    ensures { result.now ≡ names.two_name op }
{
    match op {
        TwoOp::Mov => "mov",
        TwoOp::Add => "add",
        TwoOp::Addc => "addc",
        TwoOp::Subc => "subc",
        TwoOp::Sub => "sub",
        TwoOp::Cmp => "cmp",
        TwoOp::Dadd => "dadd",
        TwoOp::Bit => "bit",
        TwoOp::Bic => "bic",
        TwoOp::Bis => "bis",
        TwoOp::Xor => "xor",
        TwoOp::And => "and",
    }
}

fn one_op_of(base: &[u8]) -> Option<OneOp>
    ensures { result ≡ spec.one_op_of base.now }
{
    for op in one_ops() {
        if base == one_name(*op).as_bytes() {
            return Some(*op);
        }
    }
    None
}

fn one_ops() -> &'static [OneOp]
    ensures { result.now ≡ code.one_ops }
{
    &[
        OneOp::Rrc,
        OneOp::Swpb,
        OneOp::Rra,
        OneOp::Sxt,
        OneOp::Push,
        OneOp::Call,
    ]
}

fn one_name(op: OneOp) -> &'static str
    ensures { result.now ≡ names.one_name op }
{
    match op {
        OneOp::Rrc => "rrc",
        OneOp::Swpb => "swpb",
        OneOp::Rra => "rra",
        OneOp::Sxt => "sxt",
        OneOp::Push => "push",
        OneOp::Call => "call",
    }
}

// The condition of a jump by its name.
fn condition_of(word: &[u8]) -> Option<Condition>
    ensures { result ≡ spec.condition_of word.now }
{
    for condition in conditions() {
        if word == jump_name(*condition).as_bytes() {
            return Some(*condition);
        }
    }
    None
}

fn conditions() -> &'static [Condition]
    ensures { result.now ≡ code.conditions }
{
    &[
        Condition::NotZero,
        Condition::Zero,
        Condition::NoCarry,
        Condition::Carry,
        Condition::Negative,
        Condition::GreaterOrEqual,
        Condition::Less,
        Condition::Always,
    ]
}

fn jump_name(condition: Condition) -> &'static str
    ensures { result.now ≡ names.jump_name condition }
{
    match condition {
        Condition::NotZero => "jne",
        Condition::Zero => "jeq",
        Condition::NoCarry => "jnc",
        Condition::Carry => "jc",
        Condition::Negative => "jn",
        Condition::GreaterOrEqual => "jge",
        Condition::Less => "jl",
        Condition::Always => "jmp",
    }
}
