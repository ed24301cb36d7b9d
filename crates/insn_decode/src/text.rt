//! The text of an instruction.
ghost use Rattle.std.specs.Prelude.{◌≡◌, ◌+◌, ◌*◌, ◌≤◌, ◌<◌, ◌++◌, ◌∷◌, [], length};
ghost use Rattle.std.specs.Fmt.{decimal};
ghost use Rattle.arrayvec.specs.ArrayString.{array_string_len};
ghost use Rattle.sm_words.specs.Words.{add16};
ghost use Rattle.insn_decode.specs.Code.{IsDecoded, HasForm, HasParts, distance};
ghost use Rattle.insn_decode.specs.Text.{two_name, one_name, jump_name, suffix_of, hex_text, constant_text, operand_text, insn_text};

use crate::insn::{Condition, Insn, OneOp, Operand, TwoOp};
use arrayvec::ArrayString;
use sm_words::Width;
use texts::{push_decimal, push_hex_word};

/// Sets `out` to the text of an instruction that stands at the address `at`. A jump shows its target, a
/// symbolic operand the address that it means.
pub fn show(insn: &Insn, at: u16, out: &mut ArrayString<48>)
    requires decoded { IsDecoded insn.now }
    ensures text { out.new.bytes ≡ insn_text insn.now at }
{
    out.clear();
    push_insn(insn, at, out);
}

/// Appends an instruction to an empty text.
fn push_insn(insn: &Insn, at: u16, out: &mut ArrayString<48>)
    requires form { HasForm insn.now }
    requires empty { out.old.bytes ≡ [] }
    ensures { out.new.bytes ≡ insn_text insn.now at }
{
    match *insn {
        Insn::Two {
            op,
            width,
            src,
            dst,
        } => push_two(op, width, src, dst, at, out),
        Insn::One { op, width, arg } => {
            out.push_str(one_name(op));
            out.push_str(suffix(width));
            out.push_str(" ");
            push_operand(arg, plus(at, 2), out);
        }
        Insn::Jump { condition, offset } => {
            out.push_str(jump_name(condition));
            out.push_str(" ");
            push_word(plus(plus(at, 2), distance(offset)), out);
        }
        Insn::Reti => out.push_str("reti"),
        Insn::Unit(name) => {
            out.push_str("unit ");
            push_decimal(name.number(), out);
        }
    }
}

/// Appends an instruction with two operands to an empty text.
fn push_two(op: TwoOp, width: Width, src: Operand, dst: Operand, at: u16, out: &mut ArrayString<48>)
    requires source { HasParts src }
    requires destination { HasParts dst }
    requires empty { out.old.bytes ≡ [] }
    ensures { out.new.bytes ≡ insn_text (Insn.Two op width src dst) at }
{
    out.push_str(two_name(op));
    out.push_str(suffix(width));
    out.push_str(" ");
    push_operand(src, plus(at, 2), out);
    out.push_str(", ");
    push_operand(dst, plus(at, 2 + 2 * u32::from(src.words())), out);
}

/// The sum of an address and a distance, modulo 65,536.
fn plus(at: u16, distance: u32) -> u16
    requires { distance ≤ 65536 }
    ensures { result ≡ add16 at distance }
{
    ((u32::from(at) + distance) % 65536) as u16
}

/// A jump's offset as a distance in bytes.
fn distance(offset: i16) -> u32
    ensures exact { result ≡ distance offset }
    ensures most { result ≤ 65536 }
{
    let bytes = 2 * u32::from(offset.unsigned_abs()) % 65536;
    if offset < 0 { 65536 - bytes } else { bytes }
}

fn two_name(op: TwoOp) -> &'static str
    ensures exact { result.now ≡ two_name op }
    ensures most { length result.now ≤ 4 }
{
    match op {
        TwoOp::Mov => "mov",
        TwoOp::Add => "add",
        TwoOp::Addc => "addc",
        TwoOp::Subc => "subc",
        TwoOp::Sub => "sub",
        TwoOp::Cmp => "cmp",
        TwoOp::Dadd => "dadd",
        TwoOp::Bit => "bit",
        TwoOp::Bic => "bic",
        TwoOp::Bis => "bis",
        TwoOp::Xor => "xor",
        TwoOp::And => "and",
    }
}

fn one_name(op: OneOp) -> &'static str
    ensures exact { result.now ≡ one_name op }
    ensures most { length result.now ≤ 4 }
{
    match op {
        OneOp::Rrc => "rrc",
        OneOp::Swpb => "swpb",
        OneOp::Rra => "rra",
        OneOp::Sxt => "sxt",
        OneOp::Push => "push",
        OneOp::Call => "call",
    }
}

/// The name of a jump by its condition.
fn jump_name(condition: Condition) -> &'static str
    ensures exact { result.now ≡ jump_name condition }
    ensures most { length result.now ≤ 3 }
{
    match condition {
        Condition::NotZero => "jne",
        Condition::Zero => "jeq",
        Condition::NoCarry => "jnc",
        Condition::Carry => "jc",
        Condition::Negative => "jn",
        Condition::GreaterOrEqual => "jge",
        Condition::Less => "jl",
        Condition::Always => "jmp",
    }
}

fn suffix(width: Width) -> &'static str
    ensures exact { result.now ≡ suffix_of width }
    ensures most { length result.now ≤ 2 }
{
    match width {
        Width::Byte => ".b",
        Width::Word => "",
    }
}

/// Appends an operand whose extension word is at `at`.
fn push_operand(operand: Operand, at: u16, out: &mut ArrayString<48>)
    requires parts { HasParts operand }
    requires room { array_string_len out.old ≤ 36 }
    ensures text { out.new.bytes ≡ out.old.bytes ++ operand_text operand at }
    ensures most { array_string_len out.new ≤ array_string_len out.old + 12 }
{
    match operand {
        Operand::Reg(reg) => push_register("r", reg, "", out),
        Operand::Const(number) => push_constant(number, out),
        Operand::Imm(x) => {
            out.push_str("#");
            push_word(x, out);
        }
        Operand::Indexed { reg, x } => {
            push_word(x, out);
            push_register("(r", reg, ")", out);
        }
        Operand::Symbolic(x) => push_word(plus(at, u32::from(x)), out),
        Operand::Absolute(x) => {
            out.push_str("&");
            push_word(x, out);
        }
        Operand::Indirect(reg) => push_register("@r", reg, "", out),
        Operand::Increment(reg) => push_register("@r", reg, "+", out),
    }
}

/// Appends a register's number between two texts.
fn push_register(before: &str, reg: u8, after: &str, out: &mut ArrayString<48>)
    requires register { reg < 16 }
    requires before { length before.now ≤ 2 }
    requires after { length after.now ≤ 1 }
    requires room { array_string_len out.old ≤ 42 }
    ensures text { out.new.bytes ≡ out.old.bytes ++ before.now ++ decimal reg ++ after.now }
    ensures most { array_string_len out.new ≤ array_string_len out.old + 6 }
{
    out.push_str(before);
    push_decimal(reg, out);
    out.push_str(after);
}

/// Appends a constant; 65,535 is shown as -1.
fn push_constant(number: u16, out: &mut ArrayString<48>)
    requires { array_string_len out.old ≤ 42 }
    ensures text { out.new.bytes ≡ out.old.bytes ++ constant_text number }
    ensures most { array_string_len out.new ≤ array_string_len out.old + 6 }
{
    if number == 0xffff {
        out.push_str("#-1");
    } else {
        out.push_str("#");
        push_decimal(number, out);
    }
}

/// Appends a word by its four hexadecimal digits.
fn push_word(word: u16, out: &mut ArrayString<48>)
    requires { array_string_len out.old ≤ 42 }
    ensures text { out.new.bytes ≡ out.old.bytes ++ hex_text word }
    ensures most { array_string_len out.new ≡ array_string_len out.old + 6 }
{
    out.push_str("0x");
    push_hex_word(word, out);
}
