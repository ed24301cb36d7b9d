//! The decoder.
ghost use Rattle.std.specs.Prelude.{◌≡◌, ◌+◌, ◌-◌, ◌/◌, ◌%◌, ◌≤◌, ◌<◌, ◌≢◌, ◌↔◌, ℕ, slice_get, IfSome, IsNone, Some, option_map};
ghost use Rattle.insn_decode.specs.declared.insn.Insn.TheVariants.{Unit as UnitOp};
ghost use Rattle.insn_decode.specs.Code.{source_of, dest_of, width_of, two_ops, one_ops, conditions, unit_ops, one_fits, insn_of, two_of, one_of, jump_of, offset_of, length_of, length_at, IsDecoded, HasForm};
ghost use Rattle.insn_decode.specs.Means.{IsOutside};

use crate::insn::{Condition, Insn, OneOp, Operand, TwoOp, UnitName};
use sm_words::Width;

/// The instruction that begins with these three words, or `None` exactly where the first is outside the
/// code table. Words past the instruction's length are not looked at.
#[inline(always)]
pub fn decode(w0: u16, w1: u16, w2: u16) -> Option<Insn>
    ensures exact { result ≡ insn_of w0 w1 w2 }
    ensures decoded { IfSome result (λ insn. IsDecoded insn) }
    ensures form { IfSome result (λ insn. HasForm insn) }
    ensures outside { IsNone result ↔ IsOutside w0 }
    ensures length { IfSome result (λ insn. length_of insn ≡ length_at w0) }

    // Words past the length are not looked at.
    ensures one_word { length_at w0 ≤ 1 → (v1 v2 : ℕ) → insn_of w0 v1 v2 ≡ result }
    ensures two_words { length_at w0 ≤ 2 → (v2 : ℕ) → insn_of w0 w1 v2 ≡ result }
{
    by_form(w0, w1, w2)
}

/// The number of words, 1 to 3, of the instruction that begins with this word; 1 for a word outside the
/// code table.
pub fn length(w0: u16) -> u16
    ensures exact { result ≡ length_at w0 }
    ensures least { 1 ≤ result }
    ensures most { result ≤ 3 }
{
    match decode(w0, 0, 0) {
        Some(insn) => insn.length(),
        None => 1,
    }
}

/// The instruction, by the part of the table that the first word belongs to.
#[inline(always)]
#[tactic(auto, using(crate::proofs::Forms::forms))]
fn by_form(w0: u16, w1: u16, w2: u16) -> Option<Insn>
    ensures { result ≡ insn_of w0 w1 w2 }
{
    match w0 {
        0x4000.. => decode_two(w0, w1, w2),
        0x2000..=0x3fff => decode_jump(w0),
        0x1300 => Some(Insn::Reti),
        0x1380..=0x1386 => decode_unit(w0 - 0x1380),
        0x1000..=0x13ff => decode_one(w0, w1),
        _ => None,
    }
}

/// An instruction of format I, whose source's extension word stands before its destination's.
#[inline(always)]
fn decode_two(w0: u16, w1: u16, w2: u16) -> Option<Insn>
    requires { 16383 < w0 }
    ensures { result ≡ two_of (slice_get two_ops (w0 / 4096 - 4)) w0 w1 w2 }
{
    let op = two_op(w0 / 4096);
    let src = source((w0 / 16) % 4, ((w0 / 256) % 16) as u8, w1)?;
    let next = if src.words() == 1 { w2 } else { w1 };
    let dst = destination((w0 / 128) % 2, (w0 % 16) as u8, next)?;
    let width = width((w0 / 64) % 2);
    Some(Insn::Two {
        op,
        width,
        src,
        dst,
    })
}

/// An instruction of format II.
fn decode_one(w0: u16, w1: u16) -> Option<Insn>
    ensures { result ≡ one_of (slice_get one_ops ((w0 / 128) % 8)) w0 w1 }
{
    let op = one_op((w0 / 128) % 8)?;
    let arg = source((w0 / 16) % 4, (w0 % 16) as u8, w1)?;
    let width = width((w0 / 64) % 2);
    if fits(op, width, arg) {
        Some(Insn::One { op, width, arg })
    } else {
        None
    }
}

/// A jump.
#[inline(always)]
fn decode_jump(w0: u16) -> Option<Insn>
    ensures { result ≡ jump_of (slice_get conditions ((w0 / 1024) % 8)) w0 }
{
    let condition = Condition::from_number((w0 / 1024) % 8);
    let offset = offset(w0 % 1024);
    Some(Insn::Jump { condition, offset })
}

/// The unit instruction of this number.
#[tactic(auto, using(crate::proofs::Forms::unit_is))]
fn decode_unit(number: u16) -> Option<Insn>
    requires { number < 7 }
    ensures { result ≡ option_map UnitOp (slice_get unit_ops number) }
{
    Some(Insn::Unit(UnitName::from_number(number)))
}

/// The operation of format I with this opcode.
#[inline(always)]
fn two_op(code: u16) -> TwoOp
    requires least { 4 ≤ code }
    requires most { code < 16 }
    ensures { slice_get two_ops (code - 4) ≡ Some result }
{
    match code {
        4 => TwoOp::Mov,
        5 => TwoOp::Add,
        6 => TwoOp::Addc,
        7 => TwoOp::Subc,
        8 => TwoOp::Sub,
        9 => TwoOp::Cmp,
        10 => TwoOp::Dadd,
        11 => TwoOp::Bit,
        12 => TwoOp::Bic,
        13 => TwoOp::Bis,
        14 => TwoOp::Xor,
        _ => TwoOp::And,
    }
}

/// The operation of format II with this opcode.
fn one_op(code: u16) -> Option<OneOp>
    requires { code < 8 }
    ensures { result ≡ slice_get one_ops code }
{
    match code {
        0 => Some(OneOp::Rrc),
        1 => Some(OneOp::Swpb),
        2 => Some(OneOp::Rra),
        3 => Some(OneOp::Sxt),
        4 => Some(OneOp::Push),
        5 => Some(OneOp::Call),
        _ => None,
    }
}

/// Whether format II takes this operand at this width: three operations have no byte form, and a result
/// needs a place.
fn fits(op: OneOp, width: Width, arg: Operand) -> bool
    ensures { result ≡ one_fits op width arg }
{
    let whole = width == Width::Word;
    let placed = !matches!(arg, Operand::Imm(_) | Operand::Const(_));
    match op {
        OneOp::Push => true,
        OneOp::Call => whole,
        OneOp::Swpb | OneOp::Sxt => whole && placed,
        OneOp::Rrc | OneOp::Rra => placed,
    }
}

/// The width by the byte flag.
#[inline(always)]
fn width(flag: u16) -> Width
    ensures { result ≡ width_of flag }
{
    if flag == 1 { Width::Byte } else { Width::Word }
}

/// A jump's offset: ten bits, signed.
fn offset(bits: u16) -> i16
    requires { bits < 1024 }
    ensures { result ≡ offset_of bits }
{
    if bits < 512 {
        bits as i16
    } else {
        bits as i16 - 1024
    }
}

/// A source operand by its mode, 0 to 3, and register; `x` is its extension word.
#[inline(always)]
fn source(mode: u16, reg: u8, x: u16) -> Option<Operand>
    requires { mode < 4 }
    ensures { result ≡ source_of mode reg x }
{
    match reg {
        0 => pc_source(mode, x),
        2 => Some(sr_source(mode, x)),
        3 => Some(constant(mode)),
        _ => Some(plain_source(mode, reg, x)),
    }
}

/// A destination operand by its mode and register.
#[inline(always)]
fn destination(mode: u16, reg: u8, x: u16) -> Option<Operand>
    ensures { result ≡ dest_of mode reg x }
{
    if mode == 0 {
        return Some(Operand::Reg(reg));
    }
    match reg {
        0 => Some(Operand::Symbolic(x)),
        2 => Some(Operand::Absolute(x)),
        3 => None,
        _ => Some(Operand::Indexed { reg, x }),
    }
}

/// The source modes of PC.
#[inline(always)]
fn pc_source(mode: u16, x: u16) -> Option<Operand>
    requires { mode < 4 }
    ensures { result ≡ source_of mode 0 x }
{
    match mode {
        0 => Some(Operand::Reg(0)),
        1 => Some(Operand::Symbolic(x)),
        2 => None,
        _ => Some(Operand::Imm(x)),
    }
}

/// The source modes of SR.
#[inline(always)]
fn sr_source(mode: u16, x: u16) -> Operand
    requires { mode < 4 }
    ensures { Some result ≡ source_of mode 2 x }
{
    match mode {
        0 => Operand::Reg(2),
        1 => Operand::Absolute(x),
        2 => Operand::Const(4),
        _ => Operand::Const(8),
    }
}

/// The source modes of R3.
#[inline(always)]
fn constant(mode: u16) -> Operand
    requires { mode < 4 }
    ensures { Some result ≡ source_of mode 3 0 }
{
    match mode {
        0 => Operand::Const(0),
        1 => Operand::Const(1),
        2 => Operand::Const(2),
        _ => Operand::Const(0xffff),
    }
}

/// The source modes of another register.
#[inline(always)]
fn plain_source(mode: u16, reg: u8, x: u16) -> Operand
    requires mode { mode < 4 }
    requires not_pc { reg ≢ 0 }
    requires not_sr { reg ≢ 2 }
    requires not_constants { reg ≢ 3 }
    ensures { Some result ≡ source_of mode reg x }
{
    match mode {
        0 => Operand::Reg(reg),
        1 => Operand::Indexed { reg, x },
        2 => Operand::Indirect(reg),
        _ => Operand::Increment(reg),
    }
}
