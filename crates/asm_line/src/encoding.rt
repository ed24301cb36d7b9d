//! The words of an instruction.

ghost use Rattle.std.specs.Prelude.{◌≡◌, ◌≤◌, ◌<◌, ◌+◌, ◌*◌, IfSome};
ghost use Rattle.insn_decode.specs.Code.{one_fits};
ghost use Rattle.insn_decode.specs.declared.insn.Insn.TheVariants.{Jump};
ghost use Rattle.insn_decode.specs.Means as means;
ghost use Rattle.asm_line.specs.Encoding as spec;

use insn_decode::{Condition, Insn, OneOp, Operand, TwoOp};
use sm_words::Width;

/// Bits 12 and up of format II.
const FORMAT_TWO: u16 = 0x1000;

/// Bits 13 and up of a jump.
const JUMP: u16 = 0x2000;

/// The word of RETI.
const RETI: u16 = 0x1300;

/// The word of unit instruction 0.
const UNIT: u16 = 0x1380;

fn two_code(op: TwoOp) -> u16
    ensures exact { result ≡ means.two_code op }
    ensures most { result < 16 }
{
    match op {
        TwoOp::Mov => 4,
        TwoOp::Add => 5,
        TwoOp::Addc => 6,
        TwoOp::Subc => 7,
        TwoOp::Sub => 8,
        TwoOp::Cmp => 9,
        TwoOp::Dadd => 10,
        TwoOp::Bit => 11,
        TwoOp::Bic => 12,
        TwoOp::Bis => 13,
        TwoOp::Xor => 14,
        TwoOp::And => 15,
    }
}

fn one_code(op: OneOp) -> u16
    ensures exact { result ≡ means.one_code op }
    ensures most { result < 8 }
{
    match op {
        OneOp::Rrc => 0,
        OneOp::Swpb => 1,
        OneOp::Rra => 2,
        OneOp::Sxt => 3,
        OneOp::Push => 4,
        OneOp::Call => 5,
    }
}

/// How a first word names an operand.
#[derive(Clone, Copy)]
pub struct OperandFields {
    pub mode: u16,
    pub register: u16,
}

fn fields(mode: u16, register: u16) -> Option<OperandFields>
    ensures { result ≡ spec.fields mode register }
{
    Some(OperandFields { mode, register })
}

// R1 and R4 to R15 alone have these modes.
fn plain_fields(mode: u16, reg: u8) -> Option<OperandFields>
    ensures exact { result ≡ spec.plain_fields mode reg }
    ensures most { IfSome result (λ fields. (fields.mode ≤ mode) × (fields.register < 16)) }
{
    if reg < 16 && reg != 0 && reg != 2 && reg != 3 {
        fields(mode, u16::from(reg))
    } else {
        None
    }
}

fn source_fields(operand: Operand) -> Option<OperandFields>
    ensures exact { result ≡ spec.source_fields operand }
    ensures most { IfSome result (λ fields. (fields.mode < 4) × (fields.register < 16)) }
{
    match operand {
        Operand::Reg(reg) if reg < 16 && reg != 3 => fields(0, u16::from(reg)),
        Operand::Const(0) => fields(0, 3),
        Operand::Const(1) => fields(1, 3),
        Operand::Const(2) => fields(2, 3),
        Operand::Const(4) => fields(2, 2),
        Operand::Const(8) => fields(3, 2),
        Operand::Const(0xffff) => fields(3, 3),
        Operand::Reg(_) | Operand::Const(_) => None,
        Operand::Imm(_) => fields(3, 0),
        Operand::Indexed { reg, .. } => plain_fields(1, reg),
        Operand::Symbolic(_) => fields(1, 0),
        Operand::Absolute(_) => fields(1, 2),
        Operand::Indirect(reg) => plain_fields(2, reg),
        Operand::Increment(reg) => plain_fields(3, reg),
    }
}

fn dest_fields(operand: Operand) -> Option<OperandFields>
    ensures exact { result ≡ spec.dest_fields operand }
    ensures most { IfSome result (λ fields. (fields.mode < 2) × (fields.register < 16)) }
{
    match operand {
        Operand::Reg(reg) if reg < 16 => fields(0, u16::from(reg)),
        Operand::Indexed { reg, .. } => plain_fields(1, reg),
        Operand::Symbolic(_) => fields(1, 0),
        Operand::Absolute(_) => fields(1, 2),
        _ => None,
    }
}

fn byte_flag(width: Width) -> u16
    ensures exact { result ≡ spec.byte_flag width }
    ensures most { result < 2 }
{
    match width {
        Width::Byte => 1,
        Width::Word => 0,
    }
}

// Three operations have no byte form, and a result needs a place.
fn fits(op: OneOp, width: Width, arg: Operand) -> bool
    ensures { result ≡ one_fits op width arg }
{
    let whole = width == Width::Word;
    let placed = !matches!(arg, Operand::Imm(_) | Operand::Const(_));
    match op {
        OneOp::Push => true,
        OneOp::Call => whole,
        OneOp::Swpb | OneOp::Sxt => whole && placed,
        OneOp::Rrc | OneOp::Rra => placed,
    }
}

/// The word of a jump, whose offset has ten bits, signed.
#[tactic(auto, unfolding(crate::specs::Encoding::leading_word))]
pub fn jump_word(condition: Condition, offset: i64) -> Option<u16>
    ensures exact { result ≡ spec.leading_word (Jump condition offset) }
{
    if offset < -512 || offset >= 512 {
        return None;
    }
    Some(JUMP + u16::from(condition.number()) * 1024 + offset.rem_euclid(1024) as u16)
}

/// The first word of an instruction, where the code table has it.
#[tactic(auto, unfolding(crate::specs::Encoding::leading_word))]
pub fn leading_word(insn: Insn) -> Option<u16>
    ensures exact { result ≡ spec.leading_word insn }
{
    match insn {
        Insn::Two {
            op,
            width,
            src,
            dst,
        } => {
            let source = source_fields(src)?;
            let dest = dest_fields(dst)?;
            Some(
                two_code(op) * 4096
                    + source.register * 256
                    + dest.mode * 128
                    + byte_flag(width) * 64
                    + source.mode * 16
                    + dest.register,
            )
        }
        Insn::One { op, width, arg } => {
            let source = source_fields(arg)?;
            if !fits(op, width, arg) {
                return None;
            }
            Some(
                FORMAT_TWO
                    + one_code(op) * 128
                    + byte_flag(width) * 64
                    + source.mode * 16
                    + source.register,
            )
        }
        Insn::Jump { condition, offset } => jump_word(condition, i64::from(offset)),
        Insn::Reti => Some(RETI),
        Insn::Unit(name) => Some(UNIT + u16::from(name.number())),
    }
}
