//! Operands: where they stand, and what they give.

ghost use Rattle.std.specs.Prelude.{◌≡◌, List, ℕ, false};
ghost use Rattle.cpu_step.specs.Plan.{place, increment_of, stepped};
ghost use Rattle.cpu_step.specs.Effect.{given, in_memory};

use insn_decode::Operand;
use sm_words::{Core, SP, Width};

/// The operand's address in memory, where it has one; its extension word stands at `ext`.
#[inline(always)]
pub fn place(operand: Operand, core: &Core, ext: u16) -> Option<u16>
    ensures { result ≡ place operand core.now ext }
{
    match operand {
        Operand::Indexed { reg, x } => Some(core.get(reg).wrapping_add(x)),
        Operand::Symbolic(x) => Some(ext.wrapping_add(x)),
        Operand::Absolute(x) => Some(x),
        Operand::Indirect(reg) | Operand::Increment(reg) => Some(core.get(reg)),
        Operand::Reg(_) | Operand::Const(_) | Operand::Imm(_) => None,
    }
}

/// By how much a register rises past its operand.
fn step(width: Width, reg: u8) -> u16
    ensures { result ≡ increment_of width reg }
{
    match width {
        Width::Byte if reg != SP => 1,
        Width::Byte | Width::Word => 2,
    }
}

/// Does the operand's increment.
#[inline(always)]
pub fn increment(width: Width, operand: Operand, core: &mut Core)
    ensures { core.new ≡ stepped width operand core.old }
{
    if let Operand::Increment(reg) = operand {
        let raised = core.get(reg).wrapping_add(step(width, reg));
        core.put(reg, raised);
    }
}

/// The value that an operand outside memory gives: of a register, or of the instruction.
#[inline(always)]
pub fn at_hand(operand: Operand, width: Width, core: &Core) -> u16
    requires { in_memory operand ≡ false }
    ensures { (values : List ℕ) → result ≡ given operand width core.now values }
{
    match operand {
        Operand::Reg(reg) => width.low(core.get(reg)),
        Operand::Const(value) | Operand::Imm(value) => width.low(value),
        _ => 0,
    }
}
