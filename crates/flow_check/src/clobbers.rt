//! Secret where the instructions of an arm write.

ghost use Rattle.std.specs.Prelude.{◌≡◌, ◌∷◌, List};
ghost use Rattle.flow_rule.specs.declared.Reach.{Reach};
ghost use Rattle.flow_rule.specs.declared.Val.{Val};
ghost use Rattle.flow_rule.specs.Values.{set_each};
ghost use Rattle.flow_rule.specs.Does.{write_reaches};
ghost use Rattle.flow_check.specs.internal.Arms.{one_regs};
ghost use Rattle.flow_rule.specs.Arms.{stepped_regs, written_reg, written_regs, written_words, clobbered_core};

use crate::accesses::writes_destination;
use crate::domain::{Core, Words, put};
use crate::memory::{put_word, word_number};
use flow_rule::{Reach, Val};
use insn_decode::{Insn, OneOp, Operand};
use mod_layout::Module;
use pc_access::Kind;

/// The register that an operand's increment changes.
fn clobber_step(operand: Operand, core: &mut Core)
    ensures { core.new ≡ clobbered_core (stepped_regs operand) core.old }
{
    if let Operand::Increment(reg) = operand {
        put(core, reg, Val::Secret);
    }
}

/// The register that is written, if one is.
fn clobber_written(written: bool, operand: Operand, core: &mut Core)
    ensures { core.new ≡ clobbered_core (written_reg written operand) core.old }
{
    if written && let Operand::Reg(reg) = operand {
        put(core, reg, Val::Secret);
    }
}

/// The registers that an instruction writes.
#[tactic(auto, using(crate::proofs::Clobbering::core_append))]
pub fn clobber_registers(insn: &Insn, core: &mut Core)
    ensures { core.new ≡ clobbered_core (written_regs insn.now) core.old }
{
    match *insn {
        Insn::Two { op, src, dst, .. } => {
            clobber_step(src, core);
            clobber_written(writes_destination(op), dst, core);
        }
        Insn::One { op, arg, .. } => {
            clobber_step(arg, core);
            clobber_operand(op, arg, core);
        }
        Insn::Jump { .. } | Insn::Reti | Insn::Unit(_) => {}
    }
}

/// What an instruction of format II writes: PUSH lowers SP.
fn clobber_operand(op: OneOp, arg: Operand, core: &mut Core)
    ensures { core.new ≡ clobbered_core (one_regs op arg) core.old }
{
    if op == OneOp::Push {
        put(core, 1, Val::Secret);
    } else {
        clobber_written(true, arg, core);
    }
}

/// The word that an access writes, before others.
fn clobber_reach(module: &Module, reach: &Reach, words: &mut Words)
    ensures { (rest : List Reach) → set_each
        (written_words module.now (write_reaches (reach.now ∷ rest))) Val.Secret words.old
        ≡ set_each (written_words module.now (write_reaches rest)) Val.Secret words.new }
{
    if reach.kind == Kind::Write
        && let Val::Known(addr) = reach.addr
    {
        put_word(words, word_number(module, addr), Val::Secret);
    }
}

/// The words that these accesses write.
pub fn clobber_words(module: &Module, reaches: &[Reach], words: &mut Words)
    ensures { words.new ≡ set_each (written_words module.now (write_reaches reaches.now)) Val.Secret words.old }
{
    for reach in reaches {
        clobber_reach(module, reach, words);
    }
}
