//! What an instruction does through a port: each operand is read and written where its value is used.

ghost use Rattle.std.specs.Prelude.{◌≡◌, ◌++◌, ℕ, List, true, IfSome, IsFalse, is_some};
ghost use Rattle.sm_words.specs.Sums.{one_if};
ghost use Rattle.sm_words.specs.Words.{reg};
ghost use Rattle.sm_words.specs.declared.registers.TheConstants.{SP};
ghost use Rattle.pc_access.specs.declared.Kind.TheVariants.{Read, Write};
ghost use Rattle.pc_access.specs.Rights.{misaligned};
ghost use Rattle.cpu_step.specs.Plan.{access_if, lowered, one_writes, plan, reads_dst, writes_dst};
ghost use Rattle.cpu_step.specs.Effect.{given, in_memory, one_done, written};
ghost use Rattle.cpu_step.specs.Through.{AreAligned, stored_in, taken};
ghost use Rattle.cpu_step.specs.internal.Through.{freely_through, old_value};

use crate::accesses::{
    extension, lower, reads_destination, second_extension, step_past, writes_destination,
};
use crate::effect::{carry, do_jump, put_result, set_flags};
use crate::operand::{at_hand, increment, place};
use crate::port::Port;
use crate::result::{Computed, one_result, two_result};
use insn_decode::{Insn, OneOp, Operand, TwoOp};
use sm_words::{Core, PC, SP, SR, Width};

/// An operand, a byte or a word, and where it stands in memory, if it does.
#[derive(Clone, Copy)]
struct Placed {
    operand: Operand,
    width: Width,
    place: Option<u16>,
}

/// The value that an operand gives: it is read where it stands in memory.
#[inline(always)]
#[tactic(auto, using(crate::proofs::ThroughLemmas::given_read))]
fn take<P: Port>(from: Placed, core: &Core, port: &mut P) -> u16
    requires place { in_memory from.operand ≡ is_some from.place }
    requires aligned { IfSome from.place (λ addr. IsFalse (misaligned from.width addr)) }
    ensures value { (rest : List ℕ) → result ≡ given from.operand from.width core.now
        ((taken P.answer P.after_read (P.state port.old) (access_if true Read from.width from.place)).values ++ rest) }
    ensures state { P.state port.new
        ≡ (taken P.answer P.after_read (P.state port.old) (access_if true Read from.width from.place)).state }
{
    match from.place {
        Some(addr) => from.width.low(port.read(addr, from.width)),
        None => at_hand(from.operand, from.width, core),
    }
}

/// The old value of the destination, where it is read, and else 0.
#[inline(always)]
fn take_old<P: Port>(op: TwoOp, dst: Placed, core: &Core, port: &mut P) -> u16
    requires place { in_memory dst.operand ≡ is_some dst.place }
    requires aligned { IfSome dst.place (λ addr. IsFalse (misaligned dst.width addr)) }
    ensures value { result ≡ old_value (reads_dst op) (given dst.operand dst.width core.now
        (taken P.answer P.after_read (P.state port.old) (access_if (reads_dst op) Read dst.width dst.place)).values) }
    ensures state { P.state port.new
        ≡ (taken P.answer P.after_read (P.state port.old) (access_if (reads_dst op) Read dst.width dst.place)).state }
{
    if reads_destination(op) {
        take(dst, core, port)
    } else {
        0
    }
}

/// Writes a result into its operand.
#[inline(always)]
#[tactic(auto, using(crate::proofs::ThroughLemmas::written_there))]
fn write_result<P: Port>(to: Placed, computed: &Computed, core: &mut Core, port: &mut P)
    requires place { in_memory to.operand ≡ is_some to.place }
    requires aligned { IfSome to.place (λ addr. IsFalse (misaligned to.width addr)) }
    ensures core { core.new ≡ (written true to.operand computed.now core.old).core }
    ensures state { P.state port.new
        ≡ stored_in P.after_write (P.state port.old) (access_if true Write to.width to.place)
        (written true to.operand computed.now core.old).stored }
{
    match to.place {
        Some(addr) => {
            set_flags(computed, core);
            port.write(addr, to.width, computed.value());
        }
        None => match to.operand {
            Operand::Reg(reg) => put_result(reg, computed, core),
            _ => set_flags(computed, core),
        },
    }
}

/// Format I, with its result: it is written into the destination, or sets the flags alone.
#[inline(always)]
fn finish_two<P: Port>(op: TwoOp, dst: Placed, computed: &Computed, core: &mut Core, port: &mut P)
    requires place { in_memory dst.operand ≡ is_some dst.place }
    requires aligned { IfSome dst.place (λ addr. IsFalse (misaligned dst.width addr)) }
    ensures core { core.new ≡ (written (writes_dst op) dst.operand computed.now core.old).core }
    ensures state { P.state port.new
        ≡ stored_in P.after_write (P.state port.old) (access_if (writes_dst op) Write dst.width dst.place)
        (written (writes_dst op) dst.operand computed.now core.old).stored }
{
    if writes_destination(op) {
        write_result(dst, computed, core, port);
    } else {
        set_flags(computed, core);
    }
}

/// Format I: the source is read, its increment is done, and the destination is read and written.
#[inline(always)]
fn do_two<P: Port>(
    op: TwoOp,
    width: Width,
    src: Operand,
    dst: Operand,
    core: &mut Core,
    port: &mut P,
)
    requires aligned { AreAligned (plan (Insn.Two op width src dst) core.old) }
    ensures core { core.new ≡ (freely_through P.answer P.after_read P.after_write (Insn.Two op width src dst) core.old
        (P.state port.old)).core }
    ensures state { P.state port.new ≡ (freely_through P.answer P.after_read P.after_write (Insn.Two op width src dst)
        core.old (P.state port.old)).state }
{
    let insn = Insn::Two {
        op,
        width,
        src,
        dst,
    };
    let carry = carry(core);
    let extension = extension(core);
    step_past(&insn, core);
    let from = Placed {
        operand: src,
        width,
        place: place(src, core, extension),
    };
    let source = take(from, core, port);
    increment(width, src, core);
    let to = Placed {
        operand: dst,
        width,
        place: place(dst, core, second_extension(extension, src)),
    };
    let old = take_old(op, to, core, port);
    let computed = two_result(op, width, source, old, carry);
    finish_two(op, to, &computed, core, port);
}

/// Format II, where the operand's value is read and its increment is done: PUSH and CALL store at the lowered SP.
fn finish_one<P: Port>(
    op: OneOp,
    arg: Placed,
    value: u16,
    carry: bool,
    core: &mut Core,
    port: &mut P,
)
    requires place { in_memory arg.operand ≡ is_some arg.place }
    requires even { IfSome arg.place (λ addr. IsFalse (misaligned arg.width addr)) }
    requires aligned { AreAligned (one_writes op arg.width arg.place (reg (lowered core.old) SP)) }
    ensures core { core.new ≡ (one_done op arg.width arg.operand value (one_if carry) core.old).core }
    ensures state { P.state port.new ≡ stored_in P.after_write (P.state port.old)
        (one_writes op arg.width arg.place (reg (lowered core.old) SP))
        (one_done op arg.width arg.operand value (one_if carry) core.old).stored }
{
    match op {
        OneOp::Push => {
            lower(core);
            port.write(core.sp(), arg.width, value);
        }
        OneOp::Call => {
            let next = core.pc();
            lower(core);
            port.write(core.sp(), Width::Word, next);
            core.put(PC, value);
        }
        OneOp::Rrc | OneOp::Swpb | OneOp::Rra | OneOp::Sxt => {
            let computed = one_result(op, arg.width, value, carry);
            write_result(arg, &computed, core, port);
        }
    }
}

/// Format II: the operand is read, its increment is done, and the result is written.
fn do_one<P: Port>(op: OneOp, width: Width, arg: Operand, core: &mut Core, port: &mut P)
    requires aligned { AreAligned (plan (Insn.One op width arg) core.old) }
    ensures core { core.new ≡ (freely_through P.answer P.after_read P.after_write (Insn.One op width arg) core.old
        (P.state port.old)).core }
    ensures state { P.state port.new ≡ (freely_through P.answer P.after_read P.after_write (Insn.One op width arg)
        core.old (P.state port.old)).state }
{
    let insn = Insn::One { op, width, arg };
    let carry = carry(core);
    let extension = extension(core);
    step_past(&insn, core);
    let placed = Placed {
        operand: arg,
        width,
        place: place(arg, core, extension),
    };
    let value = take(placed, core, port);
    increment(width, arg, core);
    finish_one(op, placed, value, carry, core, port);
}

/// RETI: SR and PC are read at SP, which rises by 4.
#[tactic(auto, unfolding(crate::specs::Plan::plan, crate::specs::Effect::does_freely))]
fn do_reti<P: Port>(core: &mut Core, port: &mut P)
    requires aligned { AreAligned (plan Insn.Reti core.old) }
    ensures core { core.new
        ≡ (freely_through P.answer P.after_read P.after_write Insn.Reti core.old (P.state port.old)).core }
    ensures state { P.state port.new
        ≡ (freely_through P.answer P.after_read P.after_write Insn.Reti core.old (P.state port.old)).state }
{
    let sp = core.sp();
    let sr = port.read(sp, Width::Word);
    let pc = port.read(sp.wrapping_add(2), Width::Word);
    core.put(SR, sr);
    core.put(PC, pc);
    core.put(SP, sp.wrapping_add(4));
}

/// An instruction with no regard to who runs it.
#[inline(always)]
#[tactic(auto, unfolding(crate::specs::Plan::plan, crate::specs::Effect::does_freely))]
pub fn do_freely<P: Port>(insn: &Insn, core: &mut Core, port: &mut P)
    requires aligned { AreAligned (plan insn.now core.old) }
    ensures core { core.new
        ≡ (freely_through P.answer P.after_read P.after_write insn.now core.old (P.state port.old)).core }
    ensures state { P.state port.new
        ≡ (freely_through P.answer P.after_read P.after_write insn.now core.old (P.state port.old)).state }
{
    match *insn {
        Insn::Two {
            op,
            width,
            src,
            dst,
        } => do_two(op, width, src, dst, core, port),
        Insn::One { op, width, arg } => do_one(op, width, arg, core, port),
        Insn::Jump { condition, offset } => do_jump(insn, condition, offset, core),
        Insn::Reti => do_reti(core, port),
        Insn::Unit(_) => step_past(insn, core),
    }
}
