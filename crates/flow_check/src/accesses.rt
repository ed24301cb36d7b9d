//! What an instruction reaches.

ghost use Rattle.std.specs.Prelude.{◌≡◌, true, ◌+◌, ◌*◌, ◌<◌, ◌≤◌, ◌++◌};
ghost use Rattle.arrayvec.specs.ArrayVec.{array_vec_len};
ghost use Rattle.sm_words.specs.Words.{add16};
ghost use Rattle.insn_decode.specs.Code.{words_of};
ghost use Rattle.cpu_step.specs.Plan.{increment_of, reads_dst, writes_dst};
ghost use Rattle.flow_rule.specs.Does.{place_val, past_val, stepped_val, lowered_val, reach_if, one_reach, plan_val};

use crate::domain::{Core, get, plus, put, seen};
use arrayvec::ArrayVec;
use flow_rule::{Reach, Val};
use insn_decode::{Insn, OneOp, Operand, TwoOp};
use pc_access::Kind;
use sm_words::Width;

/// The accesses of an instruction.
pub type Reaches = ArrayVec<Reach, 3>;

/// Moves PC past the instruction at `pc`.
pub fn step_past(insn: &Insn, pc: u16, core: &mut Core)
    ensures { core.new ≡ past_val insn.now pc core.old }
{
    put(core, 0, Val::Known(pc.wrapping_add(2 * insn.length())));
}

/// Lowers SP by 2.
pub fn lower(core: &mut Core)
    ensures { core.new ≡ lowered_val core.old }
{
    let sp = plus(get(core, 1), 65534);
    put(core, 1, sp);
}

/// By how much a register rises past its operand.
fn step(width: Width, reg: u8) -> u16
    ensures { result ≡ increment_of width reg }
{
    match width {
        Width::Byte if reg != 1 => 1,
        Width::Byte | Width::Word => 2,
    }
}

/// Does the operand's increment.
pub fn increment(width: Width, operand: Operand, core: &mut Core)
    ensures { core.new ≡ stepped_val width operand core.old }
{
    if let Operand::Increment(reg) = operand {
        let raised = plus(get(core, reg), step(width, reg));
        put(core, reg, raised);
    }
}

/// The operand's address, where it stands in memory; its extension word stands at `ext`.
fn place(operand: Operand, core: &Core, ext: u16) -> Option<Val>
    ensures { result ≡ place_val operand core.now ext }
{
    match operand {
        Operand::Indexed { reg, x } => Some(plus(seen(core, reg), x)),
        Operand::Symbolic(x) => Some(Val::Known(ext.wrapping_add(x))),
        Operand::Absolute(x) => Some(Val::Known(x)),
        Operand::Indirect(reg) | Operand::Increment(reg) => Some(seen(core, reg)),
        Operand::Reg(_) | Operand::Const(_) | Operand::Imm(_) => None,
    }
}

/// MOV does not read its destination.
pub fn reads_destination(op: TwoOp) -> bool
    ensures { result ≡ reads_dst op }
{
    op != TwoOp::Mov
}

/// CMP and BIT do not write.
pub fn writes_destination(op: TwoOp) -> bool
    ensures { result ≡ writes_dst op }
{
    !matches!(op, TwoOp::Cmp | TwoOp::Bit)
}

/// Adds an access, if it is wanted and has an address.
fn add(reaches: &mut Reaches, wanted: bool, kind: Kind, width: Width, addr: Option<Val>)
    requires { array_vec_len reaches.old < 3 }
    ensures items { reaches.new.items ≡ reaches.old.items ++ reach_if wanted kind width addr }
    ensures length { array_vec_len reaches.new ≤ array_vec_len reaches.old + 1 }
{
    if let Some(addr) = addr
        && wanted
    {
        reaches.push(Reach { kind, addr, width });
    }
}

/// What an instruction of format I reaches, whose operands have these addresses.
fn reaches_two(op: TwoOp, width: Width, source: Option<Val>, destination: Option<Val>) -> Reaches
    ensures { result.items ≡ reach_if true Kind.Read width source ++ reach_if (reads_dst op) Kind.Read width destination
        ++ reach_if (writes_dst op) Kind.Write width destination }
{
    let reads = reads_destination(op);
    let writes = writes_destination(op);
    let mut reaches = Reaches::new();
    add(&mut reaches, true, Kind::Read, width, source);
    add(&mut reaches, reads, Kind::Read, width, destination);
    add(&mut reaches, writes, Kind::Write, width, destination);
    reaches
}

/// Where the first extension word stands.
fn extension(pc: u16) -> u16
    ensures { result ≡ add16 pc 2 }
{
    pc.wrapping_add(2)
}

/// Where the destination's extension word stands, behind the source's.
fn second(ext: u16, src: Operand) -> u16
    ensures { result ≡ add16 ext (2 * words_of src) }
{
    ext.wrapping_add(2 * src.words())
}

/// Adds what an instruction of format II writes.
fn add_write(reaches: &mut Reaches, op: OneOp, width: Width, operand: Option<Val>, sp: Val)
    requires { array_vec_len reaches.old < 3 }
    ensures { reaches.new.items ≡ reaches.old.items ++ one_reach op width operand sp }
{
    match op {
        OneOp::Push => add(reaches, true, Kind::Write, width, Some(sp)),
        OneOp::Call => add(reaches, true, Kind::Write, Width::Word, Some(sp)),
        OneOp::Rrc | OneOp::Swpb | OneOp::Rra | OneOp::Sxt => {
            add(reaches, true, Kind::Write, width, operand);
        }
    }
}

/// What an instruction of format II reaches, whose operand has this address, with SP lowered.
fn reaches_one(op: OneOp, width: Width, operand: Option<Val>, sp: Val) -> Reaches
    ensures { result.items ≡ reach_if true Kind.Read width operand ++ one_reach op width operand sp }
{
    let mut reaches = Reaches::new();
    add(&mut reaches, true, Kind::Read, width, operand);
    add_write(&mut reaches, op, width, operand, sp);
    reaches
}

/// What the instruction at `pc` reaches, in order.
#[tactic(auto, unfolding(flow_rule::specs::Does::plan_val))]
pub fn reaches(insn: &Insn, pc: u16, core: &Core) -> Reaches
    ensures { result.items ≡ plan_val insn.now pc core.now }
{
    let mut after = *core;
    step_past(insn, pc, &mut after);
    let ext = extension(pc);
    match *insn {
        Insn::Two {
            op,
            width,
            src,
            dst,
        } => {
            let source = place(src, &after, ext);
            increment(width, src, &mut after);
            let destination = place(dst, &after, second(ext, src));
            reaches_two(op, width, source, destination)
        }
        Insn::One { op, width, arg } => {
            let operand = place(arg, &after, ext);
            increment(width, arg, &mut after);
            lower(&mut after);
            reaches_one(op, width, operand, get(&after, 1))
        }
        Insn::Jump { .. } | Insn::Reti | Insn::Unit(_) => Reaches::new(),
    }
}
