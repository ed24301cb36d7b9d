//! Which accesses an instruction makes.

ghost use Rattle.std.specs.Prelude.{◌≡◌, IsTrue, not, ◌+◌, ◌*◌, ◌<◌, ◌≤◌, ◌++◌, [], true};
ghost use Rattle.std.specs.List.{list_all};
ghost use Rattle.arrayvec.specs.ArrayVec.{array_vec_len};
ghost use Rattle.sm_words.specs.Words.{add16, reg};
ghost use Rattle.insn_decode.specs.Code.{words_of};
ghost use Rattle.pc_access.specs.Rights.{misaligned};
ghost use Rattle.pc_access.specs.declared.Kind.TheVariants.{Read, Write};
ghost use Rattle.cpu_step.specs.Through.{AreAligned};
ghost use Rattle.cpu_step.specs.Plan.{past, lowered, access_if, reads_dst, writes_dst, one_writes, plan};

use crate::operand::{increment, place};
use arrayvec::ArrayVec;
use insn_decode::{Insn, OneOp, Operand, TwoOp};
use pc_access::{Access, Kind, is_misaligned};
use sm_words::{Core, PC, SP, Width};

/// Moves PC past the instruction.
#[inline(always)]
pub fn step_past(insn: &Insn, core: &mut Core)
    ensures { core.new ≡ past insn.now core.old }
{
    let next = core.pc().wrapping_add(2 * insn.length());
    core.put(PC, next);
}

/// Lowers SP by 2.
pub fn lower(core: &mut Core)
    ensures { core.new ≡ lowered core.old }
{
    let lowered = core.sp().wrapping_sub(2);
    core.put(SP, lowered);
}

/// MOV does not read its destination.
pub fn reads_destination(op: TwoOp) -> bool
    ensures { result ≡ reads_dst op }
{
    op != TwoOp::Mov
}

/// CMP and BIT do not write.
pub fn writes_destination(op: TwoOp) -> bool
    ensures { result ≡ writes_dst op }
{
    !matches!(op, TwoOp::Cmp | TwoOp::Bit)
}

/// Where the first extension word stands.
pub fn extension(core: &Core) -> u16
    ensures { result ≡ add16 (reg core.now PC) 2 }
{
    core.pc().wrapping_add(2)
}

/// Where the destination's extension word stands, behind the source's.
pub fn second_extension(extension: u16, src: Operand) -> u16
    ensures { result ≡ add16 extension (2 * words_of src) }
{
    extension.wrapping_add(2 * src.words())
}

/// Adds an access, if it is wanted and has an address.
fn add_access(
    accesses: &mut ArrayVec<Access, 3>,
    wanted: bool,
    kind: Kind,
    width: Width,
    addr: Option<u16>,
)
    requires { array_vec_len accesses.old < 3 }
    ensures items { accesses.new.items ≡ accesses.old.items ++ access_if wanted kind width addr }
    ensures length { array_vec_len accesses.new ≤ array_vec_len accesses.old + 1 }
{
    if let Some(addr) = addr
        && wanted
    {
        accesses.push(Access { kind, addr, width });
    }
}

/// Where an instruction of format I finds its operands in memory: its source, and then, past the increment, its
/// destination.
#[inline(always)]
pub fn places(
    insn: &Insn,
    op: TwoOp,
    width: Width,
    src: Operand,
    dst: Operand,
    core: &Core,
) -> (Option<u16>, Option<u16>)
    requires form { insn.now ≡ Insn.Two op width src dst }
    ensures planned { plan insn.now core.now ≡ access_if true Read width result.0
        ++ access_if (reads_dst op) Read width result.1 ++ access_if (writes_dst op) Write width result.1 }
{
    let mut after = *core;
    step_past(insn, &mut after);
    let extension = extension(core);
    let source = place(src, &after, extension);
    increment(width, src, &mut after);
    let destination = place(dst, &after, second_extension(extension, src));
    (source, destination)
}

/// Adds the accesses of an instruction of format I to none, whose operands stand at these places: the source is read,
/// the destination is read and written.
#[inline(always)]
fn add_two(
    accesses: &mut ArrayVec<Access, 3>,
    op: TwoOp,
    width: Width,
    source: Option<u16>,
    destination: Option<u16>,
)
    requires none { accesses.old.items ≡ [] }
    ensures { accesses.new.items ≡ access_if true Read width source
        ++ access_if (reads_dst op) Read width destination ++ access_if (writes_dst op) Write width destination }
{
    add_access(accesses, true, Kind::Read, width, source);
    add_access(
        accesses,
        reads_destination(op),
        Kind::Read,
        width,
        destination,
    );
    add_access(
        accesses,
        writes_destination(op),
        Kind::Write,
        width,
        destination,
    );
}

/// Adds what an instruction of format II writes: PUSH and CALL at the lowered SP, the others where they read.
fn add_write(
    accesses: &mut ArrayVec<Access, 3>,
    op: OneOp,
    width: Width,
    operand: Option<u16>,
    sp: u16,
)
    requires { array_vec_len accesses.old < 3 }
    ensures { accesses.new.items ≡ accesses.old.items ++ one_writes op width operand sp }
{
    match op {
        OneOp::Push => add_access(accesses, true, Kind::Write, width, Some(sp)),
        OneOp::Call => add_access(accesses, true, Kind::Write, Width::Word, Some(sp)),
        OneOp::Rrc | OneOp::Swpb | OneOp::Rra | OneOp::Sxt => {
            add_access(accesses, true, Kind::Write, width, operand);
        }
    }
}

/// Adds the accesses of an instruction of format II to none: the operand is read, its increment is done, and the
/// result is written.
#[inline(always)]
fn plan_one(
    insn: &Insn,
    op: OneOp,
    width: Width,
    arg: Operand,
    core: &Core,
    accesses: &mut ArrayVec<Access, 3>,
)
    requires form { insn.now ≡ Insn.One op width arg }
    requires none { accesses.old.items ≡ [] }
    ensures { accesses.new.items ≡ plan insn.now core.now }
{
    let mut after = *core;
    step_past(insn, &mut after);
    let operand = place(arg, &after, extension(core));
    increment(width, arg, &mut after);
    lower(&mut after);
    add_access(accesses, true, Kind::Read, width, operand);
    add_write(accesses, op, width, operand, after.sp());
}

/// Adds the accesses of RETI to none: it reads SR at SP and PC behind it.
#[tactic(auto, unfolding(crate::specs::Plan::plan))]
fn plan_reti(core: &Core, accesses: &mut ArrayVec<Access, 3>)
    requires none { accesses.old.items ≡ [] }
    ensures { accesses.new.items ≡ plan Insn.Reti core.now }
{
    let sp = core.sp();
    add_access(accesses, true, Kind::Read, Width::Word, Some(sp));
    add_access(
        accesses,
        true,
        Kind::Read,
        Width::Word,
        Some(sp.wrapping_add(2)),
    );
}

/// Adds the accesses of an instruction whose address is in PC to none, in their order. They follow from the registers
/// and the extension words alone. A unit instruction's follow from more than that, and are not given here.
// (inlined, with its parts: the list is then made where it is looked at, and not copied)
#[inline(always)]
#[tactic(auto, unfolding(crate::specs::Plan::plan))]
pub fn add_plan(insn: &Insn, core: &Core, accesses: &mut ArrayVec<Access, 3>)
    requires none { accesses.old.items ≡ [] }
    ensures exact { accesses.new.items ≡ plan insn.now core.now }
{
    match *insn {
        Insn::Two {
            op,
            width,
            src,
            dst,
        } => {
            let (source, destination) = places(insn, op, width, src, dst, core);
            add_two(accesses, op, width, source, destination);
        }
        Insn::One { op, width, arg } => plan_one(insn, op, width, arg, core, accesses),
        Insn::Reti => plan_reti(core, accesses),
        Insn::Jump { .. } | Insn::Unit(_) => {}
    }
}

/// Whether each word access among these is at an even address, as `execute` requires.
#[tactic(auto, using(crate::proofs::ThroughLemmas::aligned_from))]
pub fn are_aligned(accesses: &[Access]) -> bool
    ensures exact { result ≡ list_all (λ x. not (misaligned x.width x.addr)) accesses.now }
    ensures aligned { IsTrue result → AreAligned accesses.now }
{
    accesses
        .iter()
        .all(|access| !is_misaligned(access.width, access.addr))
}

/// The list of these accesses.
pub fn plan(insn: &Insn, core: &Core) -> ArrayVec<Access, 3>
    ensures exact { result.items ≡ plan insn.now core.now }
{
    let mut accesses = ArrayVec::new();
    add_plan(insn, core, &mut accesses);
    accesses
}
