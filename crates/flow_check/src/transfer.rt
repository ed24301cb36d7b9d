//! The transfer functions: what an instruction does to an abstract state.

ghost use Rattle.std.specs.Prelude.{◌≡◌, ◌==◌, ◌<◌, [], ◌∷◌, true, if◌then◌else◌, Some, None, slice_set};
ghost use Rattle.sm_words.specs.Sums.{low, one_if};
ghost use Rattle.sm_words.specs.Words.{nth};
ghost use Rattle.cpu_step.specs.Plan.{reads_dst, writes_dst};
ghost use Rattle.cpu_step.specs.Effect.{in_memory, value_of, two_result, one_result};
ghost use Rattle.flow_rule.specs.Values.{over, over_one};
ghost use Rattle.flow_rule.specs.Does.{reads_carry, sets_flags, one_reads_carry, one_sets_flags};
ghost use Rattle.flow_rule.specs.Does.{read_if, told_of, two_val, one_val, flags_of};
ghost use Rattle.flow_rule.specs.Does.{set_flags_by, given_val, after_val};
ghost use Rattle.flow_rule.specs.Does.{into_register_val, written_val, clears, clears_flags};
ghost use Rattle.flow_rule.specs.Does.{cleared_if, carry_val, one_done_val, does_val};
ghost use Rattle.flow_check.specs.internal.Carries.{IsCarry};
ghost use Rattle.flow_check.specs.internal.Programs.{domain_of};

use crate::accesses::{increment, lower, reads_destination, step_past, writes_destination};
use crate::domain::{Core, blurred_all, carry, cleared, get, narrow, put, put_flags, seen};
use crate::program::Flags;
use arm_balance::target;
use arrayvec::ArrayVec;
use cpu_step::{one_result, two_result};
use flow_rule::{Told, Val};
use insn_decode::{Insn, OneOp, Operand, TwoOp};
use sm_words::{Width, status};

/// What is stored, if something is.
pub type Stored = ArrayVec<Val, 1>;

/// One value stored.
fn one(value: Val) -> Stored
    ensures { result.items ≡ value ∷ [] }
{
    let mut stored = Stored::new();
    stored.push(value);
    stored
}

/// The carry, as the flags' value has it.
fn carry_of(core: &Core) -> Val
    ensures exact { result ≡ carry_val core.now }
    ensures small { IsCarry result }
{
    carry(get(core, 2))
}

/// ADDC, SUBC and DADD read C.
pub fn reads_carry(op: TwoOp) -> bool
    ensures { result ≡ reads_carry op }
{
    matches!(op, TwoOp::Addc | TwoOp::Subc | TwoOp::Dadd)
}

/// MOV, BIC and BIS keep the flags.
pub fn sets_flags(op: TwoOp) -> bool
    ensures { result ≡ sets_flags op }
{
    !matches!(op, TwoOp::Mov | TwoOp::Bic | TwoOp::Bis)
}

/// RRC reads C.
pub fn one_reads_carry(op: OneOp) -> bool
    ensures { result ≡ one_reads_carry op }
{
    op == OneOp::Rrc
}

/// SWPB, PUSH and CALL keep the flags.
pub fn one_sets_flags(op: OneOp) -> bool
    ensures { result ≡ one_sets_flags op }
{
    matches!(op, OneOp::Rrc | OneOp::Rra | OneOp::Sxt)
}

/// A value that is read, or else 0.
fn read_if(read: bool, value: Val) -> Val
    ensures { result ≡ read_if read value }
{
    if read { value } else { Val::Known(0) }
}

/// C where it is read, or else 0.
fn carry_if(read: bool, carry: Val) -> Val
    requires { IsCarry carry }
    ensures exact { result ≡ read_if read carry }
    ensures small { IsCarry result }
{
    if read { carry } else { Val::Known(0) }
}

/// C as it is added.
fn is_one(carry: u16) -> bool
    requires { carry < 2 }
    ensures { one_if result ≡ carry }
{
    carry == 1
}

/// What format I gives, Known where all that it reads is.
fn two_value(op: TwoOp, width: Width, s: Val, d: Val, c: Val) -> Val
    requires { IsCarry c }
    ensures { result ≡ over (λ x y z. value_of (two_result op width x y z)) s d c }
{
    match (s, d, c) {
        (Val::Known(x), Val::Known(y), Val::Known(z)) => {
            let computed = two_result(op, width, x, y, is_one(z));
            Val::Known(computed.value())
        }
        _ => blurred_all(s, d, c),
    }
}

/// What format II gives, Known where all that it reads is.
fn one_value(op: OneOp, width: Width, a: Val, c: Val) -> Val
    requires { IsCarry c }
    ensures { result ≡ over (λ x y z. value_of (one_result op width x y)) a c (Val.Known 0) }
{
    match (a, c) {
        (Val::Known(x), Val::Known(y)) => {
            let computed = one_result(op, width, x, is_one(y));
            Val::Known(computed.value())
        }
        _ => blurred_all(a, c, Val::Known(0)),
    }
}

/// A value, with flags where they are set.
fn told(value: Val, sets: bool, flags: Val) -> Told
    ensures { result ≡ record { value = value; flags = if sets then Some flags else None } }
{
    Told {
        value,
        flags: sets.then_some(flags),
    }
}

/// The flags that format I sets.
fn two_flags(flags: Flags, op: TwoOp, width: Width, s: Val, d: Val, c: Val) -> Val
    requires { IsCarry c }
    ensures { result ≡ (domain_of flags).told (λ x y z. flags_of (two_result op width x y z)) s d c }
{
    match (flags, s, d, c) {
        (Flags::Followed, Val::Known(x), Val::Known(y), Val::Known(z)) => {
            let computed = two_result(op, width, x, y, is_one(z));
            Val::Known(computed.with_flags(0))
        }
        _ => blurred_all(s, d, c),
    }
}

/// The flags that format II sets.
fn one_flags(flags: Flags, op: OneOp, width: Width, a: Val, c: Val) -> Val
    requires { IsCarry c }
    ensures { result ≡ (domain_of flags).told (λ x y z. flags_of (one_result op width x y)) a c (Val.Known 0) }
{
    match (flags, a, c) {
        (Flags::Followed, Val::Known(x), Val::Known(y)) => {
            let computed = one_result(op, width, x, is_one(y));
            Val::Known(computed.with_flags(0))
        }
        _ => blurred_all(a, c, Val::Known(0)),
    }
}

/// Format I, but for a word MOV.
fn worked(flags: Flags, op: TwoOp, width: Width, s: Val, d: Val, c: Val) -> Told
    requires { IsCarry c }
    ensures { result ≡ told_of (domain_of flags) (sets_flags op) (two_result op width) s (read_if (reads_dst op) d)
        (read_if (reads_carry op) c) }
{
    let old = read_if(reads_destination(op), d);
    let carry = carry_if(reads_carry(op), c);
    let value = two_value(op, width, s, old, carry);
    let set = two_flags(flags, op, width, s, old, carry);
    told(value, sets_flags(op), set)
}

/// Format I: of the source, the destination and C.
fn two(flags: Flags, op: TwoOp, width: Width, s: Val, d: Val, c: Val) -> Told
    requires { IsCarry c }
    ensures { result ≡ two_val (domain_of flags) op width s d c }
{
    match (op, width) {
        (TwoOp::Mov, Width::Word) => Told {
            value: s,
            flags: None,
        },
        _ => worked(flags, op, width, s, d, c),
    }
}

/// Format II: of the operand and C.
fn single(flags: Flags, op: OneOp, width: Width, a: Val, c: Val) -> Told
    requires { IsCarry c }
    ensures { result ≡ one_val (domain_of flags) op width a c }
{
    let carry = carry_if(one_reads_carry(op), c);
    let value = one_value(op, width, a, carry);
    let set = one_flags(flags, op, width, a, carry);
    told(value, one_sets_flags(op), set)
}

/// The low byte, or the word.
fn low(width: Width, value: u16) -> u16
    ensures { result ≡ low width value }
{
    match width {
        Width::Byte => value % 256,
        Width::Word => value,
    }
}

/// The first value read.
pub fn first(values: &[Val]) -> Val
    ensures { result ≡ nth 0 values.now Val.Secret }
{
    match values.first() {
        Some(value) => *value,
        None => Val::Secret,
    }
}

/// What an operand gives: a register, a number, or the first value read.
fn given(operand: Operand, width: Width, core: &Core, values: &[Val]) -> Val
    ensures { result ≡ given_val operand width core.now values.now }
{
    match operand {
        Operand::Reg(reg) => narrow(width, seen(core, reg)),
        Operand::Const(c) => Val::Known(low(width, c)),
        Operand::Imm(x) => Val::Known(low(width, x)),
        _ => narrow(width, first(values)),
    }
}

/// Whether the operand stands in memory.
fn is_in_memory(operand: Operand) -> bool
    ensures { result ≡ in_memory operand }
{
    !matches!(
        operand,
        Operand::Reg(_) | Operand::Const(_) | Operand::Imm(_)
    )
}

/// The values that are left once an operand took its own.
fn after_given(operand: Operand, values: &[Val]) -> &[Val]
    ensures { result.now ≡ after_val operand values.now }
{
    if is_in_memory(operand) {
        values.get(1..).unwrap_or(&[])
    } else {
        values
    }
}

/// Sets the flags, if they are set.
fn set_flags(flags: Flags, set: Option<Val>, core: &mut Core)
    ensures { core.new ≡ set_flags_by (domain_of flags) set core.old }
{
    if let Some(value) = set {
        put_flags(flags, core, value);
    }
}

/// Puts a result into a register.
fn put_result(flags: Flags, reg: u8, told: &Told, core: &mut Core)
    ensures { core.new ≡ into_register_val (domain_of flags) (reg == 2) reg told.now core.old }
{
    if reg == 2 {
        put_flags(flags, core, told.value);
    } else {
        set_flags(flags, told.flags, core);
        put(core, reg, told.value);
    }
}

/// Writes a result into its operand.
fn write_result(flags: Flags, operand: Operand, told: &Told, core: &mut Core) -> Stored
    ensures core { core.new ≡ (written_val (domain_of flags) true operand told.now core.old).core }
    ensures stored { result.items ≡ (written_val (domain_of flags) true operand told.now core.old).stored }
{
    if let Operand::Reg(reg) = operand {
        put_result(flags, reg, told, core);
        Stored::new()
    } else {
        set_flags(flags, told.flags, core);
        one(told.value)
    }
}

/// Writes a result into its operand, or sets the flags alone.
fn finish(flags: Flags, written: bool, operand: Operand, told: &Told, core: &mut Core) -> Stored
    ensures core { core.new ≡ (written_val (domain_of flags) written operand told.now core.old).core }
    ensures stored { result.items ≡ (written_val (domain_of flags) written operand told.now core.old).stored }
{
    if written {
        write_result(flags, operand, told, core)
    } else {
        set_flags(flags, told.flags, core);
        Stored::new()
    }
}

/// Whether a value has the bits of all four flags.
fn clears(value: Val) -> bool
    ensures { result ≡ clears value }
{
    match value {
        Val::Known(v) => status::has_all_flags(v),
        _ => false,
    }
}

/// Whether the instruction makes the four flags 0.
fn clears_flags(op: TwoOp, width: Width, dst: Operand, source: Val) -> bool
    ensures { result ≡ clears_flags op width dst source }
{
    match (op, width, dst) {
        (TwoOp::Bic, Width::Word, Operand::Reg(reg)) => reg == 2 && clears(source),
        _ => false,
    }
}

/// What the flags are where they become 0.
fn clear_if(flags: Flags, clears: bool, core: &mut Core)
    ensures { core.new ≡ (if clears then slice_set core.old 2 (domain_of flags).cleared else core.old) }
{
    if clears {
        core[2] = cleared(flags);
    }
}

/// What is known of a word that is pushed.
fn copied(value: Val) -> Val
    ensures { result ≡ over_one (λ v. v) value }
{
    match value {
        Val::Away => Val::Public,
        _ => value,
    }
}

/// Writes what format I gave, where it makes the flags 0 or not.
fn finish_two(
    flags: Flags,
    op: TwoOp,
    clears: bool,
    dst: Operand,
    told: &Told,
    core: &mut Core,
) -> Stored
    ensures core { core.new ≡ (cleared_if (domain_of flags) clears
        (written_val (domain_of flags) (writes_dst op) dst told.now core.old)).core }
    ensures stored { result.items ≡ (written_val (domain_of flags) (writes_dst op) dst told.now core.old).stored }
{
    let stored = finish(flags, writes_destination(op), dst, told, core);
    clear_if(flags, clears, core);
    stored
}

/// Format II, where the operand is read, its increment is done and its result is told.
fn finish_one(
    flags: Flags,
    op: OneOp,
    arg: Operand,
    operand: Val,
    told: &Told,
    core: &mut Core,
) -> Stored
    ensures core { core.new ≡ (one_done_val (domain_of flags) op arg operand told.now core.old).core }
    ensures stored { result.items ≡ (one_done_val (domain_of flags) op arg operand told.now core.old).stored }
{
    match op {
        OneOp::Push => {
            lower(core);
            one(copied(operand))
        }
        OneOp::Call => {
            let next = get(core, 0);
            lower(core);
            put(core, 0, operand);
            one(next)
        }
        OneOp::Rrc | OneOp::Swpb | OneOp::Rra | OneOp::Sxt => {
            write_result(flags, arg, told, core)
        }
    }
}

/// The instruction at `pc`, once its reads gave these values; a jump is taken.
#[tactic(auto, unfolding(flow_rule::specs::Does::does_val))]
pub fn does(flags: Flags, insn: &Insn, pc: u16, core: &mut Core, values: &[Val]) -> Stored
    ensures core { core.new ≡ (does_val (domain_of flags) insn.now pc core.old values.now).core }
    ensures stored { result.items ≡ (does_val (domain_of flags) insn.now pc core.old values.now).stored }
{
    let carry = carry_of(core);
    step_past(insn, pc, core);
    match *insn {
        Insn::Two {
            op,
            width,
            src,
            dst,
        } => {
            let source = given(src, width, core, values);
            increment(width, src, core);
            let old = given(dst, width, core, after_given(src, values));
            let told = two(flags, op, width, source, old, carry);
            let clears = clears_flags(op, width, dst, source);
            finish_two(flags, op, clears, dst, &told, core)
        }
        Insn::One { op, width, arg } => {
            let operand = given(arg, width, core, values);
            increment(width, arg, core);
            let told = single(flags, op, width, operand, carry);
            finish_one(flags, op, arg, operand, &told, core)
        }
        Insn::Jump { offset, .. } => {
            put(core, 0, Val::Known(target(pc, offset)));
            Stored::new()
        }
        Insn::Reti | Insn::Unit(_) => Stored::new(),
    }
}
