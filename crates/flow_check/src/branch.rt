//! Secret branches whose arms meet again, at a join (a merge point), in equal times.

ghost use Rattle.std.specs.Prelude.{◌≡◌, ◌==◌, [], true, find};
ghost use Rattle.std.specs.Option.{option_copied};
ghost use Rattle.sm_words.specs.Words.{kept, add16};
ghost use Rattle.arm_balance.specs.Met.{met};
ghost use Rattle.flow_rule.specs.Values.{val, blurred_flags};
ghost use Rattle.flow_rule.specs.Does.{past_val, does_val};
ghost use Rattle.flow_rule.specs.Arms.{arm_start};
ghost use Rattle.flow_check.specs.internal.Violations.{noted};
ghost use Rattle.flow_check.specs.internal.Points.{point_at};
ghost use Rattle.flow_check.specs.internal.Programs.{flow_at};
ghost use Rattle.flow_check.specs.internal.Summaries.{clobbered};
ghost use Rattle.flow_check.specs.internal.Arms.{site_by, told_violations, told_state};

use crate::accesses::step_past;
use crate::arm::{Tally, walk};
use crate::domain::{get, is_secret};
use crate::point::Point;
use crate::program::{Flags, Program};
use crate::relevant::Relevance;
use crate::transfer::does;
use crate::violation::{Violation, note, note_if};
use arm_balance::{Arm, met, target};
use flow_rule::{AbstractState, Reason, Val};
use insn_decode::Insn;

/// A branch with its certificate.
#[derive(Clone, Copy)]
pub struct BranchSite {
    pub insn: Insn,
    pub target: u16,
    pub arm: Arm,
}

/// Whether two jumps are the same.
fn is_same_jump(one: &Insn, other: &Insn) -> bool
    ensures { result ≡ true → one.now ≡ other.now }
{
    match (*one, *other) {
        (
            Insn::Jump { condition, offset },
            Insn::Jump {
                condition: c,
                offset: o,
            },
        ) => condition == c && offset == o,
        _ => false,
    }
}

/// Whether two certificates are the same.
fn is_same_arm(one: &Arm, other: &Arm) -> bool
    ensures { result ≡ true → one.now ≡ other.now }
{
    one.branch == other.branch && one.join == other.join && one.cycles == other.cycles
}

/// Whether two sites are the same.
pub fn is_same(one: &BranchSite, other: &BranchSite) -> bool
    ensures { result ≡ true → one.now ≡ other.now }
{
    is_same_jump(&one.insn, &other.insn)
        && one.target == other.target
        && is_same_arm(&one.arm, &other.arm)
}

/// The certificate of a branch.
fn find_arm(arms: &[Arm], branch: u16) -> Option<&Arm>
    ensures { option_copied result ≡ find (λ arm. arm.branch == branch) arms.now }
{
    arms.iter().find(|arm| arm.branch == branch)
}

/// The site at `pc`, where its instruction is a secret branch with a certificate.
fn site_at(insn: Option<Insn>, arms: &[Arm], pc: u16, flags: Val) -> Option<BranchSite>
    ensures { result ≡ site_by insn arms.now pc flags }
{
    let Some(insn) = insn else {
        return None;
    };
    match insn {
        Insn::Jump { condition, offset } => {
            if condition.is_always() || !is_secret(flags) {
                return None;
            }
            match find_arm(arms, pc) {
                Some(arm) => Some(BranchSite {
                    insn,
                    target: target(pc, offset),
                    arm: *arm,
                }),
                None => None,
            }
        }
        Insn::Two { .. } | Insn::One { .. } | Insn::Reti | Insn::Unit(_) => None,
    }
}

/// What PC keeps of an address.
fn even(addr: u16) -> u16
    ensures { result ≡ kept 0 addr }
{
    addr - addr % 2
}

/// Where the arm begins that the jump does not take.
fn first_arm(insn: &Insn, from: &Point) -> Point
    ensures { point_at result ≡ arm_start insn.now (add16 from.now.addr 2) (point_at from.now)
        (past_val insn.now from.now.addr from.now.state.core) }
{
    let mut point = *from;
    step_past(insn, from.addr, &mut point.state.core);
    point.addr = even(from.addr.wrapping_add(2));
    point
}

/// Where the arm begins that the jump takes.
fn second_arm(insn: &Insn, target: u16, from: &Point) -> Point
    ensures { point_at result ≡ arm_start insn.now target (point_at from.now)
        (does_val blurred_flags insn.now from.now.addr from.now.state.core []).core }
{
    let mut point = *from;
    let _ = does(Flags::Blurred, insn, from.addr, &mut point.state.core, &[]);
    point.addr = even(target);
    point
}

/// Takes what the walk along an arm told: what is wrong with it, and Secret where it writes.
fn take_arm(
    walked: &Result<Tally, u16>,
    branch: u16,
    time: u16,
    number: u16,
    least: &mut Option<Violation>,
    told: &mut AbstractState,
)
    ensures least { least.new ≡ noted (told_violations branch time number walked.now) least.old }
    ensures told { told.new ≡ told_state told.old walked.now }
{
    match *walked {
        Ok(tally) => {
            note_if(
                tally.cycles != u32::from(time),
                least,
                branch,
                Reason::ArmTime,
                number,
            );
            *told = tally.state;
        }
        Err(addr) => note(least, branch, Reason::Arm, addr),
    }
}

/// Walks both arms of a branch from its state: the least of their violations and of what was there, and Secret where
/// they write in `told`.
pub fn walk_arms(
    program: &Program<'_>,
    site: &BranchSite,
    from: &Point,
    least: &mut Option<Violation>,
    told: &mut AbstractState,
    relevance: &mut Relevance,
)
    requires blurred { program.now.flags ≡ Flags.Blurred }
    ensures least { least.new ≡ noted (flow_at program.now site.now (point_at from.now)).violations least.old }
    ensures told { told.new ≡ clobbered program.now site.now (point_at from.now) told.old }
{
    let pc = from.addr;
    let BranchSite { insn, target, arm } = *site;
    let apart = !program.module.text.holds(usize::from(arm.join));
    note_if(apart, least, pc, Reason::Arm, arm.join);
    let start = first_arm(&insn, from);
    let first = walk(program, arm.join, &start, told, relevance);
    take_arm(&first, pc, arm.cycles, 0, least, told);
    let start = second_arm(&insn, target, from);
    let second = walk(program, arm.join, &start, told, relevance);
    take_arm(&second, pc, arm.cycles, 1, least, told);
}

/// The site of a program point that is a secret branch with a certificate.
pub fn site_of(program: &Program<'_>, pc: u16, state: &AbstractState) -> Option<BranchSite>
    ensures { result ≡ site_by (met program.now.module.now.text program.now.text.now pc) program.now.arms.now pc
        (val state.now.core 2) }
{
    let flags = get(&state.core, 2);
    site_at(
        met(program.module.text, program.text, pc),
        program.arms,
        pc,
        flags,
    )
}
