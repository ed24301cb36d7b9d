//! The next instruction of a module by itself, where it may do it.

ghost use Rattle.std.specs.Prelude.{◌≡◌, ◌≤◌, ◌<◌, ◌+◌, ◌*◌, ◌&&◌, ℕ, List, Bool, true, if◌then◌else◌, IfSome, Some, None};
ghost use Rattle.sm_words.specs.Words.{reg, word_at};
ghost use Rattle.sm_words.specs.declared.registers.TheConstants.{PC};
ghost use Rattle.insn_decode.specs.Code.{IsDecoded, insn_of};
ghost use Rattle.insn_decode.specs.declared.insn.Insn.TheVariants.{Unit as UnitOp};
ghost use Rattle.pc_access.specs.declared.Kind.TheVariants.{Read, Write};
ghost use Rattle.attest.specs.Units.{each_byte, in_range, unit_plan, Tag};
ghost use Rattle.cpu_step.specs.Fetched.{later_word, insn_at, word_in, insn_from, insn_in};
ghost use Rattle.cpu_step.specs.Asked.{asks};
ghost use Rattle.cpu_step.specs.Lone.{lone_byte, lone_who, is_alone, all_inside, may_do};
ghost use Rattle.cpu_step.specs.Lone.{next_insn, Lone};
ghost use Rattle.lone_run.specs.internal.Jobs.{lone_call};

use crate::job::{Job, is_inside, word};
use attest::in_range;
use cpu_step::{Access, Kind, plan};
use insn_decode::{Insn, UnitName, decode};
use sm_words::{Core, PC, Width};

/// Whether word `k` of an instruction of `n` words at `pc`, if there is one, is in the text.
fn has_word(job: &Job<'_>, pc: u16, n: u16, k: u16) -> bool
    ensures { result ≡ word_in (lone_call job.now).owner.text pc n k }
{
    k >= n || job.owner.text.holds(usize::from(pc) + 2 * usize::from(k))
}

/// Word `k` of an instruction of `n` words at `pc`, and 0 past its last.
fn later(job: &Job<'_>, ram: &[u8], pc: u16, n: u16, k: u16) -> u16
    ensures { result ≡ later_word (lone_byte (lone_call job.now) ram.now) pc n k }
{
    if k < n {
        word(job, ram, usize::from(pc) + 2 * usize::from(k))
    } else {
        0
    }
}

/// The instruction of `n` words at `pc`.
fn insn_at(job: &Job<'_>, ram: &[u8], pc: u16, n: u16) -> Option<Insn>
    ensures exact { result ≡ insn_at (lone_byte (lone_call job.now) ram.now) pc n }
    ensures decoded { IfSome result (λ insn. IsDecoded insn) }
{
    decode(
        word(job, ram, usize::from(pc)),
        later(job, ram, pc, n, 1),
        later(job, ram, pc, n, 2),
    )
}

/// Whether the module may do this instruction by itself.
fn is_alone(insn: &Insn) -> bool
    ensures { result ≡ is_alone insn.now }
{
    match *insn {
        Insn::Reti => false,
        Insn::Unit(name) => is_unit_alone(name),
        Insn::Two { .. } | Insn::One { .. } | Insn::Jump { .. } => true,
    }
}

/// Whether it may do this unit instruction: all but protect, attest and id of address.
fn is_unit_alone(name: UnitName) -> bool
    ensures { result ≡ is_alone (UnitOp name) }
{
    !matches!(name, UnitName::Protect | UnitName::Attest | UnitName::IdOf)
}

/// Whether each of these accesses is aligned and stays in the two sections.
fn all_inside(job: &Job<'_>, accesses: &[Access]) -> bool
    ensures { result ≡ all_inside (lone_call job.now) accesses.now }
{
    for access in accesses {
        if !is_inside(job, *access) {
            return false;
        }
    }
    true
}

/// Whether so many bytes from `start` on can be accessed.
#[tactic(auto, using(crate::proofs::Ranges::bytes_next, crate::proofs::Ranges::bytes_other, crate::proofs::Ranges::bytes_end))]
fn has_bytes(job: &Job<'_>, kind: Kind, start: u16, count: u16) -> bool
    requires { start + count ≤ 65536 }
    ensures { result ≡ all_inside (lone_call job.now) (each_byte kind start count) }
{
    for k in 0..count {
        let access = Access {
            kind,
            addr: start + k,
            width: Width::Byte,
        };
        if !is_inside(job, access) {
            return false;
        }
    }
    true
}

/// Whether a tag is made: of the message from R12, below R13, for the 16 bytes from R14 on.
pub fn has_ranges(core: &Core) -> bool
    ensures value { result ≡ (in_range (reg core.now 12) (reg core.now 13) && in_range (reg core.now 14)
        (reg core.now 14 + 16)) }
    ensures order { result ≡ true → (reg core.now 12 ≤ reg core.now 13) × (reg core.now 14 + 16 ≤ 65536) }
{
    in_range(u32::from(core.get(12)), u32::from(core.get(13)))
        && in_range(u32::from(core.get(14)), u32::from(core.get(14)) + 16)
}

fn both(first: bool, second: bool) -> bool
    ensures { result ≡ (first && second) }
{
    first && second
}

/// Whether the accesses of a tag stay in the two sections.
#[tactic(auto, using(crate::proofs::Ranges::tag_ranges, crate::proofs::Ranges::tag_none), unfolding(attest::specs::Units::unit_plan))]
fn has_tag(job: &Job<'_>, core: &Core) -> bool
    ensures { result ≡ all_inside (lone_call job.now) (unit_plan (lone_who (lone_call job.now)) Tag core.now) }
{
    if !has_ranges(core) {
        return true;
    }
    let start = core.get(12);
    let reads = has_bytes(job, Kind::Read, start, core.get(13) - start);
    let writes = has_bytes(job, Kind::Write, core.get(14), 16);
    both(reads, writes)
}

/// Whether the accesses of a unit instruction that the module may do stay in the two sections.
#[tactic(auto, unfolding(attest::specs::Units::unit_plan))]
fn stays_in_unit(job: &Job<'_>, name: UnitName, core: &Core) -> bool
    requires { is_alone (UnitOp name) ≡ true }
    ensures { result ≡ all_inside (lone_call job.now) (unit_plan (lone_who (lone_call job.now)) name core.now) }
{
    match name {
        UnitName::Tag => has_tag(job, core),
        UnitName::Unprotect | UnitName::OwnId | UnitName::CallerId => true,
        UnitName::Protect | UnitName::Attest | UnitName::IdOf => unreachable!(),
    }
}

/// Whether the accesses of an instruction that the module may do stay in the two sections.
#[tactic(auto, unfolding(cpu_step::specs::Asked::asks))]
fn stays(job: &Job<'_>, insn: &Insn, core: &Core) -> bool
    requires { is_alone insn.now ≡ true }
    ensures { result ≡ all_inside (lone_call job.now) (asks (lone_who (lone_call job.now)) insn.now core.now) }
{
    match *insn {
        Insn::Unit(name) => stays_in_unit(job, name, core),
        Insn::Two { .. } | Insn::One { .. } | Insn::Jump { .. } | Insn::Reti => {
            all_inside(job, plan(insn, core).as_slice())
        }
    }
}

/// An instruction that the module may do, and else none.
fn may_do(job: &Job<'_>, core: &Core, insn: Option<Insn>) -> Option<Insn>
    requires { IfSome insn (λ insn. IsDecoded insn) }
    ensures exact { (ram : List ℕ) (rest : ℕ) (closing : Bool) →
        result ≡ may_do (lone_call job.now)
        (record { core = core.now; data_bytes = ram; rest = rest; closing = closing }) insn }
    ensures decoded { IfSome result (λ insn. IsDecoded insn) }
    ensures alone { IfSome result (λ insn. is_alone insn ≡ true) }
    ensures inside { IfSome result (λ insn. all_inside (lone_call job.now)
        (asks (lone_who (lone_call job.now)) insn core.now) ≡ true) }
{
    match insn {
        Some(insn) => {
            if is_alone(&insn) && stays(job, &insn, core) {
                Some(insn)
            } else {
                None
            }
        }
        None => None,
    }
}

/// The instruction of `n` words at `pc`, where all of it is in the text.
fn whole(job: &Job<'_>, ram: &[u8], pc: u16, n: u16) -> Option<Insn>
    ensures exact { result ≡ (if word_in (lone_call job.now).owner.text pc n 1 && word_in (lone_call job.now).owner.text pc n 2
        then insn_at (lone_byte (lone_call job.now) ram.now) pc n else None) }
    ensures decoded { IfSome result (λ insn. IsDecoded insn) }
{
    let home = both(has_word(job, pc, n, 1), has_word(job, pc, n, 2));
    if home { insn_at(job, ram, pc, n) } else { None }
}

/// The instruction at `pc`, where its first word tells its length.
fn insn_from(first: Option<Insn>, job: &Job<'_>, ram: &[u8], pc: u16) -> Option<Insn>
    ensures exact { result ≡ insn_from first (lone_byte (lone_call job.now) ram.now) (lone_call job.now).owner.text pc }
    ensures decoded { IfSome result (λ insn. IsDecoded insn) }
{
    match first {
        Some(insn) => whole(job, ram, pc, insn.length()),
        None => None,
    }
}

/// The instruction at `pc`, where all of it is in the text.
fn insn_in(job: &Job<'_>, ram: &[u8], pc: u16) -> Option<Insn>
    ensures exact { result ≡ insn_in (lone_byte (lone_call job.now) ram.now) (lone_call job.now).owner.text pc }
    ensures decoded { IfSome result (λ insn. IsDecoded insn) }
{
    let first = decode(word(job, ram, usize::from(pc)), 0, 0);
    insn_from(first, job, ram, pc)
}

/// The instruction that the module does next, where all of it is in the text and it may do it.
#[tactic(auto, unfolding(cpu_step::specs::Lone::next_insn))]
pub fn next_insn(job: &Job<'_>, ram: &[u8], core: &Core) -> Option<Insn>
    ensures exact { (rest : ℕ) (closing : Bool) → result ≡ next_insn (lone_call job.now)
        (record { core = core.now; data_bytes = ram.now; rest = rest; closing = closing }) }
    ensures decoded { IfSome result (λ insn. IsDecoded insn) }
    ensures alone { IfSome result (λ insn. is_alone insn ≡ true) }
    ensures inside { IfSome result (λ insn. all_inside (lone_call job.now)
        (asks (lone_who (lone_call job.now)) insn core.now) ≡ true) }
{
    let insn = insn_in(job, ram, core.get(PC));
    may_do(job, core, insn)
}
