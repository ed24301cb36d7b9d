//! The bits of the status register, R2.
ghost use Rattle.std.specs.Prelude.{◌≡◌, ◌<◌};
ghost use Rattle.sm_words.specs.Words.{bit};
ghost use Rattle.sm_words.specs.Sums.{one_if};
ghost use Rattle.sm_words.specs.Status.{is_set, controls, has_all_flags, sr_with_flags, confined_sr, interrupted_sr};

use crate::width::Sum;

/// C, the carry.
pub const CARRY: u16 = 0x0001;
/// Z, whether the result was 0.
pub const ZERO: u16 = 0x0002;
/// N, the result's sign bit.
pub const NEGATIVE: u16 = 0x0004;
/// GIE: interrupts are enabled. The lowest bit that is not an arithmetic flag.
pub const GIE: u16 = 0x0008;
/// CPUOFF: the processor sleeps until an interrupt.
pub const CPU_OFF: u16 = 0x0010;
/// SCG0: the only bit of SR that survives the acceptance of an interrupt.
pub const SCG0: u16 = 0x0040;
/// V, the signed overflow; the highest bit of the register.
pub const OVERFLOW: u16 = 0x0100;
/// One past the greatest value of the register, which has nine bits.
pub const LIMIT: u16 = 0x0200;

// What the rules say of them: a changed number is refused here.
const _: () = prove!(CARRY == 0x0001 && CPU_OFF == 0x0010 && GIE == 0x0008 && LIMIT == 0x0200);

const _: () = prove!(NEGATIVE == 0x0004 && OVERFLOW == 0x0100 && SCG0 == 0x0040);

const _: () = prove!(ZERO == 0x0002);

/// Whether the bit of this mask is set.
pub fn is_set(mask: u16, sr: u16) -> bool
    requires bit { 0 < mask }
    ensures set { result ≡ is_set mask sr }
    ensures worth { one_if result ≡ bit mask sr }
{
    sr / mask % 2 == 1
}

/// Whether C, Z, N and V are all set.
pub fn has_all_flags(sr: u16) -> bool
    ensures exact { result ≡ has_all_flags sr }
{
    sr % GIE == GIE - 1 && is_set(OVERFLOW, sr)
}

/// The bits that are not arithmetic flags: GIE and above, below V.
fn controls(sr: u16) -> u16
    ensures { result ≡ controls sr }
{
    GIE * (sr / GIE % (OVERFLOW / GIE))
}

/// SR with the flags C, Z, N and V of a result; all other bits stay.
pub fn with_flags(sum: &Sum, sr: u16) -> u16
    ensures exact { result ≡ sr_with_flags sum.now sr }
{
    CARRY * u16::from(sum.c)
        + ZERO * u16::from(sum.z)
        + NEGATIVE * u16::from(sum.n)
        + controls(sr)
        + OVERFLOW * u16::from(sum.v)
}

/// SR after an instruction inside a module: C, Z, N and V are those of `new`, all other bits those of `old`.
pub fn confine(old: u16, new: u16) -> u16
    ensures exact { result ≡ confined_sr old new }
{
    new % GIE + controls(old) + OVERFLOW * (new / OVERFLOW % 2)
}

/// SR after the acceptance of an interrupt: all bits but SCG0 are cleared.
pub fn interrupt(sr: u16) -> u16
    ensures exact { result ≡ interrupted_sr sr }
{
    SCG0 * (sr / SCG0 % 2)
}
