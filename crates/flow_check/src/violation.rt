//! What is wrong at a program point: the least violation is told.

ghost use Rattle.std.specs.Prelude.{◌≡◌, ◌≤◌, ◌<◌, ◌*◌, ◌==◌, None, Some};
ghost use Rattle.flow_rule.specs.Violations.{number_of, violation_if};
ghost use Rattle.flow_check.specs.internal.Violations.{before, lesser, noted};

use flow_rule::Reason;

/// A reason, with the address of the program point and its value.
#[derive(Clone, Copy, Debug, PartialEq, Eq)]
pub struct Violation {
    pub addr: u16,
    pub reason: Reason,
    pub value: u16,
}

/// The number of a reason.
fn number(reason: Reason) -> u32
    ensures exact { result ≡ number_of reason }
    ensures few { result ≤ 11 }
{
    match reason {
        Reason::SecretBranch => 1,
        Reason::SecretAddress => 2,
        Reason::OutsideAccess => 3,
        Reason::SecretAtExit => 4,
        Reason::UnknownTarget => 5,
        Reason::Illegal => 6,
        Reason::Unit => 7,
        Reason::TooMany => 8,
        Reason::Arm => 9,
        Reason::ArmTime => 10,
        Reason::DataAtExit => 11,
    }
}

/// Whether a violation comes before another: first by the address, then by the reason's number, then by the value.
fn before(violation: Violation, old: Violation) -> bool
    ensures { result ≡ before violation old }
{
    let (reason, old_reason) = (number(violation.reason), number(old.reason));
    violation.addr < old.addr
        || (violation.addr == old.addr
            && (reason < old_reason || (reason == old_reason && violation.value < old.value)))
}

/// The lesser of two violations, where the first may be none.
fn lesser(least: Option<Violation>, violation: Violation) -> Option<Violation>
    ensures { result ≡ lesser least violation }
{
    match least {
        Some(old) => {
            if before(violation, old) {
                Some(violation)
            } else {
                Some(old)
            }
        }
        None => Some(violation),
    }
}

/// One violation more.
pub fn note(least: &mut Option<Violation>, addr: u16, reason: Reason, value: u16)
    ensures { least.new ≡ lesser least.old record { addr = addr; reason = reason; value = value } }
{
    let violation = Violation {
        addr,
        reason,
        value,
    };
    *least = lesser(*least, violation);
}

/// One violation more, where the test says so.
pub fn note_if(found: bool, least: &mut Option<Violation>, addr: u16, reason: Reason, value: u16)
    ensures { least.new ≡ noted (violation_if found addr reason value) least.old }
{
    if found {
        note(least, addr, reason, value);
    }
}
