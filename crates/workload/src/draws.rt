//! The numbers that are drawn from a seed.

ghost use Rattle.std.specs.Prelude.{◌≡◌, ◌<◌, ◌^◌};
ghost use Rattle.workload.specs.Draws as spec;

/// What a number is multiplied by for the next one.
pub const FACTOR: u64 = 1_103_515_245;

/// What is added then.
pub const ADDEND: u64 = 12_345;

/// What each number but the seed is below.
pub const BOUND: u64 = 0x8000_0000;

// What the rules say of them: a changed number is refused here.
const _: () = prove!(ADDEND == 12_345 && BOUND == 0x8000_0000 && FACTOR == 1_103_515_245);

/// The number after this one.
pub fn next(number: u64) -> u64
    requires seed { number < 2 ^ 32 }
    ensures next { result ≡ spec.next_number number }
    ensures bound { result < BOUND }
{
    (number * FACTOR + ADDEND) % BOUND
}
