//! What the operations give.

ghost use Rattle.std.specs.Prelude.{◌≡◌};
ghost use Rattle.sm_words.specs.Sums.{one_if};
ghost use Rattle.cpu_step.specs.Effect.{value_of, two_result, one_result, with_flags};

use insn_decode::{OneOp, TwoOp};
use sm_words::{Sum, Width, status};

/// What an operation gives.
#[derive(Clone, Copy, Debug, PartialEq, Eq)]
pub enum Computed {
    /// A value; the flags are kept.
    Plain(u16),
    /// A value with its flags.
    Flagged(Sum),
}

impl Computed {
    /// The value.
    pub fn value(&self) -> u16
        ensures value { result ≡ value_of self.now }
    {
        match self {
            Computed::Plain(value) => *value,
            Computed::Flagged(sum) => sum.value,
        }
    }

    /// SR with the flags.
    pub fn with_flags(&self, sr: u16) -> u16
        ensures flags { result ≡ with_flags self.now sr }
    {
        match self {
            Computed::Plain(_) => sr,
            Computed::Flagged(sum) => status::with_flags(sum, sr),
        }
    }
}

/// Format I: of the source and the destination, bytes or words, and C.
// (inlined, as where it is written: the result then stays in registers)
#[inline(always)]
pub fn two_result(op: TwoOp, width: Width, source: u16, destination: u16, carry: bool) -> Computed
    ensures computed { result ≡ two_result op width source destination (one_if carry) }
{
    let turned = width.complement(source);
    match op {
        TwoOp::Mov => Computed::Plain(source),
        TwoOp::Add => Computed::Flagged(sm_words::add(destination, source, false, width)),
        TwoOp::Addc => Computed::Flagged(sm_words::add(destination, source, carry, width)),
        TwoOp::Subc => Computed::Flagged(sm_words::add(destination, turned, carry, width)),
        TwoOp::Sub | TwoOp::Cmp => {
            Computed::Flagged(sm_words::add(destination, turned, true, width))
        }
        TwoOp::Dadd => Computed::Flagged(sm_words::dadd(destination, source, carry, width)),
        TwoOp::Bit | TwoOp::And => Computed::Flagged(sm_words::and(destination, source, width)),
        TwoOp::Bic => Computed::Plain(destination & turned),
        TwoOp::Bis => Computed::Plain(destination | source),
        TwoOp::Xor => Computed::Flagged(sm_words::xor(destination, source, width)),
    }
}

/// Format II: of the operand, a byte or a word, and C.
pub fn one_result(op: OneOp, width: Width, operand: u16, carry: bool) -> Computed
    ensures computed { result ≡ one_result op width operand (one_if carry) }
{
    match op {
        OneOp::Rrc => Computed::Flagged(sm_words::rrc(operand, carry, width)),
        OneOp::Rra => Computed::Flagged(sm_words::rra(operand, width)),
        OneOp::Swpb => Computed::Plain(sm_words::swpb(operand)),
        OneOp::Sxt => Computed::Flagged(sm_words::sxt(operand)),
        OneOp::Push | OneOp::Call => Computed::Plain(operand),
    }
}
