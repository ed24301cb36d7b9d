//! The instructions.
ghost use Rattle.std.specs.Prelude.{◌≡◌, ◌<◌, slice_get, Some};
ghost use Rattle.insn_decode.specs.Code.{words_of, length_of, conditions, is_always, unit_ops};
ghost use Rattle.insn_decode.specs.Means.{condition_code, unit_code};

use sm_words::Width;

/// The operations with two operands.
#[derive(Clone, Copy, PartialEq, Eq, Debug)]
pub enum TwoOp {
    Mov,
    Add,
    Addc,
    Subc,
    Sub,
    Cmp,
    Dadd,
    Bit,
    Bic,
    Bis,
    Xor,
    And,
}

/// The operations with one operand.
#[derive(Clone, Copy, PartialEq, Eq, Debug)]
pub enum OneOp {
    Rrc,
    Swpb,
    Rra,
    Sxt,
    Push,
    Call,
}

/// The conditions of jumps, by their numbers from 0 on.
#[derive(Clone, Copy, PartialEq, Eq, Debug)]
pub enum Condition {
    /// JNE or JNZ: Z is 0.
    NotZero,
    /// JEQ or JZ: Z is 1.
    Zero,
    /// JNC or JLO: C is 0.
    NoCarry,
    /// JC or JHS: C is 1.
    Carry,
    /// JN: N is 1.
    Negative,
    /// JGE: N and V are the same.
    GreaterOrEqual,
    /// JL: N and V are not the same.
    Less,
    /// JMP: whatever the flags are.
    Always,
}

/// The unit instructions, by their words from 0x1380 on.
#[derive(Clone, Copy, PartialEq, Eq, Debug)]
pub enum UnitName {
    /// The running module gives itself up.
    Unprotect,
    /// A new module is made.
    Protect,
    /// Another module is known by its tag.
    Attest,
    /// A message is tagged.
    Tag,
    /// The id of the module at an address is told.
    IdOf,
    /// The running module's id is told.
    OwnId,
    /// Its caller's id is told.
    CallerId,
}

/// Where an operand's value is. A register is given by its number, 0 to 15.
#[derive(Clone, Copy, PartialEq, Eq, Debug)]
pub enum Operand {
    /// The register itself.
    Reg(u8),
    /// A number that needs no extension word: 0, 1, 2, 4, 8 or 65,535.
    Const(u16),
    /// The extension word itself.
    Imm(u16),
    /// At the sum of the register and the extension word.
    Indexed { reg: u8, x: u16 },
    /// At the sum of the extension word and its own address.
    Symbolic(u16),
    /// At the extension word.
    Absolute(u16),
    /// At the register.
    Indirect(u8),
    /// At the register, which then rises.
    Increment(u8),
}

/// An instruction.
#[derive(Clone, Copy, PartialEq, Eq, Debug)]
pub enum Insn {
    /// Format I.
    Two {
        op: TwoOp,
        width: Width,
        src: Operand,
        dst: Operand,
    },
    /// Format II.
    One {
        op: OneOp,
        width: Width,
        arg: Operand,
    },
    /// A jump by `offset` words past the next instruction.
    Jump {
        condition: Condition,
        offset: i16,
    },
    /// The return from an interrupt.
    Reti,
    /// A unit instruction.
    Unit(UnitName),
}

impl Condition {
    /// The condition of this number.
    pub fn from_number(number: u16) -> Condition
        requires { number < 8 }
        ensures { slice_get conditions number ≡ Some result }
    {
        match number {
            0 => Condition::NotZero,
            1 => Condition::Zero,
            2 => Condition::NoCarry,
            3 => Condition::Carry,
            4 => Condition::Negative,
            5 => Condition::GreaterOrEqual,
            6 => Condition::Less,
            _ => Condition::Always,
        }
    }

    /// Its number, 0 to 7.
    pub fn number(self) -> u8
        ensures exact { result ≡ condition_code self }
        ensures most { result < 8 }
    {
        match self {
            Condition::NotZero => 0,
            Condition::Zero => 1,
            Condition::NoCarry => 2,
            Condition::Carry => 3,
            Condition::Negative => 4,
            Condition::GreaterOrEqual => 5,
            Condition::Less => 6,
            Condition::Always => 7,
        }
    }

    /// Whether a jump under it is always taken.
    #[inline(always)]
    pub fn is_always(self) -> bool
        ensures { result ≡ is_always self }
    {
        matches!(self, Condition::Always)
    }
}

impl UnitName {
    /// The unit instruction whose word is 0x1380 and this number.
    pub fn from_number(number: u16) -> UnitName
        requires { number < 7 }
        ensures { slice_get unit_ops number ≡ Some result }
    {
        match number {
            0 => UnitName::Unprotect,
            1 => UnitName::Protect,
            2 => UnitName::Attest,
            3 => UnitName::Tag,
            4 => UnitName::IdOf,
            5 => UnitName::OwnId,
            _ => UnitName::CallerId,
        }
    }

    /// Its number, 0 to 6.
    pub fn number(self) -> u8
        ensures exact { result ≡ unit_code self }
        ensures most { result < 7 }
    {
        match self {
            UnitName::Unprotect => 0,
            UnitName::Protect => 1,
            UnitName::Attest => 2,
            UnitName::Tag => 3,
            UnitName::IdOf => 4,
            UnitName::OwnId => 5,
            UnitName::CallerId => 6,
        }
    }
}

impl Operand {
    /// The number of extension words, 0 or 1.
    #[inline(always)]
    pub fn words(&self) -> u16
        ensures exact { result ≡ words_of self.now }
    {
        match self {
            Operand::Imm(_)
            | Operand::Indexed { .. }
            | Operand::Symbolic(_)
            | Operand::Absolute(_) => 1,
            Operand::Reg(_) | Operand::Const(_) | Operand::Indirect(_) | Operand::Increment(_) => 0,
        }
    }
}

impl Insn {
    /// The number of words, 1 to 3.
    #[inline(always)]
    pub fn length(&self) -> u16
        ensures exact { result ≡ length_of self.now }
    {
        match self {
            Insn::Two { src, dst, .. } => 1 + src.words() + dst.words(),
            Insn::One { arg, .. } => 1 + arg.words(),
            Insn::Jump { .. } | Insn::Reti | Insn::Unit(_) => 1,
        }
    }
}
