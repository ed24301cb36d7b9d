ghost use Rattle.std.specs.Prelude.{◌≡◌};
ghost use Rattle.sm_words.specs.Sums.{limit, low, complement};

/// The size of an instruction's operands.
#[derive(Clone, Copy, PartialEq, Eq, Debug, Default)]
pub enum Width {
    /// The low byte of a register, or one byte of memory.
    Byte,
    /// All sixteen bits of a register, or two bytes of memory at an even address.
    #[default]
    Word,
}

impl Width {
    /// One past the greatest value: 256 for a byte, 65,536 for a word.
    pub fn limit(self) -> u32
        ensures exact { result ≡ limit self }
    {
        match self {
            Width::Byte => 0x100,
            Width::Word => 0x10000,
        }
    }

    /// The low byte, or the word.
    pub fn low(self, value: u16) -> u16
        ensures exact { result ≡ low self value }
    {
        match self {
            Width::Byte => value % 0x100,
            Width::Word => value,
        }
    }

    /// The one's complement of the low byte or of the word.
    pub fn complement(self, value: u16) -> u16
        ensures exact { result ≡ complement self value }
    {
        match self {
            Width::Byte => 0xff - value % 0x100,
            Width::Word => 0xffff - value,
        }
    }
}

/// The result of an operation with its four flags.
#[derive(Clone, Copy, PartialEq, Eq, Debug)]
pub struct Sum {
    /// The result; of a byte operation a number below 256.
    pub value: u16,
    /// The result's sign bit.
    pub n: bool,
    /// Whether the result is 0.
    pub z: bool,
    /// The carry.
    pub c: bool,
    /// The overflow.
    pub v: bool,
}
