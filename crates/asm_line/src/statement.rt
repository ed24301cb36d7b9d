//! What a line says.

use insn_decode::{Condition, Insn, Operand};

/// What a section holds.
#[derive(Clone, Copy, Debug, PartialEq, Eq)]
pub enum SectionKind {
    Code,
    Data,
    /// Zeros, which take no room in a file.
    Bss,
}

/// A number, or the name that stands for one.
#[derive(Clone, Copy, Debug, PartialEq, Eq)]
pub enum Field<N> {
    Number(u16),
    Name(N),
}

/// A line's statement, whose names are texts, or the numbers that they have in a source.
#[derive(Clone, Copy, Debug, PartialEq, Eq)]
pub enum Statement<N> {
    Section {
        name: N,
        kind: SectionKind,
    },
    Label(N),
    Global(N),
    Word(Field<N>),
    /// So many zeros.
    Space(u32),
    Jump {
        condition: Condition,
        target: N,
    },
    /// An instruction with 0 for names; `first` is the name in its first operand, `second` that in its second.
    Code {
        insn: Insn,
        first: Option<N>,
        second: Option<N>,
    },
}

/// An operand, with 0 for its number where it is a name.
#[derive(Clone, Copy)]
pub struct Value<'a> {
    pub operand: Operand,
    pub name: Option<&'a [u8]>,
}
