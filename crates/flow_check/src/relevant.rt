//! Which values of a branch's state its arms need, so that one walk serves as many states as can be. This saves time
//! alone: what it says is tried by a walk before anything rests on it.

use crate::accesses::{reads_destination, writes_destination};
use crate::memory::word_number;
use crate::transfer::{one_reads_carry, one_sets_flags, reads_carry, sets_flags};
use flow_rule::{AbstractState, Reach, Val};
use insn_decode::{Insn, OneOp, Operand};
use mod_layout::Module;
use sm_words::Width;

/// How many values a state has: its registers and then its words.
const VALUES: usize = 272;

/// How many registers a state has.
const REGISTERS: usize = 16;

/// The flags' register, and the stack pointer.
const FLAGS: u8 = 2;

const STACK: u8 = 1;

/// A set of values of a state, by their numbers.
#[derive(Clone, Copy)]
struct Origins([u64; 5]);

impl Origins {
    const NONE: Origins = Origins([0; 5]);

    /// One value alone.
    fn one(value: usize) -> Origins {
        let mut set = Origins::NONE;
        if value < VALUES {
            set.0[value / 64] = 1 << (value % 64);
        }
        set
    }

    /// Those of either set.
    fn with(self, other: Origins) -> Origins {
        let mut set = self;
        for k in 0..5 {
            set.0[k] |= other.0[k];
        }
        set
    }

    /// Whether a value is among them.
    fn has(&self, value: usize) -> bool {
        value < VALUES && self.0[value / 64] >> (value % 64) & 1 == 1
    }
}

/// Along an arm: of which values of the branch's state each value is made, and which of them have to be Known.
#[derive(Drop)]
pub struct Relevance {
    of: [Origins; 272],
    known: Origins,
    /// Whether instructions are followed.
    follows: bool,
}

/// The register that an operand's address is made of.
fn base(operand: Operand) -> Option<u8> {
    match operand {
        Operand::Indexed { reg, .. } => Some(reg),
        Operand::Indirect(reg) | Operand::Increment(reg) => Some(reg),
        _ => None,
    }
}

/// The number of the value at an access's address, where it is one of the state's words.
fn word_of(module: &Module, reach: Option<&Reach>) -> Option<usize> {
    let Some(reach) = reach else {
        return None;
    };
    match reach.addr {
        Val::Known(addr) if module.ram.holds(usize::from(addr)) => {
            Some(REGISTERS + word_number(module, addr))
        }
        _ => None,
    }
}

/// The number of the value in an operand.
fn place(module: &Module, operand: Operand, reach: Option<&Reach>) -> Option<usize> {
    match operand {
        Operand::Reg(reg) => Some(usize::from(reg)),
        Operand::Const(_) | Operand::Imm(_) => None,
        _ => word_of(module, reach),
    }
}

impl Relevance {
    /// Nothing is needed so far.
    pub fn new(follows: bool) -> Relevance {
        Relevance {
            of: [Origins::NONE; 272],
            known: Origins::NONE,
            follows,
        }
    }

    /// An arm begins, where each value is made of itself.
    pub fn begin(&mut self) {
        if self.follows {
            for value in 0..VALUES {
                self.of[value] = Origins::one(value);
            }
        }
    }

    /// What a value is made of.
    fn get(&self, value: usize) -> Origins {
        self.of.get(value).copied().unwrap_or(Origins::NONE)
    }

    /// Says what a value is made of.
    fn set(&mut self, value: usize, set: Origins) {
        if value < VALUES {
            self.of[value] = set;
        }
    }

    /// An operand's address has to be Known.
    fn need(&mut self, operand: Operand) {
        if let Some(reg) = base(operand) {
            self.known = self.known.with(self.get(usize::from(reg)));
        }
    }

    /// What the value there is made of.
    fn at(&self, place: Option<usize>) -> Origins {
        place.map_or(Origins::NONE, |value| self.get(value))
    }

    /// Writes a value made of these; a byte of a word leaves the other.
    fn write(&mut self, place: Option<usize>, width: Width, from: Origins) {
        if let Some(value) = place {
            let kept = if width == Width::Byte && value >= REGISTERS {
                self.get(value)
            } else {
                Origins::NONE
            };
            self.set(value, from.with(kept));
        }
    }

    /// The flags, if they are read.
    fn carry(&self, read: bool) -> Origins {
        if read {
            self.get(usize::from(FLAGS))
        } else {
            Origins::NONE
        }
    }

    /// What an instruction of format II makes of what.
    fn follow_one(
        &mut self,
        module: &Module,
        op: OneOp,
        width: Width,
        arg: Operand,
        reaches: &[Reach],
    ) {
        self.need(arg);
        let from = place(module, arg, reaches.first());
        let made = self.at(from).with(self.carry(one_reads_carry(op)));
        if one_sets_flags(op) {
            self.set(usize::from(FLAGS), made);
        }
        if op == OneOp::Push {
            self.known = self.known.with(self.get(usize::from(STACK)));
            self.write(word_of(module, reaches.last()), width, made);
        } else {
            self.write(from, width, made);
        }
    }

    /// What an instruction makes of what.
    pub fn follow(&mut self, module: &Module, insn: &Insn, reaches: &[Reach]) {
        if !self.follows {
            return;
        }
        match *insn {
            Insn::Two {
                op,
                width,
                src,
                dst,
            } => {
                self.need(src);
                self.need(dst);
                let source = self.at(place(module, src, reaches.first()));
                let into = place(module, dst, reaches.last());
                let old = if reads_destination(op) {
                    self.at(into)
                } else {
                    Origins::NONE
                };
                let made = source.with(old).with(self.carry(reads_carry(op)));
                if sets_flags(op) {
                    self.set(usize::from(FLAGS), made);
                }
                if writes_destination(op) {
                    self.write(into, width, made);
                }
            }
            Insn::One { op, width, arg } => self.follow_one(module, op, width, arg, reaches),
            Insn::Jump { .. } | Insn::Reti | Insn::Unit(_) => {}
        }
    }

    /// A state that subsumes this one and has as little in it as was needed.
    pub fn least(&self, state: &AbstractState) -> AbstractState {
        let mut top = *state;
        for n in 0..16 {
            if !self.known.has(n) {
                top.core[n] = Val::Secret;
            }
        }
        for n in 0..256 {
            if !self.known.has(REGISTERS + n) {
                top.words[n] = Val::Secret;
            }
        }
        top
    }
}
