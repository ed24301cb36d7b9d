//! The sixteen registers.
ghost use Rattle.std.specs.Prelude.{◌≡◌, length, slice_index};
ghost use Rattle.sm_words.specs.Words.{reg, kept, put, core_of, IsCore};
ghost use Rattle.sm_words.specs.Status.{is_gie, is_cpu_off};

use crate::status;
use std::marker::Model;

/// The number of the program counter, R0.
pub const PC: u8 = 0;
/// The number of the stack pointer, R1.
pub const SP: u8 = 1;
/// The number of the status register, R2; [`status`] names its bits.
pub const SR: u8 = 2;
/// The number of the constant generator, R3, which reads 0.
pub const CG: u8 = 3;

// What the rules say of them: a changed number is refused here.
const _: () = prove!(CG == 3 && PC == 0 && SP == 1 && SR == 2);

/// The sixteen registers of the processor.
///
/// PC and SP are even, SR has nine bits and R3 is 0, always. A contract sees a core as the list of its
/// sixteen words.
#[derive(Clone, Copy, PartialEq, Eq, Debug)]
pub struct Core {
    /// The words, by the register's number.
    pub r: [u16; 16],
}

impl Model for Core {
    ghost use Rattle.std.specs.Prelude.{List, ℕ};
    ghost use Rattle.sm_words.specs.Words.{IsCore};

    ghost Value = { List ℕ };

    ghost view = { λ c. c.r };

    ghost invariant = { λ c. IsCore c.r };

    ghost inverse = { λ words. record { r = words } };
}

impl Core {
    /// A core with these words, as far as the registers can hold them: bit 0 of R0 and R1, bits 9 to 15 of
    /// R2 and all of R3 are cleared.
    pub fn new(r: [u16; 16]) -> Core
        ensures kept { result ≡ core_of r }
        ensures core { IsCore result }
    {
        let mut words = r;
        words[usize::from(PC)] -= words[usize::from(PC)] % 2;
        words[usize::from(SP)] -= words[usize::from(SP)] % 2;
        words[usize::from(SR)] %= status::LIMIT;
        words[usize::from(CG)] = 0;
        Core { r: words }
    }

    /// The word of register `n`; 0 if there is no such register.
    pub fn get(&self, n: u8) -> u16
        ensures word { result ≡ reg self.now n }
        ensures core { IsCore self.now }
    {
        match self.r.get(usize::from(n)) {
            Some(word) => *word,
            None => 0,
        }
    }

    /// The program counter.
    pub fn pc(&self) -> u16
        ensures pc { result ≡ reg self.now PC }
        ensures core { IsCore self.now }
    {
        self.get(PC)
    }

    /// The stack pointer.
    pub fn sp(&self) -> u16
        ensures sp { result ≡ reg self.now SP }
        ensures core { IsCore self.now }
    {
        self.get(SP)
    }

    /// The status register.
    pub fn sr(&self) -> u16
        ensures sr { result ≡ reg self.now SR }
        ensures core { IsCore self.now }
    {
        self.get(SR)
    }

    /// Whether interrupts are enabled.
    pub fn is_gie(&self) -> bool
        ensures bit { result ≡ is_gie self.now }
    {
        status::is_set(status::GIE, self.sr())
    }

    /// Whether the processor is off.
    pub fn is_cpu_off(&self) -> bool
        ensures bit { result ≡ is_cpu_off self.now }
    {
        status::is_set(status::CPU_OFF, self.sr())
    }

    /// Writes a word to register `n`, which drops the bits that it cannot hold. Nothing changes if there is
    /// no such register.
    #[inline(always)]
    #[tactic(auto, using(crate::proofs::Cores::set_core, crate::proofs::Cores::put_past))]
    pub fn put(&mut self, n: u8, word: u16)
        ensures written { self.new ≡ put self.old n word }
        ensures core { IsCore self.new }
        ensures was_core { IsCore self.old }
    {
        let index = usize::from(n);
        if index < 16 {
            self.r[index] = kept(n, word);
        }
    }
}

/// A word without the bits that register `n` cannot hold.
#[inline(always)]
fn kept(n: u8, word: u16) -> u16
    ensures { result ≡ kept n word }
{
    match n {
        PC | SP => word - word % 2,
        SR => word % status::LIMIT,
        CG => 0,
        _ => word,
    }
}
