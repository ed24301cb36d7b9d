//! What an instruction reads and writes through.

ghost use Rattle.std.specs.Prelude.{◌≡◌, ℕ, IsFalse};
ghost use Rattle.sm_words.specs.declared.width.Width.{Width};
ghost use Rattle.pc_access.specs.Rights.{misaligned};

use sm_words::Width;

/// The bus as an instruction sees it: memory and devices, or the two sections of a module.
///
/// A port has a state. `answer` is the value of a read in a state; `after_read` and `after_write` are the
/// states after a read and after a write.
pub trait Port {
    ghost State: { Type 0 };

    ghost state: { Self → State };

    ghost answer: { State → Width → ℕ → ℕ };

    ghost after_read: { State → Width → ℕ → State };

    ghost after_write: { State → Width → ℕ → ℕ → State };

    /// Reads a byte, or a word at an even address.
    fn read(&mut self, addr: u16, width: Width) -> u16
        requires aligned { IsFalse (misaligned width addr) }
        ensures value { result ≡ answer (state self.old) width addr }
        ensures state { state self.new ≡ after_read (state self.old) width addr };

    /// Writes a byte, or a word at an even address.
    fn write(&mut self, addr: u16, width: Width, value: u16)
        requires aligned { IsFalse (misaligned width addr) }
        ensures state { state self.new ≡ after_write (state self.old) width addr value };
}
