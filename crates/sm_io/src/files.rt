// Files outside, by name.
ghost use Rattle.std.specs.Prelude.{◌≡◌, ◌<◌, ◌≤◌, ◌^◌, Bool, IsTrue, List, ℕ, length, Option, IfOk, IfSome, false};
ghost use Rattle.sm_io.specs.Faults.{HasCause};
ghost use Rattle.sm_io.specs.Files.{FileMap, ReadGives, read_failed};

/// Why a read gave nothing.
#[derive(Clone, Copy, Debug, PartialEq, Eq)]
pub enum Unread {
    /// There is no file of that name.
    Absent,
    /// The outside failed, and the fault was counted.
    Failed,
    /// Memory for the name was wanting.
    NoMemory,
}

/// Files by name.
pub trait Files {
    /// The files, where they are told.
    ghost content: { Self → Option FileMap };

    /// How many faults there were. It never falls.
    ghost faults: { Self → ℕ };

    /// Whether no read fails.
    ghost sound: { Self → Bool };

    /// Puts bytes of the file, from `at` on, to the front of `buf`, and says how many.
    /// None of them in a `buf` that is not empty means the end of the file. What stands past
    /// them, and in `buf` after an error, may be anything.
    fn read_at(&mut self, name: &str, at: u64, buf: &mut [u8]) -> Result<usize, Unread>
        ensures bound { IfOk result (λ n. n ≤ length buf.new) }
        ensures bytes { IfSome (content self.old) (λ map. ReadGives (map name.now) at buf.new result) }
        ensures same_files { content self.new ≡ content self.old }
        ensures cause { HasCause (faults self.old) (faults self.new) (read_failed result) }
        ensures same_sound { sound self.new ≡ sound self.old }
        ensures never_fails { IsTrue (sound self.old) → read_failed result ≡ false };

    /// The count is kept in a counter of 64 bits.
    ghost counter: { (s : Self) → faults s < 2 ^ 64 };
}
