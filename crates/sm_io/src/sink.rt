// A place outside that takes bytes.
ghost use Rattle.std.specs.Prelude.{◌≡◌, ◌+◌, ◌<◌, ◌≤◌, ◌^◌, [], List, ℕ, length, Option, IfOk, IsOk, is_err};
ghost use Rattle.std.specs.Io.KnownBytes.{WriteAppends};
ghost use Rattle.sm_io.specs.Faults.{HasCause};

/// A sink's fault.
#[derive(Clone, Copy, Debug, PartialEq, Eq)]
pub struct Failed;

/// A sink of bytes.
pub trait Sink {
    /// The bytes taken so far, where they are told.
    ghost taken: { Self → Option (List ℕ) };

    /// How many faults there were. It never falls.
    ghost faults: { Self → ℕ };

    /// How many bytes are sure to be taken without a fault.
    ghost sure: { Self → ℕ };

    /// Takes some bytes from the front of the piece, and says how many: at least one of a piece
    /// that is not empty. `Failed` comes only with a fault that was counted, and then nothing was
    /// taken. While the sink is sure of some bytes it does not fail.
    fn put(&mut self, piece: &[u8]) -> Result<usize, Failed>
        ensures bound { IfOk result (λ n. n ≤ length piece.now) }
        ensures some { IfOk result (λ n. 0 < length piece.now → 0 < n) }
        ensures empty { piece.now ≡ [] → result ≡ Ok 0 }
        ensures bytes { WriteAppends (taken self.old) (taken self.new) result piece.now }
        ensures cause { HasCause (faults self.old) (faults self.new) (is_err result) }
        ensures never_fails { 0 < sure self.old → IsOk result }
        ensures still_sure { IfOk result (λ n. sure self.old ≤ sure self.new + n) };

    /// The count is kept in a counter of 64 bits.
    ghost counter: { (s : Self) → faults s < 2 ^ 64 };
}
