//! Laws of the code table, each the contract of a function that does nothing.
ghost use Rattle.std.specs.Prelude.{◌≡◌, ◌↔◌, ℕ, Some};
ghost use Rattle.insn_decode.specs.declared.insn.Insn.{Insn};
ghost use Rattle.insn_decode.specs.Code.{insn_of, length_of};
ghost use Rattle.insn_decode.specs.Means.{Means};

/// The table as a function and the table as a relation are one.
pub fn one_table()
    ensures found { (w0 w1 w2 : ℕ) (insn : Insn) → insn_of w0 w1 w2 ≡ Some insn → Means w0 w1 w2 insn (length_of insn) }
    ensures given { (w0 w1 w2 n : ℕ) (insn : Insn) → Means w0 w1 w2 insn n → insn_of w0 w1 w2 ≡ Some insn }
    ensures length { (w0 w1 w2 n : ℕ) (insn : Insn) → Means w0 w1 w2 insn n → n ≡ length_of insn }
{}
