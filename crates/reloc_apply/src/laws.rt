//! When relocations apply and what they write, the contract of a function that does nothing.
ghost use Rattle.reloc_apply.specs.Applies.{TakenExactly, SetsField};

/// A relocation is taken exactly where its kind is known, its field lies within the bytes, and its number is in bounds;
/// it then sets its field and nothing else.
pub fn taken_exactly()
    ensures exactly { TakenExactly }
    ensures sets { SetsField }
{}
