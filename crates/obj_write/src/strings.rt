//! String tables.

ghost use Rattle.std.specs.Prelude.{◌≡◌, ◌<◌, ◌++◌, ◌∷◌, List, ℕ, [], length, IfOk, OnOk};
ghost use Rattle.obj_write.specs.Strings.{name_at};
ghost use Rattle.obj_write.specs.internal.Strings.{IsTableOf};

use std::alloc::{AllocError, Global};

/// A string table, and where in it each of its names starts.
#[derive(Drop)]
pub struct Strings {
    pub bytes: Vec<u8>,
    pub places: Vec<usize>,
}

impl Strings {
    /// The table of no names.
    #[tactic(auto, using(crate::proofs::TableLemmas::no_names))]
    pub fn new(alloc: Global) -> Result<Strings, AllocError>
        ensures { IfOk result (IsTableOf []) }
    {
        let mut bytes = Vec::new(alloc);
        bytes.push(0)?;
        Ok(Strings {
            bytes,
            places: Vec::new(alloc),
        })
    }

    /// Adds a name that is `first` and then `rest`.
    pub fn add(&mut self, first: &[u8], rest: &[u8]) -> Result<(), AllocError>
        ensures { OnOk result ((names : List (List ℕ)) → IsTableOf names self.old →
            IsTableOf (names ++ (first.now ++ rest.now) ∷ []) self.new) }
    {
        self.places.push(self.bytes.len())?;
        self.bytes.extend_from_slice(first)?;
        self.bytes.extend_from_slice(rest)?;
        self.bytes.push(0)?;
        Ok(())
    }

    /// Where the name of this index starts.
    #[tactic(auto, using(crate::proofs::TableLemmas::place_is))]
    pub fn place(&self, index: usize) -> usize
        ensures { (names : List (List ℕ)) → IsTableOf names self.now → index < length names →
            result ≡ name_at names index }
    {
        self.places.get(index).copied().unwrap_or(0)
    }
}
