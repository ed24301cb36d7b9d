//! The pool as its callers see it: tables of bytes.

ghost use Rattle.std.specs.Prelude.{◌≡◌, ◌+◌, ◌*◌, ◌≤◌, ◌↔◌, All, IsErr, IsSome, IfOk, OnErr, Some, None, length, option_map, replicate, slice_range, slice_set};
ghost use Rattle.page_pool.specs.Tables.{table_of, zeros, IsLive, IsUnused};

use crate::store::Store;
use std::alloc::{AllocError, Global};
use std::marker::Model;

/// An allocation failed.
pub type NoMemory = AllocError;

/// All tables are live.
#[derive(Clone, Copy, Debug, PartialEq, Eq)]
pub struct Full;

/// Up to 17 tables, of which some are live. A live table has 65,536 bytes.
#[derive(Debug, Drop)]
pub struct Pool {
    store: Store,
}

impl Model for Pool {
    ghost use Rattle.std.specs.Prelude.{ℕ, List, Option};
    ghost use Rattle.page_pool.specs.internal.Naming.{tables_of, IsStore};

    // The bytes of each table by its number; none where it is not live.
    ghost Value = { List (Option (List ℕ)) };

    ghost view = { λ p. tables_of p.store };

    ghost invariant = { λ p. IsStore p.store };
}

impl Pool {
    /// A pool of this many tables, 1 to 17. Table 0 is live and all its bytes are 0. All memory is allocated here.
    pub fn new(alloc: Global, tables: u16) -> Result<Pool, NoMemory>
        requires least { 1 ≤ tables }
        requires most { tables ≤ 17 }
        ensures first { IfOk result (λ pool. pool ≡ slice_set (replicate tables None) 0 (Some (zeros 65536))) }
    {
        Ok(Pool {
            store: Store::new(alloc, usize::from(tables))?,
        })
    }

    /// Page `n` of a live table: the 256 bytes from address 256 times `n` on.
    #[tactic(auto, using(crate::proofs::ViewLemmas::size_shown))]
    pub fn page(&self, t: u16, n: u8) -> &[u8]
        requires { IsLive self.now t }
        ensures page { option_map (λ bytes. slice_range bytes (256 * n) (256 * n + 256)) (table_of self.now t) ≡
            Some result.now }
        ensures length { length result.now ≡ 256 }
        ensures size { option_map (λ bytes. length bytes) (table_of self.now t) ≡ Some 65536 }
    {
        self.store.page(usize::from(t), usize::from(n))
    }

    /// Writes one byte of a live table; no byte of another table changes.
    pub fn write(&mut self, t: u16, addr: u16, byte: u8)
        requires { IsLive self.old t }
        ensures written { self.new ≡ slice_set self.old t
            (option_map (λ bytes. slice_set bytes addr byte) (table_of self.old t)) }
    {
        let page = usize::from(addr / 256);
        let at = usize::from(addr % 256);
        self.store.write(usize::from(t), page, at, byte);
    }

    /// Makes a free table live with the bytes of table `t`, and returns its number.
    /// Pages are shared: no byte is copied.
    #[tactic(auto, using(crate::proofs::ViewLemmas::not_all_shown))]
    pub fn copy_table(&mut self, t: u16) -> Result<u16, Full>
        requires { IsLive self.old t }
        ensures full { IsErr result ↔ All (λ table. IsSome table) self.old }
        ensures unused { IfOk result (λ copy. IsUnused self.old copy) }
        ensures copied { IfOk result (λ copy. self.new ≡ slice_set self.old copy (table_of self.old t)) }
        ensures unchanged { OnErr result (self.new ≡ self.old) }
    {
        match self.store.unused() {
            None => Err(Full),
            Some(copy) => {
                self.store.share(usize::from(t), copy);
                Ok(copy as u16)
            }
        }
    }

    /// Frees a live table, so that its number may be used again.
    pub fn drop_table(&mut self, t: u16)
        requires { IsLive self.old t }
        ensures ended { self.new ≡ slice_set self.old t None }
    {
        self.store.end(usize::from(t));
    }
}
