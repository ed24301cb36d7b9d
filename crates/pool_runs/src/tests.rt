//! Seventeen tables that share all pages, are written one by one, ended and filled again.

ghost use Rattle.std.specs.Prelude.{◌≡◌, ℕ, ◌<◌, ◌≤◌, All, IsSome, IsTrue, IfOk, length};
ghost use Rattle.page_pool.specs.Tables.{IsLive};

use page_pool::{NoMemory, Pool};
use std::alloc::Global;
use std::test::Fail;

/// How many tables there are.
const TABLES: u16 = 17;

// Writes a byte of its own into every page of every table.
fn write_all(pool: &mut Pool, seed: u8)
    requires live { All (λ table. IsSome table) pool.old }
    requires tables { length pool.old ≡ 17 }
    ensures live { All (λ table. IsSome table) pool.new }
    ensures tables { length pool.new ≡ 17 }
{
    for t in 0..TABLES {
        write_table(pool, t, seed);
    }
}

// Writes a byte of its own into every page of a table.
#[tactic(auto, using(crate::proofs::Sharing::live_of_all, crate::proofs::Sharing::all_written, crate::proofs::Sharing::as_many))]
fn write_table(pool: &mut Pool, t: u16, seed: u8)
    requires table { t < 17 }
    requires live { All (λ table. IsSome table) pool.old }
    requires tables { length pool.old ≡ 17 }
    ensures live { All (λ table. IsSome table) pool.new }
    ensures tables { length pool.new ≡ 17 }
{
    for n in 0..256u16 {
        pool.write(t, n * 256 + t, seed.wrapping_add(t as u8));
    }
}

// Whether every page of every table has the byte that was written into it, and no other table's.
fn is_written(pool: &Pool, seed: u8) -> bool
    requires live { All (λ table. IsSome table) pool.now }
    requires tables { length pool.now ≡ 17 }
{
    for t in 0..TABLES {
        if !is_table_written(pool, t, seed) {
            return false;
        }
    }
    true
}

#[tactic(auto, using(crate::proofs::Sharing::live_of_all))]
fn is_table_written(pool: &Pool, t: u16, seed: u8) -> bool
    requires table { t < 17 }
    requires live { All (λ table. IsSome table) pool.now }
    requires tables { length pool.now ≡ 17 }
{
    for n in 0..=255u8 {
        let page = pool.page(t, n);
        let at = usize::from(t);
        if page.get(at).copied() != Some(seed.wrapping_add(t as u8)) {
            return false;
        }
        if page.get((at + 1) % 17).copied() == Some(seed.wrapping_add(t as u8)) {
            return false;
        }
    }
    true
}

// Makes every table live that is not; whether all are then.
#[tactic(auto, using(crate::proofs::Sharing::first_copied, crate::proofs::Sharing::as_many))]
fn share_all(pool: &mut Pool) -> bool
    requires first { IsLive pool.old 0 }
    requires tables { length pool.old ≡ 17 }
    ensures shared { IsTrue result → All (λ table. IsSome table) pool.new }
    ensures tables { length pool.new ≡ 17 }
    ensures first { IsLive pool.new 0 }
{
    for _ in 0..TABLES {
        match pool.copy_table(0) {
            Ok(_) => {}
            Err(_) => return true,
        }
    }
    false
}

// Ends every table but table 0.
#[tactic(auto, using(crate::proofs::Sharing::live_of_all, crate::proofs::Sharing::other_ended, crate::proofs::Sharing::as_many))]
fn end_others(pool: &mut Pool)
    requires live { All (λ table. IsSome table) pool.old }
    requires tables { length pool.old ≡ 17 }
    ensures tables { length pool.new ≡ 17 }
    ensures first { IsLive pool.new 0 }
{
    for t in 1..TABLES {
        pool.drop_table(t);
    }
}

// Shares all pages among all tables, writes into each page of each, and ends all but table 0; whether each had its own bytes.
fn fill(pool: &mut Pool, seed: u8) -> bool
    requires first { IsLive pool.old 0 }
    requires tables { length pool.old ≡ 17 }
    ensures first { IsLive pool.new 0 }
    ensures tables { length pool.new ≡ 17 }
{
    if !share_all(pool) {
        return false;
    }
    write_all(pool, seed);
    let holds = is_written(pool, seed);
    end_others(pool);
    holds
}

#[tactic(auto, using(crate::proofs::Sharing::live_at_first))]
fn fresh(alloc: Global) -> Result<Pool, NoMemory>
    ensures first { IfOk result (λ pool. IsLive pool 0) }
    ensures tables { IfOk result (λ pool. length pool ≡ 17) }
{
    Pool::new(alloc, TABLES)
}

#[test]
fn every_page_is_shared_and_then_written_in_each_table(rt: HostRuntime) -> Result<(), Fail> {
    let mut pool = fresh(rt.alloc())?;
    assert!(rt; fill(&mut pool, 0x10));
    // The tables that were ended are filled again.
    assert!(rt; fill(&mut pool, 0x80));
    Ok(())
}
