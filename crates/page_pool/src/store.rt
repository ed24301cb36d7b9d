//! The pages, their counts and the tables.

ghost use Rattle.std.specs.Prelude.{◌≡◌, ◌+◌, ◌*◌, ◌<◌, ◌≤◌, ◌-◌, ℕ, All, length, get_or, sum, IfOk, count_by, replicate, false, ◌==◌};
ghost use Rattle.page_pool.specs.internal.Counts.{times_in, IsFree};

use std::alloc::{AllocError, Global};

/// How many bytes a page has.
const PAGE_BYTES: usize = 256;
/// How many places a table has, each of which names a page.
const TABLE_PLACES: usize = 256;

/// The pages that a table's places name, in order.
#[derive(Clone, Copy, Debug, Drop)]
pub struct Table {
    pub is_live: bool,
    pub places: [u16; TABLE_PLACES],
}

/// One region of pages, and the tables whose places name them.
#[derive(Debug, Drop)]
pub struct Store {
    pub pages: Vec<[u8; PAGE_BYTES]>,
    /// How many places of live tables name each page.
    pub counts: Vec<u16>,
    pub tables: Vec<Table>,
    /// The first `spare` of these are the pages that no place of a live table names.
    pub free: Vec<u16>,
    pub spare: usize,
}

impl Store {
    ghost use Rattle.std.specs.Prelude.{◌≡◌, ◌≢◌, ◌+◌, ◌*◌, ◌<◌, get_or, length, slice_range, slice_set, option_map, replicate, All, Some, None, IfOk, IsNone, IsSome, IfSome};
    ghost use Rattle.page_pool.specs.Tables.{table_of, zeros, IsLive, IsUnused};
    ghost use Rattle.page_pool.specs.internal.Naming.{tables_of, page_place, IsStore};

    /// A store of so many tables, of which table 0 alone is live. All its bytes are 0, on one page.
    #[tactic(auto, using(crate::proofs::NewLemmas::new_counted, crate::proofs::NewLemmas::new_shown))]
    pub fn new(alloc: Global, tables: usize) -> Result<Self, AllocError>
        requires least { 1 ≤ tables }
        requires most { tables ≤ 17 }
        ensures store { IfOk result (λ s. IsStore s) }
        ensures zeros { IfOk result (λ s. tables_of s ≡ slice_set (replicate tables None) 0 (Some (zeros 65536))) }
    {
        let count = tables * TABLE_PLACES;
        let mut store = Store {
            pages: zero_pages(alloc, count)?,
            counts: zero_counts(alloc, count)?,
            tables: unused_tables(alloc, tables)?,
            free: free_pages(alloc, count)?,
            spare: count - 1,
        };
        store.tables[0].is_live = true;
        store.counts[0] = 256;
        Ok(store)
    }

    /// The page that place `n` of table `t` names.
    #[tactic(auto, using(crate::proofs::StoreLemmas::place_inside))]
    pub fn page(&self, t: usize, n: usize) -> &[u8]
        requires store { IsStore self.now }
        requires live { IsLive (tables_of self.now) t }
        requires place { n < 256 }
        ensures page { option_map (λ bytes. slice_range bytes (256 * n) (256 * n + 256))
            (table_of (tables_of self.now) t) ≡ Some result.now }
        ensures length { length result.now ≡ 256 }
    {
        let place = self.tables[t].places[n];
        &self.pages[usize::from(place)]
    }

    /// Changes byte `at` of the page that place `n` of table `t` names, in that table alone.
    #[tactic(auto, using(crate::proofs::StoreLemmas::page_written, crate::proofs::StoreLemmas::page_counted, crate::proofs::StoreLemmas::named_inside))]
    pub fn write(&mut self, t: usize, n: usize, at: usize, byte: u8)
        requires store { IsStore self.old }
        requires live { IsLive (tables_of self.old) t }
        requires place { n < 256 }
        requires at { at < 256 }
        ensures store { IsStore self.new }
        ensures written { tables_of self.new ≡ slice_set (tables_of self.old) t
            (option_map (λ bytes. slice_set bytes (256 * n + at) byte) (table_of (tables_of self.old) t)) }
    {
        let own = self.own_page(t, n);
        self.pages[own][at] = byte;
    }

    // The page that place `n` of table `t` names, which no other place names from now on.
    #[tactic(auto, using(crate::proofs::StoreLemmas::place_inside))]
    fn own_page(&mut self, t: usize, n: usize) -> usize
        requires store { IsStore self.old }
        requires live { IsLive (tables_of self.old) t }
        requires place { n < 256 }
        ensures store { IsStore self.new }
        ensures same { tables_of self.new ≡ tables_of self.old }
        ensures place { page_place self.new.tables.items t n ≡ Some result }
        ensures own { get_or self.new.counts.items result 0 ≡ 1 }
    {
        let page = usize::from(self.tables[t].places[n]);
        if self.counts[page] == 1 {
            return page;
        }
        self.copy_page(t, n, page)
    }

    // Gives place `n` of table `t`, whose page `shared` others name too, a page of its own with the same bytes.
    #[tactic(auto, using(crate::proofs::StoreLemmas::named_inside))]
    fn copy_page(&mut self, t: usize, n: usize, shared: usize) -> usize
        requires store { IsStore self.old }
        requires live { IsLive (tables_of self.old) t }
        requires place { n < 256 }
        requires named { page_place self.old.tables.items t n ≡ Some shared }
        requires shared { get_or self.old.counts.items shared 0 ≢ 1 }
        ensures store { IsStore self.new }
        ensures same { tables_of self.new ≡ tables_of self.old }
        ensures place { page_place self.new.tables.items t n ≡ Some result }
        ensures own { get_or self.new.counts.items result 0 ≡ 1 }
    {
        self.spare -= 1;
        let place = self.free[self.spare];
        let page = usize::from(place);
        self.pages[page] = self.pages[shared];
        self.counts[shared] -= 1;
        self.counts[page] = 1;
        self.tables[t].places[n] = place;
        page
    }

    /// Makes table `to`, which is not live, a live one that names the pages of table `from`.
    #[tactic(auto, using(crate::proofs::ShareLemmas::places_named, crate::proofs::ShareLemmas::places_inside, crate::proofs::ShareLemmas::total_small, crate::proofs::ShareLemmas::share_counted, crate::proofs::ShareLemmas::share_same))]
    pub fn share(&mut self, from: usize, to: usize)
        requires store { IsStore self.old }
        requires live { IsLive (tables_of self.old) from }
        requires unused { IsUnused (tables_of self.old) to }
        ensures store { IsStore self.new }
        ensures shared { tables_of self.new ≡ slice_set (tables_of self.old) to (table_of (tables_of self.old) from) }
    {
        let table = self.tables[from];
        raise(&mut self.counts, &table.places);
        self.tables[to] = table;
    }

    /// Ends a live table.
    #[tactic(auto, using(crate::proofs::ShareLemmas::places_inside, crate::proofs::ShareLemmas::names_enough, crate::proofs::ShareLemmas::end_counted, crate::proofs::ShareLemmas::end_same))]
    pub fn end(&mut self, t: usize)
        requires store { IsStore self.old }
        requires live { IsLive (tables_of self.old) t }
        ensures store { IsStore self.new }
        ensures ended { tables_of self.new ≡ slice_set (tables_of self.old) t None }
    {
        self.spare = lower(
            &mut self.counts,
            &self.tables[t].places,
            &mut self.free,
            self.spare,
        );
        self.tables[t].is_live = false;
    }

    /// A table that is not live, where there is one.
    #[tactic(auto, using(crate::proofs::ViewLemmas::unused_shown))]
    pub fn unused(&self) -> Option<usize>
        ensures none { IsNone result → All (λ table. IsSome table) (tables_of self.now) }
        ensures some { IfSome result (λ t. IsUnused (tables_of self.now) t) }
    {
        for (t, table) in self.tables.iter().enumerate() {
            if !table.is_live {
                return Some(t);
            }
        }
        None
    }
}

// So many pages of zeros.
fn zero_pages(alloc: Global, count: usize) -> Result<Vec<[u8; PAGE_BYTES]>, AllocError>
    ensures { IfOk result (λ pages. pages.items ≡ replicate count (replicate 256 0)) }
{
    let mut pages = Vec::with_capacity(alloc, count)?;
    for _ in 0..count {
        pages.push([0; PAGE_BYTES])?;
    }
    Ok(pages)
}

// So many counts of 0.
fn zero_counts(alloc: Global, count: usize) -> Result<Vec<u16>, AllocError>
    ensures { IfOk result (λ counts. counts.items ≡ replicate count 0) }
{
    vec![in alloc; 0; count]
}

// So many tables that are not live.
fn unused_tables(alloc: Global, count: usize) -> Result<Vec<Table>, AllocError>
    ensures { IfOk result (λ tables.
        tables.items ≡ replicate count record { is_live = false; places = replicate 256 0 }) }
{
    let mut tables = Vec::with_capacity(alloc, count)?;
    for _ in 0..count {
        tables.push(Table {
            is_live: false,
            places: [0; TABLE_PLACES],
        })?;
    }
    Ok(tables)
}

// All pages, page 0 last.
fn free_pages(alloc: Global, count: usize) -> Result<Vec<u16>, AllocError>
    requires { count ≤ 4352 }
    ensures length { IfOk result (λ free. length free.items ≡ count) }
    ensures falling { IfOk result (λ free. (i : ℕ) → i < count → get_or free.items i 0 ≡ count - 1 - i) }
{
    let mut free = Vec::with_capacity(alloc, count)?;
    for i in 0..count {
        free.push((count - 1 - i) as u16)?;
    }
    Ok(free)
}

// Counts one more name of each of these pages.
#[tactic(auto, using(crate::proofs::LoopLemmas::raised_start, crate::proofs::LoopLemmas::raised_more))]
fn raise(counts: &mut Vec<u16>, places: &[u16; TABLE_PLACES])
    requires inside { All (λ place. place < length counts.old.items) places.now }
    requires named { All (λ place. 0 < get_or counts.old.items place 0) places.now }
    requires small { sum counts.old.items ≤ 4096 }
    ensures length { length counts.new.items ≡ length counts.old.items }
    ensures counted { (page : ℕ) → get_or counts.new.items page 0 ≡
        get_or counts.old.items page 0 + times_in page places.now }
    ensures total { sum counts.new.items ≡ sum counts.old.items + 256 }
    ensures zeros { count_by (λ count. count == 0) counts.new.items ≡ count_by (λ count. count == 0) counts.old.items }
{
    for place in places {
        counts[usize::from(*place)] += 1;
    }
}

// Counts one name less of each of these pages. A page that none names any more is free.
#[tactic(auto, using(crate::proofs::LoopLemmas::lowered_start, crate::proofs::LoopLemmas::count_there))]
fn lower(
    counts: &mut Vec<u16>,
    places: &[u16; TABLE_PLACES],
    free: &mut Vec<u16>,
    spare: usize,
) -> usize
    requires inside { All (λ place. place < length counts.old.items) places.now }
    requires counted { All (λ place. times_in place places.now ≤ get_or counts.old.items place 0) places.now }
    requires free { IsFree counts.old.items free.old.items spare }
    requires room { length counts.old.items ≤ length free.old.items }
    requires small { length free.old.items ≤ 4352 }
    ensures length { length counts.new.items ≡ length counts.old.items }
    ensures room { length free.new.items ≡ length free.old.items }
    ensures counted { (page : ℕ) → get_or counts.new.items page 0 + times_in page places.now ≡
        get_or counts.old.items page 0 }
    ensures total { sum counts.new.items + 256 ≡ sum counts.old.items }
    ensures free { IsFree counts.new.items free.new.items result }
{
    let mut spare = spare;
    for place in places {
        let page = usize::from(*place);
        let count = counts[page] - 1;
        counts[page] = count;
        if count == 0 {
            free[spare] = *place;
            spare += 1;
        }
    }
    spare
}
