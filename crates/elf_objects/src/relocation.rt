//! Relocations of loaded sections, and which are refused.

ghost use Rattle.std.specs.Prelude.{◌≡◌, ◌≤◌, ◌<◌, IfOk, IfErr, OnOk, Some, None, length, slice_get};
ghost use Rattle.std.specs.List.Sorted.{IsNonDecreasing, IsPartitionPoint};
ghost use Rattle.elf_objects.specs.Passes.{IsFaultOf};
ghost use Rattle.elf_objects.specs.Relocation.{relocation_of, entry_fault, relocation_fault, relocation_faults, relocations_at, relocations_of};
ghost use Rattle.elf_objects.specs.internal.Relocation.{count_below, ends_of, IsIn};
ghost use Rattle.elf_objects.specs.Header.{section_count};

use crate::bytes::long_at;
use crate::fault::ElfFault;
use crate::header::section_count;
use crate::object::Relocation;
use crate::passes::{first_below, refuse, refuse_if};
use crate::section::{Header, header_of, is_kept_table};
use crate::symbol::{count_of, symbols_header};
use std::alloc::{AllocError, Global};

#[tactic(auto, unfolding(crate::specs::Relocation::relocation_of))]
fn relocation_of(file: &[u8], index: u32, table: &Header, entry: u32) -> Relocation
    ensures { result ≡ relocation_of file.now index table.now entry }
{
    let at = table.offset as usize + 12 * entry as usize;
    let info = long_at(file, at + 4);
    Relocation {
        table: index,
        entry,
        target: table.info,
        offset: long_at(file, at),
        symbol: info / 256,
        kind: (info % 256) as u8,
        addend: long_at(file, at + 8).cast_signed(),
    }
}

#[tactic(auto, unfolding(crate::specs::Relocation::entry_fault))]
fn entry_fault(
    file: &[u8],
    symbols: u32,
    index: u32,
    table: &Header,
    entry: u32,
) -> Option<ElfFault>
    ensures { result ≡ entry_fault file.now symbols index table.now entry }
{
    let relocation = relocation_of(file, index, table, entry);
    let refused = !(relocation.symbol < symbols);
    refuse_if(
        refused,
        ElfFault::Relocation {
            section: u64::from(index),
            entry: u64::from(entry),
        },
    )
}

#[tactic(auto, unfolding(crate::specs::Relocation::relocation_fault))]
fn relocation_fault(file: &[u8], symbols: u32, i: u32) -> Option<ElfFault>
    ensures { result ≡ relocation_fault file.now symbols i }
{
    let h = header_of(file, i);
    if is_kept_table(file, &h) {
        first_below(h.size / 12, |k| entry_fault(file, symbols, i, &h, k))
    } else {
        None
    }
}

#[tactic(auto, unfolding(crate::specs::Relocation::relocation_faults))]
fn relocation_faults(file: &[u8]) -> Option<ElfFault>
    ensures { result ≡ relocation_faults file.now }
{
    let symbols = count_of(symbols_header(file));
    first_below(
        u32::from(section_count(file)),
        |i| relocation_fault(file, symbols, i),
    )
}

// How many relocations a section holds for a loaded one.
#[tactic(auto, using(crate::proofs::PlaceLemmas::length_at))]
fn count_at(file: &[u8], i: u32) -> u32
    ensures { result ≡ length (relocations_at file.now i) }
{
    let h = header_of(file, i);
    if is_kept_table(file, &h) {
        h.size / 12
    } else {
        0
    }
}

// How many relocations there are up to the end of each section.
#[tactic(auto, using(crate::proofs::PassLemmas::each_below_more, crate::proofs::PassLemmas::each_below_zero, crate::proofs::PlaceLemmas::count_more, crate::proofs::PlaceLemmas::count_zero), unfolding(crate::specs::internal::Relocation::ends_of))]
fn ends_of(alloc: Global, file: &[u8]) -> Result<Vec<usize>, AllocError>
    ensures { IfOk result (λ v. v.items ≡ ends_of file.now) }
{
    let mut ends = Vec::new(alloc);
    let mut end = 0;
    for i in 0..u32::from(section_count(file)) {
        end += count_at(file, i) as usize;
        ends.push(end)?;
    }
    Ok(ends)
}

/// How many relocations of loaded sections there are up to the end of each section. The relocations themselves stay in
/// the file: there can be very many more of them than the file has bytes.
pub fn read_ends(alloc: Global, file: &[u8]) -> Result<Vec<usize>, ElfFault>
    ensures sound { OnOk result (relocation_faults file.now ≡ None) }
    ensures ends { IfOk result (λ v. v.items ≡ ends_of file.now) }
    ensures refusal { IfErr result (IsFaultOf (relocation_faults file.now)) }
{
    refuse(relocation_faults(file))?;
    Ok(ends_of(alloc, file)?)
}

// The first section by whose end there are more relocations than this.
fn section_with(ends: &[usize], place: usize) -> usize
    requires { IsNonDecreasing ends.now }
    ensures { IsPartitionPoint (λ end. end ≤ place) (λ end. place < end) ends.now result }
{
    ends.partition_point(|end| *end <= place)
}

// The section whose table has the relocation at this place.
#[tactic(auto, using(crate::proofs::PlaceLemmas::is_in, crate::proofs::PlaceLemmas::ends_rise))]
fn table_with(file: &[u8], ends: &[usize], place: usize) -> u32
    requires ends { ends.now ≡ ends_of file.now }
    requires place { place < length (relocations_of file.now) }
    ensures { IsIn file.now result place }
{
    let section = section_with(ends, place);
    let _fewer_than_65536 = section_count(file);
    section as u32
}

// How many relocations there are before this section's.
#[tactic(auto, using(crate::proofs::PlaceLemmas::count_zero, crate::proofs::PlaceLemmas::end_before))]
fn count_before(ends: &[usize], section: u32, file: &[u8]) -> usize
    requires ends { ends.now ≡ ends_of file.now }
    requires section { section < section_count file.now }
    ensures { result ≡ count_below file.now section }
{
    if section == 0 {
        return 0;
    }
    ends[section as usize - 1]
}

/// The relocation at this place among those of all loaded sections.
#[tactic(auto, using(crate::proofs::PlaceLemmas::found_at))]
pub fn relocation_at(file: &[u8], ends: &[usize], place: usize) -> Relocation
    requires ends { ends.now ≡ ends_of file.now }
    requires place { place < length (relocations_of file.now) }
    ensures { slice_get (relocations_of file.now) place ≡ Some result }
{
    let section = table_with(file, ends, place);
    let table = header_of(file, section);
    let entry = place - count_before(ends, section, file);
    relocation_of(file, section, &table, entry as u32)
}
