//! Names in a string table, and the sections with theirs.

ghost use Rattle.std.specs.Prelude.{◌≡◌, ◌<◌, ◌≤◌, ◌+◌, ◌^◌, length, IfOk, IfErr, OnOk, None, unwrap_or, max};
ghost use Rattle.std.specs.List.Sorted.{IsNonDecreasing, IsPartitionPoint};
ghost use Rattle.memchr.specs.Find.{is_byte, places};
ghost use Rattle.elf_objects.specs.Passes.{IsFaultOf};
ghost use Rattle.elf_objects.specs.internal.Names.{AreNameEnds, first_from};
ghost use Rattle.elf_objects.specs.Names.{names_header, name_fault, name_faults, section_of, sections_of};

use crate::fault::ElfFault;
use crate::header::{name_table, section_count};
use crate::object::{SectionHead, Span};
use crate::passes::{first_below, refuse, refuse_if};
use crate::section::{Header, header_of};
use memchr::memchr_iter;
use std::alloc::{AllocError, Global};

/// Where the names of a string table end: the offsets of its zeros, in rising order.
#[derive(Drop)]
pub struct Names {
    start: u32,
    size: u32,
    zeros: Vec<u32>,
}

fn zeros_in(alloc: Global, bytes: &[u8]) -> Result<Vec<u32>, AllocError>
    requires { length bytes.now < 2 ^ 32 }
    ensures { IfOk result (λ v. v.items ≡ places (is_byte 0) bytes.now) }
{
    let mut zeros = Vec::new(alloc);
    for place in memchr_iter(0, bytes) {
        zeros.push(place as u32)?;
    }
    Ok(zeros)
}

// How many of them are below an offset.
fn count_below(zeros: &[u32], offset: u32) -> usize
    requires { IsNonDecreasing zeros.now }
    ensures { IsPartitionPoint (λ zero. zero < offset) (λ zero. offset ≤ zero) zeros.now result }
{
    zeros.partition_point(|zero| *zero < offset)
}

// The first one that is not below an offset.
fn first_from(zeros: &[u32], offset: u32) -> Option<u32>
    requires { IsNonDecreasing zeros.now }
    ensures { result ≡ first_from zeros.now offset }
{
    zeros.get(count_below(zeros, offset)).copied()
}

impl Names {
    #[tactic(auto, using(crate::proofs::ZeroLemmas::rises, crate::proofs::ZeroLemmas::ends, crate::proofs::ZeroLemmas::spans), unfolding(crate::specs::Names::name_end))]
    pub fn of(alloc: Global, file: &[u8], strings: &Header) -> Result<Names, AllocError>
        ensures { IfOk result (AreNameEnds file.now strings.now) }
    {
        let content = strings.content(file);
        Ok(Names {
            start: strings.offset,
            size: content.len() as u32,
            zeros: zeros_in(alloc, content)?,
        })
    }

    /// Where the name at an offset ends, if it does: at the first 0 from there on.
    pub fn end(&self, offset: u32) -> Option<u32>
        requires { IsNonDecreasing self.now.zeros.items }
        ensures { result ≡ first_from self.now.zeros.items offset }
    {
        first_from(&self.zeros, offset)
    }

    /// The name's place in the file: the bytes before a 0.
    pub fn span(&self, offset: u32) -> Span
        requires { IsNonDecreasing self.now.zeros.items }
        ensures start { result.start ≡ self.now.start + offset }
        ensures end { result.end ≡ self.now.start + unwrap_or (first_from self.now.zeros.items offset)
            (max offset self.now.size) }
    {
        let start = self.start as usize;
        let end = self.end(offset).unwrap_or(offset.max(self.size));
        Span {
            start: start + offset as usize,
            end: start + end as usize,
        }
    }
}

fn names_header(file: &[u8]) -> Header
    ensures { result ≡ names_header file.now }
{
    header_of(file, u32::from(name_table(file)))
}

#[tactic(auto, unfolding(crate::specs::Names::name_fault))]
fn name_fault(file: &[u8], names: &Names, i: u32) -> Option<ElfFault>
    requires { AreNameEnds file.now (names_header file.now) names.now }
    ensures { result ≡ name_fault file.now i }
{
    let refused = names.end(header_of(file, i).name).is_none();
    refuse_if(
        refused,
        ElfFault::Name {
            index: u64::from(i),
        },
    )
}

#[tactic(auto, unfolding(crate::specs::Names::section_of))]
fn section_of(file: &[u8], names: &Names, i: u32) -> SectionHead
    requires { AreNameEnds file.now (names_header file.now) names.now }
    ensures { result ≡ section_of file.now i }
{
    let h = header_of(file, i);
    SectionHead {
        name: names.span(h.name),
        kind: h.kind,
        flags: h.flags,
        size: h.size,
        align: h.align,
        bytes: h.content_span(),
    }
}

#[tactic(auto, unfolding(crate::specs::Names::name_faults))]
fn name_faults(file: &[u8], names: &Names) -> Option<ElfFault>
    requires { AreNameEnds file.now (names_header file.now) names.now }
    ensures { result ≡ name_faults file.now }
{
    first_below(
        u32::from(section_count(file)),
        |i| name_fault(file, names, i),
    )
}

#[tactic(auto, using(crate::proofs::PassLemmas::each_below_more, crate::proofs::PassLemmas::each_below_zero), unfolding(crate::specs::Names::sections_of))]
fn sections_of(alloc: Global, file: &[u8], names: &Names) -> Result<Vec<SectionHead>, AllocError>
    requires { AreNameEnds file.now (names_header file.now) names.now }
    ensures { IfOk result (λ v. v.items ≡ sections_of file.now) }
{
    let mut sections = Vec::new(alloc);
    for i in 0..u32::from(section_count(file)) {
        sections.push(section_of(file, names, i))?;
    }
    Ok(sections)
}

/// The sections with their names.
pub fn read_sections(alloc: Global, file: &[u8]) -> Result<Vec<SectionHead>, ElfFault>
    ensures sound { OnOk result (name_faults file.now ≡ None) }
    ensures list { IfOk result (λ v. v.items ≡ sections_of file.now) }
    ensures refusal { IfErr result (IsFaultOf (name_faults file.now)) }
{
    let names = Names::of(alloc, file, &names_header(file))?;
    refuse(name_faults(file, &names))?;
    Ok(sections_of(alloc, file, &names)?)
}
