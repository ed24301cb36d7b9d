//! The entry stubs and the vectors in the memory of the image.

ghost use Rattle.mod_layout.specs.declared.TheConstants.{FIRST_VECTOR};
ghost use Rattle.std.specs.Prelude.{◌≡◌, ◌≤◌, ◌<◌, ◌+◌, ◌*◌, ◌%◌, ℕ, length, map, flat_map, fold, IfOk, IfErr, OnOk, slice_index, string_bytes, All};
ghost use Rattle.layout_file.specs.Views.{module_value, vector_of};
ghost use Rattle.link_symbols.specs.Passes.{fold_at};
ghost use Rattle.linker.specs.internal.Room.{StubFits, StubsFit};
ghost use Rattle.linker.specs.internal.Resolved.{linking_by};
ghost use Rattle.linker.specs.Bytes.{word_bytes};
ghost use Rattle.linker.specs.Stubs.{word_named, put_stub, put_vector};
ghost use Rattle.entry_stubs.specs.Stub.{stub_words};
ghost use Rattle.linker.specs.Placement.{round_up, text_of, ram_of};
ghost use Rattle.link_symbols.specs.declared.fault.LinkFault.TheVariants as fault;

use crate::memory::{meaning_number, put};
use crate::place::{Placement, round_up};
use entry_stubs::stub;
use layout_file::{ModuleSpec, Section, VectorName};
use link_symbols::{LinkFault, Resolved};
use mod_layout::FIRST_VECTOR;
use std::alloc::{AllocError, Global};

/// The low word of what a name stands for.
fn word_named<'a>(resolved: &Resolved<'a>, addresses: &[u64], name: &'a [u8]) -> u16
    requires low { (k : ℕ) → slice_index addresses.now k ≤ 65536 }
    ensures { result ≡ word_named (linking_by resolved.now.objects addresses.now) name.entry.now }
{
    (meaning_number(addresses, resolved.stands_for(name)) % 65536) as u16
}

/// The bytes of words, the low byte first.
fn bytes_of(alloc: Global, words: &[u16]) -> Result<Vec<u8>, AllocError>
    ensures bytes { IfOk result (λ v. v.items ≡ flat_map word_bytes words.now) }
    ensures count { IfOk result (λ v. length v.items ≡ 2 * length words.now) }
{
    let mut bytes = Vec::new(alloc);
    for word in words {
        bytes.push((*word % 256) as u8)?;
        bytes.push((*word / 256) as u8)?;
    }
    Ok(bytes)
}

/// The low words of what a module's entries stand for.
fn words_of<'a>(
    alloc: Global,
    resolved: &Resolved<'a>,
    addresses: &[u64],
    entries: &'a [String],
) -> Result<Vec<u16>, AllocError>
    requires low { (k : ℕ) → slice_index addresses.now k ≤ 65536 }
    ensures words { IfOk result (λ v. v.items ≡ map (word_named (linking_by resolved.now.objects addresses.now)) (map
        string_bytes entries.entry.now)) }
    ensures count { IfOk result (λ v. length v.items ≡ length entries.entry.now) }
{
    let mut words = Vec::new(alloc);
    for entry in entries {
        words.push(word_named(resolved, addresses, entry.as_bytes()))?;
    }
    Ok(words)
}

/// The end of a module's section, which is even.
fn end_of(ends: &[u64], region: usize) -> u16
    requires region { region < length ends.now }
    requires low { slice_index ends.now region ≤ FIRST_VECTOR }
    ensures { result ≡ round_up 2 (slice_index ends.now region) }
{
    round_up(2, ends[region]) as u16
}

/// A module's text, up to the end of its code.
pub fn text_of(spec: &ModuleSpec, ends: &[u64], number: usize) -> Section
    requires number { 4 + 2 * number ≤ length ends.now }
    requires few { number < 32 }
    requires low { (r : ℕ) → slice_index ends.now r ≤ FIRST_VECTOR }
    ensures { result ≡ text_of (slice_index ends.now) number (module_value spec.now) }
{
    Section {
        start: spec.text.start,
        end: end_of(ends, 2 + 2 * number),
    }
}

/// A module's data, up to the end of its sections.
pub fn ram_of(spec: &ModuleSpec, ends: &[u64], number: usize) -> Section
    requires number { 4 + 2 * number ≤ length ends.now }
    requires few { number < 32 }
    requires low { (r : ℕ) → slice_index ends.now r ≤ FIRST_VECTOR }
    ensures { result ≡ ram_of (slice_index ends.now) number (module_value spec.now) }
{
    Section {
        start: spec.ram.start,
        end: end_of(ends, 3 + 2 * number),
    }
}

/// The bytes of a stub.
fn stub_bytes(
    alloc: Global,
    text: Section,
    ram: u16,
    stack: u16,
    entries: &[u16],
) -> Result<Vec<u8>, AllocError>
    requires some { 1 ≤ length entries.now }
    requires few { length entries.now ≤ 64 }
    requires even { stack % 2 ≡ 0 }
    requires data { ram + 4 + stack ≤ 65534 }
    requires room { text.start + 76 + 2 * length entries.now ≤ text.end }
    ensures bytes { IfOk result (λ v. v.items ≡ flat_map word_bytes (stub_words text ram stack entries.now)) }
    ensures count { IfOk result (λ v. length v.items ≡ 76 + 2 * length entries.now) }
{
    let words = stub(text, ram, stack, entries);
    bytes_of(alloc, words.as_slice())
}

#[tactic(auto, unfolding(crate::specs::Stubs::put_stub))]
fn put_stub<'a>(
    alloc: Global,
    memory: &mut [u8],
    resolved: &Resolved<'a>,
    placement: &Placement,
    spec: &'a ModuleSpec,
    number: usize,
) -> Result<(), LinkFault>
    requires low { (k : ℕ) → slice_index placement.now.addresses.items k ≤ 65536 }
    requires number { 4 + 2 * number ≤ length placement.now.ends.items }
    requires few { number < 32 }
    requires ends { (r : ℕ) → slice_index placement.now.ends.items r ≤ FIRST_VECTOR }
    requires full { length memory.old ≡ 65536 }
    requires fits { StubFits (slice_index placement.now.ends.items) number (module_value spec.now) }
    ensures put { OnOk result (memory.new ≡ put_stub (linking_by resolved.now.objects placement.now.addresses.items)
        (slice_index placement.now.ends.items) memory.old number (module_value spec.entry.now)) }
    ensures refusal { IfErr result (λ f. f ≡ fault.NoMemory) }
{
    let text = text_of(spec, placement.ends.as_slice(), number);
    let addresses = placement.addresses.as_slice();
    let Ok(words) = words_of(alloc, resolved, addresses, spec.entries.as_slice()) else {
        return Err(LinkFault::NoMemory);
    };
    let Ok(bytes) = stub_bytes(alloc, text, spec.ram.start, spec.stack, words.as_slice()) else {
        return Err(LinkFault::NoMemory);
    };
    put(memory, u64::from(text.start), bytes.as_slice());
    Ok(())
}

#[tactic(auto, using(link_symbols::proofs::Steps::fold_at_map_step, link_symbols::proofs::Steps::fold_at_map_end))]
pub fn put_stubs<'a>(
    alloc: Global,
    memory: &mut [u8],
    resolved: &Resolved<'a>,
    placement: &Placement,
    modules: &'a [ModuleSpec],
) -> Result<(), LinkFault>
    requires low { (k : ℕ) → slice_index placement.now.addresses.items k ≤ 65536 }
    requires count { 2 + 2 * length modules.now ≤ length placement.now.ends.items }
    requires few { length modules.now ≤ 32 }
    requires ends { (r : ℕ) → slice_index placement.now.ends.items r ≤ FIRST_VECTOR }
    requires full { length memory.old ≡ 65536 }
    requires fits { StubsFit (slice_index placement.now.ends.items) (map module_value modules.now) }
    ensures put { OnOk result (memory.new ≡ fold_at (put_stub (linking_by resolved.now.objects
        placement.now.addresses.items) (slice_index placement.now.ends.items)) memory.old 0 (map module_value
        modules.entry.now)) }
    ensures refusal { IfErr result (λ f. f ≡ fault.NoMemory) }
{
    for (number, spec) in modules.iter().enumerate() {
        if let Err(fault) = put_stub(alloc, memory, resolved, placement, spec, number) {
            return Err(fault);
        }
    }
    Ok(())
}

#[tactic(auto, unfolding(crate::specs::Stubs::put_vector))]
fn put_vector<'a>(
    memory: &mut [u8],
    resolved: &Resolved<'a>,
    addresses: &[u64],
    vector: &'a VectorName,
)
    requires low { (k : ℕ) → slice_index addresses.now k ≤ 65536 }
    requires full { length memory.old ≡ 65536 }
    requires vector { vector.now.vector < 16 }
    ensures { memory.new ≡ put_vector (linking_by resolved.now.objects addresses.now) memory.old (vector_of
        vector.entry.now) }
{
    let word = word_named(resolved, addresses, vector.name.as_bytes());
    let bytes = [(word % 256) as u8, (word / 256) as u8];
    put(
        memory,
        u64::from(FIRST_VECTOR) + 2 * u64::from(vector.vector),
        &bytes,
    );
}

#[tactic(auto, using(link_symbols::proofs::Steps::fold_map_step, link_symbols::proofs::Steps::fold_map_end))]
pub fn put_vectors<'a>(
    memory: &mut [u8],
    resolved: &Resolved<'a>,
    addresses: &[u64],
    vectors: &'a [VectorName],
)
    requires low { (k : ℕ) → slice_index addresses.now k ≤ 65536 }
    requires full { length memory.old ≡ 65536 }
    requires vectors { All (λ v. v.vector < 16) vectors.now }
    ensures { memory.new ≡ fold (put_vector (linking_by resolved.now.objects addresses.now)) memory.old (map vector_of
        vectors.entry.now) }
{
    for vector in vectors {
        put_vector(memory, resolved, addresses, vector);
    }
}
