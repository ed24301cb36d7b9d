//! One unit instruction.

ghost use Rattle.std.specs.Prelude.{◌≡◌, ◌+◌, ◌<◌, ◌^◌, ◌&&◌, ℕ, List, Some, None, false, if◌then◌else◌, IfOk, IfErr, OnErr, OnOk, IfSome, is_some};
ghost use Rattle.std.specs.Option.{option_map_or};
ghost use Rattle.sm_words.specs.Words.{put};
ghost use Rattle.mod_layout.specs.Table.{place_of};
ghost use Rattle.mod_layout.specs.Tables.{IsModule, IsTable};
ghost use Rattle.mod_layout.specs.First.{first_in};
ghost use Rattle.pc_access.specs.Rights.{right};
ghost use Rattle.attest.specs.Units.{Attest, CallerId, IdOf, OwnId, Protect, Tag, Unprotect, blocks, in_range, new_ram, new_text, text_at, unit_plan};
ghost use Rattle.attest.specs.Done.{IsDone, doer};
ghost use Rattle.mem_map.specs.Contents.{SameMarks};

use crate::hash::{identity_tag, message_tag};
use crate::memory::{stands_at, store};
use crate::rights::{check, in_range};
use crate::{UnitDone, Who};
use insn_decode::UnitName;
use mem_map::Memory;
use mod_keys::IDENTITY_TAIL;
use mod_layout::{Module, ModuleTable, Place, Section};
use pc_access::{Denied, Kind};
use sm_words::Core;

/// The cycles of a unit instruction that hashes nothing.
pub const SHORT_CYCLES: u32 = 6;

/// The cycles that each block hashed adds.
pub const BLOCK_CYCLES: u32 = 64;

// What the rules say of them: a changed number is refused here.
const _: () = prove!(BLOCK_CYCLES == 64 && SHORT_CYCLES == 6);

/// The bytes of a module's identity past its text.
const TAIL: u32 = IDENTITY_TAIL as u32;

/// Does a unit instruction, but that PC stays and that closing is left to the caller.
///
/// Its accesses are checked byte by byte, in order, before anything is changed. A refusal comes exactly
/// where one of them is refused, and then nothing is changed.
pub fn unit(
    name: UnitName,
    core: &mut Core,
    memory: &mut Memory,
    table: &mut ModuleTable,
    who: Who,
    node_key: &[u8; 16],
) -> Result<UnitDone, Denied>
    // By the first of its accesses that is refused, whatever modules wait in frames.
    ensures denied { IfErr result (λ denied. (held : List ℕ) → first_in (right table.old who.active held)
        (unit_plan (doer table.old who node_key.now) name core.old) ≡ Some denied) }
    ensures allowed { OnOk result ((held : List ℕ) → first_in (right table.old who.active held)
        (unit_plan (doer table.old who node_key.now) name core.old) ≡ None) }

    // Done, all is as the effect says; refused, nothing is changed.
    ensures done { IfOk result (λ done. IsDone (doer table.old who node_key.now) name
        core.old memory.old.bytes core.new memory.new.bytes table.new done) }
    ensures core_kept { OnErr result (core.new ≡ core.old) }
    ensures memory_kept { OnErr result (memory.new ≡ memory.old) }
    ensures marks_kept { SameMarks memory.old memory.new }
    ensures table_kept { OnErr result (table.new ≡ table.old) }
{
    match name {
        UnitName::Unprotect => Ok(unprotect(core, table, who)),
        UnitName::Protect => Ok(protect(core, memory, table, who)),
        UnitName::Attest => attest(core, memory, table, who, node_key),
        UnitName::Tag => tag(core, memory, table, who, node_key),
        UnitName::IdOf => Ok(id_of(core, table, who)),
        UnitName::OwnId => Ok(own_id(core, table, who)),
        UnitName::CallerId => Ok(caller_id(core, table, who)),
    }
}

/// Inside: the module closes after its last cycle. Outside: R15 is 0.
fn unprotect(core: &mut Core, table: &ModuleTable, who: Who) -> UnitDone
    ensures { (key mem : List ℕ) →
        IsDone (doer table.now who key) Unprotect core.old mem core.new mem table.now result }
{
    match table.own(who.active) {
        None => answer(core, 0, SHORT_CYCLES),
        Some(own) => UnitDone {
            cycles: SHORT_CYCLES + u32::from(own.ram.len()) / 2,
            closing: true,
            made: 0,
        },
    }
}

/// A new module of vendor R11 with the text from R12 to R13 and the data from R14 to R15, which are
/// cleared. R15 is its id, or 0 where the table refuses it. No access of it is ever refused, since its
/// data lie outside all modules.
fn protect(core: &mut Core, memory: &mut Memory, table: &mut ModuleTable, who: Who) -> UnitDone
    ensures allowed { (key held : List ℕ) → first_in (right table.old who.active held)
        (unit_plan (doer table.old who key) Protect core.old) ≡ None }
    ensures done { (key : List ℕ) → IsDone (doer table.old who key) Protect
        core.old memory.old.bytes core.new memory.new.bytes table.new result }
    ensures marks { SameMarks memory.old memory.new }
{
    let text = new_text(core);
    let ram = new_ram(core);
    match table.add(core.get(11), text, ram) {
        Err(_) => answer(core, 0, SHORT_CYCLES),
        Ok(id) => {
            memory.clear(ram);
            let length = u32::from(text.len());
            let done = answer(
                core,
                id,
                SHORT_CYCLES + BLOCK_CYCLES * (hmac_blocks(2) + hmac_blocks(length + TAIL)),
            );
            UnitDone { made: id, ..done }
        }
    }
}

/// The text section that R12 and R13 give.
fn new_text(core: &Core) -> Section
    ensures { result ≡ new_text core.now }
{
    Section {
        start: core.get(12),
        end: core.get(13),
    }
}

/// The data section that R14 and R15 give.
fn new_ram(core: &Core) -> Section
    ensures { result ≡ new_ram core.now }
{
    Section {
        start: core.get(14),
        end: core.get(15),
    }
}

/// R15 is the id of the module in whose text R12 is, where the 16 bytes at R13 are the tag of its identity
/// under the running module's key, else 0.
fn attest(
    core: &mut Core,
    memory: &Memory,
    table: &ModuleTable,
    who: Who,
    node_key: &[u8; 16],
) -> Result<UnitDone, Denied>
    ensures denied { IfErr result (λ denied. (held : List ℕ) → first_in (right table.now who.active held)
        (unit_plan (doer table.now who node_key.now) Attest core.old) ≡ Some denied) }
    ensures allowed { OnOk result ((held : List ℕ) → first_in (right table.now who.active held)
        (unit_plan (doer table.now who node_key.now) Attest core.old) ≡ None) }
    ensures done { IfOk result (λ done. IsDone (doer table.now who node_key.now) Attest
        core.old memory.now.bytes core.new memory.now.bytes table.now done) }
    ensures core_kept { OnErr result (core.new ≡ core.old) }
{
    let expected = core.get(13);
    let Some(own) = table.own(who.active) else {
        return Ok(answer(core, 0, SHORT_CYCLES));
    };
    let Some(other) = text_module(table, core.get(12)) else {
        return Ok(answer(core, 0, SHORT_CYCLES));
    };
    if !in_range(u32::from(expected), u32::from(expected) + 16) {
        return Ok(answer(core, 0, SHORT_CYCLES));
    }
    if let Err(denied) = check(table, who.active, Kind::Read, expected, 16) {
        return Err(denied);
    }
    let tag = identity_tag(memory, node_key, &own, &other);
    let id = id_if(stands_at(memory, expected, &tag), other.id);
    let length = u32::from(other.text.len());
    Ok(answer(
        core,
        id,
        SHORT_CYCLES + BLOCK_CYCLES * hmac_blocks(length + TAIL),
    ))
}

/// The tag of the bytes from R12 to R13 under the running module's key is written at R14, and R15 is 1.
fn tag(
    core: &mut Core,
    memory: &mut Memory,
    table: &ModuleTable,
    who: Who,
    node_key: &[u8; 16],
) -> Result<UnitDone, Denied>
    ensures denied { IfErr result (λ denied. (held : List ℕ) → first_in (right table.now who.active held)
        (unit_plan (doer table.now who node_key.now) Tag core.old) ≡ Some denied) }
    ensures allowed { OnOk result ((held : List ℕ) → first_in (right table.now who.active held)
        (unit_plan (doer table.now who node_key.now) Tag core.old) ≡ None) }
    ensures done { IfOk result (λ done. IsDone (doer table.now who node_key.now) Tag
        core.old memory.old.bytes core.new memory.new.bytes table.now done) }
    ensures core_kept { OnErr result (core.new ≡ core.old) }
    ensures memory_kept { OnErr result (memory.new ≡ memory.old) }
    ensures marks { SameMarks memory.old memory.new }
{
    let start = core.get(12);
    let end = core.get(13);
    let output = core.get(14);
    let Some(own) = table.own(who.active) else {
        return Ok(answer(core, 0, SHORT_CYCLES));
    };
    if !has_ranges(start, end, output) {
        return Ok(answer(core, 0, SHORT_CYCLES));
    }
    if let Err(denied) = check(table, who.active, Kind::Read, start, end - start) {
        return Err(denied);
    }
    if let Err(denied) = check(table, who.active, Kind::Write, output, 16) {
        return Err(denied);
    }
    let tag = message_tag(memory, node_key, &own, start, end);
    store(memory, output, &tag);
    Ok(answer(
        core,
        1,
        SHORT_CYCLES + BLOCK_CYCLES * hmac_blocks(u32::from(end - start)),
    ))
}

/// Whether the message and the 16 bytes of output can be accessed.
fn has_ranges(start: u16, end: u16, output: u16) -> bool
    ensures { result ≡ in_range start end && in_range output (output + 16) }
{
    in_range(u32::from(start), u32::from(end))
        && in_range(u32::from(output), u32::from(output) + 16)
}

/// R15 is the id of the module whose text or data holds R12, else 0.
fn id_of(core: &mut Core, table: &ModuleTable, who: Who) -> UnitDone
    ensures { (key mem : List ℕ) → IsDone (doer table.now who key) IdOf core.old mem core.new mem table.now result }
{
    let place = table.at(core.get(12));
    answer(core, place.id(), SHORT_CYCLES)
}

/// R15 is the active module's id, else 0.
fn own_id(core: &mut Core, table: &ModuleTable, who: Who) -> UnitDone
    ensures { (key mem : List ℕ) →
        IsDone (doer table.now who key) OwnId core.old mem core.new mem table.now result }
{
    let own = table.own(who.active);
    answer(core, id_or_zero(own), SHORT_CYCLES)
}

/// R15 is the id of the active module's caller; outside 0.
fn caller_id(core: &mut Core, table: &ModuleTable, who: Who) -> UnitDone
    ensures { (key mem : List ℕ) →
        IsDone (doer table.now who key) CallerId core.old mem core.new mem table.now result }
{
    let own = table.own(who.active);
    answer(core, caller_or_zero(own, who.caller), SHORT_CYCLES)
}

fn id_or_zero(own: Option<Module>) -> u16
    ensures { result ≡ option_map_or (λ m. m.id) own 0 }
{
    match own {
        None => 0,
        Some(module) => module.id,
    }
}

fn caller_or_zero(own: Option<Module>, caller: u16) -> u16
    ensures { result ≡ (if is_some own then caller else 0) }
{
    match own {
        None => 0,
        Some(_) => caller,
    }
}

fn id_if(genuine: bool, id: u16) -> u16
    ensures { result ≡ (if genuine then id else 0) }
{
    if genuine { id } else { 0 }
}

/// Writes R15; the rest of a core but PC stays.
fn answer(core: &mut Core, value: u16, cycles: u32) -> UnitDone
    ensures core { core.new ≡ put core.old 15 value }
    ensures done { result ≡ record { cycles = cycles; closing = false; made = 0 } }
{
    core.put(15, value);
    UnitDone {
        cycles,
        closing: false,
        made: 0,
    }
}

/// The module whose text holds an address.
fn text_module(table: &ModuleTable, addr: u16) -> Option<Module>
    ensures text { result ≡ text_at table.now (place_of table.now addr) }
    ensures kept { IfSome result (IsModule table.now.given) }
    ensures table { IsTable table.now }
{
    match table.at(addr) {
        Place::Entry(id) | Place::Text(id) => table.get(id).copied(),
        Place::Open | Place::Data(_) => None,
    }
}

/// The blocks of SHA-256 in a HMAC over so many bytes under a key of 16.
pub fn hmac_blocks(length: u32) -> u32
    requires short { length < 2 ^ 20 }
    ensures { result ≡ blocks length }
{
    3 + (length + 72) / 64
}
