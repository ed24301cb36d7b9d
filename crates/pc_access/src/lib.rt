//! Rights: which access from where is refused, by which rule.
#![tactic(auto)]

ghost use Rattle.std.specs.Prelude.{◌≡◌, OnOk, IfErr, IsOk, ◌↔◌, Some, None};
ghost use Rattle.mod_layout.specs.Table.{place_of};
ghost use Rattle.pc_access.specs.Rights as spec;
ghost use Rattle.pc_access.specs.Rights.{misaligned, right, right_at, access_of, IsRightful};

use mod_layout::{DEVICES_END, ModuleTable, Place};
use sm_words::Width;

/// What an access does.
#[derive(Clone, Copy, Debug, Default, PartialEq, Eq)]
pub enum Kind {
    /// An instruction starts there.
    Fetch,
    #[default]
    Read,
    Write,
}

/// One access to memory.
#[derive(Clone, Copy, Debug, Default, PartialEq, Eq)]
pub struct Access {
    pub kind: Kind,
    pub addr: u16,
    pub width: Width,
}

/// Why the machine stops.
#[derive(Clone, Copy, Debug, PartialEq, Eq)]
pub enum Rule {
    /// An instruction starts in a text, past its entry word, and that module is not active.
    FetchNotEntry,
    /// An instruction starts in a data section.
    FetchData,
    /// A read of a data section whose module is not active.
    ReadData,
    /// A write to a data section whose module is not active.
    WriteData,
    /// A write to any text, also the module's own.
    WriteText,
    /// An instruction starts at the entry of a module that is held.
    Reenter,
    /// RETI while a module is active.
    RetiInside,
    /// A later word of an instruction lies past 0xFFFF, or in another place than its first word.
    Straddle,
    /// A word access at an odd address.
    Misaligned,
    /// The first word is no instruction.
    Illegal,
    /// An instruction starts among the devices.
    FetchDevice,
}

/// A refused access.
#[derive(Clone, Copy, Debug, PartialEq, Eq)]
pub struct Denied {
    pub rule: Rule,
    pub addr: u16,
    /// The id of the module whose section is concerned, or 0.
    pub module: u16,
}

/// Why and where the machine stopped.
#[derive(Clone, Copy, Debug, PartialEq, Eq)]
pub struct Stop {
    pub rule: Rule,
    /// The address of the instruction.
    pub pc: u16,
    /// The address of the access; that of the instruction for RetiInside, Straddle and Illegal.
    pub addr: u16,
    /// The id of the module whose section is concerned, or 0.
    pub module: u16,
}

/// Whether an access is allowed, from the text of the active module or from outside all texts.
///
/// `held` has the ids of the modules that wait in frames; it matters to the rule `Reenter` alone.
pub fn allowed(
    table: &ModuleTable,
    active: Option<u16>,
    kind: Kind,
    addr: u16,
    width: Width,
    held: &[u16],
) -> Result<(), Denied>
    // Exactly as the rules say, with the rule, the address and the module.
    ensures allowed { OnOk result (right table.now active held.now (access_of kind addr width) ≡ None) }
    ensures denied { IfErr result (λ denied.
        right table.now active held.now (access_of kind addr width) ≡ Some denied) }

    // And so exactly where the table of rights refuses one of the bytes, or the access is misaligned or barred.
    ensures rights { IsOk result ↔ IsRightful table.now active held.now (access_of kind addr width) }
{
    if breaks_alignment(kind, addr, width) {
        return Err(Denied {
            rule: Rule::Misaligned,
            addr,
            module: 0,
        });
    }
    match refusal(table.at(addr), active, kind, addr, held) {
        None => Ok(()),
        Some(denied) => Err(denied),
    }
}

// Whether a read or a write is a word at an odd address.
fn breaks_alignment(kind: Kind, addr: u16, width: Width) -> bool
    ensures { result ≡ spec.is_misaligned (access_of kind addr width) }
{
    match kind {
        Kind::Fetch => false,
        Kind::Read | Kind::Write => is_misaligned(width, addr),
    }
}

/// Whether an access of this width at this address is a word at an odd address.
pub fn is_misaligned(width: Width, addr: u16) -> bool
    ensures { result ≡ misaligned width addr }
{
    width == Width::Word && addr % 2 != 0
}

// Why an access at a place is refused, alignment apart.
fn refusal(place: Place, active: Option<u16>, kind: Kind, addr: u16, held: &[u16]) -> Option<Denied>
    ensures { result ≡ right_at place active held.now kind addr }
{
    match kind {
        Kind::Fetch => match place {
            Place::Open => refuse_if(addr < DEVICES_END, Rule::FetchDevice, addr, 0),
            Place::Entry(id) => refuse_if(held.contains(&id), Rule::Reenter, addr, id),
            Place::Text(id) => refuse_if(active != Some(id), Rule::FetchNotEntry, addr, id),
            Place::Data(id) => refuse_if(true, Rule::FetchData, addr, id),
        },
        Kind::Read => match place {
            Place::Open | Place::Entry(_) | Place::Text(_) => None,
            Place::Data(id) => refuse_if(active != Some(id), Rule::ReadData, addr, id),
        },
        Kind::Write => match place {
            Place::Open => None,
            Place::Entry(id) | Place::Text(id) => refuse_if(true, Rule::WriteText, addr, id),
            Place::Data(id) => refuse_if(active != Some(id), Rule::WriteData, addr, id),
        },
    }
}

fn refuse_if(refused: bool, rule: Rule, addr: u16, module: u16) -> Option<Denied>
    ensures { result ≡ spec.refuse_if refused rule addr «module» }
{
    if refused {
        Some(Denied { rule, addr, module })
    } else {
        None
    }
}
