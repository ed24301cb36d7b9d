//! The backup of an interrupted module.

ghost use Rattle.std.specs.Prelude.{◌≡◌, ℕ, List};
ghost use Rattle.reg_backup.specs.Saved.{is_close, closing_after, saved};

use sm_words::Core;

/// Whether the machine runs or pads.
#[derive(Clone, Copy, Debug, PartialEq, Eq)]
pub enum Phase {
    /// An instruction was begun, and so many cycles of it are left.
    Run { rest: u32 },
    /// A module was interrupted, and so many cycles of its padding are left.
    Pad { left: u8 },
}

/// What is settled when no cycle is left.
#[derive(Clone, Copy, Debug, PartialEq, Eq)]
pub enum After {
    /// Nothing but that the active module may be left.
    Next,
    /// The handler of an interrupted module starts.
    Handler,
    /// The module of the newest frame goes on.
    Resume,
    /// The active module closes.
    Close,
}

/// All of an interrupted module but its sections.
#[derive(Clone, Copy, Debug, PartialEq, Eq)]
pub struct Backup {
    /// The id of the module.
    pub module: u16,
    /// The id of the module that called it, or 0.
    pub caller: u16,
    /// Its registers.
    pub core: Core,
    /// The cycles of its instruction that have not passed.
    pub rest: u32,
    /// Whether it closes when they have passed.
    pub closing: bool,
}

/// The backup of a module that is interrupted with `rest` cycles of its instruction left, and `after`
/// to be settled when they have passed.
pub fn save(module: u16, caller: u16, core: &Core, rest: u32, after: After) -> Backup
    ensures id { result.module ≡ «module» }
    ensures caller { result.caller ≡ caller }
    ensures core { result.core ≡ core.now }
    ensures rest { result.rest ≡ rest }
    ensures closing { result.closing ≡ is_close after }
{
    Backup {
        module,
        caller,
        core: *core,
        rest,
        closing: after == After::Close,
    }
}

/// The registers with which a module goes on, the phase, and what is settled when the rest has passed:
/// `Close` where the module was closing, else `Next`.
pub fn resume(backup: &Backup) -> (Core, Phase, After)
    ensures core { result.0 ≡ backup.now.core }
    ensures phase { result.1 ≡ Phase.Run backup.now.rest }
    ensures after { result.2 ≡ closing_after backup.now.closing }
    // What `save` made is restored whole.
    ensures saved { (id caller rest : ℕ) (core : List ℕ) (after : After)
        → backup.now ≡ saved id caller core rest after
        → result ≡ (core, Phase.Run rest, closing_after (is_close after)) }
{
    let after = if backup.closing {
        After::Close
    } else {
        After::Next
    };
    (backup.core, Phase::Run { rest: backup.rest }, after)
}
