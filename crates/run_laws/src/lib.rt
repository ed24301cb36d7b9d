//! The laws of a run of the written machine: when a handler begins, what every state keeps, which cycles may pass at once, and
//! what a cycle tells.
#![tactic(auto)]

ghost use Rattle.run_laws.specs.Laws.{HandlerAfterHide, HideBeforeHandler, Numbered, CoreKept, MemoryFull, MemoryBytes, TableKept, ModuleOnce, FramesFew, Passing, EventsFew, StopTold, StopRefused, TextReadable, ZerosWritable};

/// A handler begins exactly 12 cycles after a module was hidden.
pub fn handlers()
    ensures after { HandlerAfterHide }
    ensures before { HideBeforeHandler }
{}

/// What every state of a run keeps.
pub fn states()
    ensures number { Numbered }
    ensures core { CoreKept }
    ensures full { MemoryFull }
    ensures bytes { MemoryBytes }
    ensures table { TableKept }
    ensures once { ModuleOnce }
    ensures few { FramesFew }
{}

/// Cycles of padding, of the rest of an instruction and of sleep may pass at once.
pub fn passing()
    ensures leads { Passing }
{}

/// A cycle tells at most four events, and of a stop exactly where it stops, which is where a check is refused.
pub fn tells()
    ensures few { EventsFew }
    ensures stop { StopTold }
    ensures refused { StopRefused }
{}

/// What no one is refused.
pub fn unrefused()
    ensures texts { TextReadable }
    ensures zeros { ZerosWritable }
{}
