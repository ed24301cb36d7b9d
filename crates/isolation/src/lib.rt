//! The laws of the written machine: what a module's call costs and leaves, whatever interrupts it, and that
//! the outside can't tell two images apart that differ in one confined module's data alone.
//!
//! Each law is what a function here ensures; `specs/Laws.antt` states them in words.
#![tactic(auto)]

ghost use Rattle.isolation.specs.Laws.{SameViews, SameEvents, SamePhases, SameCallers, SameGie, SameOnceGone, SameTraces, SameLines, SameEnds, SameOutsideViews, SameStanding, SamePlays, SameLeads, ViewsWhile, EventsWhile, CallersWhile, GieWhile, PhasesWhile, TracesWhile, EndsAlike, AnswersAlone, ViewsOfTwo, TracesOfTwo, EnteredIsKnown, Transparency, Cost};

/// Two runs of peers are seen alike by all but the one module, and tell the same, in every cycle of every schedule.
pub fn two_runs()
    ensures views { SameViews }
    ensures events { SameEvents }
    ensures phases { SamePhases }
    ensures callers { SameCallers }
    ensures interrupts { SameGie }
    ensures gone { SameOnceGone }
{}

/// Peers have one trace, whole and from any cycle on, and show a script the same.
pub fn texts()
    ensures traces { SameTraces }
    ensures lines { SameLines }
    ensures ends { SameEnds }
    ensures outside { SameOutsideViews }
    ensures stands { SameStanding }
    ensures scripts { SamePlays }
    ensures leads { SameLeads }
{}

/// Two images that no lone calls of the module tell apart but by its answers run alike until one of its calls ends with
/// another answer. It then ends in both in the same cycle, at the same place, with all other registers equal.
pub fn released()
    ensures views { ViewsWhile }
    ensures events { EventsWhile }
    ensures callers { CallersWhile }
    ensures interrupts { GieWhile }
    ensures phases { PhasesWhile }
    ensures traces { TracesWhile }
    ensures ends { EndsAlike }
    ensures registers { AnswersAlone }
    ensures views_of_two { ViewsOfTwo }
    ensures traces_of_two { TracesOfTwo }
{}

/// A module that is interrupted does what it does by itself.
pub fn transparency()
    ensures owner { EnteredIsKnown }
    ensures stands { Transparency }
{}

/// A call takes its own cycles, and those between its hides and its resumes.
pub fn cost()
    ensures cycles { Cost }
{}
