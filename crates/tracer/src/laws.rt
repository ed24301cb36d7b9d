//! The law of the trace's lines, the contract of a function that does nothing.
ghost use Rattle.tracer.specs.Laws.{LinesAreTold};

/// The line of an event is told from that of every other.
pub fn lines_are_told()
    ensures told { LinesAreTold }
{}
