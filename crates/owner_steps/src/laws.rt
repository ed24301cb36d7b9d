//! The law of steps, the contract of a function that does nothing.
ghost use Rattle.owner_steps.specs.Laws.{TraceIsThere};

/// The lines of the trace stand in the text of a run, in their order.
pub fn trace_is_there()
    ensures there { TraceIsThere }
{}
