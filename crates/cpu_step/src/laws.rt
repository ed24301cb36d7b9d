//! Laws of a module by itself, each the contract of a function that does nothing.

ghost use Rattle.cpu_step.specs.LoneLaws.{OneEnd};

/// How a call ends, said by where the module by itself stands after that many cycles and in none before: that is its
/// outcome, and nothing else is.
pub fn outcomes()
    ensures end { OneEnd }
{}
