//! The laws of the rule of flow: a text that it accepts is even for every two data.
#![tactic(auto)]

ghost use Rattle.flow_laws.specs.Loop.{LoopComplete};
ghost use Rattle.flow_laws.specs.Laws.{Evenness, Released, Kept, UnrolledReleased, UnrolledKept, Delimited};

/// Where the verdict is yes, whatever the certificates, no list of calls tells two data apart, under any key.
pub fn evenness()
    ensures even { Evenness }
{}

/// Where the verdict is yes under terms, no list of calls tells two data apart that agree on the public words, but by
/// the answers; and each call leaves data that agree on them, whatever its answers are.
pub fn released()
    ensures even { Released }
    ensures kept { Kept }
{}

/// The same where the text is unrolled under terms.
pub fn unrolled()
    ensures even { UnrolledReleased }
    ensures kept { UnrolledKept }
{}

/// A counted loop is explored to its end.
pub fn counted_loop()
    ensures complete { LoopComplete }
{}

/// Under releases two runs end alike, unless a released value differs.
pub fn delimited()
    ensures told { Delimited }
{}
