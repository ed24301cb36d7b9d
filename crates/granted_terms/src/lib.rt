//! The law of granted terms, the contract of a function that does nothing.
#![tactic(auto)]

ghost use Rattle.granted_terms.specs.Laws.{GreatestTerms};

/// Without certificates, where a text is accepted under some of the granted terms, so it is under those that are
/// offered, which have each of these public words and no other answer.
pub fn greatest()
    ensures greatest { GreatestTerms }
{}
