//! The laws of the text of terms, the contracts of functions that do nothing.

ghost use Rattle.terms_file.specs.Laws.{AnswersMayBe, AreReadBack};

/// A text of terms names registers alone in which a call may answer: never PC, by which it leaves.
pub fn terms_name_answers()
    ensures registers { AnswersMayBe }
{}

/// Some of the terms of a text, in their order, are read back from the text that says them.
pub fn terms_are_read_back()
    ensures read { AreReadBack }
{}
