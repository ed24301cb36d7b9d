//! The laws of an image's text, each the contract of a function that does nothing.

ghost use Rattle.image_text.specs.Laws.{Accepted, Alone, ReadsBack, Complete};

/// An image has one text: it is not refused, no other image has it, and what is written is read back.
pub fn one_text()
    ensures accepted { Accepted }
    ensures alone { Alone }
    ensures reads_back { ReadsBack }
{}

/// Bytes are refused, or are some image's text.
pub fn every_text()
    ensures complete { Complete }
{}
