//! The law of lines, the contract of a function that does nothing.
ghost use Rattle.script_file.specs.Laws.{ScriptLinesAreRead};

/// A line of a script whose numbers are in their bounds has one text, which is read as that line, and no other text is.
pub fn one_text_a_line()
    ensures read { ScriptLinesAreRead }
{}
