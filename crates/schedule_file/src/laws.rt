//! The law of entries, the contract of a function that does nothing.
ghost use Rattle.schedule_file.specs.Laws.{EntriesAreRead};

/// An entry has one text, which is read as that entry, and no other line is.
pub fn one_line_an_entry()
    ensures read { EntriesAreRead }
{}
