//! The laws of the assembler, each the contract of a function that does nothing.
ghost use Rattle.asm_text.specs.Jumps.{JumpsReachLabels, LabelsAreEven};
ghost use Rattle.asm_text.specs.Laws.{JumpsLead};
ghost use Rattle.asm_text.specs.Places.{CodeIsWritten, WordsAreWritten};
ghost use Rattle.asm_text.specs.Sections.{SectionsAreLines};

/// Each jump of a source that is accepted leads to its label: the word at its place means a jump of its condition, from
/// there to the value of the symbol with that name, in the same section. Labels are even, and a jump's offset leads from
/// its place to any even address.
pub fn jumps_reach_labels()
    ensures jumps { JumpsReachLabels }
    ensures even { LabelsAreEven }
    ensures leads { JumpsLead }
{}

/// Each instruction of a source that is accepted has its words at its place in the unit, which is the end of what was
/// written before it in its section, with 0 for names, and they mean it; each `word` has its number there. A section's
/// bytes are those of its lines in their order, with nothing between them and nothing after.
pub fn lines_are_written()
    ensures code { CodeIsWritten }
    ensures words { WordsAreWritten }
    ensures sections { SectionsAreLines }
{}
