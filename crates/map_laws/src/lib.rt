//! Laws of maps. Each is the contract of a function that does nothing.
#![tactic(auto)]

ghost use Rattle.map_laws.specs.Laws.{PartsAreSections, PartsRise, PartBytes, EntryWords, VectorLines};

/// The parts of a map are the loaded sections that have bytes, in rising address, and their bytes are those of the
/// image but for fields.
pub fn parts_are_sections()
    ensures parts { PartsAreSections }
    ensures rising { PartsRise }
    ensures bytes { PartBytes }
{
    linker_laws::each_byte_is_given();
}

/// The address in the line of an entry or a vector is what its name stands for.
pub fn words_are_names()
    ensures entries { EntryWords }
    ensures vectors { VectorLines }
{
    linker_laws::each_byte_is_given();
}
