//! Laws of linked images: when objects link, where everything lies, and what each byte is. Each is the contract of a
//! function that does nothing.
#![tactic(auto)]

ghost use Rattle.linker_laws.specs.Conditions.{LinksExactly};
ghost use Rattle.linker_laws.specs.Contents.{SectionBytes, FieldNumbers, StubBytes, TableWords, VectorWords, ZeroElsewhere};
ghost use Rattle.linker_laws.specs.Places.{ItemsLie, LiesInside, LieApart, LiesAligned};

/// Objects link exactly where seven conditions hold.
pub fn links_exactly()
    ensures { LinksExactly }
{}

/// Sections, commons, stubs, stacks and vectors lie apart, each inside its region and at a multiple of its alignment.
pub fn all_lies_apart()
    ensures items { ItemsLie }
    ensures inside { LiesInside }
    ensures apart { LieApart }
    ensures aligned { LiesAligned }
{}

/// Each byte of an image is a section's, a field's, a stub's or a vector's, as it is to be, or 0.
pub fn each_byte_is_given()
    ensures sections { SectionBytes }
    ensures fields { FieldNumbers }
    ensures stubs { StubBytes }
    ensures tables { TableWords }
    ensures vectors { VectorWords }
    ensures zeros { ZeroElsewhere }
{}
