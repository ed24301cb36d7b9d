//! Laws of the definition of a layout, each the contract of a function that does nothing.
ghost use Rattle.std.specs.Prelude.{IfOk, MatchOption, AllPairs};
ghost use Rattle.mod_layout.specs.Table.{share_byte};
ghost use Rattle.layout_file.specs.Clashes.{first_clash};
ghost use Rattle.layout_file.specs.Layout.{LayoutOf};
ghost use Rattle.layout_file.specs.Overlaps.{ShareNoByte, IsFirstOverlap};
ghost use Rattle.layout_file.specs.Sound.{IsLayout};

use mod_layout::Section;

/// What the definition gives of a text keeps all that a layout keeps.
pub fn layouts_are_sound(bytes: &[u8])
    ensures sound { IfOk (LayoutOf bytes.now) IsLayout }
{
    let _ = bytes;
}

/// The two regions that the definition names are the lowest that share an address with an earlier one, and the lowest
/// such; where it names none, no two share an address.
pub fn overlaps_are_first(regions: &[Section])
    ensures lowest { MatchOption (first_clash share_byte regions.now) (AllPairs ShareNoByte regions.now)
        (IsFirstOverlap regions.now) }
{
    let _ = regions;
}
