//! The decimals of the first lines.

ghost use Rattle.std.specs.Prelude.{◌≡◌, ◌≤◌, Some, IfSome};
ghost use Rattle.image_text.specs.Refusal.{announced_count as count_of_lem, version_refusal, Spot};

use crate::ImageFault;
use crate::lines::Line;
use mod_layout::DEVICES_END;
use texts::read_decimal;

/// The last version of at most nine decimal digits.
const MAX_VERSION: u64 = 999_999_999;

/// The address of the first row: what lies below belongs to the devices.
pub(crate) const FIRST_ROW: u16 = DEVICES_END;

/// Where a row before the first would lie.
pub(crate) const BEFORE_ROWS: u16 = FIRST_ROW - 16;

/// How many rows of 16 bytes there are from the first up to the end of memory.
pub(crate) const ROW_COUNT: usize = (65_536 - FIRST_ROW as usize) / 16;

/// How many modules a line of version 2 announces at most.
const MAX_COUNT: u64 = 32;

// What the rules say of them: a changed number is refused here.
const _: () = prove!(
    FIRST_ROW == 0x0200 && BEFORE_ROWS == 0x01f0 && MAX_COUNT == 32 && MAX_VERSION == 999_999_999
);

const _: () = prove!(ROW_COUNT == 4_064);

/// Why a first line is none of versions 1 and 2.
pub(crate) fn other_version(line: Line<'_>) -> ImageFault
    ensures { version_refusal record { number = line.entry.number; at = line.entry.at } line.entry.text.now ≡
        Some result }
{
    if line.text.starts_with(b"sancus-image ") {
        if let Some(n) = read_decimal(&line.text[13..], MAX_VERSION) {
            return ImageFault::Version { n };
        }
    }
    ImageFault::Line { n: line.number }
}

/// How many modules a line of version 2 announces.
pub(crate) fn announced_count(line: &[u8]) -> Option<u64>
    ensures { result ≡ count_of_lem line.now }
{
    if !line.starts_with(b"modules ") {
        return None;
    }
    read_decimal(&line[8..], MAX_COUNT)
}
