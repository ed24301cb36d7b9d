//! `map LAYOUT OBJ..`: where everything stands in the image that objects link to.
ghost use Rattle.link_map.specs.Map.{map_text};

use cli_calls::ObjectsText;
use cli_files::{Refused, unlinked};
use elf_objects::Object;
use layout_file::Layout;
use std::alloc::Global;

/// The map of their image.
#[derive(Clone, Copy)]
pub struct MapText;

impl ObjectsText for MapText {
    ghost written = { map_text };

    fn write<'a>(
        alloc: Global,
        layout: &Layout,
        objects: &[Object],
    ) -> Result<Vec<u8>, Refused<'a>> {
        match link_map::map_of(alloc, layout, objects) {
            Ok(text) => Ok(text),
            Err(fault) => Err(unlinked(alloc, layout, objects, fault)),
        }
    }
}
