//! `link LAYOUT OBJ..`: the text of the image that objects link to.
ghost use Rattle.sm_cli.specs.LinkCommand.{linked_image_text};

use cli_calls::ObjectsText;
use cli_files::{NO_MEMORY, Refused, linked_image};
use elf_objects::Object;
use layout_file::Layout;
use std::alloc::Global;

/// The text of their image.
#[derive(Clone, Copy)]
pub struct ImageText;

impl ObjectsText for ImageText {
    ghost written = { linked_image_text };

    fn write<'a>(
        alloc: Global,
        layout: &Layout,
        objects: &[Object],
    ) -> Result<Vec<u8>, Refused<'a>> {
        let image = match linked_image(alloc, layout, objects) {
            Ok(image) => image,
            Err(refused) => return Err(refused),
        };
        match image_text::write(alloc, &image) {
            Ok(text) => Ok(text),
            Err(_) => Err(NO_MEMORY),
        }
    }
}
