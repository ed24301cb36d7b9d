//! The laws of linked images, the contract of a function that does nothing.
ghost use Rattle.linker.specs.Laws.{LinksIsImage, LinkedIsImage};

/// What objects link to is an image: full, of bytes, clear where the devices are, its table's ids from 1 on.
pub fn linked_is_image()
    ensures links { LinksIsImage }
    ensures image { LinkedIsImage }
{}
