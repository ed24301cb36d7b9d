//! A layout as a value.
ghost use Rattle.layout_file.specs.Sound.{IsLayout};
ghost use Rattle.layout_file.specs.Views.{vectors_of, modules_of};

use crate::parts::{ModuleSpec, VectorName};
use mod_layout::Section;

/// Where the parts of an image go.
///
/// Each number is within its bounds, no two regions share a byte, and no two modules have one name or one boot.
#[derive(Debug, Drop)]
pub struct Layout {
    /// How many modules it may have: 8 in version 1 and 32 in version 2.
    pub room: u16,
    /// The node's key.
    pub key: [u8; 16],
    /// Where the stack of the interrupt handler starts, even.
    pub handler_sp: u16,
    /// Where the code outside all modules goes.
    pub text: Section,
    /// Where the data outside all modules go.
    pub ram: Section,
    /// The symbols of the interrupt vectors, in rising order of the vector.
    pub vectors: Vec<VectorName>,
    /// The modules in the order of the file, which numbers them from 0.
    pub modules: Vec<ModuleSpec>,
    pub ghost sound: { IsLayout (record {
      room = room;
      key = key;
      handler_sp = handler_sp;
      text = text;
      ram = ram;
      vectors = vectors_of vectors;
      modules = modules_of modules;
    }) },
}
