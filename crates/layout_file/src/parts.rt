//! The parts of a layout.

use mod_layout::Section;

/// The symbol that an interrupt vector names.
#[derive(Debug, Drop)]
pub struct VectorName {
    /// The vector's number, 0 to 15.
    pub vector: u8,
    /// The symbol's name.
    pub name: String,
}

/// A protected module of a layout.
#[derive(Debug, Drop)]
pub struct ModuleSpec {
    /// 1 to 32 letters, digits and `_`.
    pub name: String,
    /// The number of the vendor that the module's keys are derived for.
    pub vendor: u16,
    /// Where the module's code goes.
    pub text: Section,
    /// Where the module's data go.
    pub ram: Section,
    /// The bytes of its own stack, 2 to 32,768 and even.
    pub stack: u16,
    /// The names of its 1 to 64 entries.
    pub entries: Vec<String>,
    /// When the module is protected: modules get their ids in rising `boot`. In a layout of version 1 its
    /// number plus 1.
    pub boot: u16,
}
