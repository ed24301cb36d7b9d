//! What a symbol says of itself.

ghost use Rattle.std.specs.Prelude.{◌≡◌, ◌≤◌, ◌^◌, length};
ghost use Rattle.elf_objects.specs.Object.{IsSymbol, IsHome};
ghost use Rattle.link_symbols.specs.Passes.{NumberedObject};
ghost use Rattle.link_symbols.specs.Passes.{numbered_object};
ghost use Rattle.link_symbols.specs.Symbols.{what_at, named_symbol};
ghost use Rattle.link_symbols.specs.internal.Values.{named_value};
ghost use Rattle.link_symbols.specs.Definitions.{definition_of};

use elf_objects::{Binding, Home, Object, Symbol};

/// What a name or a symbol stands for: a number, or a place so many bytes from the start of an item.
#[derive(Clone, Copy, Debug, PartialEq, Eq)]
pub enum Meaning {
    Number(u32),
    Place { item: u32, offset: u32 },
}

/// What a symbol is in its own object.
#[derive(Clone, Copy, Debug, PartialEq, Eq)]
pub enum What {
    Defined(Meaning),
    /// To be made, with this size and this alignment at least.
    Common { size: u32, align: u32 },
    /// Nothing, or in a section that is not loaded.
    Nothing,
}

/// A symbol of an object, with its name.
#[derive(Clone, Copy)]
pub struct Named<'a> {
    pub object: usize,
    pub symbol: usize,
    pub name: &'a [u8],
    pub binding: Binding,
    pub what: What,
}

impl Named<'_> {
    /// What it defines its name as, if other objects see it.
    #[tactic(auto, unfolding(crate::specs::Definitions::definition_of))]
    pub fn definition(&self) -> Option<Meaning>
        ensures { result ≡ definition_of (named_value self.now) }
    {
        if self.name.is_empty() || self.binding == Binding::Local {
            return None;
        }
        match self.what {
            What::Defined(meaning) => Some(meaning),
            _ => None,
        }
    }
}

#[tactic(auto, unfolding(crate::specs::Symbols::what_at))]
fn what_of(object: &Object, number: usize, first: usize, symbol: Symbol) -> What
    requires home { IsHome (length object.now.sections) symbol.home }
    requires small { first ≤ 2 ^ 31 }
    ensures { result ≡ what_at (numbered_object number first object.now) symbol symbol.home }
{
    match symbol.home {
        Home::Undefined => What::Nothing,
        Home::Absolute => What::Defined(Meaning::Number(symbol.value)),
        Home::Common => What::Common {
            size: symbol.size,
            align: symbol.value,
        },
        Home::In(k) => {
            if object.sections()[k as usize].is_loaded() {
                What::Defined(Meaning::Place {
                    item: first as u32 + k,
                    offset: symbol.value,
                })
            } else {
                What::Nothing
            }
        }
    }
}

/// A symbol with its name. `first` is the number of the object's first section among all sections.
pub fn symbol_at(
    object: &Object,
    number: usize,
    first: usize,
    k: usize,
    symbol: Symbol,
) -> Named<'_>
    requires symbol { IsSymbol (length object.now.file) (length object.now.sections) symbol }
    requires small { first ≤ 2 ^ 31 }
    ensures { named_value result ≡ named_symbol (numbered_object number first object.now) k symbol }
{
    Named {
        object: number,
        symbol: k,
        name: object.part(symbol.name),
        binding: symbol.binding,
        what: what_of(object, number, first, symbol),
    }
}
