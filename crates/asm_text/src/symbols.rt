//! The symbols of a source.

ghost use Rattle.std.specs.Prelude.{◌≡◌, ◌<◌, ◌+◌, ◌^◌, [], ◌≤◌, List, ℕ, Some, length, filter, fold, slice_index_or, true, false, OnOk, IfOk, IfSome};
ghost use Rattle.asm_line.specs.Identifiers.{is_name};
ghost use Rattle.asm_text.specs.internal.Known.{AreKnown};
ghost use Rattle.asm_text.specs.internal.Emitted.{AreNames};
ghost use Rattle.asm_text.specs.internal.Maps.{texts_in};
ghost use Rattle.asm_text.specs.Placing.{spot_of};
ghost use Rattle.asm_text.specs.declared.placing.Spot.{Spot};
ghost use Rattle.asm_text.specs.internal.Numbering.{IsNumbering, AreBelow};
ghost use Rattle.asm_text.specs.Symbols as spec;
ghost use Rattle.asm_text.specs.internal.Symbols as inner;
ghost use Rattle.asm_text.specs.Views.{symbol_value, symbol_values};

use crate::names::string_of;
use crate::placing::Spot;
use crate::unit::AsmSymbol;
use asm_line::Statement;
use std::alloc::{AllocError, Global};

/// The names of the symbols by their numbers, and of each name the place of its symbol.
#[derive(Drop)]
pub struct Order {
    pub names: Vec<usize>,
    pub numbers: Vec<Option<u32>>,
}

/// Of each name, whether some line calls it global.
pub fn globals_of(
    alloc: Global,
    names: usize,
    statements: &[Statement<usize>],
) -> Result<Vec<bool>, AllocError>
    requires known { AreKnown names statements.now }
    ensures length { IfOk result (λ globals. length globals.items ≡ names) }
    ensures globals { IfOk result (λ globals. (k : ℕ) → k < names →
        slice_index_or globals.items k false ≡ spec.is_global_name statements.now k) }
{
    let mut globals = vec![in alloc; false; names]?;
    for statement in statements {
        if let Statement::Global(name) = *statement {
            globals[name] = true;
        }
    }
    Ok(globals)
}

impl Order {
    fn new(alloc: Global, names: usize) -> Result<Self, AllocError>
        ensures none { IfOk result (λ order. order.names.items ≡ []) }
        ensures length { IfOk result (λ order. length order.numbers.items ≡ names) }
        ensures numbering { IfOk result (λ order. IsNumbering order.numbers.items order.names.items) }
    {
        Ok(Order {
            names: Vec::new(alloc),
            numbers: vec![in alloc; None; names]?,
        })
    }

    // Notes a name, where it was not noted.
    fn note(&mut self, name: usize) -> Result<(), AllocError>
        requires known { name < length self.old.numbers.items }
        requires few { length self.old.names.items < 2 ^ 32 }
        requires numbering { IsNumbering self.old.numbers.items self.old.names.items }
        ensures noted { OnOk result (self.new.names.items ≡ spec.once self.old.names.items name) }
        ensures length { length self.new.numbers.items ≡ length self.old.numbers.items }
        ensures numbering { OnOk result (IsNumbering self.new.numbers.items self.new.names.items) }
    {
        if self.numbers[name].is_some() {
            return Ok(());
        }
        let number = self.names.len() as u32;
        self.names.push(name)?;
        self.numbers[name] = Some(number);
        Ok(())
    }

    // Notes the labels that no line calls global.
    fn note_local(&mut self, globals: &[bool], labels: &[usize]) -> Result<(), AllocError>
        requires known { AreBelow (length self.old.numbers.items) labels.now }
        requires globals { length globals.now ≡ length self.old.numbers.items }
        requires few { length self.old.names.items + length labels.now < 2 ^ 32 }
        requires numbering { IsNumbering self.old.numbers.items self.old.names.items }
        ensures few { OnOk result (length self.new.names.items ≤ length self.old.names.items + length labels.now) }
        ensures noted { OnOk result (self.new.names.items ≡ fold spec.once self.old.names.items
            (filter (inner.is_local_name globals.now) labels.now)) }
        ensures length { length self.new.numbers.items ≡ length self.old.numbers.items }
        ensures numbering { OnOk result (IsNumbering self.new.numbers.items self.new.names.items) }
    {
        for label in labels {
            if !globals[*label] {
                self.note(*label)?;
            }
        }
        Ok(())
    }

    // Notes all names.
    fn note_all(&mut self) -> Result<(), AllocError>
        requires few { length self.old.names.items + length self.old.numbers.items < 2 ^ 32 }
        requires numbering { IsNumbering self.old.numbers.items self.old.names.items }
        ensures noted { OnOk result (self.new.names.items ≡ fold spec.once self.old.names.items
            (spec.below (length self.old.numbers.items))) }
        ensures length { length self.new.numbers.items ≡ length self.old.numbers.items }
        ensures numbering { OnOk result (IsNumbering self.new.numbers.items self.new.names.items) }
    {
        for name in 0..self.numbers.len() {
            self.note(name)?;
        }
        Ok(())
    }
}

/// The symbols' names in their order: local labels, then the other names.
pub fn order_of(
    alloc: Global,
    globals: &[bool],
    labels: &[usize],
    names: usize,
) -> Result<Order, AllocError>
    requires known { AreBelow names labels.now }
    requires length { length globals.now ≡ names }
    requires few_names { names ≤ 1048576 }
    requires few_labels { length labels.now ≤ 4096 }
    ensures order { IfOk result (λ order. order.names.items
        ≡ fold spec.once (fold spec.once [] (filter (inner.is_local_name globals.now) labels.now)) (spec.below names)) }
    ensures length { IfOk result (λ order. length order.numbers.items ≡ names) }
    ensures numbering { IfOk result (λ order. IsNumbering order.numbers.items order.names.items) }
{
    let mut order = Order::new(alloc, names)?;
    order.note_local(globals, labels)?;
    order.note_all()?;
    Ok(order)
}

// The symbol of a name.
fn symbol_for(
    alloc: Global,
    name: &[u8],
    global: bool,
    spot: Option<Spot>,
) -> Result<AsmSymbol, AllocError>
    requires name { is_name name.now ≡ true }
    requires spot { IfSome spot (λ s. s.section < 2 ^ 32) }
    ensures { IfOk result (λ symbol. symbol_value symbol ≡ spec.symbol_by global name.now spot) }
{
    let name = string_of(alloc, name)?;
    match spot {
        None => Ok(AsmSymbol {
            name,
            global: true,
            home: None,
            value: 0,
        }),
        Some(spot) => Ok(AsmSymbol {
            name,
            global,
            home: Some(spot.section as u32),
            value: spot.offset,
        }),
    }
}

/// The symbols in this order.
pub fn symbols_in(
    alloc: Global,
    order: &[usize],
    names: &[&[u8]],
    globals: &[bool],
    spots: &[Option<Spot>],
) -> Result<Vec<AsmSymbol>, AllocError>
    requires known { AreBelow (length names.now) order.now }
    requires names { AreNames (texts_in names.now) }
    requires globals { length globals.now ≡ length names.now }
    requires spots { length spots.now ≡ length names.now }
    requires sections { (k : ℕ) (spot : Spot) → spot_of spots.now k ≡ Some spot → spot.section < 2 ^ 32 }
    ensures { IfOk result (λ symbols. symbol_values symbols ≡ spec.symbols_for
        (λ k. slice_index_or globals.now k false) (texts_in names.now) spots.now order.now) }
{
    let mut symbols = Vec::new(alloc);
    for name in order {
        let symbol = symbol_for(alloc, names[*name], globals[*name], spots[*name])?;
        symbols.push(symbol)?;
    }
    Ok(symbols)
}
