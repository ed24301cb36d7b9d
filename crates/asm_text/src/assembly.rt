//! From a text to the parts of an object.

ghost use Rattle.std.specs.Prelude.{◌≡◌, ◌≢◌, ◌≤◌, length, None, Ok, Err, IfOk, IfErr};
ghost use Rattle.asm_text.specs.Assembly as spec;
ghost use Rattle.asm_text.specs.internal.Kept.{IsSource};
ghost use Rattle.asm_text.specs.internal.Placed.{placed_of, IsPlaced};
ghost use Rattle.asm_text.specs.Placing.{nowhere, placed_from};
ghost use Rattle.asm_text.specs.internal.Read.{source_value};
ghost use Rattle.asm_text.specs.Unit.{unit_of};
ghost use Rattle.asm_text.specs.Emission.{emitted_from, nothing};
ghost use Rattle.asm_text.specs.internal.Emitted.{emitted_of};
ghost use Rattle.asm_text.specs.internal.Numbering.{AreGlobals};
ghost use Rattle.asm_text.specs.Symbols.{is_global_name, symbol_numbers, symbols_for};
ghost use Rattle.asm_text.specs.Views as views;

use crate::MAX_SOURCE;
use crate::emission::{Emission, Meanings, emit_all};
use crate::placing::{Layout, place_all};
use crate::reading::{Source, read_source};
use crate::symbols::{Order, globals_of, order_of, symbols_in};
use crate::unit::{AsmFault, AsmSymbol, AsmUnit};
use std::alloc::{AllocError, Global};

/// The parts of an object that a source of at most 1,048,576 bytes writes.
///
/// Line by line from 1 the refusals are `Line`, `Place`, `Twice`, `TooMany` and `Large`, in this order within a line;
/// then, over the whole source and by line, `NoLabel` and `Far`. The first of these is answered, unless memory runs
/// out before.
#[tactic(auto, unfolding(crate::specs::Assembly::assembled))]
pub fn assemble(alloc: Global, bytes: &[u8]) -> Result<AsmUnit, AsmFault>
    requires size { length bytes.now ≤ MAX_SOURCE }
    ensures assembled { IfOk result (λ unit. spec.assembled bytes.now ≡ Ok (unit_of unit)) }
    ensures refused { IfErr result (λ fault. fault ≢ AsmFault.NoMemory → spec.assembled bytes.now ≡ Err fault) }
{
    let source = read_source(alloc, bytes)?;
    assemble_source(alloc, &source)
}

// The unit of a source.
fn assemble_source(alloc: Global, source: &Source<'_>) -> Result<AsmUnit, AsmFault>
    requires kept { IsSource (source_value source.now) }
    ensures assembled { IfOk result (λ unit. spec.assembled_source (source_value source.now) ≡ Ok (unit_of unit)) }
    ensures refused { IfErr result (λ fault. fault ≢ AsmFault.NoMemory →
        spec.assembled_source (source_value source.now) ≡ Err fault) }
{
    let names = source.tables.names.texts().len();
    let layout = match place_all(alloc, names, &source.statements) {
        Ok(layout) => layout,
        Err(fault) => return Err(fault),
    };
    if let Some(n) = source.stopped {
        return Err(AsmFault::Line { n });
    }
    unit_for(alloc, source, &layout)
}

// Of each name whether it is global, and the order of the symbols.
#[derive(Drop)]
struct Resolved {
    globals: Vec<bool>,
    order: Order,
}

fn resolve(alloc: Global, source: &Source<'_>, layout: &Layout) -> Result<Resolved, AllocError>
    requires kept { IsSource (source_value source.now) }
    requires sound { IsPlaced (spec.name_count (source_value source.now)) (placed_of layout.now) }
    ensures length { IfOk result (λ r. length r.globals.items ≡ spec.name_count (source_value source.now)) }
    ensures globals { IfOk result (λ r. AreGlobals r.globals.items source.now.statements.items
        (spec.name_count (source_value source.now))) }
    ensures order { IfOk result (λ r. r.order.names.items ≡ spec.symbol_order (source_value source.now)
        (placed_of layout.now)) }
    ensures count { IfOk result (λ r. length r.order.numbers.items ≡ spec.name_count (source_value source.now)) }
    ensures numbers { IfOk result (λ r. r.order.numbers.items
        ≡ symbol_numbers (spec.symbol_order (source_value source.now) (placed_of layout.now))
        (spec.name_count (source_value source.now))) }
{
    let count = source.tables.names.texts().len();
    let globals = globals_of(alloc, count, &source.statements)?;
    let order = order_of(alloc, &globals, &layout.labels, count)?;
    Ok(Resolved { globals, order })
}

fn symbols_of(
    alloc: Global,
    source: &Source<'_>,
    layout: &Layout,
    resolved: &Resolved,
) -> Result<Vec<AsmSymbol>, AllocError>
    requires kept { IsSource (source_value source.now) }
    requires sound { IsPlaced (spec.name_count (source_value source.now)) (placed_of layout.now) }
    requires length { length resolved.now.globals.items ≡ spec.name_count (source_value source.now) }
    requires globals { AreGlobals resolved.now.globals.items source.now.statements.items
        (spec.name_count (source_value source.now)) }
    requires order { resolved.now.order.names.items ≡ spec.symbol_order (source_value source.now)
        (placed_of layout.now) }
    ensures { IfOk result (λ symbols. views.symbol_values symbols
        ≡ symbols_for (is_global_name source.now.statements.items) (source_value source.now).tables.names
        layout.now.spots.items (spec.symbol_order (source_value source.now) (placed_of layout.now))) }
{
    symbols_in(
        alloc,
        &resolved.order.names,
        source.tables.names.texts(),
        &resolved.globals,
        &layout.spots,
    )
}

// The bytes and relocations of a source whose lines have these places.
fn emit(
    alloc: Global,
    source: &Source<'_>,
    layout: &Layout,
    resolved: &Resolved,
) -> Result<Emission, AsmFault>
    requires kept { IsSource (source_value source.now) }
    requires placed { placed_from 1 (nowhere (spec.name_count (source_value source.now))) source.now.statements.items
        ≡ Ok (placed_of layout.now) }
    requires sound { IsPlaced (spec.name_count (source_value source.now)) (placed_of layout.now) }
    requires count { length resolved.now.order.numbers.items ≡ spec.name_count (source_value source.now) }
    requires numbers { resolved.now.order.numbers.items ≡ symbol_numbers
        (spec.symbol_order (source_value source.now) (placed_of layout.now)) (spec.name_count (source_value
        source.now)) }
    ensures emitted { IfOk result
        (λ e. emitted_from (spec.meanings (source_value source.now) (placed_of layout.now)) 1 nothing
        source.now.statements.items ≡ Ok (emitted_of e)) }
    ensures refused { IfErr result (λ fault. fault ≢ AsmFault.NoMemory
        → emitted_from (spec.meanings (source_value source.now) (placed_of layout.now)) 1 nothing
        source.now.statements.items ≡ Err fault) }
{
    let meanings = Meanings {
        sections: source.tables.sections.texts(),
        spots: &layout.spots,
        symbols: &resolved.order.numbers,
    };
    emit_all(alloc, &meanings, &source.statements)
}

// The unit of a source whose lines have these places.
fn unit_for(alloc: Global, source: &Source<'_>, layout: &Layout) -> Result<AsmUnit, AsmFault>
    requires kept { IsSource (source_value source.now) }
    requires placed { placed_from 1 (nowhere (spec.name_count (source_value source.now))) source.now.statements.items
        ≡ Ok (placed_of layout.now) }
    requires sound { IsPlaced (spec.name_count (source_value source.now)) (placed_of layout.now) }
    ensures assembled { IfOk result (λ unit. spec.with_stop (source_value source.now) (placed_of layout.now) None
        ≡ Ok (unit_of unit)) }
    ensures refused { IfErr result (λ fault. fault ≢ AsmFault.NoMemory →
        spec.with_stop (source_value source.now) (placed_of layout.now) None ≡ Err fault) }
{
    let resolved = resolve(alloc, source, layout)?;
    let emission = match emit(alloc, source, layout, &resolved) {
        Ok(emission) => emission,
        Err(fault) => return Err(fault),
    };
    let symbols = symbols_of(alloc, source, layout, &resolved)?;
    Ok(AsmUnit {
        sections: emission.sections,
        symbols,
        relocations: emission.relocations,
    })
}
