//! Where each section and each label stands.

ghost use Rattle.std.specs.Prelude.{◌≡◌, ◌≢◌, ◌<◌, ◌≤◌, ◌+◌, ℕ, length, Ok, Err, Some, OnOk, IfOk, IfErr, All};
ghost use Rattle.asm_text.specs.Placing as spec;
ghost use Rattle.asm_text.specs.internal.Placed.{placed_of, AreSmall, IsPlaced};
ghost use Rattle.asm_text.specs.internal.Known.{IsKnown, AreKnown};
ghost use Rattle.asm_line.specs.Statements as statements;

use crate::unit::AsmFault;
use crate::{MAX_LABELS, MAX_SECTIONS};
use asm_line::{MAX_SIZE, SectionKind, Statement};
use std::alloc::{AllocError, Global};

/// A section: the number of its name, its kind, and its bytes so far.
#[derive(Clone, Copy, Debug, PartialEq, Eq)]
pub struct Head {
    pub name: usize,
    pub kind: SectionKind,
    pub size: u32,
}

/// Where a label stands: so many bytes from the start of a section.
#[derive(Clone, Copy, Debug, PartialEq, Eq)]
pub struct Spot {
    pub section: usize,
    pub offset: u32,
}

/// The sections so far, the numbers of the labels in their order, and where the label of each name stands.
#[derive(Drop)]
pub struct Layout {
    pub heads: Vec<Head>,
    pub labels: Vec<usize>,
    pub spots: Vec<Option<Spot>>,
}

/// The bytes that a statement takes.
pub fn statement_size(statement: Statement<usize>) -> u32
    ensures exact { result ≡ statements.statement_size statement }
{
    match statement {
        Statement::Word(_) | Statement::Jump { .. } => 2,
        Statement::Space(size) => size,
        Statement::Code { insn, .. } => 2 * u32::from(insn.length()),
        Statement::Section { .. } | Statement::Label(_) | Statement::Global(_) => 0,
    }
}

/// Whether a section of this kind takes the statement.
fn kind_takes(kind: SectionKind, statement: Statement<usize>) -> bool
    ensures { result ≡ statements.kind_takes kind statement }
{
    match statement {
        Statement::Word(_) => kind != SectionKind::Bss,
        Statement::Space(_) => kind == SectionKind::Bss,
        Statement::Jump { .. } | Statement::Code { .. } => kind == SectionKind::Code,
        Statement::Section { .. } | Statement::Label(_) | Statement::Global(_) => true,
    }
}

fn has_section(heads: &[Head], name: usize) -> bool
    ensures { result ≡ spec.has_section heads.now name }
{
    heads.iter().any(|head| head.name == name)
}

impl Layout {
    fn new(alloc: Global, names: usize) -> Result<Self, AllocError>
        ensures { IfOk result (λ layout. placed_of layout ≡ spec.nowhere names) }
    {
        Ok(Layout {
            heads: Vec::new(alloc),
            labels: Vec::new(alloc),
            spots: vec![in alloc; None; names]?,
        })
    }

    fn last(&self) -> Option<Head>
        ensures { result ≡ spec.last_head self.now.heads.items }
    {
        self.heads.last().copied()
    }

    fn add_section(&mut self, n: u64, name: usize, kind: SectionKind) -> Result<(), AsmFault>
        ensures placed { OnOk result (spec.placed_section n (placed_of self.old) name kind ≡ Ok (placed_of self.new)) }
        ensures refused { IfErr result (λ fault. fault ≢ AsmFault.NoMemory
            → spec.placed_section n (placed_of self.old) name kind ≡ Err fault) }
    {
        if has_section(&self.heads, name) {
            return Err(AsmFault::Twice { n });
        }
        if self.heads.len() == MAX_SECTIONS {
            return Err(AsmFault::TooMany { n });
        }
        self.heads.push(Head {
            name,
            kind,
            size: 0,
        })?;
        Ok(())
    }

    fn add_label(&mut self, n: u64, head: Head, name: usize) -> Result<(), AsmFault>
        requires number { name < length self.old.spots.items }
        ensures placed { OnOk result (spec.with_label n (placed_of self.old) head name ≡ Ok (placed_of self.new)) }
        ensures refused { IfErr result (λ fault. fault ≢ AsmFault.NoMemory
            → spec.with_label n (placed_of self.old) head name ≡ Err fault) }
    {
        if self.spots[name].is_some() {
            return Err(AsmFault::Twice { n });
        }
        if self.labels.len() == MAX_LABELS {
            return Err(AsmFault::TooMany { n });
        }
        self.labels.push(name)?;
        self.spots[name] = Some(Spot {
            section: self.heads.len().saturating_sub(1),
            offset: head.size,
        });
        Ok(())
    }

    fn grow(&mut self, n: u64, head: Head, size: u32) -> Result<(), AsmFault>
        requires last { spec.last_head self.old.heads.items ≡ Some head }
        requires head { head.size ≤ 65534 }
        requires size { size ≤ 65534 }
        ensures placed { OnOk result (spec.with_bytes n (placed_of self.old) head size ≡ Ok (placed_of self.new)) }
        ensures refused { IfErr result (λ fault. spec.with_bytes n (placed_of self.old) head size ≡ Err fault) }
    {
        if head.size + size > MAX_SIZE {
            return Err(AsmFault::Large { n });
        }
        let last = self.heads.len() - 1;
        self.heads[last] = Head {
            name: head.name,
            kind: head.kind,
            size: head.size + size,
        };
        Ok(())
    }

    // A statement in this section, the last.
    fn add_within(
        &mut self,
        n: u64,
        head: Head,
        statement: Statement<usize>,
    ) -> Result<(), AsmFault>
        requires known { IsKnown (length self.old.spots.items) statement }
        requires last { spec.last_head self.old.heads.items ≡ Some head }
        requires head { head.size ≤ MAX_SIZE }
        ensures placed { OnOk result (spec.within n (placed_of self.old) head statement ≡ Ok (placed_of self.new)) }
        ensures refused { IfErr result (λ fault. fault ≢ AsmFault.NoMemory
            → spec.within n (placed_of self.old) head statement ≡ Err fault) }
    {
        if let Statement::Label(name) = statement {
            return self.add_label(n, head, name);
        }
        self.grow(n, head, statement_size(statement))
    }

    // A statement that is in some section.
    fn add_in_section(&mut self, n: u64, statement: Statement<usize>) -> Result<(), AsmFault>
        requires known { IsKnown (length self.old.spots.items) statement }
        requires small { AreSmall self.old.heads.items }
        ensures placed { OnOk result (spec.in_section n (placed_of self.old)
            (spec.last_head self.old.heads.items) statement ≡ Ok (placed_of self.new)) }
        ensures refused { IfErr result (λ fault. fault ≢ AsmFault.NoMemory
            → spec.in_section n (placed_of self.old) (spec.last_head self.old.heads.items) statement ≡ Err fault) }
    {
        let Some(head) = self.last() else {
            return Err(AsmFault::Place { n });
        };
        if !kind_takes(head.kind, statement) {
            return Err(AsmFault::Place { n });
        }
        self.add_within(n, head, statement)
    }

    // The statement of line n.
    fn add(&mut self, n: u64, statement: Statement<usize>) -> Result<(), AsmFault>
        requires known { IsKnown (length self.old.spots.items) statement }
        requires small { AreSmall self.old.heads.items }
        ensures placed { OnOk result (spec.placed n (placed_of self.old) statement ≡ Ok (placed_of self.new)) }
        ensures refused { IfErr result (λ fault. fault ≢ AsmFault.NoMemory
            → spec.placed n (placed_of self.old) statement ≡ Err fault) }
    {
        match statement {
            Statement::Section { name, kind } => self.add_section(n, name, kind),
            Statement::Global(_) => Ok(()),
            Statement::Label(_)
            | Statement::Word(_)
            | Statement::Space(_)
            | Statement::Jump { .. }
            | Statement::Code { .. } => self.add_in_section(n, statement),
        }
    }
}

/// Where the sections and labels of these statements stand, or the first refusal line by line.
pub fn place_all(
    alloc: Global,
    names: usize,
    statements: &[Statement<usize>],
) -> Result<Layout, AsmFault>
    requires known { AreKnown names statements.now }
    ensures placed { IfOk result (λ layout. spec.placed_from 1 (spec.nowhere names) statements.now
        ≡ Ok (placed_of layout)) }
    ensures kept { IfOk result (λ layout. IsPlaced names (placed_of layout)) }
    ensures refused { IfErr result (λ fault. fault ≢ AsmFault.NoMemory
        → spec.placed_from 1 (spec.nowhere names) statements.now ≡ Err fault) }
{
    let mut layout = Layout::new(alloc, names)?;
    for (index, statement) in statements.iter().enumerate() {
        if let Err(fault) = layout.add(index as u64 + 1, *statement) {
            return Err(fault);
        }
    }
    Ok(layout)
}
