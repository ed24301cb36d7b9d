//! The statements of a source.

ghost use Rattle.std.specs.Prelude.{◌≡◌, ◌++◌, ◌∷◌, ◌≤◌, length, List, [], ℕ, Some, OnOk, IfOk};
ghost use Rattle.asm_text.specs.internal.Maps.{IsIndexed, texts_of};
ghost use Rattle.asm_text.specs.Names as numbering;
ghost use Rattle.asm_text.specs.internal.Read.{tables_value, AreIndexed, source_value};
ghost use Rattle.asm_text.specs.Source as spec;
ghost use Rattle.asm_line.specs.Renamed.{with_texts};
ghost use Rattle.std.specs.Option.{option_copied};

use crate::MAX_SOURCE;
use crate::names::Names;
use asm_line::{Field, Statement, statement_of};
use std::alloc::{AllocError, Global};
use texts::split_line;

/// The names of sections, and all other names.
#[derive(Drop)]
pub struct Tables<'a> {
    pub sections: Names<'a>,
    pub names: Names<'a>,
}

/// The statements of a source up to the first line that has no form or no LF, which `stopped` numbers.
#[derive(Drop)]
pub struct Source<'a> {
    pub tables: Tables<'a>,
    pub statements: Vec<Statement<usize>>,
    pub stopped: Option<u64>,
}

fn number_option<'a>(
    names: &mut Names<'a>,
    name: Option<&'a [u8]>,
) -> Result<Option<usize>, AllocError>
    requires indexed { IsIndexed names.old }
    ensures number { IfOk result (λ number. number ≡ numbering.number_option (texts_of names.old)
        (option_copied name.entry)) }
    ensures noted { OnOk result (texts_of names.new ≡ numbering.noted_option (texts_of names.old)
        (option_copied name.entry)) }
    ensures indexed { OnOk result (IsIndexed names.new) }
{
    match name {
        None => Ok(None),
        Some(name) => {
            let number = names.number(name)?;
            Ok(Some(number))
        }
    }
}

fn number_field<'a>(
    names: &mut Names<'a>,
    field: Field<&'a [u8]>,
) -> Result<Statement<usize>, AllocError>
    requires indexed { IsIndexed names.old }
    ensures number { IfOk result (λ s. (t : List (List ℕ)) →
        s ≡ numbering.numbered (record { sections = t; names = texts_of names.old })
        (with_texts (Statement.Word field.entry))) }
    ensures noted { OnOk result ((t : List (List ℕ)) → record { sections = t; names = texts_of names.new }
        ≡ numbering.tables_after (record { sections = t; names = texts_of names.old })
        (with_texts (Statement.Word field.entry))) }
    ensures indexed { OnOk result (IsIndexed names.new) }
{
    match field {
        Field::Number(number) => Ok(Statement::Word(Field::Number(number))),
        Field::Name(name) => {
            let number = names.number(name)?;
            Ok(Statement::Word(Field::Name(number)))
        }
    }
}

impl<'a> Tables<'a> {
    fn new(alloc: Global) -> Self
        ensures none { tables_value result ≡ numbering.no_tables }
        ensures indexed { AreIndexed result }
    {
        Tables {
            sections: Names::new(alloc),
            names: Names::new(alloc),
        }
    }

    // A statement with its names by their numbers.
    fn number(&mut self, statement: Statement<&'a [u8]>) -> Result<Statement<usize>, AllocError>
        requires indexed { AreIndexed self.old }
        ensures numbered { IfOk result (λ s. s ≡ numbering.numbered (tables_value self.old)
            (with_texts statement.entry)) }
        ensures noted { OnOk result (tables_value self.new ≡ numbering.tables_after (tables_value self.old)
            (with_texts statement.entry)) }
        ensures indexed { OnOk result (AreIndexed self.new) }
    {
        match statement {
            Statement::Section { name, kind } => {
                let name = self.sections.number(name)?;
                Ok(Statement::Section { name, kind })
            }
            Statement::Label(name) => {
                let number = self.names.number(name)?;
                Ok(Statement::Label(number))
            }
            Statement::Global(name) => {
                let number = self.names.number(name)?;
                Ok(Statement::Global(number))
            }
            Statement::Word(field) => number_field(&mut self.names, field),
            Statement::Space(size) => Ok(Statement::Space(size)),
            Statement::Jump { condition, target } => {
                let target = self.names.number(target)?;
                Ok(Statement::Jump { condition, target })
            }
            Statement::Code {
                insn,
                first,
                second,
            } => {
                let first = number_option(&mut self.names, first)?;
                let second = number_option(&mut self.names, second)?;
                Ok(Statement::Code {
                    insn,
                    first,
                    second,
                })
            }
        }
    }
}

/// The statements of a source.
pub fn read_source(alloc: Global, text: &[u8]) -> Result<Source<'_>, AllocError>
    requires { length text.now ≤ MAX_SOURCE }
    ensures { IfOk result (λ source. source_value source ≡ spec.source_read text.now) }
{
    let mut tables = Tables::new(alloc);
    let mut statements = Vec::new(alloc);
    let mut rest = text;
    let mut n = 1;
    while let Some((line, after)) = split_line(rest) {
        let Some(statement) = statement_of(line) else {
            return Ok(Source {
                tables,
                statements,
                stopped: Some(n),
            });
        };
        let numbered = tables.number(statement)?;
        statements.push(numbered)?;
        rest = after;
        n += 1;
    }
    let stopped = if rest.is_empty() { None } else { Some(n) };
    Ok(Source {
        tables,
        statements,
        stopped,
    })
}
