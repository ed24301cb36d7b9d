//! `asm SOURCE`: the object of a program.
ghost use Rattle.sm_cli.specs.AsmCommand.{asm_command, read_asm};

use asm_text::AsmUnit;
use cli_calls::{Answering, Reading};
use cli_files::{NO_MEMORY, Refused, Status, load, status_after};
use obj_write::write_object;
use sm_io::{Files, Sink, put_all};
use std::alloc::{AllocError, Global};

/// The argument.
#[derive(Clone, Copy)]
pub struct AsmCommand<'a> {
    pub source: &'a str,
}

impl<'a> Reading<'a> for AsmCommand<'a> {
    ghost asks = { read_asm };

    fn read_values(_alloc: Global, values: &[&'a str]) -> Result<Option<Self>, AllocError> {
        if values.len() == 1 {
            Ok(Some(AsmCommand { source: values[0] }))
        } else {
            Ok(None)
        }
    }
}

impl Answering for AsmCommand<'_> {
    ghost asked = { λ c. asm_command c.source.now };

    fn answer<F: Files, O: Sink>(
        &self,
        alloc: Global,
        files: &mut F,
        out: &mut O,
    ) -> Result<Status, Refused<'_>> {
        let unit = match load::<AsmUnit, F>(alloc, self.source, files) {
            Ok(unit) => unit,
            Err(refused) => return Err(refused),
        };
        match write_object(alloc, &unit) {
            Ok(object) => Ok(status_after(put_all(out, object.as_slice()))),
            Err(_) => Err(NO_MEMORY),
        }
    }
}
