//! `key IMAGE ID`: the key of a module's vendor, and the module's.
ghost use Rattle.mod_layout.specs.Tables.{IsModule};
ghost use Rattle.sm_io.specs.Sink.{Puts};
ghost use Rattle.sm_cli.specs.KeyCommand.{key_command, read_key, key_lines, named_key_line, two_lines};

use cli_calls::{Answering, Reading, id_of, text_of};
use cli_files::{Chosen, Refused, Status, load_with, put_named, status_after};
use mod_keys::{TAG_LENGTH, module_key, provider_key};
use sm_io::{Failed, Files, Sink};
use std::alloc::{AllocError, Global};

/// The arguments.
#[derive(Clone, Copy)]
pub struct KeyCommand<'a> {
    pub image: &'a str,
    pub id: u16,
}

impl<'a> Reading<'a> for KeyCommand<'a> {
    ghost asks = { read_key };

    fn read_values(_alloc: Global, values: &[&'a str]) -> Result<Option<Self>, AllocError> {
        if values.len() != 2 {
            return Ok(None);
        }
        match id_of(values[1]) {
            Some(id) => Ok(Some(KeyCommand {
                image: values[0],
                id,
            })),
            None => Ok(None),
        }
    }
}

impl Answering for KeyCommand<'_> {
    ghost asked = { λ c. key_command c.image.now c.id };

    fn answer<F: Files, O: Sink>(
        &self,
        alloc: Global,
        files: &mut F,
        out: &mut O,
    ) -> Result<Status, Refused<'_>> {
        let chosen = match load_with(alloc, self.image, self.id, files) {
            Ok(chosen) => chosen,
            Err(refused) => return Err(refused),
        };
        Ok(status_after(put_keys(&chosen, out)))
    }
}

// Puts the two lines.
fn put_keys<O: Sink>(chosen: &Chosen, out: &mut O) -> Result<(), Failed>
    requires { IsModule chosen.now.image.table.given chosen.now.«module» }
    ensures { Puts O.taken O.faults O.sure out.old out.new (key_lines chosen.now.image chosen.now.«module») result }
{
    let image = &chosen.image;
    let module = &chosen.module;
    let provider = provider_key(&image.node_key, module.vendor);
    let key = module_key(&image.node_key, module, text_of(chosen));
    put_both(out, &provider, &key)
}

// Puts a line for a vendor's key and one for a module's.
fn put_both<O: Sink>(
    out: &mut O,
    provider: &[u8; TAG_LENGTH],
    key: &[u8; TAG_LENGTH],
) -> Result<(), Failed>
    ensures { Puts O.taken O.faults O.sure out.old out.new (two_lines provider.now key.now) result }
{
    match put_key(out, b"provider ", provider) {
        Ok(()) => put_key(out, b"module ", key),
        Err(Failed) => Err(Failed),
    }
}

// Puts a line of a name and a key.
fn put_key<O: Sink>(out: &mut O, name: &[u8], key: &[u8; TAG_LENGTH]) -> Result<(), Failed>
    ensures { Puts O.taken O.faults O.sure out.old out.new (named_key_line name.now key.now) result }
{
    put_named(out, name, texts::hex_key(key).as_str().as_bytes(), b"\n")
}
