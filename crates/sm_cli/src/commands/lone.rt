//! `lone IMAGE ID LIMIT PAIR..`: how a call of a module by itself ends.
ghost use Rattle.std.specs.Prelude.{◌≡◌, ◌≤◌, ◌+◌, ◌++◌, IfOk, IfSome, length, option_map};
ghost use Rattle.arrayvec.specs.ArrayString.{array_string_len};
ghost use Rattle.lone_run.specs.Ends.{call_answer};
ghost use Rattle.mod_layout.specs.Tables.{IsModule};
ghost use Rattle.sm_io.specs.Sink.{Took, CutOff};
ghost use Rattle.tracer.specs.Lines.{registers_from};
ghost use Rattle.written_machine.specs.Peers.{section};
ghost use Rattle.cli_calls.specs.declared.values.TheConstants.{MAX_CYCLES};
ghost use Rattle.sm_cli.specs.LoneCommand.{lone_command, read_lone, lone_with, lone_end, end_answer, lone_end_line, core_line};
ghost use Rattle.sm_cli.specs.Pairs.{core_with};
ghost use Rattle.sm_cli.specs.Numbers.{number_line};
ghost use Rattle.cli_calls.specs.Runs.{EndsAs};

use crate::pairs::{Pair, core_with, pairs_in};
use arrayvec::ArrayString;
use cli_calls::{Answering, Reading, id_of, read_cycles, text_of};
use cli_files::{Chosen, NO_MEMORY, Refused, Status, load_with};
use lone_run::{Entry, Outcome, call};
use sm_io::{Failed, Files, Sink, put_all};
use sm_words::{Core, PC};
use std::alloc::{AllocError, Global};
use texts::{push_decimal, push_hex_word};

/// The caller's id where no module calls.
const NO_CALLER: u16 = 0;

/// The arguments: the registers that are not 0 at the entry, and the most cycles.
#[derive(Drop)]
pub struct LoneCommand<'a> {
    pub image: &'a str,
    pub id: u16,
    pub limit: u64,
    pub pairs: Vec<Pair>,
}

impl<'a> Reading<'a> for LoneCommand<'a> {
    ghost asks = { read_lone };

    fn read_values(alloc: Global, values: &[&'a str]) -> Result<Option<Self>, AllocError> {
        match values {
            [image, id, limit, pairs @ ..] => {
                let pairs = pairs_in(alloc, pairs)?;
                Ok(command_with(image, id_of(id), read_cycles(limit), pairs))
            }
            _ => Ok(None),
        }
    }
}

fn command_with<'a>(
    image: &'a str,
    id: Option<u16>,
    limit: Option<u64>,
    pairs: Option<Vec<Pair>>,
) -> Option<LoneCommand<'a>>
    requires { IfSome limit (λ l. l ≤ MAX_CYCLES) }
    ensures command { option_map (λ c. lone_command c.image.now c.id c.limit (core_with c.pairs.items)) result
        ≡ lone_with image.entry.now id limit (option_map (λ pairs. pairs.items) pairs) }
    ensures bounds { IfSome result (λ c. c.limit ≤ MAX_CYCLES) }
{
    Some(LoneCommand {
        image,
        id: id?,
        limit: limit?,
        pairs: pairs?,
    })
}

impl Answering for LoneCommand<'_> {
    ghost asked = { λ c. lone_command c.image.now c.id c.limit (core_with c.pairs.items) };

    ghost bounds = { λ c. c.limit ≤ MAX_CYCLES };

    fn answer<F: Files, O: Sink>(
        &self,
        alloc: Global,
        files: &mut F,
        out: &mut O,
    ) -> Result<Status, Refused<'_>> {
        let chosen = match load_with(alloc, self.image, self.id, files) {
            Ok(chosen) => chosen,
            Err(refused) => return Err(refused),
        };
        match lone_end(alloc, &chosen, core_with(self.pairs.as_slice()), self.limit) {
            Ok(end) => Ok(put_end(self.limit, &end, out)),
            Err(AllocError) => Err(NO_MEMORY),
        }
    }
}

// Puts the line of how a call ended.
fn put_end<O: Sink>(limit: u64, end: &Outcome, out: &mut O) -> Status
    ensures { EndsAs result (end_answer limit end.now)
        (Took O.taken O.faults O.sure out.old out.new)
        (CutOff O.taken O.faults O.sure out.old out.new) }
{
    match put_all(out, line_of(limit, end).as_str().as_bytes()) {
        Ok(()) => Status::Done,
        Err(Failed) => Status::WriteFault,
    }
}

// How the call ends, on a copy of the module's data.
fn lone_end(
    alloc: Global,
    chosen: &Chosen,
    registers: Core,
    limit: u64,
) -> Result<Outcome, AllocError>
    requires chosen { IsModule chosen.now.image.table.given chosen.now.«module» }
    requires limit { limit ≤ MAX_CYCLES }
    ensures { IfOk result (λ end. end ≡ call_answer (lone_end chosen.now.image chosen.now.«module» registers limit)) }
{
    let module = &chosen.module;
    let mut data = data_of(chosen).to_vec(alloc)?;
    let mut core = registers;
    core.put(PC, module.text.start);
    let entry = Entry {
        core,
        caller: NO_CALLER,
    };
    Ok(call(
        &chosen.image.node_key,
        module,
        text_of(chosen),
        data.as_mut_slice(),
        &entry,
        limit,
    ))
}

// The data of the module.
fn data_of(chosen: &Chosen) -> &[u8]
    requires { IsModule chosen.now.image.table.given chosen.now.«module» }
    ensures bytes { result.now ≡ section chosen.now.«module».ram chosen.now.image.memory }
{
    let data = &chosen.module.ram;
    &chosen.image.memory[usize::from(data.start)..usize::from(data.end)]
}

// The line of how a call ended.
fn line_of(limit: u64, end: &Outcome) -> ArrayString<128>
    ensures { result.bytes ≡ lone_end_line limit end.now }
{
    match end {
        Outcome::Exit { core, cycles } => core_line("exit ", *cycles, core),
        Outcome::Closed { core, cycles } => core_line("closed ", *cycles, core),
        Outcome::Broken { cycles } => number_line("broken ", *cycles),
        Outcome::Running => number_line("running ", limit),
    }
}

// A word, a number of cycles and the registers.
fn core_line(name: &str, cycles: u64, core: &Core) -> ArrayString<128>
    requires { length name.now ≤ 8 }
    ensures { result.bytes ≡ core_line name.now cycles core.now }
{
    let mut line = ArrayString::new();
    line.push_str(name);
    push_decimal(cycles, &mut line);
    push_registers(core, &mut line);
    line.push_str("\n");
    line
}

fn number_line(name: &str, cycles: u64) -> ArrayString<128>
    requires { length name.now ≤ 8 }
    ensures { result.bytes ≡ number_line name.now cycles }
{
    let mut line = ArrayString::new();
    line.push_str(name);
    push_decimal(cycles, &mut line);
    line.push_str("\n");
    line
}

// Appends the sixteen registers, each after a space.
fn push_registers(core: &Core, line: &mut ArrayString<128>)
    requires room { array_string_len line.old ≤ 28 }
    ensures text { line.new.bytes ≡ line.old.bytes ++ registers_from core.now 0 16 }
    ensures most { array_string_len line.new ≡ array_string_len line.old + 80 }
{
    for number in 0..16u8 {
        line.push_str(" ");
        push_hex_word(core.get(number), line);
    }
}
