// The commands: which there are.
ghost use Rattle.std.specs.Prelude.{◌≡◌, ◌∷◌, IfOk, IfSome, drop, option_and_then, option_map};
ghost use Rattle.cli_calls.specs.CommandNames.{command_of};
ghost use Rattle.sm_cli.specs.CommandLine.{sancus_commands};
ghost use Rattle.sm_cli.specs.internal.CommandLine.{asked, IsCommandBounded};
ghost use Rattle.sm_cli.specs.MakeCommand.{read_make};
ghost use Rattle.cli_calls.specs.Words.{texts, values_within};

use cli_calls::{Answering, ImageRun, ObjectsCommand, read};
use cli_files::{Refused, Status};
use sm_io::{Files, Sink};
use std::alloc::{AllocError, Global};

pub mod asm;
pub mod balance;
pub mod challenge;
pub mod check;
pub mod dis;
pub mod image;
pub mod key;
pub mod link;
pub mod lone;
pub mod make;
pub mod run;
pub mod script;
pub mod vendor;

use asm::AsmCommand;
use balance::BalanceCommand;
use challenge::ChallengeCommand;
use check::CheckCommand;
use dis::DisCommand;
use image::Trace;
use key::KeyCommand;
use link::ImageText;
use lone::LoneCommand;
use make::MakeCommand;
use run::RunCommand;
use script::MonitorCommand;
use vendor::VendorCommand;

/// A command with its arguments.
#[derive(Drop)]
pub enum CommandLine<'a> {
    Image(ImageRun<'a, Trace>),
    Key(KeyCommand<'a>),
    Dis(DisCommand<'a>),
    Challenge(ChallengeCommand<'a>),
    Vendor(VendorCommand<'a>),
    Check(CheckCommand<'a>),
    Balance(BalanceCommand<'a>),
    Link(ObjectsCommand<'a, ImageText>),
    Run(RunCommand<'a>),
    Lone(LoneCommand<'a>),
    Monitor(MonitorCommand<'a>),
    Asm(AsmCommand<'a>),
    Make(MakeCommand),
}

/// The command that the words are.
#[tactic(auto, unfolding(cli_calls::specs::CommandNames::command_of))]
pub fn read_command<'a>(
    alloc: Global,
    words: &'a [String],
) -> Result<Option<CommandLine<'a>>, AllocError>
    ensures command { IfOk result (λ o. option_map asked o ≡ command_of sancus_commands (texts words.entry.now)) }
    ensures bounds { IfOk result (λ o. IfSome o IsCommandBounded) }
{
    if words.is_empty() {
        return Ok(None);
    }
    command_by(alloc, words[0].as_str(), words)
}

// The command of a name, with the words after the first.
#[tactic(auto, unfolding(cli_calls::specs::CommandNames::command_of))]
fn command_by<'a>(
    alloc: Global,
    name: &str,
    words: &'a [String],
) -> Result<Option<CommandLine<'a>>, AllocError>
    ensures command { IfOk result (λ o. option_map asked o
        ≡ command_of sancus_commands (name.now ∷ drop 1 (texts words.entry.now))) }
    ensures bounds { IfOk result (λ o. IfSome o IsCommandBounded) }
{
    if name == "image" {
        Ok(read::<ImageRun<Trace>>(alloc, "image", words, 3, 3)?.map(CommandLine::Image))
    } else if name == "key" {
        Ok(read::<KeyCommand>(alloc, "key", words, 2, 2)?.map(CommandLine::Key))
    } else if name == "dis" {
        Ok(read::<DisCommand>(alloc, "dis", words, 3, 3)?.map(CommandLine::Dis))
    } else if name == "challenge" {
        Ok(read::<ChallengeCommand>(alloc, "challenge", words, 1, 1)?.map(CommandLine::Challenge))
    } else if name == "vendor" {
        Ok(read::<VendorCommand>(alloc, "vendor", words, 5, 5)?.map(CommandLine::Vendor))
    } else if name == "check" {
        Ok(read::<CheckCommand>(alloc, "check", words, 2, 2)?.map(CommandLine::Check))
    } else if name == "balance" {
        Ok(read::<BalanceCommand>(alloc, "balance", words, 3, 3)?.map(CommandLine::Balance))
    } else if name == "link" {
        Ok(read::<ObjectsCommand<ImageText>>(alloc, "link", words, 2, 65)?.map(CommandLine::Link))
    } else if name == "run" {
        Ok(read::<RunCommand>(alloc, "run", words, 4, 67)?.map(CommandLine::Run))
    } else if name == "lone" {
        // More than fourteen pairs name some register twice.
        Ok(read::<LoneCommand>(alloc, "lone", words, 3, 17)?.map(CommandLine::Lone))
    } else if name == "monitor" {
        Ok(read::<MonitorCommand>(alloc, "monitor", words, 3, 3)?.map(CommandLine::Monitor))
    } else if name == "asm" {
        Ok(read::<AsmCommand>(alloc, "asm", words, 1, 1)?.map(CommandLine::Asm))
    } else if name == "make" {
        make_line(alloc, words)
    } else {
        Ok(None)
    }
}

// The command `make`, which borrows none of its words.
fn make_line<'a>(alloc: Global, words: &[String]) -> Result<Option<CommandLine<'a>>, AllocError>
    ensures command { IfOk result (λ o. option_map asked o ≡ option_and_then read_make
        (values_within 1 1 (drop 1 (texts words.now)))) }
    ensures bounds { IfOk result (λ o. IfSome o IsCommandBounded) }
{
    match read::<MakeCommand>(alloc, "make", words, 1, 1)? {
        Some(command) => Ok(Some(CommandLine::Make(command))),
        None => Ok(None),
    }
}

impl Answering for CommandLine<'_> {
    ghost asked = { λ line. asked line };

    ghost bounds = { λ line. IsCommandBounded line };

    fn answer<F: Files, O: Sink>(
        &self,
        alloc: Global,
        files: &mut F,
        out: &mut O,
    ) -> Result<Status, Refused<'_>> {
        match self {
            CommandLine::Image(command) => command.answer(alloc, files, out),
            CommandLine::Key(command) => command.answer(alloc, files, out),
            CommandLine::Dis(command) => command.answer(alloc, files, out),
            CommandLine::Challenge(command) => command.answer(alloc, files, out),
            CommandLine::Vendor(command) => command.answer(alloc, files, out),
            CommandLine::Check(command) => command.answer(alloc, files, out),
            CommandLine::Balance(command) => command.answer(alloc, files, out),
            CommandLine::Link(command) => command.answer(alloc, files, out),
            CommandLine::Run(command) => command.answer(alloc, files, out),
            CommandLine::Lone(command) => command.answer(alloc, files, out),
            CommandLine::Monitor(command) => command.answer(alloc, files, out),
            CommandLine::Asm(command) => command.answer(alloc, files, out),
            CommandLine::Make(command) => command.answer(alloc, files, out),
        }
    }
}
