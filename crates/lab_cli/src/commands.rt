//! The commands: which there are.
ghost use Rattle.std.specs.Prelude.{◌≡◌, ◌∷◌, IfOk, IfSome, drop, option_map};
ghost use Rattle.cli_calls.specs.Words.{texts};
ghost use Rattle.cli_calls.specs.CommandNames.{command_of};
ghost use Rattle.lab_cli.specs.CommandLine.{lab_commands};
ghost use Rattle.lab_cli.specs.internal.CommandLine.{lab_asks, IsLabBounded};

use crate::map::MapText;
use crate::released::Released;
use crate::steps::Steps;
use crate::sweep::SweepCommand;
use crate::terms::OfferedTerms;
use crate::under_terms::UnderTerms;
use cli_calls::{Answering, ImageRun, ObjectsCommand, read};
use cli_files::{Refused, Status};
use sm_io::{Files, Sink};
use std::alloc::{AllocError, Global};

/// A command with its arguments.
#[derive(Drop)]
pub enum LabCommand<'a> {
    Map(ObjectsCommand<'a, MapText>),
    Released(UnderTerms<'a, Released>),
    Sweep(SweepCommand<'a>),
    Steps(ImageRun<'a, Steps>),
    Terms(UnderTerms<'a, OfferedTerms>),
}

/// The command that the words are.
#[tactic(auto, unfolding(cli_calls::specs::CommandNames::command_of))]
pub fn read_command<'a>(
    alloc: Global,
    words: &'a [String],
) -> Result<Option<LabCommand<'a>>, AllocError>
    ensures command { IfOk result (λ o. option_map lab_asks o ≡ command_of lab_commands (texts words.entry.now)) }
    ensures bounds { IfOk result (λ o. IfSome o IsLabBounded) }
{
    if words.is_empty() {
        return Ok(None);
    }
    command_by(alloc, words[0].as_str(), words)
}

// The command of a name, with the words after the first.
#[tactic(auto, unfolding(cli_calls::specs::CommandNames::command_of))]
fn command_by<'a>(
    alloc: Global,
    name: &str,
    words: &'a [String],
) -> Result<Option<LabCommand<'a>>, AllocError>
    ensures command { IfOk result (λ o. option_map lab_asks o
        ≡ command_of lab_commands (name.now ∷ drop 1 (texts words.entry.now))) }
    ensures bounds { IfOk result (λ o. IfSome o IsLabBounded) }
{
    if name == "map" {
        Ok(read::<ObjectsCommand<MapText>>(alloc, "map", words, 2, 65)?.map(LabCommand::Map))
    } else if name == "released" {
        Ok(read::<UnderTerms<Released>>(alloc, "released", words, 4, 4)?.map(LabCommand::Released))
    } else if name == "sweep" {
        Ok(read::<SweepCommand>(alloc, "sweep", words, 6, 6)?.map(LabCommand::Sweep))
    } else if name == "steps" {
        Ok(read::<ImageRun<Steps>>(alloc, "steps", words, 3, 3)?.map(LabCommand::Steps))
    } else if name == "terms" {
        Ok(read::<UnderTerms<OfferedTerms>>(alloc, "terms", words, 4, 4)?.map(LabCommand::Terms))
    } else {
        Ok(None)
    }
}

impl Answering for LabCommand<'_> {
    ghost asked = { λ line. lab_asks line };

    ghost bounds = { λ line. IsLabBounded line };

    fn answer<F: Files, O: Sink>(
        &self,
        alloc: Global,
        files: &mut F,
        out: &mut O,
    ) -> Result<Status, Refused<'_>> {
        match self {
            LabCommand::Map(command) => command.answer(alloc, files, out),
            LabCommand::Released(command) => command.answer(alloc, files, out),
            LabCommand::Sweep(command) => command.answer(alloc, files, out),
            LabCommand::Steps(command) => command.answer(alloc, files, out),
            LabCommand::Terms(command) => command.answer(alloc, files, out),
        }
    }
}
