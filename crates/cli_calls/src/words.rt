// The values among a command's words, read by clap.
ghost use Rattle.std.specs.Prelude.{◌≡◌, ◌<◌, ◌≤◌, IfOk, map, drop, option_map, string_bytes};
ghost use Rattle.clap.specs.Simple.{app_of};
ghost use Rattle.cli_calls.specs.internal.App.{app};
ghost use Rattle.cli_calls.specs.Words.{values_within};

use clap::error::ErrorKind;
use clap::{Arg, ArgAction, Command};
use std::alloc::{AllocError, Global};

// A command of this name and one argument, which takes from `least` to `most` words.
fn simple_command<'a>(
    alloc: Global,
    name: &'a str,
    least: usize,
    most: usize,
) -> Result<Command<'a>, AllocError>
    requires { least ≤ most }
    ensures { IfOk result (λ c. app_of c ≡ app name.entry.now least most) }
{
    let values = Arg::new(alloc, "words")
        .action(ArgAction::Set)
        .required(true)
        .num_args(least..=most);
    Command::new(alloc, name)
        .disable_help_flag(true)
        .arg(values)
}

/// The values among the words after the first, which is the command's name, where there are from `least` to `most` of
/// them.
pub fn values_of<'a>(
    alloc: Global,
    name: &'a str,
    words: &'a [String],
    least: usize,
    most: usize,
) -> Result<Option<Vec<&'a str>>, AllocError>
    requires some { 0 < least }
    requires order { least ≤ most }
    ensures { IfOk result (λ o. option_map (λ v. map (λ w. w.now) v.items) o
        ≡ values_within least most (drop 1 (map string_bytes words.entry.now))) }
{
    let command = simple_command(alloc, name, least, most)?;
    match command.try_get_matches_from(words) {
        Ok(matches) => match matches.get_raw("words") {
            Some(found) => Ok(Some(found.to_vec(alloc)?)),
            None => Ok(None),
        },
        Err(error) => match error.kind() {
            ErrorKind::OutOfMemory => Err(AllocError),
            _ => Ok(None),
        },
    }
}
