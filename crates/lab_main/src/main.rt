//! The program: the system's words, files and streams, and one call. Its help and its version are clap's.
#![tactic(auto)]

use clap::{Arg, Command};
use cli_calls::tell;
use cli_files::{NO_MEMORY, Status, status_after};
use lab_cli::serve;
use sm_io::{DiskFiles, Sink, StdSink, put_all};
use std::alloc::{AllocError, Global};
use std::env;
use std::io::ErrorKind;
use std::process::ExitCode;

/// The program's name.
const NAME: &str = "sancus-lab";

/// The version of the repository's programs, as the newest one of CHANGELOG.md.
const VERSION: &str = "1.6.0";

/// At most so many objects are linked.
const MOST_OBJECTS: usize = 64;

// The words after the program's name. A word that is not UTF-8 makes no command line, as no words do.
fn words_of(rt: &HostRuntime, alloc: Global) -> Result<Vec<String>, AllocError> {
    let mut words = Vec::new(alloc);
    match env::args(rt) {
        Ok(args) => {
            for word in args.skip(1) {
                words.push(word)?;
            }
        }
        Err(fault) if fault.kind() == ErrorKind::OutOfMemory => return Err(AllocError),
        Err(_) => {}
    }
    Ok(words)
}

// A command that judges a module under terms.
fn judging<'a>(alloc: Global, name: &'a str, about: &'a str) -> Result<Command<'a>, AllocError> {
    Command::new(alloc, name)
        .about(about)
        .arg(Arg::new(alloc, "IMAGE").required(true))?
        .arg(Arg::new(alloc, "ID").required(true))?
        .arg(Arg::new(alloc, "TERMS").required(true))?
        .arg(Arg::new(alloc, "ARMS").required(true))
}

// What clap tells of the program.
fn described<'a>(alloc: Global) -> Result<Command<'a>, AllocError> {
    let objects = Arg::new(alloc, "OBJ")
        .required(true)
        .num_args(1..=MOST_OBJECTS);
    let map = Command::new(alloc, "map")
        .about("Writes where all that objects link to stands, by name")
        .arg(Arg::new(alloc, "LAYOUT").required(true))?
        .arg(objects)?;
    let released = judging(
        alloc,
        "released",
        "Says whether a module tells nothing but its answers",
    )?;
    let steps = Command::new(alloc, "steps")
        .about("Runs an image, and writes each instruction with what it reads, writes and changes")
        .arg(Arg::new(alloc, "IMAGE").required(true))?
        .arg(Arg::new(alloc, "SCHEDULE").required(true))?
        .arg(Arg::new(alloc, "CYCLES").required(true))?;
    let images = Arg::new(alloc, "IMAGE").required(true).num_args(2..=2);
    let sweep = Command::new(alloc, "sweep")
        .about("Runs two images with a pulse in each cycle of a span, and compares their traces")
        .arg(images)?
        .arg(Arg::new(alloc, "LINE").required(true))?
        .arg(Arg::new(alloc, "FROM").required(true))?
        .arg(Arg::new(alloc, "TO").required(true))?
        .arg(Arg::new(alloc, "CYCLES").required(true))?;
    let terms = judging(
        alloc,
        "terms",
        "Writes the terms that a module needs, of those granted",
    )?;
    Command::new(alloc, NAME)
        .version(VERSION)
        .about("Tells the owner of an image of protected modules what sancus leaves out")
        .disable_help_subcommand(true)
        .subcommand(map)?
        .subcommand(released)?
        .subcommand(steps)?
        .subcommand(sweep)?
        .subcommand(terms)
}

// What clap answers to a line that is no command.
fn told_of<'a>(alloc: Global, line: &'a [&'a str]) -> Result<Option<String>, AllocError> {
    let command = described(alloc)?;
    match command.try_get_matches_from(line) {
        Ok(_matches) => Ok(None),
        Err(error) => match error.kind() {
            clap::error::ErrorKind::OutOfMemory => Err(AllocError),
            _ => Ok(Some(format!(in alloc; "{error}")?)),
        },
    }
}

// The help or the version, where a word asks for it and there is no other.
fn help_of(alloc: Global, words: &[String]) -> Result<Option<String>, AllocError> {
    let [word] = words else {
        return Ok(None);
    };
    let word = word.as_str();
    if word != "--help" && word != "--version" {
        return Ok(None);
    }
    told_of(alloc, &[NAME, word])
}

// Does what the words ask for.
fn answered<O: Sink, E: Sink>(
    rt: HostRuntime,
    alloc: Global,
    out: &mut O,
    err: &mut E,
) -> Result<Status, AllocError> {
    let words = words_of(&rt, alloc)?;
    if let Some(text) = help_of(alloc, words.as_slice())? {
        return Ok(status_after(put_all(out, text.as_bytes())));
    }
    let mut files = DiskFiles::new(rt);
    Ok(serve(alloc, words.as_slice(), &mut files, out, err))
}

fn main(rt: HostRuntime) -> ExitCode {
    let alloc = rt.alloc();
    let mut out = StdSink::new(rt.stdout());
    let mut err = StdSink::new(rt.stderr());
    let status = match answered(rt, alloc, &mut out, &mut err) {
        Ok(status) => status,
        Err(AllocError) => tell(&mut err, NAME.as_bytes(), NO_MEMORY),
    };
    ExitCode::from(status.number())
}
