//! The program: the system's words, files and streams, and one call.
#![tactic(auto)]

use sm_cli::{Status, serve};
use sm_io::{DiskFiles, Failed, NoMemory, StdSink, put_all};
use std::alloc::{AllocError, Global};
use std::env;
use std::io::ErrorKind;
use std::process::ExitCode;

// The words after the program's name. A word that is not UTF-8 makes no command line, as no words do.
fn words_of(rt: &HostRuntime, alloc: Global) -> Result<Vec<String>, NoMemory> {
    let mut words = Vec::new(alloc);
    match env::args(rt) {
        Ok(args) => {
            for word in args.skip(1) {
                words.push(word)?;
            }
        }
        Err(fault) if fault.kind() == ErrorKind::OutOfMemory => return Err(AllocError),
        Err(_) => {}
    }
    Ok(words)
}

fn main(rt: HostRuntime) -> ExitCode {
    let alloc = rt.alloc();
    let mut out = StdSink::new(rt.stdout());
    let mut err = StdSink::new(rt.stderr());
    let status = match words_of(&rt, alloc) {
        Ok(words) => {
            let mut files = DiskFiles::new(rt);
            serve(alloc, words.as_slice(), &mut files, &mut out, &mut err)
        }
        Err(AllocError) => match put_all(&mut err, b"sancus: no memory\n") {
            Ok(()) => Status::NoMemory,
            Err(Failed) => Status::WriteFault,
        },
    };
    ExitCode::from(status.number())
}
