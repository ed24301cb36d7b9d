//! Each call of the files and of each sink failing in turn, for every command.

use crate::player::{Given, assert_gave, call, call_into, content, played, words_of};
use crate::served::{COMMANDS, FILES, MAKE, Served, served_of};
use sm_cli::Status;
use sm_io::{MemFiles, MemSink};
use std::alloc::Global;
use std::process::Abort;
use std::test::Fail;

/// More calls than any command here makes.
const MOST_CALLS: u64 = 100;

/// A short file is read by two calls: its bytes, and that there are no more.
const READS_OF_A_FILE: u64 = 2;

/// More than any output or line of a refusal here.
const ROOM: usize = 4_000;

// Some of the files, none of which has been read.
fn unread(alloc: Global, files: &mut MemFiles, names: &[&str]) -> Result<MemFiles, Fail> {
    let mut unread = MemFiles::new(alloc);
    for name in names {
        let bytes = content(alloc, files, name);
        unread.put_file(name, bytes.as_slice())?;
    }
    Ok(unread)
}

// The file of a read that fails is told, and nothing else.
fn assert_reads(
    rt: &impl Abort,
    alloc: Global,
    files: &mut MemFiles,
    served: Served<'_>,
) -> Result<(), Fail> {
    let line = served.words;
    let reads: Vec<&str> = served.reads.split_whitespace().collect(alloc)?;
    for number in 0..MOST_CALLS {
        let mut failing = unread(alloc, files, reads.as_slice())?;
        failing.fail_at(number)?;
        let given = call(alloc, line, &mut failing)?;
        if given.status == served.status {
            assert_eq!(rt; number, READS_OF_A_FILE * reads.len() as u64, "{line}");
            return Ok(());
        }
        let file = (number / READS_OF_A_FILE) as usize;
        let name = reads.get(file).copied().unwrap_or("");
        let err = format!(in alloc; "sancus: cannot read {name}\n")?;
        assert_gave(
            rt,
            &given,
            Status::ReadFault.number(),
            b"",
            err.as_bytes(),
            line,
        );
    }
    assert!(rt; false, "{line} makes more calls");
    Ok(())
}

fn failing_sink(alloc: Global, number: u64) -> Result<MemSink, Fail> {
    let mut sink = MemSink::new(alloc, ROOM)?;
    sink.fail_at(number)?;
    Ok(sink)
}

// The text that was taken is cut off before the end of the whole.
fn assert_cut(rt: &impl Abort, given: &Given, taken: &[u8], whole: &[u8], told: &str) {
    assert_eq!(rt; given.status, Status::WriteFault.number(), "{told}");
    assert!(rt; whole.starts_with(taken), "{told}");
    assert!(rt; taken.len() < whole.len(), "{told}");
}

// Where a write of the output fails, the output is cut off.
fn assert_writes(
    rt: &impl Abort,
    alloc: Global,
    files: &mut MemFiles,
    served: Served<'_>,
) -> Result<(), Fail> {
    let line = served.words;
    let words = words_of(alloc, line)?;
    let whole = call(alloc, line, files)?;
    let (out, err) = (whole.out.taken(), whole.err.taken());
    assert_eq!(rt; whole.status, served.status, "{line}");
    for number in 0..MOST_CALLS {
        let sink = failing_sink(alloc, number)?;
        let given = call_into(
            alloc,
            words.as_slice(),
            files,
            sink,
            MemSink::new(alloc, ROOM)?,
        );
        if given.status == served.status {
            assert_gave(rt, &given, served.status, out, err, line);
            return Ok(());
        }
        assert_cut(rt, &given, given.out.taken(), out, line);
        assert_eq!(rt; given.err.taken(), b"".as_slice(), "{line}");
    }
    assert!(rt; false, "{line} makes more calls");
    Ok(())
}

// Where a write of a refusal's line fails, the line is cut off.
fn assert_refusals(
    rt: &impl Abort,
    alloc: Global,
    files: &mut MemFiles,
    served: Served<'_>,
) -> Result<(), Fail> {
    let line = served.refused;
    let words = words_of(alloc, line)?;
    let err = format!(in alloc; "{}\n", served.err)?;
    for number in 0..MOST_CALLS {
        let sink = failing_sink(alloc, number)?;
        let given = call_into(
            alloc,
            words.as_slice(),
            files,
            MemSink::new(alloc, ROOM)?,
            sink,
        );
        if given.status == served.refusal {
            assert_gave(rt, &given, served.refusal, b"", err.as_bytes(), line);
            return Ok(());
        }
        assert_cut(rt, &given, given.err.taken(), err.as_bytes(), line);
        assert_eq!(rt; given.out.taken(), b"".as_slice(), "{line}");
    }
    assert!(rt; false, "{line} makes more calls");
    Ok(())
}

#[test]
fn each_read_fails(rt: HostRuntime) -> Result<(), Fail> {
    let mut files = played(&rt, rt.alloc(), &[FILES])?;
    for block in COMMANDS.split("\n\n") {
        assert_reads(&rt, rt.alloc(), &mut files, served_of(block)?)?;
    }
    assert_reads(&rt, rt.alloc(), &mut files, served_of(MAKE)?)
}

#[test]
fn each_write_fails(rt: HostRuntime) -> Result<(), Fail> {
    let mut files = played(&rt, rt.alloc(), &[FILES])?;
    for block in COMMANDS.split("\n\n") {
        assert_writes(&rt, rt.alloc(), &mut files, served_of(block)?)?;
    }
    Ok(())
}

#[test]
fn each_write_of_make_fails(rt: HostRuntime) -> Result<(), Fail> {
    let mut files = MemFiles::new(rt.alloc());
    assert_writes(&rt, rt.alloc(), &mut files, served_of(MAKE)?)
}

#[test]
fn each_write_of_a_refusal_fails(rt: HostRuntime) -> Result<(), Fail> {
    let mut files = played(&rt, rt.alloc(), &[FILES])?;
    for block in COMMANDS.split("\n\n") {
        assert_refusals(&rt, rt.alloc(), &mut files, served_of(block)?)?;
    }
    assert_refusals(&rt, rt.alloc(), &mut files, served_of(MAKE)?)
}
