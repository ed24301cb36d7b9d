//! Plays texts that say files, calls of the program, and what each call has to give.
//!
//! A text is blocks with an empty line between two. The first line of a block says what it is:
//!
//!     # ..                          a comment
//!     file NAME                     a file of the lines that follow
//!     more NAME COUNT               these lines so many times at a file's end; `%` is the round's number
//!     bytes NAME                    a file of the bytes whose hexadecimal digits follow
//!     edit NAME OLD                 another file with other texts: `TEXT => OTHER` on each line, or before `&&`
//!     patch NAME OLD                another file with other bytes: `PLACE=BYTE .. # WHAT`, in decimal
//!     keep NAME WORDS               a call that ends well, whose output becomes a file
//!     holds NAME                    the file has these lines
//!     out STATUS WORDS              a call with its status and its output
//!     start STATUS WORDS            a call with its status and the first lines of its output
//!     same NAME STATUS WORDS        a call with its status, and a file's bytes as its output
//!     err STATUS WORDS              a call with its status and its line of refusal, and no output
//!     rows words STATUS             such a line, with `*` for a fault, and lines `FAULT <- WORDS`
//!     rows MAKER STATUS OLD WORDS   such a line, with `*` for a fault, and lines `FAULT <- MORE`; the words name
//!                                   the file `bad`, which is made of OLD by `edit` or `patch`, is a `text` that
//!                                   goes on with MORE, or is the object of a `source` that does
//!
//! In WORDS `''` is an empty word. In MORE and TEXT `\n` is the end of a line, and `\r` and `\t` are as in Rust.

use sm_cli::serve;
use sm_io::{MemFiles, MemSink, read_whole};
use std::alloc::Global;
use std::process::Abort;
use std::str::from_utf8;
use std::test::Fail;

/// More than any output here.
const OUT_ROOM: usize = 1_000_000;

/// More than any line of a refusal here.
const ERR_ROOM: usize = 1_000;

/// What a call gave.
#[derive(Drop)]
pub struct Given {
    pub status: u8,
    pub out: MemSink,
    pub err: MemSink,
}

/// The words of a line.
pub fn words_of(alloc: Global, line: &str) -> Result<Vec<String>, Fail> {
    let mut words = Vec::new(alloc);
    for word in line.split(' ') {
        let word = if word == "''" { "" } else { word };
        words.push(String::from_str(alloc, word)?)?;
    }
    Ok(words)
}

/// Calls with these words, on these files and sinks.
pub fn call_into(
    alloc: Global,
    words: &[String],
    files: &mut MemFiles,
    mut out: MemSink,
    mut err: MemSink,
) -> Given {
    let status = serve(alloc, words, files, &mut out, &mut err).number();
    Given { status, out, err }
}

/// Calls with these words, on these files.
pub fn call_with(alloc: Global, words: &[String], files: &mut MemFiles) -> Result<Given, Fail> {
    let out = MemSink::new(alloc, OUT_ROOM)?;
    let err = MemSink::new(alloc, ERR_ROOM)?;
    Ok(call_into(alloc, words, files, out, err))
}

/// Calls with the words of a line, on these files.
pub fn call(alloc: Global, line: &str, files: &mut MemFiles) -> Result<Given, Fail> {
    let words = words_of(alloc, line)?;
    call_with(alloc, words.as_slice(), files)
}

/// A call gave this status, this output and this line.
pub fn assert_gave(rt: &impl Abort, given: &Given, status: u8, out: &[u8], err: &[u8], told: &str) {
    assert_eq!(rt; given.err.taken(), err, "{told}");
    assert_eq!(rt; given.out.taken(), out, "{told}");
    assert_eq!(rt; given.status, status, "{told}");
}

/// The bytes of a file, none where there is no such file.
pub fn content(alloc: Global, files: &mut MemFiles, name: &str) -> Vec<u8> {
    read_whole(alloc, files, name).unwrap_or(Vec::new(alloc))
}

/// The first word of a line, and the others.
pub fn first_word(line: &str) -> (&str, &str) {
    line.split_once(' ').unwrap_or((line, ""))
}

/// The files that texts leave.
pub fn played(rt: &impl Abort, alloc: Global, texts: &[&str]) -> Result<MemFiles, Fail> {
    let mut files = MemFiles::new(alloc);
    for text in texts {
        play_on(rt, alloc, &mut files, text)?;
    }
    Ok(files)
}

/// Plays texts, one after another.
pub fn play(rt: &impl Abort, alloc: Global, texts: &[&str]) -> Result<(), Fail> {
    let _ = played(rt, alloc, texts)?;
    Ok(())
}

/// Plays a text on these files.
pub fn play_on(
    rt: &impl Abort,
    alloc: Global,
    files: &mut MemFiles,
    text: &str,
) -> Result<(), Fail> {
    for block in text.split("\n\n") {
        let (head, body) = block.split_once('\n').unwrap_or((block, ""));
        let mut lines = String::from_str(alloc, body)?;
        if !body.is_empty() && !body.ends_with('\n') {
            lines.push_str("\n")?;
        }
        play_block(rt, alloc, files, head, lines.as_str())?;
    }
    Ok(())
}

fn play_block(
    rt: &impl Abort,
    alloc: Global,
    files: &mut MemFiles,
    head: &str,
    body: &str,
) -> Result<(), Fail> {
    let (kind, more) = first_word(head);
    match kind {
        "#" => {}
        "file" => files.put_file(more, body.as_bytes())?,
        "more" => put_more(alloc, files, more, body)?,
        "bytes" => put_bytes(alloc, files, more, body)?,
        "edit" | "patch" => put_made(alloc, files, kind, more, body)?,
        "keep" => keep(rt, alloc, files, more)?,
        "holds" => assert_holds(rt, alloc, files, more, body),
        "rows" => play_rows(rt, alloc, files, more, body)?,
        "same" => {
            let (name, more) = first_word(more);
            let bytes = content(alloc, files, name);
            play_call(rt, alloc, files, kind, more, bytes.as_slice())?
        }
        _ => play_call(rt, alloc, files, kind, more, body.as_bytes())?,
    }
    Ok(())
}

fn put_more(alloc: Global, files: &mut MemFiles, head: &str, body: &str) -> Result<(), Fail> {
    let (name, count) = first_word(head);
    let count = count.parse::<u32>()?;
    let mut bytes = content(alloc, files, name);
    for number in 0..count {
        let number = format!(in alloc; "{number:04}")?;
        let lines = body.replace(alloc, "%", number.as_str())?;
        bytes.extend_from_slice(lines.as_bytes())?;
    }
    files.put_file(name, bytes.as_slice())?;
    Ok(())
}

fn put_bytes(alloc: Global, files: &mut MemFiles, name: &str, body: &str) -> Result<(), Fail> {
    let digits = body.replace(alloc, "\n", "")?;
    let bytes = hex::decode(alloc, digits.as_str())?;
    files.put_file(name, bytes.as_slice())?;
    Ok(())
}

fn put_made(
    alloc: Global,
    files: &mut MemFiles,
    maker: &str,
    head: &str,
    body: &str,
) -> Result<(), Fail> {
    let (name, old) = first_word(head);
    let bytes = made(alloc, files, maker, old, body)?;
    files.put_file(name, bytes.as_slice())?;
    Ok(())
}

fn keep(rt: &impl Abort, alloc: Global, files: &mut MemFiles, head: &str) -> Result<(), Fail> {
    let (name, line) = first_word(head);
    let given = call(alloc, line, files)?;
    assert_eq!(rt; given.status, 0, "{line}");
    files.put_file(name, given.out.taken())?;
    Ok(())
}

fn assert_holds(rt: &impl Abort, alloc: Global, files: &mut MemFiles, name: &str, body: &str) {
    let bytes = content(alloc, files, name);
    let text = from_utf8(bytes.as_slice()).unwrap_or("");
    assert!(rt; text.contains(body), "{name}");
}

// A call that gives this: as its line of refusal, as the start of its output, or as its output.
fn play_call(
    rt: &impl Abort,
    alloc: Global,
    files: &mut MemFiles,
    kind: &str,
    head: &str,
    wanted: &[u8],
) -> Result<(), Fail> {
    let (status, line) = first_word(head);
    let status = status.parse::<u8>()?;
    let given = call(alloc, line, files)?;
    match kind {
        "err" => assert_gave(rt, &given, status, b"", wanted, line),
        "out" | "same" => assert_gave(rt, &given, status, wanted, b"", line),
        "start" => {
            assert_eq!(rt; given.status, status, "{line}");
            assert!(rt; given.out.taken().starts_with(wanted), "{line}");
        }
        _ => assert!(rt; false, "{kind} {head}"),
    }
    Ok(())
}

/// A table of refusals.
#[derive(Clone, Copy)]
struct Table<'a> {
    maker: &'a str,
    status: u8,
    old: &'a str,
    line: &'a str,
    /// The line of refusal, with `*` for the fault.
    told: &'a str,
}

fn play_rows(
    rt: &impl Abort,
    alloc: Global,
    files: &mut MemFiles,
    head: &str,
    body: &str,
) -> Result<(), Fail> {
    let (maker, more) = first_word(head);
    let (status, more) = first_word(more);
    let (old, line) = first_word(more);
    let (told, rows) = body.split_once('\n').unwrap_or((body, ""));
    let table = Table {
        maker,
        status: status.parse::<u8>()?,
        old,
        line,
        told,
    };
    for row in rows.lines() {
        play_row(rt, alloc, files, table, row)?;
    }
    Ok(())
}

fn play_row(
    rt: &impl Abort,
    alloc: Global,
    files: &mut MemFiles,
    table: Table<'_>,
    row: &str,
) -> Result<(), Fail> {
    let (fault, more) = row.split_once(" <-").unwrap_or(("", row));
    let more = more.strip_prefix(' ').unwrap_or(more);
    let mut line = more;
    if table.maker != "words" {
        let bytes = made(alloc, files, table.maker, table.old, more)?;
        files.put_file("bad", bytes.as_slice())?;
        line = table.line;
    }
    let mut err = table.told.replace(alloc, "*", fault)?;
    err.push_str("\n")?;
    let given = call(alloc, line, files)?;
    assert_gave(rt, &given, table.status, b"", err.as_bytes(), row);
    Ok(())
}

// The bytes that are made of a file.
fn made(
    alloc: Global,
    files: &mut MemFiles,
    maker: &str,
    old: &str,
    more: &str,
) -> Result<Vec<u8>, Fail> {
    let mut bytes = content(alloc, files, old);
    match maker {
        "patch" => {
            patch(bytes.as_mut_slice(), more)?;
            Ok(bytes)
        }
        "edit" => edited(alloc, bytes.as_slice(), more),
        "source" => {
            bytes.extend_from_slice(unescaped(alloc, more)?.as_bytes())?;
            assembled(alloc, bytes.as_slice())
        }
        _ => {
            bytes.extend_from_slice(unescaped(alloc, more)?.as_bytes())?;
            Ok(bytes)
        }
    }
}

fn unescaped(alloc: Global, text: &str) -> Result<String, Fail> {
    let text = text.replace(alloc, "\\r", "\r")?;
    let text = text.replace(alloc, "\\t", "\t")?;
    Ok(text.replace(alloc, "\\n", "\n")?)
}

fn patch(bytes: &mut [u8], changes: &str) -> Result<(), Fail> {
    let (changes, _) = changes.split_once(" #").unwrap_or((changes, ""));
    for change in changes.split_whitespace() {
        let (place, byte) = change.split_once('=').ok_or("no change")?;
        let byte = byte.parse::<u8>()?;
        let place = place.parse::<usize>()?;
        *bytes.get_mut(place).ok_or("no such place")? = byte;
    }
    Ok(())
}

fn edited(alloc: Global, bytes: &[u8], rows: &str) -> Result<Vec<u8>, Fail> {
    let mut text = String::from_str(alloc, from_utf8(bytes).unwrap_or(""))?;
    let rows = rows.replace(alloc, " && ", "\n")?;
    for row in rows.lines() {
        let (old, new) = row.split_once(" =>").ok_or("no edit")?;
        let old = unescaped(alloc, old)?;
        let new = unescaped(alloc, new.strip_prefix(' ').unwrap_or(new))?;
        text = text.replace(alloc, old.as_str(), new.as_str())?;
    }
    Ok(text.into_bytes())
}

fn assembled(alloc: Global, source: &[u8]) -> Result<Vec<u8>, Fail> {
    let mut files = MemFiles::new(alloc);
    files.put_file("bad.s", source)?;
    let object = call(alloc, "asm bad.s", &mut files)?;
    Ok(Vec::from_slice(alloc, object.out.taken())?)
}
