//! Objects that are linked, and run.

use crate::objects::{LAYOUTS, OBJECTS, PATCHED};
use crate::player::{assert_gave, call, content, play, played};
use sm_cli::Status;
use std::alloc::Global;
use std::process::Abort;
use std::test::Fail;

// Objects with the images that they link to, and a run.
const LINKS: &str = "\
out 0 link empty.toml empty.o
sancus-image 1
key 000102030405060708090a0b0c0d0e0f
handler 0600
end

out 0 link call.toml call.o
sancus-image 1
key 00000000000000000000000000000000
handler 0600
module 0007 0800 0850 0a00 0a24
at 0200 3740080230400008ff3f000000000000
at 0800 37900008042837905008012cff3f3690
at 0810 01001a2c8241000a8247020a3140240a
at 0820 065696124c081142000a044305430643
at 0830 0743084309430a430b430d430e430f43
at 0840 32c007011042020a0c4300474e083041
at fff0 00000000000000000000000000000002
end

out 0 link small.toml room.o
sancus-image 1
key 00000000000000000000000000000000
handler 0600
end

out 0 link empty.toml weak.o
sancus-image 1
key 000102030405060708090a0b0c0d0e0f
handler 0600
at 0200 30400400ff3f00000000000000000000
end

start 0 link pair.toml pair.o
sancus-image 2
key 00000000000000000000000000000000
handler 0600
modules 2
module 0009 0900 0950 0b00 0b24
module 0007 0800 0850 0a00 0a24

out 0 run call.toml - 60 call.o
5 enter 1 from 0
51 leave 1 pc 0208
end 60 outside 0208 0000 0000 0000 0000 0000 0000 0000 0000 0000 0000 0000 0000 0000 0000 0000
";

// Objects that do not link.
const REFUSALS: &str = "\
err 5 link small.toml full.o
sancus: link Region Text 33 32

err 5 link call.toml call.o call.o
sancus: link Duplicate 0 1 1 1 name main

err 5 run call.toml - 60 empty.o
sancus: link NoVector 15 name main

err 5 link empty.toml empty.o gone.o
sancus: link Undefined 1 1 name gone
";

// Layouts that are none.
const NO_FILES: &str = "\
err 4 link call.o call.o
sancus: bad file call.o: Utf8OrToml

err 4 link none.toml none.o
sancus: bad file none.toml: MissingKey - version

err 4 link three.toml none.o
sancus: bad file three.toml: OutOfRange - version 3
";

#[test]
fn links(rt: HostRuntime) -> Result<(), Fail> {
    play(&rt, rt.alloc(), &[LAYOUTS, OBJECTS, PATCHED, LINKS])
}

#[test]
fn refusals_to_link(rt: HostRuntime) -> Result<(), Fail> {
    play(&rt, rt.alloc(), &[LAYOUTS, OBJECTS, PATCHED, REFUSALS])
}

#[test]
fn files_that_do_not_serve(rt: HostRuntime) -> Result<(), Fail> {
    play(&rt, rt.alloc(), &[LAYOUTS, OBJECTS, NO_FILES])
}

// An object of no sections that is cut off.
#[test]
fn cut_objects(rt: HostRuntime) -> Result<(), Fail> {
    let alloc = rt.alloc();
    let mut files = played(&rt, alloc, &[LAYOUTS, OBJECTS])?;
    let object = content(alloc, &mut files, "empty.o");
    for size in 0..52usize {
        files.put_file("cut.o", object.get(..size).unwrap_or(b""))?;
        let line = format!(in alloc; "sancus: bad file cut.o: Short {size}\n")?;
        let given = call(alloc, "link empty.toml empty.o cut.o", &mut files)?;
        assert_gave(
            &rt,
            &given,
            Status::BadFile.number(),
            b"",
            line.as_bytes(),
            "cut",
        );
    }
    Ok(())
}

const EMPTY_TEXT: &str = "sancus-image 1
key 000102030405060708090a0b0c0d0e0f
handler 0600
end
";

const AT_REST: &str =
    "end 0 outside 0000 0000 0000 0000 0000 0000 0000 0000 0000 0000 0000 0000 0000 0000 0000 0000\n";

// A line that ends with so many objects, where 1 and 64 give this output.
fn assert_count(
    rt: &impl Abort,
    alloc: Global,
    start: &str,
    count: usize,
    text: &str,
) -> Result<(), Fail> {
    let mut line = String::from_str(alloc, start)?;
    for _ in 0..count {
        line.push_str(" empty.o")?;
    }
    let mut files = played(rt, alloc, &[LAYOUTS, OBJECTS])?;
    let given = call(alloc, line.as_str(), &mut files)?;
    let (status, out, err) = if count == 1 || count == 64 {
        (Status::Done, text, "")
    } else {
        (Status::Usage, "", "sancus: usage\n")
    };
    assert_gave(
        rt,
        &given,
        status.number(),
        out.as_bytes(),
        err.as_bytes(),
        start,
    );
    Ok(())
}

// A call links 1 to 64 objects.
#[test]
fn as_many_objects(rt: HostRuntime) -> Result<(), Fail> {
    let alloc = rt.alloc();
    for count in [0usize, 1, 64, 65] {
        assert_count(&rt, alloc, "link empty.toml", count, EMPTY_TEXT)?;
        assert_count(&rt, alloc, "run empty.toml - 0", count, AT_REST)?;
    }
    Ok(())
}
