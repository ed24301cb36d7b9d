//! What is accepted as a layout's text, and its layout.
ghost use Rattle.std.specs.Prelude.{◌<◌, ◌≤◌};

use layout_file::{Layout, Section, read_layout};
use std::alloc::Global;
use std::test::Fail;

/// A layout of version 2 with two modules, a line each.
static LINES: [&str; 22] = [
    "version = 2",
    "key = \"000102030405060708090a0B0c0D0e0f\"",
    "handler_sp = 0x0600",
    "text = [0x0200, 0x0400]",
    "data = [0x0400, 0x0600]",
    "vectors = { v15 = \"main\", v2 = \"\" }",
    "[[module]]",
    "name = \"a\"",
    "vendor = 7",
    "text = [0x0800, 0x0900]",
    "data = [0x0a00, 0x0b00]",
    "stack = 32",
    "entries = [\"f\"]",
    "boot = 2",
    "[[module]]",
    "name = \"b\"",
    "vendor = 8",
    "text = [0x0900, 0x0a00]",
    "data = [0x0b00, 0x0b00]",
    "stack = 2",
    "entries = [\"g\", \"h\"]",
    "boot = 1",
];

/// The number of a line of the layout, and what stands in its place.
type Change<'a> = (usize, &'a str);

/// The line as it stands in the changed layout.
fn changed_line<'a>(number: usize, line: &'a str, changes: &[Change<'a>]) -> &'a str {
    match changes.iter().find(|change| change.0 == number) {
        Some(change) => change.1,
        None => line,
    }
}

/// The text of some lines, each with this end.
fn text_of<'a>(
    alloc: Global,
    lines: &[&'a str],
    changes: &[Change<'a>],
    end: &str,
) -> Result<String, Fail> {
    let mut text = String::new(alloc);
    for (number, line) in lines.iter().enumerate() {
        text.push_str(changed_line(number, line, changes))?;
        text.push_str(end)?;
    }
    Ok(text)
}

/// The layout of a text.
fn layout_of(alloc: Global, text: &str) -> Result<Layout, Fail> {
    match read_layout(alloc, text.as_bytes()) {
        Ok(layout) => Ok(layout),
        Err(_) => Err(Fail::from("refused")),
    }
}

/// A whole layout of version 1 with no vectors and no modules.
const SMALL: &str =
    "version = 1\nkey = \"000102030405060708090a0b0c0d0e0f\"\nhandler_sp = 0x0600\ntext = [0x0200, 0x0400]\ndata = [0x0400, 0x0600]\n";

const NODE_KEY: [u8; 16] = [0, 1, 2, 3, 4, 5, 6, 7, 8, 9, 10, 11, 12, 13, 14, 15];

#[test]
fn small_layout(rt: HostRuntime) -> Result<(), Fail> {
    let layout = layout_of(rt.alloc(), SMALL)?;
    assert_eq!(rt; layout.room, 8);
    assert_eq!(rt; layout.key, NODE_KEY);
    assert_eq!(rt; layout.handler_sp, 0x0600);
    assert_eq!(rt;
        layout.text,
        Section {
            start: 0x0200,
            end: 0x0400
        }
    );
    assert_eq!(rt;
        layout.ram,
        Section {
            start: 0x0400,
            end: 0x0600
        }
    );
    assert_eq!(rt; layout.vectors.len(), 0);
    assert_eq!(rt; layout.modules.len(), 0);
    Ok(())
}

/// The layout is that of `LINES`.
fn is_that_of_lines(layout: &Layout) -> bool {
    let [v2, v15] = layout.vectors.as_slice() else {
        return false;
    };
    let [a, b] = layout.modules.as_slice() else {
        return false;
    };
    layout.room == 32
        && layout.key == NODE_KEY
        && (v2.vector, v2.name.as_str()) == (2, "")
        && (v15.vector, v15.name.as_str()) == (15, "main")
        && (a.name.as_str(), a.vendor, a.stack, a.boot) == ("a", 7, 32, 2)
        && (b.name.as_str(), b.vendor, b.stack, b.boot) == ("b", 8, 2, 1)
        && a.text
            == (Section {
                start: 0x0800,
                end: 0x0900,
            })
        && b.ram
            == (Section {
                start: 0x0b00,
                end: 0x0b00,
            })
        && a.entries.len() == 1
        && b.entries.len() == 2
}

/// The same layout in other words of TOML.
static SAME: [Change<'static>; 16] = [
    (0, "version = 2 # the second"),
    (0, "\"version\" = 2"),
    (0, "'version' = +2"),
    (0, "\u{feff}version = 0x2"),
    (1, "key = '000102030405060708090A0B0C0D0E0F'"),
    (1, "key = \"\"\"000102030405060708090a0b0c0d0e0f\"\"\""),
    (2, "handler_sp = 1_536"),
    (2, "handler_sp = 0x06_00"),
    (2, "handler_sp = 0o3000"),
    (2, "handler_sp = 0b110_0000_0000"),
    (3, "text = [\n  512, # from\n  1_024,\n]"),
    (5, "vectors.v15 = 'main'\nvectors.\"v2\" = ''"),
    (5, "[vectors]\nv2 = \"\"\nv15 = \"m\\u0061in\""),
    (6, "[[ module ]]"),
    (14, "[['module']]"),
    (20, "entries = ['g', \"\"\"h\"\"\",]"),
];

#[test]
fn other_words(rt: HostRuntime) -> Result<(), Fail> {
    let alloc = rt.alloc();
    for change in &SAME {
        let text = text_of(alloc, LINES.as_slice(), [*change].as_slice(), "\n")?;
        let layout = layout_of(alloc, text.as_str())?;
        assert!(rt; is_that_of_lines(&layout), "{change:?}");
    }
    for end in ["\n", "\r\n", "\n\n", " # end\n"] {
        let text = text_of(alloc, LINES.as_slice(), &[], end)?;
        assert!(rt;
            is_that_of_lines(&layout_of(alloc, text.as_str())?),
            "{end:?}"
        );
    }
    Ok(())
}

/// The modules of `LINES` as inline tables.
const INLINE: &str =
    "module = [{ name = \"a\", vendor = 7, text = [0x0800, 0x0900], data = [0x0a00, 0x0b00], stack = 32, entries = [\"f\"], boot = 2 }, { boot = 1, name = \"b\", vendor = 8, text = [0x0900, 0x0a00], data = [0x0b00, 0x0b00], stack = 2, entries = [\"g\", \"h\"] }]\n";

#[test]
fn inline_modules(rt: HostRuntime) -> Result<(), Fail> {
    let alloc = rt.alloc();
    let mut text = text_of(alloc, &LINES[..6], &[], "\n")?;
    text.push_str(INLINE)?;
    assert!(rt; is_that_of_lines(&layout_of(alloc, text.as_str())?));
    Ok(())
}

/// Each bound at its ends.
static EDGES: [Change<'static>; 17] = [
    (2, "handler_sp = 0"),
    (2, "handler_sp = 65534"),
    (3, "text = [0x0200, 0x0200]"),
    (3, "text = [0xffe0, 0xffe0]"),
    (4, "data = [0x0c00, 0xffe0]"),
    (5, "vectors = {}"),
    (5, ""),
    (7, "name = \"_\""),
    (7, "name = \"ABCDEFGHIJKLMNOPQRSTUVWXYZ012345\""),
    (8, "vendor = 0"),
    (8, "vendor = 65535"),
    (9, "text = [0x0300, 0x0300]"),
    (11, "stack = 2"),
    (11, "stack = 32768"),
    (12, "entries = [\"\"]"),
    (13, "boot = 32"),
    (21, "boot = 3"),
];

#[test]
fn ends_of_bounds(rt: HostRuntime) -> Result<(), Fail> {
    let alloc = rt.alloc();
    for change in &EDGES {
        let text = text_of(alloc, LINES.as_slice(), [*change].as_slice(), "\n")?;
        let layout = layout_of(alloc, text.as_str())?;
        assert_eq!(rt; layout.modules.len(), 2, "{change:?}");
    }
    let mut text = text_of(alloc, LINES.as_slice(), [(20, "")].as_slice(), "\n")?;
    text.push_str("entries = [")?;
    for _ in 0..64 {
        text.push_str("\"e\",")?;
    }
    text.push_str("]\n")?;
    let layout = layout_of(alloc, text.as_str())?;
    assert_eq!(rt; layout.modules.last().ok_or("module")?.entries.len(), 64);
    Ok(())
}

/// Adds the table of a module. In version 2 the last module is protected first.
fn push_module(alloc: Global, text: &mut String, version: u16, number: u16) -> Result<(), Fail>
    requires { number < 32 }
{
    let start = 0x1000 + 0x100 * number;
    let middle = start + 0x80;
    let end = start + 0x100;
    let module = format!(in alloc;
        "[[module]]\nname = \"m{number}\"\nvendor = {number}\ntext = [{start}, {middle}]\ndata = [{middle}, {end}]\nstack = 2\nentries = [\"f\"]\n"
    )?;
    text.push_str(module.as_str())?;
    if version == 2 {
        let boot = 32 - number;
        let line = format!(in alloc; "boot = {boot}\n")?;
        text.push_str(line.as_str())?;
    }
    Ok(())
}

/// A layout of some modules.
fn layout_with(alloc: Global, version: u16, count: u16) -> Result<Layout, Fail>
    requires { count ≤ 32 }
{
    let first = if version == 1 {
        "version = 1"
    } else {
        "version = 2"
    };
    let mut text = text_of(alloc, &LINES[..6], [(0, first)].as_slice(), "\n")?;
    for number in 0..count {
        push_module(alloc, &mut text, version, number)?;
    }
    layout_of(alloc, text.as_str())
}

#[test]
fn full_layouts(rt: HostRuntime) -> Result<(), Fail> {
    let first = layout_with(rt.alloc(), 1, 8)?;
    assert_eq!(rt; first.room, 8);
    assert_eq!(rt; first.modules.len(), 8);
    assert_eq!(rt; first.modules.last().ok_or("module")?.boot, 8);
    let second = layout_with(rt.alloc(), 2, 32)?;
    assert_eq!(rt; second.room, 32);
    assert_eq!(rt; second.modules.len(), 32);
    assert_eq!(rt; second.modules.last().ok_or("module")?.boot, 1);
    Ok(())
}
