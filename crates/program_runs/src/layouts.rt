//! Layouts with lines in place of others, and which fault is told.

use crate::player::play;
use std::test::Fail;

/// A layout of version 2 with two modules, and its lines before the first.
pub const LINES: &str = r#"file lines.toml
version = 2
key = "000102030405060708090a0B0c0D0e0f"
handler_sp = 0x0600
text = [0x0200, 0x0400]
data = [0x0400, 0x0600]
vectors = { v15 = "main", v2 = "" }
[[module]]
name = "a"
vendor = 7
text = [0x0800, 0x0900]
data = [0x0a00, 0x0b00]
stack = 32
entries = ["f"]
boot = 2
[[module]]
name = "b"
vendor = 8
text = [0x0900, 0x0a00]
data = [0x0b00, 0x0b00]
stack = 2
entries = ["g", "h"]
boot = 1

file top.toml
version = 2
key = "000102030405060708090a0B0c0D0e0f"
handler_sp = 0x0600
text = [0x0200, 0x0400]
data = [0x0400, 0x0600]
vectors = { v15 = "main", v2 = "" }
"#;

// A value of each other kind at a key.
const KINDS: &str = r#"rows edit 4 lines.toml link bad none.o
sancus: bad file bad: *
WrongKind - version <- version = 2 => version = "x"
WrongKind - version <- version = 2 => version = 1.5
WrongKind - version <- version = 2 => version = true
WrongKind - version <- version = 2 => version = 1979-05-27
WrongKind - version <- version = 2 => version = [1]
WrongKind - version <- version = 2 => version = { a = 1 }
WrongKind - key <- key = "000102030405060708090a0B0c0D0e0f" => key = 7
WrongKind - key <- key = "000102030405060708090a0B0c0D0e0f" => key = 1.5
WrongKind - key <- key = "000102030405060708090a0B0c0D0e0f" => key = true
WrongKind - key <- key = "000102030405060708090a0B0c0D0e0f" => key = 1979-05-27
WrongKind - key <- key = "000102030405060708090a0B0c0D0e0f" => key = [1]
WrongKind - key <- key = "000102030405060708090a0B0c0D0e0f" => key = { a = 1 }
WrongKind - handler_sp <- handler_sp = 0x0600 => handler_sp = "x"
WrongKind - handler_sp <- handler_sp = 0x0600 => handler_sp = 1.5
WrongKind - handler_sp <- handler_sp = 0x0600 => handler_sp = true
WrongKind - handler_sp <- handler_sp = 0x0600 => handler_sp = 1979-05-27
WrongKind - handler_sp <- handler_sp = 0x0600 => handler_sp = [1]
WrongKind - handler_sp <- handler_sp = 0x0600 => handler_sp = { a = 1 }
WrongKind - text <- text = [0x0200, 0x0400] => text = 7
WrongKind - text <- text = [0x0200, 0x0400] => text = "x"
WrongKind - text <- text = [0x0200, 0x0400] => text = 1.5
WrongKind - text <- text = [0x0200, 0x0400] => text = true
WrongKind - text <- text = [0x0200, 0x0400] => text = 1979-05-27
WrongKind - text <- text = [0x0200, 0x0400] => text = { a = 1 }
WrongKind - data <- data = [0x0400, 0x0600] => data = 7
WrongKind - data <- data = [0x0400, 0x0600] => data = "x"
WrongKind - data <- data = [0x0400, 0x0600] => data = 1.5
WrongKind - data <- data = [0x0400, 0x0600] => data = true
WrongKind - data <- data = [0x0400, 0x0600] => data = 1979-05-27
WrongKind - data <- data = [0x0400, 0x0600] => data = { a = 1 }
WrongKind - vectors <- vectors = { v15 = "main", v2 = "" } => vectors = 7
WrongKind - vectors <- vectors = { v15 = "main", v2 = "" } => vectors = "x"
WrongKind - vectors <- vectors = { v15 = "main", v2 = "" } => vectors = 1.5
WrongKind - vectors <- vectors = { v15 = "main", v2 = "" } => vectors = true
WrongKind - vectors <- vectors = { v15 = "main", v2 = "" } => vectors = 1979-05-27
WrongKind - vectors <- vectors = { v15 = "main", v2 = "" } => vectors = [1]
WrongKind 1 name <- name = "b" => name = 7
WrongKind 1 name <- name = "b" => name = 1.5
WrongKind 1 name <- name = "b" => name = true
WrongKind 1 name <- name = "b" => name = 1979-05-27
WrongKind 1 name <- name = "b" => name = [1]
WrongKind 1 name <- name = "b" => name = { a = 1 }
WrongKind 1 vendor <- vendor = 8 => vendor = "x"
WrongKind 1 vendor <- vendor = 8 => vendor = 1.5
WrongKind 1 vendor <- vendor = 8 => vendor = true
WrongKind 1 vendor <- vendor = 8 => vendor = 1979-05-27
WrongKind 1 vendor <- vendor = 8 => vendor = [1]
WrongKind 1 vendor <- vendor = 8 => vendor = { a = 1 }
WrongKind 1 text <- text = [0x0900, 0x0a00] => text = 7
WrongKind 1 text <- text = [0x0900, 0x0a00] => text = "x"
WrongKind 1 text <- text = [0x0900, 0x0a00] => text = 1.5
WrongKind 1 text <- text = [0x0900, 0x0a00] => text = true
WrongKind 1 text <- text = [0x0900, 0x0a00] => text = 1979-05-27
WrongKind 1 text <- text = [0x0900, 0x0a00] => text = { a = 1 }
WrongKind 1 data <- data = [0x0b00, 0x0b00] => data = 7
WrongKind 1 data <- data = [0x0b00, 0x0b00] => data = "x"
WrongKind 1 data <- data = [0x0b00, 0x0b00] => data = 1.5
WrongKind 1 data <- data = [0x0b00, 0x0b00] => data = true
WrongKind 1 data <- data = [0x0b00, 0x0b00] => data = 1979-05-27
WrongKind 1 data <- data = [0x0b00, 0x0b00] => data = { a = 1 }
WrongKind 1 stack <- stack = 2 => stack = "x"
WrongKind 1 stack <- stack = 2 => stack = 1.5
WrongKind 1 stack <- stack = 2 => stack = true
WrongKind 1 stack <- stack = 2 => stack = 1979-05-27
WrongKind 1 stack <- stack = 2 => stack = [1]
WrongKind 1 stack <- stack = 2 => stack = { a = 1 }
WrongKind 1 entries <- entries = ["g", "h"] => entries = 7
WrongKind 1 entries <- entries = ["g", "h"] => entries = "x"
WrongKind 1 entries <- entries = ["g", "h"] => entries = 1.5
WrongKind 1 entries <- entries = ["g", "h"] => entries = true
WrongKind 1 entries <- entries = ["g", "h"] => entries = 1979-05-27
WrongKind 1 entries <- entries = ["g", "h"] => entries = { a = 1 }
WrongKind 1 boot <- boot = 1 => boot = "x"
WrongKind 1 boot <- boot = 1 => boot = 1.5
WrongKind 1 boot <- boot = 1 => boot = true
WrongKind 1 boot <- boot = 1 => boot = 1979-05-27
WrongKind 1 boot <- boot = 1 => boot = [1]
WrongKind 1 boot <- boot = 1 => boot = { a = 1 }
"#;

// Each key of the top table, broken in each way but by a value of another kind.
const TOP_CASES: &str = r#"rows edit 4 lines.toml link bad none.o
sancus: bad file bad: *
MissingKey - version <- version = 2 =>
OutOfRange - version 0 <- version = 2 => version = 0
OutOfRange - version 3 <- version = 2 => version = 3
OutOfRange - version -1 <- version = 2 => version = -1
MissingKey - key <- key = "000102030405060708090a0B0c0D0e0f" =>
WrongKind - key <- key = "000102030405060708090a0B0c0D0e0f" => key = ""
WrongKind - key <- key = "000102030405060708090a0B0c0D0e0f" => key = "000102030405060708090a0b0c0d0e0"
WrongKind - key <- key = "000102030405060708090a0B0c0D0e0f" => key = "000102030405060708090a0b0c0d0e0f0"
WrongKind - key <- key = "000102030405060708090a0B0c0D0e0f" => key = "000102030405060708090a0b0c0d0e"
WrongKind - key <- key = "000102030405060708090a0B0c0D0e0f" => key = "000102030405060708090a0b0c0d0e0f00"
WrongKind - key <- key = "000102030405060708090a0B0c0D0e0f" => key = "000102030405060708090a0b0c0d0e0g"
WrongKind - key <- key = "000102030405060708090a0B0c0D0e0f" => key = " 00102030405060708090a0b0c0d0e0f"
MissingKey - handler_sp <- handler_sp = 0x0600 =>
OutOfRange - handler_sp -2 <- handler_sp = 0x0600 => handler_sp = -2
OutOfRange - handler_sp -1 <- handler_sp = 0x0600 => handler_sp = -1
OutOfRange - handler_sp 1 <- handler_sp = 0x0600 => handler_sp = 1
OutOfRange - handler_sp 1537 <- handler_sp = 0x0600 => handler_sp = 1537
OutOfRange - handler_sp 65535 <- handler_sp = 0x0600 => handler_sp = 65535
OutOfRange - handler_sp 65536 <- handler_sp = 0x0600 => handler_sp = 65536
MissingKey - text <- text = [0x0200, 0x0400] =>
WrongKind - text <- text = [0x0200, 0x0400] => text = []
WrongKind - text <- text = [0x0200, 0x0400] => text = [0x0200]
WrongKind - text <- text = [0x0200, 0x0400] => text = [0x0200, 0x0300, 0x0400]
WrongKind - text <- text = [0x0200, 0x0400] => text = [0x0200, "x"]
WrongKind - text <- text = [0x0200, 0x0400] => text = ["x", 0x0400]
WrongKind - text <- text = [0x0200, 0x0400] => text = [0x0200, 1.5]
WrongKind - text <- text = [0x0200, 0x0400] => text = [true, 0x0400]
WrongKind - text <- text = [0x0200, 0x0400] => text = [[0x0200, 0x0400]]
WrongKind - text <- text = [0x0200, 0x0400] => text = [0, "x"]
OutOfRange - text 510 <- text = [0x0200, 0x0400] => text = [0x01fe, 0x0400]
OutOfRange - text 513 <- text = [0x0200, 0x0400] => text = [0x0201, 0x0400]
OutOfRange - text -2 <- text = [0x0200, 0x0400] => text = [-2, 0x0400]
OutOfRange - text 65506 <- text = [0x0200, 0x0400] => text = [0x0200, 0xffe2]
OutOfRange - text 1025 <- text = [0x0200, 0x0400] => text = [0x0200, 0x0401]
OutOfRange - text 65506 <- text = [0x0200, 0x0400] => text = [0xffe2, 0xffe4]
OutOfRange - text 512 <- text = [0x0200, 0x0400] => text = [0x0400, 0x0200]
OutOfRange - text 510 <- text = [0x0200, 0x0400] => text = [0x01fe, 1]
OutOfRange - text 510 <- text = [0x0200, 0x0400] => text = [0x0400, 0x01fe]
OutOfRange - text 70000 <- text = [0x0200, 0x0400] => text = [0x0200, 70000]
MissingKey - data <- data = [0x0400, 0x0600] =>
WrongKind - data <- data = [0x0400, 0x0600] => data = [0x0400, 0x0500, 0x0600]
OutOfRange - data 65506 <- data = [0x0400, 0x0600] => data = [0x0400, 0xffe2]
OutOfRange - data 256 <- data = [0x0400, 0x0600] => data = [0x0100, 0x0600]
OutOfRange - data 1536 <- data = [0x0400, 0x0600] => data = [0x0602, 0x0600]
WrongKind - vectors <- vectors = { v15 = "main", v2 = "" } => vectors = { v0 = 7 }
WrongKind - vectors <- vectors = { v15 = "main", v2 = "" } => vectors = { v0 = 1.5 }
WrongKind - vectors <- vectors = { v15 = "main", v2 = "" } => vectors = { v0 = true }
WrongKind - vectors <- vectors = { v15 = "main", v2 = "" } => vectors = { v0 = 1979-05-27 }
WrongKind - vectors <- vectors = { v15 = "main", v2 = "" } => vectors = { v0 = [1] }
WrongKind - vectors <- vectors = { v15 = "main", v2 = "" } => vectors = { v0 = { a = 1 } }
WrongKind - vectors <- vectors = { v15 = "main", v2 = "" } => vectors = { v15 = 1, v0 = "x" }
UnknownKey - <- vectors = { v15 = "main", v2 = "" } => vectors = { v16 = "x" }
UnknownKey - <- vectors = { v15 = "main", v2 = "" } => vectors = { v01 = "x" }
UnknownKey - <- vectors = { v15 = "main", v2 = "" } => vectors = { V1 = "x" }
UnknownKey - <- vectors = { v15 = "main", v2 = "" } => vectors = { v = "x" }
UnknownKey - <- vectors = { v15 = "main", v2 = "" } => vectors = { v-1 = "x" }
UnknownKey - <- vectors = { v15 = "main", v2 = "" } => vectors = { reset = "x" }
UnknownKey - <- vectors = { v15 = "main", v2 = "" } => vectors = { v0 = 1, v16 = "x" }
UnknownKey - <- handler_sp = 0x0600 => handler_sp = 0x0600\nhandler = 1
UnknownKey - <- handler_sp = 0x0600 => handler_sp = 0x0600\nVersion = 1
UnknownKey - <- handler_sp = 0x0600 => handler_sp = 0x0600\nboot = 1
UnknownKey - <- handler_sp = 0x0600 => handler_sp = 0x0600\nname = 1
UnknownKey - <- handler_sp = 0x0600 => handler_sp = 0x0600\nv1 = 1
"#;

// Each key of a module, broken in each way but by a value of another kind.
const MODULE_CASES: &str = r#"rows edit 4 lines.toml link bad none.o
sancus: bad file bad: *
MissingKey 1 name <- name = "b" =>
WrongKind 1 name <- name = "b" => name = ""
WrongKind 1 name <- name = "b" => name = "bbbbbbbbbbbbbbbbbbbbbbbbbbbbbbbbb"
WrongKind 1 name <- name = "b" => name = "a-b"
WrongKind 1 name <- name = "b" => name = "a b"
WrongKind 1 name <- name = "b" => name = "é"
WrongKind 1 name <- name = "b" => name = "b."
MissingKey 1 vendor <- vendor = 8 =>
OutOfRange 1 vendor -1 <- vendor = 8 => vendor = -1
OutOfRange 1 vendor 65536 <- vendor = 8 => vendor = 65536
MissingKey 1 text <- text = [0x0900, 0x0a00] =>
WrongKind 1 text <- text = [0x0900, 0x0a00] => text = [0x0900]
OutOfRange 1 text 65506 <- text = [0x0900, 0x0a00] => text = [0x0900, 0xffe2]
OutOfRange 1 text 2304 <- text = [0x0900, 0x0a00] => text = [0x0902, 0x0900]
OutOfRange 1 text 2305 <- text = [0x0900, 0x0a00] => text = [0x0901, 0x0a00]
MissingKey 1 data <- data = [0x0b00, 0x0b00] =>
WrongKind 1 data <- data = [0x0b00, 0x0b00] => data = [0x0b00]
OutOfRange 1 data 510 <- data = [0x0b00, 0x0b00] => data = [0x01fe, 0x0b00]
OutOfRange 1 data 2816 <- data = [0x0b00, 0x0b00] => data = [0x0b02, 0x0b00]
MissingKey 1 stack <- stack = 2 =>
OutOfRange 1 stack -2 <- stack = 2 => stack = -2
OutOfRange 1 stack 0 <- stack = 2 => stack = 0
OutOfRange 1 stack 1 <- stack = 2 => stack = 1
OutOfRange 1 stack 3 <- stack = 2 => stack = 3
OutOfRange 1 stack 32767 <- stack = 2 => stack = 32767
OutOfRange 1 stack 32769 <- stack = 2 => stack = 32769
OutOfRange 1 stack 32770 <- stack = 2 => stack = 32770
MissingKey 1 entries <- entries = ["g", "h"] =>
WrongKind 1 entries <- entries = ["g", "h"] => entries = ["g", 1]
WrongKind 1 entries <- entries = ["g", "h"] => entries = [["g"]]
OutOfRange 1 entries 0 <- entries = ["g", "h"] => entries = []
MissingKey 1 boot <- boot = 1 =>
OutOfRange 1 boot -1 <- boot = 1 => boot = -1
OutOfRange 1 boot 0 <- boot = 1 => boot = 0
OutOfRange 1 boot 33 <- boot = 1 => boot = 33
UnknownKey 1 <- boot = 1 => boot = 1\nbot = 1
UnknownKey 1 <- boot = 1 => boot = 1\nName = 1
UnknownKey 1 <- boot = 1 => boot = 1\nram = 1
UnknownKey 1 <- boot = 1 => boot = 1\nversion = 1
MissingKey 0 name <- name = "a" =>
OutOfRange 0 stack 0 <- stack = 32 => stack = 0
MissingKey 0 boot <- boot = 2 =>
UnknownKey 0 <- boot = 2 => boot = 2\nentry = "f"
UnknownKey 0 <- version = 2 => version = 1

edit open.toml lines.toml
entries = ["g", "h"]\nboot = 1 => boot = 1\nentries = [

more open.toml 65
"e",

rows text 4 open.toml link bad none.o
sancus: bad file bad: *
TooMany 1 entries <- ]\n
WrongKind 1 entries <- 1]\n
"#;

// Clashes.
const CLASHES: &str = r#"rows edit 4 lines.toml link bad none.o
sancus: bad file bad: *
Overlap 0 1 <- data = [0x0400, 0x0600] => data = [0x03fe, 0x0600]
Overlap 0 2 <- text = [0x0800, 0x0900] => text = [0x03fe, 0x0402]
Overlap 1 2 <- text = [0x0800, 0x0900] => text = [0x0400, 0x0402]
Overlap 0 3 <- data = [0x0a00, 0x0b00] => data = [0x0300, 0x0b00]
Overlap 2 4 <- text = [0x0900, 0x0a00] => text = [0x08fe, 0x0a00]
Overlap 3 5 <- data = [0x0b00, 0x0b00] => data = [0x0a00, 0x0a02]
Overlap 0 4 <- text = [0x0900, 0x0a00] => text = [0x0300, 0x0f00]
Overlap 2 3 <- text = [0x0800, 0x0900] => text = [0x0800, 0x0a02]
SameName 0 1 <- name = "b" => name = "a"
SameBoot 0 1 <- boot = 1 => boot = 2
SameBoot 0 1 <- boot = 2 => boot = 1
"#;

#[test]
fn other_kinds(rt: HostRuntime) -> Result<(), Fail> {
    play(&rt, rt.alloc(), &[LINES, KINDS])
}

#[test]
fn keys_of_the_top(rt: HostRuntime) -> Result<(), Fail> {
    play(&rt, rt.alloc(), &[LINES, TOP_CASES])
}

#[test]
fn keys_of_a_module(rt: HostRuntime) -> Result<(), Fail> {
    play(&rt, rt.alloc(), &[LINES, MODULE_CASES])
}

#[test]
fn clashes(rt: HostRuntime) -> Result<(), Fail> {
    play(&rt, rt.alloc(), &[LINES, CLASHES])
}
