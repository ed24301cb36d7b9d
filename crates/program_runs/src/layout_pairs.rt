//! Layouts of two faults, of which the first is told; modules of every other form; and texts that are no document.

use crate::layouts::LINES;
use crate::player::play;
use std::test::Fail;

// Two faults, of which the first is told.
const PAIRS: &str = r#"rows edit 4 lines.toml link bad none.o
sancus: bad file bad: *
OutOfRange - version 3 <- version = 2 => version = 3 && key = "000102030405060708090a0B0c0D0e0f" => key = 1
WrongKind - version <- version = 2 => version = 2.0 && key = "000102030405060708090a0B0c0D0e0f" =>
MissingKey - version <- version = 2 => && key = "000102030405060708090a0B0c0D0e0f" => key = 1
WrongKind - key <- key = "000102030405060708090a0B0c0D0e0f" => key = 1 && handler_sp = 0x0600 =>
MissingKey - key <- key = "000102030405060708090a0B0c0D0e0f" => && handler_sp = 0x0600 => handler_sp = 1
OutOfRange - handler_sp 1 <- handler_sp = 0x0600 => handler_sp = 1 && text = [0x0200, 0x0400] =>
MissingKey - handler_sp <- handler_sp = 0x0600 => && text = [0x0200, 0x0400] => text = [1, 2]
OutOfRange - text 1 <- text = [0x0200, 0x0400] => text = [1, 2] && data = [0x0400, 0x0600] =>
MissingKey - text <- text = [0x0200, 0x0400] => && data = [0x0400, 0x0600] => data = [1, 2]
WrongKind - data <- data = [0x0400, 0x0600] => data = 1 && vectors = { v15 = "main", v2 = "" } => vectors = { w = "x" }
OutOfRange - data 1 <- data = [0x0400, 0x0600] => data = [1, 2] && vectors = { v15 = "main", v2 = "" } => vectors = 1
UnknownKey - <- vectors = { v15 = "main", v2 = "" } => vectors = { w = "x" } && name = "b" =>
WrongKind - vectors <- vectors = { v15 = "main", v2 = "" } => vectors = { v0 = 1 } && boot = 2 => boot = 2\nunknown = 1
OutOfRange - version 3 <- version = 2 => version = 3 && vectors = { v15 = "main", v2 = "" } => vectors = { w = "x" }
UnknownKey - <- version = 2 => version = 3 && handler_sp = 0x0600 => handler_sp = 0\nunknown = 1
UnknownKey - <- version = 2 => unknown = 1 && name = "b" =>
MissingKey 0 boot <- boot = 2 => && boot = 1 => boot = 1\nunknown = 1
UnknownKey 0 <- boot = 2 => boot = 2\nunknown = 1 && name = "b" => name = 1
WrongKind 0 name <- name = "a" => name = 1 && name = "b" =>
MissingKey 0 name <- name = "a" => && name = "b" => name = 1
MissingKey 1 name <- name = "b" => && vendor = 8 => vendor = -1
WrongKind 1 name <- name = "b" => name = "-" && vendor = 8 =>
OutOfRange 1 vendor -1 <- vendor = 8 => vendor = -1 && text = [0x0900, 0x0a00] =>
MissingKey 1 vendor <- vendor = 8 => && text = [0x0900, 0x0a00] => text = 1
WrongKind 1 text <- text = [0x0900, 0x0a00] => text = 1 && data = [0x0b00, 0x0b00] =>
MissingKey 1 text <- text = [0x0900, 0x0a00] => && data = [0x0b00, 0x0b00] => data = 1
OutOfRange 1 data 1 <- data = [0x0b00, 0x0b00] => data = [1, 1] && stack = 2 =>
MissingKey 1 data <- data = [0x0b00, 0x0b00] => && stack = 2 => stack = 1
OutOfRange 1 stack 1 <- stack = 2 => stack = 1 && entries = ["g", "h"] =>
MissingKey 1 stack <- stack = 2 => && entries = ["g", "h"] => entries = []
OutOfRange 1 entries 0 <- entries = ["g", "h"] => entries = [] && boot = 1 =>
MissingKey 1 entries <- entries = ["g", "h"] => && boot = 1 => boot = 0
UnknownKey 1 <- name = "b" => && boot = 1 => boot = 1\nunknown = 1
OutOfRange 1 boot 0 <- text = [0x0800, 0x0900] => text = [0x0300, 0x0400] && boot = 1 => boot = 0
Overlap 0 2 <- text = [0x0800, 0x0900] => text = [0x0300, 0x0400] && name = "b" => name = "a"
Overlap 0 2 <- text = [0x0800, 0x0900] => text = [0x0300, 0x0400] && boot = 1 => boot = 2
Overlap 1 3 <- data = [0x0a00, 0x0b00] => data = [0x0500, 0x0600] && text = [0x0900, 0x0a00] => text = [0x0300, 0x0302]
Overlap 0 3 <- data = [0x0a00, 0x0b00] => data = [0x0300, 0x0302] && text = [0x0900, 0x0a00] => text = [0x0500, 0x0502]
SameName 0 1 <- name = "b" => name = "a" && boot = 1 => boot = 2
"#;

// The key `module`, broken in each way.
const ARRAYS: &str = r#"rows text 4 top.toml link bad none.o
sancus: bad file bad: *
WrongKind - module <- module = 7
WrongKind - module <- module = "x"
WrongKind - module <- module = 1.5
WrongKind - module <- module = true
WrongKind - module <- module = 1979-05-27
WrongKind - module <- module = { a = 1 }
WrongKind - module <- module = [1]
WrongKind - module <- module = [[]]
WrongKind - module <- module = [{}, 1]
WrongKind - module <- module.name = "a"
WrongKind - module <- [module]
MissingKey 0 name <- module = [{}]
UnknownKey - <- modules = []
UnknownKey 0 <- module = [{ a = 1 }]

edit open.toml top.toml
v2 = "" } => v2 = "" }\nmodule = [

more open.toml 32
{},

rows text 4 open.toml link bad none.o
sancus: bad file bad: *
MissingKey 0 name <- ]\n
TooMany - module <- {}]\n
WrongKind - module <- {}, 1]\n
"#;

// Bytes that are no UTF-8, texts that are no TOML, and texts of no keys.
const NO_DOCUMENTS: &str = r#"file empty

rows text 4 empty link bad none.o
sancus: bad file bad: *
Utf8OrToml <- version
Utf8OrToml <- version =
Utf8OrToml <- = 2
Utf8OrToml <- version = 2 key = 1
Utf8OrToml <- version = 2\nversion = 2
Utf8OrToml <- version = 2\r
Utf8OrToml <- version = 02
Utf8OrToml <- version = 9223372036854775808
Utf8OrToml <- version = "2\n
MissingKey - version <-
MissingKey - version <- # no keys\n
OutOfRange - version 3 <- version = 3

bytes bad.toml
ff

err 4 link bad.toml none.o
sancus: bad file bad.toml: Utf8OrToml

bytes bad.toml
76657273696f6e203d2032202320c3

err 4 link bad.toml none.o
sancus: bad file bad.toml: Utf8OrToml

bytes bad.toml
76657273696f6e203d20320a80

err 4 link bad.toml none.o
sancus: bad file bad.toml: Utf8OrToml
"#;

// Version 1 has room for eight.
const NINE_MODULES: &str = "\
edit open.toml top.toml
version = 2 => version = 1

more open.toml 9
[[module]]

err 4 link open.toml none.o
sancus: bad file open.toml: TooMany - module
";

#[test]
fn two_faults(rt: HostRuntime) -> Result<(), Fail> {
    play(&rt, rt.alloc(), &[LINES, PAIRS])
}

#[test]
fn arrays_of_modules(rt: HostRuntime) -> Result<(), Fail> {
    play(&rt, rt.alloc(), &[LINES, ARRAYS])
}

#[test]
fn no_documents(rt: HostRuntime) -> Result<(), Fail> {
    play(&rt, rt.alloc(), &[NO_DOCUMENTS])
}

#[test]
fn nine_modules(rt: HostRuntime) -> Result<(), Fail> {
    play(&rt, rt.alloc(), &[LINES, NINE_MODULES])
}
