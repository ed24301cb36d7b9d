// Files in memory, some of whose reads fail by a list.
ghost use Rattle.std.specs.Prelude.{◌≡◌, ◌≤◌, ◌-◌, min, take, drop, ◌∷◌, ◌++◌, [], false, length, Some, IfOk, IsTrue, OnOk, OnErr, map, option_map, if◌then◌else◌};
ghost use Rattle.std.proofs.Common.{arith};
ghost use Rattle.sm_io.specs.Faults.{HasCause, counted};
ghost use Rattle.sm_io.specs.Calls.{has_no_call};
ghost use Rattle.sm_io.specs.Files.{IsPart, ReadGives, read_failed};
ghost use Rattle.sm_io.specs.MemoryFiles.{file_of, read_answer, buffer_after, files_after};
ghost use Rattle.sm_io.specs.internal.MemoryFiles.{named_bytes};

use crate::{Files, NoMemory, Unread};
use std::alloc::Global;
use std::marker::Model;

#[derive(Drop)]
struct MemFile {
    name: String,
    bytes: Vec<u8>,
}

/// Files in memory, of which each read gives all the bytes that there are and that fit, but for the
/// calls that are listed to fail.
#[derive(Drop)]
pub struct MemFiles {
    alloc: Global,
    files: Vec<MemFile>,
    failing: Vec<u64>,
    calls: u64,
    faults: u64,
}

impl Model for MemFiles {
    ghost use Rattle.std.specs.Prelude.{map};
    ghost use Rattle.sm_io.specs.MemoryFiles.{MemoryFiles};
    ghost use Rattle.sm_io.specs.internal.MemoryFiles.{named_bytes};

    ghost Value = { MemoryFiles };

    ghost view = { λ m. record {
      files = map named_bytes m.files.items;
      failing = m.failing.items;
      calls = m.calls;
      faults = m.faults;
    } };
}

impl MemFiles {
    /// No files, and no call that is to fail.
    pub fn new(alloc: Global) -> Self
        ensures empty { result ≡ record { files = []; failing = []; calls = 0; faults = 0 } }
    {
        MemFiles {
            alloc,
            files: Vec::new(alloc),
            failing: Vec::new(alloc),
            calls: 0,
            faults: 0,
        }
    }

    /// Adds a file. It stands in place of an earlier one of that name.
    pub fn put_file(&mut self, name: &str, bytes: &[u8]) -> Result<(), NoMemory>
        ensures ok { OnOk result (self.new ≡ record self.old { files = (name.now, bytes.now) ∷ self.old.files }) }
        ensures err { OnErr result (self.new ≡ self.old) }
    {
        let file = MemFile {
            name: String::from_str(self.alloc, name)?,
            bytes: Vec::from_slice(self.alloc, bytes)?,
        };
        self.files.insert(0, file)?;
        Ok(())
    }

    /// Lists a call of `read_at`, by its number from 0, that is to fail.
    pub fn fail_at(&mut self, call: u64) -> Result<(), NoMemory>
        ensures ok { OnOk result (self.new ≡ record self.old { failing = self.old.failing ++ call ∷ [] }) }
        ensures err { OnErr result (self.new ≡ self.old) }
    {
        self.failing.push(call)?;
        Ok(())
    }
}

// The newest file of that name.
fn find_file<'a>(files: &'a [MemFile], name: &str) -> Option<&'a [u8]>
    ensures { option_map (λ bytes. bytes.now) result ≡ file_of (map named_bytes files.now) name.now }
{
    for file in files {
        if file.name.as_str() == name {
            return Some(&file.bytes);
        }
    }
    None
}

// Copies the file's bytes from `at` on to the front of `buf`.
fn copy_part(bytes: &[u8], at: u64, buf: &mut [u8]) -> usize
    ensures count { result ≡ min (length bytes.now - at) (length buf.old) }
    ensures buffer { buf.new ≡ take (length buf.old) (drop at bytes.now) ++ drop (length bytes.now - at) buf.old }
    ensures part { IsPart at bytes.now buf.new result }
{
    if at >= bytes.len() as u64 {
        return 0;
    }
    let rest = &bytes[at as usize..];
    let count = rest.len().min(buf.len());
    buf[..count].copy_from_slice(&rest[..count]);
    count
}

impl Files for MemFiles {
    ghost content = { λ m. Some (file_of m.files) };

    ghost faults = { λ m. counted m.faults };

    ghost sound = { λ m. has_no_call m.failing };

    ghost counter = { λ m. Prim.omega arith };

    fn read_at(&mut self, name: &str, at: u64, buf: &mut [u8]) -> Result<usize, Unread>
        ensures answer { result ≡ read_answer self.old name.now at (length buf.old) }
        ensures buffer { buf.new ≡ buffer_after self.old name.now at buf.old }
        ensures state { self.new ≡ files_after self.old }

        ensures bound { IfOk result (λ n. n ≤ length buf.new) }
        ensures bytes { ReadGives (file_of self.old.files name.now) at buf.new result }
        ensures same_files { Some (file_of self.new.files) ≡ Some (file_of self.old.files) }
        ensures cause { HasCause (counted self.old.faults) (counted self.new.faults) (read_failed result) }
        ensures same_sound { has_no_call self.new.failing ≡ has_no_call self.old.failing }
        ensures never_fails { IsTrue (has_no_call self.old.failing) → read_failed result ≡ false }
    {
        let call = self.calls;
        self.calls = self.calls.saturating_add(1);
        if self.failing.contains(&call) {
            self.faults = self.faults.saturating_add(1);
            return Err(Unread::Failed);
        }
        match find_file(&self.files, name) {
            None => Err(Unread::Absent),
            Some(bytes) => Ok(copy_part(bytes, at, buf)),
        }
    }
}
