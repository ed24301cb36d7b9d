// Whole files and whole texts.
ghost use Rattle.std.specs.Prelude.{◌≡◌, ◌≤◌, IsTrue, IfOk, IfSome, false, vec_len};
ghost use Rattle.sm_io.specs.Faults.{HasCause};
ghost use Rattle.sm_io.specs.Files.{WholeGives, whole_failed};
ghost use Rattle.sm_io.specs.Sink.{Puts};

use crate::{Failed, Files, Sink, Unread};
use std::alloc::Global;

const MAX_FILE: usize = 1048576;

// Pieces of a file double up to the most, so that a small file takes little memory and a large one few calls.
const LEAST_PIECE: usize = 4096;

const MOST_PIECE: usize = 65536;

// So much room that a file has not filled is given back: with less, to copy the file costs more than the room.
const MOST_SPARE: usize = 262144;

/// Why a whole file was not read.
#[derive(Clone, Copy, Debug, PartialEq, Eq)]
pub enum ReadFault {
    /// A read failed, and the fault was counted.
    Failed,
    /// There is no file of that name.
    Absent,
    /// The file has more than 1,048,576 bytes.
    TooLong,
    /// Memory was wanting.
    NoMemory,
}

// All the room that a file can want, once it has more than the least piece: what is not filled takes no memory, and
// room that grows by and by is copied.
fn make_room(bytes: &mut Vec<u8>)
    ensures same { bytes.new.items ≡ bytes.old.items }
{
    let len = bytes.len();
    if LEAST_PIECE <= len && len <= MAX_FILE {
        // Where it is not to be had, the file may still be short enough.
        let _had = bytes.reserve(MAX_FILE + MOST_PIECE - len).is_ok();
    }
}

// The room that a whole file has not filled: where memory comes in huge pages, it is taken as soon as a part of it is filled.
fn give_back(bytes: &mut Vec<u8>)
    ensures same { bytes.new.items ≡ bytes.old.items }
{
    if bytes.capacity() - bytes.len() > MOST_SPARE {
        bytes.shrink_to_fit();
    }
}

/// The file's bytes, to its end.
pub fn read_whole<F: Files>(alloc: Global, files: &mut F, name: &str) -> Result<Vec<u8>, ReadFault>
    ensures bytes { IfSome (F.content files.old) (λ map. WholeGives (map name.now) result) }
    ensures bound { IfOk result (λ v. vec_len v ≤ 1048576) }
    ensures same_files { F.content files.new ≡ F.content files.old }
    ensures cause { HasCause (F.faults files.old) (F.faults files.new) (whole_failed result) }
    ensures same_sound { F.sound files.new ≡ F.sound files.old }
    ensures never_fails { IsTrue (F.sound files.old) → whole_failed result ≡ false }
{
    let mut bytes = Vec::new(alloc);
    while bytes.len() <= MAX_FILE {
        make_room(&mut bytes);
        let at = bytes.len();
        let step = at.clamp(LEAST_PIECE, MOST_PIECE);
        // It ends at a multiple of the step, so that the next read takes the room that a short one left.
        let piece = step - at % step;
        if bytes.resize(at + piece, 0).is_err() {
            return Err(ReadFault::NoMemory);
        }
        let count = match files.read_at(name, at as u64, &mut bytes[at..]) {
            Ok(count) => count,
            Err(Unread::Absent) => return Err(ReadFault::Absent),
            Err(Unread::Failed) => return Err(ReadFault::Failed),
            Err(Unread::NoMemory) => return Err(ReadFault::NoMemory),
        };
        bytes.truncate(at + count);
        if count == 0 {
            give_back(&mut bytes);
            return Ok(bytes);
        }
    }
    Err(ReadFault::TooLong)
}

/// Puts all the bytes, and takes no memory. After `Failed` the sink has taken a front of them that is shorter.
pub fn put_all<S: Sink>(sink: &mut S, bytes: &[u8]) -> Result<(), Failed>
    ensures put { Puts S.taken S.faults S.sure sink.old sink.new bytes.now result }
{
    let mut rest = bytes;
    while !rest.is_empty() {
        match sink.put(rest) {
            Ok(count) => {
                let (_, after) = rest.split_at(count);
                rest = after;
            }
            Err(Failed) => return Err(Failed),
        }
    }
    Ok(())
}
