//! Workloads, by calls of `serve`.

use crate::player::{call, play};
use sm_cli::Status;
use sm_io::MemFiles;
use std::alloc::Global;
use std::process::Abort;
use std::str::from_utf8;
use std::test::Fail;

/// The image of a workload whose data word is 0.
const WORKLOAD: &str = "\
sancus-image 1
key 00000000000000000000000000000000
handler 0600
module 0007 0300 0322 0400 0402
at 0200 31400006d24340003740140232d23040
at 0210 00030343304000030000000000000000
at 0300 829300040424154200040343053c0343
at 0310 034303430343003c054332c007013040
at 0320 14020000000000000000000000000000
at 0500 00130000000000000000000000000000
at ffe0 00000005000000000000000000000000
at fff0 00000000000000000000000000000002
end
";

/// The pulses of a seed, as a schedule's text.
fn schedule_text(alloc: Global, seed: u64) -> Result<String, Fail> {
    let mut text = String::new(alloc);
    let mut drawn = seed;
    for number in 0..1_001u64 {
        drawn = (drawn % 2_147_483_648 * 1_103_515_245 + 12_345) % 2_147_483_648;
        if number > 0 {
            let up = 20 + 190 * (number - 1) + drawn % 100;
            let down = up + 1;
            let pulse = format!(in alloc; "{up} line 0 up\n{down} line 0 down\n")?;
            text.push_str(pulse.as_str())?;
        }
    }
    Ok(text)
}

fn lines_of(alloc: Global, text: &[u8]) -> Result<Vec<String>, Fail> {
    let mut lines = Vec::new(alloc);
    for line in from_utf8(text).unwrap_or("").lines() {
        lines.push(String::from_str(alloc, line)?)?;
    }
    Ok(lines)
}

/// Both runs of a seed are told alike, and alike again.
fn assert_alike(rt: &impl Abort, alloc: Global, seed: &str) -> Result<(), Fail> {
    let line = format!(in alloc; "make {seed}")?;
    let head = format!(in alloc; "seed {seed}\nlines ")?;
    let given = call(alloc, line.as_str(), &mut MemFiles::new(alloc))?;
    let again = call(alloc, line.as_str(), &mut MemFiles::new(alloc))?;
    let lines = lines_of(alloc, given.out.taken())?;
    assert_eq!(rt; given.status, Status::Done.number());
    assert_eq!(rt; given.out.taken(), again.out.taken());
    assert!(rt; given.out.taken().starts_with(head.as_bytes()));
    assert_eq!(rt; lines.len(), 5);
    assert_eq!(rt; lines.get(1), lines.get(3));
    assert_eq!(rt; lines.get(2), lines.get(4));
    Ok(())
}

#[test]
fn least_seed(rt: HostRuntime) -> Result<(), Fail> {
    assert_alike(&rt, rt.alloc(), "0")
}

#[test]
fn next_seed(rt: HostRuntime) -> Result<(), Fail> {
    assert_alike(&rt, rt.alloc(), "1")
}

#[test]
fn largest_seed(rt: HostRuntime) -> Result<(), Fail> {
    assert_alike(&rt, rt.alloc(), "4294967295")
}

// What is told of a workload is what its trace is.
#[test]
fn tells_of_the_trace(rt: HostRuntime) -> Result<(), Fail> {
    let alloc = rt.alloc();
    let mut files = MemFiles::new(alloc);
    files.put_file("w.img", WORKLOAD.as_bytes())?;
    files.put_file("w.txt", schedule_text(alloc, 1)?.as_bytes())?;
    let image = call(alloc, "image w.img w.txt 200000", &mut files)?;
    let trace = lines_of(alloc, image.out.taken())?;
    let count = trace.len();
    let end = trace.last().map_or("", |line| line.as_str());
    let told = format!(in alloc; "seed 1\nlines {count}\n{end}\nlines {count}\n{end}\n")?;
    let made = call(alloc, "make 1", &mut MemFiles::new(alloc))?;
    assert_eq!(rt; image.status, Status::Done.number());
    assert_eq!(rt; made.out.taken(), told.as_bytes());
    Ok(())
}

// Words that hold no seed.
const NO_SEEDS: &str = "\
rows words 2
sancus: usage
make
make 4294967296
make 01
make +1
make -1
make 0 1
make ''
";

#[test]
fn takes_one_seed(rt: HostRuntime) -> Result<(), Fail> {
    play(&rt, rt.alloc(), &[NO_SEEDS])
}
