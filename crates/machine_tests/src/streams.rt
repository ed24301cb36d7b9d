// Each call once, at the objects in memory and at the system's.
use sm_io::*;
use std::test::Fail;
use std::{env, fs, process};

#[test]
fn files_in_memory(rt: HostRuntime) -> Result<(), Fail> {
    let alloc = rt.alloc();
    let mut files = MemFiles::new(alloc);
    files.put_file("a", b"old")?;
    files.put_file("b", b"12345678")?;
    files.put_file("a", b"new text")?;
    files.fail_at(3)?;
    let mut buf = [b'.'; 6];
    assert_eq!(rt; files.read_at("a", 0, &mut buf), Ok(6));
    assert_eq!(rt; buf.as_slice(), b"new te".as_slice());
    assert_eq!(rt; files.read_at("a", 5, &mut buf), Ok(3));
    assert_eq!(rt; buf.as_slice(), b"ext te".as_slice());
    assert_eq!(rt; files.read_at("c", 0, &mut buf), Err(Unread::Absent));
    assert_eq!(rt; files.read_at("c", 0, &mut buf), Err(Unread::Failed));
    assert_eq!(rt; files.read_at("a", 8, &mut buf), Ok(0));
    Ok(())
}

#[test]
fn a_sink_in_memory(rt: HostRuntime) -> Result<(), Fail> {
    let alloc = rt.alloc();
    let mut sink = MemSink::new(alloc, 7)?;
    sink.fail_at(1)?;
    sink.fail_at(2)?;
    assert_eq!(rt; sink.put(b"abc"), Ok(3));
    assert_eq!(rt; sink.put(b"def"), Err(Failed));
    assert_eq!(rt; sink.put(b""), Ok(0));
    assert_eq!(rt; put_all(&mut sink, b"defghi"), Err(Failed));
    assert_eq!(rt; sink.taken(), b"abcdefg".as_slice());
    assert_eq!(rt; put_all(&mut sink, b""), Ok(()));
    Ok(())
}

#[test]
fn whole_files(rt: HostRuntime) -> Result<(), Fail> {
    let alloc = rt.alloc();
    let mut files = MemFiles::new(alloc);
    files.put_file("empty", b"")?;
    files.put_file("longest", vec![in alloc; b'x'; 1048576]?.as_slice())?;
    files.put_file("longer", vec![in alloc; b'x'; 1048577]?.as_slice())?;
    for (name, want) in [
        ("empty", Ok(0)),
        ("longest", Ok(1048576)),
        ("longer", Err(ReadFault::TooLong)),
        ("none", Err(ReadFault::Absent)),
    ] {
        let got = read_whole(alloc, &mut files, name).map(|bytes| bytes.len());
        assert_eq!(rt; got, want, "of {name}");
    }
    let mut files = MemFiles::new(alloc);
    files.put_file("a", b"some text")?;
    files.fail_at(1)?;
    assert_eq!(rt;
        read_whole(alloc, &mut files, "a").map(|bytes| bytes.len()),
        Err(ReadFault::Failed)
    );
    Ok(())
}

// A short file does not keep the room of a long one.
#[test]
fn room_of_a_short_file(rt: HostRuntime) -> Result<(), Fail> {
    let alloc = rt.alloc();
    let mut files = MemFiles::new(alloc);
    files.put_file("short", vec![in alloc; b'x'; 5000]?.as_slice())?;
    let bytes = read_whole(alloc, &mut files, "short")?;
    assert_eq!(rt; bytes.len(), 5000);
    assert!(rt; bytes.capacity() < 65536);
    Ok(())
}

// A path that no other process uses.
fn own_path(rt: &HostRuntime, name: &str) -> Result<String, Fail> {
    let folder = env::temp_dir(rt)?;
    let own = process::id(rt.process());
    Ok(format!(in rt.alloc(); "{}/sm_io_{own}_{name}", folder.as_str())?)
}

#[test]
fn a_stream_of_the_system(rt: HostRuntime) -> Result<(), Fail> {
    let path = own_path(&rt, "stream")?;
    let mut sink = StdSink::new(fs::create(&rt, path.as_str())?);
    assert_eq!(rt; put_all(&mut sink, b"some text"), Ok(()));
    assert_eq!(rt; sink.put(b""), Ok(0));
    assert_eq!(rt;
        fs::read(&rt, path.as_str())?.as_slice(),
        b"some text".as_slice()
    );
    let mut full = StdSink::new(fs::File::options().write(true).open(&rt, "/dev/full")?);
    assert_eq!(rt; full.put(b"some text"), Err(Failed));
    fs::remove_file(&rt, path.as_str())?;
    Ok(())
}

#[test]
fn files_of_the_system(rt: HostRuntime) -> Result<(), Fail> {
    let alloc = rt.alloc();
    let path = own_path(&rt, "files")?;
    fs::write(&rt, path.as_str(), b"some text".as_slice())?;
    let mut files = DiskFiles::new(&rt);
    let name = path.as_str();
    let mut buf = [b'.'; 6];
    assert_eq!(rt; files.read_at(name, 5, &mut buf), Ok(4));
    assert_eq!(rt; buf.as_slice(), b"text..".as_slice());
    assert_eq!(rt;
        read_whole(alloc, &mut files, name)?.as_slice(),
        b"some text".as_slice()
    );
    assert_eq!(rt; files.read_at(name, 0, &mut buf), Ok(6));
    fs::remove_file(&rt, path.as_str())?;
    // A file that is read on is the one that was begun.
    assert_eq!(rt; files.read_at(name, 6, &mut buf), Ok(3));
    assert_eq!(rt; files.read_at(name, 0, &mut buf), Err(Unread::Absent));
    assert_eq!(rt; files.read_at("/", 0, &mut buf), Err(Unread::Failed));
    Ok(())
}
