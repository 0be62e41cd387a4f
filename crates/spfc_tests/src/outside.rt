//! Files and sinks that fail.

use crate::jobs::bytes;
use addr_bits::Bytes;
use spfc_outer::{
    Calls, Failed, FileList, Files, HostFiles, MemFiles, MemSink, OpenFault, Opened, Sink, load,
    write_whole,
};
use std::alloc::{AllocError, Global};
use std::test::Fail;

/// A file of twelve bytes, of which a read takes at most 5. One call fails.
fn one_file(alloc: Global, fails: u64) -> Result<MemFiles, AllocError> {
    let mut list = FileList::new(alloc);
    list.push((bytes(alloc, "a")?, bytes(alloc, "twelve bytes")?))?;
    let mut calls = Calls::new(alloc);
    calls.push(fails)?;
    Ok(MemFiles::new(list, 5, calls))
}

// A name, the most bytes to load, and what is loaded.
const LOADED: [(&str, usize, Option<&str>); 4] = [
    ("a", 100, Some("twelve bytes")),
    ("a", 12, Some("twelve bytes")),
    ("a", 11, Some("twelve byte")),
    ("b", 100, None),
];

fn is_loaded(loaded: &Option<Bytes>, want: &Option<&str>) -> bool {
    match (loaded, want) {
        (Some(bytes), Some(text)) => bytes.as_slice() == text.as_bytes(),
        (None, None) => true,
        _ => false,
    }
}

#[test]
fn a_file_is_loaded(rt: HostRuntime) -> Result<(), Fail> {
    for (name, most, want) in &LOADED {
        let mut files = one_file(rt.alloc(), 0)?;
        let loaded = load(rt.alloc(), &mut files, name.as_bytes(), *most)?;
        assert!(rt; is_loaded(&loaded, want), "at {name} {most}");
    }
    let mut files = one_file(rt.alloc(), 2)?;
    let fault = load(rt.alloc(), &mut files, b"a", 100).err();
    assert!(rt; fault == Some(OpenFault::Failed));
    Ok(())
}

// The third call fails, and the one behind it reads from the start.
#[test]
fn files_fail_where_told(rt: HostRuntime) -> Result<(), Fail> {
    let mut files = one_file(rt.alloc(), 3)?;
    assert!(rt; files.open_file(b"b") == Ok(Opened::Missing));
    assert!(rt; files.open_file(b"a") == Ok(Opened::Chosen));
    let mut buf = [0u8; 7];
    assert!(rt; files.read(&mut buf) == Err(Failed));
    assert!(rt; files.read(&mut buf) == Ok(5));
    assert!(rt; buf.as_slice() == b"twelv\0\0".as_slice());
    Ok(())
}

// The second write fails, and the last one finds no room.
#[test]
fn a_sink_fails_where_told(rt: HostRuntime) -> Result<(), Fail> {
    let mut fails = Calls::new(rt.alloc());
    fails.push(2)?;
    let mut sink = MemSink::new(rt.alloc(), 12, 10, fails)?;
    assert!(rt; sink.write(b"twelve bytes, and more") == Ok(10));
    assert!(rt; sink.write(b"es") == Err(Failed));
    assert!(rt; write_whole(&mut sink, b"es, and more") == Err(Failed));
    assert!(rt; sink.bytes() == b"twelve bytes".as_slice());
    Ok(())
}

// The program hands in no such name.
#[test]
fn a_name_of_the_host_is_a_text(rt: HostRuntime) {
    let mut files = HostFiles::new(rt);
    assert!(rt; files.open_file(b"\xff") == Err(OpenFault::Failed));
}
