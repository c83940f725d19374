//! The adapters to the operating system.

use outside::{DirShelf, Failed, Shelf, Sink, Source, StdSink, StdSource};
use std::fs;
use std::test::Fail;

#[test]
fn a_reader_to_its_end(rt: HostRuntime) {
    let bytes: &[u8] = b"10\n";
    let mut source = StdSource::new(bytes);
    let mut buf = [0; 2];
    assert_eq!(rt; source.take(&mut buf), Ok(2));
    assert_eq!(rt; buf, *b"10");
    assert_eq!(rt; source.take(&mut buf), Ok(1));
    assert_eq!(rt; source.take(&mut buf), Ok(0));
}

#[test]
fn what_fits_in_a_writer(rt: HostRuntime) {
    let mut room = [0; 3];
    let writer: &mut [u8] = &mut room;
    let mut sink = StdSink::new(writer);
    assert_eq!(rt; sink.put(b"10"), Ok(2));
    assert_eq!(rt; sink.put(b"\n1"), Ok(1));
    assert_eq!(rt; sink.put(b"1"), Err(Failed));
}

#[test]
fn no_absent_file_and_no_folder(rt: HostRuntime) {
    let mut shelf = DirShelf::new(&rt);
    let mut buf = [0; 4];
    assert_eq!(rt; shelf.fetch("no such module", &mut buf), Err(Failed));
    assert_eq!(rt; shelf.fetch(".", &mut buf), Err(Failed));
}

// A file of every byte, twice, as a whole and as far as a buffer goes.
#[test]
fn a_file_of_every_byte(rt: HostRuntime) -> Result<(), Fail> {
    let mut bytes = Vec::new(rt.alloc());
    for at in 0..512u32 {
        bytes.push((at % 256) as u8)?;
    }
    fs::write(&rt, "Bytes", &bytes)?;
    let mut shelf = DirShelf::new(&rt);
    let mut whole = [1; 600];
    assert_eq!(rt; shelf.fetch("Bytes", &mut whole), Ok(512));
    assert!(rt; whole.starts_with(bytes.as_slice()));
    assert!(rt; whole.ends_with([1; 88].as_slice()));
    let mut front = [0; 300];
    assert_eq!(rt; shelf.fetch("Bytes", &mut front), Ok(300));
    assert!(rt; bytes.starts_with(front.as_slice()));
    let mut none = [0; 0];
    assert_eq!(rt; shelf.fetch("Bytes", &mut none), Ok(0));
    fs::remove_file(&rt, "Bytes")?;
    assert_eq!(rt; shelf.fetch("Bytes", &mut front), Err(Failed));
    Ok(())
}
