//! Reads and writes that fail.

use crate::converting::convert;
use outside::{MemSink, MemSource, Status};
use std::test::Fail;

const X_AND_Y: &str = "bool ?x\nbool !a\nbool ?y";

// Five lines of four bytes, and what they are converted to.
const FIVE_LINES: &[u8] = b"1 1\n0 0\n1 0\n0 1\n1 1\n";

const HEADED_LINES: &[u8] = b"# x y\n1 1\n0 0\n1 _\n0 1\n1 _\n";

// The header has six bytes, and each line four, as those of the trace.
#[test]
fn a_failed_read(rt: HostRuntime) -> Result<(), Fail> {
    for call in 0..24usize {
        let mut source = MemSource::new(rt.alloc(), FIVE_LINES, &[1], &[call as u64])?;
        let mut sink = MemSink::new(rt.alloc(), 64, &[])?;
        let status = convert(rt.alloc(), X_AND_Y, 2, u32::MAX, &mut source, &mut sink)?;
        let (end, lines) = if call <= 20 {
            (Status::ReadFault, call / 4)
        } else {
            (Status::Ok, 5)
        };
        assert_eq!(rt; status, end, "{call}");
        assert_eq!(rt; sink.bytes(), &HEADED_LINES[..6 + lines * 4], "{call}");
    }
    Ok(())
}

// The first write is the header's, and nothing was read then.
#[test]
fn a_failed_write(rt: HostRuntime) -> Result<(), Fail> {
    for call in 0..8usize {
        let mut source = MemSource::new(rt.alloc(), FIVE_LINES, &[4], &[])?;
        let mut sink = MemSink::new(rt.alloc(), 64, &[call as u64])?;
        let status = convert(rt.alloc(), X_AND_Y, 2, u32::MAX, &mut source, &mut sink)?;
        let (end, length, left) = if call == 0 {
            (Status::WriteFault, 0, 20)
        } else if call <= 5 {
            (Status::WriteFault, 2 + call * 4, 20 - call * 4)
        } else {
            (Status::Ok, 26, 0)
        };
        assert_eq!(rt; status, end, "{call}");
        assert_eq!(rt; sink.bytes(), &HEADED_LINES[..length], "{call}");
        assert_eq!(rt; source.left().len(), left, "{call}");
    }
    Ok(())
}

#[test]
fn a_sink_that_is_full(rt: HostRuntime) -> Result<(), Fail> {
    for room in 0..27usize {
        let mut source = MemSource::new(rt.alloc(), FIVE_LINES, &[], &[])?;
        let mut sink = MemSink::new(rt.alloc(), room as u64, &[])?;
        let status = convert(rt.alloc(), X_AND_Y, 2, u32::MAX, &mut source, &mut sink)?;
        let end = if room < 26 {
            Status::WriteFault
        } else {
            Status::Ok
        };
        assert_eq!(rt; status, end, "{room}");
        assert_eq!(rt; sink.bytes(), &HEADED_LINES[..room], "{room}");
    }
    Ok(())
}

// In a step a failed read comes before all else, and a line that isn't readable before a write.
#[test]
fn what_comes_first(rt: HostRuntime) -> Result<(), Fail> {
    let mut source = MemSource::new(rt.alloc(), b"1 1\nzz\n", &[4], &[1])?;
    let mut sink = MemSink::new(rt.alloc(), 64, &[1])?;
    let status = convert(rt.alloc(), X_AND_Y, 1, u32::MAX, &mut source, &mut sink)?;
    assert_eq!(rt; status, Status::ReadFault);
    let mut source = MemSource::new(rt.alloc(), b"1 1\nzz\n", &[4], &[2])?;
    let mut sink = MemSink::new(rt.alloc(), 64, &[1])?;
    let status = convert(rt.alloc(), X_AND_Y, 1, u32::MAX, &mut source, &mut sink)?;
    assert_eq!(rt; status, Status::BadInput { step: 1 });
    Ok(())
}
