//! Traces that are converted to the other format and back.

use crate::converting::convert;
use crate::params::vars_of;
use outside::{MemSink, MemSource, Source, Status};
use std::alloc::Global;
use std::process::Abort;
use std::test::Fail;
use trace_io::TraceGen;

// The inputs of five modules.
const INPUTS: &str = r#"bool ?x

nat{1} ?one
nat{2} ?two
nat{2147483648} ?most

int{1} ?i
int{2147483648} ?j
bool ?x

bv{1} ?a
bv{32} ?b
bv{3} ?c [4]

bool ?x [2]
bool !out
nat{3} ?n [3]
int{2} ?i
bv{2} ?b"#;

// Converts bytes, which are a whole trace.
fn whole(
    rt: &impl Abort,
    alloc: Global,
    params: &str,
    to: u32,
    bytes: &[u8],
) -> Result<Vec<u8>, Fail> {
    let mut source = MemSource::new(alloc, bytes, &[], &[])?;
    let mut sink = MemSink::new(alloc, 10_000, &[])?;
    let status = convert(alloc, params, to, u32::MAX, &mut source, &mut sink)?;
    assert_eq!(rt; status, Status::Ok, "{params}");
    let mut written = Vec::new(alloc);
    written.extend_from_slice(sink.bytes())?;
    Ok(written)
}

// The generated trace of so many steps.
fn generated(alloc: Global, params: &str, seed: u64) -> Result<Vec<u8>, Fail> {
    let vars = vars_of(alloc, params)?;
    let mut source = TraceGen::new(alloc, &vars, seed, 12)?;
    let mut all = Vec::new(alloc);
    for _ in 0..200 {
        let mut room = [0; 64];
        if let Ok(count) = source.take(&mut room) {
            all.extend_from_slice(&room[..count])?;
        }
    }
    Ok(all)
}

#[test]
fn to_the_other_format_and_back(rt: HostRuntime) -> Result<(), Fail> {
    let alloc = rt.alloc();
    for params in INPUTS.split("\n\n") {
        for seed in [0u64, 1, 7, 1_000_000_007] {
            let plain = generated(alloc, params, seed)?;
            let headed = whole(&rt, alloc, params, 2, &plain)?;
            assert!(rt; headed.starts_with(b"# "), "{params}");
            let again = whole(&rt, alloc, params, 1, &headed)?;
            assert_eq!(rt; again.as_slice(), plain.as_slice(), "{params}");
            let twice = whole(&rt, alloc, params, 2, &headed)?;
            assert_eq!(rt; twice.as_slice(), headed.as_slice(), "{params}");
            let same = whole(&rt, alloc, params, 1, &plain)?;
            assert_eq!(rt; same.as_slice(), plain.as_slice(), "{params}");
        }
    }
    Ok(())
}
