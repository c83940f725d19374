//! The texts of cells.

use crate::runs::{Case, outcome};
use std::alloc::Global;
use std::process::Abort;
use std::test::Fail;
use std::thread::Threads;

const COUNTER: &str = "module Counter(nat{4} !n) { loop { next(n) = (n + 1) % 4; pause; } }";

const CELLS_OF_COUNTER: &str = "module Counter
output n mem nat{4} v0 c0
register r0 = 1 -> 0
register r1 = 0 -> c6
register r2 = 0 -> c0
register r3 = 0 -> c3
register r4 = 0 -> c4
cell c0 = ite(r3,r4,r2)
cell c1 = rem(add(c0,1),4)
cell c2 = rem(add(c0,1),4)
cell c3 = or(r0,r1)
cell c4 = ite(r0,c1,ite(r1,c2,0))
cell c5 = or(and(r0,ne(c1,c4)),and(r1,ne(c2,c4)))
cell c6 = or(r0,r1)
action r0 => next(v0.0) = c1
action r1 => next(v0.0) = c2
monitor c5 1:24 conflict
";

// The register of an output that starts at 3.
const STARTED: &str = "module S(nat{8} !x = 3) { loop { pause; next(x) = (x + 1) % 8; } }";

// The cells of the module, where that put fails if there is a number.
fn cells(
    rt: &(impl Threads + Sync),
    alloc: Global,
    text: &str,
    failing_puts: &[u64],
) -> Result<String, Fail> {
    let case = Case {
        words: "aif M",
        failing_puts,
        ..Case::run(text.as_bytes(), b"")
    };
    outcome(rt, alloc, case)
}

#[test]
fn cells_of_a_counter(rt: HostRuntime) -> Result<(), Fail> {
    let wanted = format!(in rt.alloc(); "0|{CELLS_OF_COUNTER}|")?;
    let found = cells(&rt, rt.alloc(), COUNTER, &[])?;
    assert_eq!(rt; found.as_str(), wanted.as_str());
    Ok(())
}

#[test]
fn register_of_a_start_value(rt: HostRuntime) -> Result<(), Fail> {
    let found = cells(&rt, rt.alloc(), STARTED, &[])?;
    let has_line = found.split_once("\nregister r2 = 3 -> c0\n").is_some();
    assert!(rt; has_line, "{found}");
    Ok(())
}

// Whether a failing put at each call leaves a front of the text that lacks at least one byte, up to
// the call behind the last one.
fn stops_at_each_put(rt: &(impl Threads + Sync), alloc: Global) -> Result<bool, Fail> {
    for call in 0..1_000u64 {
        let found = cells(rt, alloc, COUNTER, &[call])?;
        let (status, rest) = found.split_once('|').unwrap_or(("", ""));
        let (front, report) = rest.split_once('|').unwrap_or(("", ""));
        if status == "0" {
            return Ok(call > 0 && front == CELLS_OF_COUNTER && report == "");
        }
        let is_front = front.len() < CELLS_OF_COUNTER.len() && CELLS_OF_COUNTER.starts_with(front);
        if status != "7" || report != "averest: write fault\n" || !is_front {
            return Ok(false);
        }
    }
    Ok(false)
}

#[test]
fn each_put_of_cells_fails(rt: HostRuntime) -> Result<(), Fail> {
    assert!(rt; stops_at_each_put(&rt, rt.alloc())?);
    Ok(())
}
