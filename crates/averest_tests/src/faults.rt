//! Every outside call of a run fails once, in turn.

ghost use Rattle.std.specs.Prelude.{◌≤◌};

use crate::runs::{Case, check_rows, outcome, outcome_in, wanted};
use std::alloc::Global;
use std::process::Abort;
use std::test::Fail;
use std::thread::Threads;
use test_rows::{bytes_of, text_of, value_of};

// Runs in which no call fails, up to the end of the trace or to a fault in its last step.
const RUNS: &str = r#"text: module M(bool ?x, ?y, !a) { always { a = x & !y; } }
trace: 1 0\n0 0\n1 1\n1 0\n0 1\n
status: 0
output: 1\n0\n0\n1\n0\n

text: module Counter(nat{4} !n) { loop { next(n) = (n + 1) % 4; pause; } }
trace: \n\n\n\n\n
status: 0
output: 0\n1\n2\n3\n0\n

text: module C(bool ?x, bool ?y, bool !a) { always { a = x; || a = y; } }
trace: 1 1\n0 0\n1 0\n
status: 5
output: 1\n0\n
report: averest: conflict at step 2, 1:34\n"#;

// As many of the lines.
fn push_lines(out: &mut String, lines: &str, count: usize) -> Result<(), Fail> {
    for (at, line) in lines.lines().enumerate() {
        if at < count {
            out.push_str(line)?;
            out.push_str("\n")?;
        }
    }
    Ok(())
}

// How many lines end among the first bytes.
fn line_count(trace: &[u8], taken: usize) -> usize {
    let mut count = 0usize;
    for byte in trace.iter().take(taken) {
        count = count.saturating_add(usize::from(*byte == b'\n'));
    }
    count
}

// What comes of a run where that take fails: the lines of the steps that were taken whole; or what
// the row says where the call is never made.
fn ended_at(
    alloc: Global,
    row: &str,
    trace: &[u8],
    call: usize,
    piece: usize,
) -> Result<String, Fail> {
    let asked = call.saturating_mul(piece);
    let behind = if value_of(row, "status") == "0" {
        piece
    } else {
        0
    };
    if asked >= trace.len().saturating_add(behind) {
        return wanted(alloc, row);
    }
    let lines = text_of(alloc, value_of(row, "output"))?;
    let mut ended = String::from_str(alloc, "6|")?;
    push_lines(&mut ended, &lines, line_count(trace, asked))?;
    ended.push_str("|averest: read fault\n")?;
    Ok(ended)
}

// Each take up to the 22nd fails once, where a read gives at most so many bytes.
fn fail_takes(
    rt: &(impl Threads + Sync + Abort),
    alloc: Global,
    row: &str,
    piece: u32,
) -> Result<(), Fail>
    requires { 1 ≤ piece }
{
    let trace = bytes_of(alloc, value_of(row, "trace"))?;
    for call in 0..22usize {
        let case = Case {
            failing_takes: &[call as u64],
            ..Case::run(value_of(row, "text").as_bytes(), &trace)
        };
        let found = outcome_in(rt, alloc, case, &[piece])?;
        let wanted = ended_at(alloc, row, &trace, call, piece as usize)?;
        assert_eq!(rt;
            found.as_str(),
            wanted.as_str(),
            "take {call} by {piece} of {row}"
        );
    }
    Ok(())
}

#[test]
fn each_take_fails(rt: HostRuntime) -> Result<(), Fail> {
    for row in RUNS.split("\n\n") {
        for piece in [1u32, 2, 3, 65_536] {
            fail_takes(&rt, rt.alloc(), row, piece)?;
        }
    }
    Ok(())
}

// Each put fails once, of which there is one a line, and then none.
fn fail_puts(rt: &(impl Threads + Sync + Abort), alloc: Global, row: &str) -> Result<(), Fail> {
    let trace = bytes_of(alloc, value_of(row, "trace"))?;
    let lines = text_of(alloc, value_of(row, "output"))?;
    let count = line_count(lines.as_bytes(), lines.len());
    for call in 0..count {
        let case = Case {
            failing_puts: &[call as u64],
            ..Case::run(value_of(row, "text").as_bytes(), &trace)
        };
        let mut wanted = String::from_str(alloc, "7|")?;
        push_lines(&mut wanted, &lines, call)?;
        wanted.push_str("|averest: write fault\n")?;
        let found = outcome(rt, alloc, case)?;
        assert_eq!(rt; found.as_str(), wanted.as_str(), "put {call} of {row}");
    }
    let case = Case {
        failing_puts: &[count as u64],
        ..Case::run(value_of(row, "text").as_bytes(), &trace)
    };
    assert_eq!(rt;
        outcome(rt, alloc, case)?.as_str(),
        wanted(alloc, row)?.as_str(),
        "{row}"
    );
    Ok(())
}

#[test]
fn each_put_fails(rt: HostRuntime) -> Result<(), Fail> {
    for row in RUNS.split("\n\n") {
        fail_puts(&rt, rt.alloc(), row)?;
    }
    Ok(())
}

// The only fetch fails, and the put of a report.
const OTHERS: &str = r#"words: run M
text: module Counter(nat{4} !n) { loop { next(n) = (n + 1) % 4; pause; } }
trace: \n\n\n\n\n
fetches: 0
status: 2
report: averest: module unavailable\n

words: run M
text: module Counter(nat{4} !n) { loop { next(n) = (n + 1) % 4; pause; } }
trace: \n\n\n\n\n
reports: 0
status: 0
output: 0\n1\n2\n3\n0\n

words: run M
text: module C(bool ?x, bool ?y, bool !a) { always { a = x; || a = y; } }
trace: 1 1\n0 0\n1 0\n
reports: 0
status: 5
output: 1\n0\n"#;

#[test]
fn others_fail(rt: HostRuntime) -> Result<(), Fail> {
    check_rows(&rt, rt.alloc(), OTHERS)
}
