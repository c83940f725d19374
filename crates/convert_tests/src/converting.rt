//! Rows of traces and what they are converted to.

ghost use Rattle.std.specs.Prelude.{◌≤◌};

use crate::params::vars_of;
use convert_run::convert_trace;
use outside::{MemSink, MemSource, Sink, Source, Status};
use quartz_tree::NoMemory;
use std::alloc::Global;
use std::process::Abort;
use std::test::Fail;
use test_rows::{bytes_of, spread, value_of, values_of};
use trace_writer::Format;

// The parameters of a module, a trace, the number of the other format, what is written, and how
// that ends.
const CONVERTED: &str = r#"# changes are told, and what stays is kept
param: bool ?x
param: bool ?y
param: bool !a
trace: 1 1\n1 0\n0 0\n
to: 2
written: # x y\n1 1\n_ 0\n0 _\n
end: Ok

# and back
param: bool ?x
param: bool ?y
param: bool !a
trace: # x y\n1 1\n_ 0\n0 _\n
to: 1
written: 1 1\n1 0\n0 0\n
end: Ok

# no more to tell where it is in that format
param: bool ?x
param: bool ?y
trace: # x y\n1 1\n_ 0\n0 _\n
to: 2
written: # x y\n1 1\n_ 0\n0 _\n
end: Ok

# another order of names, and values that are told again
param: bool ?x
param: bool ?y
trace: # y x\n1 1\n0 _\n0 1\n
to: 2
written: # x y\n1 1\n_ 0\n_ _\n
end: Ok

# before the first step each value is 0
param: bool ?x
param: nat{9} ?n
trace: 0 0\n0 8\n
to: 2
written: # x n\n_ _\n_ 8\n
end: Ok

# also where the first line keeps values
param: bool ?x
param: nat{9} ?n
trace: # n x\n_ _\n8 _\n
to: 1
written: 0 0\n0 8\n
end: Ok

# an input without a name keeps 0
param: bool ?x
param: bool ?y
trace: #x\n1\n0\n
to: 2
written: # x y\n1 _\n0 _\n
end: Ok

# no input has a name
param: bool ?x
param: bool ?y
trace: #\n\n \t\n
to: 1
written: 0 0\n0 0\n
end: Ok

param: bool ?x
param: bool ?y
trace: #\n\n\n
to: 2
written: # x y\n_ _\n_ _\n
end: Ok

# a header alone
param: bool ?x
trace: #
to: 1
written:
end: Ok

param: bool ?x
trace: # x
to: 2
written: # x\n
end: Ok

# no byte
param: bool ?x
trace:
to: 1
written:
end: Ok

param: bool ?x
trace:
to: 2
written: # x\n
end: Ok

# a module without inputs
param: bool !a
trace: \n \t\n
to: 1
written: \n\n
end: Ok

param: bool !a
trace: \n \t\n
to: 2
written: #\n\n\n
end: Ok

param: bool !a
trace: #\n\n
to: 1
written: \n
end: Ok

# CR before LF, blanks and tabs, and no LF at the end
param: bool ?x
param: bool ?y
trace: 1\t 1\r\n0 0\r\n  1   1
to: 1
written: 1 1\n0 0\n1 1\n
end: Ok

param: bool ?x
param: bool ?y
trace: #\t y  x\r\n1\t _\r\n _ 1
to: 2
written: # x y\n_ 1\n1 _\n
end: Ok

# numbers as they are written
param: int{16} ?i
param: nat{100} ?n
trace: -0 007\n-03 99\n
to: 1
written: 0 7\n-3 99\n
end: Ok

param: int{16} ?i
param: nat{100} ?n
trace: -0 007\n-03 07\n
to: 2
written: # i n\n_ 7\n-3 _\n
end: Ok

# bits and arrays
param: bv{4} ?b
param: nat{8} ?t [3]
trace: 0b1010 1 2 3\n0b1010 1 0 3\n
to: 2
written: # b t\n0b1010 1 2 3\n_ _ 0 _\n
end: Ok

# a line that isn't readable
param: bool ?x
trace: 1\n\n0\n
to: 1
written: 1\n
end: BadInput { step: 1 }

param: bool ?x
trace: zz\n
to: 2
written: # x\n
end: BadInput { step: 0 }

param: bool ?x
trace: # x\n1\n2\n
to: 2
written: # x\n1\n
end: BadInput { step: 1 }

# `_` keeps nothing without a header
param: bool ?x
trace: 1\n_\n
to: 1
written: 1\n
end: BadInput { step: 1 }

# a header that isn't readable
param: bool ?x
trace: # z\n1\n
to: 1
written:
end: BadInput { step: 0 }

param: bool ?x
trace: # x x\n1 1\n
to: 2
written: # x\n
end: BadInput { step: 0 }

param: bool ?x
param: bool !a
trace: # a\n1\n
to: 2
written: # x\n
end: BadInput { step: 0 }

# a header behind the first line is none
param: bool ?x
trace: 1\n# x\n1\n
to: 1
written: 1\n
end: BadInput { step: 1 }

# at most so many steps
param: bool ?x
trace: 1\n0\n1\n
most: 2
to: 1
written: 1\n0\n
end: StepLimit

param: bool ?x
trace: 1\n0\n
most: 2
to: 1
written: 1\n0\n
end: Ok

param: bool ?x
trace: 1\n0\nzz\n
most: 2
to: 2
written: # x\n1\n0\n
end: BadInput { step: 2 }"#;

// Traces with long lines, which are read as a whole.
const LONG_LINES: &str = r#"# lines that are too long
param: bool ?x
trace: 1\n«  × 65000»«  × 536» 1\n
to: 1
written: 1\n
end: BadInput { step: 1 }

param: bool ?x
trace: 1\n«  × 65000»«  × 535»1\n
to: 1
written: 1\n1\n
end: Ok

param: bool ?x
trace: #«  × 65000»«  × 535» x\n1\n
to: 1
written:
end: BadInput { step: 0 }"#;

/// Converts a trace of the inputs among these parameters.
pub(crate) fn convert<S: Source, O: Sink>(
    alloc: Global,
    params: &str,
    to: u32,
    most_steps: u32,
    input: &mut S,
    out: &mut O,
) -> Result<Status, NoMemory> {
    let vars = vars_of(alloc, params)?;
    convert_trace(alloc, &vars, Format::of_number(to), most_steps, input, out)
}

fn check_row(rt: &impl Abort, alloc: Global, row: &str, piece: u32) -> Result<(), Fail>
    requires { 1 ≤ piece }
{
    let trace = bytes_of(alloc, &spread(alloc, value_of(row, "trace"))?)?;
    let params = values_of(alloc, row, "param")?;
    let to = value_of(row, "to").parse::<u32>()?;
    let most = value_of(row, "most").parse::<u32>().unwrap_or(u32::MAX);
    let mut source = MemSource::new(alloc, &trace, &[piece], &[])?;
    let mut sink = MemSink::new(alloc, 1000, &[])?;
    let status = convert(alloc, &params, to, most, &mut source, &mut sink)?;
    let end = format!(in alloc; "{status:?}")?;
    let written = bytes_of(alloc, value_of(row, "written"))?;
    assert_eq!(rt; sink.bytes(), written.as_slice(), "{row}");
    assert_eq!(rt; end.as_str(), value_of(row, "end"), "{row}");
    if status == Status::Ok {
        assert!(rt; source.left().is_empty(), "{row}");
    }
    Ok(())
}

#[test]
fn rows(rt: HostRuntime) -> Result<(), Fail> {
    for row in CONVERTED.split("\n\n") {
        for piece in [1u32, 7, 65_536] {
            check_row(&rt, rt.alloc(), row, piece)?;
        }
    }
    Ok(())
}

#[test]
fn long_lines(rt: HostRuntime) -> Result<(), Fail> {
    for row in LONG_LINES.split("\n\n") {
        check_row(&rt, rt.alloc(), row, 200_000)?;
    }
    Ok(())
}

// So many arrays of 64 elements of 32 bits.
fn wide_params(alloc: Global, arrays: u32) -> Result<String, Fail> {
    let mut params = String::new(alloc);
    for number in 0..arrays {
        params.push_str(&format!(in alloc; "bv{{32}} ?a{number} [64]\n")?)?;
    }
    Ok(params)
}

// Each value of a line is known, and the new line has 35 bytes for each.
#[test]
fn a_new_line_that_is_too_long(rt: HostRuntime) -> Result<(), Fail> {
    let alloc = rt.alloc();
    for (arrays, to, end, length) in [
        (29u32, 1u32, Status::Ok, 64_960usize),
        (30, 1, Status::BadInput { step: 0 }, 0),
        (30, 2, Status::Ok, 3_952),
    ] {
        let mut source = MemSource::new(alloc, b"#\n\n", &[], &[])?;
        let mut sink = MemSink::new(alloc, 70_000, &[])?;
        let params = wide_params(alloc, arrays)?;
        let status = convert(alloc, &params, to, u32::MAX, &mut source, &mut sink)?;
        assert_eq!(rt; status, end);
        assert_eq!(rt; sink.bytes().len(), length);
    }
    Ok(())
}
