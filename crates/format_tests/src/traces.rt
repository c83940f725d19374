//! Rows of traces, what they are read as, and the lines that are written.

ghost use Rattle.std.specs.Prelude.{◌≤◌, IfOk, vec_capacity};

use crate::params::vars_of;
use outside::{MemSink, MemSource, Sink, Source};
use quartz_tree::NoMemory;
use stage_rings::{Body, Packet};
use std::alloc::{AllocError, Global};
use std::process::Abort;
use std::test::Fail;
use test_rows::{bytes_of, spread, value_of, values_of};
use trace_io::{CountSink, ReadStep, TraceGen, TraceReader, TraceWriter};

// The parameters of a module, a trace, and what it is read as: the number of its steps, their
// values one after another, and the answer behind them.
const TRACES: &str = r#"# without a header
param: bool ?x
param: bool !a
param: bool ?y
trace: 1\t 1\r\n0 0\r\n  1   1
steps: 3
values: 1 1 0 0 1 1
end: End

param: bool ?x
param: bool !a
param: bool ?y
steps: 0
end: End

param: bool ?x
param: bool !a
param: bool ?y
trace: 1 1\n\n0 0\n
steps: 1
values: 1 1
end: Bad

param: bool ?x
param: bool !a
param: bool ?y
trace: 1 1\n \x20
steps: 1
values: 1 1
end: Bad

param: bool ?x
param: bool !a
param: bool ?y
trace: 1 1\n1\r 1\n
steps: 1
values: 1 1
end: Bad

param: bool ?x
param: bool !a
param: bool ?y
trace: 1 1\r\r\n
steps: 0
end: Bad

param: bool ?x
param: bool !a
param: bool ?y
trace: 1 0\n1 0 0\n0 0\n
steps: 1
values: 1 0
end: Bad

param: bool ?x
param: bool !a
param: bool ?y
trace: 1 0\n1\n0 0\n
steps: 1
values: 1 0
end: Bad

param: bool ?x
param: bool !a
param: bool ?y
trace: 1 0\n1 -\n
steps: 1
values: 1 0
end: Bad

param: bool ?x
param: bool !a
param: bool ?y
trace: 1 0\n1 _\n
steps: 1
values: 1 0
end: Bad

param: bool ?x
param: bool !a
param: bool ?y
trace: 1 0\n# y x\n
steps: 1
values: 1 0
end: Bad

param: bool ?x
param: bool !a
param: bool ?y
trace: \x20# y x\n1 1\n
steps: 0
end: Bad

param: bool ?x
param: bool !a
param: bool ?y
trace: 1 0\n1 0\x00\n
steps: 1
values: 1 0
end: Bad

param: bool ?x
param: bool !a
param: bool ?y
trace: 1 0\n1 \x7f\n
steps: 1
values: 1 0
end: Bad

param: bool ?x
param: bool !a
param: bool ?y
trace: 1 0\n1 \xff\n
steps: 1
values: 1 0
end: Bad

param: bool ?x
param: bool !a
param: bool ?y
trace: \t0\t1\t\n
steps: 1
values: 0 1
end: End

# with a header
param: bool ?x
param: bool !a
param: bool ?y
trace: # y x\n1 1\n0 _\n
steps: 2
values: 1 1 1 0
end: End

param: bool ?x
param: bool !a
param: bool ?y
trace: # x y\n1 1\n_ 0\n0 _\n
steps: 3
values: 1 1 1 0 0 0
end: End

param: bool ?x
param: bool !a
param: bool ?y
trace: # x\n1\n
steps: 1
values: 1 0
end: End

param: bool ?x
param: bool !a
param: bool ?y
trace: # x\n_\n1\n_\n0 1\n
steps: 3
values: 0 0 1 0 1 0
end: Bad

param: bool ?x
param: bool !a
param: bool ?y
trace: # x z\n1 1\n
steps: 0
end: Bad

param: bool ?x
param: bool !a
param: bool ?y
trace: # a\n1\n
steps: 0
end: Bad

param: bool ?x
param: bool !a
param: bool ?y
trace: # x x\n1 1\n
steps: 0
end: Bad

param: bool ?x
param: bool !a
param: bool ?y
trace: # x y x\n1 1 1\n
steps: 0
end: Bad

param: bool ?x
param: bool !a
param: bool ?y
trace: #
steps: 0
end: End

param: bool ?x
param: bool !a
param: bool ?y
trace: #\n
steps: 0
end: End

param: bool ?x
param: bool !a
param: bool ?y
trace: #\n\n \t\r\n
steps: 2
values: 0 0 0 0
end: End

param: bool ?x
param: bool !a
param: bool ?y
trace: #y\t\tx \r\n1 0\r\n
steps: 1
values: 0 1
end: End

param: bool ?x
param: bool !a
param: bool ?y
trace: # x y\n1 __\n
steps: 0
end: Bad

param: bool ?x
param: bool !a
param: bool ?y
trace: # x y\n1 0\n# x y\n
steps: 1
values: 1 0
end: Bad

# numbers
param: int{8} ?x
param: int{8} ?y
trace: 7 -2\n-7 2\n1 0\n
steps: 3
values: 7 -2 -7 2 1 0
end: End

# bits
param: bv{4} ?p
trace: 0b1010\n
steps: 1
values: 10
end: End

param: bv{4} ?p
trace: 0b101\n
steps: 0
end: Bad

# numbers of a small range
param: nat{4} ?i
trace: 0\n2\n3\n
steps: 3
values: 0 2 3
end: End

param: nat{4} ?i
trace: 0\n4\n3\n
steps: 1
values: 0
end: Bad

# an array
param: bool ?b
param: nat{10} ?n [3]
trace: 1 2 3 4\n
steps: 1
values: 1 2 3 4
end: End

param: bool ?b
param: nat{10} ?n [3]
trace: # n b\n1 _ 3 0\n_ 2 _ 1\n
steps: 2
values: 0 1 0 3 1 1 2 3
end: End

# no input
trace: \x20\t\n\n\r\n\x20
steps: 4
end: End

trace: \n0\n
steps: 1
end: Bad"#;

// Traces with long lines, which are read as a whole.
const LONG_LINES: &str = r#"# the length of a line
trace: «  × 65536»\n
steps: 1
end: End

trace: «  × 65536»
steps: 1
end: End

trace: «  × 65537»\n
steps: 0
end: Bad

trace: «  × 65535»\r\n
steps: 1
end: End

trace: «  × 65536»\r\n
steps: 0
end: Bad

trace: «  × 200000»
steps: 0
end: Bad

trace: #«  × 65535»\n\n
steps: 1
end: End

trace: #«  × 65536»\n\n
steps: 0
end: Bad

# numbers of many digits
param: nat{10} ?i
trace: «0 × 65000»7\n
steps: 1
values: 7
end: End

param: nat{10} ?i
trace: «9 × 65000»7\n
steps: 0
end: Bad"#;

fn packet(alloc: Global, room: usize) -> Result<Packet, AllocError>
    ensures { IfOk result (λ p. room ≤ vec_capacity p.values) }
{
    Ok(Packet {
        step: 0,
        body: Body::Step { fault: None },
        values: Vec::with_capacity(alloc, room)?,
    })
}

/// What a trace was read as: the number of its steps, their values one after another, and the
/// answer behind them.
#[derive(Drop)]
struct Seen {
    steps: usize,
    values: Vec<i64>,
    answer: ReadStep,
}

// Reads at most eight steps.
fn read_trace(alloc: Global, params: &str, source: &mut MemSource) -> Result<Seen, NoMemory> {
    let vars = vars_of(alloc, params)?;
    let mut reader = TraceReader::new(alloc, &vars)?;
    let mut into = packet(alloc, reader.count())?;
    let mut values = Vec::new(alloc);
    for steps in 0..8usize {
        if into.values.capacity() < reader.count() {
            return Err(NoMemory);
        }
        let answer = reader.read_step(source, &mut into);
        if answer != ReadStep::Step {
            return Ok(Seen {
                steps,
                values,
                answer,
            });
        }
        values.extend_from_slice(&into.values)?;
    }
    Ok(Seen {
        steps: 8,
        values,
        answer: ReadStep::Step,
    })
}

// The numbers with a blank between.
fn spelled(alloc: Global, numbers: &[i64]) -> Result<String, AllocError> {
    let mut text = String::new(alloc);
    for (at, number) in numbers.iter().enumerate() {
        let between = if at == 0 { "" } else { " " };
        text.push_str(&format!(in alloc; "{between}{number}")?)?;
    }
    Ok(text)
}

fn check_trace(rt: &impl Abort, alloc: Global, row: &str, piece: u32) -> Result<(), Fail>
    requires { 1 ≤ piece }
{
    let trace = bytes_of(alloc, &spread(alloc, value_of(row, "trace"))?)?;
    let params = values_of(alloc, row, "param")?;
    let mut source = MemSource::new(alloc, &trace, &[piece], &[])?;
    let seen = read_trace(alloc, &params, &mut source)?;
    let steps = format!(in alloc; "{}", seen.steps)?;
    let answer = format!(in alloc; "{:?}", seen.answer)?;
    assert_eq!(rt; steps.as_str(), value_of(row, "steps"), "{row}");
    assert_eq!(rt;
        spelled(alloc, &seen.values)?.as_str(),
        value_of(row, "values"),
        "{row}"
    );
    assert_eq!(rt; answer.as_str(), value_of(row, "end"), "{row}");
    Ok(())
}

#[test]
fn traces(rt: HostRuntime) -> Result<(), Fail> {
    for row in TRACES.split("\n\n") {
        for piece in [1u32, 2, 3, 65_536] {
            check_trace(&rt, rt.alloc(), row, piece)?;
        }
    }
    Ok(())
}

#[test]
fn long_lines(rt: HostRuntime) -> Result<(), Fail> {
    for row in LONG_LINES.split("\n\n") {
        check_trace(&rt, rt.alloc(), row, 200_000)?;
    }
    Ok(())
}

// Five lines of four bytes, for these parameters.
const FIVE_LINES: &[u8] = b"1 1\n0 0\n1 0\n0 1\n1 1\n";

const X_AND_Y: &str = "bool ?x\nbool !a\nbool ?y";

// The five lines in such pieces; that call of the source fails.
fn failing_source(alloc: Global, piece: u32, call: u32) -> Result<MemSource, NoMemory> {
    if piece == 0 {
        return Err(NoMemory);
    }
    MemSource::new(alloc, FIVE_LINES, &[piece], &[u64::from(call)])
}

#[test]
fn whole_lines_before_a_failed_read(rt: HostRuntime) -> Result<(), Fail> {
    for call in 0..22u32 {
        for piece in [1u32, 2, 3, 65_536] {
            let asked = u64::from(call) * u64::from(piece);
            let taken = asked.min(20) as usize;
            let mut source = failing_source(rt.alloc(), piece, call)?;
            let seen = read_trace(rt.alloc(), X_AND_Y, &mut source)?;
            let is_made = asked < 20 + u64::from(piece);
            let (answer, steps) = if is_made {
                (ReadStep::ReadFault, taken / 4)
            } else {
                (ReadStep::End, 5)
            };
            assert_eq!(rt; seen.answer, answer, "{piece} {call}");
            assert_eq!(rt; seen.steps, steps, "{piece} {call}");
            assert_eq!(rt; source.left().len(), 20 - taken, "{piece} {call}");
        }
    }
    Ok(())
}

#[test]
fn nothing_behind_a_failed_read(rt: HostRuntime) -> Result<(), Fail> {
    let vars = vars_of(rt.alloc(), X_AND_Y)?;
    let mut reader = TraceReader::new(rt.alloc(), &vars)?;
    let mut source = MemSource::new(rt.alloc(), FIVE_LINES, &[5], &[1])?;
    let mut into = packet(rt.alloc(), reader.count())?;
    for answer in [ReadStep::Step, ReadStep::ReadFault, ReadStep::ReadFault] {
        assert_eq!(rt; into.values.capacity() >= reader.count(), true);
        assert_eq!(rt; reader.read_step(&mut source, &mut into), answer);
    }
    assert_eq!(rt; source.left().len(), 15);
    Ok(())
}

// Writes a line of the values so often, as long as the sink takes them, and answers how many lines
// were put.
fn write_lines(
    alloc: Global,
    params: &str,
    values: &[i64],
    sink: &mut MemSink,
) -> Result<usize, NoMemory> {
    let vars = vars_of(alloc, params)?;
    let mut writer = TraceWriter::new(alloc, &vars)?;
    let mut from = packet(alloc, values.len())?;
    from.values.extend_from_slice(values)?;
    for line in 0..5usize {
        if from.values.len() < writer.count() {
            return Err(NoMemory);
        }
        if writer.write_step(sink, &from).is_err() {
            return Ok(line);
        }
    }
    Ok(5)
}

// Five lines of six bytes, and their parameter.
const LINES: &[u8] = b"1 0 1\n1 0 1\n1 0 1\n1 0 1\n1 0 1\n";

const THREE: &str = "bool !t [3]";

#[test]
fn lines_before_a_failed_write(rt: HostRuntime) -> Result<(), Fail> {
    for call in 0..6usize {
        let mut sink = MemSink::new(rt.alloc(), 64, &[call as u64])?;
        let lines = write_lines(rt.alloc(), THREE, &[1, 0, 1], &mut sink)?;
        assert_eq!(rt; lines, call.min(5));
        assert_eq!(rt; sink.bytes(), &LINES[..lines * 6]);
    }
    for room in 0..31usize {
        let mut sink = MemSink::new(rt.alloc(), room as u64, &[])?;
        let lines = write_lines(rt.alloc(), THREE, &[1, 0, 1], &mut sink)?;
        assert_eq!(rt; lines, room / 6);
        assert_eq!(rt; sink.bytes(), &LINES[..room]);
    }
    Ok(())
}

// The parameters of a module, the values of its outputs, and the line.
const WRITTEN: &str = r#"param: bv{8} !o
param: bv{4} ?p
param: nat{16} !m
values: 165 10
line: 0b10100101 10\n

param: int{16} !q [2]
values: -3 16 9
line: -3 0\n

param: bool !t [3]
values: 1 0 1
line: 1 0 1\n

param: bool ?x
line: \n"#;

#[test]
fn line_of_outputs(rt: HostRuntime) -> Result<(), Fail> {
    let alloc = rt.alloc();
    for row in WRITTEN.split("\n\n") {
        let mut values = Vec::new(alloc);
        for word in value_of(row, "values").split_whitespace() {
            values.push(word.parse::<i64>()?)?;
        }
        let mut sink = MemSink::new(alloc, 64, &[1])?;
        write_lines(alloc, &values_of(alloc, row, "param")?, &values, &mut sink)?;
        let line = bytes_of(alloc, value_of(row, "line"))?;
        assert_eq!(rt; sink.bytes(), line.as_slice(), "{row}");
    }
    Ok(())
}

// The parameters of a module, a seed and a number of steps, and the trace.
const GENERATED: &str = r#"param: bool ?x
seed: 0
steps: 1
trace: 1\n

param: int{8} ?i
param: bv{4} ?b
param: nat{10} ?n
seed: 7
steps: 3
trace: 6 0b1111 3\n-7 0b1001 9\n0 0b0100 9\n

param: bool !y
seed: 7
steps: 2
trace: \n\n

seed: 7
steps: 0"#;

// The trace of the generator of a row.
fn generated(alloc: Global, row: &str) -> Result<Vec<u8>, Fail> {
    let vars = vars_of(alloc, &values_of(alloc, row, "param")?)?;
    let seed = value_of(row, "seed").parse::<u64>()?;
    let steps = value_of(row, "steps").parse::<u32>()?;
    let mut source = TraceGen::new(alloc, &vars, seed, steps)?;
    let mut all = Vec::new(alloc);
    for _ in 0..20 {
        let mut room = [0; 4];
        if let Ok(count) = source.take(&mut room) {
            all.extend_from_slice(&room[..count])?;
        }
    }
    Ok(all)
}

#[test]
fn generated_lines(rt: HostRuntime) -> Result<(), Fail> {
    for row in GENERATED.split("\n\n") {
        let wanted = bytes_of(rt.alloc(), value_of(row, "trace"))?;
        assert_eq!(rt;
            generated(rt.alloc(), row)?.as_slice(),
            wanted.as_slice(),
            "{row}"
        );
    }
    Ok(())
}

#[test]
fn counted_bytes_and_the_last_line(rt: HostRuntime) -> Result<(), Fail> {
    let mut sink = CountSink::new(rt.alloc())?;
    assert_eq!(rt; sink.put(b"10\n"), Ok(3));
    assert_eq!(rt; sink.put(b"0"), Ok(1));
    assert_eq!(rt; sink.put(b"1\n"), Ok(2));
    assert_eq!(rt; sink.bytes(), 6);
    assert_eq!(rt; sink.last(), b"01\n".as_slice());
    Ok(())
}
