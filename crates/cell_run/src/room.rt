//! The memory of a run, all taken before its first read.

ghost use Rattle.std.specs.Prelude.{◌≡◌, ◌≤◌, ◌<◌, ◌+◌, ◌^◌, List, ℕ, map, length, vec_capacity, IfOk};
ghost use Rattle.quartz_expr.specs.Typed.{AreSound};
ghost use Rattle.aif_cells.specs.Worth.{number_at};
ghost use Rattle.cell_run.specs.Machine.{initials, shown};
ghost use Rattle.cell_run.specs.Room.{IsRoomFor};

use aif_cells::{Aif, Register};
use quartz_tree::NoMemory;
use stage_rings::{Body, Packet};
use std::alloc::Global;
use trace_io::{TraceReader, TraceWriter};

/// What a run keeps: values of the registers, of the cells, and of what is read and written.
#[derive(Debug, Drop)]
pub(crate) struct Room {
    /// The registers of this macro step.
    pub registers: Vec<i64>,
    /// Those of the next one.
    pub next: Vec<i64>,
    pub cells: Vec<i64>,
    /// The inputs' values that are read, and then the outputs' values that are written.
    pub packet: Packet,
    pub reader: TraceReader,
    pub writer: TraceWriter,
}

// What the registers hold in the first step.
fn first_registers(alloc: Global, registers: &[Register]) -> Result<Vec<i64>, NoMemory>
    ensures { IfOk result (λ v. v.items ≡ initials registers.now) }
{
    let mut first = Vec::new(alloc);
    for register in registers {
        first.push(register.initial)?;
    }
    Ok(first)
}

/// The memory of a run of these cells.
pub(crate) fn room_for(alloc: Global, aif: &Aif) -> Result<Room, NoMemory>
    requires { AreSound aif.now.vars }
    ensures { IfOk result (λ room. IsRoomFor aif.now room) }
{
    let vars = aif.vars.as_slice();
    let reader = TraceReader::new(alloc, vars)?;
    let writer = TraceWriter::new(alloc, vars)?;
    let registers = first_registers(alloc, aif.registers.as_slice())?;
    let next = vec![in alloc; 0; aif.registers.len()]?;
    let cells = vec![in alloc; 0; aif.cells.len()]?;
    let packet = Packet {
        step: 0,
        body: Body::Step { fault: None },
        values: Vec::with_capacity(alloc, aif.outputs.len().max(reader.count()))?,
    };
    Ok(Room {
        registers,
        next,
        cells,
        packet,
        reader,
        writer,
    })
}

fn number(numbers: &[i64], at: u32) -> i64
    ensures { result ≡ number_at numbers.now at }
{
    numbers.get(at as usize).copied().unwrap_or(0)
}

/// Puts the values of the outputs' cells in place of those that stand there.
pub(crate) fn show(outputs: &[u32], cells: &[i64], into: &mut Vec<i64>)
    requires { length outputs.now ≤ vec_capacity into.old }
    ensures shown { into.new.items ≡ shown outputs.now cells.now }
    ensures room_stays { vec_capacity into.new ≡ vec_capacity into.old }
{
    into.clear();
    for &cell in outputs {
        into.push_reserved(number(cells, cell));
    }
}
