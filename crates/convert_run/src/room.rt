//! The memory of converting, all taken before the first write and the first read.

ghost use Rattle.std.specs.Prelude.{IfOk};
ghost use Rattle.quartz_expr.specs.Typed.{AreSound};
ghost use Rattle.convert_run.specs.Room.{IsRoomFor};

use quartz_tree::{NoMemory, Var};
use stage_rings::{Body, Packet};
use std::alloc::Global;
use trace_io::TraceReader;
use trace_writer::{Format, InputWriter};

/// What converting keeps: the values of a step, and what is read and written.
#[derive(Debug, Drop)]
pub(crate) struct Room {
    pub packet: Packet,
    pub reader: TraceReader,
    pub writer: InputWriter,
}

/// The memory of converting a trace of the inputs among these variables.
pub(crate) fn room_for(alloc: Global, vars: &[Var], format: Format) -> Result<Room, NoMemory>
    requires { AreSound vars.now }
    ensures { IfOk result (λ room. IsRoomFor format vars.now room) }
{
    let reader = TraceReader::new(alloc, vars)?;
    let writer = InputWriter::new(alloc, vars, format)?;
    let packet = Packet {
        step: 0,
        body: Body::Step { fault: None },
        values: Vec::with_capacity(alloc, reader.count())?,
    };
    Ok(Room {
        packet,
        reader,
        writer,
    })
}
