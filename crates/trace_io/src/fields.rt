//! The elements of the inputs, each with its place and type.

ghost use Rattle.std.specs.Prelude.{◌≡◌, true, length, All, IfOk};
ghost use Rattle.quartz_expr.specs.Intervals.{is_sound_base};
ghost use Rattle.trace_io.specs.Inputs.{fields_from};
ghost use Rattle.trace_io.specs.Scan.{AreFields};

use crate::field::Field;
use quartz_tree::{Base, NoMemory};
use std::alloc::Global;

/// The elements of these types, in their order.
pub fn fields_of(alloc: Global, types: &[Base]) -> Result<Vec<Field>, NoMemory>
    requires { All (λ b. is_sound_base b ≡ true) types.now }
    ensures fields { IfOk result (λ fields. fields.items ≡ fields_from 0 types.now) }
    ensures sound { IfOk result (λ fields. AreFields (length types.now) fields.items) }
{
    let mut fields = Vec::with_capacity(alloc, types.len())?;
    for (place, base) in types.iter().enumerate() {
        fields.push(Field { place, base: *base })?;
    }
    Ok(fields)
}
