//! The registers of labels, told what they take by the entries of a builder.

ghost use Rattle.std.specs.Prelude.{◌≡◌, ◌+◌, ◌<◌, ◌≤◌, ◌^◌, length, OnOk};
ghost use Rattle.surface_depth.specs.Labels.{TakesLabels};

use crate::labelling::{by_label, take_labels};
use aif_cells::Register;
use quartz_tree::NoMemory;
use sqlite_items::Items;
use statement_builder::Builder;
use std::alloc::Global;

/// The registers of so many labels are told what they take.
pub(crate) fn label_registers(
    alloc: Global,
    builder: &mut Builder,
    registers: &mut Items<Register>,
    labels: u32,
) -> Result<(), NoMemory>
    requires room { 1 + labels ≤ length registers.old }
    requires few { length registers.old < 2 ^ 32 }
    ensures count { OnOk result (length registers.new ≡ length registers.old) }
    ensures taken { OnOk result
        (TakesLabels builder.old registers.old labels builder.new registers.new) }
{
    let entered = by_label(alloc, builder.entries.as_slice(), labels)?;
    let stays = by_label(alloc, builder.stays.as_slice(), labels)?;
    take_labels(
        alloc,
        registers,
        &mut builder.aif.cells,
        entered.as_slice(),
        stays.as_slice(),
    )?;
    Ok(())
}
