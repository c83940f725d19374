//! The values of cells, what registers take next, and the least fault.

ghost use Rattle.std.specs.Prelude.{◌≡◌, ◌≤◌, ℤ, List, length, map, vec_capacity};
ghost use Rattle.quartz_tree.specs.Least.{least_fault};
ghost use Rattle.quartz_expr.specs.Faults.{fault_if};
ghost use Rattle.absence_reaction.specs.Meaning.{raised};
ghost use Rattle.aif_cells.specs.Built.{all_defined};
ghost use Rattle.aif_cells.specs.Order.{IsOrder};
ghost use Rattle.aif_cells.specs.Solution.{IsSolution};
ghost use Rattle.aif_cells.specs.Worth.{holds, listed, number_at, read};

use aif_cells::{Aif, Monitor, Order, value_of, worth_of};
use quartz_expr::lesser_of;
use quartz_tree::Fault;

/// Computes the values of all cells under values of the input elements and registers, in the order
/// of the cells. Nothing depends on what `values` has before.
pub fn evaluate(aif: &Aif, order: &Order, inputs: &[i64], registers: &[i64], values: &mut [i64])
    requires order { IsOrder (all_defined aif.now.cells) order.now.cells }
    requires room { length values.old ≡ length aif.now.cells }
    ensures solution { IsSolution (listed inputs.now registers.now values.new)
        (all_defined aif.now.cells) }
    ensures room { length values.new ≡ length values.old }
{
    let cells = aif.cells.as_slice();
    for &cell in order.cells.as_slice() {
        let cell = cell as usize;
        values[cell] = worth_of(&cells[cell].tree, inputs, registers, values);
    }
}

/// Puts what the registers hold in the next macro step in place of what `next` has.
pub fn next_registers(
    aif: &Aif,
    inputs: &[i64],
    registers: &[i64],
    values: &[i64],
    next: &mut Vec<i64>,
)
    requires room { length aif.now.registers ≤ vec_capacity next.old }
    ensures taken { next.new.items
        ≡ map (λ r. read (listed inputs.now registers.now values.now) r.next) aif.now.registers }
    ensures room_stays { vec_capacity next.new ≡ vec_capacity next.old }
{
    next.clear();
    for register in aif.registers.as_slice() {
        next.push_reserved(value_of(register.next, inputs, registers, values));
    }
}

// The fault of a monitor whose cell isn't 0.
fn fault_of(monitor: &Monitor, values: &[i64]) -> Option<Fault>
    ensures { result ≡ least_fault (fault_if (holds (number_at values.now monitor.now.cell))
        monitor.now.kind monitor.now.place) }
{
    let value = values.get(monitor.cell as usize).copied().unwrap_or(0);
    if value == 0 {
        None
    } else {
        Some(Fault {
            place: monitor.place,
            kind: monitor.kind,
        })
    }
}

/// The least fault of the monitors whose cells aren't 0, by place, then by kind. Where each is 0
/// there is none.
pub fn least_raised(aif: &Aif, values: &[i64]) -> Option<Fault>
    ensures { (is rs : List ℤ)
        → result ≡ least_fault (raised (listed is rs values.now) aif.now.monitors) }
{
    let mut least = None;
    for monitor in aif.monitors.as_slice().iter().rev() {
        least = lesser_of(fault_of(monitor, values), least);
    }
    least
}
