//! The order of the cells, or the cycle.

ghost use Rattle.std.specs.Prelude.{ℕ, List, ◌≡◌, ◌<◌, ◌^◌, ◌∷◌, length, Contains, IfOk, IfErr, OnOk};
ghost use Rattle.aif_cells.specs.Built.{all_defined};
ghost use Rattle.aif_cells.specs.Order.{IsOrder};
ghost use Rattle.causality_check.specs.Graph.{IsClosed};
ghost use Rattle.causality_check.specs.Order.{HasNoCycle, IsFaultOf, NamesCells};
ghost use Rattle.causality_check.specs.Shortest.{IsBestPath, IsLeastOnCycle, IsCycleList};
ghost use Rattle.causality_check.specs.Turns.{IsStuck};

use crate::components::components;
use crate::cycle::{least_on_cycle, path_around};
use crate::distance::distances_to;
use crate::fault::OrderFault;
use crate::gather::needs_of_cells;
use crate::turns::take_in_turn;
use aif_cells::{Aif, Order};
use quartz_tree::NoMemory;
use sqlite_items::Items;
use std::alloc::Global;

/// The order in which the cells are computed: again and again the least-numbered cell that depends
/// only on cells that are taken.
///
/// Where that stops early there is a cycle. The one in the fault starts at the least-numbered cell
/// that lies on a cycle, is a shortest one through it, and is the first such list by its numbers.
pub fn order(alloc: Global, aif: &Aif) -> Result<Order, OrderFault>
    requires few { length aif.now.cells < 2 ^ 31 }
    requires named { NamesCells (all_defined aif.now.cells) }
    ensures ordered { IfOk result (λ o. IsOrder (all_defined aif.now.cells) o.cells) }
    ensures acyclic { OnOk result (HasNoCycle (all_defined aif.now.cells)) }
    ensures fault { IfErr result (IsFaultOf (all_defined aif.now.cells)) }
{
    let cells = aif.cells.as_slice();
    let graph = needs_of_cells(alloc, cells)?;
    let order = take_in_turn(alloc, graph.as_slice())?;
    if order.len() == cells.len() {
        return Ok(Order { cells: order });
    }
    let (start, cycle) = cycle_in(alloc, graph.as_slice())?;
    Err(OrderFault::Cycle(cycle, cells[start as usize].place))
}

// The least-numbered cell that lies on a cycle, and the cycle that is named.
fn cycle_in(alloc: Global, graph: &[Items<u32>]) -> Result<(u32, Vec<u32>), NoMemory>
    requires few { length graph.now < 2 ^ 32 }
    requires closed { IsClosed graph.now }
    requires stuck { IsStuck graph.now }
    ensures { IfOk result (λ r. IsCycleList graph.now r.0 r.1.items) }
{
    let ranks = components(alloc, graph)?;
    match least_on_cycle(graph, ranks.as_slice()) {
        None => unreachable!(),
        Some(start) => {
            let cycle = cycle_through(alloc, graph, start)?;
            Ok((start, cycle))
        }
    }
}

// A shortest cycle through a cell, from there on, the first one by its numbers.
fn cycle_through(alloc: Global, graph: &[Items<u32>], start: u32) -> Result<Vec<u32>, NoMemory>
    requires few { length graph.now < 2 ^ 32 }
    requires closed { IsClosed graph.now }
    requires start { IsLeastOnCycle graph.now start }
    ensures { IfOk result (λ cells. IsCycleList graph.now start cells.items) }
{
    let distances = distances_to(alloc, graph, start)?;
    let path = path_around(alloc, graph, distances.as_slice(), start)?;
    let mut cells = Vec::new(alloc);
    cells.push(start)?;
    cells.extend_from_slice(path.as_slice())?;
    Ok(cells)
}
