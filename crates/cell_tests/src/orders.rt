//! Orders of cells, and the cycles that leave none.

use crate::parts::ref_of;
use aif_cells::{Aif, Cell, Ref, Tree};
use causality_check::{OrderFault, are_named, order};
use quartz_tree::{Name, NoMemory, Place};
use std::alloc::Global;
use std::process::Abort;
use std::test::Fail;
use test_rows::{value_of, values_of};

// The cells that each cell names, and the order: the least-numbered cell whose dependences are
// taken comes first, each time. Or the cycle and the line of its first cell: it begins with the
// least cell that lies on one, and is a shortest one, and the least of these. Cell k stands in line
// k.
const ORDERS: &str = r#"order: []

cell: c1
cell: none
order: [1, 0]

cell: none
cell: none
cell: none
order: [0, 1, 2]

cell: c2
cell: c0
cell: none
order: [2, 0, 1]

cell: c3
cell: none
cell: c3
cell: none
order: [1, 3, 0, 2]

cell: c1 c1 c2
cell: c3
cell: c3 c1
cell: none
order: [3, 1, 2, 0]

cell: c0
order: cycle [0] at 0

cell: c2
cell: c1
cell: c0
order: cycle [0, 2] at 0

cell: c2 c1
cell: c0
cell: c0
order: cycle [0, 1] at 0

cell: c1
cell: c2
cell: c1
order: cycle [1, 2] at 1

cell: c3 c2
cell: c0
cell: c1
cell: c1
order: cycle [0, 2, 1] at 0

cell: c1 c3
cell: c2
cell: c0
cell: c0
order: cycle [0, 3] at 0

cell: none
cell: c3
cell: c1
cell: c2 c2
order: cycle [1, 3, 2] at 1

cell: c2
cell: none
cell: c3
cell: c2
cell: c5 c0
cell: c4
order: cycle [2, 3] at 2"#;

// A cell that names these cells, in that line.
fn naming(alloc: Global, names: &[Ref], line: u32) -> Result<Cell, NoMemory> {
    let mut items = Vec::new(alloc);
    for name in names {
        items.push(Tree::Value(*name))?;
    }
    let last = Box::new(alloc, Tree::Value(Ref::Lit(1)))?;
    Ok(Cell {
        tree: Tree::Any(items, last),
        place: Place { line, col: 1 },
    })
}

fn refs_of(alloc: Global, words: &str) -> Result<Vec<Ref>, NoMemory> {
    let mut refs = Vec::new(alloc);
    if words != "none" {
        for word in words.split(' ') {
            refs.push(ref_of(word))?;
        }
    }
    Ok(refs)
}

fn empty(alloc: Global) -> Result<Aif, NoMemory> {
    Aif::new(alloc, &Name::new(alloc, "M")?, &[])
}

// A module without variables, whose cells name these cells.
fn module_of(alloc: Global, cells: &str) -> Result<Aif, NoMemory> {
    let mut aif = empty(alloc)?;
    let mut line = 0u32;
    for cell in cells.lines() {
        aif.cells
            .push(naming(alloc, &refs_of(alloc, cell)?, line)?)?;
        line = line.wrapping_add(1);
    }
    Ok(aif)
}

// The order of the cells, or the cycle and its line.
fn order_of(rt: &impl Abort, alloc: Global, aif: &Aif) -> Result<String, Fail> {
    assert!(rt; aif.cells.len() < 2_147_483_648);
    let named = are_named(alloc, aif)?;
    assert!(rt; named);
    Ok(match order(alloc, aif) {
        Ok(order) => format!(in alloc; "{:?}", order.cells.as_slice())?,
        Err(OrderFault::Cycle(cells, place)) => {
            format!(in alloc; "cycle {:?} at {}", cells.as_slice(), place.line)?
        }
        Err(OrderFault::NoMemory) => String::from_str(alloc, "no memory")?,
    })
}

#[test]
fn orders(rt: HostRuntime) -> Result<(), Fail> {
    let alloc = rt.alloc();
    for row in ORDERS.split("\n\n") {
        let aif = module_of(alloc, &values_of(alloc, row, "cell")?)?;
        let found = order_of(&rt, alloc, &aif)?;
        assert_eq!(rt; found.as_str(), value_of(row, "order"), "{row}");
    }
    Ok(())
}

const RING: u32 = 999;

// 999 cells of which each depends on the next two, around, and one cell apart.
fn ring(alloc: Global) -> Result<Aif, NoMemory> {
    let mut aif = empty(alloc)?;
    for cell in 0..RING {
        let names = [Ref::Cell((cell + 2) % RING), Ref::Cell((cell + 1) % RING)];
        aif.cells.push(naming(alloc, &names, 0)?)?;
    }
    aif.cells.push(naming(alloc, &[], 0)?)?;
    Ok(aif)
}

// A shortest cycle has one step to the next cell and 499 over one cell. The least one has the short
// step first.
#[test]
fn ring_of_a_thousand(rt: HostRuntime) -> Result<(), Fail> {
    let alloc = rt.alloc();
    let mut cycle = vec![in alloc; 0u32]?;
    for step in 0..499 {
        cycle.push(1 + 2 * step)?;
    }
    let wanted = format!(in alloc; "cycle {cycle:?} at 0")?;
    let found = order_of(&rt, alloc, &ring(alloc)?)?;
    assert_eq!(rt; found.as_str(), wanted.as_str());
    Ok(())
}

#[test]
fn says_why(rt: HostRuntime) -> Result<(), Fail> {
    let alloc = rt.alloc();
    let place = Place { line: 3, col: 7 };
    let cycle = OrderFault::Cycle(Vec::new(alloc), place).to_string(alloc)?;
    assert_eq!(rt; cycle.as_str(), "S9 at 3:7");
    assert_eq!(rt;
        OrderFault::NoMemory.to_string(alloc)?.as_str(),
        "no memory"
    );
    Ok(())
}
