//! Surfaces and depths of small statements without variables.

ghost use Rattle.std.specs.Prelude.{[], IfOk};
ghost use Rattle.quartz_tree.specs.Kernel.{kernel};
ghost use Rattle.quartz_expr.specs.Terms.{term_of};
ghost use Rattle.statement_cells.specs.Sound.{IsSound};
ghost use Rattle.statement_builder.specs.Built.{IsOver};

use aif_cells::{Aif, Ref};
use quartz_tree::{Name, NoMemory, Stmt};
use sqlite_items::Items;
use statement_builder::{Builder, Entry, Numbers};
use std::alloc::Global;
use std::test::Fail;

/// How one `pause` or two stand.
#[derive(Clone, Copy, Debug)]
enum Pauses {
    One,
    InTurn,
    Beside,
}

/// What a statement is made to. Its labels begin with r1.
struct Row {
    pauses: Pauses,
    /// Under what it is started, if it is; else its depth is made.
    go: Option<Ref>,
    end: Ref,
    entries: &'static [Entry],
    stays: &'static [Entry],
    cells: usize,
}

const IN_START: Entry = Entry {
    label: 1,
    under: Ref::Reg(0),
};

const SECOND: Entry = Entry {
    label: 2,
    under: Ref::Reg(1),
};

const NO_STAY: Entry = Entry {
    label: 1,
    under: Ref::Lit(0),
};

const ROWS: [Row; 5] = [
    // a pause enters its label
    Row {
        pauses: Pauses::One,
        go: Some(Ref::Reg(0)),
        end: Ref::Lit(0),
        entries: &[IN_START],
        stays: &[],
        cells: 0,
    },
    // nothing starts under the literal 0
    Row {
        pauses: Pauses::One,
        go: Some(Ref::Lit(0)),
        end: Ref::Lit(0),
        entries: &[],
        stays: &[],
        cells: 0,
    },
    // a pause ends, and may stay
    Row {
        pauses: Pauses::One,
        go: None,
        end: Ref::Reg(1),
        entries: &[],
        stays: &[NO_STAY],
        cells: 0,
    },
    // a part starts where the one before ends
    Row {
        pauses: Pauses::InTurn,
        go: None,
        end: Ref::Reg(2),
        entries: &[SECOND],
        stays: &[
            NO_STAY,
            Entry {
                label: 2,
                ..NO_STAY
            },
        ],
        cells: 0,
    },
    // a parallel ends with all parts: `not(r1)`, `or(r1,c0)`, `not(r2)`, `or(r2,c2)`, `or(r1,r2)`,
    // `and(c4,c1)`, `and(c5,c3)`
    Row {
        pauses: Pauses::Beside,
        go: None,
        end: Ref::Cell(6),
        entries: &[],
        stays: &[
            NO_STAY,
            Entry {
                label: 2,
                ..NO_STAY
            },
        ],
        cells: 7,
    },
];

// A builder of a module without variables.
fn empty(alloc: Global) -> Result<Builder, NoMemory>
    ensures { IfOk result (λ b. IsOver [] b) }
{
    let name = Name::new(alloc, "m")?;
    let aif = Aif::new(alloc, &name, &[])?;
    Ok(Builder {
        aif,
        copies: Vec::new(alloc),
        entries: Items::new(alloc),
        stays: Items::new(alloc),
        variables: Vec::new(alloc),
        entered: Items::new(alloc),
        depths: Items::new(alloc),
    })
}

fn statement(alloc: Global, pauses: Pauses) -> Result<Stmt, NoMemory>
    ensures { IfOk result (λ s. IsSound [] (term_of (kernel s))) }
{
    match pauses {
        Pauses::One => Ok(Stmt::Pause),
        Pauses::InTurn => Ok(Stmt::Seq(vec![in alloc; Stmt::Pause, Stmt::Pause]?)),
        Pauses::Beside => Ok(Stmt::Par(vec![in alloc; Stmt::Pause, Stmt::Pause]?)),
    }
}

// Makes the row's statement, and answers under what it ends.
fn made(alloc: Global, builder: &mut Builder, row: &Row) -> Result<Ref, NoMemory>
    requires { IsOver [] builder.old }
{
    let body = statement(alloc, row.pauses)?;
    let first = Numbers {
        label: 1,
        register: 3,
    };
    match row.go {
        Some(go) => builder.surface(alloc, &[], &body, first, go, Ref::Lit(1)),
        None => builder.depth(
            alloc,
            &[],
            &body,
            first,
            Ref::Lit(1),
            Ref::Lit(1),
            Ref::Lit(0),
        ),
    }
}

#[test]
fn surfaces_and_depths(rt: HostRuntime) -> Result<(), Fail> {
    for row in &ROWS {
        let mut builder = empty(rt.alloc())?;
        let end = made(rt.alloc(), &mut builder, row)?;
        assert_eq!(rt; end, row.end, "{:?}", row.pauses);
        assert_eq!(rt; builder.entries.as_slice(), row.entries, "{:?}", row.pauses);
        assert_eq!(rt; builder.stays.as_slice(), row.stays, "{:?}", row.pauses);
        assert_eq!(rt; builder.aif.cells.len(), row.cells, "{:?}", row.pauses);
    }
    Ok(())
}
