//! Writes that may happen in one step.

use crate::parts::{has_word, number_behind, ref_of};
use aif_cells::{Action, Aif, Made, Order, Path, Ref};
use quartz_tree::{Name, NoMemory, Place};
use sqlite_items::Items;
use std::alloc::Global;
use std::process::Abort;
use std::test::Fail;
use test_rows::{value_of, values_of};
use write_conflicts::{Pairs, loose_pairs};

// Where the labels stand: from the body on, the number of the part that is gone into, with `|`
// before the parts of a parallel. Writes with their guards and lines, and whether they are delayed;
// whether the copies have a store. And how many pairs are loose, with the least place of one.
const LOOSE: &str = r#"# guards that are inputs of their own
write: i0 @3
write: i1 @2
write: i2 @5
stored: yes
pairs: 3 at 3:1

# the start flag excludes a label, and labels of one sequence exclude one another; those in two parts of a parallel don't
label: 0 |0
label: 0 |1
label: 1
write: r0 @1
write: r1 @2
write: r2 @3
write: r3 @4
stored: yes
pairs: 1 at 3:1

# a pending value meets a write to a copy with store, whatever the guards say
label: 0
write: r0 @1 delayed
write: r1 @2
stored: yes
pairs: 1 at 2:1

label: 0
write: r0 @1 delayed
write: r1 @2
stored: no
pairs: 0"#;

// A write to variable 0. It writes copy 0 now, or copy 1 in the next step.
fn write_of(words: &str) -> Action {
    let (guard, others) = words.split_once(' ').unwrap_or((words, ""));
    let delayed = has_word(others, "delayed");
    Action {
        guard: ref_of(guard),
        var: 0,
        copy: u32::from(delayed),
        index: None,
        value: Ref::Lit(1),
        delayed,
        place: Place {
            line: number_behind(others, '@'),
            col: 1,
        },
    }
}

fn path_of(alloc: Global, words: &str) -> Result<Path, NoMemory> {
    let mut steps = Items::new(alloc);
    for word in words.split_whitespace() {
        let part = word.strip_prefix('|');
        let number = part.unwrap_or(word).parse::<u32>().unwrap_or(0);
        steps.push((part.is_some(), number))?;
    }
    Ok(Path { steps })
}

// The module without cells of a row.
fn module_of(alloc: Global, row: &str) -> Result<Aif, Fail> {
    let stored = value_of(row, "stored") == "yes";
    let mut aif = Aif::new(alloc, &Name::new(alloc, "M")?, &[])?;
    for label in values_of(alloc, row, "label")?.lines() {
        aif.paths.push(path_of(alloc, label)?)?;
    }
    for write in values_of(alloc, row, "write")?.lines() {
        aif.actions.push(write_of(write))?;
    }
    aif.made = Items::from_slice(alloc, &[Made { var: 0, stored }, Made { var: 0, stored }])?;
    Ok(aif)
}

#[tactic(auto, using(write_conflicts::proofs::OrderLemmas::empty_order))]
fn pairs_of(rt: &impl Abort, alloc: Global, aif: &Aif) -> Result<Pairs, NoMemory> {
    assert!(rt; aif.cells.is_empty());
    let order = Order {
        cells: Items::new(alloc),
    };
    loose_pairs(alloc, aif, &order)
}

#[test]
fn loose_writes(rt: HostRuntime) -> Result<(), Fail> {
    let alloc = rt.alloc();
    for row in LOOSE.split("\n\n") {
        let aif = module_of(alloc, row)?;
        let pairs = pairs_of(&rt, alloc, &aif)?;
        let count = pairs.count;
        let found = match pairs.least {
            Some(place) => format!(in alloc; "{count} at {}:{}", place.line, place.col)?,
            None => format!(in alloc; "{count}")?,
        };
        assert_eq!(rt; found.as_str(), value_of(row, "pairs"), "{row}");
    }
    Ok(())
}
