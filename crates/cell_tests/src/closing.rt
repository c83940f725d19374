//! Copies of a variable that are closed: with what actions, and the text of the cells that come of
//! it.

ghost use Rattle.std.specs.Prelude.{◌≡◌, ◌+◌, ◌*◌, ◌<◌, ◌≤◌, ◌^◌, length, IfOk};
ghost use Rattle.aif_cells.specs.Aif.{input_count};
ghost use Rattle.absence_reaction.specs.Closing.{AreBelow};

use crate::parts::{has_word, ref_of, variable_of};
use absence_reaction::{VarCopy, close};
use aif_cells::{Action, Aif, Cell, Ref, Tree, write_text};
use outside::MemSink;
use quartz_tree::{Name, NoMemory, Place};
use sqlite_items::Items;
use std::alloc::Global;
use std::test::Fail;
use test_rows::value_of;

// The variable, the value cells of its elements, its actions with their guards, indexes and values,
// and the end of the module's text when the copy is closed, with its values, its new flags and its
// new pending values. Its registers begin with r1.
const CLOSED: &str = r#"# A scalar with no now-action and up to three.
variable: mem nat{8} =3 @9
values: 0
is:
cell c0 = r1
cell c1 = 0
[Cell(0)] [Lit(0)] [Lit(0)]

variable: mem nat{8} =3 @9
values: 0
now: i0 => 5
is:
cell c0 = ite(i0,5,r1)
cell c1 = 0
[Cell(0)] [Lit(0)] [Lit(0)]

variable: mem nat{8} =3 @9
values: 0
now: i0 => 5; i1 => 6
is:
cell c0 = ite(i0,5,ite(i1,6,r1))
cell c1 = 0
cell c2 = or(and(i0,ne(5,c0)),and(i1,ne(6,c0)))
monitor c2 1:9 conflict
[Cell(0)] [Lit(0)] [Lit(0)]

variable: mem nat{8} =3 @9
values: 0
now: i0 => 5; i1 => 6; i2 => 7
is:
cell c0 = ite(i0,5,ite(i1,6,ite(i2,7,r1)))
cell c1 = 0
cell c2 = or(and(i0,ne(5,c0)),or(and(i1,ne(6,c0)),and(i2,ne(7,c0))))
monitor c2 1:9 conflict
[Cell(0)] [Lit(0)] [Lit(0)]

variable: event nat{8} =3 @9
values: 0
is:
cell c0 = 0
cell c1 = 0
[Cell(0)] [Lit(0)] [Lit(0)]

variable: event nat{8} =3 @9
values: 0
now: i0 => 5
is:
cell c0 = ite(i0,5,0)
cell c1 = 0
[Cell(0)] [Lit(0)] [Lit(0)]

# A delayed scalar, with store and without.
variable: mem nat{8} =3 @9 delayed
values: 0
is:
cell c0 = ite(r2,r3,r1)
cell c1 = 0
[Cell(0)] [Lit(0)] [Lit(0)]

variable: mem nat{8} =3 @9 delayed
values: 0
next: i3 => 5
is:
cell c0 = ite(r2,r3,r1)
cell c1 = 0
cell c2 = ite(i3,5,0)
[Cell(0)] [Input(3)] [Cell(2)]

variable: mem nat{8} =3 @9 delayed
values: 0
now: i0 => 5
next: i3 => 5; i4 => 6
is:
cell c0 = ite(r2,r3,ite(i0,5,r1))
cell c1 = 0
cell c2 = or(i3,i4)
cell c3 = ite(i3,5,ite(i4,6,0))
cell c4 = and(i0,ne(5,c0))
cell c5 = or(and(i3,ne(5,c3)),and(i4,ne(6,c3)))
monitor c4 1:9 conflict
monitor c5 1:9 conflict
[Cell(0)] [Cell(2)] [Cell(3)]

variable: mem nat{8} =3 @9 delayed fresh
values: 0
is:
cell c0 = 3
cell c1 = 0
[Cell(0)] [Lit(0)] [Lit(0)]

variable: mem nat{8} =3 @9 delayed fresh
values: 0
now: i0 => 5
next: i3 => 5
is:
cell c0 = ite(i0,5,3)
cell c1 = 0
cell c2 = ite(i3,5,0)
[Cell(0)] [Input(3)] [Cell(2)]

variable: mem nat{8} =3 @9 delayed fresh
values: 0
next: i3 => 5; i4 => 6; i5 => 7
is:
cell c0 = 3
cell c1 = 0
cell c2 = or(i3,or(i4,i5))
cell c3 = ite(i3,5,ite(i4,6,ite(i5,7,0)))
cell c4 = or(and(i3,ne(5,c3)),or(and(i4,ne(6,c3)),and(i5,ne(7,c3))))
monitor c4 1:9 conflict
[Cell(0)] [Cell(2)] [Cell(3)]

variable: event nat{8} =3 @9 delayed
values: 0
now: i0 => 5
is:
cell c0 = ite(r1,r2,ite(i0,5,0))
cell c1 = 0
cell c2 = and(i0,ne(5,c0))
monitor c2 1:9 conflict
[Cell(0)] [Lit(0)] [Lit(0)]

# Guards that are registers and literals.
variable: event nat{8} =3 @9 fresh
values: 0
now: r1 => 1
is:
cell c0 = ite(r1,1,0)
cell c1 = 0
[Cell(0)] [Lit(0)] [Lit(0)]

variable: mem nat{8} =3 @9 delayed fresh
values: 0
next: 0 => 5; i4 => 6
is:
cell c0 = 3
cell c1 = 0
cell c2 = ite(0,5,ite(i4,6,0))
cell c3 = or(and(0,ne(5,c2)),and(i4,ne(6,c2)))
monitor c3 1:9 conflict
[Cell(0)] [Input(4)] [Cell(2)]

# An array of two: a literal index writes one element, and any other may write each.
variable: event nat{8} =3 @9 [2] delayed
values: 0 1
now: i0[0] => 5; i1[i6] => 6
next: i2[1] => 7
is:
cell c0 = ite(r1,r2,ite(i0,5,ite(and(i1,eq(i6,0)),6,0)))
cell c1 = ite(r3,r4,ite(and(i1,eq(i6,1)),6,0))
cell c2 = or(and(i0,ne(5,c0)),and(and(i1,eq(i6,0)),ne(6,c0)))
cell c3 = ite(i2,7,0)
cell c4 = and(and(i1,eq(i6,1)),ne(6,c1))
monitor c2 1:9 conflict
monitor c4 1:9 conflict
[Cell(0), Cell(1)] [Lit(0), Input(2)] [Lit(0), Cell(3)]

variable: mem nat{8} =3 @9 [2]
values: 0 1
now: i0[0] => 5; i1[i6] => 6
is:
cell c0 = ite(i0,5,ite(and(i1,eq(i6,0)),6,r1))
cell c1 = ite(and(i1,eq(i6,1)),6,r2)
cell c2 = or(and(i0,ne(5,c0)),and(and(i1,eq(i6,0)),ne(6,c0)))
monitor c2 1:9 conflict
[Cell(0), Cell(1)] [Lit(0), Lit(0)] [Lit(0), Lit(0)]

variable: mem nat{8} =3 @9 [2]
values: 1 0
now: i1[c1] => 6
is:
cell c0 = ite(and(i1,eq(c1,1)),6,r2)
cell c1 = ite(and(i1,eq(c1,0)),6,r1)
[Cell(1), Cell(0)] [Lit(0), Lit(0)] [Lit(0), Lit(0)]

variable: mem nat{8} =3 @9 [2] delayed
values: 0 1
is:
cell c0 = ite(r2,r3,r1)
cell c1 = ite(r5,r6,r4)
[Cell(0), Cell(1)] [Lit(0), Lit(0)] [Lit(0), Lit(0)]

variable: mem nat{8} =3 @9 delayed fresh [2]
values: 0 1
next: i0[i6] => 5
is:
cell c0 = 3
cell c1 = 3
cell c2 = and(i0,eq(i6,0))
cell c3 = ite(and(i0,eq(i6,0)),5,0)
cell c4 = and(i0,eq(i6,1))
cell c5 = ite(and(i0,eq(i6,1)),5,0)
[Cell(0), Cell(1)] [Cell(2), Cell(4)] [Cell(3), Cell(5)]

variable: event nat{8} =3 @9 [2] delayed
values: 0 1
now: i0[2] => 5; i0[-1] => 5
is:
cell c0 = ite(r1,r2,0)
cell c1 = ite(r3,r4,0)
[Cell(0), Cell(1)] [Lit(0), Lit(0)] [Lit(0), Lit(0)]

# Up to three actions of both kinds on a delayed event.
variable: event nat{8} =3 @9 delayed
values: 0
now: i0 => 5; i1 => 6
next: i3 => 5
is:
cell c0 = ite(r1,r2,ite(i0,5,ite(i1,6,0)))
cell c1 = 0
cell c2 = ite(i3,5,0)
cell c3 = or(and(i0,ne(5,c0)),and(i1,ne(6,c0)))
monitor c3 1:9 conflict
[Cell(0)] [Input(3)] [Cell(2)]

variable: event nat{8} =3 @9 delayed
values: 0
now: i0 => 5; i1 => 6; i2 => 7
next: i3 => 5; i4 => 6
is:
cell c0 = ite(r1,r2,ite(i0,5,ite(i1,6,ite(i2,7,0))))
cell c1 = 0
cell c2 = or(i3,i4)
cell c3 = ite(i3,5,ite(i4,6,0))
cell c4 = or(and(i0,ne(5,c0)),or(and(i1,ne(6,c0)),and(i2,ne(7,c0))))
cell c5 = or(and(i3,ne(5,c3)),and(i4,ne(6,c3)))
monitor c4 1:9 conflict
monitor c5 1:9 conflict
[Cell(0)] [Cell(2)] [Cell(3)]

variable: event nat{8} =3 @9 delayed
values: 0
next: i3 => 5; i4 => 6; i5 => 7
is:
cell c0 = ite(r1,r2,0)
cell c1 = 0
cell c2 = or(i3,or(i4,i5))
cell c3 = ite(i3,5,ite(i4,6,ite(i5,7,0)))
cell c4 = or(and(i3,ne(5,c3)),or(and(i4,ne(6,c3)),and(i5,ne(7,c3))))
monitor c4 1:9 conflict
[Cell(0)] [Cell(2)] [Cell(3)]

# Up to three actions of both kinds on delayed arrays of two, of both storages.
variable: mem nat{8} =3 @9 delayed [2]
values: 0 1
now: i0[0] => 5; i1[i6] => 6; i2[0] => 7
next: i3[0] => 5; i4[i6] => 6
is:
cell c0 = ite(r2,r3,ite(i0,5,ite(and(i1,eq(i6,0)),6,ite(i2,7,r1))))
cell c1 = ite(r5,r6,ite(and(i1,eq(i6,1)),6,r4))
cell c2 = or(i3,and(i4,eq(i6,0)))
cell c3 = ite(i3,5,ite(and(i4,eq(i6,0)),6,0))
cell c4 = or(and(i0,ne(5,c0)),or(and(and(i1,eq(i6,0)),ne(6,c0)),and(i2,ne(7,c0))))
cell c5 = or(and(i3,ne(5,c3)),and(and(i4,eq(i6,0)),ne(6,c3)))
cell c6 = and(i4,eq(i6,1))
cell c7 = ite(and(i4,eq(i6,1)),6,0)
cell c8 = and(and(i1,eq(i6,1)),ne(6,c1))
monitor c4 1:9 conflict
monitor c5 1:9 conflict
monitor c8 1:9 conflict
[Cell(0), Cell(1)] [Cell(2), Cell(6)] [Cell(3), Cell(7)]

variable: mem nat{8} =3 @9 delayed [2]
values: 0 1
next: i3[0] => 5; i4[i6] => 6; i5[1] => 7
is:
cell c0 = ite(r2,r3,r1)
cell c1 = ite(r5,r6,r4)
cell c2 = or(i3,and(i4,eq(i6,0)))
cell c3 = ite(i3,5,ite(and(i4,eq(i6,0)),6,0))
cell c4 = or(and(i3,ne(5,c3)),and(and(i4,eq(i6,0)),ne(6,c3)))
cell c5 = or(and(i4,eq(i6,1)),i5)
cell c6 = ite(and(i4,eq(i6,1)),6,ite(i5,7,0))
cell c7 = or(and(and(i4,eq(i6,1)),ne(6,c6)),and(i5,ne(7,c6)))
monitor c4 1:9 conflict
monitor c7 1:9 conflict
[Cell(0), Cell(1)] [Cell(2), Cell(5)] [Cell(3), Cell(6)]

variable: event nat{8} =3 @9 delayed [2]
values: 0 1
now: i1[i6] => 6
next: i3[0] => 5; i5[1] => 7
is:
cell c0 = ite(r1,r2,ite(and(i1,eq(i6,0)),6,0))
cell c1 = ite(r3,r4,ite(and(i1,eq(i6,1)),6,0))
cell c2 = ite(i3,5,0)
cell c3 = and(and(i1,eq(i6,0)),ne(6,c0))
cell c4 = ite(i5,7,0)
cell c5 = and(and(i1,eq(i6,1)),ne(6,c1))
monitor c3 1:9 conflict
monitor c5 1:9 conflict
[Cell(0), Cell(1)] [Input(3), Input(5)] [Cell(2), Cell(4)]

variable: event nat{8} =3 @9 delayed [2]
values: 0 1
now: i0[0] => 5; i1[i6] => 6; i2[1] => 7
next: i3[0] => 5; i4[i6] => 6; i5[1] => 7
is:
cell c0 = ite(r1,r2,ite(i0,5,ite(and(i1,eq(i6,0)),6,0)))
cell c1 = ite(r3,r4,ite(and(i1,eq(i6,1)),6,ite(i2,7,0)))
cell c2 = or(i3,and(i4,eq(i6,0)))
cell c3 = ite(i3,5,ite(and(i4,eq(i6,0)),6,0))
cell c4 = or(and(i0,ne(5,c0)),and(and(i1,eq(i6,0)),ne(6,c0)))
cell c5 = or(and(i3,ne(5,c3)),and(and(i4,eq(i6,0)),ne(6,c3)))
cell c6 = or(and(i4,eq(i6,1)),i5)
cell c7 = ite(and(i4,eq(i6,1)),6,ite(i5,7,0))
cell c8 = or(and(and(i1,eq(i6,1)),ne(6,c1)),and(i2,ne(7,c1)))
cell c9 = or(and(and(i4,eq(i6,1)),ne(6,c7)),and(i5,ne(7,c7)))
monitor c4 1:9 conflict
monitor c5 1:9 conflict
monitor c8 1:9 conflict
monitor c9 1:9 conflict
[Cell(0), Cell(1)] [Cell(2), Cell(6)] [Cell(3), Cell(7)]"#;

fn unset() -> Cell {
    Cell {
        tree: Tree::Value(Ref::Lit(0)),
        place: Place { line: 1, col: 9 },
    }
}

// Two reserved value cells, of one variable.
fn reserved(alloc: Global, variable: &str) -> Result<Aif, NoMemory>
    ensures var { IfOk result (λ a. length a.vars ≡ 1) }
    ensures cells { IfOk result (λ a. length a.cells ≡ 2) }
    ensures inputs { IfOk result (λ a. input_count a.vars ≡ 0) }
{
    let vars = [variable_of(alloc, variable)?];
    let mut aif = Aif::new(alloc, &Name::new(alloc, "t")?, &vars)?;
    aif.cells.push(unset())?;
    aif.cells.push(unset())?;
    Ok(aif)
}

// An action as `guard => value` or `guard[index] => value`.
fn action_of(text: &str, delayed: bool) -> Action {
    let (target, value) = text.split_once(" => ").unwrap_or((text, "0"));
    let (guard, index) = match target.split_once('[') {
        Some((guard, rest)) => (guard, Some(ref_of(rest.strip_suffix(']').unwrap_or(rest)))),
        None => (target, None),
    };
    Action {
        guard: ref_of(guard),
        var: 0,
        copy: 0,
        index,
        value: ref_of(value),
        delayed,
        place: Place { line: 2, col: 5 },
    }
}

fn actions_of(alloc: Global, texts: &str, delayed: bool) -> Result<Items<Action>, NoMemory> {
    let mut actions = Items::new(alloc);
    if texts != "" {
        for text in texts.split("; ") {
            actions.push(action_of(text, delayed))?;
        }
    }
    Ok(actions)
}

// The value cells of the elements.
fn values_of_elements(values: &str) -> &'static [u32]
    ensures below { AreBelow 2 result.now }
    ensures few { length result.now ≤ 2 }
{
    match values {
        "0 1" => &[0, 1],
        "1 0" => &[1, 0],
        _ => &[0],
    }
}

// The copy of a row, whose registers begin with r1.
fn copy_of(alloc: Global, row: &str) -> Result<VarCopy, NoMemory>
    ensures var { IfOk result (λ c. c.var ≡ 0) }
    ensures first { IfOk result (λ c. c.first ≡ 1) }
    ensures below { IfOk result (λ c. AreBelow 2 c.values) }
    ensures few { IfOk result (λ c. length c.values ≤ 2) }
{
    Ok(VarCopy {
        var: 0,
        copy: 0,
        stored: !has_word(value_of(row, "variable"), "fresh"),
        first: 1,
        values: Items::from_slice(alloc, values_of_elements(value_of(row, "values")))?,
        now: actions_of(alloc, value_of(row, "now"), false)?,
        next: actions_of(alloc, value_of(row, "next"), true)?,
    })
}

// The text of the closed copy's module, its values, its new flags and its new pending values.
fn closed_text(alloc: Global, row: &str) -> Result<String, Fail> {
    let copy = copy_of(alloc, row)?;
    let mut aif = reserved(alloc, value_of(row, "variable"))?;
    let closed = close(alloc, &mut aif, &copy)?;
    let mut out = MemSink::new(alloc, 4_096, &[])?;
    write_text(&aif, &mut out)?;
    let text = str::from_utf8(out.bytes())?;
    let values = closed.values.as_slice();
    let flags = closed.flags.as_slice();
    let pending = closed.pending.as_slice();
    Ok(format!(in alloc; "{text}{values:?} {flags:?} {pending:?}")?)
}

#[test]
fn closed_copies(rt: HostRuntime) -> Result<(), Fail> {
    let alloc = rt.alloc();
    for row in CLOSED.split("\n\n") {
        let (_, wanted) = row.split_once("\nis:").unwrap_or((row, "no text"));
        let found = closed_text(alloc, row)?;
        assert!(rt; found.ends_with(wanted), "{found} for {row}");
    }
    Ok(())
}
