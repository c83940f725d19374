//! New copies of a variable, with reserved value cells.

ghost use Rattle.std.specs.Prelude.{◌≡◌, ◌+◌, ◌<◌, ◌^◌, ◌++◌, [], ◌∷◌, length, map, replicate, slice_get, IfOk, OnOk};
ghost use Rattle.quartz_tree.specs.declared.declare.Var.{Var as AnyVar};
ghost use Rattle.aif_cells.specs.Aif.{elements_of};
ghost use Rattle.aif_cells.specs.Built.{all_defined};
ghost use Rattle.reincarnation.specs.Entering.{IsEntered, copies_of, numbers_from, reserved};

use aif_cells::{Aif, Cell, Made, Ref, Tree, add_cell, count_elements};
use quartz_tree::{NoMemory, Place, Var};
use sqlite_items::Items;
use std::alloc::Global;

/// Makes a copy of a variable: its number among the copies of that variable, and a reserved value
/// cell for each element, which gets its tree when the copy is closed.
///
/// After an error the `Aif` is to be dropped.
pub fn enter_copy(
    alloc: Global,
    aif: &mut Aif,
    var: u32,
    stored: bool,
) -> Result<(u32, Items<u32>), NoMemory>
    requires var { var < length aif.old.vars }
    requires few { length aif.old.made < 2 ^ 32 }
    ensures { IfOk result
        (λ r. (v : AnyVar) → slice_get aif.old.vars var ≡ Some v
        → IsEntered aif.old var stored v r.0 r.1 aif.new) }
{
    let copy = count_copies(aif.made.as_slice(), var);
    let place = place_in(aif.vars.as_slice(), var);
    let count = elements_in(aif.vars.as_slice(), var);
    let values = reserve(alloc, &mut aif.cells, place, count)?;
    aif.made.push(Made { var, stored })?;
    Ok((copy, values))
}

pub(crate) fn place_in(vars: &[Var], var: u32) -> Place
    requires { var < length vars.now }
    ensures { (v : AnyVar) → slice_get vars.now var ≡ Some v → result ≡ v.decl.place }
{
    vars[var as usize].decl.place
}

pub(crate) fn elements_in(vars: &[Var], var: u32) -> u128
    requires { var < length vars.now }
    ensures { (v : AnyVar) → slice_get vars.now var ≡ Some v → result ≡ elements_of v }
{
    count_elements(&vars[var as usize])
}

// How many copies of a variable were made.
fn count_copies(made: &[Made], var: u32) -> u32
    requires { length made.now < 2 ^ 32 }
    ensures { result ≡ copies_of var made.now }
{
    let mut count = 0;
    for copy in made {
        count += (copy.var == var) as u32;
    }
    count
}

// A reserved cell behind all others, by its number.
fn reserve_one(cells: &mut Items<Cell>, place: Place) -> Result<u32, NoMemory>
    ensures number { IfOk result (λ n. n ≡ length cells.old) }
    ensures cells { OnOk result
        (all_defined cells.new ≡ all_defined cells.old ++ reserved place ∷ []) }
{
    let Ref::Cell(cell) = add_cell(cells, Tree::Value(Ref::Lit(0)), place)? else {
        return Err(NoMemory);
    };
    Ok(cell)
}

/// So many reserved cells behind all others, by their numbers.
pub fn reserve(
    alloc: Global,
    cells: &mut Items<Cell>,
    place: Place,
    count: u128,
) -> Result<Items<u32>, NoMemory>
    ensures numbers { IfOk result (λ ns. ns ≡ numbers_from (length cells.old) count) }
    ensures cells { OnOk result
        (all_defined cells.new ≡ all_defined cells.old ++ replicate count (reserved place)) }
{
    let mut numbers = Items::new(alloc);
    for _element in 0..count {
        numbers.push(reserve_one(cells, place)?)?;
    }
    Ok(numbers)
}

/// The references of cells.
pub fn cell_refs(alloc: Global, cells: &[u32]) -> Result<Items<Ref>, NoMemory>
    ensures { IfOk result (λ rs. rs ≡ map Ref.Cell cells.now) }
{
    let mut references = Items::new(alloc);
    for cell in cells {
        references.push(Ref::Cell(*cell))?;
    }
    Ok(references)
}
