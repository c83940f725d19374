//! The cells of a module, and how many elements a variable has.

ghost use Rattle.std.specs.Prelude.{◌≡◌, ◌+◌, ◌-◌, ◌<◌, ◌^◌, IfOk};
ghost use Rattle.aif_cells.specs.Aif.{elements_of, empty_aif, input_count, input_elements, output_elements};

use crate::cells::{Action, Cell, Made, Monitor, Path, Register};
use crate::reference::Ref;
use quartz_tree::{Decl, Flow, Name, NoMemory, Var};
use sqlite_items::Items;
use std::alloc::Global;

/// A module as cells, registers, guarded actions and monitors.
///
/// `outputs` has the value cell of each element of an output, in declared order. `paths` has the
/// paths of the labels, whose registers follow register 0, the start flag. `made` has the copies of
/// variables in the order in which they were made; the number of a copy is the number of those
/// before it with the same variable.
#[derive(Debug, Drop)]
pub struct Aif {
    pub name: Name,
    pub vars: Items<Var>,
    /// The number of the inputs' elements.
    pub inputs: u32,
    pub outputs: Items<u32>,
    pub paths: Items<Path>,
    pub made: Items<Made>,
    pub registers: Items<Register>,
    pub cells: Items<Cell>,
    pub actions: Items<Action>,
    pub monitors: Items<Monitor>,
}

/// The order in which cells are computed.
#[derive(Debug, Drop)]
pub struct Order {
    pub cells: Items<u32>,
}

impl Aif {
    /// A module of these variables with no cells and no copies, and with the start flag alone.
    pub fn new(alloc: Global, name: &Name, vars: &[Var]) -> Result<Aif, NoMemory>
        requires { input_count vars.now < 2 ^ 31 - 1 }
        ensures { IfOk result (λ a. a ≡ empty_aif name.now vars.now) }
    {
        let start = Register {
            initial: 1,
            next: Ref::Lit(0),
        };
        Ok(Aif {
            name: copy_of_name(alloc, name)?,
            vars: copy_of_vars(alloc, vars)?,
            inputs: count_inputs(vars),
            outputs: Items::new(alloc),
            paths: Items::new(alloc),
            made: Items::new(alloc),
            registers: Items::from_slice(alloc, &[start])?,
            cells: Items::new(alloc),
            actions: Items::new(alloc),
            monitors: Items::new(alloc),
        })
    }
}

fn copy_of_name(alloc: Global, name: &Name) -> Result<Name, NoMemory>
    ensures { IfOk result (λ n. n ≡ name.now) }
{
    Name::new(alloc, name.text())
}

fn copy_of_var(alloc: Global, var: &Var) -> Result<Var, NoMemory>
    ensures { IfOk result (λ v. v ≡ var.now) }
{
    let decl = &var.decl;
    let name = copy_of_name(alloc, &decl.name)?;
    Ok(Var {
        decl: Decl {
            name,
            ty: decl.ty,
            storage: decl.storage,
            flow: decl.flow,
            place: decl.place,
            base_place: decl.base_place,
            len_place: decl.len_place,
            init: decl.init,
        },
        delayed: var.delayed,
        start: var.start,
    })
}

fn copy_of_vars(alloc: Global, vars: &[Var]) -> Result<Items<Var>, NoMemory>
    ensures { IfOk result (λ vs. vs ≡ vars.now) }
{
    let mut copied = Items::new(alloc);
    for var in vars {
        copied.push(copy_of_var(alloc, var)?)?;
    }
    Ok(copied)
}

/// How many elements a variable has: one, if it is a scalar.
pub fn count_elements(var: &Var) -> u128
    ensures { result ≡ elements_of var.now }
{
    var.decl.ty.len.unwrap_or(1)
}

/// How many elements of inputs a variable adds.
pub(crate) fn count_input_elements(var: &Var) -> u128
    ensures { result ≡ input_elements var.now }
{
    if var.decl.flow == Flow::Input {
        count_elements(var)
    } else {
        0
    }
}

/// How many elements of outputs a variable adds.
pub(crate) fn count_output_elements(var: &Var) -> u128
    ensures { result ≡ output_elements var.now }
{
    if var.decl.flow == Flow::Output {
        count_elements(var)
    } else {
        0
    }
}

fn count_inputs(vars: &[Var]) -> u32
    requires { input_count vars.now < 2 ^ 31 - 1 }
    ensures { result ≡ input_count vars.now }
{
    let mut count = 0;
    for var in vars {
        count += count_input_elements(var) as u32;
    }
    count
}
