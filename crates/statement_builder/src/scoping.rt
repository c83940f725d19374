//! Copies of the variables of scopes: they are opened with reserved value cells, and closed from
//! the writes to them.

ghost use Rattle.std.specs.Prelude.{◌≡◌, ◌+◌, ◌*◌, ◌<◌, ◌^◌, length, option_map, slice_get, slice_set, Some, true, IfOk};
ghost use Rattle.quartz_expr.specs.Vars.{count_of, declared_at};
ghost use Rattle.absence_reaction.specs.Closing.{AreBelow};
ghost use Rattle.statement_builder.specs.Built.{IsOver};
ghost use Rattle.statement_builder.specs.Scopes.{Closes, Opens, fresh_open, restored_open};

use crate::builder::{Builder, OpenVar};
use crate::counting::count_elements;
use crate::gates::plus;
use absence_reaction::{VarCopy, close};
use aif_cells::Made;
use quartz_tree::{NoMemory, Place, Var};
use reincarnation::{ClosedRefs, cell_refs, reserve};
use sqlite_items::Items;
use statement_cells::Current;
use std::alloc::Global;
use std::mem;

/// A scope whose copy isn't closed yet: the copy, whose registers begin at `first`, and what was
/// current around it.
#[derive(Debug, Drop)]
pub(crate) struct Scope {
    pub var: u32,
    pub stored: bool,
    pub first: u32,
    pub copy: u32,
    pub values: Items<u32>,
    pub current: Current,
    pub outer: OpenVar,
}

// The place of a variable's name in its declaration.
fn declared_place(vars: &[Var], var: u32) -> Place
    ensures { result ≡ declared_at vars.now var }
{
    match vars.get(var as usize) {
        Some(var) => var.decl.place,
        None => Place { line: 0, col: 0 },
    }
}

// Another current copy of a variable takes the place of the one before.
fn exchange(copies: &mut Vec<Current>, var: u32, current: Current) -> Current
    requires { var < length copies.old.items }
    ensures before { slice_get copies.old.items var ≡ Some result }
    ensures after { copies.new.items ≡ slice_set copies.old.items var current }
{
    mem::replace(&mut copies[var as usize], current)
}

// What is known of a variable takes the place of what was known before.
fn know(variables: &mut Vec<OpenVar>, var: u32, known: OpenVar) -> OpenVar
    requires { var < length variables.old.items }
    ensures before { slice_get variables.old.items var ≡ Some result }
    ensures after { variables.new.items ≡ slice_set variables.old.items var known }
{
    mem::replace(&mut variables[var as usize], known)
}

// How many copies a variable has.
fn copies_in(variables: &[OpenVar], var: u32) -> u32
    requires { var < length variables.now }
    ensures { Some result ≡ option_map (λ o. o.copies) (slice_get variables.now var) }
{
    variables[var as usize].copies
}

// One copy more, to which nothing writes yet.
fn begin_writes(alloc: Global, variables: &mut Vec<OpenVar>, var: u32) -> Result<OpenVar, NoMemory>
    requires { var < length variables.old.items }
    ensures before { IfOk result (λ o. slice_get variables.old.items var ≡ Some o) }
    ensures after { IfOk result
        (λ o. variables.new.items ≡ slice_set variables.old.items var (fresh_open o)) }
{
    let copies = plus(copies_in(variables, var), 1)?;
    let fresh = OpenVar {
        copies,
        now: Items::new(alloc),
        next: Items::new(alloc),
    };
    let outer = know(variables, var, fresh);
    Ok(outer)
}

// The writes to the copy around stand again. What was known of the copy inside.
fn end_writes(variables: &mut Vec<OpenVar>, var: u32, outer: OpenVar) -> OpenVar
    requires { var < length variables.old.items }
    ensures before { slice_get variables.old.items var ≡ Some result }
    ensures after { variables.new.items
        ≡ slice_set variables.old.items var (restored_open result outer) }
{
    let restored = OpenVar {
        copies: copies_in(variables, var),
        now: outer.now,
        next: outer.next,
    };
    know(variables, var, restored)
}

// Whether so many elements have registers with numbers, where those begin at the first one.
fn registers_fit(first: u32, count: usize) -> bool
    ensures { result ≡ true → first + 3 * count < 2 ^ 32 }
{
    count < 1 << 30 && first as usize + 3 * count < 1 << 32
}

// Whether each number is below the bound.
fn are_below(bound: usize, numbers: &[u32]) -> bool
    ensures { result ≡ true → AreBelow bound numbers.now }
{
    for number in numbers {
        if *number as usize >= bound {
            return false;
        }
    }
    true
}

// Whether the copy of a scope can be closed over these variables and so many cells: its registers
// have numbers.
fn can_close(vars: &[Var], cells: usize, scope: &Scope) -> bool
    ensures var { result ≡ true → scope.now.var < length vars.now }
    ensures values { result ≡ true → AreBelow cells scope.now.values }
    ensures registers { result ≡ true → scope.now.first + 3 * length scope.now.values < 2 ^ 32 }
{
    (scope.var as usize) < vars.len()
        && registers_fit(scope.first, scope.values.len())
        && are_below(cells, scope.values.as_slice())
}

impl Builder {
    /// Opens a new copy of a scope's variable, which is the current one from now on.
    pub(crate) fn open_scope(
        &mut self,
        alloc: Global,
        vars: &[Var],
        var: u32,
        stored: bool,
        first: u32,
    ) -> Result<Scope, NoMemory>
        requires over { IsOver vars.now self.old }
        requires var { var < length vars.now }
        ensures { IfOk result (λ s. Opens vars.now self.old var stored first s self.new) }
    {
        let place = declared_place(vars, var);
        let count = count_elements(vars, var);
        let values = reserve(alloc, &mut self.aif.cells, place, count)?;
        self.aif.made.push(Made { var, stored })?;
        let outer = begin_writes(alloc, &mut self.variables, var)?;
        let copy = outer.copies;
        let references = cell_refs(alloc, values.as_slice())?;
        let inside = Current {
            copy,
            values: references,
        };
        let current = exchange(&mut self.copies, var, inside);
        Ok(Scope {
            var,
            stored,
            first,
            copy,
            values,
            current,
            outer,
        })
    }

    /// Closes the copy of a scope, and makes current again what was current around it. Where the
    /// numbers of its registers don't fit it answers want of memory.
    pub(crate) fn close_scope(
        &mut self,
        alloc: Global,
        vars: &[Var],
        scope: Scope,
    ) -> Result<ClosedRefs, NoMemory>
        requires { IsOver vars.now self.old }
        ensures { IfOk result (λ c. Closes vars.now self.old scope c self.new) }
    {
        if !can_close(vars, self.aif.cells.len(), &scope) {
            return Err(NoMemory);
        }
        let inner = end_writes(&mut self.variables, scope.var, scope.outer);
        let _inside = exchange(&mut self.copies, scope.var, scope.current);
        let copy = VarCopy {
            var: scope.var,
            copy: scope.copy,
            stored: scope.stored,
            first: scope.first,
            values: scope.values,
            now: inner.now,
            next: inner.next,
        };
        let closed = close(alloc, &mut self.aif, &copy)?;
        Ok(ClosedRefs {
            values: closed.values,
            flags: closed.flags,
            pending: closed.pending,
        })
    }
}
