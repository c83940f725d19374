//! Conditions and the monitors of their faults, and writes.

ghost use Rattle.std.specs.Prelude.{◌≡◌, ◌++◌, ◌<◌, length, option_map, IfOk, OnOk};
ghost use Rattle.quartz_tree.specs.Tree.{tree as plain};
ghost use Rattle.quartz_expr.specs.Typed.{AreSound, IsTyped};
ghost use Rattle.aif_cells.specs.Tree.{value as reference};
ghost use Rattle.statement_cells.specs.Expressions.{copy_of, element_tests, fitted_tree as plain_fitted_tree, range_tests, target_tests, tests_of, tree_of as plain_tree_of};
ghost use Rattle.statement_cells.specs.Builder.{cell_of, watch};
ghost use Rattle.statement_cells.specs.Surface.{index_of, tested as plain_tested, watched as plain_watched, written};
ghost use Rattle.expression_cells.specs.Literals.{HasTypedIndex};
ghost use Rattle.statement_builder.specs.Built.{Does, IsOver, Makes, MakesIndex};

use crate::builder::Builder;
use crate::gates::is_zero;
use aif_cells::{Action, Ref};
use expression_cells::{
    fitted_tree, push_element_tests, push_range_tests, push_target_tests, push_tests, tree_of,
};
use quartz_tree::{Expr, NoMemory, Place, Var};
use std::alloc::Global;

/// A write of a statement.
#[derive(Clone, Copy)]
pub(crate) struct Write<'a> {
    pub var: u32,
    pub index: &'a Option<Expr<u32>>,
    pub value: &'a Expr<u32>,
    pub delayed: bool,
    pub place: Place,
    pub target_place: Place,
}

impl Builder {
    // The monitors of an expression's faults under a guard.
    fn watch_faults(
        &mut self,
        alloc: Global,
        vars: &[Var],
        e: &Expr<u32>,
        guard: Ref,
    ) -> Result<(), NoMemory>
        requires types { AreSound vars.now }
        requires typed { IsTyped vars.now (plain e.now) }
        ensures { OnOk result
            (Does self.old self.new (λ κ. plain_watched vars.now κ (plain e.now) guard)) }
    {
        if is_zero(guard) {
            return Ok(());
        }
        let mut tests = Vec::new(alloc);
        push_tests(alloc, vars, self.copies.as_slice(), guard, e, &mut tests)?;
        self.watch(tests)?;
        Ok(())
    }

    // The tree of an expression as a reference.
    fn cell_for(&mut self, alloc: Global, vars: &[Var], e: &Expr<u32>) -> Result<Ref, NoMemory>
        requires { IsTyped vars.now (plain e.now) }
        ensures { IfOk result
            (λ r. Makes self.old self.new r
            (λ κ. cell_of (plain_tree_of vars.now κ (plain e.now)))) }
    {
        let computed = tree_of(alloc, vars, self.copies.as_slice(), e)?;
        let made = self.cell_of(computed)?;
        Ok(made)
    }

    /// A condition, and the monitors of its faults under a guard.
    pub(crate) fn test_cond(
        &mut self,
        alloc: Global,
        vars: &[Var],
        cond: &Expr<u32>,
        guard: Ref,
    ) -> Result<Ref, NoMemory>
        requires types { AreSound vars.now }
        requires typed { IsTyped vars.now (plain cond.now) }
        ensures { IfOk result
            (λ r. Makes self.old self.new r (λ κ. plain_tested vars.now κ (plain cond.now) guard)) }
    {
        self.watch_faults(alloc, vars, cond, guard)?;
        let made = self.cell_for(alloc, vars, cond)?;
        Ok(made)
    }

    // The monitors of the faults of a write's parts.
    fn watch_parts(
        &mut self,
        alloc: Global,
        vars: &[Var],
        write: Write,
        go: Ref,
    ) -> Result<(), NoMemory>
        requires types { AreSound vars.now }
        requires index { HasTypedIndex vars.now (option_map plain write.index.now) }
        requires value { IsTyped vars.now (plain write.value.now) }
        ensures { OnOk result
            (Does self.old self.new
            (λ κ. watch (target_tests vars.now κ (reference go)
            (option_map plain write.entry.index.now)
            ++ tests_of vars.now κ (reference go) (plain write.entry.value.now)))) }
    {
        let copies = self.copies.as_slice();
        let mut tests = Vec::new(alloc);
        push_target_tests(alloc, vars, copies, go, write.index, &mut tests)?;
        push_tests(alloc, vars, copies, go, write.value, &mut tests)?;
        self.watch(tests)?;
        Ok(())
    }

    // The monitors of the faults of a write itself.
    fn watch_write(
        &mut self,
        alloc: Global,
        vars: &[Var],
        write: Write,
        go: Ref,
    ) -> Result<(), NoMemory>
        requires types { AreSound vars.now }
        requires index { HasTypedIndex vars.now (option_map plain write.index.now) }
        requires value { IsTyped vars.now (plain write.value.now) }
        ensures { OnOk result
            (Does self.old self.new
            (λ κ. watch (element_tests vars.now κ (reference go) write.entry.var
            (option_map plain write.entry.index.now) write.entry.target_place
            ++ range_tests vars.now κ (reference go) write.entry.var
            (plain write.entry.value.now) write.entry.place))) }
    {
        let copies = self.copies.as_slice();
        let mut tests = Vec::new(alloc);
        push_element_tests(
            alloc,
            vars,
            copies,
            go,
            write.var,
            write.index,
            write.target_place,
            &mut tests,
        )?;
        push_range_tests(
            alloc,
            vars,
            copies,
            go,
            write.var,
            write.value,
            write.place,
            &mut tests,
        )?;
        self.watch(tests)?;
        Ok(())
    }

    // The index of a write as a reference, if there is one.
    fn index_for(
        &mut self,
        alloc: Global,
        vars: &[Var],
        index: &Option<Expr<u32>>,
    ) -> Result<Option<Ref>, NoMemory>
        requires { HasTypedIndex vars.now (option_map plain index.now) }
        ensures { IfOk result
            (λ i. MakesIndex self.old self.new i
            (λ κ. index_of vars.now κ (option_map plain index.now))) }
    {
        match index {
            None => Ok(None),
            Some(index) => {
                let made = self.cell_for(alloc, vars, index)?;
                Ok(Some(made))
            }
        }
    }

    // What is written, as a reference.
    fn value_for(
        &mut self,
        alloc: Global,
        vars: &[Var],
        var: u32,
        value: &Expr<u32>,
    ) -> Result<Ref, NoMemory>
        requires { IsTyped vars.now (plain value.now) }
        ensures { IfOk result
            (λ r. Makes self.old self.new r
            (λ κ. cell_of (plain_fitted_tree vars.now κ var (plain value.now)))) }
    {
        let computed = fitted_tree(alloc, vars, self.copies.as_slice(), var, value)?;
        let made = self.cell_of(computed)?;
        Ok(made)
    }

    // The number of the current copy of a variable.
    fn copy_for(&self, var: u32) -> u32
        requires { var < length self.now.copies.items }
        ensures { result ≡ copy_of self.now.copies.items var }
    {
        self.copies[var as usize].copy
    }

    /// The monitors of a write's faults, and its action.
    pub(crate) fn write(
        &mut self,
        alloc: Global,
        vars: &[Var],
        write: Write,
        go: Ref,
    ) -> Result<(), NoMemory>
        requires types { AreSound vars.now }
        requires over { IsOver vars.now self.old }
        requires var { write.var < length vars.now }
        requires index { HasTypedIndex vars.now (option_map plain write.index.now) }
        requires value { IsTyped vars.now (plain write.value.now) }
        ensures { OnOk result
            (Does self.old self.new
            (λ κ. written vars.now κ write.entry.var (option_map plain write.entry.index.now)
            (plain write.entry.value.now) write.entry.delayed
            write.entry.place write.entry.target_place go)) }
    {
        self.watch_parts(alloc, vars, write, go)?;
        let index = self.index_for(alloc, vars, write.index)?;
        self.watch_write(alloc, vars, write, go)?;
        let value = self.value_for(alloc, vars, write.var, write.value)?;
        let copy = self.copy_for(write.var);
        self.act(Action {
            guard: go,
            var: write.var,
            copy,
            index,
            value,
            delayed: write.delayed,
            place: write.place,
        })?;
        Ok(())
    }
}
