//! Labels that are entered or stay, actions, and monitors.

ghost use Rattle.std.specs.Prelude.{◌<◌, length, OnOk};
ghost use Rattle.statement_cells.specs.Builder.{act as plain_act, enter as plain_enter, stay_at as plain_stay_at, watch as plain_watch, watch_one};
ghost use Rattle.statement_builder.specs.Built.{Does, HasMoreWrites, WritesMore};
ghost use Rattle.expression_cells.specs.Tests.{all_tests, test_of};

use crate::builder::{Builder, Entry, OpenVar};
use crate::gates::NOWHERE;
use aif_cells::{Action, Monitor, Ref, add_cell};
use expression_cells::Test;
use quartz_tree::NoMemory;

// One action more writes to a variable.
fn write_more(variable: &mut OpenVar, action: Action) -> Result<(), NoMemory>
    ensures { OnOk result (WritesMore variable.old action variable.new) }
{
    if action.delayed {
        variable.next.push(action)?;
    } else {
        variable.now.push(action)?;
    }
    Ok(())
}

// One action more writes to its variable.
fn write_to(variables: &mut Vec<OpenVar>, action: Action) -> Result<(), NoMemory>
    requires { action.var < length variables.old.items }
    ensures { OnOk result (HasMoreWrites variables.old.items action variables.new.items) }
{
    write_more(&mut variables[action.var as usize], action)?;
    Ok(())
}

impl Builder {
    /// A label is entered under a reference.
    pub(crate) fn enter(&mut self, label: u32, under: Ref) -> Result<(), NoMemory>
        ensures { OnOk result (Does self.old self.new (λ κ. plain_enter label under)) }
    {
        self.entries.push(Entry { label, under })?;
        Ok(())
    }

    /// A label stays under a reference.
    pub(crate) fn stay_at(&mut self, label: u32, under: Ref) -> Result<(), NoMemory>
        ensures { OnOk result (Does self.old self.new (λ κ. plain_stay_at label under)) }
    {
        self.stays.push(Entry { label, under })?;
        Ok(())
    }

    /// An action writes to the current copy of its variable.
    pub(crate) fn act(&mut self, action: Action) -> Result<(), NoMemory>
        requires { action.var < length self.old.variables.items }
        ensures { OnOk result (Does self.old self.new (λ κ. plain_act action)) }
    {
        write_to(&mut self.variables, action)?;
        self.aif.actions.push(action)?;
        Ok(())
    }

    // A monitor on a new cell.
    fn watch_one(&mut self, test: Test) -> Result<(), NoMemory>
        ensures { OnOk result (Does self.old self.new (λ κ. watch_one (test_of test))) }
    {
        let Test { tree, kind, place } = test;
        let Ref::Cell(cell) = add_cell(&mut self.aif.cells, tree, NOWHERE)? else {
            return Err(NoMemory);
        };
        self.aif.monitors.push(Monitor { cell, place, kind })?;
        Ok(())
    }

    /// A monitor for each test, on a new cell.
    pub(crate) fn watch(&mut self, mut tests: Vec<Test>) -> Result<(), NoMemory>
        ensures { OnOk result (Does self.old self.new (λ κ. plain_watch (all_tests tests.items))) }
    {
        tests.reverse();
        while let Some(test) = tests.pop() {
            self.watch_one(test)?;
        }
        Ok(())
    }
}
