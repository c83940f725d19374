//! The walk through a module that gives names their numbers.

ghost use Rattle.std.specs.Prelude.{◌≡◌, ◌++◌, [], ◌∷◌, IfOk, None, OnOk, Some, length, map, option_map};
ghost use Rattle.quartz_tree.specs.Kernel.{kernel};
ghost use Rattle.quartz_tree.specs.Least.{least_place, lesser_place};
ghost use Rattle.quartz_tree.specs.Surfaces.{branch, goal_of, write, written};
ghost use Rattle.quartz_tree.specs.Tree.{tree};
ghost use Rattle.quartz_names.specs.NameRules.{repeated, undeclared, undeclared_in_index};
ghost use Rattle.quartz_names.specs.Numbering.{renamed};
ghost use Rattle.quartz_names.specs.Scopes.{declared, no_names, standing};
ghost use Rattle.quartz_names.specs.Walks.{Notes, Walks, WalksBranch, count_in, hidden_by, restored, scope_in, scope_of};

use crate::expression::{least_undeclared, number_in, renamed, undeclared_at};
use crate::kernel::{around, choose, guarded, joined, repeated};
use crate::names::Names;
use crate::place::{lesser_place, place_if};
use quartz_tree::{Copied, Decl, Expr, Name, NoMemory, Place, Stmt, Surface, Target};
use sqlite_items::Items;
use std::alloc::Global;

/// What a name stood for before a declaration hid it.
#[derive(Drop)]
pub(crate) struct Hidden {
    pub name: Name,
    pub number: Option<u32>,
}

/// What a walk through a module knows: what names stand for, the declarations so far by number,
/// and the least place so far at which the rule of names is broken.
#[derive(Drop)]
pub(crate) struct Walk {
    pub names: Names,
    pub decls: Items<Decl>,
    pub broken: Option<Place>,
}

impl Walk {
    /// Nothing is declared, and nothing is broken.
    pub(crate) fn new(alloc: Global) -> Walk
        ensures names { scope_in result ≡ no_names }
        ensures decls { result.decls ≡ [] }
        ensures broken { result.broken ≡ None }
    {
        Walk {
            names: Names::new(alloc),
            decls: Items::new(alloc),
            broken: None,
        }
    }

    /// The number of the next variable.
    pub(crate) fn count(&self) -> Result<u32, NoMemory>
        ensures { IfOk result (λ n. n ≡ count_in self.now) }
    {
        match u32::try_from(self.decls.len()) {
            Ok(count) => Ok(count),
            Err(_) => Err(NoMemory),
        }
    }

    // The least broken place so far is this, if it is less.
    fn note(&mut self, place: Option<Place>)
        ensures names { self.new.names ≡ self.old.names }
        ensures decls { self.new.decls ≡ self.old.decls }
        ensures broken { self.new.broken ≡ lesser_place self.old.broken place }
    {
        self.broken = lesser_place(self.broken, place);
    }

    // Declares a variable with the next number.
    fn declare(&mut self, alloc: Global, decl: &Decl) -> Result<Hidden, NoMemory>
        ensures hidden { IfOk result (λ h.
            h ≡ record { name = decl.now.name; number = scope_in self.old decl.now.name }) }
        ensures names { OnOk result (scope_in self.new
            ≡ standing (scope_in self.old) decl.now.name (Some (count_in self.old))) }
        ensures decls { OnOk result (self.new.decls ≡ self.old.decls ++ decl.now ∷ []) }
        ensures broken { self.new.broken ≡ self.old.broken }
    {
        let number = self.count()?;
        let hidden = self.names.number(&decl.name);
        self.names.set(alloc, &decl.name, Some(number))?;
        self.decls.push(decl.copied(alloc)?)?;
        Ok(Hidden {
            name: decl.name.copied(alloc)?,
            number: hidden,
        })
    }

    /// Declares the variables of one list, and gives what their names stood for.
    pub(crate) fn open(&mut self, alloc: Global, decls: &[Decl]) -> Result<Vec<Hidden>, NoMemory>
        ensures hidden { IfOk result (λ hs.
            hs.items ≡ hidden_by (scope_in self.old) (count_in self.old) decls.now) }
        ensures names { OnOk result (scope_in self.new
            ≡ declared (scope_in self.old) (count_in self.old) decls.now) }
        ensures decls { OnOk result (self.new.decls ≡ self.old.decls ++ decls.now) }
        ensures broken { OnOk result (self.new.broken
            ≡ lesser_place self.old.broken (least_place (repeated decls.now))) }
    {
        let repeated = least_repeated(alloc, decls)?;
        self.note(repeated);
        let mut hidden = Vec::new(alloc);
        for decl in decls {
            hidden.push(self.declare(alloc, decl)?)?;
        }
        Ok(hidden)
    }

    // Puts back what names stood for, the last one first.
    fn close(&mut self, alloc: Global, mut hidden: Vec<Hidden>) -> Result<(), NoMemory>
        ensures names { OnOk result (scope_in self.new
            ≡ restored (scope_in self.old) hidden.items) }
        ensures decls { self.new.decls ≡ self.old.decls }
        ensures broken { self.new.broken ≡ self.old.broken }
    {
        while let Some(last) = hidden.pop() {
            self.names.set(alloc, &last.name, last.number)?;
        }
        Ok(())
    }

    // The expression over numbers.
    fn read(&mut self, alloc: Global, e: &Expr<Name>) -> Result<Expr<u32>, NoMemory>
        ensures read { IfOk result (λ r. tree r ≡ renamed (scope_in self.old) (tree e.now)) }
        ensures notes { Notes self.old self.new (undeclared (scope_in self.old) (tree e.now)) }
    {
        let place = least_undeclared(&self.names, e);
        self.note(place);
        renamed(alloc, &self.names, e)
    }

    // The index over numbers.
    fn read_index(
        &mut self,
        alloc: Global,
        index: &Option<Expr<Name>>,
    ) -> Result<Option<Expr<u32>>, NoMemory>
        ensures read { IfOk result (λ r. option_map tree r
            ≡ option_map (renamed (scope_in self.old)) (option_map tree index.now)) }
        ensures notes { Notes self.old self.new
            (undeclared_in_index (scope_in self.old) (option_map tree index.now)) }
    {
        match index {
            None => Ok(None),
            Some(index) => Ok(Some(self.read(alloc, index)?)),
        }
    }
}

// The least of the declarations whose name has stood before in their list.
fn least_repeated(alloc: Global, decls: &[Decl]) -> Result<Option<Place>, NoMemory>
    ensures { IfOk result (λ p. p ≡ least_place (repeated decls.now)) }
{
    let mut least = None;
    let mut seen = Names::new(alloc);
    for decl in decls {
        let again = seen.number(&decl.name).is_some();
        least = lesser_place(least, place_if(again, decl.place));
        seen.set(alloc, &decl.name, Some(0))?;
    }
    Ok(least)
}

impl Walk {
    // `target = value`
    fn write(
        &mut self,
        alloc: Global,
        target: &Target,
        value: &Expr<Name>,
        delayed: bool,
        place: Place,
    ) -> Result<Stmt, NoMemory>
        ensures { IfOk result (λ s. Walks self.old self.new
            (write delayed (goal_of target.now) (tree value.now) place) (kernel s)) }
    {
        let unknown = undeclared_at(&self.names, &target.name, target.place);
        self.note(unknown);
        let var = number_in(&self.names, &target.name);
        let index = self.read_index(alloc, &target.index)?;
        Ok(Stmt::Write {
            var,
            index,
            value: self.read(alloc, value)?,
            delayed,
            place,
            target_place: target.place,
        })
    }

    /// The statement over numbers.
    #[cycle(walk)]
    pub(crate) fn stmt(&mut self, alloc: Global, stmt: &Surface) -> Result<Stmt, NoMemory>
        ensures { IfOk result (λ s. Walks self.old self.new (written stmt.now) (kernel s)) }
    {
        match stmt {
            Surface::Pause => Ok(Stmt::Pause),
            Surface::Write {
                delayed,
                target,
                value,
                place,
            } => {
                let write = self.write(alloc, target, value, *delayed, *place)?;
                Ok(write)
            }
            Surface::Block { decls, branches } => {
                let first = self.count()?;
                let hidden = self.open(alloc, decls)?;
                let end = self.count()?;
                let mut parts = Vec::new(alloc);
                for stmts in branches {
                    parts.push(Stmt::Seq(self.branch(alloc, stmts)?))?;
                }
                self.close(alloc, hidden)?;
                let scoped = around(alloc, first, end, joined(parts))?;
                Ok(scoped)
            }
            Surface::If { cond, yes, no } => {
                let cond = self.read(alloc, cond)?;
                let yes = self.stmt(alloc, yes)?;
                match no {
                    None => {
                        let one = choose(alloc, cond, yes, Stmt::Nothing)?;
                        Ok(one)
                    }
                    Some(no) => {
                        let no = self.stmt(alloc, no)?;
                        let both = choose(alloc, cond, yes, no)?;
                        Ok(both)
                    }
                }
            }
            Surface::Do { body, cond, place } => {
                let body = self.stmt(alloc, body)?;
                let cond = self.read(alloc, cond)?;
                let again = repeated(alloc, body, cond, *place)?;
                Ok(again)
            }
            Surface::Guard {
                abort,
                weak,
                immediate,
                body,
                cond,
            } => {
                let body = self.stmt(alloc, body)?;
                let cond = self.read(alloc, cond)?;
                let guard = guarded(alloc, *abort, *weak, *immediate, body, cond)?;
                Ok(guard)
            }
            Surface::Empty
            | Surface::Halt { .. }
            | Surface::Await { .. }
            | Surface::Emit { .. }
            | Surface::Loop { .. }
            | Surface::Always { .. }
            | Surface::While { .. }
            | Surface::Call { .. } => Ok(Stmt::Nothing),
        }
    }

    #[cycle(walk)]
    fn branch(&mut self, alloc: Global, stmts: &[Surface]) -> Result<Vec<Stmt>, NoMemory>
        ensures { IfOk result (λ v.
            WalksBranch self.old self.new (branch (map written stmts.now)) (map kernel v.items)) }
    {
        let mut parts = Vec::new(alloc);
        for stmt in stmts {
            parts.push(self.stmt(alloc, stmt)?)?;
        }
        Ok(parts)
    }
}
