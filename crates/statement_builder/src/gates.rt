//! References for `not`, `and`, `or` of references, for labels, and for trees. Each use makes a new
//! cell, if it needs one.

ghost use Rattle.std.specs.Prelude.{◌≡◌, ◌+◌, IfOk};
ghost use Rattle.aif_cells.specs.Tree.{one as one_tree, tree, two as two_tree, value};
ghost use Rattle.statement_cells.specs.Builder.{and_of as plain_and_of, cell_of as plain_cell_of, in_of as plain_in_of, labels_tree, new as plain_new, not_of as plain_not_of, or_of as plain_or_of, short_and as plain_short_and, short_or as plain_short_or};
ghost use Rattle.statement_builder.specs.Built.{Makes};
ghost use Rattle.statement_builder.specs.Shorts.{is_zero as plain_is_zero, literal_of, negated as plain_negated, short};

use crate::builder::Builder;
use aif_cells::{Ref, Tree, TreeOne, TreeTwo, add_cell, reference_in};
use quartz_tree::{NoMemory, Place};
use std::alloc::Global;

/// The place of the cells that belong to no variable.
pub(crate) const NOWHERE: Place = Place { line: 1, col: 1 };

/// What a literal leaves of an `and`, an `or` of two references.
#[derive(Clone, Copy, Debug, PartialEq, Eq)]
pub(crate) enum Short {
    First,
    Second,
    Both,
}

/// The sum, where it is a number of a label, a register or a cell.
pub(crate) fn plus(a: u32, b: u32) -> Result<u32, NoMemory>
    ensures { IfOk result (λ n. n ≡ a + b) }
{
    match a.checked_add(b) {
        Some(sum) => Ok(sum),
        None => Err(NoMemory),
    }
}

// The number, if the reference is a literal.
fn literal_in(reference: Ref) -> Option<i64>
    ensures { result ≡ literal_of reference }
{
    match reference {
        Ref::Lit(number) => Some(number),
        Ref::Input(_) => None,
        Ref::Reg(_) => None,
        Ref::Cell(_) => None,
    }
}

/// Whether the reference is the literal 0.
pub(crate) fn is_zero(reference: Ref) -> bool
    ensures { result ≡ plain_is_zero reference }
{
    literal_in(reference) == Some(0)
}

// `not` of a reference that is a literal.
fn negate(reference: Ref) -> Option<Ref>
    ensures { result ≡ plain_negated reference }
{
    match reference {
        Ref::Lit(number) => Some(Ref::Lit(if number == 0 { 1 } else { 0 })),
        Ref::Input(_) => None,
        Ref::Reg(_) => None,
        Ref::Cell(_) => None,
    }
}

fn short_and(a: Ref, b: Ref) -> Short
    ensures { short result ≡ plain_short_and a b }
{
    match (literal_in(a), literal_in(b)) {
        (Some(0), _) => Short::First,
        (_, Some(0)) => Short::Second,
        (Some(_), _) => Short::Second,
        (None, Some(_)) => Short::First,
        (None, None) => Short::Both,
    }
}

fn short_or(a: Ref, b: Ref) -> Short
    ensures { short result ≡ plain_short_or a b }
{
    match (literal_in(a), literal_in(b)) {
        (Some(0), _) => Short::Second,
        (_, Some(0)) => Short::First,
        (Some(_), _) => Short::First,
        (None, Some(_)) => Short::Second,
        (None, None) => Short::Both,
    }
}

fn one(alloc: Global, op: TreeOne, a: Ref) -> Result<Tree, NoMemory>
    ensures { IfOk result (λ t. tree t ≡ one_tree op (value a)) }
{
    let part = Box::new(alloc, Tree::Value(a))?;
    Ok(Tree::One(op, part))
}

// An operator on two references.
fn two(alloc: Global, op: TreeTwo, a: Ref, b: Ref) -> Result<Tree, NoMemory>
    ensures { IfOk result (λ t. tree t ≡ two_tree op (value a) (value b)) }
{
    let left = Box::new(alloc, Tree::Value(a))?;
    let right = Box::new(alloc, Tree::Value(b))?;
    Ok(Tree::Two(op, left, right))
}

fn of_label(label: u32) -> Tree
    ensures { tree result ≡ value (Ref.Reg label) }
{
    Tree::Value(Ref::Reg(label))
}

// So many labels and one more, from the first on.
fn label_tree(alloc: Global, first: u32, more: u32) -> Result<Tree, NoMemory>
    ensures { IfOk result (λ t. tree t ≡ labels_tree first more) }
{
    let last = plus(first, more)?;
    let mut items = Vec::new(alloc);
    for label in first..last {
        items.push(of_label(label))?;
    }
    Ok(Tree::Any(items, Box::new(alloc, of_label(last))?))
}

impl Builder {
    /// A new cell, of no variable.
    pub(crate) fn add(&mut self, computed: Tree) -> Result<Ref, NoMemory>
        ensures { IfOk result (λ r. Makes self.old self.new r (λ κ. plain_new (tree computed))) }
    {
        let made = add_cell(&mut self.aif.cells, computed, NOWHERE)?;
        Ok(made)
    }

    /// `not` of a reference.
    pub(crate) fn not_of(&mut self, alloc: Global, a: Ref) -> Result<Ref, NoMemory>
        ensures { IfOk result (λ r. Makes self.old self.new r (λ κ. plain_not_of a)) }
    {
        match negate(a) {
            Some(literal) => Ok(literal),
            None => {
                let opposite = one(alloc, TreeOne::Not, a)?;
                let made = self.add(opposite)?;
                Ok(made)
            }
        }
    }

    /// `and` of two references.
    pub(crate) fn and_of(&mut self, alloc: Global, a: Ref, b: Ref) -> Result<Ref, NoMemory>
        ensures { IfOk result (λ r. Makes self.old self.new r (λ κ. plain_and_of a b)) }
    {
        match short_and(a, b) {
            Short::First => Ok(a),
            Short::Second => Ok(b),
            Short::Both => {
                let both = two(alloc, TreeTwo::And, a, b)?;
                let joined = self.add(both)?;
                Ok(joined)
            }
        }
    }

    /// `or` of two references.
    pub(crate) fn or_of(&mut self, alloc: Global, a: Ref, b: Ref) -> Result<Ref, NoMemory>
        ensures { IfOk result (λ r. Makes self.old self.new r (λ κ. plain_or_of a b)) }
    {
        match short_or(a, b) {
            Short::First => Ok(a),
            Short::Second => Ok(b),
            Short::Both => {
                let either = two(alloc, TreeTwo::Or, a, b)?;
                let joined = self.add(either)?;
                Ok(joined)
            }
        }
    }

    /// Whether one of so many labels from the first on is 1.
    pub(crate) fn in_of(&mut self, alloc: Global, first: u32, labels: u32) -> Result<Ref, NoMemory>
        ensures { IfOk result (λ r. Makes self.old self.new r (λ κ. plain_in_of first labels)) }
    {
        if labels == 0 {
            return Ok(Ref::Lit(0));
        }
        if labels == 1 {
            return Ok(Ref::Reg(first));
        }
        let either = label_tree(alloc, first, labels - 1)?;
        let inside = self.add(either)?;
        Ok(inside)
    }

    /// A tree as a reference: itself, if it is one.
    pub(crate) fn cell_of(&mut self, computed: Tree) -> Result<Ref, NoMemory>
        ensures { IfOk result
            (λ r. Makes self.old self.new r (λ κ. plain_cell_of (tree computed))) }
    {
        match reference_in(&computed) {
            Some(reference) => Ok(reference),
            None => {
                let made = self.add(computed)?;
                Ok(made)
            }
        }
    }
}
