//! Copies of trees, which take memory and equal what they copy.

ghost use Rattle.std.specs.Prelude.{◌≡◌, IfOk};
ghost use Rattle.quartz_tree.specs.Surfaces.{goal_of};
ghost use Rattle.quartz_tree.specs.Tree.{place_of, tree};

use crate::declare::Decl;
use crate::expr::Expr;
use crate::memory::NoMemory;
use crate::name::Name;
use crate::place::Place;
use crate::surface::{Arg, Target};
use std::alloc::Global;

/// A value whose copy equals it.
pub trait Copied: Drop {
    fn copied(&self, alloc: Global) -> Result<Self, NoMemory>
        ensures { IfOk result (λ v. v ≡ self.now) };
}

impl Copied for u32 {
    fn copied(&self, _alloc: Global) -> Result<u32, NoMemory> {
        Ok(*self)
    }
}

impl Copied for Name {
    fn copied(&self, alloc: Global) -> Result<Name, NoMemory> {
        Ok(Name::new(alloc, self.text())?)
    }
}

impl Copied for Arg {
    fn copied(&self, alloc: Global) -> Result<Arg, NoMemory> {
        Ok(Arg {
            name: self.name.copied(alloc)?,
            place: self.place,
        })
    }
}

impl Copied for Decl {
    fn copied(&self, alloc: Global) -> Result<Decl, NoMemory> {
        Ok(Decl {
            name: self.name.copied(alloc)?,
            ty: self.ty,
            storage: self.storage,
            flow: self.flow,
            place: self.place,
            base_place: self.base_place,
            len_place: self.len_place,
            init: self.init,
        })
    }
}

/// The items' copies, in order.
pub fn copied_items<T: Copied>(alloc: Global, items: &[T]) -> Result<Vec<T>, NoMemory>
    ensures { IfOk result (λ copies. copies.items ≡ items.now) }
{
    let mut copies = Vec::new(alloc);
    for item in items {
        copies.push(item.copied(alloc)?)?;
    }
    Ok(copies)
}

impl<V> Expr<V> {
    /// Its place.
    pub fn place(&self) -> Place
        ensures { result ≡ place_of (tree self.now) }
    {
        match self {
            Expr::Truth { place, .. }
            | Expr::Number { place, .. }
            | Expr::Bits { place, .. }
            | Expr::Named { place, .. }
            | Expr::Element { place, .. }
            | Expr::One { place, .. }
            | Expr::Two { place, .. }
            | Expr::Choice { place, .. }
            | Expr::Slice { place, .. }
            | Expr::ToNat { place, .. }
            | Expr::ToBv { place, .. }
            | Expr::Paren { place, .. } => *place,
        }
    }
}

impl<V: Copied> Expr<V> {
    /// A copy, equal part by part.
    pub fn copied(&self, alloc: Global) -> Result<Expr<V>, NoMemory>
        ensures { IfOk result (λ e. tree e ≡ tree self.now) }
    {
        match self {
            Expr::Truth { value, place } => Ok(Expr::Truth {
                value: *value,
                place: *place,
            }),
            Expr::Number { value, place } => Ok(Expr::Number {
                value: *value,
                place: *place,
            }),
            Expr::Bits {
                width,
                value,
                place,
            } => Ok(Expr::Bits {
                width: *width,
                value: *value,
                place: *place,
            }),
            Expr::Named { var, place } => Ok(Expr::Named {
                var: var.copied(alloc)?,
                place: *place,
            }),
            Expr::Element { var, index, place } => Ok(Expr::Element {
                var: var.copied(alloc)?,
                index: Box::new(alloc, index.copied(alloc)?)?,
                place: *place,
            }),
            Expr::One { op, part, place } => Ok(Expr::One {
                op: *op,
                part: Box::new(alloc, part.copied(alloc)?)?,
                place: *place,
            }),
            Expr::Two {
                op,
                left,
                right,
                place,
            } => Ok(Expr::Two {
                op: *op,
                left: Box::new(alloc, left.copied(alloc)?)?,
                right: Box::new(alloc, right.copied(alloc)?)?,
                place: *place,
            }),
            Expr::Choice {
                cond,
                yes,
                no,
                place,
            } => Ok(Expr::Choice {
                cond: Box::new(alloc, cond.copied(alloc)?)?,
                yes: Box::new(alloc, yes.copied(alloc)?)?,
                no: Box::new(alloc, no.copied(alloc)?)?,
                place: *place,
            }),
            Expr::Slice {
                part,
                high,
                low,
                place,
            } => Ok(Expr::Slice {
                part: Box::new(alloc, part.copied(alloc)?)?,
                high: *high,
                low: *low,
                place: *place,
            }),
            Expr::ToNat { part, place } => Ok(Expr::ToNat {
                part: Box::new(alloc, part.copied(alloc)?)?,
                place: *place,
            }),
            Expr::ToBv {
                part,
                width,
                width_place,
                place,
            } => Ok(Expr::ToBv {
                part: Box::new(alloc, part.copied(alloc)?)?,
                width: *width,
                width_place: *width_place,
                place: *place,
            }),
            Expr::Paren { part, place } => Ok(Expr::Paren {
                part: Box::new(alloc, part.copied(alloc)?)?,
                place: *place,
            }),
        }
    }
}

impl Target {
    /// A copy, equal part by part.
    pub fn copied(&self, alloc: Global) -> Result<Target, NoMemory>
        ensures { IfOk result (λ t. goal_of t ≡ goal_of self.now) }
    {
        let name = self.name.copied(alloc)?;
        match &self.index {
            None => Ok(Target {
                name,
                index: None,
                place: self.place,
            }),
            Some(index) => Ok(Target {
                name,
                index: Some(index.copied(alloc)?),
                place: self.place,
            }),
        }
    }
}
