//! Where parallel parts end.

ghost use Rattle.std.specs.Prelude.{◌≡◌, length, map, IfOk};
ghost use Rattle.quartz_tree.specs.Kernel.{kernel, kernels};
ghost use Rattle.quartz_expr.specs.Terms.{terms_of};
ghost use Rattle.statement_cells.specs.Surface.{and_all as plain_and_all, and_more as plain_and_more, at_end as plain_at_end};
ghost use Rattle.statement_builder.specs.Built.{Makes, MakesAll};
ghost use Rattle.statement_builder.specs.Joins.{at_rest, joined, part_end};

use crate::builder::Builder;
use crate::counting::{count, count_parts};
use crate::gates::plus;
use aif_cells::Ref;
use quartz_tree::{NoMemory, Stmt, Var};
use sqlite_items::Items;
use std::alloc::Global;

impl Builder {
    /// A reference and all others.
    pub(crate) fn and_more(
        &mut self,
        alloc: Global,
        first: Ref,
        others: &[Ref],
    ) -> Result<Ref, NoMemory>
        ensures { IfOk result
            (λ r. Makes self.old self.new r (λ κ. plain_and_more first others.now)) }
    {
        let mut joined = first;
        for other in others {
            joined = self.and_of(alloc, joined, *other)?;
        }
        Ok(joined)
    }

    /// All of the references; of none, the given one.
    pub(crate) fn and_all(
        &mut self,
        alloc: Global,
        without: Ref,
        all: &[Ref],
    ) -> Result<Ref, NoMemory>
        ensures { IfOk result
            (λ r. Makes self.old self.new r (λ κ. plain_and_all without all.now)) }
    {
        if all.is_empty() {
            return Ok(without);
        }
        let joined = self.and_more(alloc, all[0], &all[1..])?;
        Ok(joined)
    }

    // A part with so many labels ended, or is at rest.
    fn end_or_rest(
        &mut self,
        alloc: Global,
        label: u32,
        labels: u32,
        end: Ref,
    ) -> Result<Ref, NoMemory>
        ensures { IfOk result (λ r. Makes self.old self.new r (λ κ. at_rest label labels end)) }
    {
        let within = self.in_of(alloc, label, labels)?;
        let rests = self.not_of(alloc, within)?;
        let made = self.or_of(alloc, end, rests)?;
        Ok(made)
    }

    // Where a part with so many labels ended or is at rest, if it has labels.
    fn part_end(
        &mut self,
        alloc: Global,
        label: u32,
        labels: u32,
        end: Ref,
    ) -> Result<Items<Ref>, NoMemory>
        ensures { IfOk result
            (λ rs. MakesAll self.old self.new rs (λ κ. part_end label labels end)) }
    {
        if labels == 0 {
            return Ok(Items::new(alloc));
        }
        let made = self.end_or_rest(alloc, label, labels, end)?;
        let alone = Items::from_slice(alloc, &[made])?;
        Ok(alone)
    }

    // For each part with labels: it ended, where its reference holds, or is at rest.
    fn at_end(
        &mut self,
        alloc: Global,
        vars: &[Var],
        label: u32,
        parts: &[Stmt],
        ends: &[Ref],
    ) -> Result<Items<Ref>, NoMemory>
        requires { length ends.now ≡ length parts.now }
        ensures { IfOk result
            (λ rs. MakesAll self.old self.new rs
            (λ κ. plain_at_end vars.now label
            (terms_of (kernels (map kernel parts.now))) ends.now)) }
    {
        let mut all = Items::new(alloc);
        let mut first = label;
        for (at, part) in parts.iter().enumerate() {
            let labels = count(part, vars)?.labels;
            all.append(self.part_end(alloc, first, labels, ends[at])?)?;
            first = plus(first, labels)?;
        }
        Ok(all)
    }

    /// Where a parallel ends that goes on, whose parts with labels end at these references.
    pub(crate) fn end_parallel(
        &mut self,
        alloc: Global,
        vars: &[Var],
        label: u32,
        parts: &[Stmt],
        ends: &[Ref],
        res: Ref,
    ) -> Result<Ref, NoMemory>
        requires { length ends.now ≡ length parts.now }
        ensures { IfOk result
            (λ r. Makes self.old self.new r
            (λ κ. joined vars.now label (terms_of (kernels (map kernel parts.now))) ends.now res)) }
    {
        let all = self.at_end(alloc, vars, label, parts, ends)?;
        let labels = count_parts(parts, vars)?.labels;
        let within = self.in_of(alloc, label, labels)?;
        let inside = self.and_of(alloc, within, res)?;
        let made = self.and_more(alloc, inside, all.as_slice())?;
        Ok(made)
    }
}
