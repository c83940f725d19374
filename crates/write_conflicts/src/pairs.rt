//! The loose pairs of a module: how many, the least place, and whose.

ghost use Rattle.std.specs.Prelude.{◌≡◌, ◌+◌, ◌<◌, ◌++◌, [], ◌∷◌, ℕ, Contains, IfOk, List, None, OnOk, Some, false, length, min, replicate, slice_set, true};
ghost use Rattle.aif_cells.specs.Built.{all_defined};
ghost use Rattle.aif_cells.specs.Order.{IsOrder};
ghost use Rattle.quartz_tree.specs.Least.{lesser_place};
ghost use Rattle.write_conflicts.specs.Loose.{later_place};
ghost use Rattle.write_conflicts.specs.Pairs.{ArePairsOf, greatest_count, scene};
ghost use Rattle.write_conflicts.specs.Claims.{AreClaimsOf};
ghost use Rattle.write_conflicts.specs.Tallies.{AreByVariable, AreEarlier, IsSeen, IsTally, row_of};

use crate::claims::{Claims, claims_of};
use crate::clash::are_loose;
use aif_cells::{Action, Aif, Order};
use quartz_tree::{NoMemory, Place};
use sqlite_items::Items;
use std::alloc::Global;

/// The loose pairs of a module.
#[derive(Debug, Drop)]
pub struct Pairs {
    /// How many there are, or the greatest number where there are more.
    pub count: u64,
    /// The least place of one, if there is one.
    pub least: Option<Place>,
    /// For each variable whether a loose pair writes it.
    pub loose: Items<bool>,
}

fn later(p: Place, q: Place) -> Place
    ensures { result ≡ later_place p q }
{
    if p.is_before(q) { q } else { p }
}

fn lesser(p: Place, least: Option<Place>) -> Option<Place>
    ensures { result ≡ lesser_place (Some p) least }
{
    match least {
        Some(q) if q.is_before(p) => Some(q),
        _ => Some(p),
    }
}

impl Pairs {
    fn none(alloc: Global, variables: usize) -> Result<Pairs, NoMemory>
        ensures count { IfOk result (λ p. p.count ≡ 0) }
        ensures least { IfOk result (λ p. p.least ≡ None) }
        ensures loose { IfOk result (λ p. p.loose ≡ replicate variables false) }
    {
        Ok(Pairs {
            count: 0,
            least: None,
            loose: Items::from_vec(vec![in alloc; false; variables]?),
        })
    }

    // Adds a pair of actions.
    fn add(&mut self, first: &Action, second: &Action)
        ensures count { self.new.count ≡ min (self.old.count + 1) greatest_count }
        ensures least { self.new.least
            ≡ lesser_place (Some (later_place first.now.place second.now.place)) self.old.least }
        ensures loose { self.new.loose ≡ slice_set self.old.loose first.now.var true }
    {
        self.count = self.count.saturating_add(1);
        self.least = lesser(later(first.place, second.place), self.least);
        if (first.var as usize) < self.loose.len() {
            self.loose.set(first.var as usize, true);
        }
    }
}

// Adds a pair of actions, where it is loose.
fn add_if_loose(found: &mut Pairs, aif: &Aif, claims: &[Claims], first: usize, second: usize)
    requires in_turn { first < second }
    requires within { second < length aif.now.actions }
    requires claims { AreClaimsOf (scene aif.now) aif.now.actions claims.now }
    ensures { (seen : List ℕ) → (Contains seen first → ⊥)
        → IsTally (scene aif.now) aif.now.actions (length aif.now.vars)
        (IsSeen seen second) found.old
        → IsTally (scene aif.now) aif.now.actions (length aif.now.vars)
        (IsSeen (seen ++ first ∷ []) second) found.new }
{
    let actions = aif.actions.as_slice();
    if !are_loose(
        aif,
        &actions[first],
        &claims[first],
        &actions[second],
        &claims[second],
    ) {
        return;
    }
    found.add(&actions[first], &actions[second]);
}

// Adds the loose ones among the pairs of an action and those before it that write its variable.
fn add_pairs_with(found: &mut Pairs, aif: &Aif, claims: &[Claims], earlier: &[usize], second: usize)
    requires within { second < length aif.now.actions }
    requires claims { AreClaimsOf (scene aif.now) aif.now.actions claims.now }
    requires earlier { AreEarlier aif.now.actions second earlier.now }
    requires tally { IsTally (scene aif.now) aif.now.actions (length aif.now.vars)
        (IsSeen [] second) found.old }
    ensures { IsTally (scene aif.now) aif.now.actions (length aif.now.vars)
        (IsSeen [] (second + 1)) found.new }
{
    for first in earlier {
        add_if_loose(found, aif, claims, *first, second);
    }
}

// So many rows without numbers.
fn empty_rows(alloc: Global, count: usize) -> Result<Vec<Items<usize>>, NoMemory>
    ensures { IfOk result (λ r. r.items ≡ replicate count []) }
{
    let mut rows = Vec::new(alloc);
    for _row in 0..count {
        rows.push(Items::new(alloc))?;
    }
    Ok(rows)
}

// The row of a variable.
fn row_of(variables: usize, var: u32) -> usize
    ensures { result ≡ row_of variables var }
{
    variables.min(var as usize)
}

// Adds the pairs of an action with those before it, and puts it into the row of its variable.
fn add_action(
    found: &mut Pairs,
    rows: &mut Vec<Items<usize>>,
    aif: &Aif,
    claims: &[Claims],
    second: usize,
) -> Result<(), NoMemory>
    requires within { second < length aif.now.actions }
    requires claims { AreClaimsOf (scene aif.now) aif.now.actions claims.now }
    requires rows { AreByVariable aif.now.actions (length aif.now.vars) second rows.old.items }
    requires tally { IsTally (scene aif.now) aif.now.actions (length aif.now.vars)
        (IsSeen [] second) found.old }
    ensures rows { OnOk result
        (AreByVariable aif.now.actions (length aif.now.vars) (second + 1) rows.new.items) }
    ensures tally { OnOk result
        (IsTally (scene aif.now) aif.now.actions (length aif.now.vars)
        (IsSeen [] (second + 1)) found.new) }
{
    let row = row_of(aif.vars.len(), aif.actions.as_slice()[second].var);
    add_pairs_with(found, aif, claims, rows[row].as_slice(), second);
    rows[row].push(second)?;
    Ok(())
}

/// The loose pairs of a module: two writes to one variable of which the cells alone don't say that
/// they never meet.
pub fn loose_pairs(alloc: Global, aif: &Aif, order: &Order) -> Result<Pairs, NoMemory>
    requires { IsOrder (all_defined aif.now.cells) order.now.cells }
    ensures { IfOk result (λ p. ArePairsOf aif.now p) }
{
    let claims = claims_of(alloc, aif, order)?;
    let mut found = Pairs::none(alloc, aif.vars.len())?;
    let mut rows = empty_rows(alloc, aif.vars.as_slice().len() + 1)?;
    for second in 0..aif.actions.len() {
        add_action(&mut found, &mut rows, aif, claims.as_slice(), second)?;
    }
    Ok(found)
}
