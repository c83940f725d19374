//! The weight of a tree: how much there is to do to compute it.

ghost use Rattle.std.specs.Prelude.{◌≡◌, ◌+◌, sum_by};
ghost use Rattle.aif_cells.specs.Tree.{tree};
ghost use Rattle.aif_cells.specs.Weight.{operators, held, weight, item_operators, arm_operators, alternative_operators};

use crate::tree::Tree;

/// The weight of a cell with this tree: 1 and the number of the tree's operators, at most
/// 4294967295. It takes no memory.
pub fn weight_of(t: &Tree) -> u32
    ensures { result ≡ weight (tree t.now) }
{
    count_operators(t).saturating_add(1)
}

// The operators of two parts, and one more that has them.
fn add_operator(first: u32, second: u32) -> u32
    ensures { result ≡ held (first + second + 1) }
{
    first.saturating_add(second).saturating_add(1)
}

#[cycle(count_operators)]
fn count_operators(t: &Tree) -> u32
    ensures { result ≡ held (operators (tree t.now)) }
{
    match t {
        Tree::Value(_) => 0,
        Tree::One(_, part) => add_operator(count_operators(part), 0),
        Tree::Two(_, left, right) => add_operator(count_operators(left), count_operators(right)),
        Tree::Ite(cond, yes, no) => {
            let either = add_operator(count_operators(yes), count_operators(no));
            count_operators(cond).saturating_add(either)
        }
        Tree::Sel(index, items) => {
            let selector = count_operators(index);
            let choices = count_items(items);
            add_operator(selector, choices)
        }
        Tree::Fit(part, _, _) => add_operator(count_operators(part), 0),
        Tree::Bnot(part, _) => add_operator(count_operators(part), 0),
        Tree::Cat(high, low, _) => add_operator(count_operators(high), count_operators(low)),
        Tree::Bits(part, _, _) => add_operator(count_operators(part), 0),
        Tree::Cases(arms, last) => {
            let cases = count_arms(arms);
            let otherwise = count_operators(last);
            cases.saturating_add(otherwise)
        }
        Tree::Any(items, last) => {
            let alternatives = count_alternatives(items);
            let rest = count_operators(last);
            alternatives.saturating_add(rest)
        }
    }
}

#[cycle(count_operators)]
fn count_items(items: &[Tree]) -> u32
    ensures { result ≡ held (sum_by item_operators items.now) }
{
    let mut count = 0u32;
    for item in items {
        count = count.saturating_add(count_operators(item));
    }
    count
}

// Each choice has its own operator.
#[cycle(count_operators)]
fn count_arms(arms: &[(Tree, Tree)]) -> u32
    ensures { result ≡ held (sum_by arm_operators arms.now) }
{
    let mut count = 0u32;
    for (cond, value) in arms {
        let both = add_operator(count_operators(cond), count_operators(value));
        count = count.saturating_add(both);
    }
    count
}

// Each alternative has its own operator.
#[cycle(count_operators)]
fn count_alternatives(items: &[Tree]) -> u32
    ensures { result ≡ held (sum_by alternative_operators items.now) }
{
    let mut count = 0u32;
    for item in items {
        count = add_operator(count, count_operators(item));
    }
    count
}
