//! The values of trees, at the ends of 64 bits too.

use aif_cells::{Ref, Tree, TreeOne, TreeTwo, worth_of};
use quartz_tree::NoMemory;
use std::alloc::Global;
use std::test::Fail;

// Operators between two numbers, and the value.
const OPERATIONS: &str = "And 5 0 => 0
And -1 2 => 1
Or 0 0 => 0
Or 0 -9223372036854775808 => 1
Xor 2 3 => 0
Xor 0 7 => 1
Eq -9223372036854775808 -9223372036854775808 => 1
Ne 1 -1 => 1
Lt -9223372036854775808 9223372036854775807 => 1
Le 4 3 => 0
Gt 9223372036854775807 -9223372036854775808 => 1
Ge 3 4 => 0
Add 9223372036854775807 1 => -9223372036854775808
Sub -9223372036854775808 1 => 9223372036854775807
Mul -9223372036854775808 -1 => -9223372036854775808
Mul 9223372036854775807 2 => -2
Div -9223372036854775808 -1 => -9223372036854775808
Div 7 -2 => -3
Div -7 2 => -3
Div 5 0 => 0
Rem 7 -2 => 1
Rem -7 2 => -1
Rem -9223372036854775808 -1 => 0
Rem 5 0 => 0
Band -1 6 => 6
Bor -9223372036854775808 1 => -9223372036854775807
Bxor -1 5 => -6";

fn operator_of(name: &str) -> TreeTwo {
    match name {
        "And" => TreeTwo::And,
        "Or" => TreeTwo::Or,
        "Xor" => TreeTwo::Xor,
        "Eq" => TreeTwo::Eq,
        "Ne" => TreeTwo::Ne,
        "Lt" => TreeTwo::Lt,
        "Le" => TreeTwo::Le,
        "Gt" => TreeTwo::Gt,
        "Ge" => TreeTwo::Ge,
        "Add" => TreeTwo::Add,
        "Sub" => TreeTwo::Sub,
        "Mul" => TreeTwo::Mul,
        "Div" => TreeTwo::Div,
        "Rem" => TreeTwo::Rem,
        "Band" => TreeTwo::Band,
        "Bor" => TreeTwo::Bor,
        _ => TreeTwo::Bxor,
    }
}

fn leaf(alloc: Global, reference: Ref) -> Result<Box<Tree>, NoMemory> {
    Ok(Box::new(alloc, Tree::Value(reference))?)
}

fn number_of(word: Option<&str>) -> Result<i64, Fail> {
    Ok(word.unwrap_or("").parse::<i64>()?)
}

#[test]
fn operators_between_numbers(rt: HostRuntime) -> Result<(), Fail> {
    let alloc = rt.alloc();
    for row in OPERATIONS.lines() {
        let (operation, wanted) = row.split_once(" => ").unwrap_or((row, ""));
        let mut words = operation.split(' ');
        let op = operator_of(words.next().unwrap_or(""));
        let left = leaf(alloc, Ref::Lit(number_of(words.next())?))?;
        let right = leaf(alloc, Ref::Lit(number_of(words.next())?))?;
        let value = worth_of(&Tree::Two(op, left, right), &[], &[], &[]);
        assert_eq!(rt; value, number_of(Some(wanted))?, "{row}");
    }
    Ok(())
}

// The values of the other operators, in the order of the trees below.
const VALUES: [i64; 14] = [
    0,
    0,
    i64::MIN,
    5,
    11,
    0,
    0,
    7,
    8,
    29,
    4_294_967_295,
    3,
    2,
    1,
];

fn arms(alloc: Global) -> Result<Vec<(Tree, Tree)>, NoMemory> {
    Ok(vec![in alloc;
        (Tree::Value(Ref::Lit(0)), Tree::Value(Ref::Lit(1))),
        (Tree::Value(Ref::Reg(0)), Tree::Value(Ref::Lit(2))),
    ]?)
}

fn literals(alloc: Global, first: i64, second: i64) -> Result<Vec<Tree>, NoMemory> {
    Ok(vec![in alloc; Tree::Value(Ref::Lit(first)), Tree::Value(Ref::Lit(second))]?)
}

// The trees of the other operators, over the inputs i0 and i1, one register and one cell.
fn other_tree(alloc: Global, number: usize) -> Result<Tree, NoMemory> {
    let input = leaf(alloc, Ref::Input(0))?;
    Ok(match number {
        0 => Tree::Value(Ref::Input(1)),
        1 => Tree::One(TreeOne::Not, input),
        2 => Tree::One(TreeOne::Neg, leaf(alloc, Ref::Lit(i64::MIN))?),
        3 => Tree::Ite(
            leaf(alloc, Ref::Cell(0))?,
            leaf(alloc, Ref::Lit(4))?,
            leaf(alloc, Ref::Lit(5))?,
        ),
        4 => Tree::Sel(leaf(alloc, Ref::Lit(1))?, literals(alloc, 10, 11)?),
        5 => Tree::Sel(leaf(alloc, Ref::Lit(-1))?, Vec::new(alloc)),
        6 => Tree::Fit(input, 0, 6),
        7 => Tree::Fit(input, 7, 7),
        8 => Tree::Bnot(input, 4),
        9 => Tree::Cat(input, leaf(alloc, Ref::Reg(0))?, 2),
        10 => Tree::Bits(leaf(alloc, Ref::Lit(-1))?, 31, 0),
        11 => Tree::Bits(leaf(alloc, Ref::Lit(0b1101))?, 3, 2),
        12 => Tree::Cases(arms(alloc)?, leaf(alloc, Ref::Lit(3))?),
        _ => Tree::Any(literals(alloc, 0, 0)?, input),
    })
}

#[test]
fn other_operators(rt: HostRuntime) -> Result<(), Fail> {
    for (number, value) in VALUES.iter().enumerate() {
        let tree = other_tree(rt.alloc(), number)?;
        assert_eq!(rt; worth_of(&tree, &[7], &[1], &[0]), *value, "{tree:?}");
    }
    Ok(())
}

// A chain as long as there can be actions is evaluated and dropped.
#[test]
fn long_chains(rt: HostRuntime) -> Result<(), Fail> {
    let alloc = rt.alloc();
    let mut arms = Vec::new(alloc);
    let mut items = Vec::new(alloc);
    for _at in 0..65_000 {
        arms.push((Tree::Value(Ref::Reg(0)), Tree::Value(Ref::Lit(1))))?;
        items.push(Tree::Value(Ref::Reg(0)))?;
    }
    let chain = Tree::Cases(arms, leaf(alloc, Ref::Lit(7))?);
    assert_eq!(rt; worth_of(&chain, &[], &[0], &[]), 7);
    let any = Tree::Any(items, leaf(alloc, Ref::Lit(7))?);
    assert_eq!(rt; worth_of(&any, &[], &[0], &[]), 1);
    Ok(())
}
