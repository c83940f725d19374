//! The value of a tree.

ghost use Rattle.std.specs.Prelude.{◌≡◌, ◌+◌, ◌/◌, ◌%◌, ◌^◌, ◌||◌, map, pos, if◌then◌else◌};
ghost use Rattle.quartz_expr.specs.Values.{element_at, of_bool};
ghost use Rattle.aif_cells.specs.Tree.{tree};
ghost use Rattle.aif_cells.specs.Worth.{apply_one, apply_two, bits_between, case_worth, fitted, flipped, holds, listed, number_at, one_holds, read, stacked, worth, wrapped};

use crate::reference::Ref;
use crate::tree::{Tree, TreeOne, TreeTwo};

/// The value of a tree under values of the input elements, registers and cells, which stand in
/// three lists by number. What a list lacks is 0.
#[cycle(worth)]
pub fn worth_of(t: &Tree, inputs: &[i64], registers: &[i64], cells: &[i64]) -> i64
    ensures { result ≡ worth (listed inputs.now registers.now cells.now) (tree t.now) }
{
    match t {
        Tree::Value(reference) => value_of(*reference, inputs, registers, cells),
        Tree::One(op, part) => apply_to_one(*op, worth_of(part, inputs, registers, cells)),
        Tree::Two(op, left, right) => {
            let left = worth_of(left, inputs, registers, cells);
            apply_to_two(*op, left, worth_of(right, inputs, registers, cells))
        }
        Tree::Ite(cond, yes, no) => {
            if worth_of(cond, inputs, registers, cells) != 0 {
                worth_of(yes, inputs, registers, cells)
            } else {
                worth_of(no, inputs, registers, cells)
            }
        }
        Tree::Sel(index, items) => {
            let index = worth_of(index, inputs, registers, cells);
            select(index, items, inputs, registers, cells)
        }
        Tree::Fit(part, low, high) => fit(*low, *high, worth_of(part, inputs, registers, cells)),
        Tree::Bnot(part, width) => flip(*width, worth_of(part, inputs, registers, cells)),
        Tree::Cat(high, low, width) => {
            let high = worth_of(high, inputs, registers, cells);
            stack(*width, high, worth_of(low, inputs, registers, cells))
        }
        Tree::Bits(part, high, low) => slice(*high, *low, worth_of(part, inputs, registers, cells)),
        Tree::Cases(arms, last) => match first_case(arms, inputs, registers, cells) {
            Some(value) => value,
            None => worth_of(last, inputs, registers, cells),
        },
        Tree::Any(items, last) => {
            let one_holds = any_holds(items, inputs, registers, cells);
            let last = worth_of(last, inputs, registers, cells);
            either(items.is_empty(), one_holds, last)
        }
    }
}

// The value of the selected tree, or 0 where there is none.
#[cycle(worth)]
fn select(index: i64, items: &[Tree], inputs: &[i64], registers: &[i64], cells: &[i64]) -> i64
    ensures { result ≡ element_at
        (map (λ t. worth (listed inputs.now registers.now cells.now) (tree t)) items.now) index }
{
    if index < 0 {
        return 0;
    }
    match items.get(index as usize) {
        Some(item) => worth_of(item, inputs, registers, cells),
        None => 0,
    }
}

// The value beside the first condition that holds, if one does.
#[cycle(worth)]
fn first_case(
    arms: &[(Tree, Tree)],
    inputs: &[i64],
    registers: &[i64],
    cells: &[i64],
) -> Option<i64>
    ensures { result ≡ case_worth (listed inputs.now registers.now cells.now)
        (map (λ a. (tree a.0, tree a.1)) arms.now) }
{
    for (cond, value) in arms {
        if worth_of(cond, inputs, registers, cells) != 0 {
            return Some(worth_of(value, inputs, registers, cells));
        }
    }
    None
}

// Whether one of the trees holds.
#[cycle(worth)]
fn any_holds(items: &[Tree], inputs: &[i64], registers: &[i64], cells: &[i64]) -> bool
    ensures { result ≡ one_holds (listed inputs.now registers.now cells.now) (map tree items.now) }
{
    for item in items {
        if worth_of(item, inputs, registers, cells) != 0 {
            return true;
        }
    }
    false
}

// A chain of alternatives with its last one: that one's own value where it is alone.
fn either(alone: bool, one_holds: bool, last: i64) -> i64
    ensures { result ≡ (if alone then last else of_bool (one_holds || holds last)) }
{
    if alone {
        last
    } else {
        (one_holds || last != 0) as i64
    }
}

fn number(numbers: &[i64], at: u32) -> i64
    ensures { result ≡ number_at numbers.now at }
{
    numbers.get(at as usize).copied().unwrap_or(0)
}

/// The value of a reference under values of the input elements, registers and cells.
pub fn value_of(reference: Ref, inputs: &[i64], registers: &[i64], cells: &[i64]) -> i64
    ensures { result ≡ read (listed inputs.now registers.now cells.now) reference }
{
    match reference {
        Ref::Lit(number) => number,
        Ref::Input(at) => number(inputs, at),
        Ref::Reg(at) => number(registers, at),
        Ref::Cell(at) => number(cells, at),
    }
}

fn apply_to_one(op: TreeOne, a: i64) -> i64
    ensures { result ≡ apply_one op a }
{
    match op {
        TreeOne::Not => (a == 0) as i64,
        TreeOne::Neg => a.wrapping_neg(),
    }
}

fn apply_to_two(op: TreeTwo, a: i64, b: i64) -> i64
    ensures { result ≡ apply_two op a b }
{
    match op {
        TreeTwo::And => (a != 0 && b != 0) as i64,
        TreeTwo::Or => (a != 0 || b != 0) as i64,
        TreeTwo::Xor => ((a != 0) != (b != 0)) as i64,
        TreeTwo::Eq => (a == b) as i64,
        TreeTwo::Ne => (a != b) as i64,
        TreeTwo::Lt => (a < b) as i64,
        TreeTwo::Le => (a <= b) as i64,
        TreeTwo::Gt => (a > b) as i64,
        TreeTwo::Ge => (a >= b) as i64,
        TreeTwo::Add => a.wrapping_add(b),
        TreeTwo::Sub => a.wrapping_sub(b),
        TreeTwo::Mul => a.wrapping_mul(b),
        TreeTwo::Div => divide(a, b),
        TreeTwo::Rem => remain(a, b),
        TreeTwo::Band => a & b,
        TreeTwo::Bor => a | b,
        TreeTwo::Bxor => a ^ b,
    }
}

// The quotient rounded towards zero, and 0 for a zero divisor.
fn divide(a: i64, b: i64) -> i64
    ensures { result ≡ apply_two TreeTwo.Div a b }
{
    if b == 0 { 0 } else { a.wrapping_div(b) }
}

// The remainder with the dividend's sign, and 0 for a zero divisor.
fn remain(a: i64, b: i64) -> i64
    ensures { result ≡ apply_two TreeTwo.Rem a b }
{
    if b == 0 { 0 } else { a.wrapping_rem(b) }
}

fn fit(low: i64, high: i64, a: i64) -> i64
    ensures { result ≡ fitted low high a }
{
    if low <= a && a <= high { a } else { 0 }
}

// A power of two, as it stands in 64 bits.
fn power(exponent: u32) -> i64
    ensures { result ≡ wrapped (pos (2 ^ exponent)) }
{
    if exponent < 64 {
        (1u64 << exponent).cast_signed()
    } else {
        0
    }
}

fn flip(width: u32, a: i64) -> i64
    ensures { result ≡ flipped width a }
{
    a ^ power(width).wrapping_add(-1)
}

fn stack(width: u32, high: i64, low: i64) -> i64
    ensures { result ≡ stacked width high low }
{
    high.wrapping_mul(power(width)).wrapping_add(low)
}

fn slice(high: u32, low: u32, a: i64) -> i64
    ensures { result ≡ bits_between high low a }
{
    let bits = without_low(a.cast_unsigned(), low);
    lowest(bits, high.saturating_sub(low)).cast_signed()
}

// The bits above so many lowest ones.
fn without_low(bits: u64, low: u32) -> u64
    ensures { result ≡ bits / 2 ^ low }
{
    if low < 64 { bits >> low } else { 0 }
}

// The lowest bit, and so many more.
fn lowest(bits: u64, more: u32) -> u64
    ensures { result ≡ bits % 2 ^ (more + 1) }
{
    if more < 63 {
        bits % (1 << (more + 1))
    } else {
        bits
    }
}
