//! Runs of steps, one after another.

ghost use Rattle.std.specs.Prelude.{◌≡◌, ◌<◌, length};
ghost use Rattle.std.specs.List.{All};
ghost use Rattle.aif_cells.specs.Worth.{number_at};
ghost use Rattle.flat_steps.specs.Steps.{AreWithin, ReadsWithin, after, made};

use crate::operators::{apply_to_one, apply_to_two, choose, fit, flip, pick, slice, stack};
use crate::step::{Operation, Step};

#[inline(always)]
fn at(slots: &[i64], slot: u32) -> i64
    requires { slot < length slots.now }
    ensures { result ≡ number_at slots.now slot }
{
    slots[slot as usize]
}

/// What an operation makes of the numbers in the slots.
#[inline(always)]
pub fn value_of(operation: Operation, slots: &[i64]) -> i64
    requires { ReadsWithin (length slots.now) operation }
    ensures { result ≡ made operation slots.now }
{
    match operation {
        Operation::Literal(number) => number,
        Operation::Same(slot) => at(slots, slot),
        Operation::One(op, part) => apply_to_one(op, at(slots, part)),
        Operation::Two(op, left, right) => apply_to_two(op, at(slots, left), at(slots, right)),
        Operation::Ite(cond, yes, no) => choose(at(slots, cond), at(slots, yes), at(slots, no)),
        Operation::Pick(index, item, yes, no) => {
            pick(item, at(slots, index), at(slots, yes), at(slots, no))
        }
        Operation::Fit(part, low, high) => fit(low, high, at(slots, part)),
        Operation::Bnot(part, width) => flip(width, at(slots, part)),
        Operation::Cat(high, low, width) => stack(width, at(slots, high), at(slots, low)),
        Operation::Bits(part, high, low) => slice(high, low, at(slots, part)),
    }
}

/// Does the steps, one after another.
pub fn run_steps(steps: &[Step], slots: &mut [i64])
    requires { AreWithin (length slots.old) steps.now }
    ensures { slots.new ≡ after steps.now slots.old }
{
    for step in steps {
        slots[step.to as usize] = value_of(step.operation, slots);
    }
}
