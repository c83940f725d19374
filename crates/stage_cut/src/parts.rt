//! Parts that are each as long as a bound on their weight allows.

ghost use Rattle.std.specs.Prelude.{ℕ, ◌<◌, ◌≤◌, ◌^◌, ◌↔◌, length, IsTrue, IfOk};
ghost use Rattle.stage_cut.specs.Division.{IsFeasible};
ghost use Rattle.stage_cut.specs.Greedy.{IsLongestPart, IsGreedyRun};

use crate::memory::NoMemory;
use std::alloc::Global;

// The end of the longest part from a place on that weighs at most the bound.
fn part_end(weights: &[u32], from: usize, bound: u64) -> usize
    requires { from ≤ length weights.now }
    ensures { IsLongestPart weights.now bound from result }
{
    let mut left = bound;
    for end in from..weights.len() {
        let weight = u64::from(weights[end]);
        if weight > left {
            return end;
        }
        left -= weight;
    }
    weights.len()
}

// Whether some division into so many parts has no part above the bound.
pub fn is_feasible(weights: &[u32], stages: u32, bound: u64) -> bool
    ensures { IsTrue result ↔ IsFeasible weights.now stages bound }
{
    let mut end = 0;
    for _stage in 0..stages {
        end = part_end(weights, end, bound);
    }
    end == weights.len()
}

// The ends of so many parts from the first cell on, each in turn as long as the bound allows.
pub fn greedy_ends(
    alloc: Global,
    weights: &[u32],
    bound: u64,
    count: u32,
) -> Result<Vec<u32>, NoMemory>
    requires { length weights.now < 2 ^ 32 }
    ensures { IfOk result (λ ends. IsGreedyRun weights.now bound count ends.items) }
{
    let mut ends = Vec::new(alloc);
    let mut end = 0;
    for _stage in 0..count {
        end = part_end(weights, end, bound);
        ends.push(end as u32)?;
    }
    Ok(ends)
}
