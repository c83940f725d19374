//! The least weight of a heaviest part, by halving.

ghost use Rattle.std.specs.Prelude.{◌≡◌, ◌<◌, ◌≤◌, ◌^◌, length, sum};
ghost use Rattle.stage_cut.specs.Division.{IsFeasible, IsLeastPossible};

use crate::parts::is_feasible;

// The weight of all cells.
fn total_weight(weights: &[u32]) -> u64
    requires { length weights.now < 2 ^ 32 }
    ensures { result ≡ sum weights.now }
{
    weights.iter().map(|weight| u64::from(*weight)).sum()
}

// The least bound to which some division into so many parts keeps.
pub fn least_weight(weights: &[u32], stages: u32) -> u64
    requires few { length weights.now < 2 ^ 32 }
    requires some { 1 ≤ stages }
    ensures feasible { IsFeasible weights.now stages result }
    ensures least { IsLeastPossible weights.now stages result }
{
    let mut low = 0;
    let mut high = total_weight(weights);
    while low < high {
        let middle = low + (high - low) / 2;
        if is_feasible(weights, stages, middle) {
            high = middle;
        } else {
            low = middle + 1;
        }
    }
    high
}
