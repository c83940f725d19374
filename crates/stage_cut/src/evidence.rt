//! The places that show that no division is lighter.

ghost use Rattle.std.specs.Prelude.{◌≡◌, ◌-◌, ◌<◌, ◌^◌, ◌↔◌, ◌⊎◌, [], length, IsTrue, IfOk, Contains};
ghost use Rattle.stage_cut.specs.Division.{IsFeasible, IsLeastPossible};
ghost use Rattle.stage_cut.specs.Greedy.{AreGreedyStarts};
ghost use Rattle.stage_cut.specs.Evidence.{IsEvidence};

use crate::memory::NoMemory;
use crate::parts::greedy_ends;
use std::alloc::Global;

// Whether the weight is 0 or that of one cell, so that no places are needed to see that it is
// least.
fn is_plain(weights: &[u32], weight: u64) -> bool
    ensures { IsTrue result ↔ ((weight ≡ 0) ⊎ Contains weights.now weight) }
{
    weight == 0 || weights.iter().any(|cell| u64::from(*cell) == weight)
}

// The places that show that no division can do with less than the least weight.
#[tactic(auto, using(crate::proofs::EvidenceLemmas::starts_are_evidence))]
pub fn places(
    alloc: Global,
    weights: &[u32],
    stages: u32,
    weight: u64,
) -> Result<Vec<u32>, NoMemory>
    requires few { length weights.now < 2 ^ 32 }
    requires feasible { IsFeasible weights.now stages weight }
    requires least { IsLeastPossible weights.now stages weight }
    ensures plain { IfOk result
        (λ p. (p.items ≡ []) ↔ ((weight ≡ 0) ⊎ Contains weights.now weight)) }
    ensures starts { IfOk result (λ p. AreGreedyStarts weights.now (weight - 1) p.items) }
    ensures evidence { IfOk result (λ p. IsEvidence weights.now stages weight p.items) }
{
    if is_plain(weights, weight) {
        return Ok(Vec::new(alloc));
    }
    let mut starts = greedy_ends(alloc, weights, weight - 1, stages)?;
    starts.insert(0, 0)?;
    Ok(starts)
}
