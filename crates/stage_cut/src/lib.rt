//! The least cut: a list of weights in contiguous parts, of which the heaviest weighs as little as
//! can be.
#![tactic(auto)]

ghost use Rattle.std.specs.Prelude.{◌≡◌, ◌-◌, ◌<◌, ◌≤◌, ◌^◌, ◌↔◌, ◌⊎◌, [], length, IfOk, Contains};
ghost use Rattle.stage_cut.specs.Division.{IsDivision, IsLeastPossible, NoneIsLighter, heaviest_part};
ghost use Rattle.stage_cut.specs.Greedy.{IsGreedy, AreGreedyStarts};
ghost use Rattle.stage_cut.specs.Evidence.{IsEvidence, EvidenceSuffices};

mod division;
mod evidence;
mod memory;
mod parts;
mod search;

pub use division::Cut;
pub use memory::NoMemory;
use parts::greedy_ends;
use search::least_weight;
use std::alloc::Global;

/// Divides the weights into `stages` contiguous parts, some possibly empty, so that the heaviest
/// part weighs least.
///
/// For n weights with the sum s it takes about n log s steps. Weights of 0 are allowed too. The
/// only error is want of memory.
#[tactic(auto, using(crate::proofs::EvidenceLemmas::cut_lemmas))]
pub fn cut(alloc: Global, weights: &[u32], stages: u32) -> Result<Cut, NoMemory>
    requires few { length weights.now < 2 ^ 32 }
    requires some { 1 ≤ stages }
    requires at_most_16 { stages ≤ 16 }
    ensures division { IfOk result (λ c. IsDivision weights.now stages c.ends.items) }
    ensures heaviest { IfOk result (λ c. heaviest_part weights.now c.ends.items ≡ c.weight) }
    ensures least { IfOk result (λ c. IsLeastPossible weights.now stages c.weight) }
    ensures greedy { IfOk result (λ c. IsGreedy weights.now c.weight 0 c.ends.items) }

    // What `proof` is, what it shows by sums alone, and what follows from that, whoever gave the
    // places.
    ensures plain { IfOk result
        (λ c. (c.proof.items ≡ []) ↔ ((c.weight ≡ 0) ⊎ Contains weights.now c.weight)) }
    ensures starts { IfOk result (λ c. AreGreedyStarts weights.now (c.weight - 1) c.proof.items) }
    ensures evidence { IfOk result (λ c. IsEvidence weights.now stages c.weight c.proof.items) }
    ensures suffices { EvidenceSuffices weights.now stages }
    ensures none_lighter { IfOk result (λ c. NoneIsLighter weights.now stages c.weight) }
{
    let weight = least_weight(weights, stages);
    let ends = greedy_ends(alloc, weights, weight, stages)?;
    let proof = evidence::places(alloc, weights, stages, weight)?;
    Ok(Cut {
        ends,
        weight,
        proof,
    })
}
