//! Least cuts, worked out by hand and by a search over all divisions.

ghost use Rattle.std.specs.Prelude.{◌<◌, ◌≤◌, ◌^◌, length};

use stage_cut::{NoMemory, cut};
use std::alloc::{AllocError, Global};
use std::test::Fail;
use test_rows::value_of;

// Weights and the number of parts; the ends of the parts, the weight of the heaviest and the places
// that show that none is lighter.
const CUTS: &str = r#"weights: 2 3 3 2 3 6 2
stages: 2
cut: [4, 7] 11 [0, 4, 6]

weights: 2 3 3 2 3 6 2
stages: 1
cut: [7] 21 [0, 6]

stages: 3
cut: [0, 0, 0] 0 []

weights: 5
stages: 16
cut: [1, 1, 1, 1, 1, 1, 1, 1, 1, 1, 1, 1, 1, 1, 1, 1] 5 []

weights: 4294967295 4294967295 4294967295
stages: 1
cut: [3] 12884901885 [0, 2]

weights: 4294967295 4294967295 4294967295
stages: 2
cut: [2, 3] 8589934590 [0, 1, 2]

weights: 1 4294967295 1
stages: 2
cut: [2, 3] 4294967296 [0, 1, 2]"#;

fn weights_of(alloc: Global, words: &str) -> Result<Vec<u32>, AllocError> {
    let mut weights = Vec::new(alloc);
    for word in words.split_whitespace() {
        weights.push(word.parse::<u32>().unwrap_or(0))?;
    }
    Ok(weights)
}

fn stages_of(word: &str) -> u32
    ensures some { 1 ≤ result }
    ensures at_most_16 { result ≤ 16 }
{
    word.parse::<u32>().unwrap_or(1).clamp(1, 16)
}

#[test]
fn worked_cuts(rt: HostRuntime) -> Result<(), Fail> {
    let alloc = rt.alloc();
    for row in CUTS.split("\n\n") {
        let weights = weights_of(alloc, value_of(row, "weights"))?;
        assert!(rt; weights.len() < 4_294_967_296);
        let found = cut(alloc, &weights, stages_of(value_of(row, "stages")))?;
        let text = format!(in alloc; "{:?} {} {:?}", found.ends, found.weight, found.proof)?;
        assert_eq!(rt; text.as_str(), value_of(row, "cut"), "{row}");
    }
    Ok(())
}

// The weight of all cells, which in these tests is far below the greatest number.
fn total(weights: &[u32]) -> u64 {
    let mut all = 0u64;
    for weight in weights {
        all = all.saturating_add(u64::from(*weight));
    }
    all
}

// The least weight of a heaviest part, by a search over all divisions: each end of the first part,
// and each division of the weights behind it.
fn least_of_all(weights: &[u32], stages: u32) -> u64 {
    if stages <= 1 {
        return total(weights);
    }
    let mut least = u64::MAX;
    for end in 0..weights.len() {
        let (first, others) = weights.split_at(end);
        least = least.min(total(first).max(least_of_all(others, stages - 1)));
    }
    least.min(total(weights))
}

const LISTS: &str = "
7
1 1
9 1 1
2 3 3 2 3 6 2
1 1 1 1 1 1 1 1
8 7 6 5 4 3 2 1
1 20 1 20 1 20 1 20
4294967295 1 4294967295 2 4294967295 3 4294967295 4";

#[test]
fn as_by_search(rt: HostRuntime) -> Result<(), Fail> {
    for list in LISTS.split('\n') {
        let weights = weights_of(rt.alloc(), list)?;
        assert!(rt; weights.len() < 4_294_967_296);
        for stages in 1..=16 {
            let found = cut(rt.alloc(), &weights, stages)?;
            assert_eq!(rt;
                found.weight,
                least_of_all(&weights, stages),
                "{list} in {stages}"
            );
        }
    }
    Ok(())
}

#[test]
fn says_why(rt: HostRuntime) -> Result<(), Fail> {
    let text = NoMemory.to_string(rt.alloc())?;
    assert_eq!(rt; text.as_str(), "no memory was left");
    Ok(())
}
