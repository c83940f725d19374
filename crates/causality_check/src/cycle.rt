//! The cycle that a fault names: the least-numbered cell on one, and a shortest way around from it.

ghost use Rattle.std.specs.Prelude.{ℕ, suc, List, Option, ◌≡◌, ◌+◌, ◌<◌, ◌≤◌, ◌^◌, [], ◌∷◌, ◌++◌, length, All, Contains, IfOk, OnOk, MatchBool, MatchOption};
ghost use Rattle.causality_check.specs.Graph.{IsClosed, IsOnCycle, Walk, row};
ghost use Rattle.causality_check.specs.Search.{AreComponents};
ghost use Rattle.causality_check.specs.Shortest.{AreDistances, IsBestPath, IsLeastOnCycle, IsNearest, IsNotLater, IsSooner, NearestIs, NeedsOwn, RanksFall, distance_at};

use crate::graph::needed_by;
use quartz_tree::NoMemory;
use sqlite_items::Items;
use std::alloc::Global;

// Whether one of the cells that are needed is in the component of this one.
fn needs_own(ranks: &[usize], needed: &[u32], cell: u32) -> bool
    requires cell { cell < length ranks.now }
    requires needed { All (λ d. d < length ranks.now) needed.now }
    ensures { MatchBool result (NeedsOwn ranks.now cell needed.now)
        (NeedsOwn ranks.now cell needed.now → ⊥) }
{
    for other in needed {
        if ranks[*other as usize] == ranks[cell as usize] {
            return true;
        }
    }
    false
}

/// The least-numbered cell that lies on a cycle.
pub(crate) fn least_on_cycle(graph: &[Items<u32>], ranks: &[usize]) -> Option<u32>
    requires few { length graph.now < 2 ^ 32 }
    requires closed { IsClosed graph.now }
    requires components { AreComponents graph.now ranks.now }
    ensures { MatchOption result (RanksFall graph.now ranks.now) (IsLeastOnCycle graph.now) }
{
    for cell in 0..graph.len() {
        if needs_own(ranks, needed_by(graph, cell as u32), cell as u32) {
            return Some(cell as u32);
        }
    }
    None
}

// Whether the first distance is the lesser one, or else the first number.
fn is_sooner(first: (u32, u32), second: (u32, u32)) -> bool
    ensures { MatchBool result (IsSooner first second) (IsNotLater second first) }
{
    let (steps, cell) = first;
    let (fewest, nearest) = second;
    if steps == fewest {
        cell < nearest
    } else {
        steps < fewest
    }
}

// The sooner one of what was found and one more cell.
fn nearer(best: Option<(u32, u32)>, cell: u32, distance: Option<u32>) -> Option<(u32, u32)>
    ensures { (ds : List (Option ℕ)) (ks : List ℕ) → distance_at ds cell ≡ distance
        → NearestIs ds ks best → NearestIs ds (ks ++ cell ∷ []) result }
{
    match distance {
        None => best,
        Some(steps) => match best {
            None => Some((steps, cell)),
            Some(found) => {
                if is_sooner((steps, cell), found) {
                    Some((steps, cell))
                } else {
                    Some(found)
                }
            }
        },
    }
}

// Among some cells the one with the least distance, and the least-numbered one of those. Before its
// number stands its distance.
fn nearest(distances: &[Option<u32>], cells: &[u32]) -> Option<(u32, u32)>
    requires { All (λ d. d < length distances.now) cells.now }
    ensures { NearestIs distances.now cells.now result }
{
    let mut best = None;
    for cell in cells {
        best = nearer(best, *cell, distances[*cell as usize]);
    }
    best
}

// The next cell on the way to the goal: of those with the least distance the least-numbered one.
fn next_on_way(graph: &[Items<u32>], distances: &[Option<u32>], goal: u32, cell: u32) -> u32
    requires closed { IsClosed graph.now }
    requires cell { cell < length graph.now }
    requires distances { AreDistances graph.now goal distances.now }
    requires way { (n : ℕ) × Walk graph.now (suc n) cell goal }
    ensures { (n : ℕ) × IsNearest graph.now goal cell n result
        × (distance_at distances.now result ≡ Some n) }
{
    match nearest(distances, needed_by(graph, cell)) {
        Some((_, next)) => next,
        None => unreachable!(),
    }
}

/// The cells of a shortest path from a cell that lies on a cycle around to itself, the first one by
/// its numbers.
pub(crate) fn path_around(
    alloc: Global,
    graph: &[Items<u32>],
    distances: &[Option<u32>],
    start: u32,
) -> Result<Items<u32>, NoMemory>
    requires closed { IsClosed graph.now }
    requires start { start < length graph.now }
    requires distances { AreDistances graph.now start distances.now }
    requires on_cycle { IsOnCycle graph.now start }
    ensures { IfOk result (λ path. IsBestPath graph.now start start path) }
{
    let mut path = Items::new(alloc);
    let mut next = next_on_way(graph, distances, start, start);
    while next != start {
        path.push(next)?;
        next = next_on_way(graph, distances, start, next);
    }
    Ok(path)
}
