//! How far each cell is from a goal, by a search in breadth.

ghost use Rattle.std.specs.Prelude.{ℕ, List, ◌≡◌, ◌+◌, ◌<◌, ◌≤◌, ◌^◌, [], ◌∷◌, ◌++◌, length, replicate, All, Contains, IfOk, OnOk};
ghost use Rattle.causality_check.specs.Graph.{IsClosed, row};
ghost use Rattle.causality_check.specs.Shortest.{AreDistances, AreMarked, AreUsers, HaveUser, users_of};

use crate::graph::needed_by;
use crate::turns::empty_lists;
use quartz_tree::NoMemory;
use sqlite_items::Items;
use std::alloc::Global;

// Notes a cell as a user of each of the cells that it needs.
fn add_user(users: &mut Vec<Items<u32>>, needed: &[u32], cell: u32) -> Result<(), NoMemory>
    requires { All (λ d. d < length users.old.items) needed.now }
    ensures { OnOk result (HaveUser needed.now cell users.old.items users.new.items) }
{
    for used in needed {
        users[*used as usize].push(cell)?;
    }
    Ok(())
}

/// For each cell those that need it.
pub(crate) fn users(alloc: Global, graph: &[Items<u32>]) -> Result<Vec<Items<u32>>, NoMemory>
    requires few { length graph.now < 2 ^ 32 }
    requires closed { IsClosed graph.now }
    ensures { IfOk result (λ u. AreUsers graph.now u.items) }
{
    let mut users = empty_lists(alloc, graph.len())?;
    for cell in 0..graph.len() {
        add_user(&mut users, needed_by(graph, cell as u32), cell as u32)?;
    }
    Ok(users)
}

// Gives a cell this distance where it has none, and notes it then.
fn mark_cell(
    distances: &mut [Option<u32>],
    cell: u32,
    level: u32,
    noted: &mut Items<u32>,
) -> Result<(), NoMemory>
    requires { cell < length distances.old }
    ensures { OnOk result
        (AreMarked (cell ∷ []) level distances.old distances.new noted.old noted.new) }
{
    match distances[cell as usize] {
        Some(_) => Ok(()),
        None => {
            distances[cell as usize] = Some(level);
            noted.push(cell)?;
            Ok(())
        }
    }
}

// Gives cells this distance where they have none, and notes them then.
fn mark(
    distances: &mut [Option<u32>],
    cells: &[u32],
    level: u32,
    noted: &mut Items<u32>,
) -> Result<(), NoMemory>
    requires { All (λ k. k < length distances.old) cells.now }
    ensures { OnOk result
        (AreMarked cells.now level distances.old distances.new noted.old noted.new) }
{
    for cell in cells {
        mark_cell(distances, *cell, level, noted)?;
    }
    Ok(())
}

// Gives the users of the cells of the front this distance where they have none. They are the next
// front.
fn spread(
    alloc: Global,
    users: &[Items<u32>],
    distances: &mut [Option<u32>],
    front: &[u32],
    level: u32,
) -> Result<Items<u32>, NoMemory>
    requires count { length distances.old ≡ length users.now }
    requires closed { IsClosed users.now }
    requires front { All (λ k. k < length users.now) front.now }
    ensures { IfOk result
        (λ next. AreMarked (users_of users.now front.now) level distances.old distances.new
        [] next) }
{
    let mut next = Items::new(alloc);
    for cell in front {
        mark(distances, needed_by(users, *cell), level, &mut next)?;
    }
    Ok(next)
}

/// For each cell how long a shortest way from it to the goal is, where there is one.
pub(crate) fn distances_to(
    alloc: Global,
    graph: &[Items<u32>],
    goal: u32,
) -> Result<Vec<Option<u32>>, NoMemory>
    requires few { length graph.now < 2 ^ 32 }
    requires closed { IsClosed graph.now }
    requires goal { goal < length graph.now }
    ensures { IfOk result (λ d. AreDistances graph.now goal d.items) }
{
    let users = users(alloc, graph)?;
    let mut distances = vec![in alloc; None; graph.len()]?;
    distances[goal as usize] = Some(0);
    let mut front = Items::from_slice(alloc, &[goal])?;
    let mut level = 0;
    while !front.is_empty() {
        level += 1;
        front = spread(
            alloc,
            users.as_slice(),
            &mut distances,
            front.as_slice(),
            level,
        )?;
    }
    Ok(distances)
}
