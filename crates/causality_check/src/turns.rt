//! Taking cells in turn, each behind those that it needs.

ghost use Rattle.std.specs.Prelude.{ℕ, List, ◌≡◌, ◌+◌, ◌<◌, ◌≤◌, ◌^◌, ◌⊎◌, ◌↔◌, ◌++◌, [], ◌∷◌, true, false, length, All, Contains, slice_index_or, slice_index, slice_set, replicate, IfOk, OnOk, MatchBool, MatchOption};
ghost use Rattle.causality_check.specs.Graph.{IsClosed, Needs, row};
ghost use Rattle.causality_check.specs.Turns.{Adds, AllLeftAreHeldUp, AreInTurn, IsFit, IsFree, IsSound, PopsLeast, SomeIsLeft, tables};

use crate::graph::needed_by;
use quartz_tree::NoMemory;
use sqlite_items::Items;
use std::alloc::Global;
use std::collections::BTreeSet;
use std::mem;

/// Cells that are taken in turn.
#[derive(Drop)]
pub(crate) struct Turns {
    /// Which cells are taken.
    pub taken: Vec<bool>,
    /// For each cell, so many of those that it needs, the first ones, are known to be taken.
    pub passed: Vec<usize>,
    /// For each cell those that wait for it.
    pub waiting: Vec<Items<u32>>,
    /// The cells that aren't taken, and need only cells that are.
    pub ready: BTreeSet<u32>,
    /// The cells that are taken, in order.
    pub order: Items<u32>,
}

// Adds a cell to those that are ready.
fn add(ready: &mut BTreeSet<u32>, cell: u32) -> Result<(), NoMemory>
    ensures { OnOk result (Adds ready.old.keys cell ready.new.keys) }
{
    ready.insert(cell)?;
    Ok(())
}

// Takes the least cell out of those that are ready.
fn pop_least(ready: &mut BTreeSet<u32>) -> Option<u32>
    ensures { MatchOption result ((ready.old.keys ≡ []) × (ready.new.keys ≡ []))
        (λ k. PopsLeast ready.old.keys k ready.new.keys) }
{
    ready.pop_first()
}

// The index of the first cell from here on that isn't taken, or the length where there is none.
fn next_left(taken: &[bool], needed: &[u32], from: usize) -> usize
    requires within { from ≤ length needed.now }
    requires cells { All (λ d. d < length taken.now) needed.now }
    ensures behind { from ≤ result }
    ensures within { result ≤ length needed.now }
    ensures taken { (i : ℕ) → from ≤ i → i < result
        → slice_index_or taken.now (slice_index needed.now i) false ≡ true }
    ensures left { result < length needed.now
        → slice_index_or taken.now (slice_index needed.now result) false ≡ false }
{
    for at in from..needed.len() {
        if !taken[needed[at] as usize] {
            return at;
        }
    }
    needed.len()
}

impl Turns {
    // Gives a cell a place: with those that wait for the first cell that it needs and that isn't
    // taken, and with those that are ready where there is none.
    fn place(&mut self, graph: &[Items<u32>], cell: u32) -> Result<(), NoMemory>
        requires closed { IsClosed graph.now }
        requires cell { cell < length graph.now }
        requires fit { IsFit graph.now (tables self.old) }
        ensures order { OnOk result (self.new.order ≡ self.old.order) }
        ensures placed { OnOk result
            ((rest : List ℕ) → IsSound graph.now (cell ∷ rest) (tables self.old)
            → (¬ Contains self.old.order cell) → IsSound graph.now rest (tables self.new)) }
    {
        let needed = needed_by(graph, cell);
        let at = next_left(self.taken.as_slice(), needed, self.passed[cell as usize]);
        self.passed[cell as usize] = at;
        if at < needed.len() {
            self.waiting[needed[at] as usize].push(cell)?;
        } else {
            add(&mut self.ready, cell)?;
        }
        Ok(())
    }

    // Takes a cell, and gives those that waited for it.
    fn mark(&mut self, alloc: Global, cell: u32) -> Result<Items<u32>, NoMemory>
        requires taken { cell < length self.old.taken.items }
        requires waiting { cell < length self.old.waiting.items }
        ensures taken { self.new.taken.items ≡ slice_set self.old.taken.items cell true }
        ensures passed { self.new.passed.items ≡ self.old.passed.items }
        ensures waiting { OnOk result
            (self.new.waiting.items ≡ slice_set self.old.waiting.items cell []) }
        ensures ready { self.new.ready.keys ≡ self.old.ready.keys }
        ensures order { OnOk result (self.new.order ≡ self.old.order ++ cell ∷ []) }
        ensures waited { IfOk result (λ w. w ≡ row self.old.waiting.items cell) }
    {
        self.taken[cell as usize] = true;
        self.order.push(cell)?;
        Ok(mem::replace(&mut self.waiting[cell as usize], Items::new(alloc)))
    }

    // No cell is taken, and none has its place yet.
    fn new(alloc: Global, count: usize) -> Result<Turns, NoMemory>
        ensures taken { IfOk result (λ t. t.taken.items ≡ replicate count false) }
        ensures passed { IfOk result (λ t. t.passed.items ≡ replicate count 0) }
        ensures waiting { IfOk result (λ t. t.waiting.items ≡ replicate count []) }
        ensures ready { IfOk result (λ t. t.ready.keys ≡ []) }
        ensures order { IfOk result (λ t. t.order ≡ []) }
    {
        Ok(Turns {
            taken: vec![in alloc; false; count]?,
            passed: vec![in alloc; 0; count]?,
            waiting: empty_lists(alloc, count)?,
            ready: BTreeSet::new(alloc),
            order: Items::new(alloc),
        })
    }

    // Takes the least cell that is ready, and gives those that waited for it their places. False
    // where no cell is ready.
    fn take_next(&mut self, alloc: Global, graph: &[Items<u32>]) -> Result<bool, NoMemory>
        requires closed { IsClosed graph.now }
        requires sound { IsSound graph.now [] (tables self.old) }
        ensures sound { OnOk result (IsSound graph.now [] (tables self.new)) }
        ensures more { IfOk result
            (λ more. MatchBool more (length self.new.order ≡ length self.old.order + 1)
            (self.new.ready.keys ≡ [])) }
    {
        let Some(cell) = pop_least(&mut self.ready) else {
            return Ok(false);
        };
        let waited = self.mark(alloc, cell)?;
        for next in waited.as_slice() {
            self.place(graph, *next)?;
        }
        Ok(true)
    }
}

// So many lists without items.
pub(crate) fn empty_lists(alloc: Global, count: usize) -> Result<Vec<Items<u32>>, NoMemory>
    ensures { IfOk result (λ v. v.items ≡ replicate count []) }
{
    let mut lists = Vec::new(alloc);
    for _list in 0..count {
        lists.push(Items::new(alloc))?;
    }
    Ok(lists)
}

/// The cells as far as they can be taken in turn, each time the least one that needs only cells
/// that are taken.
pub(crate) fn take_in_turn(alloc: Global, graph: &[Items<u32>]) -> Result<Items<u32>, NoMemory>
    requires few { length graph.now < 2 ^ 32 }
    requires closed { IsClosed graph.now }
    ensures in_turn { IfOk result (λ o. AreInTurn graph.now o) }
    ensures held_up { IfOk result (λ o. AllLeftAreHeldUp graph.now o) }
    ensures not_all { IfOk result (λ o. SomeIsLeft graph.now o) }
{
    let mut turns = Turns::new(alloc, graph.len())?;
    for cell in 0..graph.len() {
        turns.place(graph, cell as u32)?;
    }
    while turns.take_next(alloc, graph)? {}
    Ok(turns.order)
}
