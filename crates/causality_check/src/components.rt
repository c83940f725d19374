//! The strongly connected components of the graph of needs, by one search in depth.

ghost use Rattle.std.specs.Prelude.{ℕ, List, ◌≡◌, ◌+◌, ◌*◌, ◌<◌, ◌≤◌, ◌^◌, [], ◌∷◌, ◌++◌, length, take, drop, replicate, map, All, Contains, IfOk, OnOk, MatchBool, MatchOption};
ghost use Rattle.causality_check.specs.Graph.{IsClosed, Needs, row};
ghost use Rattle.causality_check.specs.Search.{AreComponents, AreUpTo, Ascends, EndsIn, Holds, IsLookedAt, IsRetired, IsStepped, cell_at, effort, looked, mark, mark_in, rank_of, table, with_open};

use crate::graph::needed_by;
use quartz_tree::NoMemory;
use sqlite_items::Items;
use std::alloc::Global;

/// Where a cell stands in the search for components.
#[derive(Clone, Copy, Debug, PartialEq, Eq)]
pub(crate) enum Mark {
    /// It isn't reached yet.
    New,
    /// It stands at this place on the stack.
    Open(usize),
    /// It is in the component with this number.
    Closed(usize),
}

/// The search for components. The cells on the stack are in components that are still open, one
/// above the other.
#[derive(Drop)]
pub(crate) struct Search {
    pub marks: Vec<Mark>,
    /// For each cell, so many of those that it needs are looked at, the first ones.
    pub looked: Vec<usize>,
    /// The cells that are open.
    pub stack: Vec<u32>,
    /// The places on the stack at which the open components begin.
    pub starts: Vec<usize>,
    /// The places on the stack of the cells that are at work, the present one last.
    pub work: Vec<usize>,
    /// Of each closed component the first cell.
    pub roots: Vec<u32>,
}

// The last number of a list.
fn last_of(numbers: &[usize]) -> Option<usize>
    ensures { MatchOption result (numbers.now ≡ []) (EndsIn numbers.now) }
{
    numbers.last().copied()
}

// Leaves out the numbers above a bound, which stand at the end.
fn drop_above(numbers: &mut Vec<usize>, bound: usize)
    requires { Ascends numbers.old.items }
    ensures { AreUpTo numbers.old.items bound numbers.new.items }
{
    while let Some(number) = last_of(numbers.as_slice()) {
        if number <= bound {
            return;
        }
        numbers.pop();
    }
}

// The cells from a place on.
fn cells_from(cells: &[u32], start: usize) -> &[u32]
    requires { start ≤ length cells.now }
    ensures { result.now ≡ drop start cells.now }
{
    &cells[start..]
}

// Marks cells as closed.
fn close_cells(marks: &mut [Mark], cells: &[u32], component: usize)
    requires { All (λ a. a < length marks.old) cells.now }
    ensures closed { (a : ℕ) → Contains cells.now a → mark_in marks.new a ≡ Mark.Closed component }
    ensures kept { (a : ℕ) → (¬ Contains cells.now a) → mark_in marks.new a ≡ mark_in marks.old a }
{
    for cell in cells {
        marks[*cell as usize] = Mark::Closed(component);
    }
}

impl Search {
    // No cell is reached.
    fn new(alloc: Global, count: usize) -> Result<Search, NoMemory>
        ensures { IfOk result
            (λ s. table s ≡ record {
              marks = replicate count Mark.New;
              looked = replicate count 0;
              stack = [];
              starts = [];
              work = [];
              roots = [];
            }) }
    {
        Ok(Search {
            marks: vec![in alloc; Mark::New; count]?,
            looked: vec![in alloc; 0; count]?,
            stack: Vec::new(alloc),
            starts: Vec::new(alloc),
            work: Vec::new(alloc),
            roots: Vec::new(alloc),
        })
    }

    // Puts a cell on the stack, as a component of its own.
    fn open(&mut self, cell: u32) -> Result<(), NoMemory>
        requires { cell < length self.old.marks.items }
        ensures { OnOk result (table self.new ≡ with_open (table self.old) cell) }
    {
        let place = self.stack.len();
        self.stack.push(cell)?;
        self.starts.push(place)?;
        self.work.push(place)?;
        self.marks[cell as usize] = Mark::Open(place);
        Ok(())
    }

    // Looks at a cell that the present one needs, which stands at that place: opens it where it is
    // new, and joins the components from there on where it is open.
    fn look(&mut self, graph: &[Items<u32>], place: usize, target: u32) -> Result<(), NoMemory>
        requires closed { IsClosed graph.now }
        requires holds { Holds graph.now (table self.old) }
        requires present { EndsIn self.old.work.items place }
        requires needed { Needs graph.now (cell_at (table self.old) place) target }
        ensures { OnOk result
            (IsLookedAt graph.now (table self.old) (table self.new) place target) }
    {
        match self.marks[target as usize] {
            Mark::New => {
                self.open(target)?;
                Ok(())
            }
            Mark::Open(at) => {
                drop_above(&mut self.starts, at);
                Ok(())
            }
            Mark::Closed(_) => Ok(()),
        }
    }

    // Closes the component that begins at a place.
    fn close(&mut self, start: usize) -> Result<(), NoMemory>
        requires start { start < length self.old.stack.items }
        requires cells { All (λ a. a < length self.old.marks.items) self.old.stack.items }
        ensures others { OnOk result
            (table self.new
            ≡ record (table self.old) {
              marks = self.new.marks.items;
              stack = take start self.old.stack.items;
              roots = self.old.roots.items ++ cell_at (table self.old) start ∷ [];
            }) }
        ensures count { length self.new.marks.items ≡ length self.old.marks.items }
        ensures closed { OnOk result
            ((a : ℕ) → Contains (drop start self.old.stack.items) a
            → mark (table self.new) a ≡ Mark.Closed (length self.old.roots.items)) }
        ensures kept { OnOk result
            ((a : ℕ) → (¬ Contains (drop start self.old.stack.items) a)
            → mark (table self.new) a ≡ mark (table self.old) a) }
    {
        let component = self.roots.len();
        let root = self.stack[start];
        close_cells(&mut self.marks, cells_from(&self.stack, start), component);
        self.stack.truncate(start);
        self.roots.push(root)?;
        Ok(())
    }

    // The present cell, which stands at this place and has nothing to look at any more, retires.
    // Where a component begins there, it is closed.
    fn retire(&mut self, place: usize) -> Result<(), NoMemory>
        requires present { EndsIn self.old.work.items place }
        requires place { place < length self.old.stack.items }
        requires cells { All (λ a. a < length self.old.marks.items) self.old.stack.items }
        ensures { OnOk result
            ((g : List (List ℕ))
            → length (row g (cell_at (table self.old) place))
            ≤ looked (table self.old) (cell_at (table self.old) place) → Holds g (table self.old)
            → IsRetired g (table self.old) (table self.new)) }
    {
        self.work.pop();
        let Some(start) = last_of(self.starts.as_slice()) else {
            return Ok(());
        };
        if start != place {
            return Ok(());
        }
        self.starts.pop();
        self.close(place)?;
        Ok(())
    }

    // Looks at the next cell that the present one needs, or lets the present one retire. False
    // where no cell is at work.
    fn step(&mut self, graph: &[Items<u32>]) -> Result<bool, NoMemory>
        requires closed { IsClosed graph.now }
        requires holds { Holds graph.now (table self.old) }
        ensures stepped { OnOk result (IsStepped graph.now (table self.old) (table self.new)) }
        ensures less { IfOk result
            (λ more. MatchBool more
            (effort graph.now (table self.new) < effort graph.now (table self.old))
            (self.new.work.items ≡ [])) }
    {
        let Some(place) = last_of(self.work.as_slice()) else {
            return Ok(false);
        };
        let cell = self.stack[place];
        let needed = needed_by(graph, cell);
        let at = self.looked[cell as usize];
        if at < needed.len() {
            self.look(graph, place, needed[at])?;
            self.looked[cell as usize] = at + 1;
            Ok(true)
        } else {
            self.retire(place)?;
            Ok(true)
        }
    }

    // Goes on until no cell is at work.
    fn work_off(&mut self, graph: &[Items<u32>]) -> Result<(), NoMemory>
        requires closed { IsClosed graph.now }
        requires holds { Holds graph.now (table self.old) }
        ensures stepped { OnOk result (IsStepped graph.now (table self.old) (table self.new)) }
        ensures none { OnOk result (self.new.stack.items ≡ []) }
    {
        while self.step(graph)? {}
        Ok(())
    }

    // Searches from a cell, if it isn't reached yet.
    fn explore(&mut self, graph: &[Items<u32>], root: u32) -> Result<(), NoMemory>
        requires closed { IsClosed graph.now }
        requires holds { Holds graph.now (table self.old) }
        requires root { root < length graph.now }
        requires none { self.old.stack.items ≡ [] }
        ensures stepped { OnOk result (IsStepped graph.now (table self.old) (table self.new)) }
        ensures none { OnOk result (self.new.stack.items ≡ []) }
        ensures root { OnOk result (mark (table self.new) root ≡ Mark.New → ⊥) }
    {
        match self.marks[root as usize] {
            Mark::New => {
                self.open(root)?;
                self.work_off(graph)?;
                Ok(())
            }
            Mark::Open(_) => Ok(()),
            Mark::Closed(_) => Ok(()),
        }
    }
}

fn rank(mark: Mark) -> usize
    ensures { result ≡ rank_of mark }
{
    match mark {
        Mark::New => 0,
        Mark::Open(_) => 0,
        Mark::Closed(component) => component,
    }
}

fn ranks(alloc: Global, marks: &[Mark]) -> Result<Vec<usize>, NoMemory>
    ensures { IfOk result (λ v. v.items ≡ map rank_of marks.now) }
{
    let mut ranks = Vec::new(alloc);
    for mark in marks {
        ranks.push(rank(*mark))?;
    }
    Ok(ranks)
}

/// The component of each cell, by number: cells that reach each other have one number, and what a
/// cell needs has no greater one.
pub(crate) fn components(alloc: Global, graph: &[Items<u32>]) -> Result<Vec<usize>, NoMemory>
    requires few { length graph.now < 2 ^ 32 }
    requires closed { IsClosed graph.now }
    ensures { IfOk result (λ c. AreComponents graph.now c.items) }
{
    let mut search = Search::new(alloc, graph.len())?;
    for root in 0..graph.len() {
        search.explore(graph, root as u32)?;
    }
    ranks(alloc, search.marks.as_slice())
}
