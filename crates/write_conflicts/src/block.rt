//! What trees say of 64 references at once, by a word's bits.

ghost use Rattle.std.specs.Prelude.{◌≡◌, map};
ghost use Rattle.aif_cells.specs.Tree.{any, tree};
ghost use Rattle.write_conflicts.specs.Blocks.{bit_of, conjoined, disjoin_all, disjoined, in_addition, nothing, number_in, one_said, own, said, shared, swapped, told, two_said, united};

use aif_cells::{Ref, Tree, TreeOne, TreeTwo};

/// The kinds of references that are numbered.
#[derive(Clone, Copy, Debug, PartialEq, Eq)]
pub(crate) enum Group {
    Inputs,
    Registers,
    Cells,
}

/// 64 references of a group, from the number `64 * at` on.
#[derive(Clone, Copy, Debug, PartialEq, Eq)]
pub(crate) struct Block {
    pub group: Group,
    pub at: u32,
}

/// What is said of a block's references: bit k of `yes` says that the reference at place k isn't 0,
/// and bit k of `no` that it is.
#[derive(Clone, Copy, Debug, PartialEq, Eq)]
pub(crate) struct Said {
    pub yes: u64,
    pub no: u64,
}

/// What a tree says where it isn't 0, and where it is.
#[derive(Clone, Copy, Debug, PartialEq, Eq)]
pub(crate) struct Both {
    pub plus: Said,
    pub minus: Said,
}

impl Said {
    /// What one of two says.
    fn or(self, other: Said) -> Said
        ensures { result ≡ united self other }
    {
        Said {
            yes: self.yes | other.yes,
            no: self.no | other.no,
        }
    }

    /// What both say.
    fn and(self, other: Said) -> Said
        ensures { result ≡ shared self other }
    {
        Said {
            yes: self.yes & other.yes,
            no: self.no & other.no,
        }
    }
}

/// Nothing is said.
pub(crate) fn nothing() -> Both
    ensures { result ≡ nothing }
{
    let silent = Said { yes: 0, no: 0 };
    Both {
        plus: silent,
        minus: silent,
    }
}

/// The number of a reference, if it is of the group.
pub(crate) fn number_in(group: Group, reference: Ref) -> Option<u32>
    ensures { result ≡ number_in group reference }
{
    match (group, reference) {
        (Group::Inputs, Ref::Input(number)) => Some(number),
        (Group::Registers, Ref::Reg(number)) => Some(number),
        (Group::Cells, Ref::Cell(number)) => Some(number),
        _ => None,
    }
}

fn bit_of(block: Block, number: Option<u32>) -> u64
    ensures { result ≡ bit_of block number }
{
    match number {
        Some(number) if number / 64 == block.at => 1 << (number % 64),
        _ => 0,
    }
}

fn own(block: Block, reference: Ref) -> Both
    ensures { result ≡ own block reference }
{
    let bit = bit_of(block, number_in(block.group, reference));
    Both {
        plus: Said { yes: bit, no: 0 },
        minus: Said { yes: 0, no: bit },
    }
}

// What a cell's tree says.
fn tell(table: &[Both], reference: Ref) -> Both
    ensures { result ≡ told table.now reference }
{
    match reference {
        Ref::Cell(cell) => table.get(cell as usize).copied().unwrap_or(nothing()),
        _ => nothing(),
    }
}

fn add(v: Both, w: Both) -> Both
    ensures { result ≡ in_addition v w }
{
    Both {
        plus: v.plus.or(w.plus),
        minus: v.minus.or(w.minus),
    }
}

/// What a reference says: of itself, and what its cell's tree says.
pub(crate) fn said_by(block: Block, table: &[Both], reference: Ref) -> Both
    ensures { result ≡ in_addition (own block reference) (told table.now reference) }
{
    add(own(block, reference), tell(table, reference))
}

fn said_of_one(op: TreeOne, v: Both) -> Both
    ensures { result ≡ one_said op v }
{
    match op {
        TreeOne::Not => Both {
            plus: v.minus,
            minus: v.plus,
        },
        TreeOne::Neg => nothing(),
    }
}

fn disjoin(v: Both, w: Both) -> Both
    ensures { result ≡ disjoined v w }
{
    Both {
        plus: v.plus.and(w.plus),
        minus: v.minus.or(w.minus),
    }
}

fn said_of_two(op: TreeTwo, v: Both, w: Both) -> Both
    ensures { result ≡ two_said op v w }
{
    match op {
        TreeTwo::And => Both {
            plus: v.plus.or(w.plus),
            minus: v.minus.and(w.minus),
        },
        TreeTwo::Or => disjoin(v, w),
        _ => nothing(),
    }
}

/// What a tree says, by a table of what the cells' trees say.
#[cycle(said)]
pub(crate) fn said_in(block: Block, table: &[Both], t: &Tree) -> Both
    ensures { result ≡ said block table.now (tree t.now) }
{
    match t {
        Tree::Value(reference) => said_by(block, table, *reference),
        Tree::One(op, part) => said_of_one(*op, said_in(block, table, part)),
        Tree::Two(op, left, right) => {
            let left = said_in(block, table, left);
            said_of_two(*op, left, said_in(block, table, right))
        }
        Tree::Any(items, last) => {
            let last = said_in(block, table, last);
            said_in_any(block, table, items, last)
        }
        Tree::Ite(_, _, _) => nothing(),
        Tree::Sel(_, _) => nothing(),
        Tree::Fit(_, _, _) => nothing(),
        Tree::Bnot(_, _) => nothing(),
        Tree::Cat(_, _, _) => nothing(),
        Tree::Bits(_, _, _) => nothing(),
        Tree::Cases(arms, last) => {
            if arms.is_empty() {
                said_in(block, table, last)
            } else {
                nothing()
            }
        }
    }
}

// What trees joined by `or` say, by what the last one says.
#[cycle(said)]
fn said_in_any(block: Block, table: &[Both], items: &[Tree], last: Both) -> Both
    ensures { result ≡ disjoin_all (map (λ t. said block table.now (tree t)) items.now) last }
{
    let mut all = last;
    let mut at = items.len();
    while at > 0 {
        at -= 1;
        all = disjoin(said_in(block, table, &items[at]), all);
    }
    all
}
