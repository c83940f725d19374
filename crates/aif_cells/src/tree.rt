//! The trees that cells compute.

use crate::reference::Ref;

/// An operator on one tree.
#[derive(Clone, Copy, Debug, PartialEq, Eq)]
pub enum TreeOne {
    Not,
    Neg,
}

/// An operator on two trees.
#[derive(Clone, Copy, Debug, PartialEq, Eq)]
pub enum TreeTwo {
    And,
    Or,
    Xor,
    Eq,
    Ne,
    Lt,
    Le,
    Gt,
    Ge,
    Add,
    Sub,
    Mul,
    Div,
    Rem,
    Band,
    Bor,
    Bxor,
}

/// What a cell computes.
///
/// Two forms stand for chains that are as long as a variable has actions, so that nothing that
/// walks a tree goes as deep: `Cases` is `ite(c1,a1,ite(c2,a2,..,b))` and `Any` is
/// `or(a1,or(a2,..,b))`.
#[derive(Debug, Drop)]
pub enum Tree {
    Value(Ref),
    One(TreeOne, Box<Tree>),
    Two(TreeTwo, Box<Tree>, Box<Tree>),
    Ite(Box<Tree>, Box<Tree>, Box<Tree>),
    /// The trees of which the first selects one, counted from 0.
    Sel(Box<Tree>, Vec<Tree>),
    /// The tree where it lies from the first number to the second, else 0.
    Fit(Box<Tree>, i64, i64),
    /// So many bits of the tree, flipped.
    Bnot(Box<Tree>, u32),
    /// The first tree as the bits above so many of the second.
    Cat(Box<Tree>, Box<Tree>, u32),
    /// The bits from the first number down to the second.
    Bits(Box<Tree>, u32, u32),
    Cases(Vec<(Tree, Tree)>, Box<Tree>),
    Any(Vec<Tree>, Box<Tree>),
}
