//! What a tree may name.

/// A number that a tree names: a literal, or the value of an input element, a register or a cell.
#[derive(Clone, Copy, Debug, PartialEq, Eq)]
pub enum Ref {
    Lit(i64),
    Input(u32),
    Reg(u32),
    Cell(u32),
}
