//! Expressions as trees.

use crate::place::Place;

/// The operators before one operand.
#[derive(Clone, Copy, Debug, PartialEq, Eq)]
pub enum Unary {
    /// `!`
    Not,
    /// `-`
    Neg,
}

/// The operators between two operands.
#[derive(Clone, Copy, Debug, PartialEq, Eq)]
pub enum Binary {
    /// `<->`
    Iff,
    /// `->`
    Implies,
    /// `|`
    Or,
    /// `^`
    Xor,
    /// `&`
    And,
    /// `==`
    Eq,
    /// `!=`
    Ne,
    /// `<`
    Lt,
    /// `<=`
    Le,
    /// `>`
    Gt,
    /// `>=`
    Ge,
    /// `@`, the left operand's bits above the right one's
    Cat,
    /// `+`
    Add,
    /// `-`
    Sub,
    /// `*`
    Mul,
    /// `/`
    Div,
    /// `%`
    Rem,
}

/// An expression over variables that are named by `V`: a name as written, or a number.
///
/// The place of a unary or binary expression is its operator token, that of a choice the `?`,
/// that of a slice its `{`, and that of any other expression its first token. A call that takes an
/// expression has the condition that each `Bits` in it has a width of at least 1 and, where the
/// width is at most 32, a value below 2^width; the value of wider bits counts as 0.
#[derive(Debug, Drop)]
pub enum Expr<V> {
    Truth {
        value: bool,
        place: Place,
    },
    Number {
        value: u128,
        place: Place,
    },
    Bits {
        width: u32,
        value: u128,
        place: Place,
    },
    Named {
        var: V,
        place: Place,
    },
    Element {
        var: V,
        index: Box<Expr<V>>,
        place: Place,
    },
    One {
        op: Unary,
        part: Box<Expr<V>>,
        place: Place,
    },
    Two {
        op: Binary,
        left: Box<Expr<V>>,
        right: Box<Expr<V>>,
        place: Place,
    },
    /// `cond ? yes : no`
    Choice {
        cond: Box<Expr<V>>,
        yes: Box<Expr<V>>,
        no: Box<Expr<V>>,
        place: Place,
    },
    /// `part{high}`, or `part{high:low}`
    Slice {
        part: Box<Expr<V>>,
        high: u128,
        low: Option<u128>,
        place: Place,
    },
    /// `bv2nat(part)`
    ToNat {
        part: Box<Expr<V>>,
        place: Place,
    },
    /// `nat2bv(part, width)`
    ToBv {
        part: Box<Expr<V>>,
        width: u128,
        width_place: Place,
        place: Place,
    },
    /// `(part)`
    Paren {
        part: Box<Expr<V>>,
        place: Place,
    },
}
