//! Terms without their variables.

use quartz_expr::Kept;
use quartz_tree::{Expr, Place};

/// A term without its variables: what is left to do, with the stores of the scopes that were
/// entered.
///
/// The places of a write are those of its first token and of its target's name.
#[derive(Debug, Drop)]
pub enum Form {
    Nothing,
    Pause,
    Write {
        var: u32,
        index: Option<Expr<u32>>,
        value: Expr<u32>,
        delayed: bool,
        place: Place,
        target_place: Place,
    },
    If {
        cond: Expr<u32>,
        yes: Box<Form>,
        no: Box<Form>,
    },
    Seq(Vec<Form>),
    Par(Vec<Form>),
    /// `do body while(cond)`
    Loop {
        body: Box<Form>,
        cond: Expr<u32>,
    },
    Guard {
        abort: bool,
        weak: bool,
        immediate: bool,
        body: Box<Form>,
        cond: Expr<u32>,
    },
    /// A local's scope. It has a store once it was entered in a step before.
    Scope {
        var: u32,
        store: Option<Vec<Kept>>,
        body: Box<Form>,
    },
}
