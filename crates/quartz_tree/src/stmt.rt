//! Kernel statements.

use crate::expr::Expr;
use crate::place::Place;

/// A kernel statement over variables that are numbers.
///
/// The place of a write is its first token, and `target_place` that of the target's name. The place
/// of a loop is its first token.
#[derive(Debug)]
pub enum Stmt {
    Nothing,
    Pause,
    Write {
        var: u32,
        index: Option<Expr<u32>>,
        value: Expr<u32>,
        delayed: bool,
        place: Place,
        target_place: Place,
    },
    Choose {
        cond: Expr<u32>,
        yes: Box<Stmt>,
        no: Box<Stmt>,
    },
    Seq(Vec<Stmt>),
    Par(Vec<Stmt>),
    /// `do body while(cond)`
    Loop {
        body: Box<Stmt>,
        cond: Expr<u32>,
        place: Place,
    },
    Guard {
        abort: bool,
        weak: bool,
        immediate: bool,
        body: Box<Stmt>,
        cond: Expr<u32>,
    },
    Local {
        var: u32,
        body: Box<Stmt>,
    },
}

/// A loop over scopes, since a block's head makes as many, one in another, as it declares names.
impl Drop for Stmt {
    fn drop(mut self) {
        loop {
            match self {
                Stmt::Local { var: _, body } => self = Box::into_inner(body),
                Stmt::Nothing => return,
                Stmt::Pause => return,
                Stmt::Write {
                    var: _,
                    index: _,
                    value: _,
                    delayed: _,
                    place: _,
                    target_place: _,
                } => return,
                Stmt::Choose {
                    cond: _,
                    yes: _,
                    no: _,
                } => return,
                Stmt::Seq(_) => return,
                Stmt::Par(_) => return,
                Stmt::Loop {
                    body: _,
                    cond: _,
                    place: _,
                } => return,
                Stmt::Guard {
                    abort: _,
                    weak: _,
                    immediate: _,
                    body: _,
                    cond: _,
                } => return,
            }
        }
    }
}
