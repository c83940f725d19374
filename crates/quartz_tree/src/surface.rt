//! Statements and modules as written.

use crate::declare::Decl;
use crate::expr::Expr;
use crate::name::Name;
use crate::place::Place;

/// The left side of a write. Its place is its name's.
#[derive(Debug, Drop)]
pub struct Target {
    pub name: Name,
    pub index: Option<Expr<Name>>,
    pub place: Place,
}

/// An argument of a call.
#[derive(Debug, Drop)]
pub struct Arg {
    pub name: Name,
    pub place: Place,
}

/// A statement as written. `Empty` stands for `;` and for `nothing ;`.
///
/// A statement's place is its first token behind its label; that of a call is the place of the
/// called module's name.
#[derive(Debug, Drop)]
pub enum Surface {
    Empty,
    Pause,
    Halt {
        place: Place,
    },
    Await {
        immediate: bool,
        cond: Expr<Name>,
        place: Place,
    },
    Emit {
        delayed: bool,
        target: Target,
        place: Place,
    },
    Write {
        delayed: bool,
        target: Target,
        value: Expr<Name>,
        place: Place,
    },
    Block {
        decls: Vec<Decl>,
        branches: Vec<Vec<Surface>>,
    },
    If {
        cond: Expr<Name>,
        yes: Box<Surface>,
        no: Option<Box<Surface>>,
    },
    Loop {
        body: Box<Surface>,
        place: Place,
    },
    Always {
        body: Box<Surface>,
        place: Place,
    },
    While {
        cond: Expr<Name>,
        body: Box<Surface>,
        place: Place,
    },
    Do {
        body: Box<Surface>,
        cond: Expr<Name>,
        place: Place,
    },
    Guard {
        abort: bool,
        weak: bool,
        immediate: bool,
        body: Box<Surface>,
        cond: Expr<Name>,
    },
    Call {
        module: Name,
        args: Vec<Arg>,
        place: Place,
    },
}

/// A module as written. Its body is a block.
#[derive(Debug, Drop)]
pub struct Module {
    pub name: Name,
    pub params: Vec<Decl>,
    pub body: Surface,
}
