//! What a walk finds.

use crate::form::Form;
use quartz_expr::Act;
use quartz_tree::Fault;

/// An element of a scope that was met: the scope's variable, the value that was given to the
/// element, and the one that the scope's store and the body's writes resolve to.
#[derive(Clone, Copy, Debug, PartialEq, Eq)]
pub(crate) struct Meeting {
    pub var: u32,
    pub given: i64,
    pub wanted: i64,
}

/// What a walk through a form finds of its reaction, and how many values for scopes it used. Where
/// `held` is None the form itself is held.
#[derive(Debug, Drop)]
pub(crate) struct Found {
    pub residual: Form,
    pub held: Option<Form>,
    pub acts: Vec<Act>,
    pub faults: Vec<Fault>,
    pub met: Vec<Meeting>,
    pub ended: bool,
    pub used: usize,
}
