//! Tests of cells, in tables of rows: trees, copies of variables, statements, orders and loose
//! pairs, by themselves.
#![tactic(auto)]

#[cfg(test)]
mod closing;
#[cfg(test)]
mod operators;
#[cfg(test)]
mod orders;
#[cfg(test)]
mod pairs;
#[cfg(test)]
mod parts;
#[cfg(test)]
mod statements;
