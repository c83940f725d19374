//! Tests of the front, in tables of rows: texts, their tokens and trees, names, kinds and
//! intervals, and what is said of them.
#![tactic(auto)]

#[cfg(test)]
mod modules;
#[cfg(test)]
mod readings;
#[cfg(test)]
mod rules;
#[cfg(test)]
mod tokens;
#[cfg(test)]
mod trees;
