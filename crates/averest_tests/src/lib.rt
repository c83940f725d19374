//! Tests of the whole program, in tables of rows: the words, a text and a trace, and what comes of
//! them.
#![tactic(auto)]

#[cfg(test)]
mod cells;
#[cfg(test)]
mod faults;
#[cfg(test)]
mod nested;
#[cfg(test)]
mod rows;
#[cfg(test)]
mod rules;
#[cfg(test)]
mod runs;
#[cfg(test)]
mod sizes;
