//! Tests of the semantics, in tables of rows: whole runs of terms, walked step by step with stated
//! values, and the same runs read from cells.
#![tactic(auto)]

#[cfg(test)]
mod expressions;
#[cfg(test)]
mod outputs;
#[cfg(test)]
mod reading;
#[cfg(test)]
mod readings;
#[cfg(test)]
mod runs;
#[cfg(test)]
mod scopes;
#[cfg(test)]
mod shapes;
