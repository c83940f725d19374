//! Tests of the least cut, in a table of rows, and of what travels through the pipeline.
#![tactic(auto)]

#[cfg(test)]
mod cuts;
#[cfg(test)]
mod packets;
