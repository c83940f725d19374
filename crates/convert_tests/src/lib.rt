//! Tests of converting traces, in tables of rows.
#![tactic(auto)]

#[cfg(test)]
mod converting;
#[cfg(test)]
mod failures;
#[cfg(test)]
mod params;
#[cfg(test)]
mod round_trips;
