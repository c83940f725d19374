//! Tests of what is read and written, in tables of rows: command words, traces, and the adapters to
//! the operating system.
#![tactic(auto)]

#[cfg(test)]
mod adapters;
#[cfg(test)]
mod params;
#[cfg(test)]
mod traces;
#[cfg(test)]
mod values;
#[cfg(test)]
mod words;
