//! What travels through the pipeline: the packets of macro steps, and the values that are fed back.
#![tactic(auto)]

mod packet;

pub use packet::{Back, Body, Cause, Packet};
