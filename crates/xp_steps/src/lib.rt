//! The steps of a partition: which word a rule works on, and all that its answer leaves.
#![tactic(auto)]

mod booting;
mod counting;
pub mod laws;
mod linking;
mod owning;
mod peering;
pub mod stepping;
pub mod telling;
pub mod wanting;
