//! The rules of the protocol as definitions: what a partition knows, which steps it may make, what
//! becomes of what it knows, and what the rules promise of every history.
#![tactic(auto)]

pub mod contact;
pub mod refusal;
pub mod rule;
