//! Which step a partition makes next on its rounds.
#![tactic(auto)]

pub mod affairs;
mod agenda;
pub mod planner;
