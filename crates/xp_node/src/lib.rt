//! One partition as a node: its turns one after the other, its steps, its log and its records.
#![tactic(auto)]

pub mod ended;
mod journal;
pub mod laws;
pub mod node;
mod turn;
