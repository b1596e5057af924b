//! How far the counts of a partition go: each is bounded by the number of its turns.
#![tactic(auto)]

pub mod laws;
