//! The world of a scenario: all partitions and the words of their memories.
#![tactic(auto)]

mod replay;
pub mod turning;
pub mod world;
