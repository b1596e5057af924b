//! Partitions as threads: each makes its turns in a thread of its own, over words that all share.
//!
//! What is proved of a run is that one history by the rules leads to the world that it leaves, and
//! that each partition has ended or made its budget of turns. Which order of steps comes, and that
//! partitions do run at the same time, no contract says.
#![tactic(auto)]

pub mod gate;
mod jobs;
pub mod run;
pub mod worker;
